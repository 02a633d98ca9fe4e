ghost use Rattle.std.specs.Prelude.{◌≡◌, ◌∷◌, ◌++◌, [], codes, map, true, IfOk};
ghost use Rattle.tf_values.specs.Text.{is_name, is_text};
ghost use Rattle.tf_values.specs.declared.value.Val.TheVariants.{Text as as_text};
ghost use Rattle.tf_demo.specs.Demo.{task_drawn as task_said, plain_task as task_with, argument as argument_of};

use crate::names::numbered;
use std::alloc::Global;
use tf_flow::{Arg, ArgList, Bind, Binds, Provides, Task, TaskKind, Undo};
use tf_values::{MakeFault, Memory, Name, Text, Texts, Val};

/// The task of a number in a group, by a draw of 4.
pub fn task_drawn(alloc: Global, group: u16, number: u16, draw: u32) -> Result<Task, Memory>
    ensures { IfOk result (λ task. task ≡ task_said group number draw) }
{
    let attempt = numbered(alloc, b'n', group)?;
    let value = Val::Int(number as i64);
    if draw == 0 {
        return plain_task(alloc, number, TaskKind::Echo, &[], b"value", value);
    }
    if draw == 1 {
        return plain_task(
            alloc,
            number,
            TaskKind::FailBelow,
            &[attempt],
            b"limit",
            Val::Int(2),
        );
    }
    if draw == 2 {
        return plain_task(alloc, number, TaskKind::Sum, &[attempt], b"k", value);
    }
    let text = text_of(alloc, b"x")?;
    plain_task(alloc, number, TaskKind::Concat, &[attempt], b"text", text)
}

/// The text of these bytes as a value.
fn text_of(alloc: Global, bytes: &[u8]) -> Result<Val, Memory>
    requires { is_text bytes.now ≡ true }
    ensures { IfOk result (λ text. text ≡ as_text bytes.now) }
{
    match Text::make(alloc, bytes) {
        Ok(text) => Ok(Val::Text(text)),
        Err(MakeFault::No) => unreachable!(),
        Err(MakeFault::Memory) => Err(Memory),
    }
}

/// A task with these names required and one symbol injected, in which all else is as a flow file has it
/// that says nothing of it.
fn plain_task(
    alloc: Global,
    number: u16,
    kind: TaskKind,
    required: &[Name],
    symbol: &[u8],
    constant: Val,
) -> Result<Task, Memory>
    requires { is_name symbol.now ≡ true }
    ensures { IfOk result (λ task. task ≡ task_with number kind required.now symbol.now constant) }
{
    let symbol = Name::make(symbol).unwrap();
    Ok(Task {
        name: numbered(alloc, b't', number)?,
        kind,
        words: Texts::make(Vec::new(alloc)),
        args: arguments(alloc, required, symbol)?,
        inject: injected(alloc, symbol, constant)?,
        provides: Provides::Nothing,
        priority: 0,
        undo: Undo::Pass,
    })
}

/// The arguments of the required names, and then that of the injected symbol.
fn arguments(alloc: Global, required: &[Name], symbol: Name) -> Result<ArgList, Memory>
    ensures { IfOk result (λ args. args ≡ map argument_of (required.now ++ symbol ∷ [])) }
{
    let mut args = Vec::new(alloc);
    for name in required {
        args.push(argument(*name))?;
    }
    args.push(argument(symbol))?;
    Ok(ArgList::make(args))
}

/// The argument that takes the symbol of its own name.
fn argument(symbol: Name) -> Arg
    ensures { result ≡ argument_of symbol }
{
    Arg {
        name: symbol,
        symbol,
    }
}

/// One symbol with its value.
fn injected(alloc: Global, symbol: Name, value: Val) -> Result<Binds, Memory>
    ensures { IfOk result (λ binds. binds ≡ record { symbol = symbol; value = value } ∷ []) }
{
    let mut binds = Vec::new(alloc);
    binds.push(Bind { symbol, value })?;
    Ok(Binds::make(binds))
}
