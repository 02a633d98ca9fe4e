ghost use Rattle.std.specs.Prelude.{◌≡◌, length, IfOk};
ghost use Rattle.tf_actions.specs.Gives.{IsWhole};

use crate::lists::named;
use std::alloc::Global;
use std::test::Fail;
use tf_actions::{Action, Args, Given, Order, Pair};
use tf_flow::{TaskKind, Undo};
use tf_values::{Text, Texts, Val};

/// The argument `value` with a value.
pub(crate) fn args(alloc: Global, value: Val) -> Result<Args, Fail>
    ensures { IfOk result (λ args. length args ≡ 1) }
{
    let name = named(b"value")?;
    let mut args = Vec::new(alloc);
    args.push(Pair { name, value })?;
    Ok(Args::make(args))
}

/// The order to echo a value.
pub(crate) fn echo(alloc: Global, value: Val) -> Result<Order, Fail>
    ensures { IfOk result IsWhole }
{
    let args = args(alloc, value)?;
    Ok(Order {
        atom: 0,
        action: Action::Execute,
        kind: TaskKind::Echo,
        words: Texts::make(Vec::new(alloc)),
        undo: Undo::Pass,
        given: Given::Found(args),
    })
}

/// The order to echo a symbol that is missing.
pub(crate) fn echo_of_missing(alloc: Global) -> Result<Order, Fail>
    ensures { IfOk result IsWhole }
{
    let name = named(b"x")?;
    Ok(Order {
        atom: 0,
        action: Action::Execute,
        kind: TaskKind::Echo,
        words: Texts::make(Vec::new(alloc)),
        undo: Undo::Pass,
        given: Given::Missing(name),
    })
}

/// The words of a program that is run without arguments.
fn words(alloc: Global, program: &[u8]) -> Result<Texts, Fail>
    ensures { IfOk result (λ words. length words ≡ 1) }
{
    let program = Text::make(alloc, program)?;
    let mut words = Vec::new(alloc);
    words.push(program)?;
    Ok(Texts::make(words))
}

/// The order to undo a task by a program.
pub(crate) fn undo(alloc: Global, program: &[u8]) -> Result<Order, Fail>
    ensures { IfOk result IsWhole }
{
    let words = words(alloc, program)?;
    Ok(Order {
        atom: 0,
        action: Action::Revert,
        kind: TaskKind::Echo,
        words: Texts::make(Vec::new(alloc)),
        undo: Undo::Run(words),
        given: Given::Found(Args::make(Vec::new(alloc))),
    })
}
