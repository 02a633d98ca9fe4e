ghost use Rattle.std.specs.Prelude.{◌≡◌, ◌≤◌, length, false, Some, IfOk};
ghost use Rattle.tf_flow.specs.Rules.{is_command, least_arguments};
ghost use Rattle.tf_actions.specs.Built.{built, by_first, by_first_two, echoed, measured, picked, compared, demanded, raised, joined};
ghost use Rattle.tf_flow.specs.declared.atoms.Undo.TheVariants as undo;
ghost use Rattle.tf_actions.specs.Gives.{Gives, GivesReverted, IsWhole};
ghost use Rattle.tf_tasks.specs.Program.{is_program, is_run};

use crate::lists::{list, measure, pick};
use crate::numbers::{compare, sum};
use crate::plain::{concat, demand, join, raise};
use std::alloc::Global;
use tf_actions::{Action, Given, Order, Outcome, Pair};
use tf_flow::{TaskKind, Undo};
use tf_states::Failure;
use tf_values::{Memory, Val};

/// The one outcome of an order for which no program is run. `Memory` says nothing of the order.
pub fn value_of(alloc: Global, order: &Order) -> Result<Outcome, Memory>
    requires whole { IsWhole order.now }
    requires no_program { is_program order.now ≡ false }
    ensures { IfOk result (λ outcome. Gives order.now outcome) }
{
    let args = match &order.given {
        Given::Found(args) => args,
        Given::Missing(symbol) => return Ok(Outcome::Failed(Failure::Lookup(*symbol))),
    };
    match order.action {
        Action::Execute => execute(alloc, order.kind, args.items()),
        Action::Revert => revert(alloc, &order.undo),
    }
}

/// What a built-in task gives for its arguments.
fn execute(alloc: Global, kind: TaskKind, pairs: &[Pair]) -> Result<Outcome, Memory>
    requires enough { least_arguments kind ≤ length pairs.now }
    requires few { length pairs.now ≤ 64 }
    requires no_command { is_command kind ≡ false }
    ensures { IfOk result (λ outcome. built kind pairs.now ≡ Some outcome) }
{
    match kind {
        TaskKind::Echo => echo(alloc, pairs),
        TaskKind::Concat => concat(alloc, pairs),
        TaskKind::Sum => Ok(sum(pairs)),
        TaskKind::List => list(alloc, pairs),
        TaskKind::Fail => fail(alloc, pairs),
        TaskKind::Length => length_of_first(pairs),
        TaskKind::FailUnless => demand_first(alloc, pairs),
        TaskKind::Pick => pick_from_first(alloc, pairs),
        TaskKind::FailBelow => compare_first(alloc, pairs),
        TaskKind::Command => unreachable!(),
    }
}

/// The first argument, or nothing.
fn echo(alloc: Global, pairs: &[Pair]) -> Result<Outcome, Memory>
    ensures { IfOk result (λ outcome. outcome ≡ echoed pairs.now) }
{
    match pairs {
        [] => Ok(Outcome::Gave(Val::Nothing)),
        [first, ..] => Ok(Outcome::Gave(first.value.copy(alloc)?)),
    }
}

/// A failure that raises the joined arguments.
fn fail(alloc: Global, pairs: &[Pair]) -> Result<Outcome, Memory>
    ensures { IfOk result (λ outcome. outcome ≡ raised (joined pairs.now)) }
{
    let bytes = join(alloc, pairs)?;
    raise(alloc, &bytes)
}

fn length_of_first(pairs: &[Pair]) -> Result<Outcome, Memory>
    requires { 1 ≤ length pairs.now }
    ensures { IfOk result (λ outcome. by_first (λ first. measured first.name first.value) pairs.now ≡ Some outcome) }
{
    match pairs {
        [] => unreachable!(),
        [first, ..] => Ok(measure(first)),
    }
}

fn demand_first(alloc: Global, pairs: &[Pair]) -> Result<Outcome, Memory>
    requires { 1 ≤ length pairs.now }
    ensures { IfOk result (λ outcome. by_first (λ first. demanded first.value) pairs.now ≡ Some outcome) }
{
    match pairs {
        [] => unreachable!(),
        [first, ..] => demand(alloc, &first.value),
    }
}

fn pick_from_first(alloc: Global, pairs: &[Pair]) -> Result<Outcome, Memory>
    requires { 2 ≤ length pairs.now }
    ensures { IfOk result (λ outcome. by_first_two (λ first second. picked first first.value second) pairs.now
        ≡ Some outcome) }
{
    match pairs {
        [first, second, ..] => pick(alloc, first, second),
        _ => unreachable!(),
    }
}

fn compare_first(alloc: Global, pairs: &[Pair]) -> Result<Outcome, Memory>
    requires { 2 ≤ length pairs.now }
    ensures { IfOk result (λ outcome. by_first_two (λ first second. compared first first.value second) pairs.now
        ≡ Some outcome) }
{
    match pairs {
        [first, second, ..] => compare(alloc, first, second),
        _ => unreachable!(),
    }
}

/// What is given where no program undoes a task.
fn revert(alloc: Global, undo: &Undo) -> Result<Outcome, Memory>
    requires { is_run undo.now ≡ false }
    ensures { IfOk result (λ outcome. GivesReverted undo.now outcome) }
{
    match undo {
        Undo::Pass => Ok(Outcome::Gave(Val::Nothing)),
        Undo::Fail => raise_revert(alloc),
        Undo::Run(_) => unreachable!(),
    }
}

/// The failure of a revert that fails always.
fn raise_revert(alloc: Global) -> Result<Outcome, Memory>
    ensures { IfOk result (λ outcome. GivesReverted undo.Fail outcome) }
{
    raise(alloc, b"revert")
}
