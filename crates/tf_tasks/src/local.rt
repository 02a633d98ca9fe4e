ghost use Rattle.std.specs.Prelude.{◌≡◌, [], true, false, Some, IfOk, OnErr, ◌≤◌, length};
ghost use Rattle.std.specs.List.{list_all};
ghost use Rattle.tf_actions.specs.Gives.{Gives, GivesNothing, IsWhole};
ghost use Rattle.tf_flow.specs.declared.atoms.Undo.TheVariants as undo;
ghost use Rattle.tf_ports.specs.Noted.{noted};
ghost use Rattle.tf_tasks.specs.GivesLaws.{gives_looks_up, gives_reverts};
ghost use Rattle.tf_tasks.specs.Program.{is_program as asks_program, runs_program, IsUnspawned};
ghost use Rattle.tf_tasks.specs.Run.{has_text, spawns, ObeysOrder, RunsOutOnOrder, RunsAtMost, UndoesTo};

use crate::built_ins::value_of;
use crate::runs::{drop_output, run};
use std::alloc::Global;
use tf_actions::{Action, Given, Order, Outcome, Pair, Performer};
use tf_flow::{TaskKind, Undo};
use tf_log::Log;
use tf_ports::Spawner;
use tf_values::{Memory, Text};

/// Whether a program is asked for: a command is executed, or an undo that is a program, and the arguments were found.
pub fn is_program(order: &Order) -> bool
    ensures { result ≡ asks_program order.now }
{
    match (order.action, &order.given) {
        (_, Given::Missing(_)) => false,
        (Action::Execute, Given::Found(_)) => matches!(order.kind, TaskKind::Command),
        (Action::Revert, Given::Found(_)) => matches!(order.undo, Undo::Run(_)),
    }
}

/// The hand that performs orders in this process: built-in tasks itself, and programs by its spawner. It notes each order
/// with the outcome that it gave, and tells its orders.
#[derive(Drop)]
pub struct LocalHand<S> {
    spawner: S,
    done: Log<Order, Outcome>,
}

impl<S> LocalHand<S> {
    /// A hand that runs programs by this spawner, and has no order yet.
    pub fn make(spawner: S) -> LocalHand<S>
        ensures spawner { result.spawner ≡ spawner }
        ensures fresh { result.done.items ≡ [] }
    {
        LocalHand {
            spawner,
            done: Log::new(),
        }
    }

    /// The spawner back.
    pub fn spawner(self) -> S
        ensures { result ≡ self.spawner }
    {
        self.spawner
    }
}

impl<S: Spawner> LocalHand<S> {
    /// The outcome of an order: the only one where no program is run, and else what came of the program. The spawner is
    /// asked for nothing but the program of an order whose arguments are all texts.
    pub fn obey(&mut self, alloc: Global, order: &Order) -> Result<Outcome, Memory>
        requires whole { IsWhole order.now }
        ensures gives { IfOk result (λ outcome. Gives order.now outcome) }
        ensures program { asks_program order.now ≡ true → IfOk result (λ outcome. ObeysOrder
            (spawns S.answers S.faults S.ran self.old.spawner self.new.spawner) order.now outcome) }
        ensures at_most { asks_program order.now ≡ true → OnErr result (RunsOutOnOrder
            (spawns S.answers S.faults S.ran self.old.spawner self.new.spawner) order.now) }
        ensures unrun { runs_program order.now ≡ false → self.new ≡ self.old }
        ensures unnoted { self.new.done.items ≡ self.old.done.items }
        ensures no_fall { S.faults self.old.spawner ≤ S.faults self.new.spawner }
    {
        if let Given::Found(args) = &order.given {
            if order.action == Action::Execute && order.kind == TaskKind::Command {
                return run(alloc, &mut self.spawner, order.words.items(), args.items());
            }
            if let (Action::Revert, Undo::Run(words)) = (order.action, &order.undo) {
                return undo(alloc, &mut self.spawner, words.items(), args.items());
            }
        }
        value_of(alloc, order)
    }
}

/// Runs a program that undoes.
fn undo<S: Spawner>(
    alloc: Global,
    spawner: &mut S,
    words: &[Text],
    pairs: &[Pair],
) -> Result<Outcome, Memory>
    requires { 1 ≤ length words.now }
    ensures runs { IfOk result (λ outcome. UndoesTo (spawns S.answers S.faults S.ran spawner.old spawner.new)
        (undo.Run words.now) pairs.now outcome) }
    ensures at_most { OnErr result (RunsAtMost (spawns S.answers S.faults S.ran spawner.old spawner.new) words.now
        pairs.now) }
    ensures gives { IfOk result (λ outcome. GivesNothing outcome) }
    ensures unrun { list_all has_text pairs.now ≡ false → spawner.new ≡ spawner.old }
    ensures no_fall { S.faults spawner.old ≤ S.faults spawner.new }
{
    let full = run(alloc, spawner, words, pairs)?;
    Ok(drop_output(full))
}

impl<S: Spawner> Performer for LocalHand<S> {
    ghost did = { λ hand. Some (noted hand.done.items) };

    ghost gives = { Gives };

    ghost faults = { λ hand. S.faults hand.spawner };

    ghost of_fault = { IsUnspawned };

    ghost looks_up = { gives_looks_up };

    ghost reverts_to_nothing = { gives_reverts };

    fn perform(&mut self, alloc: Global, order: &Order) -> Result<Outcome, Memory> {
        let outcome = self.obey(alloc, order)?;
        self.done = self.done.and(order, &outcome);
        Ok(outcome)
    }
}
