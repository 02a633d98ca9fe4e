//! How far an audit has come, and how one line more is followed.

ghost use Rattle.std.specs.Prelude.{◌≡◌, ◌<◌, ◌≤◌, ◌+◌, ◌^◌, ℕ, List, [], true, IfOk, OnOk, IfSome, length};
ghost use Rattle.tf_states.specs.declared.record.Entry.{Entry as Record};
ghost use Rattle.tf_model.specs.Plan.{Outline};
ghost use Rattle.tf_machine.specs.Answers.{IsBack};
ghost use Rattle.tf_machine.specs.Machine.{outline, shown, StandsFor};
ghost use Rattle.tf_machine.specs.declared.faults.ApplyFault.TheVariants.{NotAStep as refuses};
ghost use Rattle.tf_audit.specs.Verdicts.{is_examined, IsExpected};
ghost use Rattle.tf_audit.specs.Progress.{AreWhole, CanGoOn, HasCome, TakesEntry, TakesLine, IsLegalSoFar, orders_with};

use crate::ends::fits;
use crate::entries::read_line;
use crate::lines::is_passed_over;
use crate::names::{flow_index, names_are_names};
use crate::starts::order_asked;
use crate::verdicts::{Verdict, Why};
use indexmap::IndexSet;
use std::alloc::Global;
use tf_actions::Order;
use tf_machine::{ApplyFault, Machine};
use tf_states::Entry;
use tf_values::{Memory, Name};

/// What an audit keeps of the lines so far: a machine that stands for the history that they say, of each task the order of
/// its last start, the names of the flows by their numbers, and how many entries there are.
#[derive(Drop)]
pub struct Progress {
    pub machine: Machine,
    pub orders: Vec<Option<Order>>,
    pub flows: IndexSet<Name>,
    pub entries: u64,
}

impl Progress {
    /// An audit before the first line.
    pub fn make(alloc: Global, machine: Machine) -> Result<Progress, Memory>
        requires { StandsFor machine [] }
        ensures ready { IfOk result CanGoOn }
        ensures begun { IfOk result (HasCome (outline machine) []) }
        ensures few { IfOk result (λ progress. progress.entries ≡ 0) }
        ensures plan { IfOk result (λ progress. progress.machine.plan ≡ machine.plan) }
    {
        let plan = machine.plan();
        names_are_names(plan);
        let flows = flow_index(alloc, plan)?;
        let orders = no_orders(alloc, plan.atoms())?;
        Ok(Progress {
            machine,
            orders,
            flows,
            entries: 0,
        })
    }

    /// Follows one line more. There is an answer where it can't be: why.
    pub fn follow(&mut self, alloc: Global, text: &[u8]) -> Result<Option<Why>, Memory>
        requires ready { CanGoOn self.old }
        requires few { self.old.entries < 2 ^ 63 }
        ensures ready { OnOk result (CanGoOn self.new) }
        ensures few { self.new.entries ≤ self.old.entries + 1 }
        ensures follows { IfOk result (TakesLine self.old self.new text.now) }
        ensures plan { self.new.machine.plan ≡ self.old.machine.plan }
    {
        if is_passed_over(text) {
            return Ok(None);
        }
        self.examine(alloc, text)
    }

    /// Follows one line more that is examined.
    fn examine(&mut self, alloc: Global, text: &[u8]) -> Result<Option<Why>, Memory>
        requires ready { CanGoOn self.old }
        requires few { self.old.entries < 2 ^ 63 }
        requires examined { is_examined text.now ≡ true }
        ensures ready { OnOk result (CanGoOn self.new) }
        ensures few { self.new.entries ≤ self.old.entries + 1 }
        ensures follows { IfOk result (TakesLine self.old self.new text.now) }
        ensures plan { self.new.machine.plan ≡ self.old.machine.plan }
    {
        let Some(read) = read_line(alloc, self.machine.plan(), &self.flows, text)? else {
            return Ok(Some(Why::Unreadable));
        };
        if read.number != self.entries + 1 {
            return Ok(Some(Why::Number));
        }
        self.take(alloc, read.entry)
    }

    /// Takes one entry more, or says why it can't stand here.
    fn take(&mut self, alloc: Global, entry: Entry) -> Result<Option<Why>, Memory>
        requires ready { CanGoOn self.old }
        requires few { self.old.entries < 2 ^ 63 }
        ensures ready { OnOk result (CanGoOn self.new) }
        ensures few { self.new.entries ≤ self.old.entries + 1 }
        ensures takes { IfOk result (TakesEntry self.old self.new entry) }
        ensures plan { self.new.machine.plan ≡ self.old.machine.plan }
    {
        let asked = order_asked(alloc, &self.machine, &entry.what)?;
        let fits = fits(alloc, &self.machine, self.orders.as_slice(), &entry)?;
        match self.machine.apply(alloc, entry) {
            Ok(()) => {
                if !fits {
                    return Ok(Some(Why::Value));
                }
                put(&mut self.orders, asked);
                self.entries += 1;
                Ok(None)
            }
            Err(fault) => {
                let why = instead(alloc, &self.machine, fault)?;
                Ok(Some(why))
            }
        }
    }

    /// The verdict where no line is left.
    pub fn legal(&self) -> Verdict
        ensures { (plan : Outline) (texts : List (List ℕ)) → HasCome plan texts self.now
            → IsLegalSoFar plan texts result }
    {
        Verdict::Legal {
            entries: self.entries,
            state: self.machine.flow_state(),
        }
    }
}

/// No order of any atom.
fn no_orders(alloc: Global, atoms: u16) -> Result<Vec<Option<Order>>, Memory>
    ensures many { IfOk result (λ orders. length orders.items ≡ atoms) }
    ensures whole { IfOk result (λ orders. AreWhole orders.items) }
{
    let mut orders = Vec::with_capacity(alloc, atoms as usize)?;
    for _atom in 0..atoms {
        orders.push(None)?;
    }
    Ok(orders)
}

/// Keeps the order of a task that is taken up.
fn put(orders: &mut Vec<Option<Order>>, asked: Option<(u16, Order)>)
    requires { IfSome asked (λ p. p.0 < length orders.old.items) }
    ensures { orders.new.items ≡ orders_with orders.old.items asked }
{
    if let Some((atom, order)) = asked {
        orders[atom as usize] = Some(order);
    }
}

/// What should stand in the place of an entry that the machine gave back, unless memory ran out.
fn instead(alloc: Global, machine: &Machine, fault: ApplyFault) -> Result<Why, Memory>
    ensures refused { OnOk result ((e : Record) → IsBack e fault → fault ≡ refuses e) }
    ensures expected { IfOk result (IsExpected (outline machine.now) (shown machine.now)) }
{
    let refused = is_refusal(&fault);
    drop(fault);
    if !refused {
        return Err(Memory);
    }
    expected(alloc, machine)
}

/// Whether the entry may not follow.
fn is_refusal(fault: &ApplyFault) -> bool
    ensures { result ≡ true → (e : Record) → IsBack e fault.now → fault.now ≡ refuses e }
{
    matches!(fault, ApplyFault::NotAStep(_))
}

/// What should stand in the place of an entry that may not follow.
fn expected(alloc: Global, machine: &Machine) -> Result<Why, Memory>
    ensures { IfOk result (IsExpected (outline machine.now) (shown machine.now)) }
{
    if let Some(what) = machine.forced(alloc)? {
        return Ok(Why::Forced(what));
    }
    match machine.candidate() {
        Some(start) => Ok(Why::First(start)),
        None => Ok(Why::NoStep),
    }
}
