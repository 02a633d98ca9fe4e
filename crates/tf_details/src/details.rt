//! The details of a book as they were read: a machine for each, in the order of their numbers.
ghost use Rattle.std.specs.Prelude.{◌≡◌, ◌≢◌, ◌<◌, ◌≤◌, ◌∷◌, ◌++◌, ◌⊎◌, [], ℕ, List, length, None, Some, IfSome, OnOk, IsErrOf, option_map, position, slice_index_or};
ghost use Rattle.tf_states.specs.declared.record.Entry.{Entry as Record};
ghost use Rattle.tf_machine.specs.Answers.{IsBack};
ghost use Rattle.tf_machine.specs.Machine.{MachineValue, StandsFor};
ghost use Rattle.tf_machine.specs.declared.faults.ApplyFault.TheVariants.{NotAStep as refuses};
ghost use Rattle.tf_model.specs.History.{flow_of};
ghost use Rattle.tf_details.specs.Elements.{Element, details as details_of, plan_of, history, detail_name, has_name, number_among, IsNoEntry};
ghost use Rattle.tf_details.specs.Reading.{plans_in, is_named, AreMachinesOf, IsReadEntry, HasTaken};

use std::alloc::Global;
use std::marker::Model;
use tf_entries::entry_has_one_form;
use tf_machine::{ApplyFault, Machine};
use tf_states::{Entry, FlowState};
use tf_values::{MakeFault, Name};

/// The most details of a book.
const DETAIL_LIMIT: usize = 64;

/// The details of a book as far as it was read. Contracts see a machine for each, in the order of their numbers.
#[derive(Drop)]
pub struct Details {
    machines: Vec<Machine>,
}

impl Model for Details {
    ghost use Rattle.std.specs.Coded.{codes};
    ghost use Rattle.std.specs.Prelude.{List, length, ◌≤◌};
    ghost use Rattle.tf_flow.specs.contracts.nested.Flow as flow;
    ghost use Rattle.tf_machine.specs.Machine.{MachineValue};

    ghost Value = { List MachineValue };

    ghost coded = { Prim.hlevel (codes, flow.the_row.coded) };

    ghost view = { λ d. d.machines.items };

    ghost invariant = { λ d. length d.machines.items ≤ 64 };
}

/// Whether the machine is that of the detail with this name.
fn is_named(machine: &Machine, name: &Name) -> bool
    ensures { result ≡ has_name name.now machine.now.plan }
{
    machine.plan().root().name == *name
}

/// Why an entry is refused that wasn't applied.
fn unapplied(fault: &ApplyFault) -> MakeFault
    ensures { result ≡ MakeFault.No → (e : Record) → IsBack e fault.now → fault.now ≡ refuses e }
{
    match fault {
        ApplyFault::Memory(_) => MakeFault::Memory,
        ApplyFault::NotAStep(_) => MakeFault::No,
    }
}

impl Details {
    /// No detail yet.
    pub fn none(alloc: Global) -> Details
        ensures is { result ≡ [] }
    {
        Details {
            machines: Vec::new(alloc),
        }
    }

    /// How many details there are.
    pub fn count(&self) -> u16
        ensures is { result ≡ length self.now }
        ensures few { result ≤ 64 }
        ensures details { (book : List Element) → AreMachinesOf self.now book → result ≡ length (details_of book) }
    {
        self.machines.len() as u16
    }

    /// The machine of a detail.
    pub fn machine(&self, number: u16) -> &Machine
        requires { number < length self.now }
        ensures is { result.now ≡ slice_index_or self.now number result.now }
        ensures plan { (book : List Element) → AreMachinesOf self.now book
            → plan_of book number ≡ Some result.now.plan }
        ensures stands { (book : List Element) → AreMachinesOf self.now book
            → StandsFor result.now (history number book) }
    {
        &self.machines[number as usize]
    }

    /// The name of a detail.
    pub fn name(&self, number: u16) -> &Name
        requires { number < length self.now }
        ensures { (book : List Element) → AreMachinesOf self.now book
            → option_map detail_name (plan_of book number) ≡ Some result.now }
    {
        &self.machine(number).plan().root().name
    }

    /// The state of the flow of a detail.
    pub fn state(&self, number: u16) -> FlowState
        requires { number < length self.now }
        ensures { (book : List Element) → AreMachinesOf self.now book → result ≡ flow_of (history number book) }
    {
        self.machine(number).flow_state()
    }

    /// The number of the detail with this name; none where no detail has it.
    pub fn find(&self, name: &Name) -> Option<u16>
        ensures is { result ≡ number_among (plans_in self.now) name.now }
        ensures details { (book : List Element) → AreMachinesOf self.now book
            → result ≡ number_among (details_of book) name.now }
    {
        match self.place_of(name) {
            Some(place) => Some(place as u16),
            None => None,
        }
    }

    /// The machine of a detail, which alone is kept.
    pub fn into_machine(self, number: u16) -> Machine
        requires { number < length self }
        ensures is { result ≡ slice_index_or self number result }
        ensures plan { (book : List Element) → AreMachinesOf self book → plan_of book number ≡ Some result.plan }
        ensures stands { (book : List Element) → AreMachinesOf self book → StandsFor result (history number book) }
    {
        let mut machines = self.machines;
        machines.swap_remove(number as usize)
    }

    /// Where the machine of the detail with this name stands.
    fn place_of(&self, name: &Name) -> Option<usize>
        ensures is { result ≡ position (is_named name.now) self.now }
        ensures within { IfSome result (λ place. place < 64) }
    {
        self.machines
            .iter()
            .position(|machine| is_named(machine, name))
    }

    /// Adds a machine before a run, for a new detail. `No` comes exactly where there are 64 details, or where one
    /// of them has its name.
    pub fn add(&mut self, machine: Machine) -> Result<(), MakeFault>
        ensures added { OnOk result (self.new ≡ self.old ++ machine ∷ []) }
        ensures few { OnOk result (length self.old < 64) }
        ensures unnamed { OnOk result (number_among (plans_in self.old) (detail_name machine.plan) ≡ None) }
        ensures refused { IsErrOf result MakeFault.No → (64 ≤ length self.old)
            ⊎ (number_among (plans_in self.old) (detail_name machine.plan) ≢ None) }
    {
        if self.machines.len() >= DETAIL_LIMIT {
            return Err(MakeFault::No);
        }
        match self.find(&machine.plan().root().name) {
            Some(_) => Err(MakeFault::No),
            None => {
                self.machines.push(machine)?;
                Ok(())
            }
        }
    }

    /// Appends an entry to the history of a detail. `No` comes where it may not follow.
    pub fn take(&mut self, alloc: Global, number: u16, entry: Entry) -> Result<(), MakeFault>
        requires { number < length self.old }
        ensures taken { OnOk result (HasTaken self.old self.new number entry) }
        ensures refused { IsErrOf result MakeFault.No → (book : List Element) → (form : List ℕ)
            → AreMachinesOf self.old book → IsReadEntry self.old number form entry → IsNoEntry book number form }
    {
        entry_has_one_form();
        let machine = &mut self.machines[number as usize];
        match machine.apply(alloc, entry) {
            Ok(()) => Ok(()),
            Err(fault) => {
                let why = unapplied(&fault);
                drop(fault);
                Err(why)
            }
        }
    }
}
