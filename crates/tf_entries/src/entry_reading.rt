ghost use Rattle.std.specs.Prelude.{◌≡◌, ◌≢◌, length, Some, IfOk, IfErr, IsErrOf};
ghost use Rattle.tf_flow.specs.Plan as numbering;
ghost use Rattle.tf_states.specs.declared.record.Entry.{Entry};
ghost use Rattle.tf_entries.specs.Entries.{IsEntry, entry_bytes};
ghost use Rattle.tf_entries.specs.EntryReading as form;
ghost use Rattle.tf_entries.specs.Reading.{RefusesForm, whole};

use crate::reader::Reader;
use std::alloc::Global;
use tf_flow::Plan;
use tf_states::{AtomState, Entry, Failure, FlowState, Kind, Payload, What};
use tf_values::MakeFault;

/// The entry of these bytes, of which none may be left over. `No` comes exactly where no entry of the
/// plan has them.
pub fn decode_entry(alloc: Global, plan: &Plan, bytes: &[u8]) -> Result<Entry, MakeFault>
    ensures ok { IfOk result (λ entry. IsEntry (length (numbering.atoms plan.now))
        (length (numbering.flows plan.now)) entry
        × (entry_bytes entry ≡ bytes.now)) }
    ensures refused { IsErrOf result MakeFault.No → (e : Entry)
        → IsEntry (length (numbering.atoms plan.now)) (length (numbering.flows plan.now)) e
        → entry_bytes e ≢ bytes.now }
{
    whole_entry(alloc, plan.atoms(), plan.flows(), bytes)
}

/// The entry of these bytes in a plan of so many atoms and flows.
fn whole_entry(alloc: Global, atoms: u16, flows: u16, bytes: &[u8]) -> Result<Entry, MakeFault>
    ensures ok { IfOk result (λ entry. whole (form.read_entry atoms flows bytes.now) ≡ Some entry) }
    ensures refused { IfErr result (RefusesForm (whole (form.read_entry atoms flows bytes.now))) }
{
    let mut reader = Reader::make(bytes);
    let entry = reader.entry(alloc, atoms, flows)?;
    if !reader.is_at_end() {
        return Err(MakeFault::No);
    }
    Ok(entry)
}

impl Reader<'_> {
    /// An entry of a plan of so many atoms and flows.
    fn entry(&mut self, alloc: Global, atoms: u16, flows: u16) -> Result<Entry, MakeFault>
        ensures ok { IfOk result (λ entry. form.read_entry atoms flows self.old ≡ Some (entry, self.new)) }
        ensures refused { IfErr result (RefusesForm (form.read_entry atoms flows self.old)) }
    {
        let hand = self.byte()?;
        if hand >= 64 {
            return Err(MakeFault::No);
        }
        let what = self.what(alloc, atoms, flows)?;
        Ok(Entry { hand, what })
    }

    /// What was recorded.
    fn what(&mut self, alloc: Global, atoms: u16, flows: u16) -> Result<What, MakeFault>
        ensures ok { IfOk result (λ what. form.read_what atoms flows self.old ≡ Some (what, self.new)) }
        ensures refused { IfErr result (RefusesForm (form.read_what atoms flows self.old)) }
    {
        match self.byte()? {
            1 => self.atom(alloc, atoms),
            2 => Ok(What::Flow(self.flow_state()?)),
            3 => self.resolve(flows),
            4 => Ok(What::Restart(self.number_below(atoms)?)),
            _ => Err(MakeFault::No),
        }
    }

    /// What an atom enters.
    fn atom(&mut self, alloc: Global, atoms: u16) -> Result<What, MakeFault>
        ensures ok { IfOk result (λ what. form.read_atom atoms self.old ≡ Some (what, self.new)) }
        ensures refused { IfErr result (RefusesForm (form.read_atom atoms self.old)) }
    {
        let atom = self.number_below(atoms)?;
        let state = self.atom_state()?;
        let payload = self.payload(alloc, state)?;
        Ok(What::Atom {
            atom,
            state,
            payload,
        })
    }

    /// A resolution at a flow.
    fn resolve(&mut self, flows: u16) -> Result<What, MakeFault>
        ensures ok { IfOk result (λ what. form.read_resolve flows self.old ≡ Some (what, self.new)) }
        ensures refused { IfErr result (RefusesForm (form.read_resolve flows self.old)) }
    {
        let flow = self.number_below(flows)?;
        let kind = self.kind()?;
        Ok(What::Resolve { flow, kind })
    }

    /// A number below this one.
    fn number_below(&mut self, count: u16) -> Result<u16, MakeFault>
        ensures ok { IfOk result (λ number. form.read_below count self.old ≡ Some (number, self.new)) }
        ensures refused { IfErr result (RefusesForm (form.read_below count self.old)) }
    {
        let number = self.u16()?;
        if number >= count {
            return Err(MakeFault::No);
        }
        Ok(number)
    }

    /// The state of an atom.
    fn atom_state(&mut self) -> Result<AtomState, MakeFault>
        ensures ok { IfOk result (λ state. form.read_atom_state self.old ≡ Some (state, self.new)) }
        ensures refused { IfErr result (RefusesForm (form.read_atom_state self.old)) }
    {
        match self.byte()? {
            0 => Ok(AtomState::Pending),
            1 => Ok(AtomState::Running),
            2 => Ok(AtomState::Success),
            3 => Ok(AtomState::Failure),
            4 => Ok(AtomState::Reverting),
            5 => Ok(AtomState::Reverted),
            6 => Ok(AtomState::RevertFailure),
            7 => Ok(AtomState::Ignore),
            8 => Ok(AtomState::Retrying),
            _ => Err(MakeFault::No),
        }
    }

    /// The state of the flow.
    fn flow_state(&mut self) -> Result<FlowState, MakeFault>
        ensures ok { IfOk result (λ state. form.read_flow_state self.old ≡ Some (state, self.new)) }
        ensures refused { IfErr result (RefusesForm (form.read_flow_state self.old)) }
    {
        match self.byte()? {
            0 => Ok(FlowState::Pending),
            1 => Ok(FlowState::Running),
            2 => Ok(FlowState::Success),
            3 => Ok(FlowState::Failure),
            4 => Ok(FlowState::Reverted),
            5 => Ok(FlowState::Suspending),
            6 => Ok(FlowState::Suspended),
            7 => Ok(FlowState::Resuming),
            _ => Err(MakeFault::No),
        }
    }

    /// What a failure is resolved to.
    fn kind(&mut self) -> Result<Kind, MakeFault>
        ensures ok { IfOk result (λ kind. form.read_kind self.old ≡ Some (kind, self.new)) }
        ensures refused { IfErr result (RefusesForm (form.read_kind self.old)) }
    {
        match self.byte()? {
            0 => Ok(Kind::Retry),
            1 => Ok(Kind::Revert),
            2 => Ok(Kind::RevertAll),
            _ => Err(MakeFault::No),
        }
    }

    /// The payload that the state names.
    fn payload(&mut self, alloc: Global, state: AtomState) -> Result<Payload, MakeFault>
        ensures ok { IfOk result (λ payload. form.read_payload state self.old ≡ Some (payload, self.new)) }
        ensures refused { IfErr result (RefusesForm (form.read_payload state self.old)) }
    {
        match state {
            AtomState::Success => Ok(Payload::Value(self.value(alloc)?)),
            AtomState::Failure | AtomState::RevertFailure => {
                Ok(Payload::Fault(self.failure(alloc)?))
            }
            _ => Ok(Payload::Empty),
        }
    }

    /// A failure.
    fn failure(&mut self, alloc: Global) -> Result<Failure, MakeFault>
        ensures ok { IfOk result (λ failure. form.read_failure self.old ≡ Some (failure, self.new)) }
        ensures refused { IfErr result (RefusesForm (form.read_failure self.old)) }
    {
        match self.byte()? {
            0 => Ok(Failure::Raised(self.text(alloc)?)),
            1 => Ok(Failure::WrongKind(self.name()?)),
            2 => Ok(Failure::Overflow),
            3 => Ok(Failure::Range),
            4 => Ok(Failure::TooLong),
            5 => Ok(Failure::Lookup(self.name()?)),
            6 => Ok(Failure::Exit(self.i32()?)),
            7 => Ok(Failure::Spawn),
            8 => Ok(Failure::NotText),
            9 => Ok(Failure::Lost),
            10 => Ok(Failure::BadReply(self.u32()?)),
            11 => Ok(Failure::Exhausted),
            _ => Err(MakeFault::No),
        }
    }
}
