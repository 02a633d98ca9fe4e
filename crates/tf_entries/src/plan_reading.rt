ghost use Rattle.std.specs.Prelude.{◌≡◌, ◌≢◌, ◌++◌, ◌∷◌, [], suc, map, None, Some, IfOk, OnOk, IfErr, IsErrOf};
ghost use Rattle.tf_flow.specs.Plan.{PlanValue, as_written, item_as_written};
ghost use Rattle.tf_flow.specs.Rules.{first_refusal};
ghost use Rattle.tf_flow.specs.Tree.{tree_of};
ghost use Rattle.tf_entries.specs.PlanReading as form;
ghost use Rattle.tf_entries.specs.Plans.{plan_bytes, IsPlan, KeepsLimits};
ghost use Rattle.tf_entries.specs.Reading.{RefusesForm, read_list, whole};

use crate::reader::Reader;
use std::alloc::Global;
use tf_flow::{Binds, Flow, FlowKind, Item, Items, Plan, PlanFault, Retry};
use tf_values::MakeFault;

/// The plan of these bytes, of which none may be left over. `No` comes exactly where no plan that
/// [`Plan::make`] accepts has them.
pub fn decode_plan(alloc: Global, bytes: &[u8]) -> Result<Plan, MakeFault>
    ensures ok { IfOk result (λ plan. IsPlan plan × (plan_bytes plan ≡ bytes.now)) }
    ensures refused { IsErrOf result MakeFault.No → (p : PlanValue)
        → first_refusal p.root p.store ≡ None → KeepsLimits p → plan_bytes p ≢ bytes.now }
{
    let parts = parts_of(alloc, bytes)?;
    match Plan::make(alloc, parts.root, parts.store, parts.defer) {
        Ok(plan) => Ok(plan),
        Err(fault) => Err(fault_of(fault)),
    }
}

/// Why bytes that spell a flow make no plan.
fn fault_of(fault: PlanFault) -> MakeFault
    ensures { result ≡ form.fault_of fault }
{
    match fault {
        PlanFault::Memory => MakeFault::Memory,
        _ => MakeFault::No,
    }
}

/// What bytes spell: a flow, a store, and whether reverts are deferred.
#[derive(Drop)]
struct Parts {
    root: Flow,
    store: Binds,
    defer: bool,
}

/// The parts of these bytes, of which none may be left over.
fn parts_of(alloc: Global, bytes: &[u8]) -> Result<Parts, MakeFault>
    ensures ok { IfOk result (λ parts. whole (form.read_plan bytes.now)
        ≡ Some (form.written_of parts.root parts.store parts.defer)) }
    ensures refused { IfErr result (RefusesForm (whole (form.read_plan bytes.now))) }
{
    let mut reader = Reader::make(bytes);
    let parts = reader.parts(alloc)?;
    if !reader.is_at_end() {
        return Err(MakeFault::No);
    }
    Ok(parts)
}

impl Reader<'_> {
    fn parts(&mut self, alloc: Global) -> Result<Parts, MakeFault>
        ensures ok { IfOk result (λ parts. form.read_plan self.old
            ≡ Some (form.written_of parts.root parts.store parts.defer, self.new)) }
        ensures refused { IfErr result (RefusesForm (form.read_plan self.old)) }
    {
        Ok(Parts {
            root: self.flow(alloc, 16)?,
            store: self.binds(alloc)?,
            defer: self.truth()?,
        })
    }

    /// A flow, where `left` may stand in one another.
    #[cycle(flows)]
    #[tactic(auto, using(crate::proofs::PlanLemmas::flow_below))]
    fn flow(&mut self, alloc: Global, left: u8) -> Result<Flow, MakeFault>
        ensures ok { IfOk result (λ flow. form.read_flow left self.old ≡ Some (as_written (tree_of flow), self.new)) }
        ensures refused { IfErr result (RefusesForm (form.read_flow left self.old)) }
    {
        if left == 0 {
            return Err(MakeFault::No);
        }
        self.flow_over(alloc, left - 1)
    }

    /// A flow, where `left` may stand in one another within it.
    #[cycle(flows)]
    #[tactic(auto, using(tf_flow::proofs::WrittenLemmas::flow_written))]
    fn flow_over(&mut self, alloc: Global, left: u8) -> Result<Flow, MakeFault>
        ensures ok { IfOk result (λ flow. form.read_flow (suc left) self.old
            ≡ Some (as_written (tree_of flow), self.new)) }
        ensures refused { IfErr result (RefusesForm (form.read_flow (suc left) self.old)) }
    {
        let name = self.name()?;
        let kind = self.flow_kind()?;
        let retry = self.control(alloc)?;
        let items = self.nested(alloc, left)?;
        let links = self.links(alloc)?;
        Ok(Flow {
            name,
            kind,
            retry,
            items: Items::make(items),
            links,
        })
    }

    fn flow_kind(&mut self) -> Result<FlowKind, MakeFault>
        ensures ok { IfOk result (λ kind. form.read_flow_kind self.old ≡ Some (kind, self.new)) }
        ensures refused { IfErr result (RefusesForm (form.read_flow_kind self.old)) }
    {
        match self.byte()? {
            0 => Ok(FlowKind::Linear),
            1 => Ok(FlowKind::Unordered),
            2 => Ok(FlowKind::Graph),
            _ => Err(MakeFault::No),
        }
    }

    /// A flow's retry controller, where it has one.
    fn control(&mut self, alloc: Global) -> Result<Option<Retry>, MakeFault>
        ensures ok { IfOk result (λ retry. form.read_control self.old ≡ Some (retry, self.new)) }
        ensures refused { IfErr result (RefusesForm (form.read_control self.old)) }
    {
        match self.byte()? {
            0 => Ok(None),
            1 => Ok(Some(self.retry(alloc)?)),
            _ => Err(MakeFault::No),
        }
    }

    /// Items behind their number.
    #[cycle(flows)]
    fn nested(&mut self, alloc: Global, left: u8) -> Result<Vec<Item>, MakeFault>
        ensures ok { IfOk result (λ items. read_list (form.read_item (form.read_flow left)) self.old
            ≡ Some (map item_as_written items.items, self.new)) }
        ensures refused { IfErr result (RefusesForm (read_list (form.read_item (form.read_flow left)) self.old)) }
    {
        let count = self.u16()?;
        let mut items = Vec::new(alloc);
        for _ in 0..count {
            items.push(self.item(alloc, left)?)?;
        }
        Ok(items)
    }

    /// An item.
    #[cycle(flows)]
    #[tactic(auto, using(tf_flow::proofs::WrittenLemmas::items_as_written))]
    fn item(&mut self, alloc: Global, left: u8) -> Result<Item, MakeFault>
        ensures ok { IfOk result (λ item. form.read_item (form.read_flow left) self.old
            ≡ Some (item_as_written item, self.new)) }
        ensures refused { IfErr result (RefusesForm (form.read_item (form.read_flow left) self.old)) }
    {
        match self.byte()? {
            0 => Ok(Item::Task(self.task(alloc)?)),
            1 => Ok(Item::Flow(self.flow(alloc, left)?)),
            _ => Err(MakeFault::No),
        }
    }
}
