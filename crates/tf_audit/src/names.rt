ghost use Rattle.std.specs.Prelude.{◌≡◌, ◌<◌, ℕ, Some, IfOk, true, length, slice_get};
ghost use Rattle.tf_flow.specs.Plan as numbering;
ghost use Rattle.tf_values.specs.Text.{is_name};
ghost use Rattle.tf_model.specs.Plan.{outline_of, atom_name};
ghost use Rattle.tf_report.specs.Lines.{flow_name};
ghost use Rattle.tf_audit.specs.Names.{AreNamed};

use indexmap::IndexSet;
use std::alloc::Global;
use tf_flow::Plan;
use tf_values::{Memory, Name};

/// The number of the atom that the word names.
pub fn atom_of(plan: &Plan, word: &[u8]) -> Option<u16>
    ensures { (a : ℕ) → slice_get (numbering.atoms plan.now) a ≡ Some word.now → is_name word.now ≡ true
        → result ≡ Some a }
{
    // What is read here tells the check that no two atoms have one name.
    plan.root();
    let name = Name::make(word)?;
    plan.find(&name)
}

/// The number of the flow that the word names.
pub fn flow_of(plan: &Plan, flows: &IndexSet<Name>, word: &[u8]) -> Option<u16>
    requires { flows.now.keys ≡ numbering.flows plan.now }
    ensures { (g : ℕ) → slice_get (numbering.flows plan.now) g ≡ Some word.now → is_name word.now ≡ true
        → result ≡ Some g }
{
    plan.root();
    plan.flows();
    let name = Name::make(word)?;
    match flows.get_index_of(&name) {
        Some(flow) => Some(flow as u16),
        None => None,
    }
}

/// The names of the flows by their numbers.
pub fn flow_index(alloc: Global, plan: &Plan) -> Result<IndexSet<Name>, Memory>
    ensures { IfOk result (λ flows. flows.keys ≡ numbering.flows plan.now) }
{
    plan.root();
    let mut flows = IndexSet::new(alloc);
    for flow in 0..plan.flows() {
        flows.insert(*plan.flow_name(flow))?;
    }
    Ok(flows)
}

/// Each atom and each flow of a plan has a name: what the names are made of tells it.
#[tactic(auto, using(tf_model::proofs::PlanLemmas::atoms_counted, tf_report::proofs::LineLemmas::flows_counted))]
pub fn names_are_names(plan: &Plan)
    ensures { AreNamed (outline_of plan.now) }
{
    atoms_are_named(plan);
    flows_are_named(plan);
    plan.flows();
}

fn atoms_are_named(plan: &Plan)
    ensures { (a : ℕ) → a < length (numbering.atoms plan.now) → is_name (atom_name (outline_of plan.now) a) ≡ true }
{
    for atom in 0..plan.atoms() {
        plan.atom_name(atom).bytes();
    }
}

fn flows_are_named(plan: &Plan)
    ensures { (g : ℕ) → g < length (numbering.flows plan.now) → is_name (flow_name (outline_of plan.now) g) ≡ true }
{
    for flow in 0..plan.flows() {
        plan.flow_name(flow).bytes();
    }
}

/// The name of the atom of that number, and nothing where there is none.
#[tactic(auto, using(tf_model::proofs::PlanLemmas::name_told, tf_report::proofs::LineLemmas::atom_past, tf_model::proofs::PlanLemmas::atoms_counted))]
pub fn name_of_atom(plan: &Plan, atom: u16) -> &[u8]
    ensures { result.now ≡ atom_name (outline_of plan.now) atom }
{
    if atom >= plan.atoms() {
        return b"";
    }
    plan.atom_name(atom).bytes()
}
