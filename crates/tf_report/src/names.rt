ghost use Rattle.std.specs.Prelude.{◌≡◌, ◌≤◌, length};
ghost use Rattle.tf_model.specs.Plan.{outline_of, is_task, atom_name as name_of_atom};
ghost use Rattle.tf_report.specs.Lines.{part_word as word_of_part, flow_name as name_of_flow};

use tf_flow::Plan;

/// The name of the atom of that number, and nothing where there is none.
#[tactic(auto, using(tf_model::proofs::PlanLemmas::name_told, crate::proofs::LineLemmas::atom_past, tf_model::proofs::PlanLemmas::atoms_counted))]
pub fn atom_name(plan: &Plan, atom: u16) -> &[u8]
    ensures name { result.now ≡ name_of_atom (outline_of plan.now) atom }
    ensures short { length result.now ≤ 64 }
{
    if atom >= plan.atoms() {
        return b"";
    }
    plan.atom_name(atom).bytes()
}

/// The word for what the atom of that number is.
#[tactic(auto, using(tf_model::proofs::PlanLemmas::task_told, crate::proofs::LineLemmas::part_past, tf_model::proofs::PlanLemmas::atoms_counted))]
pub fn part_word(plan: &Plan, atom: u16) -> &'static str
    ensures word { result.now ≡ word_of_part (is_task (outline_of plan.now) atom) }
    ensures short { length result.now ≤ 6 }
{
    if atom >= plan.atoms() {
        return "retry ";
    }
    if plan.is_retry(atom) {
        return "retry ";
    }
    "task "
}

/// The name of the flow of that number, and nothing where there is none.
pub fn flow_name(plan: &Plan, flow: u16) -> &[u8]
    ensures { result.now ≡ name_of_flow (outline_of plan.now) flow }
{
    short_flow_name(plan, flow)
}

/// The same, of which it is also known that it is short.
#[tactic(auto, using(crate::proofs::LineLemmas::flow_named, crate::proofs::LineLemmas::flow_past))]
pub fn short_flow_name(plan: &Plan, flow: u16) -> &[u8]
    ensures name { result.now ≡ name_of_flow (outline_of plan.now) flow }
    ensures short { length result.now ≤ 64 }
{
    if flow >= plan.flows() {
        return b"";
    }
    plan.flow_name(flow).bytes()
}
