//! What holds of every legal history of every plan that compiles.

ghost use Rattle.std.specs.Prelude.{◌≡◌, ◌++◌, List, None, Some, true, is_some};
ghost use Rattle.tf_states.specs.declared.record.Entry.{Entry};
ghost use Rattle.tf_states.specs.declared.state.FlowState.TheVariants as flow;
ghost use Rattle.tf_flow.specs.Plan.{PlanValue};
ghost use Rattle.tf_model.specs.Plan.{outline_of, compile_refusal};
ghost use Rattle.tf_model.specs.History.{snapshot, flow_of};
ghost use Rattle.tf_model.specs.Forced.{forced, choice, end_of};
ghost use Rattle.tf_model.specs.Steps.{LegalPast, is_still, Session};
ghost use Rattle.tf_facts.specs.Facts.{Facts, InFlight, CompletedReversion};

/// After every legal history the seven facts hold.
pub fn facts_are_kept()
    ensures { (plan : PlanValue) (past : List Entry) → compile_refusal plan ≡ None → LegalPast (outline_of plan) past
        → Facts (outline_of plan) (snapshot (outline_of plan) past) }
{}

/// A RUNNING flow in which no entry is forced, no task may be taken up and nothing is in flight has an
/// end; and where it has none, a task is in flight.
#[tactic(auto, using(crate::proofs::PastLemmas::never_stuck, crate::proofs::PastLemmas::waits_for_one))]
pub fn runs_never_get_stuck()
    ensures end { (plan : PlanValue) (past : List Entry) → compile_refusal plan ≡ None
        → LegalPast (outline_of plan) past → flow_of past ≡ flow.Running
        → forced (outline_of plan) (snapshot (outline_of plan) past) ≡ None
        → choice (outline_of plan) (snapshot (outline_of plan) past) ≡ None
        → is_still (outline_of plan) (snapshot (outline_of plan) past) ≡ true
        → is_some (end_of (outline_of plan) (snapshot (outline_of plan) past)) ≡ true }
    ensures waits { (plan : PlanValue) (past : List Entry) → compile_refusal plan ≡ None
        → LegalPast (outline_of plan) past → flow_of past ≡ flow.Running
        → forced (outline_of plan) (snapshot (outline_of plan) past) ≡ None
        → choice (outline_of plan) (snapshot (outline_of plan) past) ≡ None
        → end_of (outline_of plan) (snapshot (outline_of plan) past) ≡ None
        → InFlight (outline_of plan) (snapshot (outline_of plan) past) }
{}

/// Where a flow is REVERTED, and so after a run that stopped REVERTED, a region is in force, what was
/// executed in the regions is undone, and each atom was reverted after all that is after it.
#[tactic(auto, using(crate::proofs::PastLemmas::reversion_completed, crate::proofs::PastLemmas::session_completed))]
pub fn reverted_is_completed()
    ensures history { (plan : PlanValue) (past : List Entry) → compile_refusal plan ≡ None
        → LegalPast (outline_of plan) past → flow_of past ≡ flow.Reverted
        → CompletedReversion (outline_of plan) past }
    ensures run { (plan : PlanValue) (before entries : List Entry) → compile_refusal plan ≡ None
        → Session (outline_of plan) before entries (Some flow.Reverted)
        → CompletedReversion (outline_of plan) (entries ++ before) }
{}
