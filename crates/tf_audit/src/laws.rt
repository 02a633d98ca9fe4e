//! What verdicts promise, whatever the histories are.

ghost use Rattle.std.specs.Prelude.{◌≡◌, ◌<◌, ◌^◌, ◌-◌, ◌++◌, ℕ, List, length};
ghost use Rattle.std.specs.List.{AllByRecursion};
ghost use Rattle.tf_states.specs.declared.record.Entry.{Entry};
ghost use Rattle.tf_actions.specs.Gives.{GivesFar};
ghost use Rattle.tf_model.specs.History.{snapshot, flow_of};
ghost use Rattle.tf_model.specs.Scope.{HasOutcomes};
ghost use Rattle.tf_model.specs.Plan.{Outline, outline_of};
ghost use Rattle.tf_model.specs.Steps.{LegalPast};
ghost use Rattle.tf_report.specs.Lines.{lines, table};
ghost use Rattle.tf_audit.specs.declared.verdicts.Verdict.{Verdict};
ghost use Rattle.tf_audit.specs.declared.verdicts.Verdict.TheVariants as verdict;
ghost use Rattle.tf_audit.specs.Names.{AreNamed};
ghost use Rattle.tf_audit.specs.Verdicts.{IsPlanEntry, IsVerdict};

use crate::names::names_are_names;
use tf_flow::Plan;

/// The text that is shown of a legal history, its lines and its table, is that of a legal log where each end in it is one
/// that its order allows.
#[tactic(auto, using(crate::proofs::LawLemmas::shown_legal))]
pub fn shown_histories_are_legal_logs()
    ensures { (plan : Outline) (past : List Entry) → AreNamed plan → length past < 2 ^ 64
        → AllByRecursion (IsPlanEntry plan) past → LegalPast plan past → HasOutcomes GivesFar plan past
        → IsVerdict plan (lines plan past ++ table plan (snapshot plan past))
        (verdict.Legal (length past) (flow_of past)) }
{}

/// A log of a plan's runs has one verdict.
pub fn logs_have_one_verdict(plan: &Plan)
    ensures { (log : List ℕ) (one two : Verdict) → length log < 2 ^ 64 - 1
        → IsVerdict (outline_of plan.now) log one → IsVerdict (outline_of plan.now) log two → one ≡ two }
{
    names_are_names(plan);
    // What is read here tells the check that no two atoms and no two flows have one name.
    plan.root();
}
