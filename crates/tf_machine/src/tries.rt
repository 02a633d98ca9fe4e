ghost use Rattle.std.specs.Prelude.{◌≡◌};
ghost use Rattle.tf_flow.specs.Paths.{shown_part};
ghost use Rattle.tf_model.specs.Plan.{outline_of};
ghost use Rattle.tf_model.specs.Retries.{kind_of_part};
ghost use Rattle.tf_model.specs.Plan as bound;
ghost use Rattle.tf_bound.specs.Costs.{tries_of};
ghost use Rattle.tf_machine.specs.Tries.{HasFewTries};

use tf_flow::{Part, Plan, RetryKind};

/// How often each atom may try its flow is a number of 16 bits. The call looks at the plan and changes
/// nothing.
#[tactic(auto, using(crate::proofs::TriesLemmas::few_more, crate::proofs::TriesLemmas::few_all))]
pub fn tries_are_few(plan: &Plan)
    ensures { HasFewTries (outline_of plan.now) }
{
    for atom in 0..plan.atoms() {
        tries(&plan.part(atom));
    }
}

/// How often an atom may try its flow. A task counts as one try.
fn tries(part: &Part<'_>) -> u16
    ensures { result ≡ tries_of (kind_of_part (shown_part part.now)) }
{
    match part {
        Part::Task(_) => 1,
        Part::Retry(retry) => tries_by(&retry.kind),
    }
}

/// How often a retry controller of this kind may try its flow.
fn tries_by(kind: &RetryKind) -> u16
    ensures { result ≡ bound.tries_by kind.now }
{
    match kind {
        RetryKind::AlwaysRevert | RetryKind::AlwaysRevertAll => 1,
        RetryKind::Times { attempts, .. } => *attempts,
        RetryKind::ForEach { values, .. } => (values.items().len() as u16).max(1),
        RetryKind::Parameterized { .. } => 1024,
    }
}
