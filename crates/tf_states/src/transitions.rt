ghost use Rattle.std.specs.Prelude.{◌≡◌};
ghost use Rattle.tf_states.specs.Transitions.{task_may, retry_may, flow_may, job_may};

use crate::state::{AtomState, FlowState, JobState};

/// Whether a task may go from state `a` to state `b`.
pub fn allowed_task(a: AtomState, b: AtomState) -> bool
    ensures is { result ≡ task_may a b }
{
    match a {
        AtomState::Pending => matches!(b, AtomState::Running | AtomState::Ignore),
        AtomState::Running => matches!(b, AtomState::Success | AtomState::Failure),
        AtomState::Failure | AtomState::Success => matches!(b, AtomState::Reverting),
        AtomState::Reverting => matches!(b, AtomState::Reverted | AtomState::RevertFailure),
        AtomState::Reverted | AtomState::Ignore => matches!(b, AtomState::Pending),
        AtomState::RevertFailure | AtomState::Retrying => false,
    }
}

/// Whether a retry controller may go from state `a` to state `b`: it has the pairs of a task, and
/// goes to `Retrying` and from there to `Running` besides.
pub fn allowed_retry(a: AtomState, b: AtomState) -> bool
    ensures is { result ≡ retry_may a b }
{
    match a {
        AtomState::Success => matches!(b, AtomState::Reverting | AtomState::Retrying),
        AtomState::Retrying => matches!(b, AtomState::Running),
        _ => allowed_task(a, b),
    }
}

/// Whether a flow may go from state `a` to state `b`.
pub fn allowed_flow(a: FlowState, b: FlowState) -> bool
    ensures is { result ≡ flow_may a b }
{
    match a {
        FlowState::Pending | FlowState::Suspended => matches!(b, FlowState::Running),
        FlowState::Running => matches!(
            b,
            FlowState::Success
                | FlowState::Failure
                | FlowState::Reverted
                | FlowState::Suspending
                | FlowState::Resuming
        ),
        FlowState::Suspending => matches!(
            b,
            FlowState::Suspended
                | FlowState::Success
                | FlowState::Failure
                | FlowState::Reverted
                | FlowState::Resuming
        ),
        FlowState::Resuming => matches!(b, FlowState::Suspended),
        FlowState::Reverted => matches!(b, FlowState::Pending),
        FlowState::Success | FlowState::Failure => false,
    }
}

/// Whether a job may go from state `a` to state `b`.
pub fn allowed_job(a: JobState, b: JobState) -> bool
    ensures is { result ≡ job_may a b }
{
    match a {
        JobState::Unclaimed => matches!(b, JobState::Claimed),
        JobState::Claimed => matches!(b, JobState::Unclaimed | JobState::Complete),
        JobState::Complete => false,
    }
}
