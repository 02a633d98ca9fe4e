ghost use Rattle.std.specs.Prelude.{◌≡◌};
ghost use Rattle.tf_model.specs.History as model;
ghost use Rattle.tf_machine.specs.Changes as changes;

use tf_states::{AtomState, FlowState};

pub fn is_pending(state: AtomState) -> bool
    ensures { result ≡ model.is_pending state }
{
    matches!(state, AtomState::Pending)
}

pub fn is_running(state: AtomState) -> bool
    ensures { result ≡ model.is_running state }
{
    matches!(state, AtomState::Running)
}

pub fn is_failure(state: AtomState) -> bool
    ensures { result ≡ model.is_failure state }
{
    matches!(state, AtomState::Failure)
}

pub fn is_success(state: AtomState) -> bool
    ensures { result ≡ model.is_success state }
{
    matches!(state, AtomState::Success)
}

pub fn is_reverting(state: AtomState) -> bool
    ensures { result ≡ model.is_reverting state }
{
    matches!(state, AtomState::Reverting)
}

pub fn is_retrying(state: AtomState) -> bool
    ensures { result ≡ model.is_retrying state }
{
    matches!(state, AtomState::Retrying)
}

pub fn is_revert_failure(state: AtomState) -> bool
    ensures { result ≡ model.is_revert_failure state }
{
    matches!(state, AtomState::RevertFailure)
}

/// A task in this state is at work.
pub fn is_at_work(state: AtomState) -> bool
    ensures { result ≡ model.is_at_work state }
{
    matches!(state, AtomState::Running | AtomState::Reverting)
}

/// Done with, so that what is after it may run.
pub fn is_done(state: AtomState) -> bool
    ensures { result ≡ model.is_done state }
{
    matches!(state, AtomState::Success | AtomState::Ignore)
}

/// With nothing to undo.
pub fn is_settled(state: AtomState) -> bool
    ensures { result ≡ model.is_settled state }
{
    matches!(
        state,
        AtomState::Pending | AtomState::Reverted | AtomState::Ignore
    )
}

/// Executed, to a result or a failure.
pub fn is_executed(state: AtomState) -> bool
    ensures { result ≡ model.is_executed state }
{
    matches!(state, AtomState::Success | AtomState::Failure)
}

/// To be put back to PENDING when it is to run anew.
pub fn is_put_back(state: AtomState) -> bool
    ensures { result ≡ model.is_put_back state }
{
    matches!(state, AtomState::Reverted | AtomState::Ignore)
}

pub fn flow_runs(state: FlowState) -> bool
    ensures { result ≡ model.flow_runs state }
{
    matches!(state, FlowState::Running)
}

pub fn flow_suspends(state: FlowState) -> bool
    ensures { result ≡ model.flow_suspends state }
{
    matches!(state, FlowState::Suspending)
}

pub fn flow_is_reverted(state: FlowState) -> bool
    ensures { result ≡ model.flow_is_reverted state }
{
    matches!(state, FlowState::Reverted)
}

pub fn flow_resumes(state: FlowState) -> bool
    ensures { result ≡ changes.flow_resumes state }
{
    matches!(state, FlowState::Resuming)
}

/// The flow is PENDING.
pub fn flow_rests(state: FlowState) -> bool
    ensures { result ≡ changes.flow_rests state }
{
    matches!(state, FlowState::Pending)
}
