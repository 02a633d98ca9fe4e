ghost use Rattle.std.specs.Prelude.{◌≡◌, ◌≤◌, length};
ghost use Rattle.tf_report.specs.Lines.{atom_word as word_of_atom, flow_word as word_of_flow, kind_word as word_of_kind};

use tf_states::{AtomState, FlowState, Kind};

/// The word for the state of an atom.
pub fn atom_word(state: AtomState) -> &'static str
    ensures word { result.now ≡ word_of_atom state }
    ensures short { length result.now ≤ 14 }
{
    match state {
        AtomState::Pending => "PENDING",
        AtomState::Running => "RUNNING",
        AtomState::Success => "SUCCESS",
        AtomState::Failure => "FAILURE",
        AtomState::Reverting => "REVERTING",
        AtomState::Reverted => "REVERTED",
        AtomState::RevertFailure => "REVERT_FAILURE",
        AtomState::Ignore => "IGNORE",
        AtomState::Retrying => "RETRYING",
    }
}

/// The word for the state of the flow.
pub fn flow_word(state: FlowState) -> &'static str
    ensures word { result.now ≡ word_of_flow state }
    ensures short { length result.now ≤ 14 }
{
    match state {
        FlowState::Pending => "PENDING",
        FlowState::Running => "RUNNING",
        FlowState::Success => "SUCCESS",
        FlowState::Failure => "FAILURE",
        FlowState::Reverted => "REVERTED",
        FlowState::Suspending => "SUSPENDING",
        FlowState::Suspended => "SUSPENDED",
        FlowState::Resuming => "RESUMING",
    }
}

/// The word for what a failure is resolved to.
pub fn kind_word(kind: Kind) -> &'static str
    ensures word { result.now ≡ word_of_kind kind }
    ensures short { length result.now ≤ 14 }
{
    match kind {
        Kind::Retry => "RETRY",
        Kind::Revert => "REVERT",
        Kind::RevertAll => "REVERT_ALL",
    }
}
