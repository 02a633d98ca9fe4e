ghost use Rattle.std.specs.Prelude.{◌≡◌};
ghost use Rattle.tf_audit.specs.Words.{atom_state_named, flow_state_named, resolution_named};

use tf_states::{AtomState, FlowState, Kind};

/// The state of an atom that has this word.
pub fn atom_state_of(word: &[u8]) -> Option<AtomState>
    ensures { result ≡ atom_state_named word.now }
{
    if word == b"PENDING".as_slice() {
        return Some(AtomState::Pending);
    }
    if word == b"RUNNING".as_slice() {
        return Some(AtomState::Running);
    }
    if word == b"SUCCESS".as_slice() {
        return Some(AtomState::Success);
    }
    if word == b"FAILURE".as_slice() {
        return Some(AtomState::Failure);
    }
    if word == b"REVERTING".as_slice() {
        return Some(AtomState::Reverting);
    }
    if word == b"REVERTED".as_slice() {
        return Some(AtomState::Reverted);
    }
    if word == b"REVERT_FAILURE".as_slice() {
        return Some(AtomState::RevertFailure);
    }
    if word == b"IGNORE".as_slice() {
        return Some(AtomState::Ignore);
    }
    if word == b"RETRYING".as_slice() {
        return Some(AtomState::Retrying);
    }
    None
}

/// The state of the flow that has this word.
pub fn flow_state_of(word: &[u8]) -> Option<FlowState>
    ensures { result ≡ flow_state_named word.now }
{
    if word == b"PENDING".as_slice() {
        return Some(FlowState::Pending);
    }
    if word == b"RUNNING".as_slice() {
        return Some(FlowState::Running);
    }
    if word == b"SUCCESS".as_slice() {
        return Some(FlowState::Success);
    }
    if word == b"FAILURE".as_slice() {
        return Some(FlowState::Failure);
    }
    if word == b"REVERTED".as_slice() {
        return Some(FlowState::Reverted);
    }
    if word == b"SUSPENDING".as_slice() {
        return Some(FlowState::Suspending);
    }
    if word == b"SUSPENDED".as_slice() {
        return Some(FlowState::Suspended);
    }
    if word == b"RESUMING".as_slice() {
        return Some(FlowState::Resuming);
    }
    None
}

/// What a failure is resolved to that has this word.
pub fn kind_of(word: &[u8]) -> Option<Kind>
    ensures { result ≡ resolution_named word.now }
{
    if word == b"RETRY".as_slice() {
        return Some(Kind::Retry);
    }
    if word == b"REVERT".as_slice() {
        return Some(Kind::Revert);
    }
    if word == b"REVERT_ALL".as_slice() {
        return Some(Kind::RevertAll);
    }
    None
}
