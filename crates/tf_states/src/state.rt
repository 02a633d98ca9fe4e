/// The state of an atom. A retry controller alone can be `Retrying`.
#[derive(Clone, Copy, Debug, PartialEq, Eq)]
pub enum AtomState {
    Pending,
    Running,
    Success,
    Failure,
    Reverting,
    Reverted,
    RevertFailure,
    Ignore,
    Retrying,
}

/// The state of a flow.
#[derive(Clone, Copy, Debug, PartialEq, Eq)]
pub enum FlowState {
    Pending,
    Running,
    Success,
    Failure,
    Reverted,
    Suspending,
    Suspended,
    Resuming,
}

/// The state of a job.
#[derive(Clone, Copy, Debug, PartialEq, Eq)]
pub enum JobState {
    Unclaimed,
    Claimed,
    Complete,
}
