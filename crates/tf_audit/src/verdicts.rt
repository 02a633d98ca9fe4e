use tf_machine::Start;
use tf_states::{FlowState, What};

/// Why a line can't be.
#[derive(Debug, Drop)]
pub enum Why {
    /// No entry of the plan has this line.
    Unreadable,
    /// Its number isn't the next one.
    Number,
    /// Its entry can't follow, and this one must.
    Forced(What),
    /// Its entry can't follow, and nothing must; this task is the next one that may be taken up.
    First(Start),
    /// Its entry can't follow, and neither must one nor may a task be taken up.
    NoStep,
    /// It ends a task with an outcome that the task can't have.
    Value,
}

/// What an audit finds.
#[derive(Debug, Drop)]
pub enum Verdict {
    /// Every line can be: so many entries are spelled, after which the flow is in this state.
    Legal { entries: u64, state: FlowState },
    /// The first line that can't be, counted from 1, and why.
    Bad { line: u64, why: Why },
}
