ghost use Rattle.std.specs.Prelude.{◌≡◌, ◌↔◌, IsTrue};

use crate::state::{AtomState, FlowState};
use tf_values::{Name, Text, Val};

/// What a failure is resolved to: run the named flow again, revert it, or revert the whole flow.
#[derive(Clone, Copy, Debug, PartialEq, Eq)]
pub enum Kind {
    Retry,
    Revert,
    RevertAll,
}

/// Why an atom failed.
#[derive(Debug, Drop)]
pub enum Failure {
    /// The task raised this text.
    Raised(Text),
    /// The argument of this name is of another kind than the task takes.
    WrongKind(Name),
    /// A total is outside the integers of 64 bits.
    Overflow,
    /// A place is outside the list.
    Range,
    /// A result passes the limit of its kind.
    TooLong,
    /// The symbol of this name has no value.
    Lookup(Name),
    /// A program ended with this status.
    Exit(i32),
    /// A program couldn't be run.
    Spawn,
    /// A program's output is no UTF-8.
    NotText,
    /// The link to a remote hand ended.
    Lost,
    /// The reply after this many bytes is none.
    BadReply(u32),
    /// An attempt has no value left.
    Exhausted,
}

impl Failure {
    /// Whether the two failures are equal.
    pub fn same(&self, other: &Failure) -> bool
        ensures { IsTrue result ↔ (self.now ≡ other.now) }
    {
        match self {
            Failure::Raised(text) => {
                matches!(other, Failure::Raised(other) if text.bytes() == other.bytes())
            }
            Failure::WrongKind(name) => {
                matches!(other, Failure::WrongKind(other) if *name == *other)
            }
            Failure::Overflow => matches!(other, Failure::Overflow),
            Failure::Range => matches!(other, Failure::Range),
            Failure::TooLong => matches!(other, Failure::TooLong),
            Failure::Lookup(name) => matches!(other, Failure::Lookup(other) if *name == *other),
            Failure::Exit(status) => matches!(other, Failure::Exit(other) if *status == *other),
            Failure::Spawn => matches!(other, Failure::Spawn),
            Failure::NotText => matches!(other, Failure::NotText),
            Failure::Lost => matches!(other, Failure::Lost),
            Failure::BadReply(len) => matches!(other, Failure::BadReply(other) if *len == *other),
            Failure::Exhausted => matches!(other, Failure::Exhausted),
        }
    }
}

/// What an entry carries beside a state.
#[derive(Debug, Drop)]
pub enum Payload {
    Empty,
    Value(Val),
    Fault(Failure),
}

/// One event of a run. Atoms and flows go by their numbers in tree order.
#[derive(Debug, Drop)]
pub enum What {
    /// The atom enters the state.
    Atom {
        atom: u16,
        state: AtomState,
        payload: Payload,
    },
    /// The whole flow enters the state.
    Flow(FlowState),
    /// A failure is resolved to the kind, at the flow.
    Resolve {
        flow: u16,
        kind: Kind,
    },
    /// An interrupted task is taken up again.
    Restart(u16),
}

/// One entry of a history: a hand, 0 to 63, and what it recorded.
#[derive(Debug, Drop)]
pub struct Entry {
    pub hand: u8,
    pub what: What,
}

/// What is known of an atom: its state, and the payload of its last entry. A retry keeps its last
/// value while it is `Retrying`, and while it is `Running` straight after that.
#[derive(Debug, Drop)]
pub struct AtomView {
    pub state: AtomState,
    pub payload: Payload,
}
