use tf_book::{Book, Halt};
use tf_desk::Desk;
use tf_states::FlowState;

/// How a run stopped: its flow ended in that state or was suspended, or its book was halted for that cause.
#[derive(Clone, Copy, Debug, PartialEq, Eq)]
pub enum How {
    Ended(FlowState),
    Suspended,
    Halted(Halt),
}

/// The end of a run: its book, and how it stopped.
#[derive(Drop)]
pub struct RunEnd<K: Desk> {
    pub book: Book<K>,
    pub how: How,
}
