use std::snapshot::Snapshot;
use tf_flow::Plan;
use tf_states::Entry;

/// An element of a book as clauses see it: the plan of a detail, or an entry of the detail with that number.
#[derive(Drop)]
pub enum Mark {
    Detail(Snapshot<Plan>),
    Entry(u16, Snapshot<Entry>),
}
