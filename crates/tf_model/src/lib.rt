//! The definitions of a run: which atom is before which, who gives a symbol its value, what is forced,
//! which entry may follow a history, and what one run records. The functions do nothing; their contracts
//! are laws of the definitions.
#![tactic(auto)]

mod laws;

pub use laws::{
    atoms_of_a_flow_are_alike, before_is_transitive, beginnings_are_legal, entries_are_allowed,
    flows_are_nested_or_apart, ignored_atoms_are_after, items_are_ordered,
    lists_have_a_last_and_a_first, marks_come_from_the_last_resolve, members_are_before,
    neighbors_are_linked, never_before_itself, one_entry_more, outline_has_the_numbers,
    own_flows_are_within, put_back_between_starts, reported_cycles_are_of_the_first_item,
    resolutions_hold_what_failed, results_are_kept, retries_come_first, root_holds_each_atom,
    sessions_are_legal, sessions_record_as_stated, sessions_stop_in_their_state,
};
