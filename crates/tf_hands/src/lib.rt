//! What the hands of a run have in flight, and what they were asked for. The functions do nothing; their
//! contracts are laws of every legal history.
#![tactic(auto)]

mod laws;
mod starts;

pub use laws::{
    ends_free_hands, forced_entries_are_of_no_task, forced_entries_leave_hands_alone,
    hands_are_free_or_have_a_task, hands_have_one_task, idle_entries_leave_hands_alone,
    lone_hands_are_never_stuck, nothing_is_in_flight_outside_runs, others_leave_hands_alone,
    outcomes_are_of_orders, starts_give_orders, tasks_are_ended_by_their_hands,
    tasks_are_taken_up_by_free_hands,
};
pub use starts::Start;
