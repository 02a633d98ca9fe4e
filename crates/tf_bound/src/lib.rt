//! A run records at most as many entries as the bound of its plan: the number that shows it, what holds
//! at every moment so that each entry makes it less, and the premise that lists are short. The functions
//! of the laws do nothing; their contracts are the laws. Three calls tell that what a type holds meets
//! the premise.
#![tactic(auto)]

mod laws;
mod limits;

pub use laws::{
    attempts_are_counted, entries_make_less_owed, flows_of_retries_are_guarded, lists_stay_short,
    lives_cost_no_more_than_flows, moments_stay_bounded, owed_is_capped, plans_have_attempts,
    runs_are_bounded,
};
pub use limits::{event_is_short, plan_is_within_limits, value_is_short};
