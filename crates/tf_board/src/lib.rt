//! The job board: jobs are posted, and owners claim them, abandon them, consume them and trash them. A job has at
//! most one owner, whatever a crash leaves.
#![tactic(auto)]

mod board;
mod bodies;
mod calls;
mod commanding;
mod commands;
mod ending;
mod faults;
mod ids;
mod jobs;
mod kept;
mod laws;
mod messages;
mod opening;
mod recovering;
mod rules;
mod spelling;
mod starts;

pub use board::{Board, Owner};
pub use calls::{BoardRequest, JobCall};
pub use commanding::board_command;
pub use commands::{Command, JobAction};
pub use ending::{end_unopened, end_with, end_with_text};
pub use faults::BoardFault;
pub use ids::{id_text, job_id};
pub use laws::{
    a_claim_is_of_a_free_job, a_claimant_keeps_its_job, a_file_has_one_list,
    a_free_job_may_be_claimed, a_job_is_given_up_between_claims, an_id_goes_on_naming_its_job,
    an_id_names_its_first_job, command_has_one_form,
};
pub use messages::{applied_line, call_line, fault_line, kept_line, not_a_book_text, posted_line};
pub use opening::open;
pub use spelling::{parse_id, priority_named};
