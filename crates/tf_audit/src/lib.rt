//! Audits of logs: which entry of a plan each line says, and whether an end of a task carries an outcome that the task's
//! order may have.
#![tactic(auto)]

mod auditing;
mod ends;
mod entries;
mod failures;
mod laws;
mod limits;
mod lines;
mod names;
mod numbers;
mod outcomes;
mod payloads;
mod progress;
mod starts;
mod state_words;
mod texts;
mod values;
mod verdicts;
mod words;

pub use auditing::{Audited, audit, audit_with};
pub use ends::fits;
pub use entries::{Numbered, read_line};
pub use laws::{logs_have_one_verdict, shown_histories_are_legal_logs};
pub use lines::{first_line, is_passed_over};
pub use names::{flow_index, names_are_names};
pub use outcomes::allows;
pub use starts::order_asked;
pub use texts::append_verdict;
pub use verdicts::{Verdict, Why};
