//! What a flow file's tables spell: names, values, tasks, retry controllers and deciders, each read under its path.

mod arguments;
mod conditions;
mod deciders;
mod faults;
mod fields;
mod paths;
mod rebinds;
mod retries;
mod signatures;
mod tasks;
mod values;
mod words;

pub(crate) use deciders::decider_of;
pub use faults::FileFault;
pub(crate) use fields::{Field, has_key, item_at, known_only, optional, required};
pub use paths::Path;
pub(crate) use retries::retry_form;
pub(crate) use tasks::task_form;
pub(crate) use values::{binds_form, name_form, names_form};
