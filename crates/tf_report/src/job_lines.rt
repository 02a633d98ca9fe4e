ghost use Rattle.std.specs.Prelude.{◌≡◌, ◌++◌, ◌∷◌, [], OnOk, OnErr};
ghost use Rattle.std.specs.List.{flat_map};
ghost use Rattle.tf_values.specs.Growth.{KeepsPrefix};
ghost use Rattle.tf_report.specs.Lines.{priority_word as word_of_priority, job_word as word_of_job, owner_text, job_line};

use crate::appending::{append, append_counted, append_named, append_pair};
use tf_states::{JobState, Priority};
use tf_values::{Memory, Name, Text};

/// What the list of a board says of a job: its number on the board, counted from 1, its id in text, its name, how
/// urgent it is, where it stands, and who has it.
#[derive(Debug, Drop)]
pub struct JobLine {
    pub number: u64,
    pub id: Text,
    pub name: Name,
    pub priority: Priority,
    pub state: JobState,
    pub owner: Option<Name>,
}

/// Appends a line for each job, in the list's order. Want of memory leaves the output as it was.
pub fn jobs(list: &[JobLine], out: &mut Vec<u8>) -> Result<(), Memory>
    ensures ok { OnOk result (out.new.items ≡ out.old.items ++ flat_map job_line list.now) }
    ensures err { OnErr result (out.new.items ≡ out.old.items) }
{
    let before = out.len();
    match append_jobs(list, out) {
        Ok(()) => Ok(()),
        Err(fault) => {
            out.truncate(before);
            Err(fault)
        }
    }
}

#[tactic(auto, using(tf_values::proofs::GrowthLemmas::keeps_shorter))]
fn append_jobs(list: &[JobLine], out: &mut Vec<u8>) -> Result<(), Memory>
    ensures ok { OnOk result (out.new.items ≡ out.old.items ++ flat_map job_line list.now) }
    ensures err { OnErr result (KeepsPrefix out.old.items out.new.items) }
{
    for job in list {
        append_job(job, out)?;
    }
    Ok(())
}

/// Appends the line of a job.
#[tactic(auto, using(tf_values::proofs::GrowthLemmas::keeps_shorter))]
fn append_job(job: &JobLine, out: &mut Vec<u8>) -> Result<(), Memory>
    ensures ok { OnOk result (out.new.items ≡ out.old.items ++ job_line job.now) }
    ensures err { OnErr result (KeepsPrefix out.old.items out.new.items) }
{
    append(priority_word(job.priority).as_bytes(), out)?;
    append_counted(b" ", job.number, out)?;
    append_pair(b" ", job.id.bytes(), out)?;
    append_named(b" ", job.name.bytes(), job_word(job.state), out)?;
    append_owner(&job.owner, out)
}

/// Appends who has a job, and the end of its line.
#[tactic(auto, using(tf_values::proofs::GrowthLemmas::keeps_shorter))]
fn append_owner(owner: &Option<Name>, out: &mut Vec<u8>) -> Result<(), Memory>
    ensures ok { OnOk result (out.new.items ≡ out.old.items ++ (32 ∷ owner_text owner.now ++ 10 ∷ [])) }
    ensures err { OnErr result (KeepsPrefix out.old.items out.new.items) }
{
    match owner {
        Some(name) => append_pair(b" ", name.bytes(), out)?,
        None => append(b" -", out)?,
    }
    append(b"\n", out)
}

/// The word for how urgent a job is.
pub fn priority_word(priority: Priority) -> &'static str
    ensures { result.now ≡ word_of_priority priority }
{
    match priority {
        Priority::VeryHigh => "VERY_HIGH",
        Priority::High => "HIGH",
        Priority::Normal => "NORMAL",
        Priority::Low => "LOW",
        Priority::VeryLow => "VERY_LOW",
    }
}

/// The word for where a job stands.
fn job_word(state: JobState) -> &'static str
    ensures { result.now ≡ word_of_job state }
{
    match state {
        JobState::Unclaimed => "UNCLAIMED",
        JobState::Claimed => "CLAIMED",
        JobState::Complete => "COMPLETE",
    }
}
