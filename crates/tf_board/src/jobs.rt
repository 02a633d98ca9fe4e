ghost use Rattle.std.specs.Prelude.{◌≡◌, IfOk, IsTrue};
ghost use Rattle.tf_board.specs.Board.{standing_after, is_there as there, state_of as state_in, holder_of as holder_in, same_priority as priority_is, is_listed as listed, free_as as free_under, line_of as line_in};

use crate::commands::JobAction;
use crate::ids::id_text;
use std::alloc::Global;
use tf_report::JobLine;
use tf_states::{JobState, Priority};
use tf_values::{Memory, Name};
use uuid::Uuid;

/// Where a job stands: nobody has it, an owner has it, it was finished, or it was thrown away.
#[derive(Clone, Copy, Debug)]
pub enum Standing {
    Free,
    Held(Name),
    Consumed,
    Trashed,
}

/// A job of a board.
#[derive(Clone, Copy)]
pub struct Job {
    pub number: u64,
    pub id: Uuid,
    pub name: Name,
    pub priority: Priority,
    pub standing: Standing,
}

impl Standing {
    ghost use Rattle.std.specs.Prelude.{◌≡◌};
    ghost use Rattle.tf_board.specs.Board.{standing_after, is_free as free, is_there as there, state_of as state_in, holder_of as holder_in};

    /// Where a job stands after what an owner did with it.
    pub fn after(action: JobAction, owner: &Name) -> Standing
        ensures { result ≡ standing_after action owner.now }
    {
        match action {
            JobAction::Claim => Standing::Held(*owner),
            JobAction::Abandon => Standing::Free,
            JobAction::Consume => Standing::Consumed,
            JobAction::Trash => Standing::Trashed,
        }
    }

    /// Whether nobody has the job, and it isn't gone.
    pub fn is_free(self) -> bool
        ensures { result ≡ free self }
    {
        matches!(self, Standing::Free)
    }

    /// Whether the job isn't gone.
    pub fn is_there(self) -> bool
        ensures { result ≡ there self }
    {
        matches!(self, Standing::Free | Standing::Held(_))
    }

    /// The state of the job.
    fn state(self) -> JobState
        ensures { result ≡ state_in self }
    {
        match self {
            Standing::Free => JobState::Unclaimed,
            Standing::Held(_) => JobState::Claimed,
            Standing::Consumed | Standing::Trashed => JobState::Complete,
        }
    }

    /// Who has the job, if somebody does.
    fn holder(self) -> Option<Name>
        ensures { result ≡ holder_in self }
    {
        match self {
            Standing::Held(owner) => Some(owner),
            Standing::Free | Standing::Consumed | Standing::Trashed => None,
        }
    }
}

/// The priority under which a job is free, or none where somebody has it or it is gone.
pub fn free_as(job: &Job) -> Option<Priority>
    ensures { result ≡ free_under job.now }
{
    if job.standing.is_free() {
        Some(job.priority)
    } else {
        None
    }
}

/// Whether the two priorities are the same.
pub fn is_priority(a: Priority, b: Priority) -> bool
    ensures { result ≡ priority_is a b }
{
    match a {
        Priority::VeryHigh => matches!(b, Priority::VeryHigh),
        Priority::High => matches!(b, Priority::High),
        Priority::Normal => matches!(b, Priority::Normal),
        Priority::Low => matches!(b, Priority::Low),
        Priority::VeryLow => matches!(b, Priority::VeryLow),
    }
}

/// Whether the job is listed among those of the priority.
pub fn is_listed(priority: Priority, job: &Job) -> bool
    ensures { result ≡ listed priority job.now }
{
    if !is_priority(job.priority, priority) {
        return false;
    }
    job.standing.is_there()
}

/// What the list says of the job.
pub fn line_of(alloc: Global, job: &Job) -> Result<JobLine, Memory>
    ensures { IfOk result (λ line. line ≡ line_in job.now) }
{
    let id = id_text(alloc, &job.id)?;
    Ok(JobLine {
        number: job.number,
        id,
        name: job.name,
        priority: job.priority,
        state: job.standing.state(),
        owner: job.standing.holder(),
    })
}
