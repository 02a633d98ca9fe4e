ghost use Rattle.std.specs.Prelude.{◌≡◌, ◌++◌, List, OnOk, IfOk};
ghost use Rattle.std.specs.List.{flat_map};
ghost use Rattle.tf_board.specs.Board.{listed, listed_at, priorities};

use super::Board;
use crate::jobs::{Job, is_listed, line_of};
use std::alloc::Global;
use tf_desk::Desk;
use tf_report::JobLine;
use tf_states::Priority;
use tf_values::Memory;

/// The priorities from the most urgent on.
pub(super) static PRIORITIES: [Priority; 5] = [
    Priority::VeryHigh,
    Priority::High,
    Priority::Normal,
    Priority::Low,
    Priority::VeryLow,
];

/// Appends what the list says of the jobs of a priority, in the order of their numbers.
fn append_lines(
    alloc: Global,
    jobs: &[Job],
    priority: Priority,
    lines: &mut Vec<JobLine>,
) -> Result<(), Memory>
    ensures { OnOk result (lines.new.items ≡ lines.old.items ++ listed_at jobs.now priority) }
{
    for job in jobs {
        if is_listed(priority, job) {
            lines.push(line_of(alloc, job)?)?;
        }
    }
    Ok(())
}

/// What the list says of the jobs: by priority from the most urgent down, and then by number.
fn lines_of(alloc: Global, jobs: &[Job]) -> Result<Vec<JobLine>, Memory>
    ensures { IfOk result (λ lines. lines.items ≡ flat_map (listed_at jobs.now) priorities) }
{
    let mut lines = Vec::new(alloc);
    for priority in &PRIORITIES {
        append_lines(alloc, jobs, *priority, &mut lines)?;
    }
    Ok(lines)
}

impl<K: Desk> Board<K> {
    /// What is to be said of each job that isn't gone: by priority from VERY_HIGH down, and then by number.
    pub fn list(&self) -> Result<Vec<JobLine>, Memory>
        ensures { IfOk result (λ lines. lines.items ≡ listed self.now.past) }
    {
        lines_of(self.alloc, &self.kept.jobs)
    }
}
