ghost use Rattle.std.specs.Prelude.{◌≡◌, ◌<◌, ◌^◌, ◌&&◌, Some, length, option_copied, slice_get, unwrap_or};
ghost use Rattle.std.specs.List.{find, filter};
ghost use Rattle.tf_board.specs.Board.{AreOfBoard, AreSideBySide, is_listed as listed, numbered, names_itself as itself};
ghost use Rattle.tf_board.specs.Does.{number_of as number_in};
ghost use Rattle.tf_board.specs.Seeking.{is_free_under, start_under, number_among, is_takable as takable, free_job as found_free, number_named, id_at, details_at};

use super::Board;
use super::listing::PRIORITIES;
use crate::jobs::{Job, is_priority};
use crate::kept::Kept;
use crate::starts::starts_in;
use tf_desk::Desk;
use tf_states::Priority;
use tf_values::Val;
use uuid::Uuid;

/// The item of a number, of which the first is 1.
fn at_number<T>(items: &[T], number: u64) -> Option<&T>
    ensures { option_copied result ≡ numbered items.now number }
{
    let Some(place) = number.checked_sub(1) else {
        return None;
    };
    items.get(place as usize)
}

/// Whether the id of the job names it, and none of less number.
fn names_itself(kept: &Kept, job: &Job) -> bool
    requires { AreSideBySide kept.now }
    ensures { result ≡ itself kept.now.jobs.items job.now }
{
    match kept.place_of(&job.id) {
        Some(place) => kept.jobs[place].number == job.number,
        None => false,
    }
}

/// Whether nobody has the job, its id names it, and it isn't among those that are to be passed over.
fn is_takable(kept: &Kept, skip: &[u64], job: &Job) -> bool
    requires { AreSideBySide kept.now }
    ensures { result ≡ takable kept.now.jobs.items skip.now job.now }
{
    if !job.standing.is_free() {
        return false;
    }
    if skip.contains(&job.number) {
        return false;
    }
    names_itself(kept, job)
}

/// Whether a job that is free so is free under this priority.
fn is_under(free: Option<Priority>, priority: Priority) -> bool
    ensures { result ≡ is_free_under priority free }
{
    match free {
        Some(other) => is_priority(other, priority),
        None => false,
    }
}

/// Whether the job at a place is listed among those of the priority, and may be taken.
fn is_free_at(kept: &Kept, skip: &[u64], priority: Priority, place: usize) -> bool
    requires side_by_side { AreSideBySide kept.now }
    requires within { place < length kept.now.jobs.items }
    ensures { (job : Job) → slice_get kept.now.jobs.items place ≡ Some job
        → result ≡ (listed priority job && takable kept.now.jobs.items skip.now job) }
{
    if !is_under(kept.free[place], priority) {
        return false;
    }
    is_takable(kept, skip, &kept.jobs[place])
}

/// The first job that is free under the priority and may be taken. The search begins at the start.
fn first_free<'a>(kept: &'a Kept, skip: &[u64], priority: Priority, start: usize) -> Option<&'a Job>
    requires side_by_side { AreSideBySide kept.now }
    requires start { start ≡ start_under kept.now.free.items priority }
    ensures { option_copied result ≡ find (λ job. listed priority job && takable kept.now.jobs.items skip.now job)
        kept.now.jobs.items }
{
    for place in start..kept.jobs.len() {
        if is_free_at(kept, skip, priority, place) {
            return Some(&kept.jobs[place]);
        }
    }
    None
}

/// The same, of the jobs that are listed.
fn free_at<'a>(kept: &'a Kept, skip: &[u64], priority: Priority, start: usize) -> Option<&'a Job>
    requires side_by_side { AreSideBySide kept.now }
    requires start { start ≡ start_under kept.now.free.items priority }
    ensures { option_copied result ≡ find (takable kept.now.jobs.items skip.now)
        (filter (listed priority) kept.now.jobs.items) }
{
    first_free(kept, skip, priority, start)
}

/// The first job that may be taken: by priority from the most urgent down, and then by number.
fn free_among(kept: &Kept, skip: &[u64]) -> Option<u64>
    requires { AreSideBySide kept.now }
    ensures { result ≡ number_among kept.now.jobs.items skip.now }
{
    let starts = starts_in(&kept.free);
    for priority in &PRIORITIES {
        if let Some(job) = free_at(kept, skip, *priority, starts.of(*priority)) {
            return Some(job.number);
        }
    }
    None
}

impl<K: Desk> Board<K> {
    /// How many commands were accepted. They are those that a board may hold. It takes no memory.
    pub fn count(&self) -> u64
        ensures count { result ≡ length self.now.past }
        ensures few { length self.now.past < 2 ^ 32 }
        ensures legal { AreOfBoard self.now.past }
    {
        self.kept.count()
    }

    /// The number of the first job of the list that nobody has, that is named by its own id, and whose number isn't
    /// among those to skip. It takes no memory.
    pub fn free_job(&self, skip: &[u64]) -> Option<u64>
        ensures { result ≡ found_free self.now.past skip.now }
    {
        free_among(&self.kept, skip)
    }

    /// The id of the job of that number, or none where no such job was posted.
    pub fn id_of(&self, number: u64) -> Option<Uuid>
        ensures { result ≡ id_at self.now.past number }
    {
        match at_number(&self.kept.jobs, number) {
            Some(job) => Some(job.id),
            None => None,
        }
    }

    /// The details of the job of that number, or none where there is no such job or it is gone.
    pub fn details_of(&self, number: u64) -> Option<&Val>
        ensures { option_copied result ≡ details_at self.now.past number }
    {
        let Some(job) = at_number(&self.kept.jobs, number) else {
            return None;
        };
        if !job.standing.is_there() {
            return None;
        }
        at_number(&self.kept.details, number)
    }

    /// The number of the job that the id names, or none where no job has it.
    pub fn number_of(&self, id: &Uuid) -> Option<u64>
        ensures named { result ≡ number_named self.now.past id.now }
        ensures number { unwrap_or result 0 ≡ number_in self.now.past id.now }
    {
        let place = self.kept.place_of(id)?;
        Some(place as u64 + 1)
    }
}
