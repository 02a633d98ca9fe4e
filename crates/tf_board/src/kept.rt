ghost use Rattle.std.specs.Prelude.{◌≡◌, ◌≢◌, ◌<◌, ◌+◌, ◌∷◌, ℕ, suc, option_map, ◌++◌, [], List, length, None, OnOk, IfOk, IfSome, MatchOption, vec_len, vec_capacity};
ghost use Rattle.std.specs.List.{position};
ghost use Rattle.tf_board.specs.Board.{IsCommand, same, posted as count_of, job_at, place_of as place_among, posted_with, refuses, past_of, past_in, IsTrueTo, HasRoom, IsChange, AreSideBySide};
ghost use Rattle.tf_board.specs.declared.commands.Command.{Command as ACommand};
ghost use Rattle.tf_board.specs.declared.jobs.Job.{Job as AJob};

use crate::commands::Command;
use crate::ids::job_id;
use crate::jobs::{Job, Standing, free_as};
use crate::rules::refusal_at;
use std::alloc::{AllocError, Global};
use std::snapshot::Snapshot;
use tf_states::Priority;
use tf_values::{Memory, Name, Val};
use uuid::Uuid;

/// What a board keeps in memory: its commands as clauses see them, which take no bytes, and its jobs as they stand
/// with the details that they were posted with, in the order of their numbers. The ids of the jobs, and under which
/// priority each of them is free, stand side by side too, since they are looked through for each command.
#[derive(Drop)]
pub struct Kept {
    pub commands: Vec<Snapshot<Command>>,
    pub jobs: Vec<Job>,
    pub details: Vec<Val>,
    pub ids: Vec<Uuid>,
    pub free: Vec<Option<Priority>>,
}

/// What a command changes of the jobs: one is added, or the one at a place stands anew.
#[derive(Clone, Copy)]
pub enum Change {
    Posted(Job),
    Stands { place: usize, standing: Standing },
}

/// Notes a command, for which there is room.
fn note(commands: &mut Vec<Snapshot<Command>>, command: &Command)
    requires { vec_len commands.old < vec_capacity commands.old }
    ensures { past_of commands.new.items ≡ command.now ∷ past_of commands.old.items }
{
    let _ = commands.push(Snapshot::of(command));
}

/// Keeps the details of a job that is posted, for which there is room.
fn keep_details(details: &mut Vec<Val>, command: Command)
    requires { vec_len details.old < vec_capacity details.old }
    ensures { details.new.items ≡ details.old.items ++ posted_with command }
{
    match command {
        Command::Post {
            name: _,
            priority: _,
            details: value,
        } => {
            let _ = details.push(value);
        }
        Command::Apply { .. } => {}
    }
}

/// Whether the two ids are the same.
pub fn is_id(a: &Uuid, b: &Uuid) -> bool
    ensures { result ≡ same a.now b.now }
{
    a.as_bytes().as_slice() == b.as_bytes().as_slice()
}

/// The place of the first of these ids that is this one.
fn place_in(ids: &[Uuid], id: &Uuid) -> Option<usize>
    ensures is { result ≡ position (λ other. same other id.now) ids.now }
    ensures within { IfSome result (λ place. place < length ids.now) }
{
    ids.iter().position(|other| is_id(other, id))
}

/// The place of the job of a number, of which the first is 1.
fn place_at(number: Option<u64>) -> Option<usize>
    ensures { (jobs : List AJob) (id : List ℕ) → number ≡ option_map (λ place. suc place) (place_among jobs id)
        → result ≡ place_among jobs id }
{
    let place = number?.checked_sub(1)?;
    Some(place as usize)
}

impl Kept {
    /// No command yet.
    pub fn none(alloc: Global) -> Kept
        ensures { IsTrueTo result [] }
    {
        Kept {
            commands: Vec::new(alloc),
            jobs: Vec::new(alloc),
            details: Vec::new(alloc),
            ids: Vec::new(alloc),
            free: Vec::new(alloc),
        }
    }

    /// How many commands are kept.
    pub fn count(&self) -> u64
        ensures { result ≡ length (past_in self.now) }
    {
        self.commands.len() as u64
    }

    /// The place of the first job that has the id.
    pub fn place_of(&self, id: &Uuid) -> Option<usize>
        requires side_by_side { AreSideBySide self.now }
        ensures is { result ≡ place_among self.now.jobs.items id.now }
        ensures within { IfSome result (λ place. place < length self.now.jobs.items) }
    {
        place_in(&self.ids, id)
    }

    /// The same where its number is known already, of which the first is 1.
    pub fn place_numbered(&self, number: Option<u64>, id: &Uuid) -> Option<usize>
        requires { number ≡ option_map (λ place. suc place) (place_among self.now.jobs.items id.now) }
        ensures is { result ≡ place_among self.now.jobs.items id.now }
        ensures within { IfSome result (λ place. place < length self.now.jobs.items) }
    {
        place_at(number)
    }

    /// The job that is posted next, with this name and this priority.
    pub fn next(&self, alloc: Global, name: &Name, priority: Priority) -> Result<Job, Memory>
        requires true_to { IsTrueTo self.now (past_in self.now) }
        ensures { IfOk result (λ job. job
            ≡ job_at (past_in self.now) (count_of (past_in self.now) + 1) name.now priority) }
    {
        let number = self.jobs.as_slice().len() as u64 + 1;
        let id = job_id(alloc, number, name)?;
        Ok(Job {
            number,
            id,
            name: *name,
            priority,
            standing: Standing::Free,
        })
    }

    /// What the command changes, or none where it is refused.
    pub fn change_of(&self, alloc: Global, command: &Command) -> Result<Option<Change>, Memory>
        requires true_to { IsTrueTo self.now (past_in self.now) }
        ensures { IfOk result (λ change. MatchOption change (refuses (past_in self.now) command.now ≢ None)
            (λ change. (refuses (past_in self.now) command.now ≡ None)
            × IsChange (past_in self.now) command.now change)) }
    {
        match command {
            Command::Post { name, priority, .. } => {
                let job = self.next(alloc, name, *priority)?;
                Ok(Some(Change::Posted(job)))
            }
            Command::Apply { action, job, owner } => {
                let Some(place) = job.checked_sub(1) else {
                    return Ok(None);
                };
                let Some(job) = self.jobs.get(place as usize) else {
                    return Ok(None);
                };
                match refusal_at(job.standing, *action, owner) {
                    Some(_) => Ok(None),
                    None => Ok(Some(Change::Stands {
                        place: place as usize,
                        standing: Standing::after(*action, owner),
                    })),
                }
            }
        }
    }

    /// Makes room for one command and one job more.
    pub fn reserve(&mut self) -> Result<(), AllocError>
        ensures commands { self.new.commands.items ≡ self.old.commands.items }
        ensures jobs { self.new.jobs.items ≡ self.old.jobs.items }
        ensures details { self.new.details.items ≡ self.old.details.items }
        ensures ids { self.new.ids.items ≡ self.old.ids.items }
        ensures free { self.new.free.items ≡ self.old.free.items }
        ensures room { OnOk result (HasRoom self.new) }
    {
        self.commands.reserve(1)?;
        self.jobs.reserve(1)?;
        self.details.reserve(1)?;
        self.ids.reserve(1)?;
        self.free.reserve(1)
    }

    /// Keeps a command that isn't refused, for which there is room.
    pub fn keep(&mut self, command: Command, change: Change)
        requires true_to { IsTrueTo self.old (past_in self.old) }
        requires allowed { refuses (past_in self.old) command ≡ None }
        requires form { IsCommand command }
        requires change { IsChange (past_in self.old) command change }
        requires room { HasRoom self.old }
        ensures { IsTrueTo self.new (command ∷ past_in self.old) }
    {
        note(&mut self.commands, &command);
        keep_details(&mut self.details, command);
        match change {
            Change::Posted(job) => {
                let _ = self.ids.push(job.id);
                let _ = self.free.push(free_as(&job));
                let _ = self.jobs.push(job);
            }
            Change::Stands { place, standing } => {
                let job = &mut self.jobs[place];
                job.standing = standing;
                self.free[place] = free_as(job);
            }
        }
    }
}
