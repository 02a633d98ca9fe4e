// What a conductor does with the board in one turn.
ghost use Rattle.std.specs.Prelude.{◌≡◌, ◌<◌, ◌^◌, Some, IsSome, is_some, length, slice_get};
ghost use Rattle.tf_board.specs.Board.{AreOfBoard};
ghost use Rattle.tf_shared_board.specs.Shared.{numbered, IsShared};
ghost use Rattle.tf_conductor.specs.Conducting.{IsConducting, MakesNone, HasClaimed, EndsAndClaims, EndsJob, Claims, conducting_origin};
ghost use Rattle.tf_conductor.specs.Rounds.{end_call};

use crate::runners::Ran;
use std::alloc::Global;
use std::marker::Model;
use std::snapshot::Snapshot;
use tf_board::{JobAction, JobCall, a_free_job_may_be_claimed};
use tf_desk::Desk;
use tf_shared_board::{Made, SharedBoard};
use tf_turnstile::Kept;
use tf_values::{Name, Names, Val};
use uuid::Uuid;

/// A job that a conductor has claimed: its number, the id that names it, and its details.
#[derive(Drop)]
pub(crate) struct Claim {
    pub(crate) job: u64,
    pub(crate) id: Uuid,
    pub(crate) details: Val,
}

/// What a conductor does next: it stops since it found no job, or since the board is halted; or it runs a job that it
/// has claimed.
#[derive(Drop)]
pub(crate) enum Next {
    Stop,
    Halt,
    Run(Claim),
}

/// The call by which an owner ends a job: it is consumed where it is done, else abandoned.
fn ending(id: Uuid, owner: Name, ran: Ran) -> JobCall
    ensures { result ≡ end_call ran id owner }
{
    match ran {
        Ran::Done => JobCall::Apply {
            action: JobAction::Consume,
            id,
            owner,
        },
        Ran::Left => JobCall::Apply {
            action: JobAction::Abandon,
            id,
            owner,
        },
    }
}

/// Claims for an owner the first free job that isn't among those to skip, with a copy of its details.
fn claim_next<K: Desk>(
    alloc: Global,
    shared: &mut SharedBoard<K>,
    number: u8,
    owner: &Name,
    skip: &[u64],
) -> Next
    ensures { Claims K.state number owner.now skip.now shared.old shared.new result }
{
    if shared.halted().is_some() {
        return Next::Halt;
    }
    let Some(job) = shared.board().free_job(skip) else {
        return Next::Stop;
    };
    a_free_job_may_be_claimed();
    let Some(id) = shared.board().id_of(job) else {
        unreachable!()
    };
    let Some(details) = shared.board().details_of(job) else {
        unreachable!()
    };
    let Ok(details) = details.copy(alloc) else {
        shared.halt_for_memory();
        return Next::Halt;
    };
    let claim = JobCall::Apply {
        action: JobAction::Claim,
        id,
        owner: *owner,
    };
    match shared.call(number, claim) {
        Ok(_) => Next::Run(Claim { job, id, details }),
        Err(_) => Next::Halt,
    }
}

/// The shared board that is handed round, with what it was when the call began, and the owners.
#[derive(Drop)]
pub(crate) struct Conducting<K: Desk> {
    shared: SharedBoard<K>,
    begun: Snapshot<SharedBoard<K>>,
    owners: Snapshot<Names>,
}

impl<K: Desk> Model for Conducting<K> {
    ghost use Rattle.tf_conductor.specs.Conducting.{ConductingValue, IsConducting};

    ghost Value = { ConductingValue K };

    ghost view = { λ c. record { begun = c.begun.value; now = c.shared; owners = c.owners.value } };

    ghost invariant = { λ c. IsConducting K.state
        (record { begun = c.begun.value; now = c.shared; owners = c.owners.value }) };
}

impl<K: Desk> Conducting<K> {
    /// Begins to hand a shared board round.
    pub(crate) fn begin(shared: SharedBoard<K>, owners: &Names) -> Conducting<K>
        ensures { result ≡ record { begun = shared; now = shared; owners = owners.now } }
    {
        let begun = Snapshot::of(&shared);
        Conducting {
            shared,
            begun,
            owners: Snapshot::of(owners),
        }
    }

    /// What the type keeps since the call began, and what the shared board's keeps.
    pub(crate) fn known(&self)
        ensures conducting { IsConducting K.state self.now }
        ensures shared { IsShared K.state self.now.now }
        ensures legal { AreOfBoard self.now.now.board.past }
        ensures few { length self.now.now.board.past < 2 ^ 32 }
    {
        let _made = self.shared.made();
    }

    /// Claims for an owner the first free job that isn't among those to skip.
    pub(crate) fn claim(&mut self, alloc: Global, number: u8, owner: &Name, skip: &[u64]) -> Next
        requires { slice_get self.old.owners number ≡ Some owner.now }
        ensures { HasClaimed K.state number owner.now skip.now self.old self.new result }
    {
        claim_next(alloc, &mut self.shared, number, owner, skip)
    }

    /// Ends a job that an owner has: it is consumed where it is done, else abandoned. Whether that was made.
    pub(crate) fn end(&mut self, number: u8, owner: &Name, id: Uuid, ran: Ran) -> bool
        requires { slice_get self.old.owners number ≡ Some owner.now }
        ensures { EndsJob K.state number owner.now id ran self.old self.new result }
    {
        if self.shared.halted().is_some() {
            return false;
        }
        self.shared.call(number, ending(id, *owner, ran)).is_ok()
    }

    /// Ends a job that an owner has, and then claims for it the first free job that isn't among those to skip. `None` where
    /// the end wasn't made.
    pub(crate) fn end_and_claim(
        &mut self,
        alloc: Global,
        number: u8,
        owner: &Name,
        id: Uuid,
        ran: Ran,
        skip: &[u64],
    ) -> Option<Next>
        requires { slice_get self.old.owners number ≡ Some owner.now }
        ensures { EndsAndClaims K.state number owner.now id ran skip.now self.old self.new result }
    {
        if !self.end(number, owner, id, ran) {
            return None;
        }
        self.known();
        Some(self.claim(alloc, number, owner, skip))
    }

    /// Halts it for want of memory, if it isn't halted.
    pub(crate) fn halt(&mut self)
        ensures none { MakesNone K.state self.old self.new }
        ensures halted { IsSome self.new.now.halt }
    {
        self.shared.halt_for_memory();
    }

    /// The shared board back.
    pub(crate) fn into_shared(self) -> SharedBoard<K>
        ensures shared { result ≡ self.now }
        ensures kept { IsConducting K.state self }
    {
        let Conducting {
            shared,
            begun: _,
            owners: _,
        } = self;
        shared
    }
}

impl<K: Desk> Kept for Conducting<K> {
    type Origin = (SharedBoard<K>, Names);

    type Entry = Made;

    ghost origin = { conducting_origin };

    ghost first = { λ c. length c.now.start.past };

    ghost entries = { λ c. numbered c.now.made };

    ghost is_stopped = { λ c. is_some c.now.halt };

    fn count(&self) -> u64 {
        self.shared.count()
    }

    fn stopped(&self) -> bool {
        self.shared.halted().is_some()
    }
}
