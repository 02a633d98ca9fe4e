// What one conductor does: it takes the board for a turn, and runs its jobs without it.
ghost use Rattle.std.specs.Prelude.{◌≡◌, ◌<◌, [], vec_capacity, vec_len};
ghost use Rattle.tf_turnstile.specs.Passes.{IsIdle, new_pass};
ghost use Rattle.tf_conductor.specs.Rounds.{GiveSame};
ghost use Rattle.tf_conductor.specs.Working.{HasClaim, HasTurned, HasWorkedOn, IsConductorOf, IsSkipping, KnowsAfter, KnowsNext, StepsFrom, seen_calls, start_past};

use crate::runners::{Ran, Runner};
use crate::turns::{Claim, Conducting, Next};
use std::alloc::Global;
use std::sync::Wait;
use tf_desk::Desk;
use tf_turnstile::{Pass, Turnstile};
use tf_values::Name;

/// A runner with its pass, and whether it stopped since the board was halted.
#[derive(Drop)]
pub(crate) struct Conductor<K: Desk, P: Runner> {
    pub(crate) runner: P,
    pub(crate) pass: Pass<Conducting<K>>,
    pub(crate) halted: bool,
}

/// Takes the board to claim the next job, and gives it home.
fn begin_turn<K: Desk, T: Wait>(
    rt: &T,
    alloc: Global,
    turnstile: &Turnstile<Conducting<K>>,
    pass: &mut Pass<Conducting<K>>,
    number: u8,
    owner: &Name,
    skip: &[u64],
) -> Next
    requires opened { IsConductorOf turnstile.now number owner.now }
    requires idle { IsIdle turnstile.now number pass.old }
    ensures idle { IsIdle turnstile.now number pass.new }
    ensures next { KnowsNext (start_past turnstile.now) turnstile.now.start.owners number owner.now skip.now
        (seen_calls pass.old) (seen_calls pass.new) result }
{
    let mut board = turnstile.take(rt, pass);
    board.known();
    let next = board.claim(alloc, number, owner, skip);
    board.known();
    turnstile.give(board, pass);
    next
}

/// Takes the board to end a job that was run and to claim the next one, and gives it home. `None` where the end wasn't made.
fn end_turn<K: Desk, T: Wait>(
    rt: &T,
    alloc: Global,
    turnstile: &Turnstile<Conducting<K>>,
    pass: &mut Pass<Conducting<K>>,
    number: u8,
    owner: &Name,
    claim: &Claim,
    ran: Ran,
    skip: &[u64],
) -> Option<Next>
    requires opened { IsConductorOf turnstile.now number owner.now }
    requires idle { IsIdle turnstile.now number pass.old }
    requires has { HasClaim (start_past turnstile.now) number owner.now (seen_calls pass.old)
        claim.now.job claim.now.id }
    ensures idle { IsIdle turnstile.now number pass.new }
    ensures next { KnowsAfter (start_past turnstile.now) turnstile.now.start.owners number owner.now claim.now ran
        skip.now (seen_calls pass.old) (seen_calls pass.new) result }
{
    let mut board = turnstile.take(rt, pass);
    board.known();
    let next = board.end_and_claim(alloc, number, owner, claim.id, ran, skip);
    board.known();
    turnstile.give(board, pass);
    next
}

/// Takes the board to halt it for want of memory, and gives it home.
fn halt_board<K: Desk, T: Wait>(
    rt: &T,
    turnstile: &Turnstile<Conducting<K>>,
    pass: &mut Pass<Conducting<K>>,
    number: u8,
    owner: &Name,
)
    requires opened { IsConductorOf turnstile.now number owner.now }
    requires idle { IsIdle turnstile.now number pass.old }
    ensures idle { IsIdle turnstile.now number pass.new }
    ensures turned { HasTurned number (seen_calls pass.old) (seen_calls pass.new) [] }
{
    let mut board = turnstile.take(rt, pass);
    board.known();
    board.halt();
    board.known();
    turnstile.give(board, pass);
}

/// Keeps a job that is left, for which there is room, among those to skip.
fn skip_left(left: &mut Vec<u64>, job: u64, ran: Ran)
    requires { vec_len left.old < vec_capacity left.old }
    ensures { IsSkipping job left.old.items left.new.items }
{
    if ran == Ran::Left {
        left.push_reserved(job);
    }
}

/// Runs a job that the conductor has claimed, without the board, ends it, and claims the next one, but none of those that
/// it has left.
fn step<K: Desk, P: Runner, T: Wait>(
    rt: &T,
    alloc: Global,
    turnstile: &Turnstile<Conducting<K>>,
    conductor: &mut Conductor<K, P>,
    left: &mut Vec<u64>,
    number: u8,
    owner: &Name,
    claim: &Claim,
) -> Next
    requires opened { IsConductorOf turnstile.now number owner.now }
    requires idle { IsIdle turnstile.now number conductor.old.pass }
    requires has { HasClaim (start_past turnstile.now) number owner.now (seen_calls conductor.old.pass)
        claim.now.job claim.now.id }
    ensures idle { IsIdle turnstile.now number conductor.new.pass }
    ensures gives { GiveSame (P.gives conductor.old.runner) (P.gives conductor.new.runner) }
    ensures steps { StepsFrom (P.gives conductor.old.runner) (start_past turnstile.now) turnstile.now.start.owners
        number owner.now claim.now (P.did conductor.old.runner) (P.did conductor.new.runner)
        left.old.items left.new.items (seen_calls conductor.old.pass) (seen_calls conductor.new.pass) result }
{
    let Ok(()) = left.reserve(1) else {
        halt_board(rt, turnstile, &mut conductor.pass, number, owner);
        return Next::Halt;
    };
    let Ok(ran) = conductor.runner.run(alloc, &claim.details) else {
        halt_board(rt, turnstile, &mut conductor.pass, number, owner);
        return Next::Halt;
    };
    skip_left(left, claim.job, ran);
    match end_turn(
        rt,
        alloc,
        turnstile,
        &mut conductor.pass,
        number,
        owner,
        claim,
        ran,
        left,
    ) {
        Some(next) => next,
        None => Next::Halt,
    }
}

/// All jobs of a conductor, until it finds none or the board is halted.
pub(crate) fn work<K: Desk, P: Runner, T: Wait>(
    rt: &T,
    alloc: Global,
    turnstile: &Turnstile<Conducting<K>>,
    conductor: &mut Conductor<K, P>,
    number: u8,
    owner: &Name,
)
    requires opened { IsConductorOf turnstile.now number owner.now }
    requires made { conductor.old.pass ≡ new_pass turnstile.now number }
    ensures gives { GiveSame (P.gives conductor.old.runner) (P.gives conductor.new.runner) }
    ensures worked { HasWorkedOn turnstile.now number owner.now (P.gives conductor.old.runner)
        (P.did conductor.old.runner) (P.did conductor.new.runner) conductor.new.pass conductor.new.halted }
{
    let mut left = Vec::new(alloc);
    let mut next = begin_turn(
        rt,
        alloc,
        turnstile,
        &mut conductor.pass,
        number,
        owner,
        &left,
    );
    'jobs: for _ in rt.forever() {
        match next {
            Next::Stop => {
                conductor.halted = false;
                return;
            }
            Next::Halt => {
                conductor.halted = true;
                return;
            }
            Next::Run(claim) => {
                next = step(
                    rt, alloc, turnstile, conductor, &mut left, number, owner, &claim,
                );
            }
        }
    }
    unreachable!()
}
