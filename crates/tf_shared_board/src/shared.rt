ghost use Rattle.std.specs.Prelude.{◌≡◌, ◌<◌, ◌^◌, [], false, None, IfOk, IfErr, length, is_some};
ghost use Rattle.tf_board.specs.Board.{AreOfBoard};
ghost use Rattle.tf_board.specs.Does.{LeavesRecorded, asked_for};
ghost use Rattle.tf_desk.specs.State.{GoesOn};
ghost use Rattle.tf_shared_board.specs.Shared.{numbered, IsShared, IsMade, FailsToCall, halt_or_memory};

use crate::asking::{ask, sort};
use crate::calls::{BoardHalt, CallFault, Made};
use std::alloc::Global;
use std::marker::Model;
use std::snapshot::Snapshot;
use tf_board::{Board, JobCall};
use tf_desk::Desk;
use tf_turnstile::Kept;

/// A board that several share, with the calls that were made since it was made, each with the number of who made it.
/// The first failing of the disk, a full board or want of memory halts it for good. Contracts see the board as it was
/// made with, the board now, the calls and the halt.
#[derive(Drop)]
pub struct SharedBoard<K: Desk> {
    alloc: Global,
    board: Board<K>,
    start: Snapshot<Board<K>>,
    made: Vec<Made>,
    halt: Option<BoardHalt>,
}

impl<K: Desk> Model for SharedBoard<K> {
    ghost use Rattle.tf_shared_board.specs.Shared.{SharedValue, IsShared};

    ghost Value = { SharedValue K };

    ghost view = { λ s. record { start = s.start.value; board = s.board; made = s.made.items; halt = s.halt } };

    ghost invariant = { λ s. IsShared K.state
        (record { start = s.start.value; board = s.board; made = s.made.items; halt = s.halt }) };
}

impl<K: Desk> SharedBoard<K> {
    /// Shares a board, no command of which answered `Disk`.
    pub fn make(alloc: Global, board: Board<K>) -> SharedBoard<K>
        requires { board.journal.halted ≡ false }
        ensures { result ≡ record { start = board; board = board; made = []; halt = None } }
    {
        let start = Snapshot::of(&board);
        SharedBoard {
            alloc,
            board,
            start,
            made: Vec::new(alloc),
            halt: None,
        }
    }

    /// Makes a call under a number, and answers the number of its job. Where the call is refused nothing changes; then
    /// `Rule` says why. Where the disk fails, the board is full or memory runs out, it is halted, and `Halted` carries
    /// that cause, then and at each later call. A crash inside leaves the commands from before, with the new one or
    /// without; after `Ok` every crash leaves it.
    pub fn call(&mut self, number: u8, call: JobCall) -> Result<u64, CallFault>
        ensures start { self.new.start ≡ self.old.start }
        ensures made { IfOk result (λ job. IsMade K.state (record { number = number; job = job; call = call })
            self.old self.new) }
        ensures fails { IfErr result (λ fault. FailsToCall K.state call self.old self.new fault) }
        ensures goes { GoesOn
            (LeavesRecorded self.old.board.past (asked_for self.old.board.past call)
            (K.state self.old.board.journal.desk))
            (K.state self.old.board.journal.desk) (K.state self.new.board.journal.desk) }
    {
        if let Some(halt) = self.halt {
            return Err(CallFault::Halted(halt));
        }
        let Ok(()) = self.made.reserve(1) else {
            self.halt = Some(BoardHalt::Memory);
            return Err(CallFault::Halted(BoardHalt::Memory));
        };
        match ask(self.alloc, &mut self.board, &call) {
            Ok(job) => {
                self.made.push_reserved(Made { number, job, call });
                Ok(job)
            }
            Err(fault) => match sort(fault) {
                Ok(rule) => Err(CallFault::Rule(rule)),
                Err(halt) => {
                    self.halt = Some(halt);
                    Err(CallFault::Halted(halt))
                }
            },
        }
    }

    /// Halts it for want of memory, if it isn't halted.
    pub fn halt_for_memory(&mut self)
        ensures { self.new ≡ record self.old { halt = halt_or_memory self.old.halt } }
    {
        if self.halt.is_some() {
            return;
        }
        self.halt = Some(BoardHalt::Memory);
    }

    /// Why it doesn't go on, if it doesn't.
    pub fn halted(&self) -> Option<BoardHalt>
        ensures { result ≡ self.now.halt }
    {
        self.halt
    }

    /// The board as it is now.
    pub fn board(&self) -> &Board<K>
        ensures { result.now ≡ self.now.board }
    {
        &self.board
    }

    /// The calls that were made, in their order. What the type keeps: the board's commands are those that it was made
    /// with, followed by those of the calls, and a halt has its cause. They are commands that a board may hold.
    pub fn made(&self) -> &[Made]
        ensures made { result.now ≡ self.now.made }
        ensures shared { IsShared K.state self.now }
        ensures legal { AreOfBoard self.now.board.past }
        ensures few { length self.now.board.past < 2 ^ 32 }
    {
        let _count = self.board.count();
        &self.made
    }

    /// The board back.
    pub fn close(self) -> Board<K>
        ensures board { result ≡ self.board }
        ensures shared { IsShared K.state self }
    {
        let SharedBoard {
            alloc: _,
            board,
            start: _,
            made,
            halt: _,
        } = self;
        drop(made);
        board
    }
}

impl<K: Desk> Kept for SharedBoard<K> {
    type Origin = Board<K>;

    type Entry = Made;

    ghost origin = { λ s. s.start };

    ghost first = { λ s. length s.start.past };

    ghost entries = { λ s. numbered s.made };

    ghost is_stopped = { λ s. is_some s.halt };

    fn count(&self) -> u64 {
        self.board.count()
    }

    fn stopped(&self) -> bool {
        self.halt.is_some()
    }
}
