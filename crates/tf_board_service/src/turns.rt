// What sessions hand round.
ghost use Rattle.std.specs.Prelude.{◌≡◌, ◌<◌, ◌^◌, is_some, length};
ghost use Rattle.tf_board.specs.Board.{AreOfBoard};
ghost use Rattle.tf_shared_board.specs.Shared.{numbered, IsShared};
ghost use Rattle.tf_board_service.specs.Serving.{HasAnswered, HasHalted, IsServing};

use crate::answering::answer;
use crate::replies::BoardReply;
use std::alloc::Global;
use std::marker::Model;
use std::snapshot::Snapshot;
use tf_board::BoardRequest;
use tf_desk::Desk;
use tf_shared_board::{Made, SharedBoard};
use tf_turnstile::Kept;

/// The shared board that is handed round, with what it was when the call began.
#[derive(Drop)]
pub(crate) struct Serving<K: Desk> {
    shared: SharedBoard<K>,
    begun: Snapshot<SharedBoard<K>>,
}

impl<K: Desk> Model for Serving<K> {
    ghost use Rattle.tf_board_service.specs.Serving.{ServingValue, IsServing};

    ghost Value = { ServingValue K };

    ghost view = { λ s. record { begun = s.begun.value; now = s.shared } };

    ghost invariant = { λ s. IsServing K.state (record { begun = s.begun.value; now = s.shared }) };
}

impl<K: Desk> Serving<K> {
    /// Begins to hand a shared board round.
    pub(crate) fn begin(shared: SharedBoard<K>) -> Serving<K>
        ensures { result ≡ record { begun = shared; now = shared } }
    {
        let begun = Snapshot::of(&shared);
        Serving { shared, begun }
    }

    /// What the type keeps since the call began, and what the shared board's keeps.
    pub(crate) fn known(&self)
        ensures serving { IsServing K.state self.now }
        ensures shared { IsShared K.state self.now.now }
        ensures legal { AreOfBoard self.now.now.board.past }
        ensures few { length self.now.now.board.past < 2 ^ 32 }
    {
        let _made = self.shared.made();
    }

    /// How many commands there are.
    pub(crate) fn point(&self) -> u64
        ensures { result ≡ length self.now.now.board.past }
    {
        self.shared.board().count()
    }

    /// Answers a request under a number, unless the board is halted or memory runs out, which halts it.
    pub(crate) fn answer(
        &mut self,
        alloc: Global,
        number: u8,
        request: BoardRequest,
    ) -> Option<BoardReply>
        ensures { HasAnswered K.state number request self.old self.new result }
    {
        answer(alloc, &mut self.shared, number, request)
    }

    /// Halts it for want of memory, if it isn't halted.
    pub(crate) fn halt(&mut self)
        ensures { HasHalted K.state self.old self.new }
    {
        self.shared.halt_for_memory();
    }

    /// The shared board back.
    pub(crate) fn into_shared(self) -> SharedBoard<K>
        ensures shared { result ≡ self.now }
        ensures kept { IsServing K.state self }
    {
        let Serving { shared, begun: _ } = self;
        shared
    }
}

impl<K: Desk> Kept for Serving<K> {
    type Origin = SharedBoard<K>;

    type Entry = Made;

    ghost origin = { λ s. s.begun };

    ghost first = { λ s. length s.now.start.past };

    ghost entries = { λ s. numbered s.now.made };

    ghost is_stopped = { λ s. is_some s.now.halt };

    fn count(&self) -> u64 {
        self.shared.count()
    }

    fn stopped(&self) -> bool {
        self.shared.halted().is_some()
    }
}
