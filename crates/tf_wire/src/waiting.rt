ghost use Rattle.std.specs.Prelude.{◌≡◌, [], ◌∷◌, ◌++◌, OnOk, OnErr, MatchOption};

use std::alloc::Global;
use std::collections::VecDeque;
use std::marker::Model;
use tf_values::Memory;

/// Frames that wait to be taken, each a vector of its own. Contracts see the list.
#[derive(Drop)]
pub struct Waiting {
    frames: VecDeque<Vec<u8>>,
}

impl Model for Waiting {
    ghost use Rattle.std.specs.Prelude.{List, ℕ, map};

    ghost Value = { List (List ℕ) };

    ghost view = { λ waiting. map (λ frame. frame.items) waiting.frames.items };
}

impl Waiting {
    /// No frames.
    pub fn make(alloc: Global) -> Waiting
        ensures { result ≡ [] }
    {
        Waiting {
            frames: VecDeque::new(alloc),
        }
    }

    /// Keeps a copy of one frame more; want of memory keeps what there is.
    pub fn push(&mut self, alloc: Global, frame: &[u8]) -> Result<(), Memory>
        ensures ok { OnOk result (self.new ≡ self.old ++ frame.now ∷ []) }
        ensures same { OnErr result (self.new ≡ self.old) }
    {
        let copy = Vec::from_slice(alloc, frame)?;
        self.frames.push_back(copy)?;
        Ok(())
    }

    /// Takes the first frame.
    pub fn take(&mut self) -> Option<Vec<u8>>
        ensures { MatchOption result ((self.old ≡ []) × (self.new ≡ [])) (λ frame. self.old ≡ frame.items ∷ self.new) }
    {
        self.frames.pop_front()
    }
}
