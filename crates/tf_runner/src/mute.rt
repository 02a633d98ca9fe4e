//! A desk for runs of which nothing is kept and nothing is said.
ghost use Rattle.std.specs.Prelude.{◌≡◌, None};
ghost use Rattle.std.proofs.lemmas.Bool.{false≢true};
ghost use Rattle.tf_desk.specs.FileDesk.{without_content};

use std::alloc::Global;
use tf_desk::{Desk, DeskFault};
use tf_values::Text;

/// A desk that shows nothing and keeps nothing but how often it was asked for a stop, which it never asks for. No call
/// of it fails.
#[derive(Drop)]
pub struct Mute {
    turns: u64,
}

impl Mute {
    /// A desk that wasn't asked yet.
    pub fn make() -> Mute
        ensures { result.turns ≡ 0 }
    {
        Mute { turns: 0 }
    }
}

impl Desk for Mute {
    ghost state = { λ desk. without_content None 0 0 0 desk.turns };

    ghost tells_shown = { λ desk told. told };

    ghost picked_is_there = { λ desk name told. absurd (false≢true told) };

    ghost reads_left = { λ desk name bytes told. absurd (false≢true told) };

    ghost none_left = { λ desk name image told. absurd (false≢true told) };

    ghost earlier_allows = { λ desk early late image text told. absurd (false≢true told) };

    ghost counts_now = { λ desk start image text told. absurd (false≢true told) };

    ghost only_now = { λ desk image text told. absurd (false≢true told) };

    fn pick(&mut self, _alloc: Global, _name: &Text) -> Result<(), DeskFault> {
        Ok(())
    }

    fn size(&mut self) -> Result<u64, DeskFault> {
        Ok(0)
    }

    fn read(&mut self, _at: u64, _buf: &mut [u8]) -> Result<usize, DeskFault> {
        Ok(0)
    }

    fn write_at(&mut self, _at: u64, _bytes: &[u8]) -> Result<(), DeskFault> {
        Ok(())
    }

    fn sync(&mut self) -> Result<(), DeskFault> {
        Ok(())
    }

    fn say(&mut self, _bytes: &[u8]) -> Result<(), DeskFault> {
        Ok(())
    }

    fn stop_asked(&mut self) -> bool {
        self.turns = self.turns.saturating_add(1);
        false
    }
}
