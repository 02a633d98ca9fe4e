ghost use Rattle.std.specs.Prelude.{◌≡◌, ◌↔◌, IsTrue, ℕ, List, [], ◌∷◌, ◌++◌, ◌≤◌, drop, length, true, OnOk, IfErr, IfSome, MatchOption};
ghost use Rattle.tf_wire.specs.Stream.{BeginsWithFrame, BeginsWithBadLength, KeepsStream, IsCutOff, IsHere, IsUnrefused, IsPieceAnswer, KeepsFrames};

use crate::faults::WireFault;
use crate::fronts::{Front, front_of};
use crate::waiting::Waiting;
use std::alloc::Global;
use std::marker::Model;

/// The frames of a stream that comes piece by piece. Contracts see the frames that wait to be taken, the
/// bytes behind them, and the place where those begin.
#[derive(Drop)]
pub struct Frames {
    waiting: Waiting,
    rest: Vec<u8>,
    place: u64,
}

impl Model for Frames {
    ghost use Rattle.tf_wire.specs.Stream.{KeptFrames};

    ghost Value = { KeptFrames };

    ghost view = { λ frames. record { waiting = frames.waiting; rest = frames.rest.items; place = frames.place } };
}

impl Frames {
    /// Nothing of a stream yet.
    pub fn make(alloc: Global) -> Frames
        ensures { KeepsStream result [] [] }
    {
        Frames {
            waiting: Waiting::make(alloc),
            rest: Vec::new(alloc),
            place: 0,
        }
    }

    /// Takes in the next piece of the stream. `Bad` comes exactly where, after whole frames of the stream so
    /// far, a length that no frame has stands at that place; the frames before it can still be taken, and each
    /// later piece is answered so too. Where memory runs out, the piece was kept or it wasn't.
    pub fn feed(&mut self, alloc: Global, piece: &[u8]) -> Result<(), WireFault>
        ensures ok { OnOk result ((stream : List ℕ) (taken : List (List ℕ)) → KeepsStream self.old stream taken
            → IsUnrefused self.new (stream ++ piece.now) taken) }
        ensures refused { IfErr result (λ fault. (stream : List ℕ) (taken : List (List ℕ))
            → KeepsStream self.old stream taken → IsPieceAnswer self.new stream piece.now taken fault) }
        ensures here { IfErr result (IsHere self.new) }
        ensures again { BeginsWithBadLength self.old.rest → (result ≡ Err (WireFault.Bad self.old.place))
            × (self.new ≡ self.old) }
    {
        if let Front::BadLength = front_of(&self.rest) {
            return Err(WireFault::Bad { at: self.place });
        }
        self.rest.extend_from_slice(piece)?;
        self.cut(alloc)
    }

    /// Cuts the whole frames off what is kept.
    fn cut(&mut self, alloc: Global) -> Result<(), WireFault>
        ensures cut { IsCutOff self.old self.new }
        ensures ok { OnOk result ((¬ (BeginsWithFrame self.new.rest)) × (¬ (BeginsWithBadLength self.new.rest))) }
        ensures here { IfErr result (IsHere self.new) }
    {
        let (len, fits) = keep_frames(alloc, &self.rest, &mut self.waiting);
        self.place = self.place.saturating_add(len as u64);
        self.rest.rotate_left(len);
        self.rest.truncate(self.rest.len() - len);
        if !fits {
            return Err(WireFault::Memory);
        }
        match front_of(&self.rest) {
            Front::BadLength => Err(WireFault::Bad { at: self.place }),
            _ => Ok(()),
        }
    }

    /// Whether the stream so far ends between two frames: nothing stands behind its whole frames.
    pub fn is_between(&self) -> bool
        ensures { IsTrue result ↔ (self.now.rest ≡ []) }
    {
        self.rest.is_empty()
    }

    /// Takes the first whole frame that wasn't taken yet; none is there exactly where all were taken.
    pub fn take_frame(&mut self) -> Option<Vec<u8>>
        ensures is { MatchOption result ((self.old.waiting ≡ [])
            × (self.new ≡ self.old)) (λ frame. self.old
            ≡ record self.new { waiting = frame.items ∷ self.new.waiting }) }
        ensures taken { IfSome result (λ frame. (stream : List ℕ) (taken : List (List ℕ))
            → KeepsStream self.old stream taken → KeepsStream self.new stream (taken ++ frame.items ∷ [])) }
    {
        self.waiting.take()
    }
}

/// Keeps the whole frames at the front of the bytes. Answers how many bytes they have, and whether they are
/// all that stand there; else memory ran out.
fn keep_frames(alloc: Global, bytes: &[u8], waiting: &mut Waiting) -> (usize, bool)
    ensures within { result.0 ≤ length bytes.now }
    ensures kept { KeepsFrames bytes.now waiting.old waiting.new result.0 }
    ensures all { result.1 ≡ true → ¬ (BeginsWithFrame (drop result.0 bytes.now)) }
{
    let mut len = 0;
    while let Front::Frame(frame) = front_of(&bytes[len..]) {
        let Ok(()) = waiting.push(alloc, frame) else {
            return (len, false);
        };
        len += 4 + frame.len();
    }
    (len, true)
}
