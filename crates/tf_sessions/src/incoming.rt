ghost use Rattle.std.specs.Prelude.{◌≡◌, ◌+◌, [], None, OnOk, OnErr, IsErrOf, MatchResult};
ghost use Rattle.tf_ports.specs.Ports.{seen_link};
ghost use Rattle.tf_wire.specs.Stream.{KeepsStream, counted};
ghost use Rattle.tf_sessions.specs.Receiving.{TakesIn, HasNothingMore, Feeds};

use std::alloc::Global;
use tf_ports::{Came, Link};
use tf_wire::{Frames, WireFault};

/// How many bytes are taken from a link at once, at most.
const PIECE: usize = 8192;

/// Why nothing more is taken in.
#[derive(Clone, Copy, Debug, PartialEq, Eq)]
pub enum ServeEnd {
    /// The link ended between two frames.
    Ended,
    /// The link failed, or it ended inside a frame.
    Lost,
    /// At this place of the stream stands a length that no frame has, or, where whoever answers says so, a frame that
    /// is no request. A place past the greatest number of 64 bits counts as that number.
    Bad { at: u64 },
    /// Memory ran out.
    Memory,
}

/// What came over a link: the frames that wait, the place in the stream of the first of them, and the place
/// where the stream is refused, if it is.
#[derive(Drop)]
pub struct Incoming {
    pub frames: Frames,
    pub place: u64,
    pub refused: Option<u64>,
}

impl Incoming {
    /// Nothing yet.
    pub fn make(alloc: Global) -> Incoming
        ensures frames { KeepsStream result.frames [] [] }
        ensures place { result.place ≡ 0 }
        ensures refused { result.refused ≡ None }
    {
        Incoming {
            frames: Frames::make(alloc),
            place: 0,
            refused: None,
        }
    }

    /// Takes in what comes next over the link.
    pub fn receive<L: Link>(&mut self, alloc: Global, link: &mut L) -> Result<(), ServeEnd>
        ensures { MatchResult result
            (λ _. TakesIn self.old self.new (seen_link L.left L.transcript L.faults L.ends link.old)
            (seen_link L.left L.transcript L.faults L.ends link.new))
            (HasNothingMore self.old (seen_link L.left L.transcript L.faults L.ends link.old)
            (seen_link L.left L.transcript L.faults L.ends link.new)) }
    {
        if let Some(at) = self.refused {
            return Err(ServeEnd::Bad { at });
        }
        let mut piece = [0; PIECE];
        match link.recv(&mut piece) {
            Came::Bytes(count) => self.feed(alloc, &piece[..count]),
            Came::End => {
                if self.frames.is_between() {
                    return Err(ServeEnd::Ended);
                }
                Err(ServeEnd::Lost)
            }
            Came::Failed => Err(ServeEnd::Lost),
        }
    }

    /// Goes on behind a frame of so many bytes, which was answered.
    pub fn pass(&mut self, len: usize)
        ensures place { self.new.place ≡ counted (counted (self.old.place + 4) + len) }
        ensures frames { (self.new.frames ≡ self.old.frames) × (self.new.refused ≡ self.old.refused) }
    {
        let behind_length = self.place.saturating_add(4);
        self.place = behind_length.saturating_add(len as u64);
    }

    /// Takes in a piece of the stream.
    fn feed(&mut self, alloc: Global, piece: &[u8]) -> Result<(), ServeEnd>
        requires { self.old.refused ≡ None }
        ensures fed { OnOk result (Feeds self.old.frames self.new.frames piece.now self.new.refused) }
        ensures memory { OnErr result (IsErrOf result ServeEnd.Memory) }
        ensures place { self.new.place ≡ self.old.place }
    {
        match self.frames.feed(alloc, piece) {
            Ok(()) => Ok(()),
            Err(WireFault::Bad { at }) => {
                self.refused = Some(at);
                Ok(())
            }
            Err(WireFault::Memory) => Err(ServeEnd::Memory),
        }
    }
}
