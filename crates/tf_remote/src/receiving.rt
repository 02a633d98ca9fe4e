ghost use Rattle.std.specs.Prelude.{◌≡◌, ◌<◌, ◌^◌, length, MatchResult};
ghost use Rattle.std.specs.Int.{to_be_bytes, w32};
ghost use Rattle.tf_wire.specs.Stream.{is_length};
ghost use Rattle.tf_ports.specs.Ports.{seen_link};
ghost use Rattle.tf_remote.specs.Received.{StopsFrame, IsShorter, IsNever, IsPart, IsBadLength, BringsCount, BringsFrame};

use std::alloc::Global;
use tf_ports::{Came, Link};

/// The most bytes of a frame.
const LIMIT: u32 = 67_108_864;

/// How many bytes are taken from a link at once, at most.
const PIECE: usize = 8192;

/// Why nothing was received.
#[derive(Clone, Copy, Debug, PartialEq, Eq)]
pub enum Stop {
    /// What came is refused.
    Refused,
    /// The link failed, or it is at its end.
    Lost,
    /// Memory ran out.
    Memory,
}

/// The next frame over the link. No byte behind it is asked for.
pub fn receive<L: Link>(alloc: Global, link: &mut L) -> Result<Vec<u8>, Stop>
    ensures { MatchResult result
        (λ frame. BringsFrame frame.items (seen_link L.left L.transcript L.faults L.ends link.old)
        (seen_link L.left L.transcript L.faults L.ends link.new))
        (StopsFrame IsPart IsBadLength (seen_link L.left L.transcript L.faults L.ends link.old)
        (seen_link L.left L.transcript L.faults L.ends link.new)) }
{
    let prefix = match receive_bytes(alloc, link, 4) {
        Ok(prefix) => prefix,
        Err(stop) => return Err(stop),
    };
    let len = length_in(&prefix);
    if !is_frame_length(len) {
        return Err(Stop::Refused);
    }
    receive_bytes(alloc, link, len as usize)
}

/// So many bytes over the link, and no more. Memory is taken for those that came alone.
fn receive_bytes<L: Link>(alloc: Global, link: &mut L, count: usize) -> Result<Vec<u8>, Stop>
    ensures { MatchResult result
        (λ bytes. BringsCount count bytes.items (seen_link L.left L.transcript L.faults L.ends link.old)
        (seen_link L.left L.transcript L.faults L.ends link.new))
        (StopsFrame (IsShorter count) IsNever (seen_link L.left L.transcript L.faults L.ends link.old)
        (seen_link L.left L.transcript L.faults L.ends link.new)) }
{
    let mut bytes = Vec::new(alloc);
    let mut piece = [0; PIECE];
    while bytes.len() < count {
        let most = (count - bytes.len()).min(PIECE);
        let buf = &mut piece[..most];
        match link.recv(buf) {
            Came::Bytes(some) => {
                if bytes.extend_from_slice(&buf[..some]).is_err() {
                    return Err(Stop::Memory);
                }
            }
            Came::End | Came::Failed => return Err(Stop::Lost),
        }
    }
    Ok(bytes)
}

/// The length that four bytes are.
fn length_in(bytes: &[u8]) -> u32
    requires { length bytes.now ≡ 4 }
    ensures small { result < 2 ^ 32 }
    ensures is { bytes.now ≡ to_be_bytes w32 result }
{
    let Some((prefix, _)) = bytes.split_first_chunk::<4>() else {
        unreachable!();
    };
    u32::from_be_bytes(*prefix)
}

/// Whether a frame may have this length.
fn is_frame_length(len: u32) -> bool
    ensures { result ≡ is_length len }
{
    0 < len && len <= LIMIT
}
