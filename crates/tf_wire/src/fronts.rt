ghost use Rattle.std.specs.Prelude.{◌≡◌, ◌<◌, ◌^◌, ◌++◌, ℕ, List, length, true, MatchOption};
ghost use Rattle.std.specs.Int.{to_be_bytes, w32};
ghost use Rattle.tf_wire.specs.Stream.{is_length, FRAME_LIMIT};
ghost use Rattle.tf_wire.specs.Fronts.{IsFront};

/// The most bytes of a frame.
pub const LIMIT: u32 = 67_108_864;

/// What stands at the front of bytes.
#[derive(Clone, Copy)]
pub enum Front<'a> {
    /// A whole frame.
    Frame(&'a [u8]),
    /// A length that no frame has.
    BadLength,
    /// Less than a frame.
    Part,
}

/// What stands at the front of the bytes.
pub fn front_of(bytes: &[u8]) -> Front<'_>
    ensures { IsFront bytes.now result }
{
    let Some((len, behind)) = len_at(bytes) else {
        return Front::Part;
    };
    if !is_frame_length(len) {
        return Front::BadLength;
    }
    let len = len as usize;
    if behind.len() < len {
        return Front::Part;
    }
    Front::Frame(&behind[..len])
}

/// Whether a frame may have this length.
fn is_frame_length(len: u32) -> bool
    ensures { result ≡ is_length len }
{
    0 < len && len <= LIMIT
}

/// The length that stands at the front in four bytes, and what stands behind it.
fn len_at(bytes: &[u8]) -> Option<(u32, &[u8])>
    ensures { MatchOption result (length bytes.now < 4) (λ read. (read.0 < 2 ^ 32)
        × (bytes.now ≡ to_be_bytes w32 read.0 ++ read.1.now)) }
{
    let (front, rest) = bytes.split_first_chunk::<4>()?;
    Some((u32::from_be_bytes(*front), rest))
}
