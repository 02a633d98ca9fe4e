ghost use Rattle.std.specs.Prelude.{◌≡◌, ◌++◌, true};
ghost use Rattle.tf_audit.specs.Words.{is_blank as is_break, is_unbroken, breaks_here, IsFirstWord};

/// The bytes before the first space or line feed, and what stands behind that; nothing stands behind bytes that have
/// neither.
pub fn cut(bytes: &[u8]) -> (&[u8], &[u8])
    ensures { IsFirstWord bytes.now result.0.now result.1.now }
{
    let (word, rest) = prefix(bytes);
    match rest.split_first() {
        Some((_, behind)) => (word, behind),
        None => (word, rest),
    }
}

/// The bytes before the first space or line feed, and what follows them.
fn prefix(bytes: &[u8]) -> (&[u8], &[u8])
    ensures whole { bytes.now ≡ result.0.now ++ result.1.now }
    ensures word { is_unbroken result.0.now ≡ true }
    ensures end { breaks_here result.1.now ≡ true }
{
    for (len, byte) in bytes.iter().enumerate() {
        if is_blank(*byte) {
            return bytes.split_at(len);
        }
    }
    (bytes, &[])
}

fn is_blank(byte: u8) -> bool
    ensures { result ≡ is_break byte }
{
    byte == b' ' || byte == b'\n'
}
