ghost use Rattle.std.specs.Prelude.{◌≡◌, ◌∷◌, [], ◌<◌, true, Some, length, take, slice_get, MatchOption};
ghost use Rattle.tf_audit.specs.Verdicts.{log_lines, is_unfed, is_passed_over as is_no_entry};

/// The first line with its line feed, and what stands behind it; none where there is no line feed.
pub fn first_line(bytes: &[u8]) -> Option<(&[u8], &[u8])>
    ensures { MatchOption result (log_lines bytes.now ≡ [])
        (λ p. (log_lines bytes.now ≡ p.0.now ∷ log_lines p.1.now) × (length p.1.now < length bytes.now)) }
{
    match feed_at(bytes) {
        Some(at) => Some(bytes.split_at(at + 1)),
        None => None,
    }
}

/// The place of the first line feed.
fn feed_at(bytes: &[u8]) -> Option<usize>
    ensures { MatchOption result (is_unfed bytes.now ≡ true)
        (λ at. (slice_get bytes.now at ≡ Some 10) × (is_unfed (take at bytes.now) ≡ true)) }
{
    for (at, byte) in bytes.iter().enumerate() {
        if *byte == b'\n' {
            return Some(at);
        }
    }
    None
}

/// Whether the line is no entry's: reports and tables have such lines.
pub fn is_passed_over(line: &[u8]) -> bool
    ensures { result ≡ is_no_entry line.now }
{
    line.starts_with(b"end ".as_slice())
        || line.starts_with(b"unreverted ".as_slice())
        || line.starts_with(b"state ".as_slice())
        || line.starts_with(b"atom ".as_slice())
}
