ghost use Rattle.std.specs.Prelude.{◌≡◌, ◌≢◌, ◌<◌, ◌/◌, ◌%◌, ◌++◌, ◌∷◌, [], ℕ, List, IfOk, IsErrOf, MatchOption};
ghost use Rattle.std.specs.List.{flat_map};
ghost use Rattle.tf_values.specs.Value.{quoted_byte, hexadecimal};
ghost use Rattle.tf_values.specs.Quote.{is_control};

use crate::faults::MakeFault;
use std::alloc::Global;

/// The bytes whose forms stand up to the closing quote, and what stands behind it.
pub fn unquoted(alloc: Global, bytes: &[u8]) -> Result<(Vec<u8>, &[u8]), MakeFault>
    ensures ok { IfOk result
        (λ read. bytes.now ≡ flat_map quoted_byte read.0.items ++ 34 ∷ read.1.now) }
    ensures refused { IsErrOf result MakeFault.No → (text rest : List ℕ)
        → bytes.now ≢ flat_map quoted_byte text ++ 34 ∷ rest }
{
    let mut text = Vec::new(alloc);
    let mut rest = bytes;
    while let Some((byte, after)) = quoted_at(rest) {
        text.push(byte)?;
        rest = after;
    }
    let Some((quote, after)) = rest.split_first() else {
        return Err(MakeFault::No);
    };
    if *quote != b'"' {
        return Err(MakeFault::No);
    }
    Ok((text, after))
}

/// The byte whose form within quotes stands at the front, and what follows.
fn quoted_at(bytes: &[u8]) -> Option<(u8, &[u8])>
    ensures { MatchOption result ((b : ℕ) (rest : List ℕ) → bytes.now ≢ quoted_byte b ++ rest)
        (λ read. bytes.now ≡ quoted_byte read.0 ++ read.1.now) }
{
    let Some((first, rest)) = bytes.split_first() else {
        return None;
    };
    match *first {
        b'\\' => escaped_at(rest),
        b'"' | 0..=31 | 127 => None,
        plain => Some((plain, rest)),
    }
}

/// The byte whose form stands at the front, where a backslash is before it.
fn escaped_at(bytes: &[u8]) -> Option<(u8, &[u8])>
    ensures { MatchOption result ((b : ℕ) (rest : List ℕ)
        → 92 ∷ bytes.now ≢ quoted_byte b ++ rest)
        (λ read. 92 ∷ bytes.now ≡ quoted_byte read.0 ++ read.1.now) }
{
    let Some((letter, rest)) = bytes.split_first() else {
        return None;
    };
    match *letter {
        b'"' => Some((b'"', rest)),
        b'\\' => Some((b'\\', rest)),
        b'n' => Some((b'\n', rest)),
        b't' => Some((b'\t', rest)),
        b'u' => control_at(rest),
        _ => None,
    }
}

/// The byte whose form stands at the front, where a backslash and the letter u are before it.
fn control_at(bytes: &[u8]) -> Option<(u8, &[u8])>
    ensures { MatchOption result ((b : ℕ) (rest : List ℕ)
        → 92 ∷ 117 ∷ bytes.now ≢ quoted_byte b ++ rest)
        (λ read. 92 ∷ 117 ∷ bytes.now ≡ quoted_byte read.0 ++ read.1.now) }
{
    let [b'0', b'0', high, low, rest @ ..] = bytes else {
        return None;
    };
    let byte = byte_of(*high, *low)?;
    if !is_control(byte) {
        return None;
    }
    Some((byte, rest))
}

/// The byte with these two hexadecimal digits.
fn byte_of(high: u8, low: u8) -> Option<u8>
    ensures { MatchOption result ((b : ℕ) → b < 256 → hexadecimal (b / 16) ≡ high
        → hexadecimal (b % 16) ≢ low) (λ b. (hexadecimal (b / 16) ≡ high)
        × (hexadecimal (b % 16) ≡ low)) }
{
    let high = number_of(high)?;
    let low = number_of(low)?;
    Some(16 * high + low)
}

/// The number of a hexadecimal digit in lower case.
fn number_of(digit: u8) -> Option<u8>
    ensures { MatchOption result ((n : ℕ) → n < 16 → hexadecimal n ≢ digit) (λ n. (n < 16)
        × (hexadecimal n ≡ digit)) }
{
    match digit {
        b'0'..=b'9' => Some(digit - b'0'),
        b'a'..=b'f' => Some(digit - b'a' + 10),
        _ => None,
    }
}

/// Whether the byte has no other form than hexadecimal digits.
fn is_control(byte: u8) -> bool
    ensures { result ≡ is_control byte }
{
    (byte < 32 || byte == 127) && byte != b'\n' && byte != b'\t'
}
