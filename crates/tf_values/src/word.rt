ghost use Rattle.std.specs.Prelude.{◌≡◌, ◌≢◌, ◌++◌, ◌↔◌, IsTrue, true, ℤ, MatchOption, FitsSigned};
ghost use Rattle.std.specs.Int.{w64};
ghost use Rattle.std.specs.Fmt.{signed_decimal};
ghost use Rattle.tf_values.specs.Value.{scalar_text};
ghost use Rattle.tf_values.specs.Scalars.{IsElement};
ghost use Rattle.tf_values.specs.Word.{is_mark, ends_here, is_word, IsNoScalar};

use crate::elements::Scalar;
use itoa::Buffer;

/// The bytes before the first comma or closing bracket, and what follows them.
pub fn word_at(bytes: &[u8]) -> (&[u8], &[u8])
    ensures whole { bytes.now ≡ result.0.now ++ result.1.now }
    ensures word { is_word result.0.now ≡ true }
    ensures end { ends_here result.1.now ≡ true }
{
    for (len, byte) in bytes.iter().enumerate() {
        if is_mark(*byte) {
            return bytes.split_at(len);
        }
    }
    (bytes, &[])
}

/// Whether nothing follows, a comma or a closing bracket.
pub fn ends_here(bytes: &[u8]) -> bool
    ensures { result ≡ ends_here bytes.now }
{
    match bytes.split_first() {
        None => true,
        Some((next, _)) => is_mark(*next),
    }
}

fn is_mark(byte: u8) -> bool
    ensures { result ≡ is_mark byte }
{
    byte == b',' || byte == b']'
}

/// The scalar, no text, whose text form the word is.
pub fn scalar_of(word: &[u8]) -> Option<Scalar>
    ensures { MatchOption result (IsNoScalar word.now) (λ scalar. IsElement scalar
        × (word.now ≡ scalar_text scalar)) }
{
    if word == b"null".as_slice() {
        return Some(Scalar::Nothing);
    }
    if word == b"true".as_slice() {
        return Some(Scalar::Truth(true));
    }
    if word == b"false".as_slice() {
        return Some(Scalar::Truth(false));
    }
    match int_of(word) {
        Some(number) => Some(Scalar::Int(number)),
        None => None,
    }
}

/// The integer whose text form the word is.
fn int_of(word: &[u8]) -> Option<i64>
    ensures { MatchOption result ((z : ℤ) → FitsSigned w64 z → word.now ≢ signed_decimal z)
        (λ number. FitsSigned w64 number × (word.now ≡ signed_decimal number)) }
{
    let Ok(text) = str::from_utf8(word) else {
        return None;
    };
    let Ok(number) = text.parse::<i64>() else {
        return None;
    };
    let mut buffer = Buffer::new();
    if buffer.format(number).as_bytes() == word {
        Some(number)
    } else {
        None
    }
}
