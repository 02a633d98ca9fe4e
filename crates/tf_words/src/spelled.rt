ghost use Rattle.std.specs.Prelude.{◌≡◌, [], IfOk, Some, None, is_some, true};
ghost use Rattle.std.specs.List.{list_all};
ghost use Rattle.tf_values.specs.declared.value.Val.TheVariants as value;
ghost use Rattle.tf_values.specs.Text.{is_text};
ghost use Rattle.tf_words.specs.Verbs.{is_digit as digit, is_count as count, is_integer as integer, scalar_spelled, quoting_after as quoting_behind, mark_of as mark_at, scalars_from, scalars_spelled, spelled, value_meant as meant};

use crate::quotes::is_quoted;
use std::alloc::Global;
use tf_values::{MakeFault, Memory, Text, Val};

/// Where a reader of a list stands.
#[derive(Clone, Copy, Debug)]
pub enum Quoting {
    /// Outside quotes.
    Outside,
    /// Within quotes.
    Inside,
    /// Within quotes, behind a backslash.
    Escaped,
}

/// What a byte of a list is.
#[derive(Clone, Copy, Debug)]
pub enum Mark {
    /// A comma that ends an item.
    Comma,
    /// The bracket that ends the last item.
    Bracket,
    /// A byte of an item.
    Own,
}

/// What a VALUE stands for, or none where the words that have it are no command.
pub fn value_meant(alloc: Global, bytes: &[u8]) -> Result<Option<Val>, Memory>
    requires { is_text bytes.now ≡ true }
    ensures { IfOk result (λ value. value ≡ meant bytes.now) }
{
    if bytes.is_empty() {
        return Ok(None);
    }
    match Val::parse(alloc, bytes) {
        Ok(value) => Ok(Some(value)),
        Err(MakeFault::Memory) => Err(Memory),
        Err(MakeFault::No) => {
            if is_spelled(bytes) {
                return Ok(None);
            }
            text_alone(alloc, bytes)
        }
    }
}

/// The value that is the text.
fn text_alone(alloc: Global, bytes: &[u8]) -> Result<Option<Val>, Memory>
    requires { is_text bytes.now ≡ true }
    ensures { IfOk result (λ found. found ≡ Some (value.Text bytes.now)) }
{
    match Text::make(alloc, bytes) {
        Ok(text) => Ok(Some(Val::Text(text))),
        Err(_) => Err(Memory),
    }
}

/// Whether the bytes spell a value, where an integer may be of any width and a list of any length.
fn is_spelled(bytes: &[u8]) -> bool
    ensures { result ≡ is_some (spelled bytes.now) }
{
    let Some((first, others)) = bytes.split_first() else {
        return false;
    };
    if *first == b'[' {
        return is_list(others);
    }
    is_scalar(bytes)
}

/// Whether the bytes spell the scalars of a list, behind its opening bracket.
fn is_list(bytes: &[u8]) -> bool
    ensures { result ≡ is_some (scalars_spelled bytes.now) }
{
    if bytes == b"]".as_slice() {
        return true;
    }
    are_scalars(bytes)
}

/// Whether the bytes spell one scalar or more with commas between and a closing bracket behind them.
fn are_scalars(bytes: &[u8]) -> bool
    ensures { result ≡ is_some (scalars_from [] Quoting.Outside bytes.now) }
{
    let mut begin = 0;
    let mut place = Quoting::Outside;
    for (end, byte) in bytes.iter().enumerate() {
        match mark_of(place, *byte) {
            Mark::Own => place = quoting_after(place, *byte),
            Mark::Comma => {
                if !is_scalar(&bytes[begin..end]) {
                    return false;
                }
                begin = end + 1;
            }
            Mark::Bracket => return is_scalar(&bytes[begin..end]) && end + 1 == bytes.len(),
        }
    }
    false
}

fn mark_of(place: Quoting, byte: u8) -> Mark
    ensures { result ≡ mark_at place byte }
{
    match place {
        Quoting::Outside => mark_outside(byte),
        Quoting::Inside | Quoting::Escaped => Mark::Own,
    }
}

fn mark_outside(byte: u8) -> Mark
    ensures { result ≡ mark_at Quoting.Outside byte }
{
    if byte == b',' {
        return Mark::Comma;
    }
    if byte == b']' {
        return Mark::Bracket;
    }
    Mark::Own
}

/// Where the reader of a list stands behind the byte.
fn quoting_after(place: Quoting, byte: u8) -> Quoting
    ensures { result ≡ quoting_behind place byte }
{
    match place {
        Quoting::Outside => {
            if byte == b'"' {
                return Quoting::Inside;
            }
            Quoting::Outside
        }
        Quoting::Inside => {
            if byte == b'"' {
                return Quoting::Outside;
            }
            if byte == b'\\' {
                return Quoting::Escaped;
            }
            Quoting::Inside
        }
        Quoting::Escaped => Quoting::Inside,
    }
}

/// Whether the bytes spell a scalar.
fn is_scalar(bytes: &[u8]) -> bool
    ensures { result ≡ is_some (scalar_spelled bytes.now) }
{
    if bytes == b"null".as_slice() {
        return true;
    }
    if bytes == b"true".as_slice() {
        return true;
    }
    if bytes == b"false".as_slice() {
        return true;
    }
    if is_integer(bytes) {
        return true;
    }
    is_quoted(bytes)
}

/// Whether the bytes spell an integer of any width.
fn is_integer(bytes: &[u8]) -> bool
    ensures { result ≡ integer bytes.now }
{
    let Some((first, rest)) = bytes.split_first() else {
        return false;
    };
    if *first == b'-' {
        return is_count(rest);
    }
    bytes == b"0".as_slice() || is_count(bytes)
}

/// Whether the bytes are digits without a leading zero, at least one.
pub fn is_count(bytes: &[u8]) -> bool
    ensures { result ≡ count bytes.now }
{
    let Some((first, digits)) = bytes.split_first() else {
        return false;
    };
    matches!(*first, b'1'..=b'9') && are_digits(digits)
}

/// Whether the bytes are decimal digits.
pub fn are_digits(bytes: &[u8]) -> bool
    ensures { result ≡ list_all digit bytes.now }
{
    bytes.iter().all(|byte| is_digit(*byte))
}

fn is_digit(byte: u8) -> bool
    ensures { result ≡ digit byte }
{
    matches!(byte, b'0'..=b'9')
}
