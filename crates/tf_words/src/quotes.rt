ghost use Rattle.std.specs.Prelude.{◌≡◌, is_some};
ghost use Rattle.tf_words.specs.Verbs.{is_hexadecimal as hexadecimal, are_digits as digits, is_plain as plain, is_short as short, step as step_behind, text_from, text_in_quotes};

/// Where a reader of a text in quotes stands, behind the opening one.
#[derive(Clone, Copy, Debug)]
pub enum Inside {
    /// Between the forms of two bytes.
    Bytes,
    /// Behind a backslash.
    Escape,
    /// Behind a backslash and `u`.
    Unicode,
    /// Behind these and a zero.
    Zero,
    /// Behind these and two zeros.
    Zeros,
    /// Behind these and the first of two digits.
    Digit(u8),
    /// Behind the closing quote.
    Closed,
}

/// Whether the bytes are the form of a text in quotes.
pub fn is_quoted(bytes: &[u8]) -> bool
    ensures { result ≡ is_some (text_in_quotes bytes.now) }
{
    let Some((first, inner)) = bytes.split_first() else {
        return false;
    };
    if *first != b'"' {
        return false;
    }
    closes(inner)
}

/// Whether the bytes are the forms of a text's bytes and the closing quote.
fn closes(inner: &[u8]) -> bool
    ensures { result ≡ is_some (text_from Inside.Bytes inner.now) }
{
    let mut place = Inside::Bytes;
    for byte in inner {
        match step(place, *byte) {
            Some(after) => place = after,
            None => return false,
        }
    }
    matches!(place, Inside::Closed)
}

/// Where the reader stands behind the byte, if the byte may stand here.
fn step(place: Inside, byte: u8) -> Option<Inside>
    ensures { result ≡ step_behind place byte }
{
    match place {
        Inside::Bytes => step_between(byte),
        Inside::Escape => step_escaped(byte),
        Inside::Unicode => {
            if byte == b'0' {
                return Some(Inside::Zero);
            }
            None
        }
        Inside::Zero => {
            if byte == b'0' {
                return Some(Inside::Zeros);
            }
            None
        }
        Inside::Zeros => Some(Inside::Digit(byte)),
        Inside::Digit(high) => {
            if are_digits(high, byte) {
                return Some(Inside::Bytes);
            }
            None
        }
        Inside::Closed => None,
    }
}

fn step_between(byte: u8) -> Option<Inside>
    ensures { result ≡ step_behind Inside.Bytes byte }
{
    if byte == b'"' {
        return Some(Inside::Closed);
    }
    if byte == b'\\' {
        return Some(Inside::Escape);
    }
    if is_plain(byte) {
        return Some(Inside::Bytes);
    }
    None
}

fn step_escaped(byte: u8) -> Option<Inside>
    ensures { result ≡ step_behind Inside.Escape byte }
{
    if byte == b'u' {
        return Some(Inside::Unicode);
    }
    if is_short(byte) {
        return Some(Inside::Bytes);
    }
    None
}

/// Whether the byte stands for itself.
fn is_plain(byte: u8) -> bool
    ensures { result ≡ plain byte }
{
    byte >= 32 && byte != 127
}

/// Whether the byte may stand behind a backslash without digits.
fn is_short(byte: u8) -> bool
    ensures { result ≡ short byte }
{
    matches!(byte, b'"' | b'\\' | b'n' | b't')
}

/// Whether the two digits are those of a byte that has no shorter form.
fn are_digits(high: u8, low: u8) -> bool
    ensures { result ≡ digits high low }
{
    if high == b'0' {
        return is_hexadecimal(low) && !(low == b'9' || low == b'a');
    }
    if high == b'1' {
        return is_hexadecimal(low);
    }
    high == b'7' && low == b'f'
}

fn is_hexadecimal(byte: u8) -> bool
    ensures { result ≡ hexadecimal byte }
{
    matches!(byte, b'0'..=b'9' | b'a'..=b'f')
}
