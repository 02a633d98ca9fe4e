ghost use Rattle.std.specs.Prelude.{◌≡◌, ◌<◌, ◌≤◌, ◌+◌, [], ◌∷◌, ◌++◌, length, OnOk, OnErr, vec_capacity};
ghost use Rattle.std.specs.Fmt.{signed_decimal};
ghost use Rattle.std.specs.List.{flat_map};
ghost use Rattle.tf_values.specs.Value.{hexadecimal, quoted_byte, quoted, truth_text, scalar_text, further_text, scalars_text, text_form, IsValue};
ghost use Rattle.tf_values.specs.Growth.{KeepsPrefix};

use crate::elements::Scalar;
use crate::faults::Memory;
use crate::utf8::Text;
use crate::value::Val;
use itoa::Buffer;
use std::alloc::AllocError;

impl Val {
    /// Appends the text form. Where there is room for it, it succeeds.
    #[tactic(auto, using(crate::proofs::RoomLemmas::text_form_is_within))]
    pub fn print(&self, out: &mut Vec<u8>) -> Result<(), Memory>
        ensures ok { OnOk result (out.new.items ≡ out.old.items ++ text_form self.now) }
        ensures err { OnErr result (out.new.items ≡ out.old.items) }
        ensures full { OnErr result (vec_capacity out.old < length out.old.items + length (text_form self.now)) }
        ensures capacity { vec_capacity out.old ≤ vec_capacity out.new }
        ensures bound { length (text_form self.now) ≤ 786432 }
    {
        let before = out.len();
        match append_value(self, out) {
            Ok(()) => Ok(()),
            Err(_) => {
                out.truncate(before);
                Err(Memory)
            }
        }
    }
}

impl Text {
    /// Appends the text form: the text in double quotes. Where there is room for it, it succeeds.
    #[tactic(auto, using(crate::proofs::RoomLemmas::quoted_is_within))]
    pub fn print(&self, out: &mut Vec<u8>) -> Result<(), Memory>
        ensures ok { OnOk result (out.new.items ≡ out.old.items ++ quoted self.now) }
        ensures err { OnErr result (out.new.items ≡ out.old.items) }
        ensures full { OnErr result (vec_capacity out.old < length out.old.items + length (quoted self.now)) }
        ensures capacity { vec_capacity out.old ≤ vec_capacity out.new }
        ensures bound { length (quoted self.now) ≤ 393218 }
    {
        quote(self.bytes(), out)
    }
}

/// Appends bytes in double quotes, as the text form of a text has them; there may be more of them than
/// a text holds. Where there is room for them it succeeds, and without memory nothing is appended.
pub fn quote(bytes: &[u8], out: &mut Vec<u8>) -> Result<(), Memory>
    ensures ok { OnOk result (out.new.items ≡ out.old.items ++ quoted bytes.now) }
    ensures err { OnErr result (out.new.items ≡ out.old.items) }
    ensures full { OnErr result (vec_capacity out.old < length out.old.items + length (quoted bytes.now)) }
    ensures capacity { vec_capacity out.old ≤ vec_capacity out.new }
{
    let before = out.len();
    match append_quoted(bytes, out) {
        Ok(()) => Ok(()),
        Err(_) => {
            out.truncate(before);
            Err(Memory)
        }
    }
}

#[tactic(auto, using(crate::proofs::GrowthLemmas::keeps_shorter))]
fn append_value(value: &Val, out: &mut Vec<u8>) -> Result<(), AllocError>
    ensures ok { OnOk result (out.new.items ≡ out.old.items ++ text_form value.now) }
    ensures err { OnErr result (KeepsPrefix out.old.items out.new.items) }
    ensures full { OnErr result (vec_capacity out.old < length out.old.items + length (text_form value.now)) }
    ensures capacity { vec_capacity out.old ≤ vec_capacity out.new }
    ensures value { IsValue value.now }
{
    match value {
        Val::Nothing => out.extend_from_slice(b"null"),
        Val::Truth(truth) => append_truth(*truth, out),
        Val::Int(number) => append_int(*number, out),
        Val::Text(text) => append_quoted(text.bytes(), out),
        Val::List(scalars) => append_list(scalars.items(), out),
    }
}

#[tactic(auto, using(crate::proofs::GrowthLemmas::keeps_shorter))]
fn append_list(scalars: &[Scalar], out: &mut Vec<u8>) -> Result<(), AllocError>
    ensures ok { OnOk result (out.new.items ≡ out.old.items ++ 91 ∷ scalars_text scalars.now ++ 93 ∷ []) }
    ensures err { OnErr result (KeepsPrefix out.old.items out.new.items) }
    ensures full { OnErr result (vec_capacity out.old
        < length out.old.items + (2 + length (scalars_text scalars.now))) }
    ensures capacity { vec_capacity out.old ≤ vec_capacity out.new }
{
    out.extend_from_slice(b"[")?;
    append_scalars(scalars, out)?;
    out.extend_from_slice(b"]")
}

#[tactic(auto, using(crate::proofs::GrowthLemmas::keeps_shorter))]
fn append_scalars(scalars: &[Scalar], out: &mut Vec<u8>) -> Result<(), AllocError>
    ensures ok { OnOk result (out.new.items ≡ out.old.items ++ scalars_text scalars.now) }
    ensures err { OnErr result (KeepsPrefix out.old.items out.new.items) }
    ensures full { OnErr result (vec_capacity out.old < length out.old.items + length (scalars_text scalars.now)) }
    ensures capacity { vec_capacity out.old ≤ vec_capacity out.new }
{
    let Some((first, others)) = scalars.split_first() else {
        return Ok(());
    };
    append_scalar(first, out)?;
    for scalar in others {
        append_further(scalar, out)?;
    }
    Ok(())
}

#[tactic(auto, using(crate::proofs::GrowthLemmas::keeps_shorter))]
fn append_further(scalar: &Scalar, out: &mut Vec<u8>) -> Result<(), AllocError>
    ensures ok { OnOk result (out.new.items ≡ out.old.items ++ further_text scalar.now) }
    ensures err { OnErr result (KeepsPrefix out.old.items out.new.items) }
    ensures full { OnErr result (vec_capacity out.old < length out.old.items + length (further_text scalar.now)) }
    ensures capacity { vec_capacity out.old ≤ vec_capacity out.new }
{
    out.extend_from_slice(b",")?;
    append_scalar(scalar, out)
}

#[tactic(auto, using(crate::proofs::GrowthLemmas::keeps_shorter))]
fn append_scalar(scalar: &Scalar, out: &mut Vec<u8>) -> Result<(), AllocError>
    ensures ok { OnOk result (out.new.items ≡ out.old.items ++ scalar_text scalar.now) }
    ensures err { OnErr result (KeepsPrefix out.old.items out.new.items) }
    ensures full { OnErr result (vec_capacity out.old < length out.old.items + length (scalar_text scalar.now)) }
    ensures capacity { vec_capacity out.old ≤ vec_capacity out.new }
{
    match scalar {
        Scalar::Nothing => out.extend_from_slice(b"null"),
        Scalar::Truth(truth) => append_truth(*truth, out),
        Scalar::Int(number) => append_int(*number, out),
        Scalar::Text(text) => append_quoted(text.bytes(), out),
    }
}

#[tactic(auto, using(crate::proofs::GrowthLemmas::keeps_shorter))]
fn append_truth(truth: bool, out: &mut Vec<u8>) -> Result<(), AllocError>
    ensures ok { OnOk result (out.new.items ≡ out.old.items ++ truth_text truth) }
    ensures err { OnErr result (KeepsPrefix out.old.items out.new.items) }
    ensures full { OnErr result (vec_capacity out.old < length out.old.items + length (truth_text truth)) }
    ensures capacity { vec_capacity out.old ≤ vec_capacity out.new }
{
    if truth {
        out.extend_from_slice(b"true")
    } else {
        out.extend_from_slice(b"false")
    }
}

#[tactic(auto, using(crate::proofs::GrowthLemmas::keeps_shorter))]
fn append_int(number: i64, out: &mut Vec<u8>) -> Result<(), AllocError>
    ensures ok { OnOk result (out.new.items ≡ out.old.items ++ signed_decimal number) }
    ensures err { OnErr result (KeepsPrefix out.old.items out.new.items) }
    ensures full { OnErr result (vec_capacity out.old < length out.old.items + length (signed_decimal number)) }
    ensures capacity { vec_capacity out.old ≤ vec_capacity out.new }
{
    let mut buffer = Buffer::new();
    out.extend_from_slice(buffer.format(number).as_bytes())
}

#[tactic(auto, using(crate::proofs::GrowthLemmas::keeps_shorter))]
fn append_quoted(text: &[u8], out: &mut Vec<u8>) -> Result<(), AllocError>
    ensures ok { OnOk result (out.new.items ≡ out.old.items ++ quoted text.now) }
    ensures err { OnErr result (KeepsPrefix out.old.items out.new.items) }
    ensures full { OnErr result (vec_capacity out.old < length out.old.items + length (quoted text.now)) }
    ensures capacity { vec_capacity out.old ≤ vec_capacity out.new }
{
    out.extend_from_slice(b"\"")?;
    append_quoted_bytes(text, out)?;
    out.extend_from_slice(b"\"")
}

#[tactic(auto, using(crate::proofs::GrowthLemmas::keeps_shorter))]
fn append_quoted_bytes(text: &[u8], out: &mut Vec<u8>) -> Result<(), AllocError>
    ensures ok { OnOk result (out.new.items ≡ out.old.items ++ flat_map quoted_byte text.now) }
    ensures err { OnErr result (KeepsPrefix out.old.items out.new.items) }
    ensures full { OnErr result (vec_capacity out.old < length out.old.items + length (flat_map quoted_byte text.now)) }
    ensures capacity { vec_capacity out.old ≤ vec_capacity out.new }
{
    for byte in text {
        append_quoted_byte(*byte, out)?;
    }
    Ok(())
}

#[tactic(auto, using(crate::proofs::GrowthLemmas::keeps_shorter))]
fn append_quoted_byte(byte: u8, out: &mut Vec<u8>) -> Result<(), AllocError>
    ensures ok { OnOk result (out.new.items ≡ out.old.items ++ quoted_byte byte) }
    ensures err { OnErr result (KeepsPrefix out.old.items out.new.items) }
    ensures full { OnErr result (vec_capacity out.old < length out.old.items + length (quoted_byte byte)) }
    ensures capacity { vec_capacity out.old ≤ vec_capacity out.new }
{
    match byte {
        b'"' => out.extend_from_slice(b"\\\""),
        b'\\' => out.extend_from_slice(b"\\\\"),
        b'\n' => out.extend_from_slice(b"\\n"),
        b'\t' => out.extend_from_slice(b"\\t"),
        0..=31 | 127 => {
            let digits = [b'\\', b'u', b'0', b'0', digit(byte / 16), digit(byte % 16)];
            out.extend_from_slice(&digits)
        }
        plain => out.extend_from_slice(&[plain]),
    }
}

/// The hexadecimal digit of a number below 16.
fn digit(number: u8) -> u8
    requires { number < 16 }
    ensures { result ≡ hexadecimal number }
{
    if number < 10 {
        b'0' + number
    } else {
        b'a' + (number - 10)
    }
}
