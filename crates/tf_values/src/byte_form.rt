ghost use Rattle.std.specs.Prelude.{◌≡◌, ◌≤◌, ◌+◌, ◌++◌, ◌∷◌, [], ◌<◌, ◌^◌, length, true, OnOk, OnErr, vec_capacity};
ghost use Rattle.std.specs.List.{flat_map};
ghost use Rattle.std.specs.Int.{to_be_bytes, cast_unsigned, w64};
ghost use Rattle.tf_values.specs.Scalars.{scalar_bytes, list_bytes, text_bytes, are_scalars};
ghost use Rattle.tf_values.specs.Text.{is_text};
ghost use Rattle.tf_values.specs.Value.{byte_form, IsValue};
ghost use Rattle.tf_values.specs.Growth.{KeepsPrefix};

use crate::elements::{Scalar, forms_len};
use crate::faults::Memory;
use crate::value::Val;
use std::alloc::AllocError;

impl Val {
    /// The length of the byte form.
    pub fn encoded_len(&self) -> usize
        ensures is { result ≡ length (byte_form self.now) }
        ensures bound { result ≤ 131072 }
        ensures value { IsValue self.now }
    {
        match self {
            Val::Nothing | Val::Truth(_) => 1,
            Val::Int(number) => 1 + number.to_be_bytes().len(),
            Val::Text(text) => 5 + text.bytes().len(),
            Val::List(scalars) => 3 + forms_len(scalars.items()),
        }
    }

    /// Appends the byte form. Where there is room for it, it succeeds.
    #[tactic(auto, using(crate::proofs::RoomLemmas::byte_form_is_short))]
    pub fn encode(&self, out: &mut Vec<u8>) -> Result<(), Memory>
        ensures ok { OnOk result (out.new.items ≡ out.old.items ++ byte_form self.now) }
        ensures err { OnErr result (out.new.items ≡ out.old.items) }
        ensures full { OnErr result (vec_capacity out.old < length out.old.items + length (byte_form self.now)) }
        ensures capacity { vec_capacity out.old ≤ vec_capacity out.new }
        ensures bound { length (byte_form self.now) ≤ 131072 }
        ensures value { IsValue self.now }
    {
        let before = out.len();
        match append_value(self, out) {
            Ok(()) => Ok(()),
            Err(_) => {
                out.truncate(before);
                Err(Memory)
            }
        }
    }
}

#[tactic(auto, using(crate::proofs::GrowthLemmas::keeps_shorter))]
fn append_value(value: &Val, out: &mut Vec<u8>) -> Result<(), AllocError>
    ensures ok { OnOk result (out.new.items ≡ out.old.items ++ byte_form value.now) }
    ensures err { OnErr result (KeepsPrefix out.old.items out.new.items) }
    ensures full { OnErr result (vec_capacity out.old < length out.old.items + length (byte_form value.now)) }
    ensures capacity { vec_capacity out.old ≤ vec_capacity out.new }
    ensures value { IsValue value.now }
{
    match value {
        Val::Nothing => out.extend_from_slice(&[0]),
        Val::Truth(truth) => out.extend_from_slice(&[truth_tag(*truth)]),
        Val::Int(number) => append_int(*number, out),
        Val::Text(text) => append_text(text.bytes(), out),
        Val::List(scalars) => append_list(scalars.items(), out),
    }
}

#[tactic(auto, using(crate::proofs::GrowthLemmas::keeps_shorter))]
fn append_list(scalars: &[Scalar], out: &mut Vec<u8>) -> Result<(), AllocError>
    requires { are_scalars scalars.now ≡ true }
    ensures ok { OnOk result (out.new.items ≡ out.old.items ++ list_bytes scalars.now) }
    ensures err { OnErr result (KeepsPrefix out.old.items out.new.items) }
    ensures full { OnErr result (vec_capacity out.old < length out.old.items + length (list_bytes scalars.now)) }
    ensures capacity { vec_capacity out.old ≤ vec_capacity out.new }
{
    let count = scalars.len() as u16;
    out.extend_from_slice(&[5])?;
    out.extend_from_slice(&count.to_be_bytes())?;
    append_scalars(scalars, out)
}

#[tactic(auto, using(crate::proofs::GrowthLemmas::keeps_shorter))]
fn append_scalars(scalars: &[Scalar], out: &mut Vec<u8>) -> Result<(), AllocError>
    ensures ok { OnOk result (out.new.items ≡ out.old.items ++ flat_map scalar_bytes scalars.now) }
    ensures err { OnErr result (KeepsPrefix out.old.items out.new.items) }
    ensures full { OnErr result (vec_capacity out.old
        < length out.old.items + length (flat_map scalar_bytes scalars.now)) }
    ensures capacity { vec_capacity out.old ≤ vec_capacity out.new }
{
    for scalar in scalars {
        append_scalar(scalar, out)?;
    }
    Ok(())
}

#[tactic(auto, using(crate::proofs::GrowthLemmas::keeps_shorter))]
fn append_scalar(scalar: &Scalar, out: &mut Vec<u8>) -> Result<(), AllocError>
    ensures ok { OnOk result (out.new.items ≡ out.old.items ++ scalar_bytes scalar.now) }
    ensures err { OnErr result (KeepsPrefix out.old.items out.new.items) }
    ensures full { OnErr result (vec_capacity out.old < length out.old.items + length (scalar_bytes scalar.now)) }
    ensures capacity { vec_capacity out.old ≤ vec_capacity out.new }
{
    match scalar {
        Scalar::Nothing => out.extend_from_slice(&[0]),
        Scalar::Truth(truth) => out.extend_from_slice(&[truth_tag(*truth)]),
        Scalar::Int(number) => append_int(*number, out),
        Scalar::Text(text) => append_text(text.bytes(), out),
    }
}

#[tactic(auto, using(crate::proofs::GrowthLemmas::keeps_shorter))]
fn append_int(number: i64, out: &mut Vec<u8>) -> Result<(), AllocError>
    ensures ok { OnOk result (out.new.items
        ≡ out.old.items ++ 3 ∷ to_be_bytes w64 (cast_unsigned w64 number)) }
    ensures err { OnErr result (KeepsPrefix out.old.items out.new.items) }
    ensures full { OnErr result (vec_capacity out.old < length out.old.items + 9) }
    ensures capacity { vec_capacity out.old ≤ vec_capacity out.new }
{
    out.extend_from_slice(&[3])?;
    out.extend_from_slice(&number.to_be_bytes())
}

#[tactic(auto, using(crate::proofs::GrowthLemmas::keeps_shorter))]
fn append_text(text: &[u8], out: &mut Vec<u8>) -> Result<(), AllocError>
    requires { is_text text.now ≡ true }
    ensures ok { OnOk result (out.new.items ≡ out.old.items ++ 4 ∷ text_bytes text.now) }
    ensures err { OnErr result (KeepsPrefix out.old.items out.new.items) }
    ensures full { OnErr result (vec_capacity out.old < length out.old.items + (5 + length text.now)) }
    ensures capacity { vec_capacity out.old ≤ vec_capacity out.new }
{
    let len = text.len() as u32;
    out.extend_from_slice(&[4])?;
    out.extend_from_slice(&len.to_be_bytes())?;
    out.extend_from_slice(text)
}

/// The one byte of a truth value's form.
fn truth_tag(truth: bool) -> u8
    ensures { result ∷ [] ≡ scalar_bytes (Scalar.Truth truth) }
{
    if truth { 2 } else { 1 }
}
