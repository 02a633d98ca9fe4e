ghost use Rattle.std.specs.Prelude.{◌≡◌, ◌<◌, ◌≤◌, ◌+◌, ◌++◌, ◌∷◌, [], length, true, OnOk, OnErr, vec_capacity};
ghost use Rattle.std.specs.List.{flat_map};
ghost use Rattle.std.specs.Int.{to_be_bytes, cast_unsigned, w16, w32, w64};
ghost use Rattle.tf_values.specs.declared.elements.Scalar.{Scalar};
ghost use Rattle.tf_values.specs.Scalars.{scalar_bytes, list_bytes, text_bytes, are_scalars};
ghost use Rattle.tf_values.specs.Growth.{KeepsPrefix};
ghost use Rattle.tf_values.specs.Text.{is_name, is_text};
ghost use Rattle.tf_values.specs.Value.{byte_form, IsValue};
ghost use Rattle.tf_entries.specs.Plans.{name_bytes};

use tf_values::{Memory, Name, Scalar, Text, Val};

/// Appends bytes. Want of memory leaves a prefix of them behind what was there, and comes only where
/// there was no room for them all.
pub fn append(bytes: &[u8], out: &mut Vec<u8>) -> Result<(), Memory>
    ensures ok { OnOk result (out.new.items ≡ out.old.items ++ bytes.now) }
    ensures err { OnErr result (KeepsPrefix out.old.items out.new.items) }
    ensures full { OnErr result (vec_capacity out.old < length out.old.items + length bytes.now) }
    ensures room { vec_capacity out.old ≤ vec_capacity out.new }
{
    out.extend_from_slice(bytes)?;
    Ok(())
}

/// Appends a name.
#[tactic(auto, using(tf_values::proofs::GrowthLemmas::keeps_shorter))]
pub fn append_name(name: &Name, out: &mut Vec<u8>) -> Result<(), Memory>
    ensures ok { OnOk result (out.new.items ≡ out.old.items ++ name_bytes name.now) }
    ensures err { OnErr result (KeepsPrefix out.old.items out.new.items) }
    ensures full { OnErr result (vec_capacity out.old < length out.old.items + length (name_bytes name.now)) }
    ensures room { vec_capacity out.old ≤ vec_capacity out.new }
    ensures name { is_name name.now ≡ true }
{
    let bytes = name.bytes();
    append(&[bytes.len() as u8], out)?;
    append(bytes, out)
}

/// Appends a tag and a name.
#[tactic(auto, using(tf_values::proofs::GrowthLemmas::keeps_shorter))]
pub fn append_tagged_name(tag: u8, name: &Name, out: &mut Vec<u8>) -> Result<(), Memory>
    ensures ok { OnOk result (out.new.items ≡ out.old.items ++ tag ∷ name_bytes name.now) }
    ensures err { OnErr result (KeepsPrefix out.old.items out.new.items) }
    ensures full { OnErr result (vec_capacity out.old < length out.old.items + 66) }
    ensures room { vec_capacity out.old ≤ vec_capacity out.new }
    ensures name { is_name name.now ≡ true }
{
    let bytes = name.bytes();
    append(&[tag, bytes.len() as u8], out)?;
    append(bytes, out)
}

/// Appends the bytes of a text behind their number.
#[tactic(auto, using(tf_values::proofs::GrowthLemmas::keeps_shorter))]
pub fn append_text(text: &[u8], out: &mut Vec<u8>) -> Result<(), Memory>
    requires { is_text text.now ≡ true }
    ensures ok { OnOk result (out.new.items ≡ out.old.items ++ text_bytes text.now) }
    ensures err { OnErr result (KeepsPrefix out.old.items out.new.items) }
    ensures full { OnErr result (vec_capacity out.old < length out.old.items + length (text_bytes text.now)) }
    ensures room { vec_capacity out.old ≤ vec_capacity out.new }
{
    append(&(text.len() as u32).to_be_bytes(), out)?;
    append(text, out)
}

/// Appends a tag and the bytes of a text behind their number.
#[tactic(auto, using(tf_values::proofs::GrowthLemmas::keeps_shorter))]
pub fn append_tagged_text(tag: u8, text: &[u8], out: &mut Vec<u8>) -> Result<(), Memory>
    requires { is_text text.now ≡ true }
    ensures ok { OnOk result (out.new.items ≡ out.old.items ++ tag ∷ text_bytes text.now) }
    ensures err { OnErr result (KeepsPrefix out.old.items out.new.items) }
    ensures full { OnErr result (vec_capacity out.old < length out.old.items + (1 + length (text_bytes text.now))) }
    ensures room { vec_capacity out.old ≤ vec_capacity out.new }
{
    append(&[tag], out)?;
    append_text(text, out)
}

/// Appends a value.
#[tactic(auto, using(tf_values::proofs::GrowthLemmas::keeps_shorter))]
pub fn append_value(value: &Val, out: &mut Vec<u8>) -> Result<(), Memory>
    ensures ok { OnOk result (out.new.items ≡ out.old.items ++ byte_form value.now) }
    ensures err { OnErr result (KeepsPrefix out.old.items out.new.items) }
    ensures full { OnErr result (vec_capacity out.old < length out.old.items + length (byte_form value.now)) }
    ensures room { vec_capacity out.old ≤ vec_capacity out.new }
    ensures value { IsValue value.now }
{
    match value {
        Val::Nothing => append(&[0], out),
        Val::Truth(truth) => append(&[truth_tag(*truth)], out),
        Val::Int(number) => append_int(*number, out),
        Val::Text(text) => append_tagged_text(4, text.bytes(), out),
        Val::List(scalars) => append_list(scalars.items(), out),
    }
}

/// Appends a list.
#[tactic(auto, using(tf_values::proofs::GrowthLemmas::keeps_shorter))]
pub fn append_list(scalars: &[Scalar], out: &mut Vec<u8>) -> Result<(), Memory>
    requires { are_scalars scalars.now ≡ true }
    ensures ok { OnOk result (out.new.items ≡ out.old.items ++ list_bytes scalars.now) }
    ensures err { OnErr result (KeepsPrefix out.old.items out.new.items) }
    ensures full { OnErr result (vec_capacity out.old < length out.old.items + length (list_bytes scalars.now)) }
    ensures room { vec_capacity out.old ≤ vec_capacity out.new }
{
    append(&[5], out)?;
    append(&(scalars.len() as u16).to_be_bytes(), out)?;
    append_scalars(scalars, out)
}

#[tactic(auto, using(tf_values::proofs::GrowthLemmas::keeps_shorter))]
fn append_scalars(scalars: &[Scalar], out: &mut Vec<u8>) -> Result<(), Memory>
    ensures ok { OnOk result (out.new.items ≡ out.old.items ++ flat_map scalar_bytes scalars.now) }
    ensures err { OnErr result (KeepsPrefix out.old.items out.new.items) }
    ensures full { OnErr result (vec_capacity out.old
        < length out.old.items + length (flat_map scalar_bytes scalars.now)) }
    ensures room { vec_capacity out.old ≤ vec_capacity out.new }
{
    for scalar in scalars {
        append_scalar(scalar, out)?;
    }
    Ok(())
}

#[tactic(auto, using(tf_values::proofs::GrowthLemmas::keeps_shorter))]
fn append_scalar(scalar: &Scalar, out: &mut Vec<u8>) -> Result<(), Memory>
    ensures ok { OnOk result (out.new.items ≡ out.old.items ++ scalar_bytes scalar.now) }
    ensures err { OnErr result (KeepsPrefix out.old.items out.new.items) }
    ensures full { OnErr result (vec_capacity out.old < length out.old.items + length (scalar_bytes scalar.now)) }
    ensures room { vec_capacity out.old ≤ vec_capacity out.new }
{
    match scalar {
        Scalar::Nothing => append(&[0], out),
        Scalar::Truth(truth) => append(&[truth_tag(*truth)], out),
        Scalar::Int(number) => append_int(*number, out),
        Scalar::Text(text) => append_tagged_text(4, text.bytes(), out),
    }
}

/// Appends an integer behind its tag.
#[tactic(auto, using(tf_values::proofs::GrowthLemmas::keeps_shorter))]
fn append_int(number: i64, out: &mut Vec<u8>) -> Result<(), Memory>
    ensures ok { OnOk result (out.new.items ≡ out.old.items ++ 3 ∷ to_be_bytes w64 (cast_unsigned w64 number)) }
    ensures err { OnErr result (KeepsPrefix out.old.items out.new.items) }
    ensures full { OnErr result (vec_capacity out.old < length out.old.items + 9) }
    ensures room { vec_capacity out.old ≤ vec_capacity out.new }
{
    append(&[3], out)?;
    append(&number.to_be_bytes(), out)
}

/// The one byte of a truth value.
pub fn truth_tag(truth: bool) -> u8
    ensures { result ∷ [] ≡ scalar_bytes (Scalar.Truth truth) }
{
    if truth { 2 } else { 1 }
}
