ghost use Rattle.std.specs.Prelude.{◌≡◌, ◌≢◌, ◌<◌, ◌≤◌, ◌^◌, ◌++◌, ◌∷◌, ℕ, List, length, take, drop, true, IfOk, IsErrOf, MatchOption, MatchResult, FitsSigned};
ghost use Rattle.std.specs.List.{flat_map, AllByRecursion};
ghost use Rattle.std.specs.Int.{to_be_bytes, cast_unsigned, w16, w32, w64};
ghost use Rattle.tf_values.specs.declared.elements.Scalar.{Scalar};
ghost use Rattle.tf_values.specs.declared.value.Val.{Val};
ghost use Rattle.tf_values.specs.declared.faults.MakeFault.TheVariants.{Memory as OutOfMemory};
ghost use Rattle.tf_values.specs.Scalars.{scalar_bytes, list_bytes, text_bytes, are_scalars, IsElement};
ghost use Rattle.tf_values.specs.Text.{is_text};
ghost use Rattle.tf_values.specs.Value.{byte_form, IsValue, BeginsWith};

use crate::elements::{Scalar, Scalars};
use crate::faults::MakeFault;
use crate::utf8::Text;
use crate::value::Val;
use std::alloc::Global;

impl Val {
    /// The value whose byte form stands at the front of the bytes, and the length of that form.
    /// `No` comes exactly where no form stands there.
    pub fn decode(alloc: Global, bytes: &[u8]) -> Result<(Val, usize), MakeFault>
        ensures ok { IfOk result (λ read. BeginsWith bytes.now read.0 read.1) }
        ensures within { IfOk result (λ read. read.1 ≤ length bytes.now) }
        ensures found { (v : Val) (len : ℕ) → BeginsWith bytes.now v len
            → MatchResult result (λ read. (read.0 ≡ v) × (read.1 ≡ len))
            (λ fault. fault ≡ MakeFault.Memory) }
        ensures refused { IsErrOf result MakeFault.No
            → (v : Val) (len : ℕ) → ¬ (BeginsWith bytes.now v len) }
    {
        front_value(alloc, bytes)
    }
}

/// The value at the front, and the length of its form.
fn front_value(alloc: Global, bytes: &[u8]) -> Result<(Val, usize), MakeFault>
    ensures ok { IfOk result (λ read. BeginsWith bytes.now read.0 read.1) }
    ensures within { IfOk result (λ read. read.1 ≤ length bytes.now) }
    ensures refused { IsErrOf result MakeFault.No
        → (v : Val) (len : ℕ) → ¬ (BeginsWith bytes.now v len) }
{
    let (value, rest) = value_at(alloc, bytes)?;
    Ok((value, bytes.len() - rest.len()))
}

/// The value at the front, and what stands behind its form.
fn value_at(alloc: Global, bytes: &[u8]) -> Result<(Val, &[u8]), MakeFault>
    ensures ok { IfOk result (λ read. IsValue read.0
        × (bytes.now ≡ byte_form read.0 ++ read.1.now)) }
    ensures refused { IsErrOf result MakeFault.No → (v : Val) (rest : List ℕ) → IsValue v
        → bytes.now ≢ byte_form v ++ rest }
{
    let Some((tag, rest)) = bytes.split_first() else {
        return Err(MakeFault::No);
    };
    if *tag == 5 {
        let (scalars, rest) = list_at(alloc, rest)?;
        Ok((Val::List(scalars), rest))
    } else {
        let (scalar, rest) = scalar_at(alloc, bytes)?;
        Ok((Val::from(scalar), rest))
    }
}

/// The list whose form, without its tag, stands at the front.
fn list_at(alloc: Global, bytes: &[u8]) -> Result<(Scalars, &[u8]), MakeFault>
    ensures ok { IfOk result
        (λ read. (are_scalars read.0 ≡ true) × AllByRecursion IsElement read.0
        × (5 ∷ bytes.now ≡ list_bytes read.0 ++ read.1.now)) }
    ensures refused { IsErrOf result MakeFault.No → (scalars : List Scalar) (rest : List ℕ)
        → are_scalars scalars ≡ true → AllByRecursion IsElement scalars
        → 5 ∷ bytes.now ≢ list_bytes scalars ++ rest }
{
    let Some((count, rest)) = count_at(bytes) else {
        return Err(MakeFault::No);
    };
    let (items, rest) = scalars_at(alloc, count, rest)?;
    match Scalars::make(items) {
        Ok(scalars) => Ok((scalars, rest)),
        Err(_) => Err(MakeFault::No),
    }
}

/// So many scalars at the front.
fn scalars_at(alloc: Global, count: u16, bytes: &[u8]) -> Result<(Vec<Scalar>, &[u8]), MakeFault>
    ensures ok { IfOk result (λ read. AllByRecursion IsElement read.0.items
        × (length read.0.items ≡ count)
        × (bytes.now ≡ flat_map scalar_bytes read.0.items ++ read.1.now)) }
    ensures refused { IsErrOf result MakeFault.No → (scalars : List Scalar) (rest : List ℕ)
        → AllByRecursion IsElement scalars → length scalars ≡ count
        → bytes.now ≢ flat_map scalar_bytes scalars ++ rest }
{
    let mut items = Vec::new(alloc);
    let mut rest = bytes;
    for _ in 0..count {
        let (scalar, after) = scalar_at(alloc, rest)?;
        items.push(scalar)?;
        rest = after;
    }
    Ok((items, rest))
}

/// The scalar at the front.
fn scalar_at(alloc: Global, bytes: &[u8]) -> Result<(Scalar, &[u8]), MakeFault>
    ensures ok { IfOk result (λ read. IsElement read.0
        × (bytes.now ≡ scalar_bytes read.0 ++ read.1.now)) }
    ensures refused { IsErrOf result MakeFault.No → (s : Scalar) (rest : List ℕ) → IsElement s
        → bytes.now ≢ scalar_bytes s ++ rest }
{
    match bytes {
        [0, rest @ ..] => Ok((Scalar::Nothing, rest)),
        [1, rest @ ..] => Ok((Scalar::Truth(false), rest)),
        [2, rest @ ..] => Ok((Scalar::Truth(true), rest)),
        [3, rest @ ..] => match int_at(rest) {
            Some((number, rest)) => Ok((Scalar::Int(number), rest)),
            None => Err(MakeFault::No),
        },
        [4, rest @ ..] => {
            let (text, rest) = text_at(alloc, rest)?;
            Ok((Scalar::Text(text), rest))
        }
        _ => Err(MakeFault::No),
    }
}

/// The text at the front, behind its length.
fn text_at(alloc: Global, bytes: &[u8]) -> Result<(Text, &[u8]), MakeFault>
    ensures ok { IfOk result (λ read. (is_text read.0 ≡ true)
        × (bytes.now ≡ text_bytes read.0 ++ read.1.now)) }
    ensures refused { IsErrOf result MakeFault.No → (text rest : List ℕ) → is_text text ≡ true
        → bytes.now ≢ text_bytes text ++ rest }
{
    let Some((len, rest)) = len_at(bytes) else {
        return Err(MakeFault::No);
    };
    let len = len as usize;
    if rest.len() < len {
        return Err(MakeFault::No);
    }
    let (text, rest) = rest.split_at(len);
    Ok((Text::make(alloc, text)?, rest))
}

/// The integer at the front.
fn int_at(bytes: &[u8]) -> Option<(i64, &[u8])>
    ensures { MatchOption result (length bytes.now < 8) (λ read. FitsSigned w64 read.0
        × (bytes.now ≡ to_be_bytes w64 (cast_unsigned w64 read.0) ++ read.1.now)) }
{
    let (prefix, rest) = bytes.split_first_chunk::<8>()?;
    Some((i64::from_be_bytes(*prefix), rest))
}

/// The length at the front.
fn len_at(bytes: &[u8]) -> Option<(u32, &[u8])>
    ensures { MatchOption result (length bytes.now < 4) (λ read. (read.0 < 2 ^ 32)
        × (bytes.now ≡ to_be_bytes w32 read.0 ++ read.1.now)) }
{
    let (prefix, rest) = bytes.split_first_chunk::<4>()?;
    Some((u32::from_be_bytes(*prefix), rest))
}

/// The number at the front of how many scalars follow.
fn count_at(bytes: &[u8]) -> Option<(u16, &[u8])>
    ensures { MatchOption result (length bytes.now < 2) (λ read. (read.0 < 2 ^ 16)
        × (bytes.now ≡ to_be_bytes w16 read.0 ++ read.1.now)) }
{
    let (prefix, rest) = bytes.split_first_chunk::<2>()?;
    Some((u16::from_be_bytes(*prefix), rest))
}
