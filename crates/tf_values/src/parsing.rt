ghost use Rattle.std.specs.Prelude.{◌≡◌, ◌≢◌, ◌↔◌, IsTrue, ◌++◌, ◌∷◌, [], ℕ, List, true, IfOk, IsErrOf, MatchOption, MatchResult};
ghost use Rattle.std.specs.List.{AllByRecursion};
ghost use Rattle.tf_values.specs.declared.elements.Scalar.{Scalar};
ghost use Rattle.tf_values.specs.declared.value.Val.{Val};
ghost use Rattle.tf_values.specs.Text.{is_text};
ghost use Rattle.tf_values.specs.Value.{quoted, scalar_text, scalars_text, IsTextOf};
ghost use Rattle.tf_values.specs.Scalars.{IsElement};
ghost use Rattle.tf_values.specs.Word.{ends_here};

use crate::elements::{Scalar, Scalars};
use crate::faults::MakeFault;
use crate::quoted::unquoted;
use crate::utf8::Text;
use crate::value::Val;
use crate::word::{ends_here, scalar_of, word_at};
use std::alloc::Global;

impl Val {
    /// The value whose text form the bytes are. `No` comes exactly where they are no value's.
    pub fn parse(alloc: Global, text: &[u8]) -> Result<Val, MakeFault>
        ensures ok { IfOk result (λ value. IsTextOf text.now value) }
        ensures found { (v : Val) → IsTextOf text.now v
            → MatchResult result (λ value. value ≡ v) (λ fault. fault ≡ MakeFault.Memory) }
        ensures refused { IsErrOf result MakeFault.No → (v : Val) → ¬ (IsTextOf text.now v) }
    {
        whole_value(alloc, text)
    }
}

/// The value whose text form the bytes are.
fn whole_value(alloc: Global, text: &[u8]) -> Result<Val, MakeFault>
    ensures ok { IfOk result (λ value. IsTextOf text.now value) }
    ensures refused { IsErrOf result MakeFault.No → (v : Val) → ¬ (IsTextOf text.now v) }
{
    let Some((first, rest)) = text.split_first() else {
        return Err(MakeFault::No);
    };
    if *first == b'[' {
        return list_of(alloc, rest);
    }
    let (scalar, rest) = scalar_at(alloc, text)?;
    if !rest.is_empty() {
        return Err(MakeFault::No);
    }
    Ok(Val::from(scalar))
}

/// The list whose text form the bytes are behind an opening bracket.
fn list_of(alloc: Global, bytes: &[u8]) -> Result<Val, MakeFault>
    ensures ok { IfOk result (λ value. IsTextOf (91 ∷ bytes.now) value) }
    ensures refused { IsErrOf result MakeFault.No → (v : Val) → ¬ (IsTextOf (91 ∷ bytes.now) v) }
{
    let items = scalars_of(alloc, bytes)?;
    match Scalars::make(items) {
        Ok(scalars) => Ok(Val::List(scalars)),
        Err(_) => Err(MakeFault::No),
    }
}

/// The scalars whose text forms stand up to a closing bracket that ends the bytes.
fn scalars_of(alloc: Global, bytes: &[u8]) -> Result<Vec<Scalar>, MakeFault>
    ensures ok { IfOk result (λ items. AllByRecursion IsElement items.items
        × (bytes.now ≡ scalars_text items.items ++ 93 ∷ [])) }
    ensures refused { IsErrOf result MakeFault.No → (scalars : List Scalar)
        → AllByRecursion IsElement scalars → bytes.now ≢ scalars_text scalars ++ 93 ∷ [] }
{
    let mut items = Vec::new(alloc);
    if closes(bytes) {
        return Ok(items);
    }
    let (first, mut rest) = scalar_at(alloc, bytes)?;
    items.push(first)?;
    while let Some(after) = behind_comma(rest) {
        let (scalar, left) = scalar_at(alloc, after)?;
        items.push(scalar)?;
        rest = left;
    }
    if !closes(rest) {
        return Err(MakeFault::No);
    }
    Ok(items)
}

/// What stands behind the comma at the front.
fn behind_comma(bytes: &[u8]) -> Option<&[u8]>
    ensures { MatchOption result ((rest : List ℕ) → bytes.now ≢ 44 ∷ rest)
        (λ rest. bytes.now ≡ 44 ∷ rest.now) }
{
    match bytes {
        [b',', rest @ ..] => Some(rest),
        _ => None,
    }
}

/// Whether the bytes are a closing bracket alone.
fn closes(bytes: &[u8]) -> bool
    ensures { IsTrue result ↔ (bytes.now ≡ 93 ∷ []) }
{
    bytes == b"]".as_slice()
}

/// The scalar whose text form stands at the front, up to a comma, a closing bracket or the end.
fn scalar_at(alloc: Global, bytes: &[u8]) -> Result<(Scalar, &[u8]), MakeFault>
    ensures ok { IfOk result (λ read. IsElement read.0
        × (bytes.now ≡ scalar_text read.0 ++ read.1.now) × (ends_here read.1.now ≡ true)) }
    ensures refused { IsErrOf result MakeFault.No → (s : Scalar) (rest : List ℕ) → IsElement s
        → ends_here rest ≡ true → bytes.now ≢ scalar_text s ++ rest }
{
    let Some((first, inner)) = bytes.split_first() else {
        return Err(MakeFault::No);
    };
    if *first == b'"' {
        let (text, rest) = text_at(alloc, inner)?;
        return Ok((Scalar::Text(text), rest));
    }
    let (word, rest) = word_at(bytes);
    match scalar_of(word) {
        Some(scalar) => Ok((scalar, rest)),
        None => Err(MakeFault::No),
    }
}

/// The text whose form stands at the front, behind an opening quote.
fn text_at(alloc: Global, bytes: &[u8]) -> Result<(Text, &[u8]), MakeFault>
    ensures ok { IfOk result (λ read. (is_text read.0 ≡ true)
        × (34 ∷ bytes.now ≡ quoted read.0 ++ read.1.now) × (ends_here read.1.now ≡ true)) }
    ensures refused { IsErrOf result MakeFault.No → (text rest : List ℕ) → is_text text ≡ true
        → ends_here rest ≡ true → 34 ∷ bytes.now ≢ quoted text ++ rest }
{
    let (text, rest) = unquoted(alloc, bytes)?;
    if !ends_here(rest) {
        return Err(MakeFault::No);
    }
    Ok((Text::make(alloc, &text)?, rest))
}
