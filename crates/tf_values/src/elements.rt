ghost use Rattle.std.specs.Prelude.{◌≡◌, ◌*◌, ◌≤◌, true, IfOk, IfErr, is_ok, length};
ghost use Rattle.std.specs.List.{flat_map, AllByRecursion};
ghost use Rattle.tf_values.specs.Scalars.{IsElement, scalar_bytes, are_scalars};
ghost use Rattle.tf_values.specs.declared.elements.TheConstants.{LIST_LIMIT};

use crate::faults::Memory;
use crate::utf8::Text;
use std::alloc::Global;
use std::marker::Model;

/// The most scalars of a list.
pub const LIST_LIMIT: usize = 1_024;

/// The most bytes of a value's byte form.
pub const VALUE_LIMIT: usize = 131_072;

/// A value that is no list.
#[derive(Debug, Drop)]
pub enum Scalar {
    Nothing,
    Truth(bool),
    Int(i64),
    Text(Text),
}

impl Scalar {
    /// An equal scalar.
    pub fn copy(&self, alloc: Global) -> Result<Scalar, Memory>
        ensures { IfOk result (λ scalar. scalar ≡ self.now) }
    {
        match self {
            Scalar::Nothing => Ok(Scalar::Nothing),
            Scalar::Truth(truth) => Ok(Scalar::Truth(*truth)),
            Scalar::Int(number) => Ok(Scalar::Int(*number)),
            Scalar::Text(text) => Ok(Scalar::Text(text.copy(alloc)?)),
        }
    }

    /// The length of the byte form.
    pub fn encoded_len(&self) -> usize
        ensures is { result ≡ length (scalar_bytes self.now) }
        ensures bound { result ≤ 65541 }
        ensures element { IsElement self.now }
    {
        match self {
            Scalar::Nothing | Scalar::Truth(_) => 1,
            Scalar::Int(number) => 1 + number.to_be_bytes().len(),
            Scalar::Text(text) => 5 + text.bytes().len(),
        }
    }
}

/// A list's scalars: at most 1,024, and at most 131,072 bytes as the byte form of a list.
/// Contracts see the list.
#[derive(Debug, Drop)]
pub struct Scalars {
    items: Vec<Scalar>,
}

impl Model for Scalars {
    ghost use Rattle.std.specs.Prelude.{◌≡◌, true, List};
    ghost use Rattle.tf_values.specs.declared.elements.Scalar.{Scalar};
    ghost use Rattle.std.specs.List.{AllByRecursion};
    ghost use Rattle.tf_values.specs.Scalars.{IsElement, are_scalars};

    ghost Value = { List Scalar };

    ghost view = { λ scalars. scalars.items.items };

    ghost invariant = { λ scalars. (are_scalars scalars.items.items ≡ true)
        × AllByRecursion IsElement scalars.items.items };
}

impl Scalars {
    /// A list of these scalars. The items come back exactly where they pass a limit.
    pub fn make(items: Vec<Scalar>) -> Result<Scalars, Vec<Scalar>>
        ensures variant { is_ok result ≡ are_scalars items.items }
        ensures ok { IfOk result (λ scalars. scalars ≡ items.items) }
        ensures back { IfErr result (λ back. back ≡ items) }
    {
        if items.len() <= LIST_LIMIT && forms_len(&items) + 3 <= VALUE_LIMIT {
            Ok(Scalars { items })
        } else {
            Err(items)
        }
    }

    /// An equal list.
    pub fn copy(&self, alloc: Global) -> Result<Scalars, Memory>
        ensures { IfOk result (λ scalars. scalars ≡ self.now) }
    {
        let items = copies(alloc, &self.items)?;
        Ok(Scalars { items })
    }

    /// The scalars, in order.
    pub fn items(&self) -> &[Scalar]
        ensures value { result.now ≡ self.now }
        ensures limits { are_scalars self.now ≡ true }
        ensures elements { AllByRecursion IsElement self.now }
    {
        &self.items
    }
}

/// A vector of equal scalars.
fn copies(alloc: Global, scalars: &[Scalar]) -> Result<Vec<Scalar>, Memory>
    ensures { IfOk result (λ copies. copies.items ≡ scalars.now) }
{
    let mut copies = Vec::with_capacity(alloc, scalars.len())?;
    for scalar in scalars {
        copies.push(scalar.copy(alloc)?)?;
    }
    Ok(copies)
}

/// How many bytes the forms of the scalars have together.
pub fn forms_len(scalars: &[Scalar]) -> usize
    requires { length scalars.now ≤ LIST_LIMIT }
    ensures counted { result ≡ length (flat_map scalar_bytes scalars.now) }
    ensures bound { result ≤ 65541 * LIST_LIMIT }
    ensures elements { AllByRecursion IsElement scalars.now }
{
    let mut len = 0;
    for scalar in scalars {
        len += scalar.encoded_len();
    }
    len
}
