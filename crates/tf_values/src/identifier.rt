ghost use Rattle.std.specs.Prelude.{◌≡◌, true, is_some, IfSome, ◌≤◌, length};
ghost use Rattle.std.specs.List.{list_all};
ghost use Rattle.tf_values.specs.Text.{is_name, begins_name, stands_in_name, padded};

use std::hash::{Hash, Hasher};
use std::marker::Model;

/// The most bytes of a name.
pub const NAME_LIMIT: usize = 64;

/// A name: 1 to 64 bytes of letters, digits, `_`, `-` and `.`, the first a letter or `_`.
/// Contracts see it as its bytes.
#[derive(Clone, Copy, Debug)]
pub struct Name {
    bytes: [u8; 64],
    len: usize,
}

impl Model for Name {
    ghost use Rattle.std.specs.Prelude.{ℕ, List, length, take};
    ghost use Rattle.tf_values.specs.Text.{IsPadded, padded, padded-take, length-named};

    ghost Value = { List ℕ };

    ghost view = { λ name. take name.len name.bytes };

    ghost invariant = { λ name. IsPadded name.bytes name.len };

    ghost inverse = { λ name. record { bytes = padded name; len = length name } };

    ghost inverse_ok = { λ name is i. record { bytes = padded-take name.bytes name.len is i; len = length-named name.bytes name.len is i } };
}

impl Name {
    /// The name of these bytes, or none where they are no name.
    #[tactic(auto, using(crate::proofs::NameLemmas::is_padded))]
    pub fn make(bytes: &[u8]) -> Option<Name>
        ensures variant { is_some result ≡ is_name bytes.now }
        ensures value { IfSome result (λ name. name ≡ bytes.now) }
    {
        if !is_spelled(bytes) {
            return None;
        }
        let len = bytes.len();
        Some(Name {
            bytes: in_field(bytes),
            len,
        })
    }

    /// The bytes of the name.
    pub fn bytes(&self) -> &[u8]
        ensures value { result.now ≡ self.now }
        ensures name { is_name self.now ≡ true }
    {
        &self.bytes[..self.len]
    }
}

impl PartialEq for Name {
    ghost use Rattle.std.specs.Prelude.{◌==◌};
    ghost use Rattle.std.specs.Cmp.Lexicographic.{pointwise};
    ghost use Rattle.std.specs.Cmp.Rules.{comparing};
    ghost use Rattle.std.proofs.Common.{rules};

    ghost eq = { pointwise ◌==◌ };

    ghost laws = { Prim.search (comparing, rules) };

    fn eq(&self, other: &Name) -> bool {
        self.bytes() == other.bytes()
    }
}

impl Eq for Name {
    ghost use Rattle.std.specs.Cmp.Rules.{comparing};
    ghost use Rattle.std.proofs.Common.{rules};

    ghost laws = { Prim.search (comparing, rules) };
}

impl Hash for Name {
    ghost use Rattle.std.specs.Hash as fed;
    ghost use Rattle.std.specs.Cmp.Rules.{hashing};
    ghost use Rattle.std.proofs.Common.{rules};

    ghost hash_input = { fed.slice fed.u8 };

    ghost respects_eq = { Prim.search (hashing, rules) };

    fn hash<H: Hasher>(&self, state: &mut H) {
        self.bytes().hash(state);
    }
}

/// The bytes, and zeros after them.
fn in_field(bytes: &[u8]) -> [u8; 64]
    requires { length bytes.now ≤ 64 }
    ensures { result ≡ padded bytes.now }
{
    let mut field = [0; 64];
    field[..bytes.len()].copy_from_slice(bytes);
    field
}

/// Whether the bytes spell a name.
fn is_spelled(bytes: &[u8]) -> bool
    ensures is { result ≡ is_name bytes.now }
{
    match bytes {
        [] => false,
        [first, others @ ..] => begins(*first) && others.len() < NAME_LIMIT && all_stand(others),
    }
}

fn all_stand(bytes: &[u8]) -> bool
    ensures is { result ≡ list_all stands_in_name bytes.now }
{
    bytes.iter().all(|byte| stands(*byte))
}

fn begins(byte: u8) -> bool
    ensures is { result ≡ begins_name byte }
{
    matches!(byte, b'A'..=b'Z' | b'a'..=b'z' | b'_')
}

fn stands(byte: u8) -> bool
    ensures is { result ≡ stands_in_name byte }
{
    begins(byte) || matches!(byte, b'0'..=b'9' | b'-' | b'.')
}

/// Names in an order of their own. Contracts see the list.
#[derive(Debug, Drop)]
pub struct Names {
    items: Vec<Name>,
}

impl Model for Names {
    ghost use Rattle.std.specs.Prelude.{List, ℕ};

    ghost Value = { List (List ℕ) };

    ghost view = { λ names. names.items.items };
}

impl Names {
    /// A list of these names. It takes no memory and sets no limit.
    pub fn make(items: Vec<Name>) -> Names
        ensures { result ≡ items.items }
    {
        Names { items }
    }

    /// The names, in order.
    pub fn items(&self) -> &[Name]
        ensures { result.now ≡ self.now }
    {
        &self.items
    }
}
