ghost use Rattle.std.specs.Prelude.{◌≡◌, None, Some, IfOk, MatchResult, List, ℕ, map};
ghost use Rattle.std.specs.List.{list_any};
ghost use Rattle.indexmap.specs.IndexSet.{contains};
ghost use Rattle.tf_flow.specs.Ascending.{ascend, ascend_from, comes_before};
ghost use Rattle.tf_flow.specs.Tree.{first_again, same_name, has_twice, is_among};

use crate::atoms::{Arg, Bind};
use indexmap::IndexSet;
use std::alloc::Global;
use std::cmp::Ordering;
use std::hash::Hash;
use tf_values::{Memory, Name};

/// Up to how many names each is looked for among those before it; for more of them a set costs less.
const FEW: usize = 16;

/// What is told from others of its kind by a name.
pub trait Named {
    ghost named: { Self → List ℕ };

    fn name(&self) -> &Name
        ensures { result.now ≡ named self.now };
}

impl Named for Name {
    ghost named = { λ name. name };

    fn name(&self) -> &Name {
        self
    }
}

impl Named for Arg {
    ghost named = { λ arg. arg.name };

    fn name(&self) -> &Name {
        &self.name
    }
}

impl Named for Bind {
    ghost named = { λ bind. bind.symbol };

    fn name(&self) -> &Name {
        &self.symbol
    }
}

/// The index of these, in order, or the first that stands earlier already.
pub fn indexed<T: Copy + Eq + Hash>(
    alloc: Global,
    items: &[T],
) -> Result<Result<IndexSet<T>, T>, Memory>
    ensures whole { IfOk result (λ found. MatchResult found (λ index. index.keys ≡ items.now) (λ _. Unit {0})) }
    ensures again { IfOk result (λ found. MatchResult found (λ _. first_again T.eq items.now ≡ None)
        (λ item. first_again T.eq items.now ≡ Some item)) }
{
    let mut index = IndexSet::with_capacity(alloc, items.len())?;
    for item in items {
        if !index.insert(*item)? {
            return Ok(Err(*item));
        }
    }
    Ok(Ok(index))
}

/// Whether a name stands twice. Many names that stand in byte order, as the keys of a table do, need no set.
#[tactic(auto, using(crate::proofs::AscentLemmas::ascend_once))]
pub fn has_name_twice<T: Named>(alloc: Global, items: &[T]) -> Result<bool, Memory>
    ensures { IfOk result (λ twice. twice ≡ has_twice (map T.named items.now)) }
{
    if items.len() <= FEW {
        return Ok(has_earlier(items));
    }
    if ascend(items) {
        return Ok(false);
    }
    has_twice_in_set(alloc, items)
}

/// Whether each name comes behind the one before it, in byte order.
fn ascend<T: Named>(items: &[T]) -> bool
    ensures { result ≡ ascend (map T.named items.now) }
{
    match items {
        [] => true,
        [first, others @ ..] => ascend_from(first, others),
    }
}

/// Whether each name comes behind the one before it, and the first behind this one.
fn ascend_from<T: Named>(first: &T, items: &[T]) -> bool
    ensures { result ≡ ascend_from (T.named first.now) (map T.named items.now) }
{
    let mut last = first;
    for item in items {
        if !comes_before(last.name(), item.name()) {
            return false;
        }
        last = item;
    }
    true
}

/// Whether a name comes before another in byte order.
fn comes_before(name: &Name, other: &Name) -> bool
    ensures { result ≡ comes_before name.now other.now }
{
    matches!(name.bytes().cmp(other.bytes()), Ordering::Less)
}

/// Whether a name stands among those before it.
fn has_earlier<T: Named>(items: &[T]) -> bool
    ensures { result ≡ has_twice (map T.named items.now) }
{
    for (number, item) in items.iter().enumerate() {
        if is_name_of(&items[..number], item.name()) {
            return true;
        }
    }
    false
}

/// Whether one of these has the name.
fn is_name_of<T: Named>(items: &[T], name: &Name) -> bool
    ensures { result ≡ is_among (map T.named items.now) name.now }
{
    for item in items {
        if name == item.name() {
            return true;
        }
    }
    false
}

/// Whether a name stands in the set of those before it.
fn has_twice_in_set<T: Named>(alloc: Global, items: &[T]) -> Result<bool, Memory>
    ensures { IfOk result (λ twice. twice ≡ has_twice (map T.named items.now)) }
{
    let mut names = IndexSet::with_capacity(alloc, items.len())?;
    for item in items {
        if !names.insert(*item.name())? {
            return Ok(true);
        }
    }
    Ok(false)
}

/// The set of these names.
pub fn set_of(alloc: Global, names: &[Name]) -> Result<IndexSet<Name>, Memory>
    ensures { IfOk result (λ set. (name : List ℕ) → contains same_name set name ≡ list_any (same_name name) names.now) }
{
    let mut set = IndexSet::with_capacity(alloc, names.len())?;
    for name in names {
        set.insert(*name)?;
    }
    Ok(set)
}
