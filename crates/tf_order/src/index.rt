ghost use Rattle.std.specs.Prelude.{◌≡◌, ℕ, List, [], length, map, if◌then◌else◌, IfOk, OnOk};
ghost use Rattle.tf_flow.specs.Limits.{provided};
ghost use Rattle.tf_flow.specs.Tree.{same_name, is_among};
ghost use Rattle.tf_model.specs.Before.{provides_at};
ghost use Rattle.tf_numbers.specs.Numbers.{which_below};
ghost use Rattle.tf_order.specs.Index.{add_once, told, is_named_at};
ghost use Rattle.tf_flow.specs.Listing.{shown_atoms, shown_item};

use indexmap::IndexMap;
use std::alloc::Global;
use std::marker::Model;
use tf_flow::{AtomPlace, ItemPlace, Provides};
use tf_values::{Memory, Name};

/// Numbers in order. Contracts see the list.
#[derive(Drop)]
struct Numbers {
    items: Vec<usize>,
}

impl Model for Numbers {
    ghost use Rattle.std.specs.Prelude.{List, ℕ};

    ghost Value = { List ℕ };

    ghost view = { λ numbers. numbers.items.items };
}

impl Numbers {
    /// No number yet.
    fn new(alloc: Global) -> Numbers
        ensures { result ≡ [] }
    {
        Numbers {
            items: Vec::new(alloc),
        }
    }

    /// Adds a number, where it isn't the last one already.
    #[tactic(auto, using(crate::proofs::IndexLemmas::once_same))]
    fn add(&mut self, number: usize) -> Result<(), Memory>
        ensures { OnOk result (self.new ≡ add_once self.old number) }
    {
        if let Some(last) = self.items.last() {
            if *last == number {
                return Ok(());
            }
        }
        self.items.push(number)?;
        Ok(())
    }

    /// The numbers, in order.
    fn items(&self) -> &[usize]
        ensures { result.now ≡ self.now }
    {
        &self.items
    }
}

/// Names, each with numbers. Contracts see by `told` the numbers of a name.
#[derive(Drop)]
pub struct NameIndex {
    numbers: IndexMap<Name, Numbers>,
}

impl NameIndex {
    /// No name yet.
    pub fn new(alloc: Global) -> NameIndex
        ensures { (name : List ℕ) → told result name ≡ [] }
    {
        NameIndex {
            numbers: IndexMap::new(alloc),
        }
    }

    /// Adds a number to those of a name, where it isn't the last of them already.
    pub fn add(&mut self, alloc: Global, name: &Name, number: usize) -> Result<(), Memory>
        ensures { OnOk result ((other : List ℕ)
            → told self.new other ≡ (if same_name name.now other then add_once
            (told self.old other) number else told self.old other)) }
    {
        if let Some(numbers) = self.numbers.get_mut(name) {
            return numbers.add(number);
        }
        let mut numbers = Numbers::new(alloc);
        numbers.add(number)?;
        self.numbers.insert(*name, numbers)?;
        Ok(())
    }

    /// The numbers of a name; none where it has no number.
    pub fn numbers(&self, name: &Name) -> &[usize]
        ensures { result.now ≡ told self.now name.now }
    {
        match self.numbers.get(name) {
            None => &[],
            Some(numbers) => numbers.items(),
        }
    }
}

/// Which atoms provide a symbol.
pub fn providers(alloc: Global, atoms: &[AtomPlace<'_>]) -> Result<NameIndex, Memory>
    ensures { IfOk result (λ index. (symbol : List ℕ)
        → told index symbol ≡ which_below (length atoms.now) (provides_at (shown_atoms atoms.now) symbol)) }
{
    let mut index = NameIndex::new(alloc);
    for (number, atom) in atoms.iter().enumerate() {
        add_provided(alloc, atom.part.provides(), number, &mut index)?;
    }
    Ok(index)
}

/// Adds a number to those of each symbol that is provided.
#[tactic(auto, using(crate::proofs::IndexLemmas::one_provided))]
fn add_provided(
    alloc: Global,
    provides: &Provides,
    number: usize,
    index: &mut NameIndex,
) -> Result<(), Memory>
    ensures { OnOk result ((symbol : List ℕ)
        → told index.new symbol ≡ (if is_among (provided provides.now) symbol then add_once
        (told index.old symbol) number else told index.old symbol)) }
{
    match provides {
        Provides::Nothing => Ok(()),
        Provides::Whole(name) => index.add(alloc, name, number),
        Provides::Parts(names) => add_names(alloc, names.items(), number, index),
    }
}

/// Adds a number to those of each of these names.
fn add_names(
    alloc: Global,
    names: &[Name],
    number: usize,
    index: &mut NameIndex,
) -> Result<(), Memory>
    ensures { OnOk result ((name : List ℕ)
        → told index.new name ≡ (if is_among names.now name then add_once
        (told index.old name) number else told index.old name)) }
{
    for name in names {
        index.add(alloc, name, number)?;
    }
    Ok(())
}

/// Which items have a name.
pub fn item_names(alloc: Global, items: &[ItemPlace]) -> Result<NameIndex, Memory>
    ensures { IfOk result (λ index. (name : List ℕ)
        → told index name ≡ which_below (length items.now) (is_named_at (map shown_item items.now) name)) }
{
    let mut index = NameIndex::new(alloc);
    for (place, item) in items.iter().enumerate() {
        index.add(alloc, &item.name, place)?;
    }
    Ok(index)
}
