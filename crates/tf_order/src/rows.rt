ghost use Rattle.std.specs.Prelude.{◌≡◌, ℕ, ◌<◌, ◌≤◌, List, [], ◌∷◌, Bool, true, ◌++◌, length, IfOk, OnOk};
ghost use Rattle.tf_numbers.specs.Numbers.{has_number, which_below};
ghost use Rattle.tf_links.specs.Bits.{has, words_for};
ghost use Rattle.tf_order.specs.Rows.{row_at};
ghost use Rattle.tf_order.specs.Tables.{AllBelow};

use std::alloc::Global;
use std::marker::Model;
use tf_links::Bits;
use tf_values::Memory;

/// Numbers of atoms in order. Contracts see the list.
#[derive(Drop)]
pub struct Row {
    items: Vec<u16>,
}

impl Model for Row {
    ghost use Rattle.std.specs.Prelude.{List, ℕ};

    ghost Value = { List ℕ };

    ghost view = { λ row. row.items.items };
}

impl Row {
    /// No number yet.
    pub fn new(alloc: Global) -> Row
        ensures { result ≡ [] }
    {
        Row {
            items: Vec::new(alloc),
        }
    }

    /// These numbers.
    pub fn make(items: Vec<u16>) -> Row
        ensures { result ≡ items.items }
    {
        Row { items }
    }

    /// Adds a number at the end.
    pub fn push(&mut self, number: u16) -> Result<(), Memory>
        ensures { OnOk result (self.new ≡ self.old ++ number ∷ []) }
    {
        self.items.push(number)?;
        Ok(())
    }

    /// Adds numbers at the end.
    pub fn extend(&mut self, numbers: &[u16]) -> Result<(), Memory>
        ensures { OnOk result (self.new ≡ self.old ++ numbers.now) }
    {
        self.items.extend_from_slice(numbers)?;
        Ok(())
    }

    /// The numbers, in order.
    pub fn items(&self) -> &[u16]
        ensures { result.now ≡ self.now }
    {
        &self.items
    }
}

/// So many rows with no number in them.
#[tactic(auto, using(crate::proofs::TableLemmas::empty_start, crate::proofs::TableLemmas::empty_more))]
pub fn empty_rows(alloc: Global, count: usize) -> Result<Vec<Row>, Memory>
    ensures height { IfOk result (λ rows. length rows.items ≡ count) }
    ensures none { IfOk result (λ rows. (k : ℕ) → row_at rows.items k ≡ []) }
{
    let mut rows = Vec::new(alloc);
    for _ in 0..count {
        rows.push(Row::new(alloc))?;
    }
    Ok(rows)
}

/// Whether a number stands in an ascending row. In most rows the numbers stand side by side, so that the
/// first of them tells the place of each.
#[tactic(auto, using(crate::proofs::RowLemmas::first_is_past))]
pub fn is_listed(row: &[u16], number: u16) -> bool
    ensures { (count : ℕ) → (test : ℕ → Bool) → row.now ≡ which_below count test
        → result ≡ has_number row.now number }
{
    let Some(first) = row.first() else {
        return false;
    };
    if number < *first {
        return false;
    }
    if stands_at(row, (number - *first) as usize, number) {
        return true;
    }
    is_found(row, number)
}

/// Whether a number stands at this place of a row.
#[tactic(auto, using(crate::proofs::RowLemmas::listed_at))]
fn stands_at(row: &[u16], place: usize, number: u16) -> bool
    ensures { result ≡ true → has_number row.now number ≡ true }
{
    place < row.len() && row[place] == number
}

/// Whether a number is found in an ascending row by halving.
#[tactic(auto, using(crate::proofs::RowLemmas::found_there, crate::proofs::RowLemmas::found_nowhere))]
fn is_found(row: &[u16], number: u16) -> bool
    ensures { (count : ℕ) → (test : ℕ → Bool) → row.now ≡ which_below count test
        → result ≡ has_number row.now number }
{
    match row.binary_search(&number) {
        Ok(_) => true,
        Err(_) => false,
    }
}

/// The row of a number, and none where there is no such row.
pub fn row_at(rows: &[Row], number: usize) -> &[u16]
    ensures { result.now ≡ row_at rows.now number }
{
    match rows.get(number) {
        Some(row) => row.items(),
        None => &[],
    }
}

/// The numbers of a set, each of which is below the count.
#[tactic(auto, using(crate::proofs::TableLemmas::set_told, crate::proofs::TableLemmas::set_below))]
pub fn row_of(alloc: Global, count: usize, set: &Bits) -> Result<Row, Memory>
    requires few { count ≤ 1000 }
    requires below { (k : ℕ) → has set.now k ≡ true → k < count }
    requires wide { length set.now ≡ words_for count }
    ensures { IfOk result (λ row. row ≡ which_below count (has set.now)) }
{
    let numbers = set.numbers(alloc)?;
    let items = short_numbers(alloc, &numbers)?;
    Ok(Row::make(items))
}

/// The same numbers, each of which is below a thousand.
#[tactic(auto, using(crate::proofs::SpreadLemmas::listed_below))]
pub fn short_numbers(alloc: Global, numbers: &[usize]) -> Result<Vec<u16>, Memory>
    requires { AllBelow 1000 numbers.now }
    ensures { IfOk result (λ short. short.items ≡ numbers.now) }
{
    let mut short = Vec::with_capacity(alloc, numbers.len())?;
    for number in numbers {
        short.push(*number as u16)?;
    }
    Ok(short)
}
