ghost use Rattle.std.specs.Prelude.{◌≡◌, ℕ, ◌+◌, ◌<◌, ◌≤◌, List, [], ◌∷◌, ◌++◌, Bool, true, false, ◌&&◌, ◌||◌, not, nat_eq, length, ◌*◌, reverse, OnOk, IfOk, slice_index_or};
ghost use Rattle.tf_numbers.specs.Numbers.{which_below, has_number};
ghost use Rattle.tf_links.specs.Bits.{has, words_for};
ghost use Rattle.tf_links.specs.Links.{leads, IsSquare, LinksValue, is_ready};
ghost use Rattle.tf_links.specs.Layers.{first_into};

use crate::bits::Bits;
use std::alloc::Global;
use std::marker::Model;
use tf_values::Memory;

/// Links among so many items. Contracts see for each item the set of those that it leads to.
#[derive(Drop)]
pub struct Links {
    count: usize,
    from: Vec<Bits>,
    to: Vec<Bits>,
}

impl Model for Links {
    ghost use Rattle.std.specs.Prelude.{◌≡◌, ℕ, ◌<◌, true};
    ghost use Rattle.tf_links.specs.Links.{leads, IsSquare, LinksValue};

    ghost Value = { LinksValue };

    ghost view = { λ links. record { count = links.count; rows = links.from.items } };

    ghost invariant = { λ links. record {
      from : IsSquare links.count links.from.items;
      to : IsSquare links.count links.to.items;
      back : (u v : ℕ) → leads links.to.items v u ≡ leads links.from.items u v;
      within : (u v : ℕ) → leads links.from.items u v ≡ true → v < links.count;
    } };
}

impl Links {
    /// No link yet.
    pub fn new(alloc: Global, count: usize) -> Result<Links, Memory>
        ensures count { IfOk result (λ links. links.count ≡ count) }
        ensures none { IfOk result (λ links. (u v : ℕ) → leads links.rows u v ≡ false) }
    {
        let from = empty_rows(alloc, count)?;
        let to = empty_rows(alloc, count)?;
        Ok(Links { count, from, to })
    }

    /// How many items there are.
    pub fn count(&self) -> usize
        ensures { result ≡ self.now.count }
    {
        self.count
    }

    /// Whether item `u` leads to item `v`.
    pub fn leads(&self, u: usize, v: usize) -> bool
        ensures { result ≡ leads self.now.rows u v }
    {
        has_in(&self.from, u, v)
    }

    /// The row of each item.
    pub fn rows(&self) -> &[Bits]
        ensures rows { result.now ≡ self.now.rows }
        ensures square { IsSquare self.now.count result.now }
    {
        &self.from
    }

    /// The items that an item leads to, ascending.
    #[tactic(auto, using(crate::proofs::StandingLemmas::led_within, crate::proofs::LinkLemmas::row_zero, crate::proofs::LinkLemmas::led_row))]
    pub(crate) fn led_to(&self, alloc: Global, item: usize) -> Result<Vec<usize>, Memory>
        requires { item < self.now.count }
        ensures all { IfOk result (λ items. items.items
            ≡ which_below (64 * words_for self.now.count) (leads self.now.rows item)) }
        ensures square { IsSquare self.now.count self.now.rows }
        ensures within { IfOk result (λ items. (k : ℕ) → has_number items.items k ≡ true → k < self.now.count) }
    {
        let items = self.from[item].numbers(alloc)?;
        Ok(items)
    }

    /// The items that lead to an item.
    #[tactic(auto, using(crate::proofs::ReachLemmas::led_from_all, crate::proofs::ReachLemmas::led_from_within))]
    pub(crate) fn led_from(&self, alloc: Global, item: usize) -> Result<Vec<usize>, Memory>
        requires { item < self.now.count }
        ensures all { IfOk result (λ items. (u : ℕ) → leads self.now.rows u item ≡ true
            → has_number items.items u ≡ true) }
        ensures within { IfOk result (λ items. (u : ℕ) → has_number items.items u ≡ true → u < self.now.count) }
    {
        let items = self.to[item].numbers(alloc)?;
        Ok(items)
    }

    /// The first item of a set that an item leads to.
    #[tactic(auto, using(crate::proofs::LinkLemmas::first_read, crate::proofs::LinkLemmas::row_zero))]
    pub(crate) fn first_into(&self, item: usize, set: &Bits) -> Option<usize>
        requires item { item < self.now.count }
        requires wide { length set.now ≡ words_for self.now.count }
        ensures { result ≡ first_into self.now set.now item }
    {
        self.from[item].first_common(set)
    }

    /// Whether an item may be taken: it isn't done, and all that lead to it are.
    #[tactic(auto, using(crate::proofs::StandingLemmas::ready_read, crate::proofs::StandingLemmas::not_ready))]
    pub(crate) fn is_ready(&self, item: usize, done: &Bits) -> bool
        requires item { item < self.now.count }
        requires wide { length done.now ≡ words_for self.now.count }
        ensures { result ≡ is_ready self.now done.now item }
    {
        !done.has(item) && self.to[item].is_within(done)
    }

    /// Adds a link from item `u` to item `v`.
    #[tactic(auto, using(crate::proofs::LinkLemmas::inserted_within))]
    pub fn insert(&mut self, u: usize, v: usize)
        requires first { u < self.old.count }
        requires second { v < self.old.count }
        ensures count { self.new.count ≡ self.old.count }
        ensures more { (a b : ℕ) → leads self.new.rows a b ≡ ((nat_eq u a && nat_eq v b) || leads self.old.rows a b) }
    {
        insert_in(&mut self.from, u, v);
        insert_in(&mut self.to, v, u);
    }
}

/// Rows for so many numbers, with none in them.
#[tactic(auto, using(crate::proofs::LinkLemmas::empty_start, crate::proofs::LinkLemmas::empty_more, crate::proofs::LinkLemmas::empty_square, crate::proofs::LinkLemmas::empty_leads))]
pub fn empty_rows(alloc: Global, count: usize) -> Result<Vec<Bits>, Memory>
    ensures square { IfOk result (λ rows. IsSquare count rows.items) }
    ensures none { IfOk result (λ rows. (u v : ℕ) → leads rows.items u v ≡ false) }
{
    let mut rows = Vec::with_capacity(alloc, count)?;
    for _ in 0..count {
        rows.push(Bits::new(alloc, count)?)?;
    }
    Ok(rows)
}

/// The same rows.
pub fn copy_rows(alloc: Global, rows: &[Bits]) -> Result<Vec<Bits>, Memory>
    ensures { IfOk result (λ copy. copy.items ≡ rows.now) }
{
    let mut copy = Vec::with_capacity(alloc, rows.len())?;
    for row in rows {
        copy.push(row.copy(alloc)?)?;
    }
    Ok(copy)
}

/// Whether two lists of rows for so many numbers have the same in them.
#[tactic(auto, using(crate::proofs::LinkLemmas::same_start, crate::proofs::LinkLemmas::same_more, crate::proofs::LinkLemmas::same_all, crate::proofs::LinkLemmas::same_width))]
pub fn are_same(count: usize, rows: &[Bits], other: &[Bits]) -> bool
    requires rows { IsSquare count rows.now }
    requires other { IsSquare count other.now }
    ensures { result ≡ true → (u v : ℕ) → leads rows.now u v ≡ leads other.now u v }
{
    for u in 0..count {
        if !rows[u].is_within(&other[u]) || !other[u].is_within(&rows[u]) {
            return false;
        }
    }
    true
}

/// Whether the row of `u` has `v`.
#[tactic(auto, using(crate::proofs::LinkLemmas::past_row, crate::proofs::LinkLemmas::row_read))]
pub fn has_in(rows: &[Bits], u: usize, v: usize) -> bool
    ensures { result ≡ leads rows.now u v }
{
    u < rows.len() && rows[u].has(v)
}

/// Adds `v` to the row of `u`.
#[tactic(auto, using(crate::proofs::LinkLemmas::has_room, crate::proofs::LinkLemmas::inserted, crate::proofs::LinkLemmas::square_set, crate::proofs::LinkLemmas::row_zero))]
fn insert_in(rows: &mut Vec<Bits>, u: usize, v: usize)
    requires first { u < length rows.old.items }
    requires second { v < length rows.old.items }
    requires square { IsSquare (length rows.old.items) rows.old.items }
    ensures square { IsSquare (length rows.old.items) rows.new.items }
    ensures more { (a b : ℕ) → leads rows.new.items a b ≡ ((nat_eq u a && nat_eq v b) || leads rows.old.items a b) }
{
    rows[u].insert(v);
}
