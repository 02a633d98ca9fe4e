ghost use Rattle.std.specs.Prelude.{◌≡◌, ℕ, ◌<◌, List, Bool, true, false, ◌&&◌, ◌||◌, nat_eq, length, reverse, OnOk, IfOk, slice_index_or};
ghost use Rattle.tf_numbers.specs.Numbers.{Pair, has_pair, has_number};
ghost use Rattle.tf_links.specs.Graphs.{reached};
ghost use Rattle.tf_links.specs.Bits.{has, words_for};
ghost use Rattle.tf_links.specs.Links.{leads, IsSquare, AreLinks, leads_by_path, AreReached, ArePivots};

use crate::bits::Bits;
use crate::links::{Links, copy_rows, has_in};
use std::alloc::Global;
use tf_values::Memory;

impl Links {
    /// Which item reaches which by links, as rows.
    #[tactic(auto, using(crate::proofs::ReachLemmas::reaching_start, crate::proofs::ReachLemmas::reaching_more, crate::proofs::ReachLemmas::reaching_all, crate::proofs::ReachLemmas::pivot_within, crate::proofs::ReachLemmas::row_width))]
    pub fn reach(&self, alloc: Global) -> Result<Vec<Bits>, Memory>
        ensures { IfOk result (λ rows. (pairs : List Pair) → AreLinks self.now pairs
            → AreReached self.now.count (reached self.now.count pairs) rows.items) }
    {
        let pivots = self.pivots(alloc)?;
        let mut rows = copy_rows(alloc, self.rows())?;
        let mut passed = Bits::new(alloc, self.count())?;
        let mut is_kept = true;
        for pivot in &pivots {
            let through = rows[*pivot].copy(alloc)?;
            let is_linked = is_kept_at(is_kept, *pivot, &passed);
            self.pass_pivot(alloc, *pivot, &through, is_linked, &mut rows)?;
            passed.insert(*pivot);
            is_kept = stays_kept(is_kept, &through, &passed);
        }
        Ok(rows)
    }

    /// Adds to each row that has the pivot what the pivot's row has. Where no row has got the pivot, only the
    /// items that are linked to it are asked.
    fn pass_pivot(
        &self,
        alloc: Global,
        pivot: usize,
        through: &Bits,
        is_linked: bool,
        rows: &mut Vec<Bits>,
    ) -> Result<(), Memory>
        requires pivot { pivot < self.now.count }
        requires square { IsSquare self.now.count rows.old.items }
        requires wide { length through.now ≡ words_for self.now.count }
        requires linked { is_linked ≡ true → (u : ℕ) → leads rows.old.items u pivot ≡ leads self.now.rows u pivot }
        ensures square { OnOk result (IsSquare self.now.count rows.new.items) }
        ensures more { OnOk result ((u v : ℕ) → leads rows.new.items u v
            ≡ (leads rows.old.items u v || (leads rows.old.items u pivot && has through.now v))) }
    {
        if !is_linked {
            pass(rows, pivot, through);
            return Ok(());
        }
        let items = self.led_from(alloc, pivot)?;
        pass_to(&items, rows, pivot, through);
        Ok(())
    }

    /// All items, each once: first those in standing order backwards, so that where no cycle is, few rows
    /// change at each.
    #[tactic(auto, using(crate::proofs::ReachLemmas::pivots_start))]
    fn pivots(&self, alloc: Global) -> Result<Vec<usize>, Memory>
        ensures all { IfOk result (λ pivots. (k : ℕ) → k < self.now.count → has_number pivots.items k ≡ true) }
        ensures within { IfOk result (λ pivots. (k : ℕ) → has_number pivots.items k ≡ true → k < self.now.count) }
    {
        let count = self.count();
        let mut pivots = Vec::new(alloc);
        let mut among = Bits::new(alloc, count)?;
        let standing = self.standing(alloc)?;
        for item in standing.iter().rev() {
            add_pivot(count, *item, &mut among, &mut pivots)?;
        }
        for item in 0..count {
            add_pivot(count, item, &mut among, &mut pivots)?;
        }
        Ok(pivots)
    }
}

/// Adds an item where it isn't there yet.
#[tactic(auto, using(crate::proofs::ReachLemmas::pivots_more, crate::proofs::ReachLemmas::kept_pivot, crate::proofs::ReachLemmas::new_pivot))]
fn add_pivot(
    count: usize,
    item: usize,
    among: &mut Bits,
    pivots: &mut Vec<usize>,
) -> Result<(), Memory>
    requires listed { ArePivots count among.old pivots.old.items }
    ensures listed { OnOk result (ArePivots count among.new pivots.new.items) }
    ensures more { OnOk result ((k : ℕ) → has_number pivots.old.items k ≡ true → has_number pivots.new.items k ≡ true) }
    ensures added { OnOk result (item < count → has_number pivots.new.items item ≡ true) }
{
    if item < count && !among.has(item) {
        pivots.push(item)?;
        among.insert(item);
    }
    Ok(())
}

/// Whether no row has got a pivot that isn't passed, and this is such a pivot.
fn is_kept_at(is_kept: bool, pivot: usize, passed: &Bits) -> bool
    ensures { result ≡ true → (is_kept ≡ true) × (has passed.now pivot ≡ false) }
{
    if !is_kept {
        return false;
    }
    !passed.has(pivot)
}

/// Whether no row has got a pivot that isn't passed, where the rows got these.
#[tactic(auto, using(crate::proofs::ReachLemmas::passed_within))]
fn stays_kept(is_kept: bool, through: &Bits, passed: &Bits) -> bool
    requires wide { length through.now ≡ length passed.now }
    ensures before { result ≡ true → is_kept ≡ true }
    ensures within { result ≡ true → (k : ℕ) → has passed.now k ≡ false → has through.now k ≡ false }
{
    if !is_kept {
        return false;
    }
    through.is_within(passed)
}

/// Adds to the rows of these items, among which are all whose row has the pivot, what the pivot's row has.
#[tactic(auto, using(crate::proofs::ReachLemmas::among_start, crate::proofs::ReachLemmas::among_next, crate::proofs::ReachLemmas::among_all, crate::proofs::ReachLemmas::pivot_within))]
fn pass_to(items: &[usize], rows: &mut Vec<Bits>, pivot: usize, through: &Bits)
    requires all { (u : ℕ) → leads rows.old.items u pivot ≡ true → has_number items.now u ≡ true }
    requires within { (u : ℕ) → has_number items.now u ≡ true → u < length rows.old.items }
    requires square { IsSquare (length rows.old.items) rows.old.items }
    requires wide { length through.now ≡ words_for (length rows.old.items) }
    ensures square { IsSquare (length rows.old.items) rows.new.items }
    ensures more { (u v : ℕ)
        → leads rows.new.items u v ≡ (leads rows.old.items u v || (leads rows.old.items u pivot && has through.now v)) }
{
    for u in items {
        pass_row(rows, *u, pivot, through);
    }
}

/// Adds to each row that has the pivot what the pivot's row has, if it has any.
#[tactic(auto, using(crate::proofs::ReachLemmas::passed_nothing, crate::proofs::ReachLemmas::passed_start, crate::proofs::ReachLemmas::passed_next, crate::proofs::ReachLemmas::passed_all))]
fn pass(rows: &mut Vec<Bits>, pivot: usize, through: &Bits)
    requires square { IsSquare (length rows.old.items) rows.old.items }
    requires wide { length through.now ≡ words_for (length rows.old.items) }
    ensures square { IsSquare (length rows.old.items) rows.new.items }
    ensures more { (u v : ℕ)
        → leads rows.new.items u v ≡ (leads rows.old.items u v || (leads rows.old.items u pivot && has through.now v)) }
{
    if through.first().is_none() {
        return;
    }
    for u in 0..rows.len() {
        pass_row(rows, u, pivot, through);
    }
}

/// Adds to the row of `u`, where it has the pivot, what the pivot's row has.
#[tactic(auto, using(crate::proofs::ReachLemmas::row_kept, crate::proofs::ReachLemmas::row_joined, crate::proofs::ReachLemmas::row_width, crate::proofs::LinkLemmas::square_set))]
fn pass_row(rows: &mut Vec<Bits>, u: usize, pivot: usize, through: &Bits)
    requires within { u < length rows.old.items }
    requires square { IsSquare (length rows.old.items) rows.old.items }
    requires wide { length through.now ≡ words_for (length rows.old.items) }
    ensures square { IsSquare (length rows.old.items) rows.new.items }
    ensures more { (a b : ℕ)
        → leads rows.new.items a b ≡ (leads rows.old.items a b
        || (nat_eq u a && (leads rows.old.items u pivot && has through.now b))) }
{
    if !has_in(rows, u, pivot) {
        return;
    }
    rows[u].union(through);
}
