ghost use Rattle.std.specs.Prelude.{◌≡◌, ℕ, ◌+◌, ◌<◌, List, [], ◌∷◌, Bool, true, length, OnOk, IfOk, is_some, nat_eq, slice_index_or};
ghost use Rattle.tf_numbers.specs.Numbers.{Pair, has_number};
ghost use Rattle.tf_links.specs.Graphs.{shortest_cycle};
ghost use Rattle.tf_links.specs.Bits.{has, words_for};
ghost use Rattle.tf_links.specs.Links.{leads, AreLinks};
ghost use Rattle.tf_links.specs.Layers.{AreLayers, first_into, walk_by};

use crate::bits::Bits;
use crate::links::Links;
use std::alloc::Global;
use tf_values::Memory;

impl Links {
    /// The items of the shortest cycle through an item, which comes first; of several such cycles, the
    /// first one in item order. There are none where the item is on no cycle.
    #[tactic(auto, using(crate::proofs::CycleLemmas::layers_start, crate::proofs::CycleLemmas::layers_more, crate::proofs::CycleLemmas::came_back, crate::proofs::CycleLemmas::not_yet_back, crate::proofs::CycleLemmas::never_back, tf_numbers::proofs::ListLemmas::none_within))]
    pub fn cycle(&self, alloc: Global, item: usize) -> Result<Vec<usize>, Memory>
        requires { item < self.now.count }
        ensures shortest { IfOk result (λ items. (pairs : List Pair) → AreLinks self.now pairs
            → items.items ≡ shortest_cycle self.now.count pairs item) }
        ensures within { IfOk result (λ items. (k : ℕ) → has_number items.items k ≡ true → k < self.now.count) }
    {
        let mut layers = Vec::new(alloc);
        layers.push(self.only(alloc, item)?)?;
        for length in 0..self.count() {
            let layer = self.leading_into(alloc, &layers[length])?;
            if layer.has(item) {
                let items = self.walk(alloc, &layers, length, item)?;
                return Ok(items);
            }
            layers.push(layer)?;
        }
        Ok(Vec::new(alloc))
    }

    /// The set of one item.
    fn only(&self, alloc: Global, item: usize) -> Result<Bits, Memory>
        requires { item < self.now.count }
        ensures wide { IfOk result (λ set. length set ≡ words_for self.now.count) }
        ensures set { IfOk result (λ set. (u : ℕ) → has set u ≡ nat_eq item u) }
    {
        let mut set = Bits::new(alloc, self.count())?;
        set.insert(item);
        Ok(set)
    }

    /// The items that lead to one of the set.
    #[tactic(auto, using(crate::proofs::CycleLemmas::into_start, crate::proofs::CycleLemmas::into_next, crate::proofs::CycleLemmas::into_all))]
    fn leading_into(&self, alloc: Global, set: &Bits) -> Result<Bits, Memory>
        requires { length set.now ≡ words_for self.now.count }
        ensures wide { IfOk result (λ found. length found ≡ words_for self.now.count) }
        ensures set { IfOk result (λ found. (u : ℕ) → u < self.now.count
            → has found u ≡ is_some (first_into self.now set.now u)) }
    {
        let mut found = Bits::new(alloc, self.count())?;
        for item in 0..self.count() {
            let on = self.first_into(item, set).is_some();
            found.set(item, on);
        }
        Ok(found)
    }

    /// The walk of so many links from an item, by the layers: at each turn the first item that leads on.
    #[tactic(auto, using(crate::proofs::CycleLemmas::walk_start, crate::proofs::CycleLemmas::walk_on, crate::proofs::CycleLemmas::walk_off, crate::proofs::CycleLemmas::walk_end, crate::proofs::CycleLemmas::more_within))]
    fn walk(
        &self,
        alloc: Global,
        layers: &[Bits],
        links: usize,
        item: usize,
    ) -> Result<Vec<usize>, Memory>
        requires item { item < self.now.count }
        requires layers { AreLayers self.now item layers.now (links + 1) }
        ensures walk { IfOk result (λ items. items.items ≡ walk_by self.now item links item) }
        ensures within { IfOk result (λ items. (k : ℕ) → has_number items.items k ≡ true → k < self.now.count) }
    {
        let mut items = Vec::new(alloc);
        let mut at = item;
        for layer in (0..links).rev() {
            items.push(at)?;
            let Some(next) = self.first_into(at, &layers[layer + 1]) else {
                return Ok(items);
            };
            at = next;
        }
        items.push(at)?;
        Ok(items)
    }
}
