ghost use Rattle.std.specs.Prelude.{◌≡◌, ℕ, ◌+◌, ◌<◌, List, Bool, true, false, ◌&&◌, ◌||◌, not, nat_eq, nat_lt, length, OnOk, IfOk};
ghost use Rattle.tf_numbers.specs.Numbers.{Pair, has_pair, has_number};
ghost use Rattle.tf_links.specs.Graphs.{standing_items};
ghost use Rattle.tf_links.specs.Bits.{has, words_for};
ghost use Rattle.tf_links.specs.Links.{leads, AreLinks, is_ready, AreReady, Taken};

use crate::bits::Bits;
use crate::links::Links;
use std::alloc::Global;
use tf_values::Memory;

impl Links {
    /// The items in standing order: again and again the first item such that all that lead to it were
    /// taken. Items on a cycle, and those behind one, are left out.
    #[tactic(auto, using(crate::proofs::StandingLemmas::taken_none))]
    pub fn standing(&self, alloc: Global) -> Result<Vec<usize>, Memory>
        ensures { IfOk result (λ taken. (pairs : List Pair) → AreLinks self.now pairs
            → taken.items ≡ standing_items self.now.count pairs) }
    {
        let mut taken = Vec::new(alloc);
        let mut done = Bits::new(alloc, self.count())?;
        let mut ready = self.first_ready(alloc, &done)?;
        for _ in 0..self.count() {
            self.take_first(alloc, &mut taken, &mut done, &mut ready)?;
        }
        Ok(taken)
    }

    /// The items that may be taken at the start.
    #[tactic(auto, using(crate::proofs::StandingLemmas::ready_start, crate::proofs::StandingLemmas::ready_more, crate::proofs::StandingLemmas::ready_all))]
    fn first_ready(&self, alloc: Global, done: &Bits) -> Result<Bits, Memory>
        requires wide { length done.now ≡ words_for self.now.count }
        ensures wide { IfOk result (λ ready. length ready ≡ words_for self.now.count) }
        ensures ready { IfOk result (λ ready. AreReady self.now done.now ready) }
    {
        let mut ready = Bits::new(alloc, self.count())?;
        for item in 0..self.count() {
            let on = self.is_ready(item, done);
            ready.set(item, on);
        }
        Ok(ready)
    }

    /// Takes the first item that may be taken, where there is one.
    #[tactic(auto, using(crate::proofs::StandingLemmas::taken_over, crate::proofs::StandingLemmas::taken_more, crate::proofs::StandingLemmas::taken_below))]
    fn take_first(
        &self,
        alloc: Global,
        taken: &mut Vec<usize>,
        done: &mut Bits,
        ready: &mut Bits,
    ) -> Result<(), Memory>
        requires done_wide { length done.old ≡ words_for self.now.count }
        requires wide { length ready.old ≡ words_for self.now.count }
        requires ready { AreReady self.now done.old ready.old }
        ensures { OnOk result ((rounds : ℕ) → Taken self.now done.old ready.old taken.old.items rounds
            → Taken self.now done.new ready.new taken.new.items (rounds + 1)) }
    {
        let Some(item) = ready.first() else {
            return Ok(());
        };
        taken.push(item)?;
        self.take(alloc, item, done, ready)?;
        Ok(())
    }

    /// Takes an item: what it leads to may be ready then.
    #[tactic(auto, using(crate::proofs::StandingLemmas::seen_start, crate::proofs::StandingLemmas::seen_more, crate::proofs::StandingLemmas::seen_all, crate::proofs::StandingLemmas::next_within))]
    fn take(
        &self,
        alloc: Global,
        item: usize,
        done: &mut Bits,
        ready: &mut Bits,
    ) -> Result<(), Memory>
        requires item { item < self.now.count }
        requires done_wide { length done.old ≡ words_for self.now.count }
        requires wide { length ready.old ≡ words_for self.now.count }
        requires ready { AreReady self.now done.old ready.old }
        ensures done_wide { OnOk result (length done.new ≡ words_for self.now.count) }
        ensures wide { OnOk result (length ready.new ≡ words_for self.now.count) }
        ensures done { OnOk result ((k : ℕ) → has done.new k ≡ (nat_eq item k || has done.old k)) }
        ensures ready { OnOk result (AreReady self.now done.new ready.new) }
    {
        ready.remove(item);
        done.insert(item);
        let nexts = self.led_to(alloc, item)?;
        for next in &nexts {
            let on = self.is_ready(*next, done);
            ready.set(*next, on);
        }
        Ok(())
    }
}
