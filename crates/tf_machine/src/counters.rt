ghost use Rattle.std.specs.Prelude.{◌≡◌, ◌<◌, ◌≤◌, ℕ, true, IfOk, length, nat_eq, slice_get, if◌then◌else◌};
ghost use Rattle.tf_numbers.specs.Numbers.{has_number};
ghost use Rattle.tf_states.specs.declared.state.AtomState.TheVariants.{Pending as pending};
ghost use Rattle.tf_model.specs.Plan.{Outline, outline_of, count};
ghost use Rattle.tf_model.specs.History.{Snapshot};
ghost use Rattle.tf_machine.specs.Intervals.{AreApart, AreSteppedFrom};
ghost use Rattle.tf_machine.specs.Counts.{AreCounted, AreDistinct, after_steps, after_turn, stepped, waiting_of, holding_of};

use crate::compiled::Compiled;
use crate::intervals::interval_end;
use crate::states::{is_done, is_settled};
use std::alloc::Global;
use tf_states::AtomState;
use tf_values::Memory;

/// Of each atom how many atoms before it are neither SUCCESS nor IGNORE, and how many atoms after it
/// aren't settled.
#[derive(Drop)]
pub struct Counters {
    pub waiting: Vec<u16>,
    pub holding: Vec<u16>,
}

impl Counters {
    /// The counters of a plan before a run.
    #[tactic(auto, using(crate::proofs::CountLemmas::none_counted, crate::proofs::CountLemmas::one_counted, crate::proofs::CountLemmas::all_counted))]
    pub fn make(alloc: Global, compiled: &Compiled) -> Result<Counters, Memory>
        ensures { IfOk result (λ counters. (s : Snapshot) → ((a : ℕ) → s.state a ≡ pending)
            → AreCounted (outline_of compiled.now) s counters) }
    {
        let mut waiting = Vec::new(alloc);
        let mut holding = Vec::new(alloc);
        for atom in 0..compiled.atoms() {
            waiting.push(compiled.predecessors(atom).len() as u16)?;
            holding.push(0)?;
        }
        Ok(Counters { waiting, holding })
    }

    /// How many atoms before an atom are neither SUCCESS nor IGNORE.
    pub fn waiting(&self, atom: u16) -> u16
        ensures { (plan : Outline) (s : Snapshot) → AreCounted plan s self.now → atom < count plan
            → result ≡ waiting_of plan s atom }
    {
        match self.waiting.get(atom as usize) {
            Some(count) => *count,
            None => 0,
        }
    }

    /// How many atoms after an atom aren't settled.
    pub fn holding(&self, atom: u16) -> u16
        ensures { (plan : Outline) (s : Snapshot) → AreCounted plan s self.now → atom < count plan
            → result ≡ holding_of plan s atom }
    {
        match self.holding.get(atom as usize) {
            Some(count) => *count,
            None => 0,
        }
    }

    /// An atom goes from one state to another: the numbers of the atoms after it change where it becomes done with or is so
    /// no more, and those of the atoms before it where it becomes settled or is so no more. It takes no memory.
    pub fn follow(&mut self, compiled: &Compiled, atom: u16, from: AtomState, to: AtomState)
        requires waiting { length self.old.waiting.items ≡ count (outline_of compiled.now) }
        requires holding { length self.old.holding.items ≡ count (outline_of compiled.now) }
        ensures { (s t : Snapshot) → AreCounted (outline_of compiled.now) s self.old → s.state atom ≡ from
            → ((a : ℕ) → t.state a ≡ (if nat_eq atom a then to else s.state a))
            → AreCounted (outline_of compiled.now) t self.new }
    {
        compiled.atoms();
        turn_each(
            is_done(from),
            is_done(to),
            compiled.successors(atom),
            &mut self.waiting,
        );
        turn_each(
            is_settled(from),
            is_settled(to),
            compiled.predecessors(atom),
            &mut self.holding,
        );
    }
}

/// Where a truth turned, the number of each of these atoms becomes one more, or one less where it is so now.
fn turn_each(was: bool, is: bool, atoms: &[u16], counts: &mut [u16])
    requires distinct { AreDistinct atoms.now }
    requires apart { AreApart atoms.now }
    requires within { (a : ℕ) → has_number atoms.now a ≡ true → a < length counts.old }
    ensures as_many { length counts.new ≡ length counts.old }
    ensures each { (a : ℕ) → slice_get counts.new a ≡ after_turn was is atoms.now counts.old a }
{
    if was == is {
        return;
    }
    step_each(was, atoms, counts);
}

/// The number of each of these atoms becomes one more, or one less. Those side by side are passed in one interval.
fn step_each(more: bool, atoms: &[u16], counts: &mut [u16])
    requires distinct { AreDistinct atoms.now }
    requires apart { AreApart atoms.now }
    requires within { (a : ℕ) → has_number atoms.now a ≡ true → a < length counts.old }
    ensures as_many { length counts.new ≡ length counts.old }
    ensures each { (a : ℕ) → slice_get counts.new a ≡ after_steps more atoms.now counts.old a }
{
    let mut start = 0;
    while start < atoms.len() {
        let end = interval_end(atoms, start);
        let first = atoms[start] as usize;
        step_interval(more, first, first + (end - start), counts);
        start = end;
    }
}

/// The numbers from a place on and before another become one more, or one less.
#[tactic(auto, using(crate::proofs::IntervalLemmas::none_from, crate::proofs::IntervalLemmas::one_from))]
fn step_interval(more: bool, first: usize, past: usize, counts: &mut [u16])
    requires order { first ≤ past }
    requires within { past ≤ length counts.old }
    ensures { AreSteppedFrom more first past counts.old counts.new }
{
    for place in first..past {
        counts[place] = stepped(more, counts[place]);
    }
}

/// One more, or one less.
fn stepped(more: bool, count: u16) -> u16
    ensures { result ≡ stepped more count }
{
    if more {
        count.saturating_add(1)
    } else {
        count.saturating_sub(1)
    }
}
