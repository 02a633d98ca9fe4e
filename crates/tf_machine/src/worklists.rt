//! Where the next entry is looked for.
ghost use Rattle.std.specs.Prelude.{◌≡◌, ◌<◌, ◌≤◌, ◌⊎◌, ◌&&◌, ℕ, true, false, IfOk, nat_eq, Option, None};
ghost use Rattle.tf_numbers.specs.Numbers.{has_number};
ghost use Rattle.tf_links.specs.Bits.{has};
ghost use Rattle.tf_model.specs.Plan.{outline_of, count, is_retry};
ghost use Rattle.tf_model.specs.Readiness.{can_run, refused};
ghost use Rattle.tf_model.specs.History.{Snapshot, later, is_running};
ghost use Rattle.tf_machine.specs.Counts.{HasCounters, AreDistinct};
ghost use Rattle.tf_machine.specs.Tables.{shown_by};
ghost use Rattle.tf_machine.specs.Cases as specs;
ghost use Rattle.tf_machine.specs.Cases.{is_asked_again};
ghost use Rattle.tf_machine.specs.declared.cases.Case.{Case as AnyCase};
ghost use Rattle.tf_machine.specs.Compiled.{IsSpanAround};
ghost use Rattle.tf_machine.specs.Intervals.{AreApart};
ghost use Rattle.tf_machine.specs.Worklists.{IsListed, ListedAt, SameAt, HasRoom, AreMoved, AreMarksHeld, IsMovedAt, IsListedWithin, AreRelisted, is_reached, counts_in, event};

use crate::candidates::is_candidate;
use crate::cases::{case_at, is_asked_again};
use crate::compiled::{Compiled, Span};
use crate::forcing::are_unhurt;
use crate::intervals::{interval_end, next_zero};
use crate::readiness::can_run;
use crate::states::{is_done, is_revert_failure, is_running, is_settled};
use crate::tables::Tables;
use std::alloc::Global;
use tf_links::Bits;
use tf_states::{AtomState, What};
use tf_values::Memory;

/// The atoms to which a case may apply, the tasks that may be taken up, and those that may be in flight: past these sets
/// nothing is to be found. And whether an atom may be REVERT_FAILURE.
#[derive(Drop)]
pub struct Worklist {
    pub forcing: Bits,
    pub ready: Bits,
    pub busy: Bits,
    pub hurt: bool,
}

/// Of which atoms an entry may change what is to be done with them.
#[derive(Clone, Copy, Debug)]
pub enum Extent {
    /// Of all.
    All,
    /// Of this atom, whose state and hand alone it changes, and of those before it and after it.
    Around(u16),
    /// Of those that this flow holds, whose marks alone it changes.
    Flow(u16),
    /// Of this retry controller, whose state it changes, of those of its own flow, whose marks it changes, and of those before it and after it.
    Begin(u16),
}

/// Why an atom may have become able to do something.
#[derive(Clone, Copy, Debug)]
pub enum Reach {
    /// One before it is done with, so that it may run.
    Run,
    /// One after it is settled, so that it may revert, or run its flow again.
    Revert,
}

/// Of which atoms this entry may change what is to be done with them.
pub fn extent_of(compiled: &Compiled, what: &What) -> Extent
    ensures { (s : Snapshot) (hand : ℕ) → AreMarksHeld (outline_of compiled.now) s
        → AreMoved (outline_of compiled.now) s result (later (outline_of compiled.now) (event hand what.now) s) }
{
    match what {
        What::Atom { atom, state, .. } => {
            if begins_attempt(compiled, *atom, *state) {
                Extent::Begin(*atom)
            } else {
                Extent::Around(*atom)
            }
        }
        What::Flow(_) => Extent::All,
        What::Resolve { flow, .. } => Extent::Flow(*flow),
        What::Restart(atom) => Extent::Around(*atom),
    }
}

/// Whether an atom that enters a state is a retry controller that begins to run, which changes marks.
fn begins_attempt(compiled: &Compiled, atom: u16, state: AtomState) -> bool
    ensures { result ≡ (is_running state && is_retry (outline_of compiled.now) atom) }
{
    is_running(state) && compiled.is_retry(atom)
}

impl Worklist {
    /// The worklist of a plan before a run. Every atom may have to be looked at.
    #[tactic(auto, using(crate::proofs::ListedLemmas::put_below, crate::proofs::ListedLemmas::all_put))]
    pub fn make(alloc: Global, compiled: &Compiled) -> Result<Worklist, Memory>
        ensures { IfOk result (λ list. (s : Snapshot) → IsListed (outline_of compiled.now) s list) }
    {
        let mut forcing = Bits::new(alloc, compiled.atoms() as usize)?;
        let mut ready = Bits::new(alloc, compiled.atoms() as usize)?;
        let mut busy = Bits::new(alloc, compiled.atoms() as usize)?;
        for atom in 0..compiled.atoms() {
            forcing.insert(atom as usize);
            ready.insert(atom as usize);
            busy.insert(atom as usize);
        }
        Ok(Worklist {
            forcing,
            ready,
            busy,
            hurt: true,
        })
    }

    /// An entry of this extent was recorded, after which the tables show what they do: the atoms of which it may have
    /// changed what is to be done with them are listed anew. It takes no memory.
    pub fn follow(&mut self, compiled: &Compiled, tables: &Tables, extent: Extent)
        requires counted { HasCounters (outline_of compiled.now) tables.now }
        requires room { HasRoom (outline_of compiled.now) self.old }
        ensures { (s : Snapshot) → IsListed (outline_of compiled.now) s self.old
            → AreMoved (outline_of compiled.now) s extent (shown_by tables.now)
            → IsListed (outline_of compiled.now) (shown_by tables.now) self.new }
    {
        match extent {
            Extent::All => self.list_all(compiled, tables),
            Extent::Around(atom) => self.list_around(compiled, tables, atom),
            Extent::Flow(flow) => self.list_span(compiled, tables, compiled.span(flow as usize)),
            Extent::Begin(atom) => {
                self.list_span(compiled, tables, compiled.span_around(atom));
                self.list_around(compiled, tables, atom);
            }
        }
    }

    /// Lists the atoms of a span as they are now.
    fn list_span(&mut self, compiled: &Compiled, tables: &Tables, span: Span)
        requires counted { HasCounters (outline_of compiled.now) tables.now }
        requires room { HasRoom (outline_of compiled.now) self.old }
        requires within { span.end ≤ count (outline_of compiled.now) }
        ensures { (flow : Option ℕ) → IsSpanAround (outline_of compiled.now) flow span
            → IsListedWithin (outline_of compiled.now) (shown_by tables.now) flow self.old self.new }
    {
        for atom in span.first..span.end {
            self.list(compiled, tables, atom);
        }
    }

    /// Lists every atom as it is now.
    #[tactic(auto, using(crate::proofs::ListedLemmas::none_listed))]
    fn list_all(&mut self, compiled: &Compiled, tables: &Tables)
        requires counted { HasCounters (outline_of compiled.now) tables.now }
        requires room { HasRoom (outline_of compiled.now) self.old }
        ensures { IsListed (outline_of compiled.now) (shown_by tables.now) self.new }
    {
        for atom in 0..compiled.atoms() {
            self.list(compiled, tables, atom);
        }
        self.hurt = !are_unhurt(compiled, tables);
    }

    /// Lists an atom whose state or hand changed, and those before it and after it. The atoms of a flow whose marks changed, too, are listed already.
    fn list_around(&mut self, compiled: &Compiled, tables: &Tables, atom: u16)
        requires counted { HasCounters (outline_of compiled.now) tables.now }
        requires room { HasRoom (outline_of compiled.now) self.old }
        ensures { (s : Snapshot) (flow : Option ℕ) (old : Worklist) → IsListed (outline_of compiled.now) s old
            → IsListedWithin (outline_of compiled.now) (shown_by tables.now) flow old self.old
            → IsMovedAt (outline_of compiled.now) atom flow s (shown_by tables.now)
            → IsListed (outline_of compiled.now) (shown_by tables.now) self.new }
    {
        let state = tables.state(atom);
        let after = compiled.successors(atom);
        self.list_each(compiled, tables, Reach::Run, is_done(state), after);
        let before = compiled.predecessors(atom);
        self.list_each(compiled, tables, Reach::Revert, is_settled(state), before);
        self.list_one(compiled, tables, atom);
        self.hurt = self.hurt | is_revert_failure(state);
    }

    /// Where they may be reached, lists those of these atoms that are. Those side by side are passed in one interval.
    #[tactic(auto, using(crate::proofs::ListedLemmas::none_so_far, crate::proofs::ListedLemmas::all_so_far, crate::proofs::WorkLemmas::moved_none))]
    fn list_each(
        &mut self,
        compiled: &Compiled,
        tables: &Tables,
        reach: Reach,
        may: bool,
        atoms: &[u16],
    )
        requires counted { HasCounters (outline_of compiled.now) tables.now }
        requires room { HasRoom (outline_of compiled.now) self.old }
        requires distinct { AreDistinct atoms.now }
        requires apart { AreApart atoms.now }
        requires within { (a : ℕ) → has_number atoms.now a ≡ true → a < count (outline_of compiled.now) }
        ensures room { HasRoom (outline_of compiled.now) self.new }
        ensures hurt { self.new.hurt ≡ self.old.hurt }
        ensures moved { (a : ℕ) → SameAt self.old self.new a
            ⊎ ListedAt (outline_of compiled.now) (shown_by tables.now) self.new a }
        ensures reached { (a : ℕ) → may ≡ true → has_number atoms.now a ≡ true
            → is_reached (outline_of compiled.now) (shown_by tables.now) reach a ≡ true
            → ListedAt (outline_of compiled.now) (shown_by tables.now) self.new a }
    {
        if !may {
            return;
        }
        let mut start = 0;
        while start < atoms.len() {
            let end = interval_end(atoms, start);
            let first = atoms[start] as usize;
            self.list_interval(compiled, tables, reach, first, first + (end - start));
            start = end;
        }
    }

    /// Lists those that may be reached of the atoms from one on and before another.
    fn list_interval(
        &mut self,
        compiled: &Compiled,
        tables: &Tables,
        reach: Reach,
        first: usize,
        past: usize,
    )
        requires counted { HasCounters (outline_of compiled.now) tables.now }
        requires room { HasRoom (outline_of compiled.now) self.old }
        requires order { first ≤ past }
        requires within { past ≤ count (outline_of compiled.now) }
        ensures { AreRelisted (outline_of compiled.now) (shown_by tables.now) reach first past self.old self.new }
    {
        compiled.atoms();
        let counts = counts_of(tables, reach);
        let mut atom = next_zero(counts, first, past);
        while atom < past {
            self.list(compiled, tables, atom as u16);
            atom = next_zero(counts, atom + 1, past);
        }
    }

    /// Lists an atom as it is now, if it is one of the plan.
    fn list_one(&mut self, compiled: &Compiled, tables: &Tables, atom: u16)
        requires counted { HasCounters (outline_of compiled.now) tables.now }
        requires room { HasRoom (outline_of compiled.now) self.old }
        ensures room { HasRoom (outline_of compiled.now) self.new }
        ensures hurt { self.new.hurt ≡ self.old.hurt }
        ensures here { atom < count (outline_of compiled.now)
            → ListedAt (outline_of compiled.now) (shown_by tables.now) self.new atom }
        ensures others { (a : ℕ) → nat_eq atom a ≡ false → SameAt self.old self.new a }
    {
        if atom < compiled.atoms() {
            self.list(compiled, tables, atom);
        }
    }

    /// Lists an atom as it is now.
    fn list(&mut self, compiled: &Compiled, tables: &Tables, atom: u16)
        requires counted { HasCounters (outline_of compiled.now) tables.now }
        requires room { HasRoom (outline_of compiled.now) self.old }
        requires atom { atom < count (outline_of compiled.now) }
        ensures room { HasRoom (outline_of compiled.now) self.new }
        ensures hurt { self.new.hurt ≡ self.old.hurt }
        ensures here { ListedAt (outline_of compiled.now) (shown_by tables.now) self.new atom }
        ensures others { (a : ℕ) → nat_eq atom a ≡ false → SameAt self.old self.new a }
    {
        let is_forcing = may_be_forced(compiled, tables, atom);
        let is_ready = is_candidate(compiled, tables, atom);
        let is_busy = tables.hand(atom).is_some();
        self.forcing.set(atom as usize, is_forcing);
        self.ready.set(atom as usize, is_ready);
        self.busy.set(atom as usize, is_busy);
    }
}

/// The counters by which it is told whether an atom may be reached so: none of the others is in the way where it is zero.
fn counts_of(tables: &Tables, reach: Reach) -> &[u16]
    ensures { result.now ≡ counts_in reach tables.now.counters }
{
    match reach {
        Reach::Run => &tables.counters.waiting,
        Reach::Revert => &tables.counters.holding,
    }
}

/// Whether a case applies to an atom, or may come to apply to it while it can run.
#[tactic(auto, using(crate::proofs::WorkLemmas::no_case_told))]
fn may_be_forced(compiled: &Compiled, tables: &Tables, atom: u16) -> bool
    requires counted { HasCounters (outline_of compiled.now) tables.now }
    requires atom { atom < count (outline_of compiled.now) }
    ensures cases { result ≡ false → (k : AnyCase)
        → specs.applies (outline_of compiled.now) (shown_by tables.now) k atom ≡ false }
    ensures never { result ≡ false → can_run (outline_of compiled.now) (shown_by tables.now) atom ≡ true
        → (s : Snapshot) → refused (outline_of compiled.now) s atom ≡ None }
    ensures again { result ≡ false → is_asked_again (outline_of compiled.now) (shown_by tables.now) atom ≡ false }
{
    if compiled.is_decided(atom) && can_run(compiled, tables, atom) {
        return true;
    }
    if is_asked_again(compiled, tables, atom) {
        return true;
    }
    case_at(compiled, tables, atom).is_some()
}

/// The least number of a set below a count; the count where it has none.
#[tactic(auto, using(tf_numbers::proofs::BelowLemmas::first_before, crate::proofs::ListedLemmas::nothing_in))]
pub fn first_of(set: &Bits, count: u16) -> u16
    ensures within { result ≤ count }
    ensures before { (a : ℕ) → a < result → has set.now a ≡ false }
{
    match set.first() {
        Some(first) => {
            if first < count as usize {
                first as u16
            } else {
                count
            }
        }
        None => count,
    }
}
