ghost use Rattle.std.specs.Prelude.{◌≡◌, ◌<◌, ◌≤◌, ◌&&◌, ℕ, Some, None, IfOk, length, option_map, nat_eq, if◌then◌else◌};
ghost use Rattle.tf_states.specs.declared.record.Payload.{Payload as PayloadValue};
ghost use Rattle.tf_states.specs.declared.record.What.TheVariants.{Atom as atom_enters};
ghost use Rattle.tf_states.specs.declared.state.FlowState.TheVariants.{Pending as pending_flow};
ghost use Rattle.tf_model.specs.Plan.{outline_of, count, is_task};
ghost use Rattle.tf_model.specs.History.{later, is_at_work, state_after, payload_after, held_after, attempts_in, attempts_after};
ghost use Rattle.tf_model.specs.Steps.{Step};
ghost use Rattle.tf_hands.specs.Hands.{FlightFacts, is_with};
ghost use Rattle.tf_model.specs.Readiness.{is_unmarked, is_to_revert};
ghost use Rattle.tf_model.specs.Forced.{is_marked_again};
ghost use Rattle.tf_machine.specs.Tables.{shown_by, resolve_of};
ghost use Rattle.tf_machine.specs.Counts.{HasCounters};
ghost use Rattle.tf_machine.specs.Worklists.{AreMarksHeld};
ghost use Rattle.tf_machine.specs.Changes.{first_views, first_places, entered_view, entered_place, ArePlacesHeld, AreChanged, Stays, changed, turned, cleared, marked, begun};

use crate::compiled::{Compiled, Span};
use crate::counters::Counters;
use crate::states::{flow_rests, flow_resumes, is_at_work, is_running};
use std::alloc::Global;
use tf_states::{AtomState, AtomView, Entry, FlowState, Kind, Payload, What};
use tf_values::Memory;

/// The resolve that an atom's mark comes from.
#[derive(Clone, Copy, Debug)]
pub struct Mark {
    pub flow: u16,
    pub kind: Kind,
}

/// What is kept of an atom beside its view: its mark, the hand that has it in flight, and its attempts.
#[derive(Clone, Copy, Debug)]
pub struct Place {
    pub mark: Option<Mark>,
    pub hand: Option<u8>,
    pub attempts: u32,
}

/// What an entry changes in the places of all atoms.
#[derive(Clone, Copy, Debug)]
pub enum Change {
    /// Nothing is in flight any more.
    Release,
    /// No mark is left.
    Unmark,
    /// A retry controller of this flow begins another attempt: the marks of the flow's resolve to run again
    /// are gone.
    Begin(Option<usize>),
    /// What the mark's flow holds is marked.
    Resolve(Mark),
}

/// A view and a place for each atom, the flow's state, and the counters of each atom.
#[derive(Drop)]
pub struct Tables {
    pub views: Vec<AtomView>,
    pub places: Vec<Place>,
    pub flow: FlowState,
    pub counters: Counters,
}

impl Tables {
    /// The tables of a plan before a run.
    pub fn make(alloc: Global, compiled: &Compiled) -> Result<Tables, Memory>
        ensures views { IfOk result (λ tables. tables.views.items ≡ first_views (count (outline_of compiled.now))) }
        ensures places { IfOk result (λ tables. tables.places.items ≡ first_places (count (outline_of compiled.now))) }
        ensures flow { IfOk result (λ tables. tables.flow ≡ pending_flow) }
        ensures counted { IfOk result (HasCounters (outline_of compiled.now)) }
    {
        let counters = Counters::make(alloc, compiled)?;
        let mut views = Vec::new(alloc);
        let mut places = Vec::new(alloc);
        for _atom in 0..compiled.atoms() {
            views.push(AtomView {
                state: AtomState::Pending,
                payload: Payload::Empty,
            })?;
            places.push(Place {
                mark: None,
                hand: None,
                attempts: 0,
            })?;
        }
        Ok(Tables {
            views,
            places,
            flow: FlowState::Pending,
            counters,
        })
    }

    /// The state of an atom.
    pub fn state(&self, atom: u16) -> AtomState
        ensures { result ≡ (shown_by self.now).state atom }
    {
        match self.views.get(atom as usize) {
            Some(view) => view.state,
            None => AtomState::Pending,
        }
    }

    /// The hand that has an atom in flight.
    pub fn hand(&self, atom: u16) -> Option<u8>
        ensures { result ≡ (shown_by self.now).hand atom }
    {
        match self.places.get(atom as usize) {
            Some(place) => place.hand,
            None => None,
        }
    }

    /// Whether the hand has an atom in flight.
    pub fn is_with(&self, hand: u8, atom: u16) -> bool
        ensures { result ≡ is_with (shown_by self.now) hand atom }
    {
        match self.hand(atom) {
            Some(other) => other == hand,
            None => false,
        }
    }

    /// The mark of an atom; none is EXECUTE.
    pub fn mark(&self, atom: u16) -> Option<Mark>
        ensures { option_map resolve_of result ≡ (shown_by self.now).mark atom }
    {
        match self.places.get(atom as usize) {
            Some(place) => place.mark,
            None => None,
        }
    }

    /// The attempts of an atom.
    pub fn attempts(&self, atom: u16) -> u32
        ensures { result ≡ (shown_by self.now).attempts atom }
    {
        match self.places.get(atom as usize) {
            Some(place) => place.attempts,
            None => 0,
        }
    }

    /// Whether an atom's mark is EXECUTE.
    pub fn is_unmarked(&self, atom: u16) -> bool
        ensures { result ≡ is_unmarked (shown_by self.now) atom }
    {
        match self.places.get(atom as usize) {
            Some(place) => place.mark.is_none(),
            None => true,
        }
    }

    /// Whether an atom's mark is REVERT.
    pub fn is_to_revert(&self, atom: u16) -> bool
        ensures { result ≡ is_to_revert ((shown_by self.now).mark atom) }
    {
        match self.places.get(atom as usize) {
            Some(place) => match &place.mark {
                Some(mark) => !matches!(mark.kind, Kind::Retry),
                None => false,
            },
            None => false,
        }
    }

    /// Records an entry that may follow. It takes no memory.
    pub fn record(&mut self, compiled: &Compiled, entry: Entry)
        requires facts { FlightFacts (outline_of compiled.now) (shown_by self.old) }
        requires few { (a : ℕ) → (shown_by self.old).attempts a < 65536 }
        requires views { length self.old.views.items ≡ count (outline_of compiled.now) }
        requires places { length self.old.places.items ≡ count (outline_of compiled.now) }
        requires counted { HasCounters (outline_of compiled.now) self.old }
        requires marked { AreMarksHeld (outline_of compiled.now) (shown_by self.old) }
        requires step { Step (outline_of compiled.now) (shown_by self.old) entry }
        ensures moved { shown_by self.new ≡ later (outline_of compiled.now) entry (shown_by self.old) }
        ensures views { length self.new.views.items ≡ length self.old.views.items }
        ensures places { length self.new.places.items ≡ length self.old.places.items }
        ensures counted { HasCounters (outline_of compiled.now) self.new }
    {
        let Entry { hand, what } = entry;
        match what {
            What::Atom {
                atom,
                state,
                payload,
            } => {
                let from = self.state(atom);
                let taken = taken_by(compiled, hand, atom, state);
                self.enter(atom, state, payload, taken);
                self.counters.follow(compiled, atom, from, state);
                clear_each(compiled, &mut self.places, atom, state)
            }
            What::Flow(state) => {
                turn_each(compiled, &mut self.places, state);
                self.flow = state;
            }
            What::Resolve { flow, kind } => {
                let mark = Mark { flow, kind };
                change_each(compiled, &mut self.places, Change::Resolve(mark))
            }
            What::Restart(atom) => self.take(hand, atom),
        }
    }

    /// An atom enters a state, with what it carries and the hand that has it in flight then.
    fn enter(&mut self, atom: u16, state: AtomState, payload: Payload, hand: Option<u8>)
        requires view { atom < length self.old.views.items }
        requires place { atom < length self.old.places.items }
        requires few { (shown_by self.old).attempts atom < 65536 }
        ensures state { (a : ℕ) → (shown_by self.new).state a
            ≡ state_after (atom_enters atom state payload) a ((shown_by self.old).state a) }
        ensures payload { (a : ℕ) → (shown_by self.new).payload a
            ≡ payload_after (atom_enters atom state payload) a ((shown_by self.old).state a)
            ((shown_by self.old).payload a) }
        ensures hand { (a : ℕ)
            → (shown_by self.new).hand a ≡ (if nat_eq atom a then hand else (shown_by self.old).hand a) }
        ensures mark { (a : ℕ) → (shown_by self.new).mark a ≡ (shown_by self.old).mark a }
        ensures attempts { (a : ℕ) → (shown_by self.new).attempts a
            ≡ attempts_after (atom_enters atom state payload) a ((shown_by self.old).attempts a) }
        ensures flow { self.new.flow ≡ self.old.flow }
        ensures counters { self.new.counters ≡ self.old.counters }
        ensures views { length self.new.views.items ≡ length self.old.views.items }
        ensures places { length self.new.places.items ≡ length self.old.places.items }
    {
        enter_view(&mut self.views[atom as usize], state, payload);
        enter_place(&mut self.places[atom as usize], state, hand);
    }

    /// A hand takes up an atom again.
    fn take(&mut self, hand: u8, atom: u16)
        requires place { atom < length self.old.places.items }
        ensures hand { (a : ℕ)
            → (shown_by self.new).hand a ≡ (if nat_eq atom a then Some hand else (shown_by self.old).hand a) }
        ensures mark { (a : ℕ) → (shown_by self.new).mark a ≡ (shown_by self.old).mark a }
        ensures attempts { (a : ℕ) → (shown_by self.new).attempts a ≡ (shown_by self.old).attempts a }
        ensures views { self.new.views.items ≡ self.old.views.items }
        ensures flow { self.new.flow ≡ self.old.flow }
        ensures counters { self.new.counters ≡ self.old.counters }
        ensures places { length self.new.places.items ≡ length self.old.places.items }
    {
        self.places[atom as usize].hand = Some(hand);
    }
}

/// The hand that has an atom in flight after it entered a state.
fn taken_by(compiled: &Compiled, hand: u8, atom: u16, state: AtomState) -> Option<u8>
    ensures { result ≡ (if is_task (outline_of compiled.now) atom && is_at_work state then Some hand else None) }
{
    if compiled.is_task(atom) && is_at_work(state) {
        Some(hand)
    } else {
        None
    }
}

/// The atom of this view enters a state.
fn enter_view(view: &mut AtomView, state: AtomState, payload: Payload)
    ensures { view.new ≡ entered_view state payload view.old }
{
    if keeps_payload(view.state, state) {
        view.state = state;
        return;
    }
    *view = AtomView { state, payload };
}

/// The atom of this place enters a state, in which the hand has it in flight.
fn enter_place(place: &mut Place, state: AtomState, hand: Option<u8>)
    requires few { place.old.attempts < 65536 }
    ensures { place.new ≡ entered_place state hand place.old }
{
    place.hand = hand;
    place.attempts = attempts_in(state, place.attempts);
}

/// Whether the payload of a retry controller in the first state stays as it enters the second.
fn keeps_payload(before: AtomState, state: AtomState) -> bool
    ensures { (held old : PayloadValue) → held_after state held before old ≡ (if result then old else held) }
{
    match state {
        AtomState::Retrying => true,
        AtomState::Running => matches!(before, AtomState::Retrying),
        _ => false,
    }
}

/// An atom's attempts after it entered a state.
fn attempts_in(state: AtomState, before: u32) -> u32
    requires few { before < 65536 }
    ensures { result ≡ attempts_in state before }
{
    match state {
        AtomState::Pending => 0,
        AtomState::Success => before + 1,
        _ => before,
    }
}

/// An atom enters a state: where it is a retry controller that begins to run, the marks of its own flow's
/// resolve to run again are gone.
fn clear_each(compiled: &Compiled, places: &mut [Place], atom: u16, state: AtomState)
    requires count { length places.old ≡ count (outline_of compiled.now) }
    requires marked { ArePlacesHeld (outline_of compiled.now) places.old }
    ensures { AreChanged (λ a. cleared (outline_of compiled.now) atom state) places.old places.new }
{
    if !is_running(state) || !compiled.is_retry(atom) {
        return;
    }
    change_each(compiled, places, Change::Begin(compiled.own_flow(atom)))
}

/// The flow enters a state: as it becomes RESUMING nothing is in flight any more, and as it becomes
/// PENDING no mark is left.
fn turn_each(compiled: &Compiled, places: &mut [Place], state: FlowState)
    requires count { length places.old ≡ count (outline_of compiled.now) }
    requires marked { ArePlacesHeld (outline_of compiled.now) places.old }
    ensures { AreChanged (λ a. turned state) places.old places.new }
{
    if flow_resumes(state) {
        change_each(compiled, places, Change::Release);
        return;
    }
    if flow_rests(state) {
        change_each(compiled, places, Change::Unmark)
    }
}

/// Changes the place of each atom. Those outside a span stay as they are, and aren't looked at.
fn change_each(compiled: &Compiled, places: &mut [Place], change: Change)
    requires count { length places.old ≡ count (outline_of compiled.now) }
    requires marked { ArePlacesHeld (outline_of compiled.now) places.old }
    ensures { AreChanged (changed (outline_of compiled.now) change) places.old places.new }
{
    let span = reach_of(compiled, change);
    for atom in span.first..span.end {
        let place = places[atom as usize];
        places[atom as usize] = changed(compiled, change, atom, place);
    }
}

/// The atoms whose places a change may change.
#[tactic(auto, using(crate::proofs::ChangeLemmas::stays_whole))]
fn reach_of(compiled: &Compiled, change: Change) -> Span
    ensures within { result.end ≤ count (outline_of compiled.now) }
    ensures others { Stays (outline_of compiled.now) change result }
{
    match change {
        Change::Release | Change::Unmark => Span {
            first: 0,
            end: compiled.atoms(),
        },
        Change::Begin(own) => compiled.span_of(own),
        Change::Resolve(mark) => compiled.span(mark.flow as usize),
    }
}

/// What a change makes of the place of an atom.
fn changed(compiled: &Compiled, change: Change, atom: u16, place: Place) -> Place
    ensures { result ≡ changed (outline_of compiled.now) change atom place }
{
    match change {
        Change::Release => Place {
            hand: None,
            ..place
        },
        Change::Unmark => marked(None, place),
        Change::Begin(own) => begun(own, place),
        Change::Resolve(mark) => {
            if compiled.holds(mark.flow as usize, atom) {
                marked(Some(mark), place)
            } else {
                place
            }
        }
    }
}

/// A place with another mark.
fn marked(mark: Option<Mark>, place: Place) -> Place
    ensures { result ≡ marked mark place }
{
    Place { mark, ..place }
}

/// A place after a retry controller of this flow began another attempt.
fn begun(own: Option<usize>, place: Place) -> Place
    ensures { result ≡ begun own place }
{
    if is_marked_again(own, place.mark) {
        marked(None, place)
    } else {
        place
    }
}

/// Whether a mark comes from a resolve to run this flow again.
pub fn is_marked_again(own: Option<usize>, mark: Option<Mark>) -> bool
    ensures { result ≡ is_marked_again own (option_map resolve_of mark) }
{
    match (own, mark) {
        (Some(own), Some(mark)) => matches!(mark.kind, Kind::Retry) && own == mark.flow as usize,
        _ => false,
    }
}
