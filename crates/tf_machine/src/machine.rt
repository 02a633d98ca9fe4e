ghost use Rattle.std.specs.Prelude.{◌≡◌, ◌≢◌, ◌||◌, ◌<◌, ◌≤◌, ◌+◌, ℕ, List, [], ◌∷◌, true, false, None, Some, IfOk, IfErr, OnOk, OnErr, IfSome, IsSome, Ok, Err, option_map, is_some};
ghost use Rattle.tf_states.specs.declared.record.Entry.{Entry as Record};
ghost use Rattle.tf_states.specs.declared.record.What.{What as Event};
ghost use Rattle.tf_states.specs.declared.record.What.TheVariants.{Flow as flow_turns};
ghost use Rattle.tf_states.specs.declared.state.FlowState.TheVariants.{Running as running, Reverted as reverted, Resuming as resuming};
ghost use Rattle.tf_actions.specs.Gives.{IsWhole};
ghost use Rattle.tf_actions.specs.declared.outcomes.Outcome.{Outcome as Came};
ghost use Rattle.tf_actions.specs.declared.outcomes.Outcome.TheVariants.{Gave as given, Failed as failing};
ghost use Rattle.tf_model.specs.Plan.{compile_refusal, outline_of, count, is_task, entry_bound};
ghost use Rattle.tf_model.specs.Scope.{order_of, missing_symbol};
ghost use Rattle.tf_model.specs.History.{later, snapshot, flow_of, flow_runs, flow_suspends};
ghost use Rattle.tf_model.specs.Forced.{forced, choice, end_of};
ghost use Rattle.tf_model.specs.Steps.{Step, is_still};
ghost use Rattle.tf_facts.specs.Facts.{Facts, CompletedReversion};
ghost use Rattle.tf_machine.specs.declared.faults.ApplyFault.TheVariants.{NotAStep as refuses};
ghost use Rattle.tf_machine.specs.Answers.{views_of, IsBuildRefusal, IsBack};
ghost use Rattle.tf_hands.specs.Hands.{task_of, start_entry, action_in, end_by, ended_from};
ghost use Rattle.tf_machine.specs.Counts.{waiting_of, holding_of};
ghost use Rattle.tf_machine.specs.Machine.{outline, shown, StandsFor, HasHistory};
ghost use Rattle.tf_bound.specs.Owed.{left, left_later};
ghost use Rattle.tf_bound.specs.Short.{IsWithinLimits};

use crate::candidates::candidate;
use crate::compiled::Compiled;
use crate::ending::end_of;
use crate::faults::{ApplyFault, BuildFault};
use crate::forcing::forced;
use crate::orders::order;
use crate::steps::{is_step, is_still, task_of};
use crate::tables::Tables;
use crate::tries::tries_are_few;
use crate::worklists::{Worklist, extent_of};
use std::alloc::Global;
use std::marker::Model;
use tf_actions::{Order, Outcome};
use tf_bound::{event_is_short, plan_is_within_limits};
use tf_flow::Plan;
use tf_hands::Start;
use tf_states::{AtomState, AtomView, Entry, Failure, FlowState, Payload, What};
use tf_values::{Memory, Val};

/// The state of a run of a plan. It keeps no list of entries: it stands for each legal history of which
/// the rules of a run read what it shows, and there always is one. Contracts see the plan, the views,
/// what else is kept of each atom, and the flow's state.
#[derive(Drop)]
pub struct Machine {
    compiled: Compiled,
    tables: Tables,
    list: Worklist,
}

impl Model for Machine {
    ghost use Rattle.std.specs.Coded.{codes};
    ghost use Rattle.tf_flow.specs.contracts.nested.Flow as flow;
    ghost use Rattle.tf_machine.specs.Machine.{MachineValue, IsSoundWith};

    ghost Value = { MachineValue };

    ghost coded = { Prim.hlevel (codes, flow.the_row.coded) };

    ghost view = { λ m. record { plan = m.compiled; views = m.tables.views.items; places = m.tables.places.items; flow = m.tables.flow } };

    ghost invariant = { λ m. IsSoundWith (record {
      plan = m.compiled;
      views = m.tables.views.items;
      places = m.tables.places.items;
      flow = m.tables.flow;
    }) m.tables.counters m.list };
}

impl Machine {
    /// A machine before a run of this plan. The plan is refused as it is by compilation, and then where a
    /// symbol is missing. The machine has all the room that later calls need.
    pub fn make(alloc: Global, plan: Plan) -> Result<Machine, BuildFault>
        ensures given { IfOk result (λ machine. machine.plan ≡ plan) }
        ensures empty { IfOk result (λ machine. StandsFor machine []) }
        ensures accepted { OnOk result (compile_refusal plan ≡ None) }
        ensures complete { OnOk result (missing_symbol (outline_of plan) ≡ None) }
        ensures refused { IfErr result (IsBuildRefusal plan) }
    {
        plan_is_within_limits(&plan);
        tries_are_few(&plan);
        let compiled = Compiled::make(alloc, plan)?;
        let Ok(tables) = Tables::make(alloc, &compiled) else {
            return Err(BuildFault::Memory);
        };
        let Ok(list) = Worklist::make(alloc, &compiled) else {
            return Err(BuildFault::Memory);
        };
        Ok(Machine {
            compiled,
            tables,
            list,
        })
    }

    /// Appends an entry, if it may follow the history. Else it comes back, and the machine is as it was.
    /// Memory is wanted only to tell the entry that is forced.
    pub fn apply(&mut self, alloc: Global, entry: Entry) -> Result<(), ApplyFault>
        ensures plan { self.new.plan ≡ self.old.plan }
        ensures step { OnOk result (Step (outline self.old) (shown self.old) entry) }
        ensures moved { OnOk result (shown self.new ≡ later (outline self.old) entry (shown self.old)) }
        ensures stands { OnOk result ((past : List Record) → StandsFor self.old past
            → StandsFor self.new (entry ∷ past)) }
        ensures refused { (e : Record) → result ≡ Err (refuses e) → ¬ (Step (outline self.old) (shown self.old) entry) }
        ensures refused_after { (e : Record) → result ≡ Err (refuses e) → (past : List Record) → StandsFor self.old past
            → ¬ (Step (outline self.old) (snapshot (outline self.old) past) entry) }
        ensures back { IfErr result (IsBack entry) }
        ensures kept { OnErr result (self.new ≡ self.old) }
    {
        match self.is_step(alloc, &entry) {
            Err(_) => Err(ApplyFault::Memory(entry)),
            Ok(false) => Err(ApplyFault::NotAStep(entry)),
            Ok(true) => {
                self.advance(entry);
                Ok(())
            }
        }
    }

    /// Appends an entry that may follow the history. It takes no memory.
    pub fn advance(&mut self, entry: Entry)
        requires { Step (outline self.old) (shown self.old) entry }
        ensures plan { self.new.plan ≡ self.old.plan }
        ensures moved { shown self.new ≡ later (outline self.old) entry (shown self.old) }
        ensures stands { (past : List Record) → StandsFor self.old past → StandsFor self.new (entry ∷ past) }
        ensures less { flow_runs (shown self.old).flow || flow_suspends (shown self.old).flow ≡ true
            → entry.what ≢ flow_turns resuming
            → left self.new.plan (shown self.new) < left self.old.plan (shown self.old) }
    {
        event_is_short(&entry.what);
        let extent = extent_of(&self.compiled, &entry.what);
        self.tables.record(&self.compiled, entry);
        self.list.follow(&self.compiled, &self.tables, extent);
    }

    /// Appends the end of the task that the hand has in flight: after RUNNING it is SUCCESS with the
    /// value or FAILURE, after REVERTING it is REVERTED or REVERT_FAILURE. It takes no memory. Less of the
    /// run is to come then.
    pub fn settle(&mut self, hand: u8, outcome: Outcome)
        requires { IsSome (task_of (outline self.old) (shown self.old) hand) }
        ensures plan { self.new.plan ≡ self.old.plan }
        ensures step { (a : ℕ) → task_of (outline self.old) (shown self.old) hand ≡ Some a
            → Step (outline self.old) (shown self.old) (end_by (shown self.old) hand outcome a) }
        ensures moved { (a : ℕ) → task_of (outline self.old) (shown self.old) hand ≡ Some a
            → shown self.new ≡ later (outline self.old) (end_by (shown self.old) hand outcome a) (shown self.old) }
        ensures stands { (a : ℕ) → task_of (outline self.old) (shown self.old) hand ≡ Some a → (past : List Record)
            → StandsFor self.old past → StandsFor self.new (end_by (shown self.old) hand outcome a ∷ past) }
        ensures less { left self.new.plan (shown self.new) < left self.old.plan (shown self.old) }
    {
        let Some(atom) = self.in_flight(hand) else {
            unreachable!();
        };
        let what = ended_from(atom, self.state(atom), outcome);
        self.advance(Entry { hand, what });
    }

    /// The entry that must come next, if one must. After it less of the run is to come.
    pub fn forced(&self, alloc: Global) -> Result<Option<What>, Memory>
        ensures is { IfOk result (λ found. found ≡ forced (outline self.now) (shown self.now)) }
        ensures after { IfOk result (λ found. (past : List Record) → StandsFor self.now past
            → found ≡ forced (outline self.now) (snapshot (outline self.now) past)) }
        ensures less { IfOk result (λ found. (hand : ℕ) (w : Event) → found ≡ Some w
            → left_later self.now.plan hand w (shown self.now) < left self.now.plan (shown self.now)) }
    {
        let found = forced(alloc, &self.compiled, &self.tables, &self.list)?;
        Ok(found)
    }

    /// The task that a hand takes up next: the first candidate, of the greatest priority and then in
    /// tree order. There is none while something is forced, while the flow isn't RUNNING, or while an
    /// atom is REVERT_FAILURE. After its entry less of the run is to come.
    pub fn candidate(&self) -> Option<Start>
        ensures is { option_map start_entry result ≡ choice (outline self.now) (shown self.now) }
        ensures after { (past : List Record) → StandsFor self.now past
            → option_map start_entry result ≡ choice (outline self.now) (snapshot (outline self.now) past) }
        ensures action { IfSome result (λ start. start.action ≡ action_in ((shown self.now).state start.atom)) }
        ensures task { IfSome result (λ start. is_task (outline self.now) start.atom ≡ true) }
        ensures less { IfSome result (λ start. (hand : ℕ)
            → left_later self.now.plan hand (start_entry start) (shown self.now)
            < left self.now.plan (shown self.now)) }
    {
        candidate(&self.compiled, &self.tables, &self.list)
    }

    /// The order to do so with a task at this moment: what a performer is asked for where the start is
    /// recorded.
    pub fn order(&self, alloc: Global, start: &Start) -> Result<Order, Memory>
        requires { is_task (outline self.now) start.now.atom ≡ true }
        ensures is { IfOk result (λ order. Some order
            ≡ order_of (outline self.now) (shown self.now) start.now.atom start.now.action) }
        ensures after { IfOk result (λ order. (past : List Record) → StandsFor self.now past
            → Some order ≡ order_of (outline self.now)
            (snapshot (outline self.now) past) start.now.atom start.now.action) }
        ensures whole { IfOk result (λ order. IsWhole order) }
    {
        order(
            alloc,
            &self.compiled,
            &self.tables,
            start.atom,
            start.action,
        )
    }

    /// How the run ends, if it does. It always does where the flow is RUNNING, nothing is forced, there is
    /// no candidate and nothing is in flight.
    pub fn ended(&self) -> Option<FlowState>
        ensures is { result ≡ end_of (outline self.now) (shown self.now) }
        ensures after { (past : List Record) → StandsFor self.now past
            → result ≡ end_of (outline self.now) (snapshot (outline self.now) past) }
        ensures never_stuck { (past : List Record) → StandsFor self.now past → flow_of past ≡ running
            → forced (outline self.now) (snapshot (outline self.now) past) ≡ None
            → choice (outline self.now) (snapshot (outline self.now) past) ≡ None
            → is_still (outline self.now) (snapshot (outline self.now) past) ≡ true → is_some result ≡ true }
    {
        end_of(&self.compiled, &self.tables, &self.list)
    }

    /// The task that the hand has in flight, if it has one.
    pub fn in_flight(&self, hand: u8) -> Option<u16>
        ensures is { result ≡ task_of (outline self.now) (shown self.now) hand }
        ensures after { (past : List Record) → StandsFor self.now past
            → result ≡ task_of (outline self.now) (snapshot (outline self.now) past) hand }
        ensures task { (a : ℕ) → result ≡ Some a → is_task (outline self.now) a ≡ true }
        ensures ends { (a : ℕ) (outcome : Came) → result ≡ Some a
            → Step (outline self.now) (shown self.now) (end_by (shown self.now) hand outcome a) }
        ensures less { (a : ℕ) (outcome : Came) → result ≡ Some a
            → left self.now.plan (later (outline self.now) (end_by (shown self.now) hand outcome a)
            (shown self.now)) < left self.now.plan (shown self.now) }
    {
        task_of(&self.compiled, &self.tables, &self.list, hand)
    }

    /// The entry with which the hand ends the task that it has in flight, with this outcome: the one that
    /// `settle` appends.
    pub fn end(&self, hand: u8, outcome: Outcome) -> Entry
        requires { IsSome (task_of (outline self.now) (shown self.now) hand) }
        ensures is { (a : ℕ) → task_of (outline self.now) (shown self.now) hand ≡ Some a
            → result ≡ end_by (shown self.now) hand outcome a }
        ensures step { Step (outline self.now) (shown self.now) result }
    {
        let Some(atom) = self.in_flight(hand) else {
            unreachable!();
        };
        let what = ended_from(atom, self.state(atom), outcome);
        Entry { hand, what }
    }

    /// Whether nothing is in flight.
    pub fn is_still(&self) -> bool
        ensures is { result ≡ is_still (outline self.now) (shown self.now) }
        ensures after { (past : List Record) → StandsFor self.now past
            → result ≡ is_still (outline self.now) (snapshot (outline self.now) past) }
    {
        is_still(&self.compiled, &self.tables, &self.list)
    }

    /// The state and the payload of each atom, by its number.
    pub fn views(&self) -> &[AtomView]
        ensures kept { result.now ≡ self.now.views }
        ensures is { result.now ≡ views_of (outline self.now) (shown self.now) }
        ensures after { (past : List Record) → StandsFor self.now past
            → result.now ≡ views_of (outline self.now) (snapshot (outline self.now) past) }
    {
        &self.tables.views
    }

    /// How many atoms before an atom are neither SUCCESS nor IGNORE. It takes no memory.
    pub fn waiting(&self, atom: u16) -> u16
        requires { atom < count (outline self.now) }
        ensures is { result ≡ waiting_of (outline self.now) (shown self.now) atom }
        ensures after { (past : List Record) → StandsFor self.now past
            → result ≡ waiting_of (outline self.now) (snapshot (outline self.now) past) atom }
    {
        self.tables.counters.waiting(atom)
    }

    /// How many atoms after an atom aren't settled: PENDING, REVERTED and IGNORE are. It takes no memory.
    pub fn holding(&self, atom: u16) -> u16
        requires { atom < count (outline self.now) }
        ensures is { result ≡ holding_of (outline self.now) (shown self.now) atom }
        ensures after { (past : List Record) → StandsFor self.now past
            → result ≡ holding_of (outline self.now) (snapshot (outline self.now) past) atom }
    {
        self.tables.counters.holding(atom)
    }

    /// The flow's state. At every moment the facts on states and marks hold; and where the flow is
    /// REVERTED, its reversion is completed.
    pub fn flow_state(&self) -> FlowState
        ensures is { result ≡ (shown self.now).flow }
        ensures after { (past : List Record) → StandsFor self.now past
            → result ≡ (snapshot (outline self.now) past).flow }
        ensures facts { (past : List Record) → StandsFor self.now past
            → Facts (outline self.now) (snapshot (outline self.now) past) }
        ensures reversion { (past : List Record) → StandsFor self.now past → result ≡ reverted
            → CompletedReversion (outline self.now) past }
    {
        self.tables.flow
    }

    /// The plan.
    pub fn plan(&self) -> &Plan
        ensures is { result.now ≡ self.now.plan }
        ensures compiles { compile_refusal self.now.plan ≡ None }
        ensures complete { missing_symbol (outline self.now) ≡ None }
        ensures limits { IsWithinLimits (outline self.now) }
        ensures history { HasHistory self.now }
    {
        self.compiled.plan()
    }

    /// The state of an atom.
    fn state(&self, atom: u16) -> AtomState
        ensures { result ≡ (shown self.now).state atom }
    {
        self.tables.state(atom)
    }

    /// Whether the entry may follow.
    fn is_step(&self, alloc: Global, entry: &Entry) -> Result<bool, Memory>
        ensures yes { result ≡ Ok true → Step (outline self.now) (shown self.now) entry.now }
        ensures no { result ≡ Ok false → ¬ (Step (outline self.now) (shown self.now) entry.now) }
    {
        is_step(alloc, &self.compiled, &self.tables, &self.list, entry)
    }
}

/// The end of a task that was in this state, with an outcome.
fn ended_from(atom: u16, state: AtomState, outcome: Outcome) -> What
    ensures { result ≡ ended_from atom state outcome }
{
    match outcome {
        Outcome::Gave(value) => gave(atom, state, value),
        Outcome::Failed(fault) => failed(atom, state, fault),
    }
}

/// The end of a task that gave a value; that of a reversion is dropped.
fn gave(atom: u16, state: AtomState, value: Val) -> What
    ensures { result ≡ ended_from atom state (given value) }
{
    if matches!(state, AtomState::Running) {
        return What::Atom {
            atom,
            state: AtomState::Success,
            payload: Payload::Value(value),
        };
    }
    What::Atom {
        atom,
        state: AtomState::Reverted,
        payload: Payload::Empty,
    }
}

/// The end of a task that failed.
fn failed(atom: u16, state: AtomState, fault: Failure) -> What
    ensures { result ≡ ended_from atom state (failing fault) }
{
    let state = match state {
        AtomState::Running => AtomState::Failure,
        _ => AtomState::RevertFailure,
    };
    What::Atom {
        atom,
        state,
        payload: Payload::Fault(fault),
    }
}
