//! What holds of hands, tasks in flight and orders in every legal history.

ghost use Rattle.std.specs.Prelude.{◌≡◌, ◌≢◌, ◌++◌, ◌∷◌, ◌||◌, ℕ, List, [], reverse, None, Some, true, false, is_some};
ghost use Rattle.std.specs.List.{list_all};
ghost use Rattle.tf_states.specs.declared.record.Entry.{Entry};
ghost use Rattle.tf_states.specs.declared.record.Payload.{Payload};
ghost use Rattle.tf_states.specs.declared.record.What.{What};
ghost use Rattle.tf_states.specs.declared.record.What.TheVariants as what;
ghost use Rattle.tf_states.specs.declared.state.AtomState.TheVariants as atom;
ghost use Rattle.tf_states.specs.declared.state.FlowState.TheVariants as flow;
ghost use Rattle.tf_flow.specs.Plan.{PlanValue};
ghost use Rattle.tf_actions.specs.declared.orders.Order.{Order};
ghost use Rattle.tf_actions.specs.declared.outcomes.Outcome.{Outcome};
ghost use Rattle.tf_model.specs.Plan.{Outline, outline_of, is_task, compile_refusal};
ghost use Rattle.tf_model.specs.History.{Snapshot, snapshot, state_of, flow_of, hand_of, flow_runs, flow_suspends};
ghost use Rattle.tf_model.specs.Forced.{forced, is_interrupted, choice, end_of};
ghost use Rattle.tf_model.specs.Scope.{order_of, IsGiven};
ghost use Rattle.tf_model.specs.Steps.{LegalPast, is_free, is_still, ends_task, is_inner, entering, has_ended};
ghost use Rattle.tf_hands.specs.declared.starts.Start.{Start};
ghost use Rattle.tf_hands.specs.Hands.{task_of, start_entry, action_in, ended_from, end_by, by_hand, is_no_end, is_of_flow, is_by_other, takes_task, asked_by, orders, HasOrder, IsAlone};

use tf_actions::Performer;

/// What is forced is not of the flow, takes no task up and ends none.
#[tactic(auto, using(crate::proofs::ForcedLemmas::forced_no_end, crate::proofs::ForcedLemmas::forced_takes_none, crate::proofs::ForcedLemmas::forced_within, crate::proofs::ForcedLemmas::forced_inner))]
pub fn forced_entries_are_of_no_task()
    ensures no_end { (plan : Outline) (s : Snapshot) (w : What) → forced plan s ≡ Some w → is_no_end plan w ≡ true }
    ensures takes_none { (plan : Outline) (s : Snapshot) (w : What) → forced plan s ≡ Some w
        → takes_task plan w ≡ None }
    ensures within { (plan : Outline) (s : Snapshot) (w : What) → forced plan s ≡ Some w → is_of_flow w ≡ false }
    ensures inner { (plan : Outline) (s : Snapshot) (w : What) → forced plan s ≡ Some w → is_inner w ≡ true }
{}

/// What is forced, by whatever hand it is recorded, leaves every atom in the hand in which it is, and
/// every hand with the orders that it had.
pub fn forced_entries_leave_hands_alone()
    ensures hands { (plan : Outline) (past : List Entry) (hand : ℕ) (w : What) → LegalPast plan past
        → forced plan (snapshot plan past) ≡ Some w
        → (a : ℕ) → hand_of plan (by_hand hand w ∷ past) a ≡ hand_of plan past a }
    ensures free { (plan : Outline) (past : List Entry) (hand other : ℕ) (w : What) → LegalPast plan past
        → forced plan (snapshot plan past) ≡ Some w
        → is_free plan (snapshot plan (by_hand hand w ∷ past)) other ≡ is_free plan (snapshot plan past) other }
    ensures still { (plan : Outline) (past : List Entry) (hand : ℕ) (w : What) → LegalPast plan past
        → forced plan (snapshot plan past) ≡ Some w
        → is_still plan (snapshot plan (by_hand hand w ∷ past)) ≡ is_still plan (snapshot plan past) }
    ensures order { (plan : Outline) (past : List Entry) (hand other : ℕ) (w : What) (order : Order)
        → forced plan (snapshot plan past) ≡ Some w
        → HasOrder plan past other order → HasOrder plan (by_hand hand w ∷ past) other order }
    ensures orders { (plan : Outline) (past : List Entry) (hand other : ℕ) (w : What)
        → forced plan (snapshot plan past) ≡ Some w
        → orders plan other (by_hand hand w ∷ past) ≡ orders plan other past }
{}

/// A hand that takes up the first candidate has its task in flight, with the order of that moment; no
/// other task changes hands. What is recorded then ends no task and isn't of the flow.
pub fn starts_give_orders()
    ensures order { (plan : Outline) (past : List Entry) (hand : ℕ) (start : Start) (order : Order)
        → choice plan (snapshot plan past) ≡ Some (start_entry start)
        → start.action ≡ action_in ((snapshot plan past).state start.atom)
        → order_of plan (snapshot plan past) start.atom start.action ≡ Some order
        → HasOrder plan (by_hand hand (start_entry start) ∷ past) hand order }
    ensures orders { (plan : Outline) (past : List Entry) (hand : ℕ) (start : Start) (order : Order)
        → choice plan (snapshot plan past) ≡ Some (start_entry start)
        → start.action ≡ action_in ((snapshot plan past).state start.atom)
        → order_of plan (snapshot plan past) start.atom start.action ≡ Some order
        → orders plan hand (by_hand hand (start_entry start) ∷ past) ≡ orders plan hand past ++ order ∷ [] }
    ensures busy { (plan : Outline) (past : List Entry) (hand : ℕ) (start : Start) (order : Order)
        → choice plan (snapshot plan past) ≡ Some (start_entry start)
        → start.action ≡ action_in ((snapshot plan past).state start.atom)
        → order_of plan (snapshot plan past) start.atom start.action ≡ Some order
        → is_free plan (snapshot plan (by_hand hand (start_entry start) ∷ past)) hand ≡ false }
    ensures takes { (plan : Outline) (s : Snapshot) (start : Start) → choice plan s ≡ Some (start_entry start)
        → takes_task plan (start_entry start) ≡ Some start.atom }
    ensures others { (plan : Outline) (past : List Entry) (hand : ℕ) (start : Start) (a : ℕ) → start.atom ≢ a
        → hand_of plan (by_hand hand (start_entry start) ∷ past) a ≡ hand_of plan past a }
    ensures no_end { (plan : Outline) (start : Start) → is_no_end plan (start_entry start) ≡ true }
    ensures within { (start : Start) → is_of_flow (start_entry start) ≡ false }
    ensures inner { (start : Start) → is_inner (start_entry start) ≡ true }
{}

/// A hand has at most one task in flight.
#[tactic(auto, using(crate::proofs::FlightLemmas::one_task))]
pub fn hands_have_one_task()
    ensures { (plan : Outline) (past : List Entry) → LegalPast plan past → (a b hand : ℕ)
        → hand_of plan past a ≡ Some hand
        → hand_of plan past b ≡ Some hand → a ≡ b }
{}

/// A hand whose task ends is free, and its end asks nobody for anything. It isn't of the flow.
pub fn ends_free_hands()
    ensures free { (plan : Outline) (past : List Entry) (hand a : ℕ) (outcome : Outcome) → LegalPast plan past
        → task_of plan (snapshot plan past) hand ≡ Some a
        → is_free plan (snapshot plan (end_by (snapshot plan past) hand outcome a ∷ past)) hand ≡ true }
    ensures orders { (plan : Outline) (past : List Entry) (hand other a : ℕ) (outcome : Outcome)
        → orders plan other (end_by (snapshot plan past) hand outcome a ∷ past) ≡ orders plan other past }
    ensures ends { (plan : Outline) (past : List Entry) (hand a : ℕ) (outcome : Outcome) → LegalPast plan past
        → task_of plan (snapshot plan past) hand ≡ Some a
        → is_no_end plan (end_by (snapshot plan past) hand outcome a).what ≡ false }
    ensures within { (s : Snapshot) (hand a : ℕ) (outcome : Outcome)
        → is_of_flow (end_by s hand outcome a).what ≡ false }
    ensures inner { (s : Snapshot) (hand a : ℕ) (outcome : Outcome) → is_inner (end_by s hand outcome a).what ≡ true }
{}

/// For every performer: what ends no task carries no outcome that could be wrong; and where a hand has an
/// order, an outcome that the performer may give it makes a right end of the hand's task.
pub fn outcomes_are_of_orders<P: Performer>()
    ensures none { (plan : Outline) (past : List Entry) (w : What) → is_no_end plan w ≡ true
        → IsGiven P.gives plan past w }
    ensures ended { (plan : Outline) (past : List Entry) (hand a : ℕ) (order : Order) (outcome : Outcome)
        → LegalPast plan past
        → task_of plan (snapshot plan past) hand ≡ Some a → HasOrder plan past hand order → P.gives order outcome
        → IsGiven P.gives plan past (ended_from a ((snapshot plan past).state a) outcome) }
{}

/// Nothing is in flight where the flow is neither RUNNING nor SUSPENDING, nor after an entry of the flow
/// other than SUSPENDING; so not after those with which a run enters.
#[tactic(auto, using(crate::proofs::RestLemmas::away_still, crate::proofs::RestLemmas::turned_still, crate::proofs::RestLemmas::entered_still))]
pub fn nothing_is_in_flight_outside_runs()
    ensures away { (plan : Outline) (past : List Entry) → LegalPast plan past
        → flow_runs (flow_of past) || flow_suspends (flow_of past) ≡ false → is_still plan (snapshot plan past) ≡ true }
    ensures turned { (plan : Outline) (past : List Entry) (e : Entry) → LegalPast plan (e ∷ past)
        → is_of_flow e.what ≡ true
        → is_inner e.what ≡ false → is_still plan (snapshot plan (e ∷ past)) ≡ true }
    ensures entered { (plan : Outline) (past : List Entry) → has_ended (flow_of past) ≡ false
        → LegalPast plan (reverse (entering (flow_of past)) ++ past)
        → is_still plan (snapshot plan (reverse (entering (flow_of past)) ++ past)) ≡ true }
{}

/// What another hand records leaves a hand with its order, or free, and adds nothing to its orders,
/// however much it is; but RESUMING takes all tasks from their hands.
pub fn others_leave_hands_alone()
    ensures order { (plan : Outline) (past : List Entry) (e : Entry) (hand : ℕ) (order : Order)
        → LegalPast plan (e ∷ past)
        → e.hand ≢ hand → e.what ≢ what.Flow flow.Resuming → HasOrder plan past hand order
        → HasOrder plan (e ∷ past) hand order }
    ensures free { (plan : Outline) (past : List Entry) (e : Entry) (hand : ℕ) → e.hand ≢ hand
        → is_free plan (snapshot plan past) hand ≡ true → is_free plan (snapshot plan (e ∷ past)) hand ≡ true }
    ensures orders { (plan : Outline) (hand : ℕ) (e : Entry) (past : List Entry) → e.hand ≢ hand
        → orders plan hand (e ∷ past) ≡ orders plan hand past }
    ensures order_through { (plan : Outline) (newer past : List Entry) (hand : ℕ) (order : Order)
        → LegalPast plan (newer ++ past) → list_all (is_by_other hand) newer ≡ true → HasOrder plan past hand order
        → HasOrder plan (newer ++ past) hand order }
    ensures free_through { (plan : Outline) (newer past : List Entry) (hand : ℕ)
        → list_all (is_by_other hand) newer ≡ true
        → is_free plan (snapshot plan past) hand ≡ true → is_free plan (snapshot plan (newer ++ past)) hand ≡ true }
    ensures orders_through { (plan : Outline) (newer past : List Entry) (hand : ℕ)
        → list_all (is_by_other hand) newer ≡ true → orders plan hand (newer ++ past) ≡ orders plan hand past }
{}

/// An entry that takes no task up, whoever records it, leaves each free hand free and adds to nobody's
/// orders. One of the flow takes none up, and leaves each hand with its order, unless it is RESUMING.
pub fn idle_entries_leave_hands_alone()
    ensures free { (plan : Outline) (past : List Entry) (e : Entry) (hand : ℕ) → takes_task plan e.what ≡ None
        → is_free plan (snapshot plan past) hand ≡ true → is_free plan (snapshot plan (e ∷ past)) hand ≡ true }
    ensures orders { (plan : Outline) (hand : ℕ) (e : Entry) (past : List Entry) → takes_task plan e.what ≡ None
        → orders plan hand (e ∷ past) ≡ orders plan hand past }
    ensures of_flow { (plan : Outline) (w : What) → is_of_flow w ≡ true → takes_task plan w ≡ None }
    ensures order { (plan : Outline) (past : List Entry) (e : Entry) (hand : ℕ) (order : Order)
        → is_of_flow e.what ≡ true
        → e.what ≢ what.Flow flow.Resuming → HasOrder plan past hand order → HasOrder plan (e ∷ past) hand order }
{}

/// A task that is executed anew was PENDING, and one that is restarted is RUNNING or REVERTING and in no
/// hand. Whoever takes a task up has nothing in flight, and is asked for something.
pub fn tasks_are_taken_up_by_free_hands()
    ensures started { (plan : Outline) (past : List Entry) (e : Entry) (a : ℕ) (held : Payload)
        → LegalPast plan (e ∷ past)
        → e.what ≡ what.Atom a atom.Running held → is_task plan a ≡ true → state_of past a ≡ atom.Pending }
    ensures restarted { (plan : Outline) (past : List Entry) (e : Entry) (a : ℕ) → LegalPast plan (e ∷ past)
        → e.what ≡ what.Restart a → is_interrupted plan (snapshot plan past) a ≡ true }
    ensures in_no_hand { (plan : Outline) (past : List Entry) (e : Entry) (a : ℕ) → LegalPast plan (e ∷ past)
        → e.what ≡ what.Restart a → hand_of plan past a ≡ None }
    ensures free { (plan : Outline) (past : List Entry) (e : Entry) (a : ℕ) → LegalPast plan (e ∷ past)
        → takes_task plan e.what ≡ Some a → is_free plan (snapshot plan past) e.hand ≡ true }
    ensures asked { (plan : Outline) (past : List Entry) (e : Entry) (a : ℕ) → LegalPast plan (e ∷ past)
        → takes_task plan e.what ≡ Some a → is_some (asked_by plan past e) ≡ true }
{}

/// The end of a task is recorded by the hand that has it in flight.
#[tactic(auto, using(crate::proofs::OtherLemmas::ended_by_hand))]
pub fn tasks_are_ended_by_their_hands()
    ensures { (plan : Outline) (past : List Entry) (e : Entry) → LegalPast plan (e ∷ past)
        → is_no_end plan e.what ≡ false
        → ends_task (snapshot plan past) e.hand e.what ≡ true }
{}

/// Where nothing is in flight every hand is free and none has an order; and a hand is free exactly where
/// it has no task. Where it has an order, its task is the order's.
pub fn hands_are_free_or_have_a_task()
    ensures still { (plan : Outline) (s : Snapshot) (hand : ℕ) → is_still plan s ≡ true → is_free plan s hand ≡ true }
    ensures no_order { (plan : Outline) (past : List Entry) (hand : ℕ) (order : Order)
        → is_still plan (snapshot plan past) ≡ true
        → ¬ (HasOrder plan past hand order) }
    ensures busy { (plan : Outline) (s : Snapshot) (hand a : ℕ) → task_of plan s hand ≡ Some a
        → is_free plan s hand ≡ false }
    ensures free { (plan : Outline) (s : Snapshot) (hand : ℕ) → task_of plan s hand ≡ None
        → is_free plan s hand ≡ true }
    ensures no_task { (plan : Outline) (s : Snapshot) (hand : ℕ) → is_free plan s hand ≡ true
        → task_of plan s hand ≡ None }
    ensures order { (plan : Outline) (past : List Entry) (hand : ℕ) (order : Order) → LegalPast plan past
        → HasOrder plan past hand order
        → task_of plan (snapshot plan past) hand ≡ Some order.atom }
{}

/// A free hand with which all is that is in flight is never stuck: where nothing is forced and there is
/// no candidate, nothing is in flight, and there is an end. A hand stays alone while it alone takes up tasks.
pub fn lone_hands_are_never_stuck()
    ensures still { (plan : Outline) (past : List Entry) (hand : ℕ) → IsAlone plan past hand
        → is_free plan (snapshot plan past) hand ≡ true → is_still plan (snapshot plan past) ≡ true }
    ensures end { (plan : PlanValue) (past : List Entry) (hand : ℕ) → compile_refusal plan ≡ None
        → LegalPast (outline_of plan) past → flow_of past ≡ flow.Running
        → forced (outline_of plan) (snapshot (outline_of plan) past) ≡ None
        → choice (outline_of plan) (snapshot (outline_of plan) past) ≡ None → IsAlone (outline_of plan) past hand
        → is_free (outline_of plan) (snapshot (outline_of plan) past) hand ≡ true
        → is_some (end_of (outline_of plan) (snapshot (outline_of plan) past)) ≡ true }
    ensures alone { (plan : Outline) (past : List Entry) (hand : ℕ) → is_still plan (snapshot plan past) ≡ true
        → IsAlone plan past hand }
    ensures by_own { (plan : Outline) (past : List Entry) (e : Entry) (hand : ℕ) → e.hand ≡ hand
        → IsAlone plan past hand
        → IsAlone plan (e ∷ past) hand }
    ensures by_idle { (plan : Outline) (past : List Entry) (e : Entry) (hand : ℕ) → takes_task plan e.what ≡ None
        → IsAlone plan past hand → IsAlone plan (e ∷ past) hand }
{}
