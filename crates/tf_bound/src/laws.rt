//! What is owed at a moment of a run, and that a run records no more entries than its plan's bound.

ghost use Rattle.std.specs.Prelude.{◌≡◌, ◌≢◌, ◌+◌, ◌<◌, ◌≤◌, ◌++◌, ◌∷◌, ◌||◌, ℕ, List, [], Option, None, Some, length, true};
ghost use Rattle.tf_values.specs.declared.value.Val.{Val};
ghost use Rattle.tf_values.specs.Value.{IsValue};
ghost use Rattle.tf_states.specs.declared.record.Entry.{Entry};
ghost use Rattle.tf_states.specs.declared.record.What.{What};
ghost use Rattle.tf_states.specs.declared.record.What.TheVariants as event;
ghost use Rattle.tf_states.specs.declared.state.FlowState.{FlowState};
ghost use Rattle.tf_states.specs.declared.state.FlowState.TheVariants as flow;
ghost use Rattle.tf_flow.specs.Plan.{PlanValue};
ghost use Rattle.tf_flow.specs.Rules.{first_refusal};
ghost use Rattle.tf_flow.specs.Tree.{tree_of};
ghost use Rattle.tf_model.specs.Plan.{Outline, outline_of, count, is_retry, compile_refusal, cost, entry_bound};
ghost use Rattle.tf_model.specs.History.{Snapshot, later, snapshot, flow_runs, flow_suspends};
ghost use Rattle.tf_model.specs.Forced.{forced, choice};
ghost use Rattle.tf_model.specs.Steps.{Step, LegalPast, ends_task, Session};
ghost use Rattle.tf_facts.specs.Facts.{IsInOrder};
ghost use Rattle.tf_bound.specs.Costs.{HasAttempts, each, most, sum_below, lives_beside};
ghost use Rattle.tf_bound.specs.Owed.{owed, left, left_later};
ghost use Rattle.tf_bound.specs.Kept.{IsGuarded, IsCounted, IsKept, IsBounded};
ghost use Rattle.tf_bound.specs.Short.{IsShortValue, IsShortEvent, AreShort, ShowsShort, IsWithinLimits};

/// Together the lives of all atoms of a plan cost no more than its root, and those of the other atoms
/// that the flow of a retry controller holds leave room in one attempt of it.
pub fn lives_cost_no_more_than_flows()
    ensures root { (plan : PlanValue) → HasAttempts (outline_of plan)
        → sum_below (count (outline_of plan)) (most plan) ≤ cost (tree_of plan.root) }
    ensures room { (plan : PlanValue) → HasAttempts (outline_of plan)
        → (r : ℕ) → is_retry (outline_of plan) r ≡ true → r < count (outline_of plan)
        → lives_beside plan r + 6 ≤ each plan r }
{}

/// Where a retry controller is neither SUCCESS nor IGNORE, every other atom that its flow holds is
/// settled: after every legal history, and wherever all that is before an unsettled atom is done.
pub fn flows_of_retries_are_guarded()
    ensures history { (plan : PlanValue) (past : List Entry) → compile_refusal plan ≡ None
        → LegalPast (outline_of plan) past → IsGuarded (outline_of plan) (snapshot (outline_of plan) past) }
    ensures ordered { (plan : PlanValue) (s : Snapshot) → compile_refusal plan ≡ None
        → IsInOrder (outline_of plan) s → IsGuarded (outline_of plan) s }
{}

/// After every legal history with short lists the attempts of retry controllers are counted, and what is
/// marked or in flight is within the plan.
pub fn attempts_are_counted()
    ensures counted { (plan : PlanValue) (past : List Entry) → compile_refusal plan ≡ None
        → IsWithinLimits (outline_of plan) → AreShort past
        → LegalPast (outline_of plan) past → IsCounted (outline_of plan) (snapshot (outline_of plan) past) }
    ensures kept { (plan : PlanValue) (past : List Entry) → compile_refusal plan ≡ None
        → IsWithinLimits (outline_of plan) → AreShort past
        → LegalPast (outline_of plan) past → IsKept (outline_of plan) (snapshot (outline_of plan) past) }
{}

/// What bounds a run is kept entry by entry, as a machine keeps it: it holds before a run of a plan within
/// its limits, after each short entry that may follow, and after every legal history with short lists.
pub fn moments_stay_bounded()
    ensures first { (plan : Outline) → IsWithinLimits plan → IsBounded plan (snapshot plan []) }
    ensures next { (plan : PlanValue) (s : Snapshot) (e : Entry) → compile_refusal plan ≡ None → IsShortEvent e.what
        → Step (outline_of plan) s e → IsBounded (outline_of plan) s
        → IsBounded (outline_of plan) (later (outline_of plan) e s) }
    ensures history { (plan : PlanValue) (past : List Entry) → compile_refusal plan ≡ None
        → IsWithinLimits (outline_of plan) → AreShort past
        → LegalPast (outline_of plan) past → IsBounded (outline_of plan) (snapshot (outline_of plan) past) }
    ensures kept { (plan : PlanValue) (s : Snapshot) → compile_refusal plan ≡ None
        → IsInOrder (outline_of plan) s → IsBounded (outline_of plan) s → IsKept (outline_of plan) s }
{}

/// Where the attempts are counted, no atom owes more than its life, and what is left is at most what the
/// root costs, and 2: beside the three entries with which a run may enter it is within the plan's bound.
pub fn owed_is_capped()
    ensures atoms { (plan : PlanValue) (s : Snapshot) (a : ℕ) → IsCounted (outline_of plan) s
        → owed plan s a ≤ most plan a }
    ensures left { (plan : PlanValue) (s : Snapshot) → HasAttempts (outline_of plan)
        → IsCounted (outline_of plan) s → left plan s ≤ cost (tree_of plan.root) + 2 }
    ensures entered { (plan : PlanValue) (s : Snapshot) → HasAttempts (outline_of plan)
        → IsCounted (outline_of plan) s → 3 + left plan s ≤ entry_bound plan }
{}

/// Each entry of a flow that is RUNNING or SUSPENDING makes what is left less, unless it turns the flow
/// to RESUMING. So do what is forced, the first candidate and the end of a task, whoever records them.
pub fn entries_make_less_owed()
    ensures step { (plan : PlanValue) (s : Snapshot) (e : Entry) → HasAttempts (outline_of plan)
        → IsKept (outline_of plan) s → flow_runs s.flow || flow_suspends s.flow ≡ true
        → e.what ≢ event.Flow flow.Resuming → Step (outline_of plan) s e
        → left plan (later (outline_of plan) e s) < left plan s }
    ensures forced { (plan : PlanValue) (s : Snapshot) (hand : ℕ) (w : What) → HasAttempts (outline_of plan)
        → IsKept (outline_of plan) s → forced (outline_of plan) s ≡ Some w → left_later plan hand w s < left plan s }
    ensures chosen { (plan : PlanValue) (s : Snapshot) (hand : ℕ) (w : What) → HasAttempts (outline_of plan)
        → IsKept (outline_of plan) s → choice (outline_of plan) s ≡ Some w → left_later plan hand w s < left plan s }
    ensures ended { (plan : PlanValue) (s : Snapshot) (hand : ℕ) (w : What) → HasAttempts (outline_of plan)
        → IsKept (outline_of plan) s → ends_task s hand w ≡ true → left_later plan hand w s < left plan s }
{}

/// What a run records after a history, whole or halted, is at most as long as the bound of its plan, also
/// with what is left after it.
pub fn runs_are_bounded()
    ensures bound { (plan : PlanValue) (before entries : List Entry) (last : Option FlowState)
        → compile_refusal plan ≡ None → IsWithinLimits (outline_of plan) → AreShort before → AreShort entries
        → Session (outline_of plan) before entries last → length entries ≤ entry_bound plan }
    ensures rest { (plan : PlanValue) (before entries : List Entry) (last : Option FlowState)
        → compile_refusal plan ≡ None → IsWithinLimits (outline_of plan) → AreShort before → AreShort entries
        → Session (outline_of plan) before entries last
        → length entries + left plan (snapshot (outline_of plan) (entries ++ before)) ≤ entry_bound plan }
{}

/// Each retry controller of a plan that isn't refused has an attempt at least.
pub fn plans_have_attempts()
    ensures { (plan : PlanValue) → first_refusal plan.root plan.store ≡ None → HasAttempts (outline_of plan) }
{}

/// A value within the limits of values is short. A history with short lists keeps them short by an entry
/// with a short payload, and shows short payloads; these stay short by such an entry too.
pub fn lists_stay_short()
    ensures values { (v : Val) → IsValue v → IsShortValue v }
    ensures one { (e : Entry) (past : List Entry) → IsShortEvent e.what → AreShort past → AreShort (e ∷ past) }
    ensures both { (newer past : List Entry) → AreShort newer → AreShort past → AreShort (newer ++ past) }
    ensures shown { (plan : Outline) (past : List Entry) → AreShort past → ShowsShort (snapshot plan past) }
    ensures later { (plan : Outline) (e : Entry) (s : Snapshot) → IsShortEvent e.what
        → ShowsShort s → ShowsShort (later plan e s) }
{}
