//! What the definitions promise of every plan and every history.

ghost use Rattle.std.specs.Prelude.{◌≡◌, ◌≢◌, ◌⊎◌, ◌++◌, ◌∷◌, ◌<◌, ℕ, List, length, map, Option, None, Some, true, false, is_some, nat_eq, if◌then◌else◌};
ghost use Rattle.tf_states.specs.declared.record.Kind.TheVariants as kind;
ghost use Rattle.std.specs.List.{list_all, list_any};
ghost use Rattle.tf_states.specs.declared.record.Entry.{Entry};
ghost use Rattle.tf_states.specs.declared.state.FlowState.{FlowState};
ghost use Rattle.tf_flow.specs.Plan.{PlanValue};
ghost use Rattle.tf_flow.specs.Plan as numbering;
ghost use Rattle.tf_flow.specs.declared.deciders.Depth.{Depth};
ghost use Rattle.tf_flow.specs.declared.deciders.Depth.TheVariants as depth;
ghost use Rattle.tf_flow.specs.Rules.{is_graph};
ghost use Rattle.tf_states.specs.declared.record.What.TheVariants as what;
ghost use Rattle.tf_links.specs.Graphs.{Chain};
ghost use Rattle.tf_model.specs.Before.{Flow, find_flow};
ghost use Rattle.tf_model.specs.Readiness.{ignores, home};
ghost use Rattle.tf_model.specs.Plan.{Outline, outline_of, count, own_flow, is_before, holds, is_retry, retry_of, compile_refusal, cycle_of, cycle};
ghost use Rattle.tf_model.specs.History.{Resolve, Snapshot, later, snapshot, state_of, payload_of, flow_of, mark_of, is_running, is_success};
ghost use Rattle.tf_model.specs.Retries.{resolution};
ghost use Rattle.tf_model.specs.Scope.{members, is_earlier};
ghost use Rattle.tf_model.specs.Steps.{LegalPast, Session};
ghost use Rattle.tf_model.specs.Laws.{IsFirstCycle, IsLinkedTask, resolves_atom, ends_mark_of, AreOrdered, Extreme, IsWholeRun, HasAllowed, enters_by, puts_back, last_success, name_of_flow};
ghost use Rattle.tf_flow.specs.Outline.{name_of_atom, is_retry_atom};

/// The outline of a plan has the plan's atoms and flows, by their numbers.
#[tactic(auto, using(tf_flow::proofs::OutlineLemmas::same_atoms, tf_flow::proofs::OutlineLemmas::same_retries, crate::proofs::OutlineLemmas::same_flows))]
pub fn outline_has_the_numbers()
    ensures atoms { (plan : PlanValue) → map name_of_atom (outline_of plan).atoms ≡ numbering.atoms plan }
    ensures retries { (plan : PlanValue) → map is_retry_atom (outline_of plan).atoms ≡ numbering.retries plan }
    ensures flows { (plan : PlanValue) → map name_of_flow (outline_of plan).flows ≡ numbering.flows plan }
{}

/// A flow that holds an atom holds all that the atom's own flow holds.
#[tactic(auto, using(crate::proofs::NestingLemmas::own_flow_in))]
pub fn own_flows_are_within()
    ensures { (plan : PlanValue) (a own flow other : ℕ) → own_flow (outline_of plan) a ≡ Some own
        → holds (outline_of plan) flow a ≡ true
        → holds (outline_of plan) own other ≡ true → holds (outline_of plan) flow other ≡ true }
{}

/// No atom is before itself.
#[tactic(auto, using(crate::proofs::BeforeLemmas::never_before_itself))]
pub fn never_before_itself()
    ensures { (plan : Outline) (a : ℕ) → is_before plan a a ≡ false }
{}

/// Where a plan compiles, the items of each of its flows are in an order: none comes before itself, and
/// one that comes before a second that comes before a third comes before the third.
#[tactic(auto, using(crate::proofs::OrderLemmas::plan_ordered))]
pub fn items_are_ordered()
    ensures { (plan : PlanValue) → compile_refusal plan ≡ None → AreOrdered (outline_of plan).flows }
{}

/// Where the items of each flow are in an order, an atom that is before a second that is before a
/// third is before the third.
#[tactic(auto, using(crate::proofs::BeforeLemmas::before_chain))]
pub fn before_is_transitive()
    ensures { (plan : Outline) → AreOrdered plan.flows → (a b c : ℕ) → is_before plan a b ≡ true
        → is_before plan b c ≡ true → is_before plan a c ≡ true }
{}

/// Of the atoms of a list that isn't empty there is one that none of them is after, and one that none of
/// them is before.
#[tactic(auto, using(crate::proofs::EndLemmas::last_of, crate::proofs::EndLemmas::first_of))]
pub fn lists_have_a_last_and_a_first()
    ensures last { (plan : Outline) → AreOrdered plan.flows → (a : ℕ) (others : List ℕ)
        → Extreme (is_before plan) (a ∷ others) }
    ensures first { (plan : Outline) → AreOrdered plan.flows → (a : ℕ) (others : List ℕ)
        → Extreme (is_earlier plan) (a ∷ others) }
{}

/// To an atom outside a flow all atoms that the flow holds are alike: it is before all of them or none,
/// and after all of them or none.
pub fn atoms_of_a_flow_are_alike()
    ensures { (plan : PlanValue) (flow a b other : ℕ) → holds (outline_of plan) flow a ≡ true
        → holds (outline_of plan) flow b ≡ true → holds (outline_of plan) flow other ≡ false
        → (is_before (outline_of plan) other a ≡ is_before (outline_of plan) other b)
        × (is_before (outline_of plan) a other ≡ is_before (outline_of plan) b other) }
{}

/// The retry controller of a flow is before every other atom that the flow holds.
#[tactic(auto, using(crate::proofs::RetryLemmas::retry_first))]
pub fn retries_come_first()
    ensures { (plan : PlanValue) (r flow a : ℕ) → is_retry (outline_of plan) r ≡ true
        → own_flow (outline_of plan) r ≡ Some flow
        → holds (outline_of plan) flow a ≡ true → r ≢ a → is_before (outline_of plan) r a ≡ true }
{}

/// Of two flows that hold one atom, the one holds all that the other holds.
pub fn flows_are_nested_or_apart()
    ensures { (plan : PlanValue) (one other shared : ℕ) → holds (outline_of plan) one shared ≡ true
        → holds (outline_of plan) other shared ≡ true
        → ((a : ℕ) → holds (outline_of plan) other a ≡ true → holds (outline_of plan) one a ≡ true)
        ⊎ ((a : ℕ) → holds (outline_of plan) one a ≡ true → holds (outline_of plan) other a ≡ true) }
{}

/// The root holds each atom.
#[tactic(auto, using(crate::proofs::ResolutionLemmas::root_holds))]
pub fn root_holds_each_atom()
    ensures { (plan : PlanValue) (a : ℕ) → a < count (outline_of plan) → holds (outline_of plan) 0 a ≡ true }
{}

/// The flow that a failure is resolved to holds the atom that failed, and has a retry controller where it
/// is to run again.
#[tactic(auto, using(crate::proofs::ResolutionLemmas::resolution_holds, crate::proofs::ResolutionLemmas::resolution_is_controlled))]
pub fn resolutions_hold_what_failed()
    ensures holds { (plan : PlanValue) (s : Snapshot) (a : ℕ) → a < count (outline_of plan)
        → holds (outline_of plan) (resolution (outline_of plan) s a).flow a ≡ true }
    ensures controlled { (plan : Outline) (s : Snapshot) (a : ℕ) → (resolution plan s a).kind ≡ kind.Retry
        → is_some (retry_of plan (resolution plan s a).flow) ≡ true }
{}

/// The members of an atom's scope are before it.
#[tactic(auto, using(crate::proofs::BeforeLemmas::members_before))]
pub fn members_are_before()
    ensures { (plan : Outline) (a : ℕ) → list_all (is_earlier plan a) (members plan a) ≡ true }
{}

/// The cycle for which a flow is refused is the shortest one through the first of its items that lies on a cycle of its
/// links; where none is reported, no item lies on one.
#[tactic(auto, using(crate::proofs::CycleLemmas::cycle_is_first))]
pub fn reported_cycles_are_of_the_first_item()
    ensures first { (plan : PlanValue) (g : ℕ) (f : Flow) (names : List (List ℕ))
        → find_flow (outline_of plan).flows g ≡ Some f
        → cycle_of f ≡ Some (cycle names) → IsFirstCycle f names }
    ensures none { (plan : PlanValue) (g : ℕ) (f : Flow) → find_flow (outline_of plan).flows g ≡ Some f
        → cycle_of f ≡ None
        → (u : ℕ) → u < length f.place.items → Chain f.linked u u → ⊥ }
{}

/// Where a plan compiles, what a refused task ignores is the task itself, or is after it.
#[tactic(auto, using(crate::proofs::IgnoredLemmas::ignored_after))]
pub fn ignored_atoms_are_after()
    ensures { (plan : PlanValue) (v : ℕ) (how : Depth) (a : ℕ) → compile_refusal plan ≡ None
        → ignores (outline_of plan) v how a ≡ true
        → (v ≡ a) ⊎ (is_before (outline_of plan) v a ≡ true) }
{}

/// What depth NEIGHBORS ignores besides the refused task are tasks of its flow that a link leads to from it; so
/// in a flow that is no graph nothing else is ignored, though a next task is there.
#[tactic(auto, using(crate::proofs::IgnoredLemmas::neighbor_linked, crate::proofs::IgnoredLemmas::neighbors_in_graphs))]
pub fn neighbors_are_linked()
    ensures linked { (plan : Outline) (v a : ℕ) → ignores plan v depth.Neighbors a ≡ true → (v ≡ a)
        ⊎ IsLinkedTask plan v a }
    ensures graphs { (plan : PlanValue) (v a : ℕ) → is_graph (home (outline_of plan) v).place.kind ≡ false
        → ignores (outline_of plan) v depth.Neighbors a ≡ nat_eq v a }
{}

/// An atom's mark comes from the last resolve whose flow holds it, and is over where the flow became PENDING after
/// it, or where it was to run the flow again and the flow's retry controller entered RUNNING after it. Where no
/// resolve holds the atom, its mark is EXECUTE.
#[tactic(auto, using(crate::proofs::MarkLemmas::mark_from_last, crate::proofs::MarkLemmas::unmarked_unresolved))]
pub fn marks_come_from_the_last_resolve()
    ensures last { (plan : Outline) (newer older : List Entry) (a hand : ℕ) (mark : Resolve)
        → holds plan mark.flow a ≡ true
        → list_any (resolves_atom plan a) newer ≡ false
        → mark_of plan (newer ++ record { hand = hand; what = what.Resolve mark.flow mark.kind } ∷ older) a
        ≡ (if list_any (ends_mark_of plan mark) newer then None else Some mark) }
    ensures none { (plan : Outline) (past : List Entry) (a : ℕ) → list_any (resolves_atom plan a) past ≡ false
        → mark_of plan past a ≡ None }
{}

/// One entry more changes the snapshot of a history as `later` says.
#[tactic(auto, using(crate::proofs::HistoryLemmas::one_more))]
pub fn one_entry_more()
    ensures { (plan : Outline) (e : Entry) (past : List Entry)
        → snapshot plan (e ∷ past) ≡ later plan e (snapshot plan past) }
{}

/// The beginning of a legal history is legal.
#[tactic(auto, using(crate::proofs::HistoryLemmas::legal_before))]
pub fn beginnings_are_legal()
    ensures { (plan : Outline) (newer past : List Entry) → LegalPast plan (newer ++ past) → LegalPast plan past }
{}

/// Each entry of a legal history takes an atom or the flow from its state to one that its kind may
/// go to.
#[tactic(auto, using(crate::proofs::StepLemmas::past_allowed))]
pub fn entries_are_allowed()
    ensures { (plan : Outline) (past : List Entry) → LegalPast plan past → HasAllowed plan past }
{}

/// Between two RUNNING entries of one task stands a PENDING entry of it.
pub fn put_back_between_starts()
    ensures { (plan : Outline) (second first : Entry) (newer past : List Entry) (a : ℕ) → is_retry plan a ≡ false
        → LegalPast plan (second ∷ (newer ++ (first ∷ past)))
        → enters_by is_running a second.what ≡ true → enters_by is_running a first.what ≡ true
        → puts_back newer a ≡ true }
{}

/// An atom that is SUCCESS has the value that its last SUCCESS entry carries.
#[tactic(auto, using(crate::proofs::HistoryLemmas::success_kept))]
pub fn results_are_kept()
    ensures { (past : List Entry) (a : ℕ) → is_success (state_of past a) ≡ true
        → payload_of past a ≡ last_success past a }
{}

/// What a run records is legal after what stood before.
#[tactic(auto, using(crate::proofs::HistoryLemmas::session_legal))]
pub fn sessions_are_legal()
    ensures { (plan : Outline) (before entries : List Entry) (last : Option FlowState)
        → Session plan before entries last → LegalPast plan (entries ++ before) }
{}

/// A run that stopped leaves the flow in the state in which it stopped.
#[tactic(auto, using(crate::proofs::HistoryLemmas::session_state))]
pub fn sessions_stop_in_their_state()
    ensures { (plan : Outline) (before entries : List Entry) (last : FlowState)
        → Session plan before entries (Some last) → flow_of (entries ++ before) ≡ last }
{}

/// A run that stopped recorded nothing where the flow had ended; else it entered, and then recorded of
/// the flow the state in which it stopped and at most SUSPENDING before.
#[tactic(auto, using(crate::proofs::SessionLemmas::whole_states))]
pub fn sessions_record_as_stated()
    ensures { (plan : Outline) (before entries : List Entry) (last : FlowState)
        → Session plan before entries (Some last) → IsWholeRun before entries last }
{}
