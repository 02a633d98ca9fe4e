ghost use Rattle.std.specs.Prelude.{◌≡◌, ◌≢◌, ◌<◌, ◌&&◌, true, false, None, Some, IfSome, option_map};
ghost use Rattle.tf_numbers.specs.Numbers.{first_below};
ghost use Rattle.tf_model.specs.Plan.{outline_of, count, is_task};
ghost use Rattle.tf_model.specs.Forced.{is_interrupted, is_candidate, is_best, taken_up, choice, candidate_if_running};
ghost use Rattle.tf_hands.specs.Hands.{start_entry, action_in};
ghost use Rattle.tf_machine.specs.Best.{outranked, is_start};
ghost use Rattle.tf_machine.specs.Counts.{HasCounters};
ghost use Rattle.tf_machine.specs.Tables.{shown_by};
ghost use Rattle.tf_machine.specs.Worklists.{IsListed};

use crate::compiled::Compiled;
use crate::forcing::{is_active, something_forced};
use crate::readiness::{can_revert, can_run};
use crate::states::is_at_work;
use crate::tables::Tables;
use crate::worklists::{Worklist, first_of};
use tf_actions::Action;
use tf_hands::Start;
use tf_states::{AtomState, Payload, What};

/// Whether a task is at work, and no hand has it in flight.
fn is_interrupted(compiled: &Compiled, tables: &Tables, atom: u16) -> bool
    ensures { result ≡ is_interrupted (outline_of compiled.now) (shown_by tables.now) atom }
{
    compiled.is_task(atom) && is_at_work(tables.state(atom)) && tables.hand(atom).is_none()
}

/// Whether a task may be taken up.
pub fn is_candidate(compiled: &Compiled, tables: &Tables, atom: u16) -> bool
    requires counted { HasCounters (outline_of compiled.now) tables.now }
    requires atom { atom < count (outline_of compiled.now) }
    ensures { result ≡ is_candidate (outline_of compiled.now) (shown_by tables.now) atom }
{
    is_interrupted(compiled, tables, atom)
        || (compiled.is_task(atom)
            && (can_run(compiled, tables, atom) || can_revert(compiled, tables, atom)))
}

/// Whether an atom has a greater priority than the best one so far, if there is one.
fn outranks(compiled: &Compiled, best: Option<u16>, atom: u16) -> bool
    ensures { result ≡ outranked (outline_of compiled.now) best atom }
{
    match best {
        None => true,
        Some(best) => compiled.priority(best) < compiled.priority(atom),
    }
}

/// Whether a task may be taken up, which it may not where it isn't listed.
fn is_listed_candidate(compiled: &Compiled, tables: &Tables, list: &Worklist, atom: u16) -> bool
    requires counted { HasCounters (outline_of compiled.now) tables.now }
    requires listed { IsListed (outline_of compiled.now) (shown_by tables.now) list.now }
    requires atom { atom < count (outline_of compiled.now) }
    ensures { result ≡ is_candidate (outline_of compiled.now) (shown_by tables.now) atom }
{
    list.ready.has(atom as usize) && is_candidate(compiled, tables, atom)
}

/// The first candidate, of the greatest priority and then in tree order, read as if the flow were
/// RUNNING.
#[tactic(auto, using(crate::proofs::BestLemmas::best_is, crate::proofs::BestLemmas::none_best))]
pub fn best(compiled: &Compiled, tables: &Tables, list: &Worklist) -> Option<u16>
    requires counted { HasCounters (outline_of compiled.now) tables.now }
    requires listed { IsListed (outline_of compiled.now) (shown_by tables.now) list.now }
    ensures { result ≡ first_below (count (outline_of compiled.now))
        (is_best (outline_of compiled.now) (shown_by tables.now)) }
{
    let mut best = None;
    let start = first_of(&list.ready, compiled.atoms());
    for atom in start..compiled.atoms() {
        if outranks(compiled, best, atom) && is_listed_candidate(compiled, tables, list, atom) {
            best = Some(atom);
            if compiled.is_outranked_by_none(atom) {
                return best;
            }
        }
    }
    best
}

/// How a task in this state is taken up.
fn start_of(state: AtomState, atom: u16) -> Start
    ensures entry { start_entry result ≡ taken_up state atom }
    ensures action { result.action ≡ action_in state }
    ensures atom { result.atom ≡ atom }
{
    let (action, restart) = match state {
        AtomState::Pending => (Action::Execute, false),
        AtomState::Running => (Action::Execute, true),
        AtomState::Reverting => (Action::Revert, true),
        _ => (Action::Revert, false),
    };
    Start {
        atom,
        action,
        restart,
    }
}

/// The first candidate, while the flow is RUNNING, no atom is REVERT_FAILURE and nothing is forced.
#[tactic(auto, using(crate::proofs::BestLemmas::choice_none))]
pub fn candidate(compiled: &Compiled, tables: &Tables, list: &Worklist) -> Option<Start>
    requires counted { HasCounters (outline_of compiled.now) tables.now }
    requires listed { IsListed (outline_of compiled.now) (shown_by tables.now) list.now }
    ensures entry { option_map start_entry result ≡ choice (outline_of compiled.now) (shown_by tables.now) }
    ensures action { IfSome result (λ start. start.action ≡ action_in ((shown_by tables.now).state start.atom)) }
    ensures task { IfSome result (λ start. is_task (outline_of compiled.now) start.atom ≡ true) }
{
    if !is_active(compiled, tables, list) {
        return None;
    }
    if something_forced(compiled, tables, list) {
        return None;
    }
    match best(compiled, tables, list) {
        Some(atom) => Some(start_of(tables.state(atom), atom)),
        None => None,
    }
}

/// Whether an entry could be that of some start.
fn may_start(what: &What) -> bool
    ensures { result ≡ is_start what.now }
{
    match what {
        What::Restart(_) => true,
        What::Atom { state, payload, .. } => {
            is_at_work(*state) && matches!(payload, Payload::Empty)
        }
        _ => false,
    }
}

/// Whether this is the entry of the start.
fn is_entry_of(start: &Start, what: &What) -> bool
    ensures yes { result ≡ true → start_entry start.now ≡ what.now }
    ensures no { result ≡ false → start_entry start.now ≢ what.now }
{
    match what {
        What::Restart(atom) => start.restart && *atom == start.atom,
        What::Atom {
            atom,
            state,
            payload,
        } => {
            !start.restart
                && *atom == start.atom
                && matches!(payload, Payload::Empty)
                && match start.action {
                    Action::Execute => matches!(state, AtomState::Running),
                    Action::Revert => matches!(state, AtomState::Reverting),
                }
        }
        _ => false,
    }
}

/// Whether the first candidate is taken up by this entry.
#[tactic(auto, using(crate::proofs::BestLemmas::never_chosen))]
pub fn is_choice(compiled: &Compiled, tables: &Tables, list: &Worklist, what: &What) -> bool
    requires counted { HasCounters (outline_of compiled.now) tables.now }
    requires listed { IsListed (outline_of compiled.now) (shown_by tables.now) list.now }
    ensures yes { result ≡ true → choice (outline_of compiled.now) (shown_by tables.now) ≡ Some what.now }
    ensures no { result ≡ false → choice (outline_of compiled.now) (shown_by tables.now) ≢ Some what.now }
{
    if !may_start(what) {
        return false;
    }
    match candidate(compiled, tables, list) {
        Some(start) => is_entry_of(&start, what),
        None => false,
    }
}
