ghost use Rattle.std.specs.Prelude.{◌≡◌, ◌<◌, IfSome, true, false, option_map};
ghost use Rattle.std.specs.List.{list_all};
ghost use Rattle.tf_numbers.specs.Numbers.{all_below};
ghost use Rattle.tf_model.specs.Plan.{outline_of, count, is_retry};
ghost use Rattle.tf_model.specs.Forced as rule;
ghost use Rattle.tf_machine.specs.declared.cases.Case.{Case as AnyCase};
ghost use Rattle.tf_machine.specs.Cases as specs;
ghost use Rattle.tf_machine.specs.Counts.{HasCounters};
ghost use Rattle.tf_machine.specs.Tables.{shown_by};
ghost use Rattle.tf_machine.specs.Worklists.{IsListed};

use crate::compiled::Compiled;
use crate::intervals::next_in;
use crate::readiness::{can_revert, can_run};
use crate::states::{is_failure, is_retrying, is_reverting, is_running, is_settled, is_success};
use crate::tables::{Tables, is_marked_again};
use crate::worklists::{Worklist, first_of};

/// A case in which an entry is forced.
#[derive(Clone, Copy, Debug)]
pub enum Case {
    /// A retry controller in RUNNING ends its attempt.
    Attempt,
    /// The flow of a retry controller in RETRYING is put back; then the controller becomes RUNNING.
    Again,
    /// A retry controller in REVERTING becomes REVERTED.
    Reverted,
    /// The resolution of a failure is recorded.
    Resolution,
    /// A retry controller whose flow is undone becomes RETRYING.
    Retrying,
    /// A retry controller that can revert becomes REVERTING.
    Revert,
    /// What a refused task ignores becomes IGNORE, and then the task.
    Ignore,
    /// A retry controller that can run becomes RUNNING.
    Run,
}

/// A case that applies, and the atom to which it does.
#[derive(Clone, Copy, Debug)]
pub struct Forcing {
    pub case: Case,
    pub atom: u16,
}

/// The place of a case in their order, and an atom to which it applies.
#[derive(Clone, Copy, Debug)]
pub struct Placed {
    pub place: usize,
    pub atom: u16,
}

/// The cases in their order.
const CASES: [Case; 8] = [
    Case::Attempt,
    Case::Again,
    Case::Reverted,
    Case::Resolution,
    Case::Retrying,
    Case::Revert,
    Case::Ignore,
    Case::Run,
];

/// The first case that applies, with the first atom to which it does. It is found in one pass over the atoms that are listed.
#[tactic(auto, using(crate::proofs::FirstLemmas::none_yet, crate::proofs::FirstLemmas::next_first, crate::proofs::FirstLemmas::skipped_first, crate::proofs::FirstLemmas::first_forced, crate::proofs::FirstLemmas::first_within, crate::proofs::FirstLemmas::none_forced))]
pub fn first_case(compiled: &Compiled, tables: &Tables, list: &Worklist) -> Option<Forcing>
    requires counted { HasCounters (outline_of compiled.now) tables.now }
    requires listed { IsListed (outline_of compiled.now) (shown_by tables.now) list.now }
    ensures entry { option_map (specs.entry_of (outline_of compiled.now) (shown_by tables.now)) result
        ≡ rule.forced_if_running (outline_of compiled.now) (shown_by tables.now) }
    ensures atom { IfSome result (λ found. found.atom < count (outline_of compiled.now)) }
{
    let mut first = None;
    let count = compiled.atoms();
    let mut atom = first_of(&list.forcing, count);
    while atom < count {
        first = sooner(first, case_at(compiled, tables, atom), atom);
        atom = next_in(&list.forcing, atom + 1, count);
    }
    match first {
        None => None,
        Some(found) => Some(Forcing {
            case: CASES[found.place],
            atom: found.atom,
        }),
    }
}

/// What was found so far, or a case that applies to a later atom where it is sooner in their order.
fn sooner(first: Option<Placed>, next: Option<usize>, atom: u16) -> Option<Placed>
    ensures { result ≡ specs.sooner first next atom }
{
    match (first, next) {
        (_, None) => first,
        (None, Some(place)) => Some(Placed { place, atom }),
        (Some(found), Some(place)) => {
            if place < found.place {
                Some(Placed { place, atom })
            } else {
                first
            }
        }
    }
}

/// The place of the first case that applies to an atom.
pub fn case_at(compiled: &Compiled, tables: &Tables, atom: u16) -> Option<usize>
    requires counted { HasCounters (outline_of compiled.now) tables.now }
    requires atom { atom < count (outline_of compiled.now) }
    ensures { specs.IsCaseAt (outline_of compiled.now) (shown_by tables.now) atom result }
{
    if is_quiet(compiled, tables, atom) {
        return None;
    }
    for place in 0..CASES.len() {
        if applies(compiled, tables, CASES[place], atom) {
            return Some(place);
        }
    }
    None
}

/// Whether an atom is a task that is neither FAILURE nor refused: no case applies to it then.
#[tactic(auto, using(crate::proofs::FirstLemmas::no_case_at))]
fn is_quiet(compiled: &Compiled, tables: &Tables, atom: u16) -> bool
    requires counted { HasCounters (outline_of compiled.now) tables.now }
    requires atom { atom < count (outline_of compiled.now) }
    ensures { result ≡ true → (k : AnyCase)
        → specs.applies (outline_of compiled.now) (shown_by tables.now) k atom ≡ false }
{
    if compiled.is_retry(atom) || is_failure(tables.state(atom)) {
        return false;
    }
    !is_refused(compiled, tables, atom)
}

/// Whether a case applies to an atom.
fn applies(compiled: &Compiled, tables: &Tables, case: Case, atom: u16) -> bool
    requires counted { HasCounters (outline_of compiled.now) tables.now }
    requires atom { atom < count (outline_of compiled.now) }
    ensures { result ≡ specs.applies (outline_of compiled.now) (shown_by tables.now) case atom }
{
    let state = tables.state(atom);
    match case {
        Case::Attempt => compiled.is_retry(atom) && is_running(state),
        Case::Again => compiled.is_retry(atom) && is_retrying(state),
        Case::Reverted => compiled.is_retry(atom) && is_reverting(state),
        Case::Resolution => is_failure(state) && tables.is_unmarked(atom),
        Case::Retrying => is_to_begin_again(compiled, tables, atom),
        Case::Revert => compiled.is_retry(atom) && can_revert(compiled, tables, atom),
        Case::Ignore => is_refused(compiled, tables, atom),
        Case::Run => compiled.is_retry(atom) && can_run(compiled, tables, atom),
    }
}

/// Whether a retry controller is to become RETRYING: it is SUCCESS, a resolve of its own flow is to run it
/// again, and every other atom of its flow is settled.
fn is_to_begin_again(compiled: &Compiled, tables: &Tables, atom: u16) -> bool
    ensures { result ≡ rule.is_to_begin_again (outline_of compiled.now) (shown_by tables.now) atom }
{
    if !is_asked_again(compiled, tables, atom) {
        return false;
    }
    are_settled_beside(compiled, tables, atom)
}

/// Whether a retry controller is SUCCESS and a resolve of its own flow is to run it again.
pub fn is_asked_again(compiled: &Compiled, tables: &Tables, atom: u16) -> bool
    ensures { result ≡ specs.is_asked_again (outline_of compiled.now) (shown_by tables.now) atom }
{
    compiled.is_retry(atom)
        && is_success(tables.state(atom))
        && is_marked_again(compiled.own_flow(atom), tables.mark(atom))
}

/// Whether every other atom of a retry controller's flow is settled.
fn are_settled_beside(compiled: &Compiled, tables: &Tables, retry: u16) -> bool
    ensures { result ≡ all_below (count (outline_of compiled.now))
        (rule.is_settled_beside (outline_of compiled.now) (shown_by tables.now) retry) }
{
    let span = compiled.span_around(retry);
    for atom in span.first..span.end {
        if !is_settled_beside(compiled, tables, retry, atom) {
            return false;
        }
    }
    true
}

/// Whether an atom is settled, if it is another one of a retry controller's flow.
fn is_settled_beside(compiled: &Compiled, tables: &Tables, retry: u16, atom: u16) -> bool
    ensures { result ≡ rule.is_settled_beside (outline_of compiled.now) (shown_by tables.now) retry atom }
{
    !compiled.is_of_its_flow(retry, atom) || is_settled(tables.state(atom))
}

/// Whether an atom can run and is refused.
fn is_refused(compiled: &Compiled, tables: &Tables, atom: u16) -> bool
    requires counted { HasCounters (outline_of compiled.now) tables.now }
    requires atom { atom < count (outline_of compiled.now) }
    ensures { result ≡ rule.is_refused (outline_of compiled.now) (shown_by tables.now) atom }
{
    if !compiled.is_decided(atom) {
        return false;
    }
    can_run(compiled, tables, atom) && compiled.widest(&tables.views, atom).is_some()
}
