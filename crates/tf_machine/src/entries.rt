ghost use Rattle.std.specs.Prelude.{◌≡◌, ◌<◌, ◌≤◌, IfOk, OnOk, length};
ghost use Rattle.tf_numbers.specs.Numbers.{first_below};
ghost use Rattle.tf_actions.specs.declared.outcomes.Action.TheVariants.{Execute as execute};
ghost use Rattle.tf_model.specs.Plan.{outline_of, count};
ghost use Rattle.tf_model.specs.Forced as rule;
ghost use Rattle.tf_model.specs.Retries as retries;
ghost use Rattle.tf_model.specs.Scope.{given_for};
ghost use Rattle.tf_rules.specs.Answers.{HasAnswers};
ghost use Rattle.tf_machine.specs.Cases as specs;
ghost use Rattle.tf_machine.specs.Entries.{IsAsGiven};
ghost use Rattle.tf_machine.specs.Tables.{shown_by};

use crate::cases::{Case, Forcing};
use crate::compiled::Compiled;
use crate::states::{is_pending, is_put_back};
use crate::tables::Tables;
use std::alloc::Global;
use tf_actions::{Action, Args, Given};
use tf_flow::{Depth, Retry, RetryKind};
use tf_rules::{attempt_value, resolve, strategy};
use tf_states::{AtomState, Kind, Payload, What};
use tf_values::Memory;

/// A plan has no more atoms.
const ATOMS: usize = 1000;

/// The entry of a case, for its atom.
pub fn entry_of(
    alloc: Global,
    compiled: &Compiled,
    tables: &Tables,
    found: Forcing,
) -> Result<What, Memory>
    requires { found.atom < count (outline_of compiled.now) }
    ensures { IfOk result (λ what. what ≡ specs.entry_of (outline_of compiled.now) (shown_by tables.now) found) }
{
    let atom = found.atom;
    match found.case {
        Case::Attempt => attempt_entry(alloc, compiled, tables, atom),
        Case::Again => Ok(again_entry(compiled, tables, atom)),
        Case::Reverted => Ok(enters(atom, AtomState::Reverted)),
        Case::Resolution => resolution_entry(alloc, compiled, tables, atom),
        Case::Retrying => Ok(enters(atom, AtomState::Retrying)),
        Case::Revert => Ok(enters(atom, AtomState::Reverting)),
        Case::Ignore => Ok(ignore_entry(compiled, tables, atom)),
        Case::Run => Ok(enters(atom, AtomState::Running)),
    }
}

/// The atom enters a state that carries nothing.
fn enters(atom: u16, state: AtomState) -> What
    ensures { result ≡ rule.enters atom state }
{
    What::Atom {
        atom,
        state,
        payload: Payload::Empty,
    }
}

/// The end of a retry controller's attempt: its value, or its failure.
fn attempt_entry(
    alloc: Global,
    compiled: &Compiled,
    tables: &Tables,
    retry: u16,
) -> Result<What, Memory>
    requires { retry < count (outline_of compiled.now) }
    ensures { IfOk result (λ what. what ≡ rule.attempt_entry (outline_of compiled.now) (shown_by tables.now) retry) }
{
    let payload = attempt(alloc, compiled, tables, retry)?;
    Ok(ends_with(retry, payload))
}

/// An attempt ends SUCCESS with a value, and FAILURE with a failure.
fn ends_with(atom: u16, payload: Payload) -> What
    ensures { result ≡ retries.ends_with atom payload }
{
    let state = match &payload {
        Payload::Fault(_) => AtomState::Failure,
        _ => AtomState::Success,
    };
    What::Atom {
        atom,
        state,
        payload,
    }
}

/// What the attempt of a retry controller has that began last.
fn attempt(
    alloc: Global,
    compiled: &Compiled,
    tables: &Tables,
    atom: u16,
) -> Result<Payload, Memory>
    requires { atom < count (outline_of compiled.now) }
    ensures { IfOk result (λ payload. payload ≡ retries.attempt (outline_of compiled.now) (shown_by tables.now) atom) }
{
    match compiled.retry(atom) {
        None => Ok(Payload::Empty),
        Some(retry) => {
            let given = given_to(alloc, compiled, tables, atom, retry)?;
            let payload = attempt_value(alloc, retry, tables.attempts(atom), &given)?;
            Ok(payload)
        }
    }
}

/// What a retry controller is given, where it reads it: all kinds but one have no use for arguments.
fn given_to(
    alloc: Global,
    compiled: &Compiled,
    tables: &Tables,
    atom: u16,
    retry: &Retry,
) -> Result<Given, Memory>
    requires { atom < count (outline_of compiled.now) }
    ensures { IfOk result (λ given. IsAsGiven retry.now.kind given
        (given_for (outline_of compiled.now) (shown_by tables.now) atom execute)) }
{
    match &retry.kind {
        RetryKind::Parameterized { .. } => {
            let given = compiled.given(alloc, &tables.views, atom, Action::Execute)?;
            Ok(given)
        }
        RetryKind::AlwaysRevert
        | RetryKind::AlwaysRevertAll
        | RetryKind::Times { .. }
        | RetryKind::ForEach { .. } => Ok(Given::Found(Args::make(Vec::new(alloc)))),
    }
}

/// What becomes of a failure: it is resolved by the answers of the retry controllers around it.
fn resolution_entry(
    alloc: Global,
    compiled: &Compiled,
    tables: &Tables,
    atom: u16,
) -> Result<What, Memory>
    requires { atom < count (outline_of compiled.now) }
    ensures { IfOk result (λ what. what ≡ rule.resolution_entry (outline_of compiled.now) (shown_by tables.now) atom) }
{
    compiled.atoms();
    let mut answers = [Kind::Revert; ATOMS];
    ask_around(alloc, compiled, tables, atom, &mut answers)?;
    let resolution = resolve(compiled.plan(), &answers, atom);
    Ok(What::Resolve {
        flow: resolution.flow,
        kind: resolution.kind,
    })
}

/// What the retry controllers around an atom answer to its failure comes to stand at their numbers; at others stands
/// what stood there.
#[tactic(auto, using(crate::proofs::EntryLemmas::asked_none))]
fn ask_around(
    alloc: Global,
    compiled: &Compiled,
    tables: &Tables,
    atom: u16,
    answers: &mut [Kind],
) -> Result<(), Memory>
    requires atom { atom < count (outline_of compiled.now) }
    requires room { count (outline_of compiled.now) ≤ length answers.old }
    ensures { OnOk result (HasAnswers answers.new (outline_of compiled.now) (shown_by tables.now) atom) }
{
    for turn in compiled.path(atom) {
        if let Some(retry) = compiled.retry_of(turn.flow) {
            answers[retry as usize] = answer(alloc, compiled, tables, retry)?;
        }
    }
    Ok(())
}

/// What an atom answers.
fn answer(alloc: Global, compiled: &Compiled, tables: &Tables, atom: u16) -> Result<Kind, Memory>
    requires { atom < count (outline_of compiled.now) }
    ensures { IfOk result (λ kind. kind ≡ retries.answer (outline_of compiled.now) (shown_by tables.now) atom) }
{
    match compiled.retry(atom) {
        None => Ok(Kind::Revert),
        Some(retry) => {
            let given = given_to(alloc, compiled, tables, atom, retry)?;
            Ok(strategy(retry, tables.attempts(atom), &given))
        }
    }
}

/// What a retry controller in RETRYING has put back next, or its RUNNING where nothing is left.
fn again_entry(compiled: &Compiled, tables: &Tables, retry: u16) -> What
    ensures { result ≡ rule.again_entry (outline_of compiled.now) (shown_by tables.now) retry }
{
    match first_to_put_back(compiled, tables, retry) {
        None => enters(retry, AtomState::Running),
        Some(atom) => enters(atom, AtomState::Pending),
    }
}

/// The first atom of a retry controller's flow that is to be put back.
fn first_to_put_back(compiled: &Compiled, tables: &Tables, retry: u16) -> Option<u16>
    ensures { result ≡ first_below (count (outline_of compiled.now))
        (rule.is_to_put_back (outline_of compiled.now) (shown_by tables.now) retry) }
{
    let span = compiled.span_around(retry);
    for atom in span.first..span.end {
        if is_to_put_back(compiled, tables, retry, atom) {
            return Some(atom);
        }
    }
    None
}

/// Whether an atom is another one of a retry controller's flow, and is REVERTED or IGNORE.
fn is_to_put_back(compiled: &Compiled, tables: &Tables, retry: u16, atom: u16) -> bool
    ensures { result ≡ rule.is_to_put_back (outline_of compiled.now) (shown_by tables.now) retry atom }
{
    if !is_put_back(tables.state(atom)) {
        return false;
    }
    compiled.is_of_its_flow(retry, atom)
}

/// What is ignored next, since an atom is refused.
fn ignore_entry(compiled: &Compiled, tables: &Tables, refused: u16) -> What
    requires { refused < count (outline_of compiled.now) }
    ensures { result ≡ rule.ignore_entry (outline_of compiled.now) (shown_by tables.now) refused }
{
    let Some(depth) = compiled.widest(&tables.views, refused) else {
        return enters(refused, AtomState::Ignore);
    };
    match first_ignored(compiled, tables, refused, depth) {
        None => enters(refused, AtomState::Ignore),
        Some(atom) => enters(atom, AtomState::Ignore),
    }
}

/// The first other atom that is PENDING and that this depth of a refused one ignores.
#[tactic(auto, using(tf_numbers::proofs::BelowLemmas::still_none))]
fn first_ignored(compiled: &Compiled, tables: &Tables, refused: u16, depth: Depth) -> Option<u16>
    requires { refused < count (outline_of compiled.now) }
    ensures { result ≡ first_below (count (outline_of compiled.now))
        (rule.is_to_ignore (outline_of compiled.now) (shown_by tables.now) refused depth) }
{
    for atom in 0..compiled.atoms() {
        if is_to_ignore(compiled, tables, refused, depth, atom) {
            return Some(atom);
        }
    }
    None
}

/// Whether another atom is PENDING, and this depth of a refused one ignores it.
fn is_to_ignore(compiled: &Compiled, tables: &Tables, refused: u16, depth: Depth, atom: u16) -> bool
    requires refused { refused < count (outline_of compiled.now) }
    requires atom { atom < count (outline_of compiled.now) }
    ensures { result ≡ rule.is_to_ignore (outline_of compiled.now) (shown_by tables.now) refused depth atom }
{
    refused != atom && is_pending(tables.state(atom)) && compiled.ignores(refused, depth, atom)
}
