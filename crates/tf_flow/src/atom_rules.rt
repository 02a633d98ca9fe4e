ghost use Rattle.std.specs.Prelude.{◌≡◌, None, Some, IfOk, codes, if◌then◌else◌};
ghost use Rattle.tf_flow.specs.Limits.{provided};
ghost use Rattle.tf_flow.specs.Tree.{first_some, has_twice, is_among};
ghost use Rattle.tf_flow.specs.Rules as rule;
ghost use Rattle.tf_flow.specs.Shown.{shown, shown_places};

use crate::atoms::{Arg, Bind, Provides, Retry, RetryKind, Task, TaskKind, Undo};
use crate::outline::Place;
use crate::repeats::has_name_twice;
use std::alloc::Global;
use tf_values::{Memory, Name, Text};

/// The name of the argument that holds a parameterized retry's values.
const VALUES: &[u8; 6] = b"values";

/// The first atom, in tree order, that breaks a rule.
pub fn first_bad_atom(alloc: Global, order: &[Place<'_>]) -> Result<Option<Name>, Memory>
    ensures { IfOk result (λ name. name ≡ first_some rule.bad_atom_at (shown_places order.now)) }
{
    for place in order {
        if let Some(name) = bad_atom_at(alloc, *place)? {
            return Ok(Some(name));
        }
    }
    Ok(None)
}

fn bad_atom_at(alloc: Global, place: Place<'_>) -> Result<Option<Name>, Memory>
    ensures { IfOk result (λ name. name ≡ rule.bad_atom_at (shown place.entry)) }
{
    match place {
        Place::Flow(_) => Ok(None),
        Place::Retry(retry) => Ok(named_where(is_bad_retry(alloc, retry)?, retry.name)),
        Place::Task(task) => Ok(named_where(is_bad_task(alloc, task)?, task.name)),
    }
}

fn named_where(bad: bool, name: Name) -> Option<Name>
    ensures { result ≡ (if bad then Some name else None) }
{
    if bad { Some(name) } else { None }
}

fn is_bad_task(alloc: Global, task: &Task) -> Result<bool, Memory>
    ensures { IfOk result (λ bad. bad ≡ rule.is_bad_task task.now) }
{
    if task.args.items().len() < least_arguments(task.kind) {
        return Ok(true);
    }
    if has_wrong_words(task.kind, task.words.items()) {
        return Ok(true);
    }
    if runs_nothing(&task.undo) {
        return Ok(true);
    }
    repeats_itself(
        alloc,
        task.args.items(),
        task.inject.items(),
        &task.provides,
    )
}

fn is_bad_retry(alloc: Global, retry: &Retry) -> Result<bool, Memory>
    ensures { IfOk result (λ bad. bad ≡ rule.is_bad_retry retry.now) }
{
    if is_bad_retry_kind(&retry.kind, retry.args.items()) {
        return Ok(true);
    }
    repeats_itself(
        alloc,
        retry.args.items(),
        retry.inject.items(),
        &retry.provides,
    )
}

fn least_arguments(kind: TaskKind) -> usize
    ensures { result ≡ rule.least_arguments kind }
{
    match kind {
        TaskKind::Pick | TaskKind::FailBelow => 2,
        TaskKind::Length | TaskKind::FailUnless => 1,
        TaskKind::Echo
        | TaskKind::Concat
        | TaskKind::Sum
        | TaskKind::List
        | TaskKind::Fail
        | TaskKind::Command => 0,
    }
}

fn has_wrong_words(kind: TaskKind, words: &[Text]) -> bool
    ensures { result ≡ rule.has_wrong_words kind words.now }
{
    match kind {
        TaskKind::Command => words.is_empty(),
        _ => !words.is_empty(),
    }
}

fn runs_nothing(undo: &Undo) -> bool
    ensures { result ≡ rule.runs_nothing undo.now }
{
    match undo {
        Undo::Pass | Undo::Fail => false,
        Undo::Run(words) => words.items().is_empty(),
    }
}

fn is_bad_retry_kind(kind: &RetryKind, args: &[Arg]) -> bool
    ensures { result ≡ rule.is_bad_retry_kind kind.now args.now }
{
    match kind {
        RetryKind::AlwaysRevert | RetryKind::AlwaysRevertAll | RetryKind::ForEach { .. } => false,
        RetryKind::Times { attempts, .. } => *attempts < 1 || 1_000 < *attempts,
        RetryKind::Parameterized { .. } => !has_argument(args, VALUES),
    }
}

/// Whether an argument has this name.
fn has_argument(args: &[Arg], name: &[u8]) -> bool
    ensures { result ≡ is_among (rule.arg_names args.now) name.now }
{
    for arg in args {
        if name == arg.name.bytes() {
            return true;
        }
    }
    false
}

/// Whether an argument name, an inject symbol or a provided name stands twice.
fn repeats_itself(
    alloc: Global,
    args: &[Arg],
    inject: &[Bind],
    provides: &Provides,
) -> Result<bool, Memory>
    ensures { IfOk result (λ repeats. repeats ≡ rule.repeats_itself args.now inject.now provides.now) }
{
    if has_name_twice(alloc, args)? {
        return Ok(true);
    }
    if has_name_twice(alloc, inject)? {
        return Ok(true);
    }
    has_provided_twice(alloc, provides)
}

fn has_provided_twice(alloc: Global, provides: &Provides) -> Result<bool, Memory>
    ensures { IfOk result (λ twice. twice ≡ has_twice (provided provides.now)) }
{
    match provides {
        Provides::Nothing | Provides::Whole(_) => Ok(false),
        Provides::Parts(names) => has_name_twice(alloc, names.items()),
    }
}
