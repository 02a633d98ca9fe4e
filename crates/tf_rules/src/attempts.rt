ghost use Rattle.std.specs.Prelude.{◌≡◌, ◌<◌, IfOk, IfSome, Some, codes, length, option_map};
ghost use Rattle.tf_flow.specs.Outline.{a_retry};
ghost use Rattle.tf_flow.specs.Plan as numbering;
ghost use Rattle.tf_model.specs.Plan.{outline_of, count};
ghost use Rattle.tf_model.specs.Retries as retries;
ghost use Rattle.tf_model.specs.Scope.{item_value};

use std::alloc::Global;
use tf_actions::{Given, Pair};
use tf_flow::{Part, Plan, Retry, RetryKind};
use tf_states::{Failure, Kind, Payload};
use tf_values::{Memory, Name, Scalar, Val};

/// The name of the argument that holds a parameterized retry controller's values.
const VALUES: &[u8; 6] = b"values";

/// The retry controller of this number; none where a task has it.
#[tactic(auto, using(tf_model::proofs::PlanLemmas::atoms_counted))]
pub fn retry_at(plan: &Plan, atom: u16) -> Option<&Retry>
    requires { atom < count (outline_of plan.now) }
    ensures kind { option_map (λ retry. retry.now.kind) result ≡ retries.retry_kind (outline_of plan.now) atom }
    ensures part { IfSome result (λ retry. numbering.part plan.now atom ≡ Some (a_retry retry.now)) }
{
    match plan.part(atom) {
        Part::Retry(retry) => Some(retry),
        Part::Task(_) => None,
    }
}

/// What the attempt of a retry controller after so many others has: a value, or a failure. Where memory
/// runs out nothing is changed.
pub fn attempt_value(
    alloc: Global,
    retry: &Retry,
    done: u32,
    given: &Given,
) -> Result<Payload, Memory>
    ensures { IfOk result (λ payload. payload ≡ retries.attempt_by retry.now.kind given.now done) }
{
    match &retry.kind {
        RetryKind::AlwaysRevert | RetryKind::AlwaysRevertAll => Ok(Payload::Value(Val::Nothing)),
        RetryKind::Times { .. } => Ok(Payload::Value(Val::Int(i64::from(done) + 1))),
        RetryKind::ForEach { values, .. } => item_or_exhausted(alloc, values.items(), done),
        RetryKind::Parameterized { .. } => item_of_given(alloc, given, done),
    }
}

/// An item as a value; an attempt without an item fails.
fn item_or_exhausted(alloc: Global, scalars: &[Scalar], place: u32) -> Result<Payload, Memory>
    ensures { IfOk result (λ payload. payload ≡ retries.item_or_exhausted (item_value scalars.now place)) }
{
    match scalars.get(place as usize) {
        None => Ok(Payload::Fault(Failure::Exhausted)),
        Some(scalar) => Ok(Payload::Value(Val::from(scalar.copy(alloc)?))),
    }
}

/// An item of the argument `values`; a missing symbol comes first.
fn item_of_given(alloc: Global, given: &Given, place: u32) -> Result<Payload, Memory>
    ensures { IfOk result (λ payload. payload ≡ retries.item_of_given given.now place) }
{
    match given {
        Given::Missing(symbol) => Ok(Payload::Fault(Failure::Lookup(*symbol))),
        Given::Found(args) => item_of_values(alloc, values_among(args.items()), place),
    }
}

/// An item of what was found as the argument `values`, which must be a list.
fn item_of_values(alloc: Global, values: Option<&Val>, place: u32) -> Result<Payload, Memory>
    ensures { IfOk result (λ payload. payload ≡ retries.item_of_values (option_map (λ v. v.now) values.entry) place) }
{
    match values {
        Some(Val::List(scalars)) => item_or_exhausted(alloc, scalars.items(), place),
        _ => Ok(Payload::Fault(Failure::WrongKind(values_name()))),
    }
}

/// The name `values`.
fn values_name() -> Name
    ensures { result ≡ codes "values" }
{
    match Name::make(VALUES) {
        Some(name) => name,
        None => unreachable!(),
    }
}

/// The value of the argument `values`.
fn values_among(pairs: &[Pair]) -> Option<&Val>
    ensures { option_map (λ v. v.now) result ≡ retries.argument_named pairs.now (codes "values") }
{
    for pair in pairs {
        if pair.name.bytes() == VALUES.as_slice() {
            return Some(&pair.value);
        }
    }
    None
}

/// What a retry controller answers where its flow failed after so many attempts. It takes no memory.
pub fn strategy(retry: &Retry, done: u32, given: &Given) -> Kind
    ensures { result ≡ retries.answer_by retry.now.kind given.now done }
{
    match &retry.kind {
        RetryKind::AlwaysRevert => Kind::Revert,
        RetryKind::AlwaysRevertAll => Kind::RevertAll,
        RetryKind::Times { attempts, all } => try_again(done, *attempts as usize, *all),
        RetryKind::ForEach { values, all } => try_again(done, values.items().len(), *all),
        RetryKind::Parameterized { all } => answer_by_given(given, done, *all),
    }
}

/// Another attempt, while fewer were done than there are.
fn try_again(done: u32, limit: usize, all: bool) -> Kind
    ensures { result ≡ retries.try_again done limit all }
{
    if (done as usize) < limit {
        Kind::Retry
    } else {
        give_up(all)
    }
}

/// The answer where no attempt is left.
fn give_up(all: bool) -> Kind
    ensures { result ≡ retries.give_up all }
{
    if all { Kind::RevertAll } else { Kind::Revert }
}

/// The answer of a controller that goes through the argument `values`.
fn answer_by_given(given: &Given, done: u32, all: bool) -> Kind
    ensures { result ≡ retries.answer_by_given given.now done all }
{
    match given {
        Given::Missing(_) => give_up(all),
        Given::Found(args) => answer_by_values(values_among(args.items()), done, all),
    }
}

/// The answer by what was found as the argument `values`.
fn answer_by_values(values: Option<&Val>, done: u32, all: bool) -> Kind
    ensures { result ≡ retries.answer_by_values (option_map (λ v. v.now) values.entry) done all }
{
    match values {
        Some(Val::List(scalars)) => try_again(done, scalars.items().len(), all),
        _ => give_up(all),
    }
}
