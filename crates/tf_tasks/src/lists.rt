ghost use Rattle.std.specs.Prelude.{◌≡◌, ◌++◌, ◌<◌, ◌^◌, pos, IfOk};
ghost use Rattle.std.specs.List.{flat_map};
ghost use Rattle.tf_values.specs.declared.value.Val.TheVariants as value;
ghost use Rattle.tf_actions.specs.declared.outcomes.Outcome.TheVariants as outcome;
ghost use Rattle.tf_actions.specs.Built.{spread, spread_pair, listed, measured, picked, picked_by, item_at};

use std::alloc::Global;
use tf_actions::{Outcome, Pair};
use tf_states::Failure;
use tf_values::{Memory, Scalar, Scalars, Val};

/// A list of all arguments, in which a list stands for its items.
pub fn list(alloc: Global, pairs: &[Pair]) -> Result<Outcome, Memory>
    ensures { IfOk result (λ outcome. outcome ≡ listed pairs.now) }
{
    match Scalars::make(spread_all(alloc, pairs)?) {
        Ok(scalars) => Ok(Outcome::Gave(Val::List(scalars))),
        Err(_) => Ok(Outcome::Failed(Failure::TooLong)),
    }
}

/// The scalars of all arguments.
fn spread_all(alloc: Global, pairs: &[Pair]) -> Result<Vec<Scalar>, Memory>
    ensures { IfOk result (λ scalars. scalars.items ≡ flat_map spread_pair pairs.now) }
{
    let mut scalars = Vec::new(alloc);
    for pair in pairs {
        append_spread(alloc, &pair.value, &mut scalars)?;
    }
    Ok(scalars)
}

/// Appends the items of a list, or another value itself.
fn append_spread(alloc: Global, value: &Val, out: &mut Vec<Scalar>) -> Result<(), Memory>
    ensures { IfOk result (λ _. out.new.items ≡ out.old.items ++ spread value.now) }
{
    match value {
        Val::Nothing => out.push(Scalar::Nothing)?,
        Val::Truth(truth) => out.push(Scalar::Truth(*truth))?,
        Val::Int(number) => out.push(Scalar::Int(*number))?,
        Val::Text(text) => out.push(Scalar::Text(text.copy(alloc)?))?,
        Val::List(scalars) => append_copies(alloc, scalars.items(), out)?,
    }
    Ok(())
}

/// Appends equal scalars.
fn append_copies(alloc: Global, scalars: &[Scalar], out: &mut Vec<Scalar>) -> Result<(), Memory>
    ensures { IfOk result (λ _. out.new.items ≡ out.old.items ++ scalars.now) }
{
    for scalar in scalars {
        out.push(scalar.copy(alloc)?)?;
    }
    Ok(())
}

/// How many bytes a text has, or items a list.
pub fn measure(pair: &Pair) -> Outcome
    ensures { result ≡ measured pair.now.name pair.now.value }
{
    match &pair.value {
        Val::Text(text) => count_of(text.bytes().len()),
        Val::List(scalars) => count_of(scalars.items().len()),
        _ => Outcome::Failed(Failure::WrongKind(pair.name)),
    }
}

/// A count, as a value.
fn count_of(len: usize) -> Outcome
    requires { len < 2 ^ 63 }
    ensures { result ≡ outcome.Gave (value.Int (pos len)) }
{
    Outcome::Gave(Val::Int(len as i64))
}

/// The item of the first argument at the place that the second is.
pub fn pick(alloc: Global, first: &Pair, second: &Pair) -> Result<Outcome, Memory>
    ensures { IfOk result (λ outcome. outcome ≡ picked first.now first.now.value second.now) }
{
    match &first.value {
        Val::List(scalars) => pick_by(alloc, scalars.items(), second),
        _ => Ok(Outcome::Failed(Failure::WrongKind(first.name))),
    }
}

fn pick_by(alloc: Global, scalars: &[Scalar], second: &Pair) -> Result<Outcome, Memory>
    ensures { IfOk result (λ outcome. outcome ≡ picked_by scalars.now second.now second.now.value) }
{
    match &second.value {
        Val::Int(place) => item(alloc, scalars, *place),
        _ => Ok(Outcome::Failed(Failure::WrongKind(second.name))),
    }
}

/// The item at a place, from 0.
fn item(alloc: Global, scalars: &[Scalar], place: i64) -> Result<Outcome, Memory>
    ensures { IfOk result (λ outcome. outcome ≡ item_at scalars.now place) }
{
    if place < 0 {
        return Ok(Outcome::Failed(Failure::Range));
    }
    match scalars.get(place as usize) {
        Some(scalar) => Ok(Outcome::Gave(Val::from(scalar.copy(alloc)?))),
        None => Ok(Outcome::Failed(Failure::Range)),
    }
}
