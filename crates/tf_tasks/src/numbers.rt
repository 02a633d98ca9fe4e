ghost use Rattle.std.specs.Prelude.{◌≡◌, ◌++◌, ◌≤◌, ◌*◌, ◌^◌, ◌≤ℤ◌, neg_ℤ, pos, length, codes, IfOk};
ghost use Rattle.std.specs.List.{list_all};
ghost use Rattle.std.specs.Fmt.{signed_decimal};
ghost use Rattle.tf_flow.specs.Tree.{first_some};
ghost use Rattle.tf_actions.specs.Built.{is_integer, has_integers, scalar_amount, scalars_total, amount, total, not_summed, summed, not_below, not_below_by, compared};

use itoa::Buffer;
use std::alloc::Global;
use tf_actions::{Outcome, Pair};
use tf_states::Failure;
use tf_values::{MakeFault, Memory, Name, Scalar, Text, Val};

/// The total of the arguments, which are integers and lists of integers.
pub fn sum(pairs: &[Pair]) -> Outcome
    requires few { length pairs.now ≤ 64 }
    ensures { result ≡ summed pairs.now }
{
    if let Some(name) = first_not_summed(pairs) {
        return Outcome::Failed(Failure::WrongKind(name));
    }
    match i64::try_from(total_of(pairs)) {
        Ok(number) => Outcome::Gave(Val::Int(number)),
        Err(_) => Outcome::Failed(Failure::Overflow),
    }
}

/// The name of the first argument that is no integer and no list of integers.
fn first_not_summed(pairs: &[Pair]) -> Option<Name>
    ensures { result ≡ first_some not_summed pairs.now }
{
    for pair in pairs {
        if !is_summed(&pair.value) {
            return Some(pair.name);
        }
    }
    None
}

fn is_summed(value: &Val) -> bool
    ensures { result ≡ has_integers value.now }
{
    match value {
        Val::Int(_) => true,
        Val::List(scalars) => are_integers(scalars.items()),
        _ => false,
    }
}

fn are_integers(scalars: &[Scalar]) -> bool
    ensures { result ≡ list_all is_integer scalars.now }
{
    for scalar in scalars {
        if !matches!(scalar, Scalar::Int(_)) {
            return false;
        }
    }
    true
}

/// The total of all arguments, in which everything but integers counts as 0.
fn total_of(pairs: &[Pair]) -> i128
    requires few { length pairs.now ≤ 64 }
    ensures { result ≡ total pairs.now }
{
    let mut sum = 0;
    for pair in pairs {
        sum += amount_of(&pair.value);
    }
    sum
}

/// The integer, or the total of a list's integers.
fn amount_of(value: &Val) -> i128
    ensures is { result ≡ amount value.now }
    ensures low { neg_ℤ (pos (2 ^ 73)) ≤ℤ result }
    ensures high { result ≤ℤ pos (2 ^ 73) }
{
    match value {
        Val::Int(number) => i128::from(*number),
        Val::List(scalars) => scalars_total_of(scalars.items()),
        _ => 0,
    }
}

fn scalars_total_of(scalars: &[Scalar]) -> i128
    requires few { length scalars.now ≤ 1024 }
    ensures is { result ≡ scalars_total scalars.now }
    ensures low { neg_ℤ (pos (2 ^ 73)) ≤ℤ result }
    ensures high { result ≤ℤ pos (2 ^ 73) }
{
    let mut sum = 0;
    for scalar in scalars {
        sum += scalar_amount_of(scalar);
    }
    sum
}

fn scalar_amount_of(scalar: &Scalar) -> i128
    ensures is { result ≡ scalar_amount scalar.now }
    ensures low { neg_ℤ (pos (2 ^ 63)) ≤ℤ result }
    ensures high { result ≤ℤ pos (2 ^ 63) }
{
    match scalar {
        Scalar::Int(number) => i128::from(*number),
        _ => 0,
    }
}

/// The first of two integers where it isn't below the second, and else a failure that shows them.
pub fn compare(alloc: Global, first: &Pair, second: &Pair) -> Result<Outcome, Memory>
    ensures { IfOk result (λ outcome. outcome ≡ compared first.now first.now.value second.now) }
{
    match &first.value {
        Val::Int(number) => compare_with(alloc, *number, second),
        _ => Ok(Outcome::Failed(Failure::WrongKind(first.name))),
    }
}

fn compare_with(alloc: Global, number: i64, second: &Pair) -> Result<Outcome, Memory>
    ensures { IfOk result (λ outcome. outcome ≡ not_below_by number second.now second.now.value) }
{
    match &second.value {
        Val::Int(bound) => compare_numbers(alloc, number, *bound),
        _ => Ok(Outcome::Failed(Failure::WrongKind(second.name))),
    }
}

fn compare_numbers(alloc: Global, number: i64, bound: i64) -> Result<Outcome, Memory>
    ensures { IfOk result (λ outcome. outcome ≡ not_below number bound) }
{
    if number >= bound {
        return Ok(Outcome::Gave(Val::Int(number)));
    }
    let bytes = below_text(alloc, number, bound)?;
    match Text::make(alloc, &bytes) {
        Ok(text) => Ok(Outcome::Failed(Failure::Raised(text))),
        Err(MakeFault::No) => unreachable!(),
        Err(MakeFault::Memory) => Err(Memory),
    }
}

/// The words that a number is below another.
fn below_text(alloc: Global, number: i64, bound: i64) -> Result<Vec<u8>, Memory>
    ensures { IfOk result (λ bytes. bytes.items ≡ signed_decimal number ++ codes " below " ++ signed_decimal bound) }
{
    let mut buffer = Buffer::new();
    let mut bytes = Vec::from_slice(alloc, buffer.format(number).as_bytes())?;
    bytes.extend_from_slice(b" below ")?;
    bytes.extend_from_slice(buffer.format(bound).as_bytes())?;
    Ok(bytes)
}
