ghost use Rattle.std.specs.Prelude.{◌≡◌, ◌<◌, ℕ, Some, None, true, option_map, if◌then◌else◌};
ghost use Rattle.tf_flow.specs.Tree.{first_some, same_name};
ghost use Rattle.tf_model.specs.Plan.{outline_of, count};
ghost use Rattle.tf_model.specs.Scope.{given_by, given_by_result, item_at, part_given, symbol_value};
ghost use Rattle.tf_model.specs.History.{Snapshot, Shows, result_of};
ghost use Rattle.tf_numbers.specs.Numbers.{has_number};
ghost use Rattle.tf_scopes.specs.Sources.{bound_at, source_of};
ghost use Rattle.tf_scopes.specs.Found.{shown_in};

use crate::sources::Source;
use tf_flow::{Bind, Plan, Provides};
use tf_states::{AtomState, AtomView, Payload};
use tf_values::{Name, Scalar, Val};

/// A value that is lent.
#[derive(Clone, Copy, Debug)]
pub enum Found<'a> {
    /// A whole value.
    Whole(&'a Val),
    /// An item of a list.
    Part(&'a Scalar),
}

/// The value of a symbol for an atom at a moment of a run, which the views show, by the source from which
/// the atom takes it.
#[tactic(auto, using(tf_model::proofs::PlanLemmas::atoms_counted))]
pub fn found_in<'a>(
    plan: &'a Plan,
    views: &'a [AtomView],
    atom: u16,
    symbol: &Name,
    source: &Source,
) -> Option<Found<'a>>
    requires atom { atom < count (outline_of plan.now) }
    requires source { source.now ≡ source_of (outline_of plan.now) atom symbol.now }
    ensures { (s : Snapshot) → Shows views.now s
        → shown_in result ≡ symbol_value (outline_of plan.now) s atom symbol.now }
{
    match source {
        Source::Injected(place) => bound_at(plan.part(atom).injects(), *place),
        Source::Stored(place) => bound_at(plan.store().items(), *place),
        Source::Given(givers) => first_given(plan, views, symbol, givers.atoms()),
    }
}

/// The value at a place of the binds.
fn bound_at(binds: &[Bind], place: usize) -> Option<Found<'_>>
    ensures { shown_in result ≡ bound_at binds.now place }
{
    match binds.get(place) {
        None => None,
        Some(bind) => Some(Found::Whole(&bind.value)),
    }
}

/// The value that the first of these atoms gives a symbol that gives one.
#[tactic(auto, using(tf_model::proofs::PlanLemmas::atoms_counted))]
fn first_given<'a>(
    plan: &Plan,
    views: &'a [AtomView],
    symbol: &Name,
    atoms: &[u16],
) -> Option<Found<'a>>
    requires { (k : ℕ) → has_number atoms.now k ≡ true → k < count (outline_of plan.now) }
    ensures { (s : Snapshot) → Shows views.now s
        → shown_in result ≡ first_some (given_by (outline_of plan.now) s symbol.now) atoms.now }
{
    for atom in atoms {
        if let Some(found) = given_by(plan, views, symbol, *atom) {
            return Some(found);
        }
    }
    None
}

/// The value that an atom gives a symbol, where it is SUCCESS.
#[tactic(auto, using(tf_model::proofs::PlanLemmas::atoms_counted))]
fn given_by<'a>(plan: &Plan, views: &'a [AtomView], symbol: &Name, atom: u16) -> Option<Found<'a>>
    requires { atom < count (outline_of plan.now) }
    ensures { (s : Snapshot) → Shows views.now s → shown_in result ≡ given_by (outline_of plan.now) s symbol.now atom }
{
    let result = result_of(views, atom)?;
    given_by_result(plan.part(atom).provides(), result, symbol)
}

/// The result of an atom that is SUCCESS.
fn result_of(views: &[AtomView], atom: u16) -> Option<&Val>
    ensures { (s : Snapshot) → Shows views.now s → option_map (λ v. v.now) result ≡ result_of s atom }
{
    let view = views.get(atom as usize)?;
    if !matches!(view.state, AtomState::Success) {
        return None;
    }
    match &view.payload {
        Payload::Value(value) => Some(value),
        _ => None,
    }
}

/// The value that a result gives a symbol.
fn given_by_result<'a>(provides: &Provides, given: &'a Val, symbol: &Name) -> Option<Found<'a>>
    ensures { shown_in result ≡ given_by_result provides.now given.now symbol.now }
{
    match provides {
        Provides::Nothing => None,
        Provides::Whole(name) => whole_given(name, given, symbol),
        Provides::Parts(names) => part_given(names.items(), given, symbol),
    }
}

/// The whole result, where it has the symbol's name.
fn whole_given<'a>(name: &Name, given: &'a Val, symbol: &Name) -> Option<Found<'a>>
    ensures { shown_in result ≡ (if same_name name.now symbol.now then Some given.now else None) }
{
    if name == symbol {
        Some(Found::Whole(given))
    } else {
        None
    }
}

/// The item of a list result at the place of the symbol among the names.
fn part_given<'a>(names: &[Name], given: &'a Val, symbol: &Name) -> Option<Found<'a>>
    ensures { shown_in result ≡ part_given names.now given.now symbol.now 0 }
{
    for (place, name) in names.iter().enumerate() {
        if name == symbol {
            return item_at(given, place);
        }
    }
    None
}

/// The item of a list value at a place.
fn item_at(given: &Val, place: usize) -> Option<Found<'_>>
    ensures { shown_in result ≡ item_at given.now place }
{
    match given {
        Val::List(scalars) => scalars.items().get(place).map(Found::Part),
        _ => None,
    }
}
