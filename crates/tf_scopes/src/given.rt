ghost use Rattle.std.specs.Prelude.{◌≡◌, ◌<◌, IfOk};
ghost use Rattle.tf_model.specs.Plan.{outline_of, count};
ghost use Rattle.tf_model.specs.Scope.{given_for, or_nothing};
ghost use Rattle.tf_model.specs.History.{Snapshot, Shows};
ghost use Rattle.tf_scopes.specs.Found.{shown_in};
ghost use Rattle.tf_scopes.specs.Given.{is_missed};
ghost use Rattle.tf_scopes.specs.Providers.{IsOf};

use crate::found::Found;
use crate::providers::Providers;
use std::alloc::Global;
use tf_actions::{Action, Args, Given, Pair};
use tf_flow::Plan;
use tf_states::AtomView;
use tf_values::{Memory, Val};

impl Providers {
    /// What an atom is given for an action at a moment of a run, which the views show: its arguments with
    /// their values, in order. To execute, the first symbol that is missing takes their place; to revert, a
    /// missing value is Nothing. The values are copies; where memory runs out nothing is changed.
    #[tactic(auto, using(tf_model::proofs::PlanLemmas::atoms_counted))]
    pub fn arguments(
        &self,
        alloc: Global,
        plan: &Plan,
        views: &[AtomView],
        atom: u16,
        action: Action,
    ) -> Result<Given, Memory>
        requires providers { IsOf self.now plan.now }
        requires atom { atom < count (outline_of plan.now) }
        ensures { (s : Snapshot) → Shows views.now s
            → IfOk result (λ given. given ≡ given_for (outline_of plan.now) s atom action) }
    {
        let args = plan.part(atom).args();
        let mut pairs = Vec::with_capacity(alloc, args.len())?;
        for (place, arg) in args.iter().enumerate() {
            let found = self.value(plan, views, atom, place);
            if is_missed(found, action) {
                return Ok(Given::Missing(arg.symbol));
            }
            let value = value_or_nothing(alloc, found)?;
            pairs.push(Pair {
                name: arg.name,
                value,
            })?;
        }
        Ok(Given::Found(Args::make(pairs)))
    }
}

/// Whether a value is missing and the action can't do without it.
fn is_missed(found: Option<Found<'_>>, action: Action) -> bool
    ensures { result ≡ is_missed (shown_in found.entry) action }
{
    match (found, action) {
        (None, Action::Execute) => true,
        _ => false,
    }
}

/// A copy of the value that is lent; Nothing where none is.
fn value_or_nothing(alloc: Global, found: Option<Found<'_>>) -> Result<Val, Memory>
    ensures { IfOk result (λ value. value ≡ or_nothing (shown_in found.entry)) }
{
    match found {
        None => Ok(Val::Nothing),
        Some(Found::Whole(value)) => Ok(value.copy(alloc)?),
        Some(Found::Part(scalar)) => Ok(Val::from(scalar.copy(alloc)?)),
    }
}
