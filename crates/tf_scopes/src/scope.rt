ghost use Rattle.std.specs.Prelude.{◌≡◌, IfOk, slice_get};
ghost use Rattle.tf_flow.specs.Plan.{PlanValue};
ghost use Rattle.tf_model.specs.Plan.{outline_of};
ghost use Rattle.tf_scopes.specs.Scope.{IsScopeIn, earlier_in};
ghost use Rattle.tf_scopes.specs.Sources.{givers};

use crate::sources::Givers;
use crate::stored::Stored;
use crate::symbols::Symbols;
use std::alloc::Global;
use tf_order::Graph;
use tf_values::{Memory, Name};

/// From where the scope of an atom is read: the graph, where those stand that list a symbol, where the
/// store has a symbol's value, and the atoms that stand before the atom. The atoms of an item stand together
/// in the standing order of all atoms, so this order, read backwards from the atom, goes through its own flow
/// first and then through those around it.
#[derive(Clone, Copy)]
pub struct Scope<'a> {
    pub graph: &'a Graph,
    pub symbols: &'a Symbols,
    pub stored: &'a Stored,
    pub front: &'a [u16],
    pub atom: u16,
}

/// The members of a scope that list a symbol, nearest first.
pub fn find_givers(alloc: Global, scope: &Scope<'_>, symbol: &Name) -> Result<Givers, Memory>
    ensures { IfOk result (λ found. (plan : PlanValue) → IsScopeIn scope.now plan
        → found ≡ givers (outline_of plan) scope.now.atom symbol.now) }
{
    let places = scope.symbols.places(symbol);
    let mut found = Vec::new(alloc);
    let mut left = places.len();
    while left > 0 {
        left -= 1;
        if let Some(member) = member_at(scope, places[left]) {
            found.push(member)?;
        }
    }
    Ok(Givers::make(found))
}

/// Who stands at a place before the atom of the scope, where that is before it.
fn member_at(scope: &Scope<'_>, place: usize) -> Option<u16>
    ensures { (plan : PlanValue) → IsScopeIn scope.now plan
        → result ≡ earlier_in (outline_of plan) scope.now.atom (slice_get scope.now.front.now place) }
{
    let member = *scope.front.get(place)?;
    if scope.graph.is_before(member, scope.atom) {
        Some(member)
    } else {
        None
    }
}
