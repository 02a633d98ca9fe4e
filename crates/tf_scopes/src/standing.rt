ghost use Rattle.std.specs.Prelude.{◌≡◌, ℕ, IfOk, nat_eq, take_while};
ghost use Rattle.std.specs.List.{position_from};
ghost use Rattle.indexmap.specs.IndexMap.{get as place_in};
ghost use Rattle.tf_flow.specs.Plan.{PlanValue};
ghost use Rattle.tf_model.specs.Plan.{outline_of};
ghost use Rattle.tf_order.specs.Graph.{IsGraphOf, standing_of_plan};
ghost use Rattle.tf_scopes.specs.Order.{HasPlaces, IsOrderOf};
ghost use Rattle.tf_scopes.specs.Standing.{is_one, is_other};

use indexmap::IndexMap;
use std::alloc::Global;
use tf_order::Graph;
use tf_values::Memory;

/// The standing order of all atoms of a plan, with the place of each.
#[derive(Drop)]
pub struct StandingOrder<'a> {
    order: &'a [u16],
    places: IndexMap<u16, usize>,
}

impl<'a> StandingOrder<'a> {
    /// The standing order of a graph.
    pub fn make(alloc: Global, graph: &'a Graph) -> Result<StandingOrder<'a>, Memory>
        ensures places { IfOk result HasPlaces }
        ensures order { IfOk result (λ standing. (plan : PlanValue) → IsGraphOf graph.now plan
            → IsOrderOf standing plan) }
    {
        let order = graph.standing();
        let places = places_of(alloc, order)?;
        Ok(StandingOrder { order, places })
    }

    /// The atoms that stand before an atom.
    pub fn front(&self, atom: u16) -> &'a [u16]
        requires { HasPlaces self.now }
        ensures { (plan : PlanValue) → IsOrderOf self.now plan
            → result.now ≡ take_while (is_other atom) (standing_of_plan (outline_of plan)) }
    {
        front_in(self.order, &self.places, atom)
    }
}

/// The numbers before this one; all where it isn't there.
#[tactic(auto, using(crate::proofs::PlaceLemmas::front_here, crate::proofs::PlaceLemmas::front_whole))]
fn front_in<'a>(order: &'a [u16], places: &IndexMap<u16, usize>, number: u16) -> &'a [u16]
    requires { (n : ℕ) → place_in nat_eq places.now n ≡ position_from (is_one n) 0 order.now }
    ensures { result.now ≡ take_while (is_other number) order.now }
{
    match place_at(places, number) {
        Some(place) => &order[..place],
        None => order,
    }
}

/// The place of a number, if it has one.
fn place_at(places: &IndexMap<u16, usize>, number: u16) -> Option<usize>
    ensures { result ≡ place_in nat_eq places.now number }
{
    match places.get(&number) {
        Some(place) => Some(*place),
        None => None,
    }
}

/// The places by number. They are put in from the last to the first, so that the first one of a number stays.
fn places_of(alloc: Global, order: &[u16]) -> Result<IndexMap<u16, usize>, Memory>
    ensures { IfOk result (λ places. (n : ℕ)
        → place_in nat_eq places n ≡ position_from (is_one n) 0 order.now) }
{
    let mut places = IndexMap::with_capacity(alloc, order.len())?;
    for i in (0..order.len()).rev() {
        places.insert(order[i], i)?;
    }
    Ok(places)
}
