ghost use Rattle.std.specs.Prelude.{◌≡◌, ℕ, List, IfOk};
ghost use Rattle.indexmap.specs.IndexMap.{get as place_in};
ghost use Rattle.tf_flow.specs.Tree.{same_name};
ghost use Rattle.tf_scopes.specs.Sources.{place_bound};
ghost use Rattle.tf_scopes.specs.Stored.{placed};

use indexmap::IndexMap;
use std::alloc::Global;
use tf_flow::Bind;
use tf_values::{Memory, Name};

/// The symbols of a store, each with the place of its value. Contracts see by `placed` the place of a symbol.
#[derive(Drop)]
pub struct Stored {
    places: IndexMap<Name, usize>,
}

impl Stored {
    /// The symbols of a store.
    pub fn make(alloc: Global, binds: &[Bind]) -> Result<Stored, Memory>
        ensures { IfOk result (λ stored. (symbol : List ℕ) → placed stored symbol ≡ place_bound binds.now symbol) }
    {
        let places = places_of(alloc, binds)?;
        Ok(Stored { places })
    }

    /// The place of the first value of a symbol; none where the store has none.
    pub fn place(&self, symbol: &Name) -> Option<usize>
        ensures { result ≡ placed self.now symbol.now }
    {
        match self.places.get(symbol) {
            Some(place) => Some(*place),
            None => None,
        }
    }
}

/// The places by symbol. They are put in from the last to the first, so that the first one of a symbol stays.
#[tactic(auto, using(crate::proofs::SourceLemmas::position_from_start))]
fn places_of(alloc: Global, binds: &[Bind]) -> Result<IndexMap<Name, usize>, Memory>
    ensures { IfOk result (λ places. (symbol : List ℕ)
        → place_in same_name places symbol ≡ place_bound binds.now symbol) }
{
    let mut places = IndexMap::with_capacity(alloc, binds.len())?;
    for i in (0..binds.len()).rev() {
        places.insert(binds[i].symbol, i)?;
    }
    Ok(places)
}
