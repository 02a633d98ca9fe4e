ghost use Rattle.std.specs.Prelude.{◌≡◌, ℕ, List, [], IfOk, OnOk, if◌then◌else◌};
ghost use Rattle.tf_flow.specs.Limits.{provided};
ghost use Rattle.tf_flow.specs.Tree.{same_name, is_among};
ghost use Rattle.tf_model.specs.Plan.{outline_of};
ghost use Rattle.tf_model.specs.Scope.{lists_symbol};
ghost use Rattle.tf_order.specs.Graph.{IsGraphOf};
ghost use Rattle.tf_order.specs.Index.{add_once};
ghost use Rattle.tf_scopes.specs.Symbols.{told, Tells};

use indexmap::IndexMap;
use std::alloc::Global;
use std::marker::Model;
use tf_flow::{Plan, Provides};
use tf_order::Graph;
use tf_values::{Memory, Name};

/// Places in ascending order. Contracts see the list.
#[derive(Drop)]
struct Places {
    items: Vec<usize>,
}

impl Model for Places {
    ghost use Rattle.std.specs.Prelude.{List, ℕ};

    ghost Value = { List ℕ };

    ghost view = { λ places. places.items.items };
}

impl Places {
    /// No place yet.
    fn new(alloc: Global) -> Places
        ensures { result ≡ [] }
    {
        Places {
            items: Vec::new(alloc),
        }
    }

    /// Adds a place, where it isn't the last one already.
    #[tactic(auto, using(tf_order::proofs::IndexLemmas::once_same))]
    fn add(&mut self, place: usize) -> Result<(), Memory>
        ensures { OnOk result (self.new ≡ add_once self.old place) }
    {
        if let Some(last) = self.items.last() {
            if *last == place {
                return Ok(());
            }
        }
        self.items.push(place)?;
        Ok(())
    }

    /// The places, in order.
    fn items(&self) -> &[usize]
        ensures { result.now ≡ self.now }
    {
        &self.items
    }
}

/// Symbols, each with the places in the standing order of the atoms that list it. Contracts see by `told`
/// the places of a symbol.
#[derive(Drop)]
pub struct Symbols {
    places: IndexMap<Name, Places>,
}

impl Symbols {
    /// The symbols that the atoms of a plan list.
    pub fn make(alloc: Global, plan: &Plan, graph: &Graph) -> Result<Symbols, Memory>
        requires { IsGraphOf graph.now plan.now }
        ensures { IfOk result (λ symbols. Tells symbols (outline_of plan.now)) }
    {
        let mut symbols = Symbols::new(alloc);
        for (place, atom) in graph.standing().iter().enumerate() {
            add_atom(alloc, plan, *atom, place, &mut symbols)?;
        }
        Ok(symbols)
    }

    /// The places of a symbol; none where no atom lists it.
    pub fn places(&self, symbol: &Name) -> &[usize]
        ensures { result.now ≡ told self.now symbol.now }
    {
        match self.places.get(symbol) {
            None => &[],
            Some(places) => places.items(),
        }
    }

    /// No symbol yet.
    fn new(alloc: Global) -> Symbols
        ensures { (symbol : List ℕ) → told result symbol ≡ [] }
    {
        Symbols {
            places: IndexMap::new(alloc),
        }
    }

    /// Adds a place to those of a symbol, where it isn't the last of them already.
    fn add(&mut self, alloc: Global, symbol: &Name, place: usize) -> Result<(), Memory>
        ensures { OnOk result ((other : List ℕ) → told self.new other
            ≡ (if same_name symbol.now other then add_once (told self.old other) place else told self.old other)) }
    {
        if let Some(places) = self.places.get_mut(symbol) {
            return places.add(place);
        }
        let mut places = Places::new(alloc);
        places.add(place)?;
        self.places.insert(*symbol, places)?;
        Ok(())
    }
}

/// Adds the place of an atom to each symbol that it lists; a number that no atom has lists none.
fn add_atom(
    alloc: Global,
    plan: &Plan,
    atom: u16,
    place: usize,
    symbols: &mut Symbols,
) -> Result<(), Memory>
    ensures { OnOk result ((symbol : List ℕ) → told symbols.new symbol
        ≡ (if lists_symbol (outline_of plan.now) symbol atom then add_once (told symbols.old symbol) place
        else told symbols.old symbol)) }
{
    if atom >= plan.atoms() {
        return Ok(());
    }
    add_provided(alloc, plan.part(atom).provides(), place, symbols)
}

/// Adds a place to those of each symbol that is provided.
#[tactic(auto, using(tf_order::proofs::IndexLemmas::one_provided))]
fn add_provided(
    alloc: Global,
    provides: &Provides,
    place: usize,
    symbols: &mut Symbols,
) -> Result<(), Memory>
    ensures { OnOk result ((symbol : List ℕ) → told symbols.new symbol
        ≡ (if is_among (provided provides.now) symbol then add_once (told symbols.old symbol) place
        else told symbols.old symbol)) }
{
    match provides {
        Provides::Nothing => Ok(()),
        Provides::Whole(name) => symbols.add(alloc, name, place),
        Provides::Parts(names) => add_names(alloc, names.items(), place, symbols),
    }
}

/// Adds a place to those of each of these symbols.
fn add_names(
    alloc: Global,
    names: &[Name],
    place: usize,
    symbols: &mut Symbols,
) -> Result<(), Memory>
    ensures { OnOk result ((symbol : List ℕ) → told symbols.new symbol
        ≡ (if is_among names.now symbol then add_once (told symbols.old symbol) place else told symbols.old symbol)) }
{
    for name in names {
        symbols.add(alloc, name, place)?;
    }
    Ok(())
}
