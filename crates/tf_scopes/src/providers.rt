ghost use Rattle.std.specs.Prelude.{◌≡◌, ◌<◌, ◌++◌, ◌∷◌, [], None, Some, IfOk, IfErr, OnOk, length, slice_get, option_map};
ghost use Rattle.tf_flow.specs.declared.atoms.Arg.{Arg};
ghost use Rattle.tf_model.specs.Plan.{outline_of, count, arguments};
ghost use Rattle.tf_model.specs.Scope.{missing_symbol, missing_of, symbol_value};
ghost use Rattle.tf_model.specs.History.{Snapshot, Shows};
ghost use Rattle.tf_order.specs.Graph.{IsGraphOf};
ghost use Rattle.tf_scopes.specs.Scope.{IsScopeIn};
ghost use Rattle.tf_scopes.specs.Sources.{place_bound, source_of, sources_of};
ghost use Rattle.tf_scopes.specs.Order.{HasPlaces, IsOrderOf};
ghost use Rattle.tf_scopes.specs.Stored.{IsStoreOf};
ghost use Rattle.tf_scopes.specs.Symbols.{Tells};
ghost use Rattle.tf_scopes.specs.Providers.{IsOf, IsMissing};
ghost use Rattle.tf_scopes.specs.Found.{shown_in};

use crate::faults::ScopeFault;
use crate::found::{Found, found_in};
use crate::scope::{Scope, find_givers};
use crate::sources::{Source, Sources};
use crate::standing::StandingOrder;
use crate::stored::Stored;
use crate::symbols::Symbols;
use std::alloc::Global;
use std::marker::Model;
use tf_flow::{Bind, Plan};
use tf_order::Graph;
use tf_states::AtomView;
use tf_values::{Memory, Name};

/// From where each atom of a plan takes the value of each of its arguments. Contracts see the table, and
/// that it is a plan's says `IsOf`.
#[derive(Drop)]
pub struct Providers {
    rows: Vec<Sources>,
}

impl Model for Providers {
    ghost use Rattle.std.specs.Prelude.{List};
    ghost use Rattle.tf_scopes.specs.declared.sources.Source.{Source};

    ghost Value = { List (List Source) };

    ghost view = { λ providers. providers.rows.items };
}

impl Providers {
    /// The value that an atom's argument has at a moment of a run, which the views show: the atom's own
    /// inject, else the store's value, else what the nearest atom of its scope gives that is SUCCESS and
    /// gives the symbol. There is none where the symbol is missing. The value is lent, and no memory is
    /// taken.
    #[tactic(auto, using(tf_model::proofs::PlanLemmas::atoms_counted))]
    pub fn value<'a>(
        &self,
        plan: &'a Plan,
        views: &'a [AtomView],
        atom: u16,
        argument: usize,
    ) -> Option<Found<'a>>
        requires providers { IsOf self.now plan.now }
        requires atom { atom < count (outline_of plan.now) }
        requires argument { argument < length (arguments (outline_of plan.now) atom) }
        ensures { (s : Snapshot) (arg : Arg) → Shows views.now s
            → slice_get (arguments (outline_of plan.now) atom) argument ≡ Some arg
            → shown_in result ≡ symbol_value (outline_of plan.now) s atom arg.symbol }
    {
        let symbol = &plan.part(atom).args()[argument].symbol;
        let source = &self.rows[atom as usize].items()[argument];
        found_in(plan, views, atom, symbol, source)
    }

    /// The table of no atom, with room for so many.
    fn with_room(alloc: Global, atoms: u16) -> Result<Providers, Memory>
        ensures { IfOk result (λ providers. providers ≡ []) }
    {
        let rows = Vec::with_capacity(alloc, atoms as usize)?;
        Ok(Providers { rows })
    }

    /// Adds the sources of one atom more.
    fn push(&mut self, row: Sources) -> Result<(), Memory>
        ensures { OnOk result (self.new ≡ self.old ++ row ∷ []) }
    {
        self.rows.push(row)?;
        Ok(())
    }
}

/// From where each atom of a plan takes the values of its arguments. It is refused where a symbol has no
/// inject, no value in the store and no atom of the scope that lists it: atoms in tree order, arguments in
/// order.
#[tactic(auto, using(tf_model::proofs::PlanLemmas::atoms_counted))]
pub fn find_providers(alloc: Global, plan: &Plan, graph: &Graph) -> Result<Providers, ScopeFault>
    requires { IsGraphOf graph.now plan.now }
    ensures found { IfOk result (λ providers. IsOf providers plan.now) }
    ensures complete { OnOk result (missing_symbol (outline_of plan.now) ≡ None) }
    ensures missing { IfErr result (IsMissing (missing_symbol (outline_of plan.now))) }
{
    let symbols = Symbols::make(alloc, plan, graph)?;
    let stored = Stored::make(alloc, plan.store().items())?;
    let standing = StandingOrder::make(alloc, graph)?;
    let mut providers = Providers::with_room(alloc, plan.atoms())?;
    for atom in 0..plan.atoms() {
        let row = find_row(alloc, plan, graph, &symbols, &stored, &standing, atom)?;
        providers.push(row)?;
    }
    Ok(providers)
}

/// From where an atom takes the values of its arguments, or the first symbol that is missing.
#[tactic(auto, using(tf_model::proofs::PlanLemmas::atoms_counted))]
fn find_row(
    alloc: Global,
    plan: &Plan,
    graph: &Graph,
    symbols: &Symbols,
    stored: &Stored,
    standing: &StandingOrder<'_>,
    atom: u16,
) -> Result<Sources, ScopeFault>
    requires graph { IsGraphOf graph.now plan.now }
    requires symbols { Tells symbols.now (outline_of plan.now) }
    requires stored { IsStoreOf stored.now plan.now }
    requires places { HasPlaces standing.now }
    requires standing { IsOrderOf standing.now plan.now }
    requires atom { atom < count (outline_of plan.now) }
    ensures found { IfOk result (λ sources. sources ≡ sources_of (outline_of plan.now) atom) }
    ensures complete { OnOk result (missing_of (outline_of plan.now) atom ≡ None) }
    ensures missing { IfErr result (IsMissing (missing_of (outline_of plan.now) atom)) }
{
    let scope = Scope {
        graph,
        symbols,
        stored,
        front: standing.front(atom),
        atom,
    };
    find_sources(alloc, plan, &scope)
}

/// From where the atom of a scope takes the values of its arguments, or the first symbol that is missing.
#[tactic(auto, using(tf_model::proofs::PlanLemmas::atoms_counted))]
fn find_sources(alloc: Global, plan: &Plan, scope: &Scope<'_>) -> Result<Sources, ScopeFault>
    requires { IsScopeIn scope.now plan.now }
    ensures found { IfOk result (λ sources. sources ≡ sources_of (outline_of plan.now) scope.now.atom) }
    ensures complete { OnOk result (missing_of (outline_of plan.now) scope.now.atom ≡ None) }
    ensures missing { IfErr result (IsMissing (missing_of (outline_of plan.now) scope.now.atom)) }
{
    let part = plan.part(scope.atom);
    let mut sources = Sources::with_room(alloc, part.args().len())?;
    for arg in part.args() {
        let source = find_source(alloc, plan, scope, &arg.symbol)?;
        if source.gives_nothing() {
            return Err(ScopeFault::Missing {
                atom: part.name(),
                symbol: arg.symbol,
            });
        }
        sources.push(source)?;
    }
    Ok(sources)
}

/// From where the atom of a scope takes the value of a symbol.
#[tactic(auto, using(tf_model::proofs::PlanLemmas::atoms_counted))]
fn find_source(
    alloc: Global,
    plan: &Plan,
    scope: &Scope<'_>,
    symbol: &Name,
) -> Result<Source, Memory>
    requires { IsScopeIn scope.now plan.now }
    ensures { IfOk result (λ source. source ≡ source_of (outline_of plan.now) scope.now.atom symbol.now) }
{
    if let Some(place) = place_bound(plan.part(scope.atom).injects(), symbol) {
        return Ok(Source::Injected(place));
    }
    if let Some(place) = scope.stored.place(symbol) {
        return Ok(Source::Stored(place));
    }
    let givers = find_givers(alloc, scope, symbol)?;
    Ok(Source::Given(givers))
}

/// The place of the first bind of a symbol.
fn place_bound(binds: &[Bind], symbol: &Name) -> Option<usize>
    ensures { result ≡ place_bound binds.now symbol.now }
{
    binds.iter().position(|bind| bind.symbol == *symbol)
}
