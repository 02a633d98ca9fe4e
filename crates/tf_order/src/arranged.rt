ghost use Rattle.std.specs.Prelude.{◌≡◌, List, false, nat_eq, IfSome};
ghost use Rattle.tf_model.specs.Before as before;
ghost use Rattle.tf_model.specs.Before.{Flow};
ghost use Rattle.tf_order.specs.Arranged.{comes_before, ShowsFlows};
ghost use Rattle.tf_links.specs.Links.{leads};
ghost use Rattle.tf_order.specs.Intervals.{IsSteady, stands_later};

use crate::paths::{Meeting, meeting_of};
use tf_flow::{FlowKind, Turn};
use tf_links::{Bits, Links, has_in};

/// A flow with what its kind and its links mean: the linked items of a graph flow and which of them
/// reaches which, and the atoms in standing order.
#[derive(Drop)]
pub struct Arranged {
    pub kind: FlowKind,
    pub links: Links,
    pub reach: Vec<Bits>,
    pub standing: Vec<usize>,
}

impl Arranged {
    /// Whether item `u` comes before item `v`.
    pub fn comes_before(&self, u: usize, v: usize) -> bool
        ensures { result ≡ comes_before self.now u v }
    {
        match self.kind {
            FlowKind::Linear => u < v && v < self.links.count(),
            FlowKind::Unordered => false,
            FlowKind::Graph => has_in(&self.reach, u, v),
        }
    }

    /// Up to which item `u` comes before all from `v` on, or before none, and isn't one of them, as far as
    /// it is found here.
    fn last_alike(&self, u: usize, v: usize) -> usize
        requires { nat_eq u v ≡ false }
        ensures { IsSteady u (comes_before self.now u) v result }
    {
        match self.kind {
            FlowKind::Linear => last_in_line(self.links.count(), u, v),
            FlowKind::Unordered => last_unordered(u, v),
            FlowKind::Graph => self.last_by_reach(u, v),
        }
    }

    /// The same by the rows of a graph flow.
    #[tactic(auto, using(crate::proofs::ArrangedLemmas::only_itself, crate::proofs::ArrangedLemmas::run_before, crate::proofs::ArrangedLemmas::run_apart))]
    fn last_by_reach(&self, u: usize, v: usize) -> usize
        requires { nat_eq u v ≡ false }
        ensures { IsSteady u (leads self.now.reach.items u) v result }
    {
        if self.reach.len() <= u || self.links.count() <= v {
            return v;
        }
        let end = self.reach[u].run_end(v, self.links.count());
        if v < u && u < end { u - 1 } else { end - 1 }
    }
}

/// Up to which item all from `v` on stand after `u`, or all before it, in a linear flow of so many items.
#[tactic(auto, using(crate::proofs::ArrangedLemmas::line_ahead, crate::proofs::ArrangedLemmas::line_behind))]
fn last_in_line(count: usize, u: usize, v: usize) -> usize
    requires { nat_eq u v ≡ false }
    ensures { IsSteady u (stands_later count u) v result }
{
    if v < u {
        u - 1
    } else {
        v.max(count.saturating_sub(1))
    }
}

/// Up to which item those from `v` on aren't `u`, in an unordered flow.
#[tactic(auto, using(crate::proofs::ArrangedLemmas::unordered_ahead, crate::proofs::ArrangedLemmas::unordered_behind))]
fn last_unordered(u: usize, v: usize) -> usize
    requires { nat_eq u v ≡ false }
    ensures { IsSteady u (λ w. false) v result }
{
    if v < u { u - 1 } else { usize::MAX }
}

/// Up to which item of a flow `u` comes before all from `v` on, or before none, and isn't one of them. None
/// is told where `v` is `u`.
#[tactic(auto, using(crate::proofs::ArrangedLemmas::steady_found))]
pub fn last_item_alike(table: &[Option<Arranged>], flow: usize, u: usize, v: usize) -> Option<usize>
    ensures { IfSome result (λ last. (flows : List Flow) → ShowsFlows table.now flows
        → IsSteady u (before.item_before flows flow u) v last) }
{
    if u == v {
        return None;
    }
    match table.get(flow) {
        Some(Some(arranged)) => Some(arranged.last_alike(u, v)),
        _ => None,
    }
}

/// Whether item `u` of a flow comes before item `v`. In a flow that isn't arranged yet none does.
#[tactic(auto, using(crate::proofs::ArrangedLemmas::order_found, crate::proofs::ArrangedLemmas::order_none))]
pub fn item_before(table: &[Option<Arranged>], flow: usize, u: usize, v: usize) -> bool
    ensures { (flows : List Flow) → ShowsFlows table.now flows → result ≡ before.item_before flows flow u v }
{
    match table.get(flow) {
        Some(Some(arranged)) => arranged.comes_before(u, v),
        _ => false,
    }
}

/// Whether an atom with the first path is before one with the second.
#[tactic(auto, using(crate::proofs::PathLemmas::path_before_met))]
pub fn is_path_before(table: &[Option<Arranged>], a: &[Turn], b: &[Turn]) -> bool
    ensures { (flows : List Flow) → ShowsFlows table.now flows → result ≡ before.path_before flows a.now b.now }
{
    match meeting_of(a, b) {
        Meeting::Apart => false,
        Meeting::First => true,
        Meeting::Items {
            flow,
            first,
            second,
        } => item_before(table, flow, first, second),
    }
}
