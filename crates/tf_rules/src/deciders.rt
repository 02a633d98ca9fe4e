ghost use Rattle.std.specs.Prelude.{◌≡◌, ◌<◌, None, false};
ghost use Rattle.tf_flow.specs.Outline.{connection_of, decision_of};
ghost use Rattle.tf_model.specs.Readiness as deciders;
ghost use Rattle.tf_model.specs.Plan.{outline_of, count};
ghost use Rattle.tf_model.specs.History.{Snapshot, Shows};
ghost use Rattle.tf_model.specs.History as states;
ghost use Rattle.tf_rules.specs.Seen.{seen_in};
ghost use Rattle.tf_rules.specs.Deciders.{has_any, refusing_depths, wider_if_any};

use crate::conditions::{Seen, decides_on, passes};
use crate::flows::links_around;
use tf_flow::{Decider, Depth, Link, Plan};
use tf_states::{AtomState, AtomView};
use tf_values::Name;

/// Whether a link with a decider leads to an atom. Where none does, nothing can refuse the atom.
#[tactic(auto, using(tf_model::proofs::PlanLemmas::atoms_counted))]
pub fn has_decider(plan: &Plan, atom: u16) -> bool
    requires { atom < count (outline_of plan.now) }
    ensures is { result ≡ has_any (deciders.decider_links (outline_of plan.now) atom) }
    ensures never { result ≡ false → (s : Snapshot) → deciders.refused (outline_of plan.now) s atom ≡ None }
{
    let name = plan.atom_name(atom);
    for link in links_around(plan, atom) {
        if decides_on(name, link) {
            return true;
        }
    }
    false
}

/// The widest depth among the links that refuse an atom at a moment of a run, which the views show; none
/// exactly where no asked link refuses it. A link whose source was ignored isn't asked. It takes no memory.
#[tactic(auto, using(tf_model::proofs::PlanLemmas::atoms_counted))]
pub fn widest(plan: &Plan, views: &[AtomView], atom: u16) -> Option<Depth>
    requires { atom < count (outline_of plan.now) }
    ensures { (s : Snapshot) → Shows views.now s → result ≡ deciders.refused (outline_of plan.now) s atom }
{
    let seen = Seen {
        plan,
        views,
        links: links_around(plan, atom),
        task: plan.atom_name(atom),
    };
    widest_of(&seen)
}

/// The widest depth among the links that refuse the task whose tests see this.
fn widest_of(seen: &Seen<'_>) -> Option<Depth>
    ensures { (s : Snapshot) → Shows seen.now.views.now s
        → result ≡ deciders.widest (refusing_depths s seen.now seen.now.links.now) }
{
    let mut found = None;
    for link in seen.links {
        if decides_on(seen.task, link) {
            found = wider_of(found, refused_depth(seen, link));
        }
    }
    found
}

/// The wider of two depths, where there are two.
fn wider_of(one: Option<Depth>, other: Option<Depth>) -> Option<Depth>
    ensures { result ≡ wider_if_any one other }
{
    match (one, other) {
        (None, found) | (found, None) => found,
        (Some(one), Some(other)) => Some(wider(one, other)),
    }
}

/// The wider of two depths: ALL, FLOW, NEIGHBORS, ATOM.
fn wider(one: Depth, other: Depth) -> Depth
    ensures { result ≡ deciders.wider one other }
{
    match (one, other) {
        (Depth::All, _) | (_, Depth::All) => Depth::All,
        (Depth::Flow, _) | (_, Depth::Flow) => Depth::Flow,
        (Depth::Neighbors, _) | (_, Depth::Neighbors) => Depth::Neighbors,
        (Depth::Atom, Depth::Atom) => Depth::Atom,
    }
}

/// The depth of a link whose test is false; a link whose source was ignored isn't asked.
fn refused_depth(seen: &Seen<'_>, link: &Link) -> Option<Depth>
    ensures { (s : Snapshot) → Shows seen.now.views.now s
        → result ≡ deciders.refused_depth (outline_of seen.now.plan.now) s (seen_in s seen.now)
        (connection_of link.now) }
{
    if was_ignored(seen, &link.from) {
        return None;
    }
    depth_if_false(seen, &link.decider)
}

/// Whether the task of a name is IGNORE.
fn was_ignored(seen: &Seen<'_>, name: &Name) -> bool
    ensures { (s : Snapshot) → Shows seen.now.views.now s
        → result ≡ deciders.was_ignored s (deciders.atom_named (outline_of seen.now.plan.now) name.now) }
{
    match seen.plan.find(name) {
        None => false,
        Some(source) => is_ignored(seen.views, source),
    }
}

/// Whether an atom is IGNORE.
fn is_ignored(views: &[AtomView], atom: u16) -> bool
    ensures { (s : Snapshot) → Shows views.now s → result ≡ states.is_ignored (s.state atom) }
{
    match views.get(atom as usize) {
        None => false,
        Some(view) => matches!(view.state, AtomState::Ignore),
    }
}

/// The depth of a decider whose test is false.
fn depth_if_false(seen: &Seen<'_>, decider: &Option<Decider>) -> Option<Depth>
    ensures { (s : Snapshot) → Shows seen.now.views.now s
        → result ≡ deciders.depth_if_false (seen_in s seen.now) (decision_of decider.now) }
{
    let decider = decider.as_ref()?;
    if passes(seen, &decider.test) {
        None
    } else {
        Some(decider.depth)
    }
}
