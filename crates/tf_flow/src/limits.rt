ghost use Rattle.std.specs.Prelude.{◌≡◌, length, filter, sum_by};
ghost use Rattle.tf_flow.specs.Limits as limit;
ghost use Rattle.tf_flow.specs.Limits.{capped};
ghost use Rattle.tf_flow.specs.Tree.{first_some, at_flow, at_retry, at_task, is_atom, is_flow};
ghost use Rattle.tf_flow.specs.Shown.{level, shown, shown_places};

use crate::atoms::{Bind, Provides, Retry, Task, Undo};
use crate::byte_length::{measured, plan_len};
use crate::deciders::{Decider, Link};
use crate::faults::{Limit, PlanFault};
use crate::outline::Place;

/// The limits in the order in which they are looked at.
const LIMITS: [Limit; 12] = [
    Limit::Nesting,
    Limit::Atoms,
    Limit::Flows,
    Limit::Links,
    Limit::Arguments,
    Limit::Injects,
    Limit::Provided,
    Limit::Words,
    Limit::Store,
    Limit::Test,
    Limit::Comparisons,
    Limit::Plan,
];

/// The first limit that is passed, with its count.
pub fn first_limit(nesting: u64, order: &[Place<'_>], store: &[Bind]) -> Option<PlanFault>
    ensures { result ≡ limit.too_large nesting (shown_places order.now) store.now }
{
    first_of(&LIMITS, nesting, order, store)
}

/// The first of these limits that is passed, with its count.
fn first_of(
    limits: &[Limit],
    nesting: u64,
    order: &[Place<'_>],
    store: &[Bind],
) -> Option<PlanFault>
    ensures { result ≡ first_some (limit.limit_fault nesting (shown_places order.now) store.now) limits.now }
{
    for limit in limits {
        let which = *limit;
        if let Some(n) = passed(which, nesting, order, store) {
            return Some(PlanFault::TooLarge { which, n });
        }
    }
    None
}

/// The count that passes this limit.
fn passed(which: Limit, nesting: u64, order: &[Place<'_>], store: &[Bind]) -> Option<u64>
    ensures { result ≡ limit.passed nesting (shown_places order.now) store.now which }
{
    match which {
        Limit::Nesting => passing(16, nesting),
        Limit::Atoms => passing(1_000, atom_count(order)),
        Limit::Flows => passing(500, flow_count(order)),
        Limit::Links => passing(4_000, link_count(order)),
        Limit::Store => passing(256, store.len() as u64),
        Limit::Plan => passing(1_048_576, plan_len(order, store)),
        Limit::Arguments
        | Limit::Injects
        | Limit::Provided
        | Limit::Words
        | Limit::Test
        | Limit::Comparisons => first_passing(which, order),
    }
}

fn passing(most: u64, count: u64) -> Option<u64>
    ensures { result ≡ limit.passing most count }
{
    if most < count { Some(count) } else { None }
}

/// How many atoms there are.
pub fn atom_count(order: &[Place<'_>]) -> u64
    ensures { result ≡ length (filter is_atom (shown_places order.now)) }
{
    let mut count = 0u64;
    for place in order {
        if !place.is_flow() {
            count += 1;
        }
    }
    count
}

fn flow_count(order: &[Place<'_>]) -> u64
    ensures { result ≡ length (filter is_flow (shown_places order.now)) }
{
    let mut count = 0u64;
    for place in order {
        if place.is_flow() {
            count += 1;
        }
    }
    count
}

fn link_count(order: &[Place<'_>]) -> u64
    ensures { result ≡ capped (sum_by limit.link_count (shown_places order.now)) }
{
    let mut count = 0u64;
    for place in order {
        count = count.saturating_add(links_at(*place));
    }
    count
}

fn links_at(place: Place<'_>) -> u64
    ensures { result ≡ limit.link_count (shown place.entry) }
{
    match place {
        Place::Flow(flow) => flow.links.items().len() as u64,
        Place::Retry(_) | Place::Task(_) => 0,
    }
}

/// The count of the first atom or decider, in tree order, that passes this limit.
fn first_passing(which: Limit, order: &[Place<'_>]) -> Option<u64>
    ensures { result ≡ first_some (limit.passing_at which) (shown_places order.now) }
{
    for place in order {
        if let Some(n) = place_passing(which, *place) {
            return Some(n);
        }
    }
    None
}

fn place_passing(which: Limit, place: Place<'_>) -> Option<u64>
    ensures { result ≡ limit.passing_at which (shown place.entry) }
{
    match place {
        Place::Flow(flow) => links_passing(which, flow.links.items()),
        Place::Retry(retry) => retry_passing(which, retry),
        Place::Task(task) => task_passing(which, task),
    }
}

fn links_passing(which: Limit, links: &[Link]) -> Option<u64>
    ensures { result ≡ limit.passing_links which links.now }
{
    match which {
        Limit::Test => first_deep_test(links),
        Limit::Comparisons => first_wide_test(links),
        _ => None,
    }
}

fn first_deep_test(links: &[Link]) -> Option<u64>
    ensures { result ≡ first_some limit.passing_nesting links.now }
{
    for link in links {
        if let Some(n) = deep_test(&link.decider) {
            return Some(n);
        }
    }
    None
}

fn deep_test(decider: &Option<Decider>) -> Option<u64>
    ensures { result ≡ limit.deep_test decider.now }
{
    match decider {
        None => None,
        Some(decider) => passing(16, measured(&decider.test).nesting),
    }
}

fn first_wide_test(links: &[Link]) -> Option<u64>
    ensures { result ≡ first_some limit.passing_comparisons links.now }
{
    for link in links {
        if let Some(n) = wide_test(&link.decider) {
            return Some(n);
        }
    }
    None
}

fn wide_test(decider: &Option<Decider>) -> Option<u64>
    ensures { result ≡ limit.wide_test decider.now }
{
    match decider {
        None => None,
        Some(decider) => passing(64, measured(&decider.test).comparisons),
    }
}

fn retry_passing(which: Limit, retry: &Retry) -> Option<u64>
    ensures { result ≡ limit.passing_at which (at_retry retry.now) }
{
    match which {
        Limit::Arguments => passing(64, retry.args.items().len() as u64),
        Limit::Injects => passing(64, retry.inject.items().len() as u64),
        Limit::Provided => passing(64, provided_count(&retry.provides)),
        _ => None,
    }
}

fn task_passing(which: Limit, task: &Task) -> Option<u64>
    ensures { result ≡ limit.passing_at which (at_task task.now) }
{
    match which {
        Limit::Arguments => passing(64, task.args.items().len() as u64),
        Limit::Injects => passing(64, task.inject.items().len() as u64),
        Limit::Provided => passing(64, provided_count(&task.provides)),
        Limit::Words => words_passing(task.words.items().len() as u64, undo_count(&task.undo)),
        _ => None,
    }
}

/// The count of a task's own words where it passes the limit, or else that of the words that revert it.
fn words_passing(run: u64, undo: u64) -> Option<u64>
    ensures { result ≡ limit.words_passing run undo }
{
    match passing(64, run) {
        Some(n) => Some(n),
        None => passing(64, undo),
    }
}

fn provided_count(provides: &Provides) -> u64
    ensures { result ≡ length (limit.provided provides.now) }
{
    match provides {
        Provides::Nothing => 0,
        Provides::Whole(_) => 1,
        Provides::Parts(names) => names.items().len() as u64,
    }
}

fn undo_count(undo: &Undo) -> u64
    ensures { result ≡ length (limit.undo_words undo.now) }
{
    match undo {
        Undo::Pass | Undo::Fail => 0,
        Undo::Run(words) => words.items().len() as u64,
    }
}
