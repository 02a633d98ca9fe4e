ghost use Rattle.std.specs.Prelude.{◌≡◌, ◌<◌, ◌≤◌, List, true, false, IfSome};
ghost use Rattle.tf_model.specs.Before.{Flow, same_place, path_at};
ghost use Rattle.tf_model.specs.Plan.{is_before};
ghost use Rattle.tf_order.specs.Arranged.{ShowsFlows};
ghost use Rattle.tf_flow.specs.Listing.{shown_atoms};
ghost use Rattle.tf_order.specs.Intervals.{IsAscending, Agree, IsUpToItem, GoesAlong, IsAlike, IsAlongUpTo, TellsTheSame};
ghost use Rattle.tf_order.specs.Tables.{plan_seen, atoms_found, is_after_last};

use crate::arranged::{Arranged, is_path_before, last_item_alike};
use tf_flow::{Outline, Turn};

/// Atoms that stand side by side, from one up to before the end, and whether another is before all of
/// them, or before none.
#[derive(Clone, Copy)]
pub struct Interval {
    pub end: usize,
    pub is_after: bool,
}

impl Interval {
    /// No atom.
    pub fn none() -> Interval
        ensures { result ≡ record { end = 0; is_after = false } }
    {
        Interval {
            end: 0,
            is_after: false,
        }
    }
}

/// An interval from `b` on of those that the atom which stands before `a` in tree order is before, or of those
/// that it isn't; the last one found, as long as it goes on.
#[tactic(auto, using(crate::proofs::IntervalLemmas::none_is_last, crate::proofs::IntervalLemmas::last_told, crate::proofs::IntervalLemmas::told_last))]
pub fn interval_of_last(
    outline: &Outline<'_>,
    table: &[Option<Arranged>],
    a: usize,
    b: usize,
    found: Interval,
) -> Interval
    requires shows { ShowsFlows table.now (plan_seen outline.now).flows }
    requires ascending { IsAscending (plan_seen outline.now) }
    requires few { atoms_found outline.now ≤ 1000 }
    requires second { b < atoms_found outline.now }
    requires ends { found.end ≤ atoms_found outline.now }
    requires same { TellsTheSame (is_after_last (plan_seen outline.now) a) found.is_after b found.end }
    ensures begins { b < result.end }
    ensures ends { result.end ≤ atoms_found outline.now }
    ensures same { TellsTheSame (is_after_last (plan_seen outline.now) a) result.is_after b result.end }
{
    if a == 0 {
        return Interval {
            end: outline.atoms.len(),
            is_after: false,
        };
    }
    interval_at(outline, table, a - 1, b, found)
}

/// An interval from `b` on of those that `a` is before, or of those that it isn't; the last one found, as long
/// as it goes on.
#[tactic(auto, using(crate::proofs::IntervalLemmas::past_is_before_none))]
pub fn interval_at(
    outline: &Outline<'_>,
    table: &[Option<Arranged>],
    a: usize,
    b: usize,
    found: Interval,
) -> Interval
    requires shows { ShowsFlows table.now (plan_seen outline.now).flows }
    requires ascending { IsAscending (plan_seen outline.now) }
    requires few { atoms_found outline.now ≤ 1000 }
    requires second { b < atoms_found outline.now }
    requires ends { found.end ≤ atoms_found outline.now }
    requires same { TellsTheSame (is_before (plan_seen outline.now) a) found.is_after b found.end }
    ensures begins { b < result.end }
    ensures ends { result.end ≤ atoms_found outline.now }
    ensures same { TellsTheSame (is_before (plan_seen outline.now) a) result.is_after b result.end }
{
    if b < found.end {
        return found;
    }
    if outline.atoms.len() <= a {
        return Interval {
            end: outline.atoms.len(),
            is_after: false,
        };
    }
    interval_from(outline, table, a, b)
}

/// The atoms from `b` on that are after `a` if `b` is, and aren't if it isn't, as far as they are found
/// without looking at each. The paths of atoms ascend, so the end is found by halving.
#[tactic(auto, using(crate::proofs::IntervalLemmas::interval_alone, crate::proofs::IntervalLemmas::interval_along))]
fn interval_from(outline: &Outline<'_>, table: &[Option<Arranged>], a: usize, b: usize) -> Interval
    requires shows { ShowsFlows table.now (plan_seen outline.now).flows }
    requires ascending { IsAscending (plan_seen outline.now) }
    requires few { atoms_found outline.now ≤ 1000 }
    requires first { a < atoms_found outline.now }
    requires second { b < atoms_found outline.now }
    ensures begins { b < result.end }
    ensures ends { result.end ≤ atoms_found outline.now }
    ensures same { TellsTheSame (is_before (plan_seen outline.now) a) result.is_after b result.end }
{
    let first = outline.atoms[a].path.turns();
    let second = outline.atoms[b].path.turns();
    let is_after = is_path_before(table, first, second);
    let turns = turns_shared(first, second);
    match last_alike(table, first, second, turns) {
        None => Interval {
            end: b + 1,
            is_after,
        },
        Some(most) => Interval {
            end: end_along(outline, b, turns, most),
            is_after,
        },
    }
}

/// In how many first turns two paths agree.
#[tactic(auto, using(crate::proofs::IntervalLemmas::agree_next))]
fn turns_shared(first: &[Turn], second: &[Turn]) -> usize
    ensures { Agree result first.now second.now }
{
    let most = first.len().min(second.len());
    for place in 0..most {
        if !is_same_turn(&first[place], &second[place]) {
            return place;
        }
    }
    most
}

/// Whether two turns go to the same place of one flow.
#[tactic(auto, using(crate::proofs::IntervalLemmas::turns_same))]
fn is_same_turn(x: &Turn, y: &Turn) -> bool
    ensures { result ≡ true → (x.now.flow ≡ y.now.flow) × (x.now.item ≡ y.now.item) }
{
    x.flow == y.flow && is_same_place(x.item, y.item)
}

/// Whether two places are the same.
fn is_same_place(u: Option<usize>, v: Option<usize>) -> bool
    ensures { result ≡ same_place u v }
{
    match (u, v) {
        (None, None) => true,
        (Some(u), Some(v)) => u == v,
        _ => false,
    }
}

/// Up to which item those that go along with the second path, after the turns that it shares with the
/// first, are alike, if any besides those with the second path itself.
#[tactic(auto, using(crate::proofs::IntervalLemmas::alike_retry, crate::proofs::IntervalLemmas::alike_items))]
fn last_alike(
    table: &[Option<Arranged>],
    first: &[Turn],
    second: &[Turn],
    turns: usize,
) -> Option<usize>
    requires { Agree turns first.now second.now }
    ensures { IfSome result (λ most. (flows : List Flow) → ShowsFlows table.now flows
        → IsAlike flows turns first.now second.now most) }
{
    let (Some(x), Some(y)) = (first.get(turns), second.get(turns)) else {
        return None;
    };
    if x.flow != y.flow {
        return None;
    }
    match (x.item, y.item) {
        (None, Some(_)) => Some(usize::MAX),
        (Some(u), Some(v)) => last_item_alike(table, x.flow, u, v),
        _ => None,
    }
}

/// The end of the atoms from `b` on whose paths go along with that of `b`, after so many turns, up to an
/// item. Mostly that is where it would be if each item were one atom, or where the atoms end.
fn end_along(outline: &Outline<'_>, b: usize, turns: usize, most: usize) -> usize
    requires ascending { IsAscending (plan_seen outline.now) }
    requires few { atoms_found outline.now ≤ 1000 }
    requires atom { b < atoms_found outline.now }
    ensures begins { b < result }
    ensures ends { result ≤ atoms_found outline.now }
    ensures along { IsAlongUpTo turns most (shown_atoms outline.now.atoms.items) b result }
{
    let last = outline.atoms.len() - 1;
    if goes_along(outline, b, turns, most, last) {
        return last + 1;
    }
    let end = likely_end(outline, b, turns, most);
    if end > last || !goes_along(outline, b, turns, most, end) {
        return end;
    }
    end_by_halving(outline, b, turns, most, end)
}

/// After `b` and those that would follow it if each item were one atom, where the last of these goes along.
#[tactic(auto, using(crate::proofs::IntervalLemmas::along_start))]
fn likely_end(outline: &Outline<'_>, b: usize, turns: usize, most: usize) -> usize
    requires ascending { IsAscending (plan_seen outline.now) }
    requires few { atoms_found outline.now ≤ 1000 }
    requires atom { b < atoms_found outline.now }
    ensures begins { b < result }
    ensures ends { result ≤ atoms_found outline.now }
    ensures along { IsAlongUpTo turns most (shown_atoms outline.now.atoms.items) b result }
{
    let likely = b.saturating_add(items_left(outline.atoms[b].path.turns(), turns, most));
    if likely >= outline.atoms.len() || !goes_along(outline, b, turns, most, likely) {
        return b + 1;
    }
    likely + 1
}

/// How many items there are up to this one after where a path turns.
fn items_left(path: &[Turn], turns: usize, most: usize) -> usize {
    match path.get(turns) {
        Some(
            Turn {
                item: Some(item),
                ..
            },
        ) => most.saturating_sub(*item),
        Some(_) => most.saturating_add(1),
        None => 0,
    }
}

/// The end of the atoms that go along with `b`, of which those up to `first` do.
fn end_by_halving(outline: &Outline<'_>, b: usize, turns: usize, most: usize, first: usize) -> usize
    requires ascending { IsAscending (plan_seen outline.now) }
    requires few { atoms_found outline.now ≤ 1000 }
    requires begins { b < first }
    requires ends { first ≤ atoms_found outline.now }
    requires along { IsAlongUpTo turns most (shown_atoms outline.now.atoms.items) b first }
    ensures begins { b < result }
    ensures ends { result ≤ atoms_found outline.now }
    ensures along { IsAlongUpTo turns most (shown_atoms outline.now.atoms.items) b result }
{
    let mut end = first;
    let mut past = outline.atoms.len();
    while end < past {
        let middle = end + (past - end) / 2;
        if goes_along(outline, b, turns, most, middle) {
            end = middle + 1;
        } else {
            past = middle;
        }
    }
    end
}

/// Whether the path of an atom goes along with that of `b`.
#[tactic(auto, using(crate::proofs::IntervalLemmas::along_seen))]
fn goes_along(outline: &Outline<'_>, b: usize, turns: usize, most: usize, atom: usize) -> bool
    requires first { b < atoms_found outline.now }
    requires second { atom < atoms_found outline.now }
    ensures { result ≡ true
        → GoesAlong turns most (path_at (shown_atoms outline.now.atoms.items) b)
        (path_at (shown_atoms outline.now.atoms.items) atom) }
{
    let path = outline.atoms[b].path.turns();
    let other = outline.atoms[atom].path.turns();
    if turns_shared(path, other) < turns {
        return false;
    }
    match (path.get(turns), other.get(turns)) {
        (Some(x), Some(y)) => x.flow == y.flow && is_up_to(most, y.item),
        _ => false,
    }
}

/// Whether a place is the retry controller's, or an item up to this one.
fn is_up_to(most: usize, place: Option<usize>) -> bool
    ensures { result ≡ true → IsUpToItem most place }
{
    match place {
        None => true,
        Some(item) => item <= most,
    }
}
