ghost use Rattle.std.specs.Prelude.{◌≡◌, Some};
ghost use Rattle.tf_model.specs.Before as before;
ghost use Rattle.tf_model.specs.Readiness.{last_item};
ghost use Rattle.tf_model.specs.Plan.{last_flow};
ghost use Rattle.tf_order.specs.Paths as paths;

use tf_flow::Turn;

/// Where two paths part.
#[derive(Clone, Copy)]
pub enum Meeting {
    /// They don't both go on in one flow, or the second doesn't go to an item of it.
    Apart,
    /// The first stops at the retry controller of a flow, and the second goes on to an item of it.
    First,
    /// They go on to two items of one flow.
    Items {
        flow: usize,
        first: usize,
        second: usize,
    },
}

/// Whether a path leads through this item of a flow.
pub fn passes_item(path: &[Turn], flow: usize, item: usize) -> bool
    ensures { result ≡ before.passes_item flow (Some item) path.now }
{
    for turn in path {
        if takes_item(turn, flow, item) {
            return true;
        }
    }
    false
}

/// Whether a turn is into a flow, to this item of it.
fn takes_item(turn: &Turn, flow: usize, item: usize) -> bool
    ensures { result ≡ before.takes_item flow (Some item) turn.now }
{
    match turn.item {
        None => false,
        Some(place) => turn.flow == flow && place == item,
    }
}

/// The last turn of a path, where it has one.
#[tactic(auto, using(crate::proofs::PathLemmas::last_turn_flow, crate::proofs::PathLemmas::last_turn_item))]
pub fn last_turn(path: &[Turn]) -> Option<Turn>
    ensures flow { last_flow path.now ≡ paths.flow_of_turn result }
    ensures item { last_item path.now ≡ paths.item_of_turn result }
{
    path.last().copied()
}

/// Where two paths part.
pub fn meeting_of(a: &[Turn], b: &[Turn]) -> Meeting
    ensures { result ≡ paths.meeting a.now b.now }
{
    for place in 0..a.len().min(b.len()) {
        if let Some(meeting) = parting(&a[place], &b[place]) {
            return meeting;
        }
    }
    Meeting::Apart
}

/// Where two paths part at these turns, if they do.
fn parting(x: &Turn, y: &Turn) -> Option<Meeting>
    ensures { result ≡ paths.parting x.now y.now }
{
    if x.flow != y.flow {
        return Some(Meeting::Apart);
    }
    match (x.item, y.item) {
        (None, Some(_)) => Some(Meeting::First),
        (Some(first), Some(second)) => parted(x.flow, first, second),
        _ => Some(Meeting::Apart),
    }
}

/// Where two paths part that go to these items of a flow, if they do.
fn parted(flow: usize, first: usize, second: usize) -> Option<Meeting>
    ensures { result ≡ paths.parted flow (Some first) (Some second) }
{
    if first == second {
        return None;
    }
    Some(Meeting::Items {
        flow,
        first,
        second,
    })
}
