//! Whether the test of a decider is true.

ghost use Rattle.std.specs.Prelude.{◌≡◌, ◌&&◌, filter, map, option_map};
ghost use Rattle.std.specs.List.{list_any};
ghost use Rattle.tf_flow.specs.Outline.{condition_of, conditions_of, connection_of};
ghost use Rattle.tf_model.specs.Readiness as deciders;
ghost use Rattle.tf_model.specs.History.{Snapshot, Shows};
ghost use Rattle.tf_model.specs.History as shown;
ghost use Rattle.tf_rules.specs.Seen.{seen_in, deciding, begins_at};

use tf_flow::{Link, Plan, Test};
use tf_states::{AtomState, AtomView, Payload};
use tf_values::{Name, Val};

/// What the tests of a task's links see: the results of the sources of these links, by the sources' names.
/// Of the links that are written in the task's flow those count that lead to it and have a decider.
#[derive(Clone, Copy)]
pub struct Seen<'a> {
    pub plan: &'a Plan,
    pub views: &'a [AtomView],
    pub links: &'a [Link],
    /// The name of the task.
    pub task: &'a Name,
}

/// Whether a test is true of the results that are seen. A comparison with a name that has none is false.
#[cycle(passing)]
pub fn passes(seen: &Seen<'_>, test: &Test) -> bool
    ensures { (s : Snapshot) → Shows seen.now.views.now s
        → result ≡ deciders.passes (seen_in s seen.now) (condition_of test.now) }
{
    match test {
        Test::Is(name, value) => compares_same(result_of(seen, name), value),
        Test::Below(name, limit) => compares_below(result_of(seen, name), *limit),
        Test::Above(name, limit) => compares_above(result_of(seen, name), *limit),
        Test::Not(test) => !passes(seen, test),
        Test::All(tests) => passes_all(seen, tests.items()),
        Test::Any(tests) => passes_one(seen, tests.items()),
    }
}

/// Whether each of the tests is true.
#[cycle(passing)]
fn passes_all(seen: &Seen<'_>, tests: &[Test]) -> bool
    ensures { (s : Snapshot) → Shows seen.now.views.now s
        → result ≡ deciders.passes_all (seen_in s seen.now) (conditions_of (map condition_of tests.now)) }
{
    for test in tests {
        if !passes(seen, test) {
            return false;
        }
    }
    true
}

/// Whether one of the tests is true.
#[cycle(passing)]
fn passes_one(seen: &Seen<'_>, tests: &[Test]) -> bool
    ensures { (s : Snapshot) → Shows seen.now.views.now s
        → result ≡ deciders.passes_one (seen_in s seen.now) (conditions_of (map condition_of tests.now)) }
{
    for test in tests {
        if passes(seen, test) {
            return true;
        }
    }
    false
}

/// Whether there is a result, and it is this value.
fn compares_same(found: Option<&Val>, wanted: &Val) -> bool
    ensures { result ≡ deciders.compares_same wanted.now (option_map (λ v. v.now) found.entry) }
{
    match found {
        None => false,
        Some(value) => same_value(value, wanted),
    }
}

/// Whether two values are the same.
fn same_value(value: &Val, other: &Val) -> bool
    ensures { result ≡ deciders.same_value value.now other.now }
{
    if value.encoded_len() != other.encoded_len() {
        return false;
    }
    value.same(other)
}

/// Whether there is a result, and it is an integer below the limit.
fn compares_below(found: Option<&Val>, limit: i64) -> bool
    ensures { result ≡ deciders.compares_below limit (option_map (λ v. v.now) found.entry) }
{
    match found {
        Some(Val::Int(number)) => *number < limit,
        _ => false,
    }
}

/// Whether there is a result, and it is an integer above the limit.
fn compares_above(found: Option<&Val>, limit: i64) -> bool
    ensures { result ≡ deciders.compares_above limit (option_map (λ v. v.now) found.entry) }
{
    match found {
        Some(Val::Int(number)) => limit < *number,
        _ => false,
    }
}

/// The result that is seen under a name.
fn result_of<'a>(seen: &Seen<'a>, name: &Name) -> Option<&'a Val>
    ensures { (s : Snapshot) → Shows seen.now.views.now s
        → option_map (λ v. v.now) result ≡ deciders.result_of (seen_in s seen.now) name.now }
{
    let source = seen.plan.find(name)?;
    let result = result_at(seen.views, source)?;
    if is_source(seen, name) {
        Some(result)
    } else {
        None
    }
}

/// The result of an atom that is SUCCESS.
fn result_at(views: &[AtomView], atom: u16) -> Option<&Val>
    ensures { (s : Snapshot) → Shows views.now s → option_map (λ v. v.now) result ≡ shown.result_of s atom }
{
    let view = views.get(atom as usize)?;
    if !matches!(view.state, AtomState::Success) {
        return None;
    }
    match &view.payload {
        Payload::Value(value) => Some(value),
        _ => None,
    }
}

/// Whether a link with a decider leads from the task of this name to the one whose tests see.
fn is_source(seen: &Seen<'_>, name: &Name) -> bool
    ensures { result ≡ list_any (begins_at name.now) (deciding seen.now.task.now seen.now.links.now) }
{
    for link in seen.links {
        if link.from == *name && decides_on(seen.task, link) {
            return true;
        }
    }
    false
}

/// Whether a link leads to the task of this name and has a decider.
pub fn decides_on(task: &Name, link: &Link) -> bool
    ensures { result ≡ deciders.decides_on task.now (connection_of link.now) }
{
    link.to == *task && link.decider.is_some()
}
