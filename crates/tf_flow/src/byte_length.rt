ghost use Rattle.std.specs.Prelude.{◌≡◌, ℕ, ◌+◌, length, sum_by, max};
ghost use Rattle.tf_values.specs.Scalars.{scalar_bytes, list_bytes};
ghost use Rattle.tf_flow.specs.Limits.{capped};
ghost use Rattle.tf_flow.specs.Limits as form;
ghost use Rattle.tf_flow.specs.Shown.{level, shown, shown_places};

use crate::atoms::{Arg, Bind, Provides, Retry, RetryKind, Task, Undo};
use crate::deciders::{Decider, Link, Test};
use crate::nested::Flow;
use crate::outline::Place;
use tf_values::{Name, Scalar, Text, Val};

/// The sum, or the greatest number of 64 bits where it passes that. All counts here stand still
/// there, so that each function says which count it stands for.
fn plus(a: u64, b: u64) -> u64
    ensures { (x y : ℕ) → a ≡ capped x → b ≡ capped y → result ≡ capped (x + y) }
{
    a.saturating_add(b)
}

fn name_len(name: &Name) -> u64
    ensures { result ≡ capped (form.name_len name.now) }
{
    1 + name.bytes().len() as u64
}

fn text_len(text: &Text) -> u64
    ensures { result ≡ capped (form.text_len text.now) }
{
    4 + text.bytes().len() as u64
}

fn value_len(value: &Val) -> u64
    ensures { result ≡ capped (form.value_len value.now) }
{
    value.encoded_len() as u64
}

fn list_len(scalars: &[Scalar]) -> u64
    ensures { result ≡ capped (length (list_bytes scalars.now)) }
{
    let mut len = 0u64;
    for scalar in scalars {
        len = plus(len, scalar.encoded_len() as u64);
    }
    plus(3, len)
}

fn words_len(words: &[Text]) -> u64
    ensures { result ≡ capped (form.words_len words.now) }
{
    let mut len = 0u64;
    for word in words {
        len = plus(len, text_len(word));
    }
    plus(2, len)
}

fn names_len(names: &[Name]) -> u64
    ensures { result ≡ capped (form.names_len names.now) }
{
    let mut len = 0u64;
    for name in names {
        len = plus(len, name_len(name));
    }
    plus(2, len)
}

fn args_len(args: &[Arg]) -> u64
    ensures { result ≡ capped (form.args_len args.now) }
{
    let mut len = 0u64;
    for arg in args {
        len = plus(len, plus(name_len(&arg.name), name_len(&arg.symbol)));
    }
    plus(2, len)
}

/// How many bytes the form of symbols with their values has.
pub fn binds_len(binds: &[Bind]) -> u64
    ensures { result ≡ capped (form.binds_len binds.now) }
{
    let mut len = 0u64;
    for bind in binds {
        len = plus(len, plus(name_len(&bind.symbol), value_len(&bind.value)));
    }
    plus(2, len)
}

fn provides_len(provides: &Provides) -> u64
    ensures { result ≡ capped (form.provides_len provides.now) }
{
    match provides {
        Provides::Nothing => 1,
        Provides::Whole(name) => plus(1, name_len(name)),
        Provides::Parts(names) => plus(1, names_len(names.items())),
    }
}

fn undo_len(undo: &Undo) -> u64
    ensures { result ≡ capped (form.undo_len undo.now) }
{
    match undo {
        Undo::Pass | Undo::Fail => 1,
        Undo::Run(words) => plus(1, words_len(words.items())),
    }
}

fn task_len(task: &Task) -> u64
    ensures { result ≡ capped (form.task_len task.now) }
{
    let head = plus(plus(name_len(&task.name), 1), words_len(task.words.items()));
    let taken = plus(
        plus(head, args_len(task.args.items())),
        binds_len(task.inject.items()),
    );
    plus(
        plus(plus(taken, provides_len(&task.provides)), 4),
        undo_len(&task.undo),
    )
}

fn retry_kind_len(kind: &RetryKind) -> u64
    ensures { result ≡ capped (form.retry_kind_len kind.now) }
{
    match kind {
        RetryKind::AlwaysRevert | RetryKind::AlwaysRevertAll => 1,
        RetryKind::Times { .. } => 4,
        RetryKind::ForEach { values, .. } => plus(plus(1, list_len(values.items())), 1),
        RetryKind::Parameterized { .. } => 2,
    }
}

fn retry_len(retry: &Retry) -> u64
    ensures { result ≡ capped (form.retry_len retry.now) }
{
    let head = plus(name_len(&retry.name), retry_kind_len(&retry.kind));
    let taken = plus(
        plus(head, args_len(retry.args.items())),
        binds_len(retry.inject.items()),
    );
    plus(taken, provides_len(&retry.provides))
}

/// How deep tests stand in one another, how many of them compare a result, and how many bytes their
/// form has.
#[derive(Clone, Copy)]
pub struct Measure {
    pub nesting: u64,
    pub comparisons: u64,
    pub len: u64,
}

/// What is counted of a test.
#[cycle(measuring)]
pub fn measured(test: &Test) -> Measure
    ensures nesting { result.nesting ≡ capped (form.measure test.now).nesting }
    ensures comparisons { result.comparisons ≡ capped (form.measure test.now).comparisons }
    ensures len { result.len ≡ capped (form.measure test.now).len }
{
    match test {
        Test::Is(name, value) => comparison(plus(name_len(name), value_len(value))),
        Test::Below(name, _) => comparison(plus(name_len(name), 8)),
        Test::Above(name, _) => comparison(plus(name_len(name), 8)),
        Test::Not(test) => around(1, measured(test)),
        Test::All(tests) => around(3, measured_all(tests.items())),
        Test::Any(tests) => around(3, measured_all(tests.items())),
    }
}

/// What is counted of several tests beside one another.
#[cycle(measuring)]
fn measured_all(tests: &[Test]) -> Measure
    ensures nesting { result.nesting ≡ capped (form.measure_all tests.now).nesting }
    ensures comparisons { result.comparisons ≡ capped (form.measure_all tests.now).comparisons }
    ensures len { result.len ≡ capped (form.measure_all tests.now).len }
{
    let mut all = Measure {
        nesting: 0,
        comparisons: 0,
        len: 0,
    };
    for test in tests {
        all = beside(all, measured(test));
    }
    all
}

/// A comparison with so many bytes after its tag.
fn comparison(len: u64) -> Measure
    ensures nesting { result.nesting ≡ 1 }
    ensures comparisons { result.comparisons ≡ 1 }
    ensures len { (x : ℕ) → len ≡ capped x → result.len ≡ capped (1 + x) }
{
    Measure {
        nesting: 1,
        comparisons: 1,
        len: plus(1, len),
    }
}

/// A test around others, with so many bytes of its own.
fn around(len: u64, inner: Measure) -> Measure
    ensures nesting { (x : ℕ) → inner.nesting ≡ capped x → result.nesting ≡ capped (1 + x) }
    ensures comparisons { result.comparisons ≡ inner.comparisons }
    ensures len { (x y : ℕ) → len ≡ capped x → inner.len ≡ capped y → result.len ≡ capped (x + y) }
{
    Measure {
        nesting: plus(1, inner.nesting),
        comparisons: inner.comparisons,
        len: plus(len, inner.len),
    }
}

fn beside(a: Measure, b: Measure) -> Measure
    ensures nesting { (x y : ℕ) → a.nesting ≡ capped x → b.nesting ≡ capped y → result.nesting ≡ capped (max x y) }
    ensures comparisons { (x y : ℕ) → a.comparisons ≡ capped x → b.comparisons ≡ capped y
        → result.comparisons ≡ capped (x + y) }
    ensures len { (x y : ℕ) → a.len ≡ capped x → b.len ≡ capped y → result.len ≡ capped (x + y) }
{
    Measure {
        nesting: a.nesting.max(b.nesting),
        comparisons: plus(a.comparisons, b.comparisons),
        len: plus(a.len, b.len),
    }
}

fn decider_len(decider: &Option<Decider>) -> u64
    ensures { result ≡ capped (form.decider_len decider.now) }
{
    match decider {
        None => 1,
        Some(decider) => plus(2, measured(&decider.test).len),
    }
}

fn links_len(links: &[Link]) -> u64
    ensures { result ≡ capped (sum_by form.link_len links.now) }
{
    let mut len = 0u64;
    for link in links {
        let names = plus(name_len(&link.from), name_len(&link.to));
        len = plus(len, plus(names, decider_len(&link.decider)));
    }
    len
}

fn flow_len(flow: &Flow) -> u64
    ensures { result ≡ capped (form.level_len (level flow.now)) }
{
    let head = plus(name_len(&flow.name), 6);
    let tags = flow.items.items().len() as u64;
    plus(plus(head, tags), links_len(flow.links.items()))
}

fn place_len(place: Place<'_>) -> u64
    ensures { result ≡ capped (form.place_len (shown place.entry)) }
{
    match place {
        Place::Flow(flow) => flow_len(flow),
        Place::Retry(retry) => retry_len(retry),
        Place::Task(task) => task_len(task),
    }
}

/// How many bytes the byte form of a plan has.
pub fn plan_len(order: &[Place<'_>], store: &[Bind]) -> u64
    ensures { result ≡ capped (form.plan_len (shown_places order.now) store.now) }
{
    let mut len = 0u64;
    for place in order {
        len = plus(len, place_len(*place));
    }
    plus(plus(len, binds_len(store)), 1)
}
