//! Links with deciders that are written alike.

ghost use Rattle.std.specs.Prelude.{◌≡◌, map, IfOk};
ghost use Rattle.tf_flow.specs.Outline.{condition_of, decision_of, connection_of};

use std::alloc::Global;
use tf_flow::{Decider, Link, Test, Tests};
use tf_values::Memory;

/// A link that is written alike.
pub fn copy_link(alloc: Global, link: &Link) -> Result<Link, Memory>
    ensures { IfOk result (λ copy. connection_of copy ≡ connection_of link.now) }
{
    let decider = copy_decider(alloc, &link.decider)?;
    Ok(Link {
        from: link.from,
        to: link.to,
        decider,
    })
}

fn copy_decider(alloc: Global, decider: &Option<Decider>) -> Result<Option<Decider>, Memory>
    ensures { IfOk result (λ copy. decision_of copy ≡ decision_of decider.now) }
{
    match decider {
        None => Ok(None),
        Some(decider) => {
            let test = copy_test(alloc, &decider.test)?;
            let depth = decider.depth;
            Ok(Some(Decider { test, depth }))
        }
    }
}

/// A test that is written alike.
#[cycle(tests)]
#[tactic(auto, using(crate::proofs::TestLemmas::tests_as_trees))]
fn copy_test(alloc: Global, test: &Test) -> Result<Test, Memory>
    ensures { IfOk result (λ copy. condition_of copy ≡ condition_of test.now) }
{
    match test {
        Test::Is(name, wanted) => Ok(Test::Is(*name, wanted.copy(alloc)?)),
        Test::Below(name, limit) => Ok(Test::Below(*name, *limit)),
        Test::Above(name, limit) => Ok(Test::Above(*name, *limit)),
        Test::Not(inside) => {
            let copy = copy_test(alloc, inside)?;
            Ok(Test::Not(Box::new(alloc, copy)?))
        }
        Test::All(tests) => Ok(Test::All(Tests::make(copy_tests(alloc, tests.items())?))),
        Test::Any(tests) => Ok(Test::Any(Tests::make(copy_tests(alloc, tests.items())?))),
    }
}

#[cycle(tests)]
fn copy_tests(alloc: Global, tests: &[Test]) -> Result<Vec<Test>, Memory>
    ensures { IfOk result (λ copies. map condition_of copies.items ≡ map condition_of tests.now) }
{
    let mut copies = Vec::with_capacity(alloc, tests.len())?;
    for test in tests {
        copies.push(copy_test(alloc, test)?)?;
    }
    Ok(copies)
}
