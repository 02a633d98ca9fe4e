ghost use Rattle.std.specs.Prelude.{◌≡◌, ◌++◌, ◌∷◌, [], OnOk, OnErr, FitsSigned};
ghost use Rattle.std.specs.Int.{to_be_bytes, cast_unsigned, w64};
ghost use Rattle.std.specs.List.{flat_map, AllByRecursion};
ghost use Rattle.tf_flow.specs.Outline.{condition_of, decision_of, connection_of};
ghost use Rattle.tf_values.specs.Growth.{KeepsPrefix};
ghost use Rattle.tf_values.specs.Value.{byte_form, IsValue};
ghost use Rattle.tf_entries.specs.Plans.{name_bytes, listed, AreFew, IsName};
ghost use Rattle.tf_entries.specs.Plans as form;
ghost use Rattle.tf_entries.specs.Shown.{test_bytes, IsTest, link_bytes, IsLink};

use crate::appending::{append, append_name, append_value};
use crate::atom_writing::{Form, append_count, append_listed};
use tf_flow::{Decider, Depth, Link, Test};
use tf_values::{Memory, Name, Val};

impl Form for Link {
    ghost form = { link_bytes };

    ghost is_good = { IsLink };

    #[tactic(auto, using(tf_values::proofs::GrowthLemmas::keeps_shorter))]
    fn put(&self, out: &mut Vec<u8>) -> Result<(), Memory> {
        append_name(&self.from, out)?;
        append_name(&self.to, out)?;
        append_decider(&self.decider, out)
    }
}

#[tactic(auto, using(tf_values::proofs::GrowthLemmas::keeps_shorter))]
fn append_decider(decider: &Option<Decider>, out: &mut Vec<u8>) -> Result<(), Memory>
    ensures ok { OnOk result (out.new.items ≡ out.old.items ++ form.decision_bytes (decision_of decider.now)) }
    ensures good { OnOk result (form.IsDecision (decision_of decider.now)) }
    ensures err { OnErr result (KeepsPrefix out.old.items out.new.items) }
{
    match decider {
        None => append(&[0], out),
        Some(decider) => {
            append(&[1, depth_byte(decider.depth)], out)?;
            append_test(&decider.test, out)
        }
    }
}

fn depth_byte(depth: Depth) -> u8
    ensures { result ≡ form.depth_byte depth }
{
    match depth {
        Depth::All => 0,
        Depth::Flow => 1,
        Depth::Neighbors => 2,
        Depth::Atom => 3,
    }
}

/// Appends a test.
#[cycle(testing)]
#[tactic(auto, using(tf_values::proofs::GrowthLemmas::keeps_shorter, crate::proofs::TestLemmas::tests_as_trees))]
fn append_test(test: &Test, out: &mut Vec<u8>) -> Result<(), Memory>
    ensures ok { OnOk result (out.new.items ≡ out.old.items ++ test_bytes test.now) }
    ensures good { OnOk result (IsTest test.now) }
    ensures err { OnErr result (KeepsPrefix out.old.items out.new.items) }
{
    match test {
        Test::Is(name, wanted) => append_same(name, wanted, out),
        Test::Below(name, limit) => append_limit(1, name, *limit, out),
        Test::Above(name, limit) => append_limit(2, name, *limit, out),
        Test::Not(inside) => {
            append(&[3], out)?;
            append_test(inside, out)
        }
        Test::All(tests) => append_tests(4, tests.items(), out),
        Test::Any(tests) => append_tests(5, tests.items(), out),
    }
}

/// Appends a tag and tests behind their number.
#[cycle(testing)]
#[tactic(auto, using(tf_values::proofs::GrowthLemmas::keeps_shorter))]
fn append_tests(tag: u8, tests: &[Test], out: &mut Vec<u8>) -> Result<(), Memory>
    ensures ok { OnOk result (out.new.items ≡ out.old.items ++ tag ∷ listed test_bytes tests.now) }
    ensures good { OnOk result (AreFew IsTest tests.now) }
    ensures err { OnErr result (KeepsPrefix out.old.items out.new.items) }
{
    append(&[tag], out)?;
    append_count(tests.len(), out)?;
    each_test(tests, out)
}

#[cycle(testing)]
#[tactic(auto, using(tf_values::proofs::GrowthLemmas::keeps_shorter))]
fn each_test(tests: &[Test], out: &mut Vec<u8>) -> Result<(), Memory>
    ensures ok { OnOk result (out.new.items ≡ out.old.items ++ flat_map test_bytes tests.now) }
    ensures good { OnOk result (AllByRecursion IsTest tests.now) }
    ensures err { OnErr result (KeepsPrefix out.old.items out.new.items) }
{
    for test in tests {
        append_test(test, out)?;
    }
    Ok(())
}

/// Appends that a result is a value.
#[tactic(auto, using(tf_values::proofs::GrowthLemmas::keeps_shorter))]
fn append_same(name: &Name, wanted: &Val, out: &mut Vec<u8>) -> Result<(), Memory>
    ensures ok { OnOk result (out.new.items ≡ out.old.items ++ 0 ∷ (name_bytes name.now ++ byte_form wanted.now)) }
    ensures name { OnOk result (IsName name.now) }
    ensures wanted { OnOk result (IsValue wanted.now) }
    ensures err { OnErr result (KeepsPrefix out.old.items out.new.items) }
{
    append(&[0], out)?;
    append_name(name, out)?;
    append_value(wanted, out)
}

/// Appends a tag, and that a result is below or above an integer.
#[tactic(auto, using(tf_values::proofs::GrowthLemmas::keeps_shorter))]
fn append_limit(tag: u8, name: &Name, limit: i64, out: &mut Vec<u8>) -> Result<(), Memory>
    ensures ok { OnOk result (out.new.items
        ≡ out.old.items ++ tag ∷ (name_bytes name.now ++ to_be_bytes w64 (cast_unsigned w64 limit))) }
    ensures name { OnOk result (IsName name.now) }
    ensures limit { OnOk result (FitsSigned w64 limit) }
    ensures err { OnErr result (KeepsPrefix out.old.items out.new.items) }
{
    append(&[tag], out)?;
    append_name(name, out)?;
    append(&limit.to_be_bytes(), out)
}
