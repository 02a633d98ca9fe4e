ghost use Rattle.std.specs.Prelude.{◌≡◌, suc, map, codes, Ok, IfOk, IfErr};
ghost use Rattle.tf_flow.specs.Outline.{condition_of};
ghost use Rattle.tf_files.specs.FlowFile.{integer_form as integer_spelled, same_form as same_spelled, below_form as below_spelled, above_form as above_spelled, comparison_form as comparison_spelled, tests_by, all_by, any_by, not_by, row_by, test_table as table_spelled, test_within as test_spelled, test_form as whole_test_spelled};
ghost use Rattle.tf_files.specs.document.Reading.{RefusesWith, each, array_of, required as required_there, name_form as name_spelled, value_form as value_spelled};
ghost use Rattle.tf_files.specs.document.Places.{place_of};
ghost use Rattle.toml.specs.View.{view, items_view, table_view};

use crate::document::faults::FileFault;
use crate::document::fields::{Field, has_key, item_at, known_only, required};
use crate::document::paths::Path;
use crate::document::values::{name_form, value_form};
use std::alloc::Global;
use tf_flow::{Limit, PlanFault, Test, Tests};
use tf_values::{Name, Val};
use toml::{Table, Value};

/// A test: `WrongKind` where a value is no table or of another kind than its key's, `UnknownKey` for a
/// key that such a test hasn't, and `Plan` for the seventeenth test in one another.
pub fn test_form(alloc: Global, field: &Field<'_>) -> Result<Test, FileFault>
    ensures ok { IfOk result (λ test. whole_test_spelled (place_of field.now) (view field.now.value.now)
        ≡ Ok (condition_of test)) }
    ensures refused { IfErr result (RefusesWith (whole_test_spelled (place_of field.now) (view field.now.value.now))) }
{
    test_within(alloc, 16, field)
}

/// A test in which one less than `left` may stand in one another.
#[cycle(conditions)]
fn test_within(alloc: Global, left: u8, field: &Field<'_>) -> Result<Test, FileFault>
    ensures ok { IfOk result (λ test. test_spelled left (place_of field.now) (view field.now.value.now)
        ≡ Ok (condition_of test)) }
    ensures refused { IfErr result (RefusesWith (test_spelled left (place_of field.now) (view field.now.value.now))) }
{
    let table = field.table(alloc)?;
    let path = field.path(alloc)?;
    test_table(alloc, left, &path, table)
}

/// The test of a table. Where none may stand, it is refused before its keys are looked at.
#[cycle(conditions)]
#[tactic(auto, using(crate::proofs::ConditionLemmas::within))]
fn test_table(alloc: Global, left: u8, path: &Path, table: &Table) -> Result<Test, FileFault>
    ensures ok { IfOk result (λ test. table_spelled left path.now (table_view table.now) ≡ Ok (condition_of test)) }
    ensures refused { IfErr result (RefusesWith (table_spelled left path.now (table_view table.now))) }
{
    if left == 0 {
        return Err(FileFault::Plan(PlanFault::TooLarge {
            which: Limit::Test,
            n: 17,
        }));
    }
    test_row(alloc, left - 1, path, table)
}

/// The test of a table in which `left` more may stand in one another.
#[cycle(conditions)]
fn test_row(alloc: Global, left: u8, path: &Path, table: &Table) -> Result<Test, FileFault>
    ensures ok { IfOk result (λ test. table_spelled (suc left) path.now (table_view table.now)
        ≡ Ok (condition_of test)) }
    ensures refused { IfErr result (RefusesWith (table_spelled (suc left) path.now (table_view table.now))) }
{
    if has_key(table, "all") {
        return all_test(alloc, left, path, table);
    }
    if has_key(table, "any") {
        return any_test(alloc, left, path, table);
    }
    if has_key(table, "not") {
        return not_test(alloc, left, path, table);
    }
    comparison(alloc, path, table)
}

/// That each of several tests is true.
#[cycle(conditions)]
#[tactic(auto, using(crate::proofs::ConditionLemmas::tests_as_trees))]
fn all_test(alloc: Global, left: u8, path: &Path, table: &Table) -> Result<Test, FileFault>
    ensures ok { IfOk result (λ test. all_by (table_spelled left) path.now (table_view table.now)
        ≡ Ok (condition_of test)) }
    ensures refused { IfErr result (RefusesWith (all_by (table_spelled left) path.now (table_view table.now))) }
{
    let tests = tests_at(alloc, left, "all", path, table)?;
    Ok(Test::All(Tests::make(tests)))
}

/// That one of several tests is true.
#[cycle(conditions)]
#[tactic(auto, using(crate::proofs::ConditionLemmas::tests_as_trees))]
fn any_test(alloc: Global, left: u8, path: &Path, table: &Table) -> Result<Test, FileFault>
    ensures ok { IfOk result (λ test. any_by (table_spelled left) path.now (table_view table.now)
        ≡ Ok (condition_of test)) }
    ensures refused { IfErr result (RefusesWith (any_by (table_spelled left) path.now (table_view table.now))) }
{
    let tests = tests_at(alloc, left, "any", path, table)?;
    Ok(Test::Any(Tests::make(tests)))
}

/// That a test isn't true.
#[cycle(conditions)]
#[tactic(auto, using(crate::proofs::ConditionLemmas::tests_as_trees))]
fn not_test(alloc: Global, left: u8, path: &Path, table: &Table) -> Result<Test, FileFault>
    ensures ok { IfOk result (λ test. not_by (table_spelled left) path.now (table_view table.now)
        ≡ Ok (condition_of test)) }
    ensures refused { IfErr result (RefusesWith (not_by (table_spelled left) path.now (table_view table.now))) }
{
    known_only(alloc, path, &["not"], table)?;
    let field = required(alloc, path, "not", table)?;
    let inside = test_within(alloc, left, &field)?;
    Ok(Test::Not(Box::new(alloc, inside)?))
}

/// The tests at the only key of a table.
#[cycle(conditions)]
fn tests_at(
    alloc: Global,
    left: u8,
    key: &str,
    path: &Path,
    table: &Table,
) -> Result<Vec<Test>, FileFault>
    ensures ok { IfOk result (λ tests. tests_by (table_spelled left) key.now path.now (table_view table.now)
        ≡ Ok (map condition_of tests.items)) }
    ensures refused { IfErr result (RefusesWith (tests_by (table_spelled left) key.now path.now
        (table_view table.now))) }
{
    known_only(alloc, path, &[key], table)?;
    let field = required(alloc, path, key, table)?;
    tests_form(alloc, left, &field)
}

/// The tests of an array.
#[cycle(conditions)]
fn tests_form(alloc: Global, left: u8, field: &Field<'_>) -> Result<Vec<Test>, FileFault>
    ensures ok { IfOk result (λ tests. array_of (test_spelled left) (place_of field.now) (view field.now.value.now)
        ≡ Ok (map condition_of tests.items)) }
    ensures refused { IfErr result (RefusesWith (array_of (test_spelled left) (place_of field.now)
        (view field.now.value.now))) }
{
    let items = field.items(alloc)?;
    let path = field.path(alloc)?;
    each_test(alloc, left, &path, items)
}

/// Each test of an array.
#[cycle(conditions)]
fn each_test(alloc: Global, left: u8, path: &Path, items: &[Value]) -> Result<Vec<Test>, FileFault>
    ensures ok { IfOk result (λ tests. each (test_spelled left) path.now 0 (items_view items.now)
        ≡ Ok (map condition_of tests.items)) }
    ensures refused { IfErr result (RefusesWith (each (test_spelled left) path.now 0 (items_view items.now))) }
{
    let mut tests = Vec::with_capacity(alloc, items.len())?;
    for (number, value) in items.iter().enumerate() {
        let field = item_at(path, number, value);
        let test = test_within(alloc, left, &field)?;
        tests.push(test)?;
    }
    Ok(tests)
}

/// A comparison of a result: by `is`, `below` or `above`, the first of these keys that is there; where
/// none is, `is` is missing.
fn comparison(alloc: Global, path: &Path, table: &Table) -> Result<Test, FileFault>
    ensures ok { IfOk result (λ test. comparison_spelled path.now (table_view table.now) ≡ Ok (condition_of test)) }
    ensures refused { IfErr result (RefusesWith (comparison_spelled path.now (table_view table.now))) }
{
    if has_key(table, "is") {
        return same_test(alloc, path, table);
    }
    if has_key(table, "below") {
        return below_test(alloc, path, table);
    }
    if has_key(table, "above") {
        return above_test(alloc, path, table);
    }
    same_test(alloc, path, table)
}

/// That the result of a name is a value.
#[tactic(auto, using(crate::proofs::ConditionLemmas::tests_as_trees))]
fn same_test(alloc: Global, path: &Path, table: &Table) -> Result<Test, FileFault>
    ensures ok { IfOk result (λ test. same_spelled path.now (table_view table.now) ≡ Ok (condition_of test)) }
    ensures refused { IfErr result (RefusesWith (same_spelled path.now (table_view table.now))) }
{
    known_only(alloc, path, &["result", "is"], table)?;
    let name = result_at(alloc, path, table)?;
    let wanted = wanted_at(alloc, path, table)?;
    Ok(Test::Is(name, wanted))
}

/// That the result of a name is below an integer.
#[tactic(auto, using(crate::proofs::ConditionLemmas::tests_as_trees))]
fn below_test(alloc: Global, path: &Path, table: &Table) -> Result<Test, FileFault>
    ensures ok { IfOk result (λ test. below_spelled path.now (table_view table.now) ≡ Ok (condition_of test)) }
    ensures refused { IfErr result (RefusesWith (below_spelled path.now (table_view table.now))) }
{
    known_only(alloc, path, &["result", "below"], table)?;
    let name = result_at(alloc, path, table)?;
    let number = integer_at(alloc, path, "below", table)?;
    Ok(Test::Below(name, number))
}

/// That the result of a name is above an integer.
#[tactic(auto, using(crate::proofs::ConditionLemmas::tests_as_trees))]
fn above_test(alloc: Global, path: &Path, table: &Table) -> Result<Test, FileFault>
    ensures ok { IfOk result (λ test. above_spelled path.now (table_view table.now) ≡ Ok (condition_of test)) }
    ensures refused { IfErr result (RefusesWith (above_spelled path.now (table_view table.now))) }
{
    known_only(alloc, path, &["result", "above"], table)?;
    let name = result_at(alloc, path, table)?;
    let number = integer_at(alloc, path, "above", table)?;
    Ok(Test::Above(name, number))
}

fn result_at(alloc: Global, path: &Path, table: &Table) -> Result<Name, FileFault>
    ensures ok { IfOk result (λ name. required_there path.now (codes "result") (table_view table.now) name_spelled
        ≡ Ok name) }
    ensures refused { IfErr result (RefusesWith (required_there path.now (codes "result")
        (table_view table.now) name_spelled)) }
{
    let field = required(alloc, path, "result", table)?;
    name_form(alloc, &field)
}

fn wanted_at(alloc: Global, path: &Path, table: &Table) -> Result<Val, FileFault>
    ensures ok { IfOk result (λ wanted. required_there path.now (codes "is") (table_view table.now) value_spelled
        ≡ Ok wanted) }
    ensures refused { IfErr result (RefusesWith (required_there path.now (codes "is")
        (table_view table.now) value_spelled)) }
{
    let field = required(alloc, path, "is", table)?;
    value_form(alloc, &field)
}

fn integer_at(alloc: Global, path: &Path, key: &str, table: &Table) -> Result<i64, FileFault>
    ensures ok { IfOk result (λ number. required_there path.now key.now (table_view table.now) integer_spelled
        ≡ Ok number) }
    ensures refused { IfErr result (RefusesWith (required_there path.now key.now
        (table_view table.now) integer_spelled)) }
{
    let field = required(alloc, path, key, table)?;
    integer_form(alloc, &field)
}

/// An integer, or `WrongKind`.
fn integer_form(alloc: Global, field: &Field<'_>) -> Result<i64, FileFault>
    ensures ok { IfOk result (λ number. integer_spelled (place_of field.now) (view field.now.value.now) ≡ Ok number) }
    ensures refused { IfErr result (RefusesWith (integer_spelled (place_of field.now) (view field.now.value.now))) }
{
    match field.value.as_integer() {
        Some(number) => Ok(number),
        None => Err(FileFault::WrongKind(field.path(alloc)?)),
    }
}
