ghost use Rattle.std.specs.Prelude.{◌≡◌, false, codes, map, Ok, IfOk, IfErr};
ghost use Rattle.tf_files.specs.document.Reading.{RefusesWith, required as required_there, optional as optional_there, name_form as name_spelled};
ghost use Rattle.tf_files.specs.document.Places.{place_of};
ghost use Rattle.tf_files.specs.document.Tasks.{retry_form as retry_spelled, retry_table as retry_of, retry_keys as keys_of, has_kind as is_kind, retry_kind_form as kind_spelled, retry_kind_named as kind_of, times_of as times_spelled, for_each_of as for_each_spelled, parameterized_of as parameterized_spelled, revert_all_of as revert_all_spelled, attempts_form as attempts_spelled, counted as counted_spelled, values_form as values_spelled, truth_form as truth_spelled};
ghost use Rattle.toml.specs.View.{view, table_view};

use crate::document::faults::FileFault;
use crate::document::fields::{Field, has_text, known_only, optional, required};
use crate::document::paths::Path;
use crate::document::signatures::signature_form;
use crate::document::values::{name_form, value_of};
use std::alloc::Global;
use tf_flow::{Retry, RetryKind};
use tf_values::{Name, Scalars, Val};
use toml::Table;

/// A retry controller: `WrongKind` where the value is no table, and else the first reason why the table
/// spells none.
pub fn retry_form(alloc: Global, field: &Field<'_>) -> Result<Retry, FileFault>
    ensures ok { IfOk result (λ retry. retry_spelled (place_of field.now) (view field.now.value.now) ≡ Ok retry) }
    ensures refused { IfErr result (RefusesWith (retry_spelled (place_of field.now) (view field.now.value.now))) }
{
    let table = field.table(alloc)?;
    let path = field.path(alloc)?;
    retry_table(alloc, &path, table)
}

/// The retry controller that the table under the path spells.
fn retry_table(alloc: Global, path: &Path, table: &Table) -> Result<Retry, FileFault>
    ensures ok { IfOk result (λ retry. retry_of path.now (table_view table.now) ≡ Ok retry) }
    ensures refused { IfErr result (RefusesWith (retry_of path.now (table_view table.now))) }
{
    known_only(alloc, path, known_keys(table), table)?;
    let name = name_at(alloc, path, table)?;
    let kind = kind_at(alloc, path, table)?;
    let signature = signature_form(alloc, path, table)?;
    Ok(Retry {
        name,
        kind,
        args: signature.args,
        inject: signature.inject,
        provides: signature.provides,
    })
}

/// The keys of a retry controller's table, which are those of its kind.
fn known_keys(table: &Table) -> &'static [&'static str]
    ensures { map (λ key. key.now) result.now ≡ keys_of (table_view table.now) }
{
    if has_kind(table, "times") {
        return &[
            "name",
            "kind",
            "attempts",
            "revert_all",
            "requires",
            "rebind",
            "inject",
            "provides",
        ];
    }
    if has_kind(table, "for_each") {
        return &[
            "name",
            "kind",
            "values",
            "revert_all",
            "requires",
            "rebind",
            "inject",
            "provides",
        ];
    }
    if has_kind(table, "always_revert") || has_kind(table, "always_revert_all") {
        return &["name", "kind", "requires", "rebind", "inject", "provides"];
    }
    &[
        "name",
        "kind",
        "revert_all",
        "requires",
        "rebind",
        "inject",
        "provides",
    ]
}

/// Whether the value at the key `kind` is this text.
fn has_kind(table: &Table, word: &str) -> bool
    ensures { result ≡ is_kind word.now (table_view table.now) }
{
    has_text(table, "kind", word)
}

fn name_at(alloc: Global, path: &Path, table: &Table) -> Result<Name, FileFault>
    ensures ok { IfOk result (λ name. required_there path.now (codes "name") (table_view table.now) name_spelled
        ≡ Ok name) }
    ensures refused { IfErr result (RefusesWith (required_there path.now (codes "name")
        (table_view table.now) name_spelled)) }
{
    let field = required(alloc, path, "name", table)?;
    name_form(alloc, &field)
}

fn kind_at(alloc: Global, path: &Path, table: &Table) -> Result<RetryKind, FileFault>
    ensures ok { IfOk result (λ kind. required_there path.now (codes "kind") (table_view table.now)
        (kind_spelled path.now (table_view table.now)) ≡ Ok kind) }
    ensures refused { IfErr result (RefusesWith (required_there path.now (codes "kind") (table_view table.now)
        (kind_spelled path.now (table_view table.now)))) }
{
    let field = required(alloc, path, "kind", table)?;
    kind_form(alloc, path, table, &field)
}

/// A kind of retry controller, with what its table says of it: `WrongKind` where the value is no string,
/// `BadChoice` where it is no kind.
fn kind_form(
    alloc: Global,
    path: &Path,
    table: &Table,
    field: &Field<'_>,
) -> Result<RetryKind, FileFault>
    ensures ok { IfOk result (λ kind. kind_spelled path.now (table_view table.now) (place_of field.now)
        (view field.now.value.now) ≡ Ok kind) }
    ensures refused { IfErr result (RefusesWith (kind_spelled path.now (table_view table.now) (place_of field.now)
        (view field.now.value.now))) }
{
    let word = field.word(alloc)?;
    kind_named(alloc, path, table, field, word)
}

fn kind_named(
    alloc: Global,
    path: &Path,
    table: &Table,
    field: &Field<'_>,
    word: &str,
) -> Result<RetryKind, FileFault>
    ensures ok { IfOk result (λ kind. kind_of path.now (table_view table.now) (place_of field.now) word.now ≡ Ok kind) }
    ensures refused { IfErr result (RefusesWith
        (kind_of path.now (table_view table.now) (place_of field.now) word.now)) }
{
    match word {
        "always_revert" => Ok(RetryKind::AlwaysRevert),
        "always_revert_all" => Ok(RetryKind::AlwaysRevertAll),
        "times" => times(alloc, path, table),
        "for_each" => for_each(alloc, path, table),
        "parameterized_for_each" => parameterized(alloc, path, table),
        _ => Err(FileFault::BadChoice(field.path(alloc)?)),
    }
}

/// So many attempts.
fn times(alloc: Global, path: &Path, table: &Table) -> Result<RetryKind, FileFault>
    ensures ok { IfOk result (λ kind. times_spelled path.now (table_view table.now) ≡ Ok kind) }
    ensures refused { IfErr result (RefusesWith (times_spelled path.now (table_view table.now))) }
{
    let attempts = attempts_at(alloc, path, table)?;
    let all = revert_all_at(alloc, path, table)?;
    Ok(RetryKind::Times { attempts, all })
}

/// An attempt for each of the values.
fn for_each(alloc: Global, path: &Path, table: &Table) -> Result<RetryKind, FileFault>
    ensures ok { IfOk result (λ kind. for_each_spelled path.now (table_view table.now) ≡ Ok kind) }
    ensures refused { IfErr result (RefusesWith (for_each_spelled path.now (table_view table.now))) }
{
    let values = values_at(alloc, path, table)?;
    let all = revert_all_at(alloc, path, table)?;
    Ok(RetryKind::ForEach { values, all })
}

/// An attempt for each item of the argument `values`.
fn parameterized(alloc: Global, path: &Path, table: &Table) -> Result<RetryKind, FileFault>
    ensures ok { IfOk result (λ kind. parameterized_spelled path.now (table_view table.now) ≡ Ok kind) }
    ensures refused { IfErr result (RefusesWith (parameterized_spelled path.now (table_view table.now))) }
{
    let all = revert_all_at(alloc, path, table)?;
    Ok(RetryKind::Parameterized { all })
}

fn attempts_at(alloc: Global, path: &Path, table: &Table) -> Result<u16, FileFault>
    ensures ok { IfOk result (λ attempts. required_there path.now (codes "attempts")
        (table_view table.now) attempts_spelled ≡ Ok attempts) }
    ensures refused { IfErr result (RefusesWith (required_there path.now (codes "attempts")
        (table_view table.now) attempts_spelled)) }
{
    let field = required(alloc, path, "attempts", table)?;
    attempts_form(alloc, &field)
}

fn values_at(alloc: Global, path: &Path, table: &Table) -> Result<Scalars, FileFault>
    ensures ok { IfOk result (λ values. required_there path.now (codes "values")
        (table_view table.now) values_spelled ≡ Ok values) }
    ensures refused { IfErr result (RefusesWith (required_there path.now (codes "values")
        (table_view table.now) values_spelled)) }
{
    let field = required(alloc, path, "values", table)?;
    values_form(alloc, &field)
}

fn revert_all_at(alloc: Global, path: &Path, table: &Table) -> Result<bool, FileFault>
    ensures ok { IfOk result (λ all. revert_all_spelled path.now (table_view table.now) ≡ Ok all) }
    ensures refused { IfErr result (RefusesWith (revert_all_spelled path.now (table_view table.now))) }
{
    match optional(path, "revert_all", table) {
        Some(field) => truth_form(alloc, &field),
        None => Ok(false),
    }
}

/// A number of attempts: `WrongKind` where the value is no integer, `BadNumber` where it is negative or
/// needs more than 16 bits.
fn attempts_form(alloc: Global, field: &Field<'_>) -> Result<u16, FileFault>
    ensures ok { IfOk result (λ attempts. attempts_spelled (place_of field.now) (view field.now.value.now)
        ≡ Ok attempts) }
    ensures refused { IfErr result (RefusesWith (attempts_spelled (place_of field.now) (view field.now.value.now))) }
{
    match field.value.as_integer() {
        Some(number) => counted(alloc, field, number),
        None => Err(FileFault::WrongKind(field.path(alloc)?)),
    }
}

fn counted(alloc: Global, field: &Field<'_>, number: i64) -> Result<u16, FileFault>
    ensures ok { IfOk result (λ attempts. counted_spelled (place_of field.now) number ≡ Ok attempts) }
    ensures refused { IfErr result (RefusesWith (counted_spelled (place_of field.now) number)) }
{
    if number < 0 || 65_535 < number {
        return Err(FileFault::BadNumber(field.path(alloc)?));
    }
    Ok(number as u16)
}

/// A list of values, or `BadValue`.
fn values_form(alloc: Global, field: &Field<'_>) -> Result<Scalars, FileFault>
    ensures ok { IfOk result (λ values. values_spelled (place_of field.now) (view field.now.value.now) ≡ Ok values) }
    ensures refused { IfErr result (RefusesWith (values_spelled (place_of field.now) (view field.now.value.now))) }
{
    match value_of(alloc, field.value)? {
        Some(Val::List(values)) => Ok(values),
        _ => Err(FileFault::BadValue(field.path(alloc)?)),
    }
}

/// A truth value, or `WrongKind`.
fn truth_form(alloc: Global, field: &Field<'_>) -> Result<bool, FileFault>
    ensures ok { IfOk result (λ truth. truth_spelled (place_of field.now) (view field.now.value.now) ≡ Ok truth) }
    ensures refused { IfErr result (RefusesWith (truth_spelled (place_of field.now) (view field.now.value.now))) }
{
    match field.value.as_bool() {
        Some(truth) => Ok(truth),
        None => Err(FileFault::WrongKind(field.path(alloc)?)),
    }
}
