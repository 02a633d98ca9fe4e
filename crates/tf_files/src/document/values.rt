ghost use Rattle.std.specs.Prelude.{◌≡◌, List, ℕ, Ok, IfOk, IfErr, IfSome, option_map};
ghost use Rattle.tf_files.specs.document.Reading.{RefusesWith, below, step_of, each, named as name_of, name_form as name_spelled, names_form as names_spelled, key_form as key_spelled, scalar_of as scalar_spelled, scalars_of as scalars_spelled, list_of as list_spelled, value_at as value_spelled, value_form as value_read, bind_form as bind_spelled, binds_of as binds_read, binds_form as binds_spelled};
ghost use Rattle.tf_files.specs.document.Places.{place_of, step_bytes};
ghost use Rattle.tf_files.specs.declared.document.faults.FileFault.TheVariants as fault;
ghost use Rattle.toml.specs.Data.{string as string_data, array as array_data};
ghost use Rattle.toml.specs.View.{view, items_view, table_view};

use crate::document::faults::FileFault;
use crate::document::fields::{Field, Step};
use std::alloc::Global;
use tf_flow::Bind;
use tf_values::{MakeFault, Memory, Name, Scalar, Scalars, Text, Val};
use toml::{Table, Value};

/// A name: `WrongKind` where the value is no string, `BadName` where it is no name.
pub fn name_form(alloc: Global, field: &Field<'_>) -> Result<Name, FileFault>
    ensures ok { IfOk result (λ name. name_spelled (place_of field.now) (view field.now.value.now) ≡ Ok name) }
    ensures refused { IfErr result (RefusesWith (name_spelled (place_of field.now) (view field.now.value.now))) }
{
    let word = field.word(alloc)?;
    named(alloc, field, word)
}

/// The name that a string is, or `BadName`.
pub fn named(alloc: Global, field: &Field<'_>, word: &str) -> Result<Name, FileFault>
    ensures ok { IfOk result (λ name. name_of (place_of field.now) word.now ≡ Ok name) }
    ensures refused { IfErr result (RefusesWith (name_of (place_of field.now) word.now)) }
{
    match Name::make(word.as_bytes()) {
        Some(name) => Ok(name),
        None => Err(FileFault::BadName(field.path(alloc)?)),
    }
}

/// The name of a value one step below a field, whose path is made only where the value is refused.
pub fn name_below(
    alloc: Global,
    field: &Field<'_>,
    step: Step<'_>,
    value: &Value,
) -> Result<Name, FileFault>
    ensures ok { IfOk result (λ name. name_spelled (below (place_of field.now) (step_bytes step.entry))
        (view value.now) ≡ Ok name) }
    ensures refused { IfErr result (RefusesWith (name_spelled (below (place_of field.now) (step_bytes step.entry))
        (view value.now))) }
{
    if let Some(name) = name_in(value) {
        return Ok(name);
    }
    let path = field.path(alloc)?;
    let inside = Field {
        above: &path,
        step,
        value,
    };
    name_form(alloc, &inside)
}

/// The name that a value is, if it is one.
fn name_in(value: &Value) -> Option<Name>
    ensures { IfSome result (λ name. (path : List ℕ) → name_spelled path (view value.now) ≡ Ok name) }
{
    match value.as_str() {
        Some(word) => Name::make(word.as_bytes()),
        None => None,
    }
}

/// A list of names; each is refused under its own path.
pub fn names_form(alloc: Global, field: &Field<'_>) -> Result<Vec<Name>, FileFault>
    ensures ok { IfOk result (λ names. names_spelled (place_of field.now) (view field.now.value.now) ≡ Ok names.items) }
    ensures refused { IfErr result (RefusesWith (names_spelled (place_of field.now) (view field.now.value.now))) }
{
    let items = field.items(alloc)?;
    each_name(alloc, field, items)
}

/// The names that the items of an array are.
pub fn each_name(alloc: Global, array: &Field<'_>, items: &[Value]) -> Result<Vec<Name>, FileFault>
    ensures ok { IfOk result (λ names. each name_spelled (place_of array.now) 0 (items_view items.now)
        ≡ Ok names.items) }
    ensures refused { IfErr result (RefusesWith (each name_spelled (place_of array.now) 0 (items_view items.now))) }
{
    let mut names = Vec::with_capacity(alloc, items.len())?;
    for (number, value) in items.iter().enumerate() {
        names.push(name_below(alloc, array, Step::Item(number), value)?)?;
    }
    Ok(names)
}

/// The name that a key of a table is, or `BadName`.
pub fn key_form(alloc: Global, field: &Field<'_>, key: &str) -> Result<Name, FileFault>
    ensures ok { IfOk result (λ name. key_spelled (place_of field.now) key.now ≡ Ok name) }
    ensures refused { IfErr result (RefusesWith (key_spelled (place_of field.now) key.now)) }
{
    match Name::make(key.as_bytes()) {
        Some(name) => Ok(name),
        None => Err(bad_key(alloc, field, key)?),
    }
}

/// The refusal of a key that is no name.
fn bad_key(alloc: Global, field: &Field<'_>, key: &str) -> Result<FileFault, Memory>
    ensures { IfOk result (λ reason. reason ≡ fault.BadName (below (place_of field.now) (step_of key.now))) }
{
    let path = field.path(alloc)?;
    Ok(FileFault::BadName(path.below_key(alloc, key)?))
}

/// A table of symbols with their values, in byte order: `BadName` for a key that is no name, `BadValue`
/// for what is no value.
pub fn binds_form(alloc: Global, field: &Field<'_>) -> Result<Vec<Bind>, FileFault>
    ensures ok { IfOk result (λ binds. binds_spelled (place_of field.now) (view field.now.value.now) ≡ Ok binds.items) }
    ensures refused { IfErr result (RefusesWith (binds_spelled (place_of field.now) (view field.now.value.now))) }
{
    let table = field.table(alloc)?;
    binds_of(alloc, field, table)
}

/// The symbols of a table, with their values.
fn binds_of(alloc: Global, field: &Field<'_>, table: &Table) -> Result<Vec<Bind>, FileFault>
    ensures ok { IfOk result (λ binds. binds_read (place_of field.now) (table_view table.now) ≡ Ok binds.items) }
    ensures refused { IfErr result (RefusesWith (binds_read (place_of field.now) (table_view table.now))) }
{
    let mut binds = Vec::with_capacity(alloc, table.len())?;
    for (key, value) in table {
        binds.push(bind_form(alloc, field, key.as_str(), value)?)?;
    }
    Ok(binds)
}

/// A symbol of a table, with its value.
fn bind_form(alloc: Global, field: &Field<'_>, key: &str, value: &Value) -> Result<Bind, FileFault>
    ensures ok { IfOk result (λ bind. bind_spelled (place_of field.now) key.now (view value.now) ≡ Ok bind) }
    ensures refused { IfErr result (RefusesWith (bind_spelled (place_of field.now) key.now (view value.now))) }
{
    let symbol = key_form(alloc, field, key)?;
    let value = value_below(alloc, field, symbol.bytes(), value)?;
    Ok(Bind { symbol, value })
}

/// The value at a key of a table, or `BadValue`.
fn value_below(
    alloc: Global,
    field: &Field<'_>,
    key: &[u8],
    value: &Value,
) -> Result<Val, FileFault>
    ensures ok { IfOk result (λ made. value_read (below (place_of field.now) key.now) (view value.now) ≡ Ok made) }
    ensures refused { IfErr result (RefusesWith (value_read (below (place_of field.now) key.now) (view value.now))) }
{
    match value_of(alloc, value)? {
        Some(made) => Ok(made),
        None => Err(FileFault::BadValue(field.path(alloc)?.below(alloc, key)?)),
    }
}

/// The value that stands there, or `BadValue`.
pub fn value_form(alloc: Global, field: &Field<'_>) -> Result<Val, FileFault>
    ensures ok { IfOk result (λ made. value_read (place_of field.now) (view field.now.value.now) ≡ Ok made) }
    ensures refused { IfErr result (RefusesWith (value_read (place_of field.now) (view field.now.value.now))) }
{
    match value_of(alloc, field.value)? {
        Some(made) => Ok(made),
        None => Err(FileFault::BadValue(field.path(alloc)?)),
    }
}

/// The value that stands there, or none.
pub fn value_of(alloc: Global, value: &Value) -> Result<Option<Val>, Memory>
    ensures { IfOk result (λ made. made ≡ value_spelled (view value.now)) }
{
    match value {
        Value::String(string) => text_of(alloc, string.as_str()),
        Value::Integer(number) => Ok(Some(Val::Int(*number))),
        Value::Boolean(truth) => Ok(Some(Val::Truth(*truth))),
        Value::Array(items) => list_of(alloc, items),
        _ => Ok(None),
    }
}

fn text_of(alloc: Global, string: &str) -> Result<Option<Val>, Memory>
    ensures { IfOk result (λ made. made ≡ value_spelled (string_data string.now)) }
{
    match Text::make(alloc, string.as_bytes()) {
        Ok(text) => Ok(Some(Val::Text(text))),
        Err(MakeFault::No) => Ok(None),
        Err(MakeFault::Memory) => Err(Memory),
    }
}

/// The list that an array is, or none where an item is no scalar or a limit of lists is passed.
fn list_of(alloc: Global, items: &[Value]) -> Result<Option<Val>, Memory>
    ensures { IfOk result (λ made. made ≡ value_spelled (array_data (items_view items.now))) }
{
    match scalars_of(alloc, items)? {
        Some(scalars) => Ok(within_limits(scalars)),
        None => Ok(None),
    }
}

/// The list of these scalars, or none where they pass a limit of lists.
fn within_limits(scalars: Vec<Scalar>) -> Option<Val>
    ensures { result ≡ list_spelled scalars.items }
{
    match Scalars::make(scalars) {
        Ok(list) => Some(Val::List(list)),
        Err(_) => None,
    }
}

/// The scalars that the items of an array are, or none where one is no scalar.
fn scalars_of(alloc: Global, items: &[Value]) -> Result<Option<Vec<Scalar>>, Memory>
    ensures { IfOk result (λ made. option_map (λ scalars. scalars.items) made
        ≡ scalars_spelled (items_view items.now)) }
{
    let mut scalars = Vec::with_capacity(alloc, items.len())?;
    for item in items {
        let Some(scalar) = scalar_of(alloc, item)? else {
            return Ok(None);
        };
        scalars.push(scalar)?;
    }
    Ok(Some(scalars))
}

/// The scalar that stands there, or none.
fn scalar_of(alloc: Global, value: &Value) -> Result<Option<Scalar>, Memory>
    ensures { IfOk result (λ made. made ≡ scalar_spelled (view value.now)) }
{
    match value {
        Value::String(string) => scalar_text(alloc, string.as_str()),
        Value::Integer(number) => Ok(Some(Scalar::Int(*number))),
        Value::Boolean(truth) => Ok(Some(Scalar::Truth(*truth))),
        _ => Ok(None),
    }
}

fn scalar_text(alloc: Global, string: &str) -> Result<Option<Scalar>, Memory>
    ensures { IfOk result (λ made. made ≡ scalar_spelled (string_data string.now)) }
{
    match Text::make(alloc, string.as_bytes()) {
        Ok(text) => Ok(Some(Scalar::Text(text))),
        Err(MakeFault::No) => Ok(None),
        Err(MakeFault::Memory) => Err(Memory),
    }
}
