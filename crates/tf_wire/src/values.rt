ghost use Rattle.std.specs.Prelude.{◌≡◌, IfOk, option_map, option_and_then};
ghost use Rattle.serde_json.specs.Data.{string as string_data, array as array_data};
ghost use Rattle.serde_json.specs.View.{view, items_view};
ghost use Rattle.tf_wire.specs.Grammar.{a_text, text_of as text_spelled, a_name, name_of as name_spelled, integer_of as integer_spelled, natural as natural_of, id_of as id_spelled, a_status, status_of as status_spelled, a_count, count_of as count_spelled, scalar_of as scalar_spelled, a_list, value_of as value_spelled, each_of};

use serde_json::Value;
use std::alloc::Global;
use tf_values::{MakeFault, Memory, Name, Scalar, Scalars, Text, Val};

/// The text that a string is, if it is one.
fn text_made(alloc: Global, word: &str) -> Result<Option<Text>, Memory>
    ensures { IfOk result (λ made. made ≡ a_text word.now) }
{
    match Text::make(alloc, word.as_bytes()) {
        Ok(text) => Ok(Some(text)),
        Err(MakeFault::No) => Ok(None),
        Err(MakeFault::Memory) => Err(Memory),
    }
}

/// The text that stands there, or none.
pub fn text_of(alloc: Global, value: &Value) -> Result<Option<Text>, Memory>
    ensures { IfOk result (λ made. made ≡ text_spelled (view value.now)) }
{
    match value.as_str() {
        Some(word) => text_made(alloc, word),
        None => Ok(None),
    }
}

/// The name that stands there, or none.
pub fn name_of(value: &Value) -> Option<Name>
    ensures { result ≡ name_spelled (view value.now) }
{
    match value.as_str() {
        Some(word) => Name::make(word.as_bytes()),
        None => None,
    }
}

/// The whole number of 64 bits that stands there and isn't negative, or none.
pub fn id_of(value: &Value) -> Option<u64>
    ensures { result ≡ id_spelled (view value.now) }
{
    match value.as_i64() {
        Some(number) => natural(number),
        None => None,
    }
}

/// The number, where it isn't negative.
fn natural(number: i64) -> Option<u64>
    ensures { result ≡ natural_of number }
{
    if number < 0 {
        return None;
    }
    Some(number as u64)
}

/// The whole number of 32 bits that stands there, or none.
pub fn status_of(value: &Value) -> Option<i32>
    ensures { result ≡ status_spelled (view value.now) }
{
    match value.as_i64() {
        Some(number) => status_made(number),
        None => None,
    }
}

/// The number, where it has 32 bits.
fn status_made(number: i64) -> Option<i32>
    ensures { result ≡ a_status number }
{
    if number < -2_147_483_648 || 2_147_483_647 < number {
        return None;
    }
    Some(number as i32)
}

/// The whole number of 32 bits that stands there and isn't negative, or none.
pub fn count_of(value: &Value) -> Option<u32>
    ensures { result ≡ count_spelled (view value.now) }
{
    match id_of(value) {
        Some(number) => count_made(number),
        None => None,
    }
}

/// The number, where it has 32 bits.
fn count_made(number: u64) -> Option<u32>
    ensures { result ≡ a_count number }
{
    if number > 4_294_967_295 {
        return None;
    }
    Some(number as u32)
}

/// The scalar that stands there, or none.
fn scalar_of(alloc: Global, value: &Value) -> Result<Option<Scalar>, Memory>
    ensures { IfOk result (λ made. made ≡ scalar_spelled (view value.now)) }
{
    match value {
        Value::Null => Ok(Some(Scalar::Nothing)),
        Value::Bool(truth) => Ok(Some(Scalar::Truth(*truth))),
        Value::Number(number) => Ok(number.as_i64().map(Scalar::Int)),
        Value::String(string) => scalar_text(alloc, string.as_str()),
        _ => Ok(None),
    }
}

fn scalar_text(alloc: Global, word: &str) -> Result<Option<Scalar>, Memory>
    ensures { IfOk result (λ made. made ≡ scalar_spelled (string_data word.now)) }
{
    match Text::make(alloc, word.as_bytes()) {
        Ok(text) => Ok(Some(Scalar::Text(text))),
        Err(MakeFault::No) => Ok(None),
        Err(MakeFault::Memory) => Err(Memory),
    }
}

/// The scalars that items are, or none where one is no scalar.
fn scalars_of(alloc: Global, items: &[Value]) -> Result<Option<Vec<Scalar>>, Memory>
    ensures { IfOk result (λ made. option_map (λ scalars. scalars.items) made
        ≡ each_of scalar_spelled (items_view items.now)) }
{
    let mut scalars = Vec::new(alloc);
    for item in items {
        let Some(scalar) = scalar_of(alloc, item)? else {
            return Ok(None);
        };
        scalars.push(scalar)?;
    }
    Ok(Some(scalars))
}

/// The list of these scalars, or none where they pass a limit of lists.
fn within_limits(scalars: Vec<Scalar>) -> Option<Val>
    ensures { result ≡ a_list scalars.items }
{
    match Scalars::make(scalars) {
        Ok(list) => Some(Val::List(list)),
        Err(_) => None,
    }
}

/// The list that an array is, or none.
fn list_of(alloc: Global, items: &[Value]) -> Result<Option<Val>, Memory>
    ensures { IfOk result (λ made. made ≡ value_spelled (array_data (items_view items.now))) }
{
    match scalars_of(alloc, items)? {
        Some(scalars) => Ok(within_limits(scalars)),
        None => Ok(None),
    }
}

fn value_text(alloc: Global, word: &str) -> Result<Option<Val>, Memory>
    ensures { IfOk result (λ made. made ≡ value_spelled (string_data word.now)) }
{
    match Text::make(alloc, word.as_bytes()) {
        Ok(text) => Ok(Some(Val::Text(text))),
        Err(MakeFault::No) => Ok(None),
        Err(MakeFault::Memory) => Err(Memory),
    }
}

/// The value that stands there, or none.
pub fn value_of(alloc: Global, value: &Value) -> Result<Option<Val>, Memory>
    ensures { IfOk result (λ made. made ≡ value_spelled (view value.now)) }
{
    match value {
        Value::Null => Ok(Some(Val::Nothing)),
        Value::Bool(truth) => Ok(Some(Val::Truth(*truth))),
        Value::Number(number) => Ok(number.as_i64().map(Val::Int)),
        Value::String(string) => value_text(alloc, string.as_str()),
        Value::Array(items) => list_of(alloc, items),
        Value::Object(_) => Ok(None),
    }
}
