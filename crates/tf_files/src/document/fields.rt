ghost use Rattle.std.specs.Prelude.{◌≡◌, Some, Ok, IfOk, IfErr, IfSome, OnOk, map, option_map};
ghost use Rattle.std.specs.Fmt.{decimal};
ghost use Rattle.tf_flow.specs.Tree.{is_among};
ghost use Rattle.tf_files.specs.document.Reading.{below, RefusesWith, known_only as read_known, unknown_key as first_unknown, required_at, of_kind, has_key as key_is_there, has_text as text_is_there, same_text as is_that_text};
ghost use Rattle.tf_files.specs.document.Places.{place_of};
ghost use Rattle.toml.specs.Data.{get_member, as_str, as_array, as_table};
ghost use Rattle.toml.specs.View.{view, items_view, table_view};

use crate::document::faults::FileFault;
use crate::document::paths::Path;
use itoa::Buffer;
use std::alloc::Global;
use tf_values::Memory;
use toml::{Table, Value};

/// A step into a table, by the bytes of a key, or into an array.
#[derive(Clone, Copy)]
pub enum Step<'a> {
    Key(&'a [u8]),
    Item(usize),
}

/// A value of a document, which stands one step below a path. Its own path is made only where it is asked for.
#[derive(Drop)]
pub struct Field<'a> {
    pub above: &'a Path,
    pub step: Step<'a>,
    pub value: &'a Value,
}

impl<'a> Field<'a> {
    /// The path of the value.
    pub fn path(&self, alloc: Global) -> Result<Path, Memory>
        ensures { IfOk result (λ path. path ≡ place_of self.now) }
    {
        match self.step {
            Step::Key(key) => self.above.below(alloc, key),
            Step::Item(number) => self
                .above
                .below(alloc, Buffer::new().format(number).as_bytes()),
        }
    }

    /// The string that the value is, or `WrongKind`.
    pub fn word(&self, alloc: Global) -> Result<&'a str, FileFault>
        ensures ok { IfOk result (λ word. as_str (view self.now.value.now) ≡ Some word.now) }
        ensures refused { IfErr result (RefusesWith
            (of_kind (place_of self.now) (as_str (view self.now.value.now)) Ok)) }
    {
        match self.value.as_str() {
            Some(word) => Ok(word),
            None => Err(FileFault::WrongKind(self.path(alloc)?)),
        }
    }

    /// The items of the array that the value is, or `WrongKind`.
    pub fn items(&self, alloc: Global) -> Result<&'a [Value], FileFault>
        ensures ok { IfOk result (λ items. as_array (view self.now.value.now) ≡ Some (items_view items.now)) }
        ensures refused { IfErr result (RefusesWith
            (of_kind (place_of self.now) (as_array (view self.now.value.now)) Ok)) }
    {
        match self.value.as_array() {
            Some(items) => Ok(items),
            None => Err(FileFault::WrongKind(self.path(alloc)?)),
        }
    }

    /// The table that the value is, or `WrongKind`.
    pub fn table(&self, alloc: Global) -> Result<&'a Table, FileFault>
        ensures ok { IfOk result (λ table. as_table (view self.now.value.now) ≡ Some (table_view table.now)) }
        ensures refused { IfErr result (RefusesWith
            (of_kind (place_of self.now) (as_table (view self.now.value.now)) Ok)) }
    {
        match self.value.as_table() {
            Some(table) => Ok(table),
            None => Err(FileFault::WrongKind(self.path(alloc)?)),
        }
    }
}

/// The item of that number of the array under the path.
pub fn item_at<'a>(path: &'a Path, number: usize, value: &'a Value) -> Field<'a>
    ensures place { place_of result ≡ below path.now (decimal number) }
    ensures value { result.value.now ≡ value.now }
{
    Field {
        above: path,
        step: Step::Item(number),
        value,
    }
}

/// Whether the table has the key.
pub fn has_key(table: &Table, key: &str) -> bool
    ensures { result ≡ key_is_there key.now (table_view table.now) }
{
    value_at(table, key).is_some()
}

/// Whether the value at the key is this text.
pub fn has_text(table: &Table, key: &str, word: &str) -> bool
    ensures { result ≡ text_is_there key.now word.now (table_view table.now) }
{
    match value_at(table, key) {
        Some(value) => is_text(value, word),
        None => false,
    }
}

/// Whether the value is this text.
fn is_text(value: &Value, word: &str) -> bool
    ensures { result ≡ is_that_text word.now (as_str (view value.now)) }
{
    match value.as_str() {
        Some(text) => text == word,
        None => false,
    }
}

/// The value at a key.
fn value_at<'a>(table: &'a Table, key: &str) -> Option<&'a Value>
    ensures { option_map (λ value. view value.now) result ≡ get_member key.now (table_view table.now) }
{
    table.get(key)
}

/// RefusesWith the table under the path for its first key, in byte order, that isn't one of those.
pub fn known_only(
    alloc: Global,
    path: &Path,
    known: &[&str],
    table: &Table,
) -> Result<(), FileFault>
    ensures ok { OnOk result (first_unknown (map (λ key. key.now) known.now) (table_view table.now) ≡ None) }
    ensures refused { IfErr result (RefusesWith (read_known path.now (map (λ key. key.now) known.now)
        (table_view table.now) (Ok (table_view table.now)))) }
{
    match unknown_key(known, table) {
        None => Ok(()),
        Some(key) => Err(FileFault::UnknownKey(path.below_key(alloc, key)?)),
    }
}

/// The first key that isn't one of those that are known.
fn unknown_key<'a>(known: &[&str], table: &'a Table) -> Option<&'a str>
    ensures { option_map (λ key. key.now) result ≡ first_unknown (map (λ key. key.now) known.now)
        (table_view table.now) }
{
    for (key, _value) in table {
        if !is_known(known, key.as_str()) {
            return Some(key.as_str());
        }
    }
    None
}

/// Whether the word is one of those.
pub fn is_known(known: &[&str], word: &str) -> bool
    ensures { result ≡ is_among (map (λ other. other.now) known.now) word.now }
{
    for other in known {
        if word == *other {
            return true;
        }
    }
    false
}

/// The value at a key of the table under the path, which must be there.
pub fn required<'a>(
    alloc: Global,
    path: &'a Path,
    key: &'a str,
    table: &'a Table,
) -> Result<Field<'a>, FileFault>
    ensures place { IfOk result (λ field. place_of field ≡ below path.now key.now) }
    ensures found { IfOk result (λ field. get_member key.now (table_view table.now) ≡ Some (view field.value.now)) }
    ensures refused { IfErr result (RefusesWith (required_at (below path.now key.now) (λ place found. Ok found)
        (get_member key.now (table_view table.now)))) }
{
    match value_at(table, key) {
        Some(value) => Ok(Field {
            above: path,
            step: Step::Key(key.as_bytes()),
            value,
        }),
        None => Err(FileFault::MissingKey(path.below(alloc, key.as_bytes())?)),
    }
}

/// The value at a key of the table under the path, if it is there.
pub fn optional<'a>(path: &'a Path, key: &'a str, table: &'a Table) -> Option<Field<'a>>
    ensures place { IfSome result (λ field. place_of field ≡ below path.now key.now) }
    ensures found { option_map (λ field. view field.value.now) result ≡ get_member key.now (table_view table.now) }
{
    match value_at(table, key) {
        Some(value) => Some(Field {
            above: path,
            step: Step::Key(key.as_bytes()),
            value,
        }),
        None => None,
    }
}
