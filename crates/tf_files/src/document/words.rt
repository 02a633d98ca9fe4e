ghost use Rattle.std.specs.Prelude.{◌≡◌, Ok, IfOk, IfErr};
ghost use Rattle.tf_files.specs.document.Reading.{RefusesWith, each, a_text as text_of_string, text_form as text_spelled, texts_form as texts_spelled};
ghost use Rattle.tf_files.specs.document.Places.{place_of};
ghost use Rattle.toml.specs.View.{view, items_view};

use crate::document::faults::FileFault;
use crate::document::fields::{Field, item_at};
use crate::document::paths::Path;
use std::alloc::Global;
use tf_values::{MakeFault, Text};
use toml::Value;

/// A list of texts; each is refused under its own path.
pub fn texts_form(alloc: Global, field: &Field<'_>) -> Result<Vec<Text>, FileFault>
    ensures ok { IfOk result (λ texts. texts_spelled (place_of field.now) (view field.now.value.now) ≡ Ok texts.items) }
    ensures refused { IfErr result (RefusesWith (texts_spelled (place_of field.now) (view field.now.value.now))) }
{
    let items = field.items(alloc)?;
    let path = field.path(alloc)?;
    each_text(alloc, &path, items)
}

/// The texts that the items of an array under the path are.
pub fn each_text(alloc: Global, path: &Path, items: &[Value]) -> Result<Vec<Text>, FileFault>
    ensures ok { IfOk result (λ texts. each text_spelled path.now 0 (items_view items.now) ≡ Ok texts.items) }
    ensures refused { IfErr result (RefusesWith (each text_spelled path.now 0 (items_view items.now))) }
{
    let mut texts = Vec::with_capacity(alloc, items.len())?;
    for (number, value) in items.iter().enumerate() {
        let field = item_at(path, number, value);
        texts.push(text_form(alloc, &field)?)?;
    }
    Ok(texts)
}

/// A text: `WrongKind` where the value is no string, `BadValue` where it is longer than texts are.
fn text_form(alloc: Global, field: &Field<'_>) -> Result<Text, FileFault>
    ensures ok { IfOk result (λ text. text_spelled (place_of field.now) (view field.now.value.now) ≡ Ok text) }
    ensures refused { IfErr result (RefusesWith (text_spelled (place_of field.now) (view field.now.value.now))) }
{
    let word = field.word(alloc)?;
    a_text(alloc, field, word)
}

/// The text that a string is, or `BadValue`.
fn a_text(alloc: Global, field: &Field<'_>, word: &str) -> Result<Text, FileFault>
    ensures ok { IfOk result (λ text. text_of_string (place_of field.now) word.now ≡ Ok text) }
    ensures refused { IfErr result (RefusesWith (text_of_string (place_of field.now) word.now)) }
{
    match Text::make(alloc, word.as_bytes()) {
        Ok(text) => Ok(text),
        Err(MakeFault::No) => Err(FileFault::BadValue(field.path(alloc)?)),
        Err(MakeFault::Memory) => Err(FileFault::Memory),
    }
}
