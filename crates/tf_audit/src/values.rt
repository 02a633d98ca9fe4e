ghost use Rattle.std.specs.Prelude.{◌≡◌, ◌++◌, ◌∷◌, [], ℕ, List, true, Some, IfOk};
ghost use Rattle.tf_values.specs.declared.value.Val.{Val as Value};
ghost use Rattle.tf_values.specs.Text.{is_text};
ghost use Rattle.tf_values.specs.Value.{text_form, quoted, IsValue};
ghost use Rattle.tf_audit.specs.Events.{text_within};

use std::alloc::Global;
use tf_values::{MakeFault, Memory, Text, Val};

/// The value whose text form the bytes are before a line feed.
pub fn value_of(alloc: Global, bytes: &[u8]) -> Result<Option<Val>, Memory>
    ensures { IfOk result (λ read. (value : Value) → IsValue value → bytes.now ≡ text_form value ++ 10 ∷ []
        → read ≡ Some value) }
{
    let Some((_, text)) = bytes.split_last() else {
        return Ok(None);
    };
    match Val::parse(alloc, text) {
        Ok(value) => Ok(Some(value)),
        Err(MakeFault::No) => Ok(None),
        Err(MakeFault::Memory) => Err(Memory),
    }
}

/// The text whose quoted form the bytes are before a line feed.
pub fn text_of(alloc: Global, bytes: &[u8]) -> Result<Option<Text>, Memory>
    ensures { IfOk result (λ read. (text : List ℕ) → is_text text ≡ true → bytes.now ≡ quoted text ++ 10 ∷ []
        → read ≡ Some text) }
{
    let read = value_of(alloc, bytes)?;
    Ok(text_in(read))
}

/// The text that is read.
fn text_in(read: Option<Val>) -> Option<Text>
    ensures { result ≡ text_within read }
{
    match read {
        Some(Val::Text(text)) => Some(text),
        _ => None,
    }
}
