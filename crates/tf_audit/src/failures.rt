ghost use Rattle.std.specs.Prelude.{◌≡◌, ◌++◌, ◌∷◌, [], Some, IfOk};
ghost use Rattle.tf_states.specs.declared.record.Failure.{Failure as Fault};
ghost use Rattle.tf_entries.specs.Entries.{IsFailure};
ghost use Rattle.tf_report.specs.Lines.{failure_text};
ghost use Rattle.tf_audit.specs.Events.{failure_with as failure_of_parts, failure_alone as failure_of_word};

use crate::numbers::{place_of, status_of};
use crate::values::text_of;
use crate::words::cut;
use std::alloc::Global;
use tf_states::Failure;
use tf_values::{Memory, Name, Text};

/// The failure whose text the bytes are before a line feed.
pub fn failure_of(alloc: Global, bytes: &[u8]) -> Result<Option<Failure>, Memory>
    ensures { IfOk result (λ read. (fault : Fault) → IsFailure fault → bytes.now ≡ failure_text fault ++ 10 ∷ []
        → read ≡ Some fault) }
{
    let (word, behind) = cut(bytes);
    let text = text_of(alloc, behind)?;
    let (rest, _) = cut(behind);
    Ok(failure_with(
        word,
        text,
        Name::make(rest),
        status_of(rest),
        place_of(rest),
    ))
}

/// The failure of a word, with what stands behind it that it takes.
fn failure_with(
    word: &[u8],
    text: Option<Text>,
    name: Option<Name>,
    status: Option<i32>,
    place: Option<u32>,
) -> Option<Failure>
    ensures { result ≡ failure_of_parts word.now text name status place }
{
    if word == b"raised".as_slice() {
        return Some(Failure::Raised(text?));
    }
    if word == b"type".as_slice() {
        return Some(Failure::WrongKind(name?));
    }
    if word == b"lookup".as_slice() {
        return Some(Failure::Lookup(name?));
    }
    if word == b"exit".as_slice() {
        return Some(Failure::Exit(status?));
    }
    if word == b"bad-reply".as_slice() {
        return Some(Failure::BadReply(place?));
    }
    failure_alone(word)
}

/// The failure that the word is, where nothing stands behind it.
fn failure_alone(word: &[u8]) -> Option<Failure>
    ensures { result ≡ failure_of_word word.now }
{
    if word == b"overflow".as_slice() {
        return Some(Failure::Overflow);
    }
    if word == b"range".as_slice() {
        return Some(Failure::Range);
    }
    if word == b"too-long".as_slice() {
        return Some(Failure::TooLong);
    }
    if word == b"spawn".as_slice() {
        return Some(Failure::Spawn);
    }
    if word == b"not-text".as_slice() {
        return Some(Failure::NotText);
    }
    if word == b"lost".as_slice() {
        return Some(Failure::Lost);
    }
    if word == b"exhausted".as_slice() {
        return Some(Failure::Exhausted);
    }
    None
}
