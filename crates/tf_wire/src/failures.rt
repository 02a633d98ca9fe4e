ghost use Rattle.std.specs.Prelude.{◌≡◌, [], ◌∷◌, IfOk, option_map};
ghost use Rattle.serde_json.specs.View.{view, items_view};
ghost use Rattle.tf_wire.specs.Grammar.{text_of as text_spelled, alone_of, with_of, failure_items as items_spelled, failure_of as failure_spelled};
ghost use Rattle.tf_states.specs.declared.record.Failure.TheVariants as failure;

use crate::values::{count_of, name_of, status_of, text_of};
use serde_json::Value;
use std::alloc::Global;
use tf_states::Failure;
use tf_values::Memory;

/// The failure that stands there, or none.
pub fn failure_of(alloc: Global, value: &Value) -> Result<Option<Failure>, Memory>
    ensures { IfOk result (λ made. made ≡ failure_spelled (view value.now)) }
{
    match value.as_array() {
        Some(items) => failure_items(alloc, items),
        None => Ok(None),
    }
}

/// The failure that the items of an array are, or none.
#[tactic(auto, using(crate::proofs::ItemLemmas::no_failure))]
fn failure_items(alloc: Global, items: &[Value]) -> Result<Option<Failure>, Memory>
    ensures { IfOk result (λ made. made ≡ items_spelled (items_view items.now)) }
{
    if items.len() == 1 {
        let [word] = items else {
            unreachable!();
        };
        return Ok(word_alone(word));
    }
    if items.len() != 2 {
        return Ok(None);
    }
    let [word, more] = items else {
        unreachable!();
    };
    word_with(alloc, word, more)
}

/// The failure that a word is alone, or none.
fn word_alone(word: &Value) -> Option<Failure>
    ensures { result ≡ items_spelled (items_view (word.now ∷ [])) }
{
    match word.as_str() {
        Some(text) => failure_alone(text),
        None => None,
    }
}

/// The failure of a word alone.
fn failure_alone(word: &str) -> Option<Failure>
    ensures { result ≡ alone_of word.now }
{
    match word {
        "overflow" => Some(Failure::Overflow),
        "range" => Some(Failure::Range),
        "too-long" => Some(Failure::TooLong),
        "spawn" => Some(Failure::Spawn),
        "not-text" => Some(Failure::NotText),
        "lost" => Some(Failure::Lost),
        "exhausted" => Some(Failure::Exhausted),
        _ => None,
    }
}

/// The failure that a word is with what follows it, or none.
fn word_with(alloc: Global, word: &Value, more: &Value) -> Result<Option<Failure>, Memory>
    ensures { IfOk result (λ made. made ≡ items_spelled (items_view (word.now ∷ more.now ∷ []))) }
{
    match word.as_str() {
        Some(text) => failure_with(alloc, text, more),
        None => Ok(None),
    }
}

/// The failure of a word with what follows it.
fn failure_with(alloc: Global, word: &str, more: &Value) -> Result<Option<Failure>, Memory>
    ensures { IfOk result (λ made. made ≡ with_of (view more.now) word.now) }
{
    match word {
        "raised" => raised(alloc, more),
        "type" => Ok(name_of(more).map(Failure::WrongKind)),
        "lookup" => Ok(name_of(more).map(Failure::Lookup)),
        "exit" => Ok(status_of(more).map(Failure::Exit)),
        "bad-reply" => Ok(count_of(more).map(Failure::BadReply)),
        _ => Ok(None),
    }
}

/// The failure that raises the text that stands there, or none.
fn raised(alloc: Global, value: &Value) -> Result<Option<Failure>, Memory>
    ensures { IfOk result (λ made. made ≡ option_map failure.Raised (text_spelled (view value.now))) }
{
    match text_of(alloc, value)? {
        Some(text) => Ok(Some(Failure::Raised(text))),
        None => Ok(None),
    }
}
