// What clients ask, as JSON.
ghost use Rattle.std.specs.Prelude.{◌≡◌, nat_eq, codes, None, Ok, IfOk, option_map, if◌then◌else◌};
ghost use Rattle.serde_json.specs.Find.{as_str};
ghost use Rattle.serde_json.specs.View.{view};
ghost use Rattle.tf_wire.specs.Grammar.{at, size_of, name_of as name_spelled, value_of as value_spelled};
ghost use Rattle.tf_board_service.specs.Sessions.{board_request_in, request_of as request_spelled, call_named as call_of_word, post_of as post_spelled, asks as asks_by, owner_spelled, id_spelled, priority_of as priority_spelled};

use serde_json::Value;
use std::alloc::Global;
use tf_board::{BoardRequest, JobAction, JobCall, parse_id, priority_named};
use tf_states::Priority;
use tf_values::{Memory, Name, Val};
use tf_wire::{message_of, name_of, value_of};
use uuid::Uuid;

/// The request that a frame spells: a JSON object with the keys of its call and no others. None where it spells none.
pub fn read_board_request(alloc: Global, frame: &[u8]) -> Result<Option<BoardRequest>, Memory>
    ensures { IfOk result (λ made. made ≡ board_request_in frame.now) }
{
    match message_of(alloc, frame)? {
        Some(message) => request_of(alloc, &message),
        None => Ok(None),
    }
}

/// The request that the JSON spells, or none.
fn request_of(alloc: Global, message: &Value) -> Result<Option<BoardRequest>, Memory>
    ensures { IfOk result (λ made. made ≡ request_spelled (view message.now)) }
{
    match word_at(message, "call") {
        Some(word) => call_named(alloc, message, word),
        None => Ok(None),
    }
}

/// The string at a key, or none.
fn word_at<'a>(message: &'a Value, key: &str) -> Option<&'a str>
    ensures { option_map (λ word. word.now) result ≡ at key.now as_str (view message.now) }
{
    match message.get(key) {
        Some(value) => value.as_str(),
        None => None,
    }
}

/// How many members the object has; none where it is no object.
fn size(value: &Value) -> usize
    ensures { result ≡ size_of (view value.now) }
{
    match value.as_object() {
        Some(members) => members.len(),
        None => 0,
    }
}

/// The request of the call of this name, or none.
fn call_named(alloc: Global, message: &Value, word: &str) -> Result<Option<BoardRequest>, Memory>
    ensures { IfOk result (λ made. made ≡ call_of_word (view message.now) word.now) }
{
    let size = size(message);
    match word {
        "post" => {
            if size != 4 {
                return Ok(None);
            }
            post_of(alloc, message)
        }
        "claim" => applied_with(size, message, JobAction::Claim),
        "abandon" => applied_with(size, message, JobAction::Abandon),
        "consume" => applied_with(size, message, JobAction::Consume),
        "trash" => applied_with(size, message, JobAction::Trash),
        "owner" => {
            if size != 2 {
                return Ok(None);
            }
            Ok(owner_of(message))
        }
        "list" => {
            if size != 1 {
                return Ok(None);
            }
            Ok(Some(BoardRequest::List))
        }
        _ => Ok(None),
    }
}

/// The post that the members of an object spell, or none.
fn post_of(alloc: Global, message: &Value) -> Result<Option<BoardRequest>, Memory>
    ensures { IfOk result (λ made. made ≡ post_spelled (view message.now)) }
{
    let Some(details) = details_at(alloc, message)? else {
        return Ok(None);
    };
    let Some(name) = name_at(message, "name") else {
        return Ok(None);
    };
    let Some(priority) = priority_at(message) else {
        return Ok(None);
    };
    Ok(Some(BoardRequest::Call(JobCall::Post {
        name,
        priority,
        details,
    })))
}

/// The value at the key `details`, or none.
fn details_at(alloc: Global, message: &Value) -> Result<Option<Val>, Memory>
    ensures { IfOk result (λ made. made ≡ at (codes "details") value_spelled (view message.now)) }
{
    match message.get("details") {
        Some(value) => value_of(alloc, value),
        None => Ok(None),
    }
}

/// The name at a key, or none.
fn name_at(message: &Value, key: &str) -> Option<Name>
    ensures { result ≡ at key.now name_spelled (view message.now) }
{
    match message.get(key) {
        Some(value) => name_of(value),
        None => None,
    }
}

/// The priority at the key `priority`, or none.
fn priority_at(message: &Value) -> Option<Priority>
    ensures { result ≡ at (codes "priority") priority_spelled (view message.now) }
{
    match message.get("priority") {
        Some(value) => priority_of(value),
        None => None,
    }
}

fn priority_of(value: &Value) -> Option<Priority>
    ensures { result ≡ priority_spelled (view value.now) }
{
    match value.as_str() {
        Some(word) => priority_named(word.as_bytes()),
        None => None,
    }
}

/// The id at the key `id`, in one of its text forms, or none.
fn id_at(message: &Value) -> Option<Uuid>
    ensures { result ≡ at (codes "id") id_spelled (view message.now) }
{
    match message.get("id") {
        Some(value) => id_of(value),
        None => None,
    }
}

fn id_of(value: &Value) -> Option<Uuid>
    ensures { result ≡ id_spelled (view value.now) }
{
    match value.as_str() {
        Some(word) => parse_id(word),
        None => None,
    }
}

/// The call of an owner whose object has so many members, or none.
fn applied_with(
    size: usize,
    message: &Value,
    action: JobAction,
) -> Result<Option<BoardRequest>, Memory>
    ensures { result ≡ Ok (if nat_eq size 3 then asks_by action (view message.now) else None) }
{
    if size != 3 {
        return Ok(None);
    }
    Ok(applied_of(message, action))
}

/// What an owner does with a job, as the members of an object spell it, or none.
fn applied_of(message: &Value, action: JobAction) -> Option<BoardRequest>
    ensures { result ≡ asks_by action (view message.now) }
{
    let id = id_at(message)?;
    let owner = name_at(message, "owner")?;
    Some(BoardRequest::Call(JobCall::Apply { action, id, owner }))
}

/// Who has the job of the id that the members of an object spell, or none.
fn owner_of(message: &Value) -> Option<BoardRequest>
    ensures { result ≡ owner_spelled (view message.now) }
{
    match id_at(message) {
        Some(id) => Some(BoardRequest::Owner { id }),
        None => None,
    }
}
