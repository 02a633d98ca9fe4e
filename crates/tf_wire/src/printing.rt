ghost use Rattle.std.specs.Prelude.{◌≡◌, ◌<◌, ◌≤◌, ◌^◌, ◌++◌, length, map, false, true, Some, IfOk, OnOk};
ghost use Rattle.std.specs.List.{AllByRecursion};
ghost use Rattle.serde_json.specs.Data.{string as string_data, depth};
ghost use Rattle.serde_json.specs.View.{view};
ghost use Rattle.serde_json.specs.Written.{has_float, compact_text};
ghost use Rattle.tf_values.specs.Text.{is_name, is_text};
ghost use Rattle.tf_values.specs.Value.{IsValue};
ghost use Rattle.tf_wire.specs.Limits.{IsWord, IsArgument, IsFailure, HasParts, HasPart, id_in};
ghost use Rattle.tf_wire.specs.Grammar.{message_of, IsFitRequest, AreRequest, AreResponse, scalar_data, value_data, pair_data, failure_data, alone, with_data, request_data, object_of_request, response_data, running_data, success_data, fault_data, frame_of, action_word as word_of_action, kind_word as word_of_kind};

use crate::messages::{Request, Response};
use serde_json::{Value, json};
use std::alloc::{AllocError, Global};
use tf_actions::{Action, Pair};
use tf_flow::TaskKind;
use tf_states::Failure;
use tf_values::{Memory, Name, Scalar, Text, Val};

/// The word of an action.
pub fn action_word(action: Action) -> &'static str
    ensures { result.now ≡ word_of_action action }
{
    match action {
        Action::Execute => "execute",
        Action::Revert => "revert",
    }
}

/// The word of a kind of task.
pub fn kind_word(kind: TaskKind) -> &'static str
    ensures { result.now ≡ word_of_kind kind }
{
    match kind {
        TaskKind::Echo => "echo",
        TaskKind::Concat => "concat",
        TaskKind::Sum => "sum",
        TaskKind::Length => "length",
        TaskKind::Pick => "pick",
        TaskKind::List => "list",
        TaskKind::Fail => "fail",
        TaskKind::FailBelow => "fail_below",
        TaskKind::FailUnless => "fail_unless",
        TaskKind::Command => "command",
    }
}

/// The JSON of a text.
#[tactic(auto, using(crate::proofs::LimitLemmas::text_utf8))]
pub fn text_value(alloc: Global, text: &Text) -> Result<Value, Memory>
    ensures spelled { IfOk result (λ made. view made ≡ string_data text.now) }
    ensures text { is_text text.now ≡ true }
{
    let Ok(word) = str::from_utf8(text.bytes()) else {
        unreachable!();
    };
    Ok(Value::String(String::from_str(alloc, word)?))
}

/// The JSON of a name.
#[tactic(auto, using(crate::proofs::LimitLemmas::name_utf8))]
fn name_value(alloc: Global, name: &Name) -> Result<Value, Memory>
    ensures spelled { IfOk result (λ made. view made ≡ string_data name.now) }
    ensures name { is_name name.now ≡ true }
{
    let Ok(word) = str::from_utf8(name.bytes()) else {
        unreachable!();
    };
    Ok(Value::String(String::from_str(alloc, word)?))
}

/// The JSON of a scalar.
fn scalar_value(alloc: Global, scalar: &Scalar) -> Result<Value, Memory>
    ensures { IfOk result (λ made. view made ≡ scalar_data scalar.now) }
{
    match scalar {
        Scalar::Nothing => Ok(Value::Null),
        Scalar::Truth(truth) => Ok(Value::Bool(*truth)),
        Scalar::Int(number) => Ok(Value::from(*number)),
        Scalar::Text(text) => text_value(alloc, text),
    }
}

/// The JSON of each scalar.
fn scalar_values(alloc: Global, scalars: &[Scalar]) -> Result<Vec<Value>, Memory>
    ensures { IfOk result (λ made. map view made.items ≡ map scalar_data scalars.now) }
{
    let mut made = Vec::with_capacity(alloc, scalars.len())?;
    for scalar in scalars {
        made.push(scalar_value(alloc, scalar)?)?;
    }
    Ok(made)
}

/// The JSON of a value.
fn value_value(alloc: Global, value: &Val) -> Result<Value, Memory>
    ensures spelled { IfOk result (λ made. view made ≡ value_data value.now) }
    ensures value { IfOk result (λ _. IsValue value.now) }
{
    match value {
        Val::Nothing => Ok(Value::Null),
        Val::Truth(truth) => Ok(Value::Bool(*truth)),
        Val::Int(number) => Ok(Value::from(*number)),
        Val::Text(text) => text_value(alloc, text),
        Val::List(list) => Ok(Value::Array(scalar_values(alloc, list.items())?)),
    }
}

/// The JSON of an argument.
fn pair_value(alloc: Global, pair: &Pair) -> Result<Value, Memory>
    ensures spelled { IfOk result (λ made. view made ≡ pair_data pair.now) }
    ensures argument { IfOk result (λ _. IsArgument pair.now) }
{
    let name = name_value(alloc, &pair.name)?;
    let value = value_value(alloc, &pair.value)?;
    Ok(json!(in alloc; [name, value])?)
}

/// The JSON of each argument.
fn pair_values(alloc: Global, pairs: &[Pair]) -> Result<Vec<Value>, Memory>
    ensures spelled { IfOk result (λ made. map view made.items ≡ map pair_data pairs.now) }
    ensures arguments { IfOk result (λ _. AllByRecursion IsArgument pairs.now) }
{
    let mut made = Vec::with_capacity(alloc, pairs.len())?;
    for pair in pairs {
        made.push(pair_value(alloc, pair)?)?;
    }
    Ok(made)
}

/// The JSON of each word.
pub fn word_values(alloc: Global, words: &[Text]) -> Result<Vec<Value>, Memory>
    ensures spelled { IfOk result (λ made. map view made.items ≡ map string_data words.now) }
    ensures words { IfOk result (λ _. AllByRecursion IsWord words.now) }
{
    let mut made = Vec::with_capacity(alloc, words.len())?;
    for word in words {
        made.push(text_value(alloc, word)?)?;
    }
    Ok(made)
}

/// The JSON of a request.
fn request_value(alloc: Global, request: &Request) -> Result<Value, Memory>
    ensures spelled { IfOk result (λ made. view made ≡ request_data request.now) }
    ensures parts { IfOk result (λ _. HasParts request.now) }
{
    let args = Value::Array(pair_values(alloc, request.args.items())?);
    let words = Value::Array(word_values(alloc, request.words.items())?);
    let action = action_word(request.action);
    let kind = kind_word(request.kind);
    Ok(request_object(alloc, action, args, request.id, kind, words)?)
}

/// The JSON of a request with these members.
fn request_object(
    alloc: Global,
    action: &str,
    args: Value,
    id: u64,
    kind: &str,
    words: Value,
) -> Result<Value, AllocError>
    ensures { IfOk result (λ made. view made ≡ object_of_request action.now (view args) id kind.now (view words)) }
{
    json!(in alloc; {"action": action, "args": args, "id": id, "kind": kind, "words": words})
}

/// The JSON of a failure.
fn failure_value(alloc: Global, fault: &Failure) -> Result<Value, Memory>
    ensures spelled { IfOk result (λ made. view made ≡ failure_data fault.now) }
    ensures fault { IfOk result (λ _. IsFailure fault.now) }
{
    match fault {
        Failure::Raised(text) => with_value(alloc, "raised", text_value(alloc, text)?),
        Failure::WrongKind(name) => with_value(alloc, "type", name_value(alloc, name)?),
        Failure::Overflow => word_alone(alloc, "overflow"),
        Failure::Range => word_alone(alloc, "range"),
        Failure::TooLong => word_alone(alloc, "too-long"),
        Failure::Lookup(name) => with_value(alloc, "lookup", name_value(alloc, name)?),
        Failure::Exit(status) => with_value(alloc, "exit", Value::from(*status)),
        Failure::Spawn => word_alone(alloc, "spawn"),
        Failure::NotText => word_alone(alloc, "not-text"),
        Failure::Lost => word_alone(alloc, "lost"),
        Failure::BadReply(count) => with_value(alloc, "bad-reply", Value::from(*count)),
        Failure::Exhausted => word_alone(alloc, "exhausted"),
    }
}

/// The JSON of a failure's word alone.
fn word_alone(alloc: Global, word: &str) -> Result<Value, Memory>
    ensures { IfOk result (λ made. view made ≡ alone word.now) }
{
    Ok(json!(in alloc; [word])?)
}

/// The JSON of a failure's word with what it has.
fn with_value(alloc: Global, word: &str, more: Value) -> Result<Value, Memory>
    ensures { IfOk result (λ made. view made ≡ with_data word.now (view more)) }
{
    Ok(json!(in alloc; [word, more])?)
}

/// The JSON of a response.
fn response_value(alloc: Global, response: &Response) -> Result<Value, Memory>
    ensures spelled { IfOk result (λ made. view made ≡ response_data response.now) }
    ensures part { IfOk result (λ _. HasPart response.now) }
{
    match response {
        Response::Running(id) => running_value(alloc, *id),
        Response::Success(id, result) => success_value(alloc, *id, value_value(alloc, result)?),
        Response::Failure(id, fault) => fault_value(alloc, *id, failure_value(alloc, fault)?),
    }
}

/// The JSON of the answer that an order runs.
fn running_value(alloc: Global, id: u64) -> Result<Value, Memory>
    ensures { IfOk result (λ made. view made ≡ running_data id) }
{
    Ok(json!(in alloc; {"id": id, "state": "RUNNING"})?)
}

/// The JSON of the answer that an order gave this.
fn success_value(alloc: Global, id: u64, given: Value) -> Result<Value, Memory>
    ensures { IfOk result (λ made. view made ≡ success_data id (view given)) }
{
    Ok(json!(in alloc; {"id": id, "result": given, "state": "SUCCESS"})?)
}

/// The JSON of the answer that an order failed so.
fn fault_value(alloc: Global, id: u64, fault: Value) -> Result<Value, Memory>
    ensures { IfOk result (λ made. view made ≡ fault_data id (view fault)) }
{
    Ok(json!(in alloc; {"failure": fault, "id": id, "state": "FAILURE"})?)
}

/// Appends a message that has no float as a frame, its compact text behind the length of that, which is read as that
/// message.
pub fn print_message(alloc: Global, message: &Value, out: &mut Vec<u8>) -> Result<(), Memory>
    requires no_float { has_float (view message.now) ≡ false }
    requires short { length (compact_text (view message.now)) < 2 ^ 32 }
    ensures frame { OnOk result (out.new.items ≡ out.old.items ++ frame_of (view message.now)) }
    ensures back { OnOk result (depth (view message.now) ≤ 127
        → message_of (compact_text (view message.now)) ≡ Some (view message.now)) }
{
    let text = message.to_string(alloc)?;
    let len = text.len() as u32;
    out.extend_from_slice(&len.to_be_bytes())?;
    out.extend_from_slice(text.as_bytes())?;
    Ok(())
}

/// Appends the frame of a request. A request that is allowed is read back from it, where its id has 63 bits.
pub fn print_request(alloc: Global, request: &Request, out: &mut Vec<u8>) -> Result<(), Memory>
    requires few_words { length request.now.words ≤ 64 }
    requires few_args { length request.now.args ≤ 64 }
    ensures frame { OnOk result (out.new.items ≡ out.old.items ++ frame_of (request_data request.now)) }
    ensures back { OnOk result (request.now.id < 2 ^ 63 → IsFitRequest request.now
        → AreRequest (compact_text (request_data request.now)) request.now) }
{
    let message = request_value(alloc, request)?;
    print_message(alloc, &message, out)
}

/// Appends the frame of a response. It is read back from it, where its id has 63 bits.
pub fn print_response(alloc: Global, response: &Response, out: &mut Vec<u8>) -> Result<(), Memory>
    ensures frame { OnOk result (out.new.items ≡ out.old.items ++ frame_of (response_data response.now)) }
    ensures back { OnOk result (id_in response.now < 2 ^ 63
        → AreResponse (compact_text (response_data response.now)) response.now) }
{
    let message = response_value(alloc, response)?;
    print_message(alloc, &message, out)
}
