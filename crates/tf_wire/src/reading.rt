ghost use Rattle.std.specs.Prelude.{◌≡◌, IfOk, IfErr, codes, option_map};
ghost use Rattle.serde_json.specs.Find.{as_str};
ghost use Rattle.serde_json.specs.View.{view};
ghost use Rattle.tf_wire.specs.Grammar.{at, value_of as value_spelled, failure_of as failure_spelled, success_members as success_spelled, failure_members as fault_spelled, response_named as response_of_word, response_of as response_spelled, message_of as message_spelled, request_in, response_in, AreRequest, AreResponse, IsRefusal};

use crate::allowing::is_allowed;
use crate::failures::failure_of;
use crate::faults::WireFault;
use crate::messages::{Request, Response};
use crate::requests::{id_at, request_of, size};
use crate::values::value_of;
use serde_json::Value;
use std::alloc::Global;
use tf_states::Failure;
use tf_values::{Memory, Val};

/// The request that a frame spells. `Bad` comes exactly where it spells none.
#[tactic(auto, using(crate::proofs::MessageLemmas::are_request, crate::proofs::MessageLemmas::no_request))]
pub fn read_request(alloc: Global, frame: &[u8]) -> Result<Request, WireFault>
    ensures ok { IfOk result (AreRequest frame.now) }
    ensures refused { IfErr result (IsRefusal (AreRequest frame.now)) }
{
    match request_of_frame(alloc, frame)? {
        Some(request) => Ok(request),
        None => Err(WireFault::Bad { at: 0 }),
    }
}

/// The response that a frame spells. `Bad` comes exactly where it spells none.
#[tactic(auto, using(crate::proofs::MessageLemmas::are_response, crate::proofs::MessageLemmas::no_response))]
pub fn read_response(alloc: Global, frame: &[u8]) -> Result<Response, WireFault>
    ensures ok { IfOk result (AreResponse frame.now) }
    ensures refused { IfErr result (IsRefusal (AreResponse frame.now)) }
{
    match response_of_frame(alloc, frame)? {
        Some(response) => Ok(response),
        None => Err(WireFault::Bad { at: 0 }),
    }
}

/// The JSON that the bytes are, or none.
pub fn message_of(alloc: Global, frame: &[u8]) -> Result<Option<Value>, Memory>
    ensures { IfOk result (λ made. option_map view made ≡ message_spelled frame.now) }
{
    match Value::from_slice(alloc, frame) {
        Ok(message) => Ok(Some(message)),
        Err(fault) => {
            if fault.is_memory() {
                return Err(Memory);
            }
            Ok(None)
        }
    }
}

/// The request that the bytes spell and that is allowed, or none.
fn request_of_frame(alloc: Global, frame: &[u8]) -> Result<Option<Request>, Memory>
    ensures { IfOk result (λ made. made ≡ request_in frame.now) }
{
    let Some(message) = message_of(alloc, frame)? else {
        return Ok(None);
    };
    let Some(request) = request_of(alloc, &message)? else {
        return Ok(None);
    };
    if !is_allowed(&request) {
        return Ok(None);
    }
    Ok(Some(request))
}

/// The response that the bytes spell, or none.
fn response_of_frame(alloc: Global, frame: &[u8]) -> Result<Option<Response>, Memory>
    ensures { IfOk result (λ made. made ≡ response_in frame.now) }
{
    match message_of(alloc, frame)? {
        Some(message) => response_of(alloc, &message),
        None => Ok(None),
    }
}

/// The response that the JSON spells, or none.
fn response_of(alloc: Global, message: &Value) -> Result<Option<Response>, Memory>
    ensures { IfOk result (λ made. made ≡ response_spelled (view message.now)) }
{
    match state_at(message) {
        Some(word) => response_named(alloc, message, word),
        None => Ok(None),
    }
}

/// The string at the key `state`, or none.
fn state_at(message: &Value) -> Option<&str>
    ensures { option_map (λ word. word.now) result ≡ at (codes "state") as_str (view message.now) }
{
    match message.get("state") {
        Some(value) => value.as_str(),
        None => None,
    }
}

/// The response of that state, or none.
fn response_named(alloc: Global, message: &Value, word: &str) -> Result<Option<Response>, Memory>
    ensures { IfOk result (λ made. made ≡ response_of_word (view message.now) word.now) }
{
    let size = size(message);
    match word {
        "RUNNING" => {
            if size != 2 {
                return Ok(None);
            }
            Ok(id_at(message).map(Response::Running))
        }
        "SUCCESS" => {
            if size != 3 {
                return Ok(None);
            }
            success_of(alloc, message)
        }
        "FAILURE" => {
            if size != 3 {
                return Ok(None);
            }
            fault_of(alloc, message)
        }
        _ => Ok(None),
    }
}

/// The answer that an order gave something, or none.
fn success_of(alloc: Global, message: &Value) -> Result<Option<Response>, Memory>
    ensures { IfOk result (λ made. made ≡ success_spelled (view message.now)) }
{
    let Some(id) = id_at(message) else {
        return Ok(None);
    };
    match result_at(alloc, message)? {
        Some(result) => Ok(Some(Response::Success(id, result))),
        None => Ok(None),
    }
}

/// The value at the key `result`, or none.
fn result_at(alloc: Global, message: &Value) -> Result<Option<Val>, Memory>
    ensures { IfOk result (λ made. made ≡ at (codes "result") value_spelled (view message.now)) }
{
    match message.get("result") {
        Some(value) => value_of(alloc, value),
        None => Ok(None),
    }
}

/// The answer that an order failed, or none.
fn fault_of(alloc: Global, message: &Value) -> Result<Option<Response>, Memory>
    ensures { IfOk result (λ made. made ≡ fault_spelled (view message.now)) }
{
    let Some(id) = id_at(message) else {
        return Ok(None);
    };
    match failure_at(alloc, message)? {
        Some(fault) => Ok(Some(Response::Failure(id, fault))),
        None => Ok(None),
    }
}

/// The failure at the key `failure`, or none.
fn failure_at(alloc: Global, message: &Value) -> Result<Option<Failure>, Memory>
    ensures { IfOk result (λ made. made ≡ at (codes "failure") failure_spelled (view message.now)) }
{
    match message.get("failure") {
        Some(value) => failure_of(alloc, value),
        None => Ok(None),
    }
}
