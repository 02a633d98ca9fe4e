// Replies as frames of JSON.
ghost use Rattle.std.specs.Prelude.{◌≡◌, ◌++◌, IfOk, OnOk};
ghost use Rattle.serde_json.specs.View.{view};
ghost use Rattle.tf_board_service.specs.Sessions.{reply_data, reply_frame, lines_data, refused_data};
ghost use Rattle.tf_board_service.specs.Printing.{HasFewLines, HasTexts};

use crate::replies::BoardReply;
use serde_json::{Value, json};
use std::alloc::{AllocError, Global};
use tf_values::Memory;
use tf_wire::{print_message, text_value, word_values};

/// The object that tells the lines.
fn lines_object(alloc: Global, lines: Value) -> Result<Value, AllocError>
    ensures { IfOk result (λ made. view made ≡ lines_data (view lines)) }
{
    json!(in alloc; {"lines": lines})
}

/// The object that tells why a request is refused.
fn refused_object(alloc: Global, why: Value) -> Result<Value, AllocError>
    ensures { IfOk result (λ made. view made ≡ refused_data (view why)) }
{
    json!(in alloc; {"refused": why})
}

/// The JSON of a reply.
fn reply_value(alloc: Global, reply: &BoardReply) -> Result<Value, Memory>
    ensures spelled { IfOk result (λ made. view made ≡ reply_data reply.now) }
    ensures texts { IfOk result (λ _. HasTexts reply.now) }
{
    match reply {
        BoardReply::Lines(lines) => {
            let lines = Value::Array(word_values(alloc, lines.items())?);
            Ok(lines_object(alloc, lines)?)
        }
        BoardReply::Refused(why) => {
            let why = text_value(alloc, why)?;
            Ok(refused_object(alloc, why)?)
        }
    }
}

/// Appends a reply as a frame of compact JSON.
pub fn print_reply(alloc: Global, reply: &BoardReply, out: &mut Vec<u8>) -> Result<(), Memory>
    requires few { HasFewLines reply.now }
    ensures { OnOk result (out.new.items ≡ out.old.items ++ reply_frame reply.now) }
{
    let message = reply_value(alloc, reply)?;
    print_message(alloc, &message, out)
}
