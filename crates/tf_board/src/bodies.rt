//! How a command is read from the body of a record.
ghost use Rattle.std.specs.Prelude.{◌≡◌, ◌≢◌, ◌<◌, ◌^◌, ◌++◌, ◌∷◌, ℕ, List, length, true, IfOk, IsErrOf, MatchOption};
ghost use Rattle.std.specs.Int.{to_be_bytes, w64};
ghost use Rattle.tf_values.specs.Text.{is_name};
ghost use Rattle.tf_values.specs.Value.{IsValue, byte_form};
ghost use Rattle.tf_states.specs.declared.priorities.Priority.{Priority as APriority};
ghost use Rattle.tf_values.specs.declared.value.Val.{Val as AValue};
ghost use Rattle.tf_board.specs.declared.commands.Command.{Command as ACommand};
ghost use Rattle.tf_board.specs.declared.commands.JobAction.{JobAction as AnAction};
ghost use Rattle.tf_board.specs.Board as form;

use crate::commands::{Command, JobAction};
use std::alloc::Global;
use tf_states::Priority;
use tf_values::{MakeFault, Name, Val};

/// The command of these bytes, of which none may be left over. `No` comes exactly where no command has them.
pub fn decode_command(alloc: Global, bytes: &[u8]) -> Result<Command, MakeFault>
    ensures ok { IfOk result (λ command. form.IsCommand command × (form.command_bytes command ≡ bytes.now)) }
    ensures refused { IsErrOf result MakeFault.No → (command : ACommand) → form.IsCommand command
        → form.command_bytes command ≢ bytes.now }
{
    let Some((tag, rest)) = bytes.split_first() else {
        return Err(MakeFault::No);
    };
    if *tag == 1 {
        return post_in(alloc, rest);
    }
    let Some(action) = action_of(*tag) else {
        return Err(MakeFault::No);
    };
    match applied_in(action, rest) {
        Some(command) => Ok(command),
        None => Err(MakeFault::No),
    }
}

/// The job that is posted by these bytes behind their tag.
fn post_in(alloc: Global, bytes: &[u8]) -> Result<Command, MakeFault>
    ensures ok { IfOk result (λ command. form.IsCommand command × (form.command_bytes command ≡ 1 ∷ bytes.now)) }
    ensures refused { IsErrOf result MakeFault.No → (name : List ℕ) (priority : APriority) (details : AValue)
        → is_name name ≡ true → IsValue details
        → bytes.now ≢ form.name_bytes name ++ (form.priority_byte priority ∷ byte_form details) }
{
    let Some(read) = name_at(bytes) else {
        return Err(MakeFault::No);
    };
    let (name, rest) = read;
    let Some((priority, form)) = priority_at(rest) else {
        return Err(MakeFault::No);
    };
    let details = value_in(alloc, form)?;
    Ok(Command::Post {
        name,
        priority,
        details,
    })
}

/// The value of these bytes, of which none may be left over.
fn value_in(alloc: Global, bytes: &[u8]) -> Result<Val, MakeFault>
    ensures ok { IfOk result (λ value. IsValue value × (byte_form value ≡ bytes.now)) }
    ensures refused { IsErrOf result MakeFault.No → (value : AValue) → IsValue value → byte_form value ≢ bytes.now }
{
    let (value, len) = Val::decode(alloc, bytes)?;
    if len != bytes.len() {
        return Err(MakeFault::No);
    }
    Ok(value)
}

/// What an owner did to the job by these bytes, which are the job's number and the owner's name.
fn applied_in(action: JobAction, bytes: &[u8]) -> Option<Command>
    ensures { MatchOption result
        ((job : ℕ) (owner : List ℕ) → job < 2 ^ 64 → is_name owner ≡ true
        → bytes.now ≢ to_be_bytes w64 job ++ form.name_bytes owner)
        (λ command. form.IsCommand command × (form.command_bytes command ≡ form.action_byte action ∷ bytes.now)) }
{
    let Some((job, rest)) = number_at(bytes) else {
        return None;
    };
    let Some((owner, rest)) = name_at(rest) else {
        return None;
    };
    if !rest.is_empty() {
        return None;
    }
    Some(Command::Apply { action, job, owner })
}

/// The number of eight bytes at the front, and what stands behind it.
fn number_at(bytes: &[u8]) -> Option<(u64, &[u8])>
    ensures { MatchOption result (length bytes.now < 8) (λ read. (read.0 < 2 ^ 64)
        × (bytes.now ≡ to_be_bytes w64 read.0 ++ read.1.now)) }
{
    let (prefix, rest) = bytes.split_first_chunk::<8>()?;
    Some((u64::from_be_bytes(*prefix), rest))
}

/// The name at the front behind its length, and what stands behind it.
fn name_at(bytes: &[u8]) -> Option<(Name, &[u8])>
    ensures { MatchOption result
        ((name rest : List ℕ) → is_name name ≡ true → bytes.now ≢ form.name_bytes name ++ rest)
        (λ read. (is_name read.0 ≡ true) × (bytes.now ≡ form.name_bytes read.0 ++ read.1.now)) }
{
    let (len, rest) = bytes.split_first()?;
    let len = *len as usize;
    if rest.len() < len {
        return None;
    }
    let (prefix, rest) = rest.split_at(len);
    let name = Name::make(prefix)?;
    let _bytes = name.bytes();
    Some((name, rest))
}

/// The priority at the front, and what stands behind its byte.
fn priority_at(bytes: &[u8]) -> Option<(Priority, &[u8])>
    ensures { MatchOption result
        ((priority : APriority) (rest : List ℕ) → bytes.now ≢ form.priority_byte priority ∷ rest)
        (λ read. bytes.now ≡ form.priority_byte read.0 ∷ read.1.now) }
{
    let (tag, rest) = bytes.split_first()?;
    let priority = priority_of(*tag)?;
    Some((priority, rest))
}

/// The priority that has this byte.
fn priority_of(tag: u8) -> Option<Priority>
    ensures { MatchOption result ((priority : APriority) → form.priority_byte priority ≢ tag)
        (λ priority. form.priority_byte priority ≡ tag) }
{
    match tag {
        0 => Some(Priority::VeryHigh),
        1 => Some(Priority::High),
        2 => Some(Priority::Normal),
        3 => Some(Priority::Low),
        4 => Some(Priority::VeryLow),
        _ => None,
    }
}

/// What an owner does that has this byte.
fn action_of(tag: u8) -> Option<JobAction>
    ensures { MatchOption result ((action : AnAction) → form.action_byte action ≢ tag)
        (λ action. form.action_byte action ≡ tag) }
{
    match tag {
        2 => Some(JobAction::Claim),
        3 => Some(JobAction::Abandon),
        4 => Some(JobAction::Consume),
        5 => Some(JobAction::Trash),
        _ => None,
    }
}
