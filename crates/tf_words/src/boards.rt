ghost use Rattle.std.specs.Prelude.{◌≡◌, IfOk, true};
ghost use Rattle.std.specs.List.{All};
ghost use Rattle.tf_values.specs.Text.{is_text};
ghost use Rattle.tf_words.specs.Held.{held_by, texts_in};
ghost use Rattle.tf_words.specs.Words.{priority_in as priority_said, details_in as details_said, post_of as post_said, apply_of as apply_said, owner_of as owner_said, list_of as list_said};

use crate::asked::Asked;
use crate::commands::text_of;
use crate::given::Given;
use crate::spelled::value_meant;
use std::alloc::Global;
use tf_board::{BoardRequest, JobAction, JobCall, parse_id, priority_named};
use tf_states::Priority;
use tf_values::{Memory, Name, Val};

/// `board post BOARD NAME`
pub fn post_of(alloc: Global, given: &Given<'_>, words: &[&str]) -> Result<Option<Asked>, Memory>
    requires { All (λ word. is_text word.now ≡ true) words.now }
    ensures { IfOk result (λ asked. asked ≡ post_said (held_by given.now.matches) (texts_in words.now)) }
{
    let [board, name] = words else {
        return Ok(None);
    };
    let Some(name) = Name::make(name.as_bytes()) else {
        return Ok(None);
    };
    let Some(priority) = priority_in(given) else {
        return Ok(None);
    };
    let Some(details) = details_in(alloc, given)? else {
        return Ok(None);
    };
    let board = text_of(alloc, board)?;
    let request = BoardRequest::Call(JobCall::Post {
        name,
        priority,
        details,
    });
    Ok(Some(Asked::Board { board, request }))
}

/// How urgent a job is, or none where that is no priority.
fn priority_in(given: &Given<'_>) -> Option<Priority>
    ensures { result ≡ priority_said (held_by given.now.matches) }
{
    match given.once("priority")? {
        None => Some(Priority::Normal),
        Some(value) => priority_named(value.as_bytes()),
    }
}

/// What a job has beside its name, or none where that is no VALUE.
fn details_in(alloc: Global, given: &Given<'_>) -> Result<Option<Val>, Memory>
    ensures { IfOk result (λ details. details ≡ details_said (held_by given.now.matches)) }
{
    let Some(said) = given.once("details") else {
        return Ok(None);
    };
    match said {
        None => Ok(Some(Val::Nothing)),
        Some(value) => value_meant(alloc, value.as_bytes()),
    }
}

/// `board claim BOARD ID OWNER`, and likewise what else an owner does with a job.
pub fn apply_of(alloc: Global, action: JobAction, words: &[&str]) -> Result<Option<Asked>, Memory>
    requires { All (λ word. is_text word.now ≡ true) words.now }
    ensures { IfOk result (λ asked. asked ≡ apply_said action (texts_in words.now)) }
{
    let [board, id, owner] = words else {
        return Ok(None);
    };
    let Some(id) = parse_id(id) else {
        return Ok(None);
    };
    let Some(owner) = Name::make(owner.as_bytes()) else {
        return Ok(None);
    };
    let board = text_of(alloc, board)?;
    let request = BoardRequest::Call(JobCall::Apply { action, id, owner });
    Ok(Some(Asked::Board { board, request }))
}

/// `board owner BOARD ID`
pub fn owner_of(alloc: Global, words: &[&str]) -> Result<Option<Asked>, Memory>
    requires { All (λ word. is_text word.now ≡ true) words.now }
    ensures { IfOk result (λ asked. asked ≡ owner_said (texts_in words.now)) }
{
    let [board, id] = words else {
        return Ok(None);
    };
    let Some(id) = parse_id(id) else {
        return Ok(None);
    };
    let board = text_of(alloc, board)?;
    let request = BoardRequest::Owner { id };
    Ok(Some(Asked::Board { board, request }))
}

/// `board list BOARD`
pub fn list_of(alloc: Global, words: &[&str]) -> Result<Option<Asked>, Memory>
    requires { All (λ word. is_text word.now ≡ true) words.now }
    ensures { IfOk result (λ asked. asked ≡ list_said (texts_in words.now)) }
{
    let [board] = words else {
        return Ok(None);
    };
    let board = text_of(alloc, board)?;
    let request = BoardRequest::List;
    Ok(Some(Asked::Board { board, request }))
}
