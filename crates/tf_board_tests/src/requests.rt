use std::alloc::Global;
use std::test::Fail;
use tf_board::{BoardRequest, JobAction, JobCall, id_text};
use tf_board_service::read_board_request;
use tf_report::priority_word;
use tf_values::Name;
use uuid::Uuid;

/// Messages, and the requests that they are: `none` where they are none.
const REQUESTS: [(&str, &str); 16] = [
    ("{\"call\":\"list\"}", "list"),
    (
        "{\"call\":\"claim\",\"id\":\"584cd1e7-aed6-500d-8055-e04f2efc0be6\",\"owner\":\"ann\"}",
        "claim 584cd1e7-aed6-500d-8055-e04f2efc0be6 ann",
    ),
    (
        "{\"call\":\"consume\",\"id\":\"584cd1e7-aed6-500d-8055-e04f2efc0be6\"}",
        "none",
    ),
    ("{\"call\":\"owner\"}", "none"),
    ("{\"call\":\"serve\"}", "none"),
    (
        "{\"id\":\"584cd1e7-aed6-500d-8055-e04f2efc0be6\",\"owner\":\"ann\"}",
        "none",
    ),
    (
        "{\"call\":\"post\",\"details\":false,\"name\":\"build\",\"priority\":\"NORMAL\"}",
        "post build NORMAL false",
    ),
    (
        "{\"call\":\"post\",\"details\":\"a b\",\"name\":\"build\",\"priority\":\"NORMAL\"}",
        "post build NORMAL \"a b\"",
    ),
    (
        "{\"call\":\"post\",\"details\":null,\"name\":\"x\",\"priority\":\"NORMAL\"}",
        "post x NORMAL null",
    ),
    (
        "{\"call\":\"claim\",\"id\":\"584cd1e7-aed6-500d-8055-e04f2efc0be6\",\"owner\":\"a b\"}",
        "none",
    ),
    (
        "{\"call\":\"post\",\"details\":null,\"name\":[\"x\"],\"priority\":\"NORMAL\"}",
        "none",
    ),
    (
        "{\"call\":\"post\",\"details\":null,\"name\":\"build\",\"priority\":\"NORMAL \"}",
        "none",
    ),
    (
        "{\"call\":\"owner\",\"id\":\"584CD1E7AED6500D8055E04F2EFC0BE6\"}",
        "owner 584cd1e7-aed6-500d-8055-e04f2efc0be6",
    ),
    (
        "{\"call\":\"owner\",\"id\":\"584cd1e7-aed6-500d-8055-e04f2efc0beg\"}",
        "none",
    ),
    ("", "none"),
    ("{call:\"list\"}", "none"),
];

/// Appends a word, an id and perhaps an owner.
fn append_words(
    alloc: Global,
    word: &[u8],
    id: &Uuid,
    owner: Option<&Name>,
    out: &mut Vec<u8>,
) -> Result<(), Fail> {
    out.extend_from_slice(word)?;
    out.extend_from_slice(b" ")?;
    let text = id_text(alloc, id)?;
    out.extend_from_slice(text.bytes())?;
    if let Some(owner) = owner {
        out.extend_from_slice(b" ")?;
        out.extend_from_slice(owner.bytes())?;
    }
    Ok(())
}

/// Appends what a call is.
fn append_call(alloc: Global, call: &JobCall, out: &mut Vec<u8>) -> Result<(), Fail> {
    match call {
        JobCall::Post {
            name,
            priority,
            details,
        } => {
            out.extend_from_slice(b"post ")?;
            out.extend_from_slice(name.bytes())?;
            out.extend_from_slice(b" ")?;
            out.extend_from_slice(priority_word(*priority).as_bytes())?;
            out.extend_from_slice(b" ")?;
            details.print(out)?;
            Ok(())
        }
        JobCall::Apply { action, id, owner } => {
            append_words(alloc, action_word(*action), id, Some(owner), out)
        }
    }
}

/// What an owner does, in a word.
fn action_word(action: JobAction) -> &'static [u8] {
    match action {
        JobAction::Claim => b"claim",
        JobAction::Abandon => b"abandon",
        JobAction::Consume => b"consume",
        JobAction::Trash => b"trash",
    }
}

/// What a request is, in words.
fn spelled(alloc: Global, request: Option<BoardRequest>) -> Result<Vec<u8>, Fail> {
    let mut out = Vec::new(alloc);
    match &request {
        Some(BoardRequest::Call(call)) => append_call(alloc, call, &mut out)?,
        Some(BoardRequest::Owner { id }) => append_words(alloc, b"owner", id, None, &mut out)?,
        Some(BoardRequest::List) => out.extend_from_slice(b"list")?,
        None => out.extend_from_slice(b"none")?,
    }
    Ok(out)
}

#[test]
fn messages_are_the_requests_that_are_stated(rt: HostRuntime) -> Result<(), Fail> {
    let alloc = rt.alloc();
    for (message, request) in &REQUESTS {
        let read = read_board_request(alloc, message.as_bytes())?;
        let words = spelled(alloc, read)?;
        assert_eq!(rt; words.as_slice(), request.as_bytes());
    }
    Ok(())
}

#[test]
fn bytes_that_are_not_utf8_are_no_request(rt: HostRuntime) -> Result<(), Fail> {
    let alloc = rt.alloc();
    let read = read_board_request(alloc, b"{\"call\":\"list\xff\"}")?;
    assert!(rt; read.is_none());
    Ok(())
}
