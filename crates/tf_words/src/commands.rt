ghost use Rattle.std.specs.Prelude.{◌≡◌, List, IfOk, Some, option_map, true};
ghost use Rattle.std.specs.List.{All};
ghost use Rattle.tf_values.specs.Text.{is_text};
ghost use Rattle.tf_words.specs.Held.{held_by, texts_in};
ghost use Rattle.tf_words.specs.Words.{asked_by as asked_in, deferral_in as deferral_said, stop_in as stop_said, target_in as target_said, try_of as try_said, run_of as run_said, book_flow_in as book_flow_said, resume_of as resume_said, show_of as show_said, reset_of as reset_said, details_of as details_said, migrate_of as migrate_said, check_of as check_said, audit_of as audit_said, demo_of as demo_said, owner_word as owner_said, conduct_of as conduct_said};

use crate::addresses::{serve_of, worker_of};
use crate::asked::Asked;
use crate::boards::{apply_of, list_of, owner_of, post_of};
use crate::given::Given;
use crate::numbers::number_between;
use crate::pairs::sets_of;
use crate::verbs::Verb;
use crate::wants::{hands_in, want_in};
use std::alloc::Global;
use tf_values::{Memory, Name, Text};

/// The most bytes of a word by which the owners of conductors are named: each is the word, a hyphen and a number of at most
/// two digits, and a name has at most 64 bytes.
pub const OWNER_LIMIT: usize = 61;

/// What the command asks for, or none where the values are not those of the command.
pub fn asked_by(alloc: Global, verb: Verb, given: &Given<'_>) -> Result<Option<Asked>, Memory>
    ensures { IfOk result (λ asked. asked ≡ asked_in verb (held_by given.now.matches)) }
{
    let Some(words) = given.values("") else {
        return Ok(None);
    };
    match verb {
        Verb::Try => try_of(alloc, given, words),
        Verb::Run => run_of(alloc, given, words),
        Verb::Resume => resume_of(alloc, given, words),
        Verb::Show => show_of(alloc, words),
        Verb::Reset => reset_of(alloc, words),
        Verb::Details => details_of(alloc, words),
        Verb::Migrate => migrate_of(alloc, words),
        Verb::Check => check_of(alloc, given, words),
        Verb::Audit => audit_of(alloc, given, words),
        Verb::Demo => demo_of(alloc, given, words),
        Verb::Worker => worker_of(alloc, given, words),
        Verb::Conduct => conduct_of(alloc, given, words),
        Verb::Post => post_of(alloc, given, words),
        Verb::Apply(action) => apply_of(alloc, action, words),
        Verb::Owner => owner_of(alloc, words),
        Verb::List => list_of(alloc, words),
        Verb::Serve => serve_of(alloc, given, words),
    }
}

/// `try FILE [NAME=VALUE]...`
fn try_of(alloc: Global, given: &Given<'_>, words: &[&str]) -> Result<Option<Asked>, Memory>
    requires { All (λ word. is_text word.now ≡ true) words.now }
    ensures { IfOk result (λ asked. asked ≡ try_said (held_by given.now.matches) (texts_in words.now)) }
{
    let [file, pairs @ ..] = words else {
        return Ok(None);
    };
    let Some(defer) = deferral_in(given) else {
        return Ok(None);
    };
    let Some(want) = want_in(alloc, given)? else {
        return Ok(None);
    };
    let Some(target) = target_in(given) else {
        return Ok(None);
    };
    let Some(sets) = sets_of(alloc, pairs)? else {
        return Ok(None);
    };
    let file = text_of(alloc, file)?;
    Ok(Some(Asked::Try {
        file,
        sets,
        defer,
        want,
        target,
    }))
}

/// `run FILE BOOK [NAME=VALUE]...`
fn run_of(alloc: Global, given: &Given<'_>, words: &[&str]) -> Result<Option<Asked>, Memory>
    requires { All (λ word. is_text word.now ≡ true) words.now }
    ensures { IfOk result (λ asked. asked ≡ run_said (held_by given.now.matches) (texts_in words.now)) }
{
    let [file, book, pairs @ ..] = words else {
        return Ok(None);
    };
    let Some(defer) = deferral_in(given) else {
        return Ok(None);
    };
    let Some(want) = want_in(alloc, given)? else {
        return Ok(None);
    };
    let Some(stop_after) = stop_in(given) else {
        return Ok(None);
    };
    let Some(target) = target_in(given) else {
        return Ok(None);
    };
    let Some(sets) = sets_of(alloc, pairs)? else {
        return Ok(None);
    };
    let file = text_of(alloc, file)?;
    let book = text_of(alloc, book)?;
    Ok(Some(Asked::Run {
        file,
        book,
        sets,
        defer,
        want,
        stop_after,
        target,
    }))
}

/// `resume BOOK [NAME]`
fn resume_of(alloc: Global, given: &Given<'_>, words: &[&str]) -> Result<Option<Asked>, Memory>
    requires { All (λ word. is_text word.now ≡ true) words.now }
    ensures { IfOk result (λ asked. asked ≡ resume_said (held_by given.now.matches) (texts_in words.now)) }
{
    let Some((book, name)) = book_flow_in(alloc, words)? else {
        return Ok(None);
    };
    let Some(want) = want_in(alloc, given)? else {
        return Ok(None);
    };
    let Some(stop_after) = stop_in(given) else {
        return Ok(None);
    };
    Ok(Some(Asked::Resume {
        book,
        name,
        want,
        stop_after,
    }))
}

/// `show BOOK [NAME]`
fn show_of(alloc: Global, words: &[&str]) -> Result<Option<Asked>, Memory>
    requires { All (λ word. is_text word.now ≡ true) words.now }
    ensures { IfOk result (λ asked. asked ≡ show_said (texts_in words.now)) }
{
    match book_flow_in(alloc, words)? {
        Some((book, name)) => Ok(Some(Asked::Show { book, name })),
        None => Ok(None),
    }
}

/// `reset BOOK [NAME]`
fn reset_of(alloc: Global, words: &[&str]) -> Result<Option<Asked>, Memory>
    requires { All (λ word. is_text word.now ≡ true) words.now }
    ensures { IfOk result (λ asked. asked ≡ reset_said (texts_in words.now)) }
{
    match book_flow_in(alloc, words)? {
        Some((book, name)) => Ok(Some(Asked::Reset { book, name })),
        None => Ok(None),
    }
}

/// The book, and the name of one of its flows where one stands behind it, or none where the words are no such two.
fn book_flow_in(alloc: Global, words: &[&str]) -> Result<Option<(Text, Option<Name>)>, Memory>
    requires { All (λ word. is_text word.now ≡ true) words.now }
    ensures { IfOk result (λ found. option_map (λ found. record { book = found.0; name = found.1 }) found
        ≡ book_flow_said (texts_in words.now)) }
{
    match words {
        [book] => {
            let book = text_of(alloc, book)?;
            Ok(Some((book, None)))
        }
        [book, name] => {
            let Some(name) = Name::make(name.as_bytes()) else {
                return Ok(None);
            };
            let book = text_of(alloc, book)?;
            Ok(Some((book, Some(name))))
        }
        _ => Ok(None),
    }
}

/// `details BOOK`
fn details_of(alloc: Global, words: &[&str]) -> Result<Option<Asked>, Memory>
    requires { All (λ word. is_text word.now ≡ true) words.now }
    ensures { IfOk result (λ asked. asked ≡ details_said (texts_in words.now)) }
{
    let [book] = words else {
        return Ok(None);
    };
    let book = text_of(alloc, book)?;
    Ok(Some(Asked::Details { book }))
}

/// `migrate OLD NEW`
fn migrate_of(alloc: Global, words: &[&str]) -> Result<Option<Asked>, Memory>
    requires { All (λ word. is_text word.now ≡ true) words.now }
    ensures { IfOk result (λ asked. asked ≡ migrate_said (texts_in words.now)) }
{
    let [old, new] = words else {
        return Ok(None);
    };
    let old = text_of(alloc, old)?;
    let new = text_of(alloc, new)?;
    Ok(Some(Asked::Migrate { old, new }))
}

/// `check FILE [NAME=VALUE]...`
fn check_of(alloc: Global, given: &Given<'_>, words: &[&str]) -> Result<Option<Asked>, Memory>
    requires { All (λ word. is_text word.now ≡ true) words.now }
    ensures { IfOk result (λ asked. asked ≡ check_said (held_by given.now.matches) (texts_in words.now)) }
{
    let [file, pairs @ ..] = words else {
        return Ok(None);
    };
    let Some(target) = target_in(given) else {
        return Ok(None);
    };
    let Some(sets) = sets_of(alloc, pairs)? else {
        return Ok(None);
    };
    let file = text_of(alloc, file)?;
    Ok(Some(Asked::Check { file, sets, target }))
}

/// `audit FILE LOG [NAME=VALUE]...`
fn audit_of(alloc: Global, given: &Given<'_>, words: &[&str]) -> Result<Option<Asked>, Memory>
    requires { All (λ word. is_text word.now ≡ true) words.now }
    ensures { IfOk result (λ asked. asked ≡ audit_said (held_by given.now.matches) (texts_in words.now)) }
{
    let [file, log, pairs @ ..] = words else {
        return Ok(None);
    };
    let Some(defer) = deferral_in(given) else {
        return Ok(None);
    };
    let Some(sets) = sets_of(alloc, pairs)? else {
        return Ok(None);
    };
    let file = text_of(alloc, file)?;
    let log = text_of(alloc, log)?;
    Ok(Some(Asked::Audit {
        file,
        log,
        sets,
        defer,
    }))
}

/// `demo SEED SIZE BOOK`
fn demo_of(alloc: Global, given: &Given<'_>, words: &[&str]) -> Result<Option<Asked>, Memory>
    requires { All (λ word. is_text word.now ≡ true) words.now }
    ensures { IfOk result (λ asked. asked ≡ demo_said (held_by given.now.matches) (texts_in words.now)) }
{
    let [seed, size, book] = words else {
        return Ok(None);
    };
    let Some(seed) = number_between(0, 65_536, seed) else {
        return Ok(None);
    };
    let Some(size) = number_between(1, 900, size) else {
        return Ok(None);
    };
    let Some(hands) = hands_in(given) else {
        return Ok(None);
    };
    let book = text_of(alloc, book)?;
    let size = size as u16;
    Ok(Some(Asked::Demo {
        seed,
        size,
        book,
        hands,
    }))
}

/// `conduct BOARD OWNER`
fn conduct_of(alloc: Global, given: &Given<'_>, words: &[&str]) -> Result<Option<Asked>, Memory>
    requires { All (λ word. is_text word.now ≡ true) words.now }
    ensures { IfOk result (λ asked. asked ≡ conduct_said (held_by given.now.matches) (texts_in words.now)) }
{
    let [board, owner] = words else {
        return Ok(None);
    };
    let Some(owner) = owner_word(owner) else {
        return Ok(None);
    };
    let Some(hands) = hands_in(given) else {
        return Ok(None);
    };
    let board = text_of(alloc, board)?;
    Ok(Some(Asked::Conduct {
        board,
        owner,
        hands,
    }))
}

/// The word by which the owners of conductors are named, or none where it is no name, or leaves no room for a number.
fn owner_word(word: &str) -> Option<Name>
    ensures { result ≡ owner_said word.now }
{
    if word.len() > OWNER_LIMIT {
        return None;
    }
    Name::make(word.as_bytes())
}

/// Whether reverts are deferred, or none where that stands twice.
fn deferral_in(given: &Given<'_>) -> Option<bool>
    ensures { result ≡ deferral_said (held_by given.now.matches) }
{
    match given.once("defer-reverts")? {
        None => Some(false),
        Some(_) => Some(true),
    }
}

/// After how many entries the run stops, or none where that is no number of entries.
fn stop_in(given: &Given<'_>) -> Option<Option<u32>>
    ensures { result ≡ stop_said (held_by given.now.matches) }
{
    match given.once("stop-after")? {
        None => Some(None),
        Some(value) => {
            let stop = number_between(1, 999_999_999, value)?;
            Some(Some(stop))
        }
    }
}

/// Up to which target the flow goes, if to one, or none where that is no name.
fn target_in(given: &Given<'_>) -> Option<Option<Name>>
    ensures { result ≡ target_said (held_by given.now.matches) }
{
    match given.once("target")? {
        None => Some(None),
        Some(value) => {
            let name = Name::make(value.as_bytes())?;
            Some(Some(name))
        }
    }
}

/// The text of a word.
pub fn text_of(alloc: Global, word: &str) -> Result<Text, Memory>
    requires { is_text word.now ≡ true }
    ensures { IfOk result (λ text. text ≡ word.now) }
{
    match Text::make(alloc, word.as_bytes()) {
        Ok(text) => Ok(text),
        Err(_) => Err(Memory),
    }
}
