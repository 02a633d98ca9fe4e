ghost use Rattle.std.specs.Prelude.{◌≡◌, IfOk, codes};
ghost use Rattle.tf_words.specs.Held.{held_by};
ghost use Rattle.tf_words.specs.Verbs.{once, within_in as within_said, mode_named as mode_by_name, sockets_in as sockets_said, sockets_of as sockets_by_words};

use crate::given::{Given, read_by};
use crate::numbers::number_between;
use crate::verbs::{Choice, chosen_in, keys_of};
use crate::word::{Word, are_filled};
use std::alloc::Global;
use tf_values::Memory;

/// What words say of the sockets alone.
#[derive(Clone, Copy, Debug)]
pub struct Sockets {
    /// How many seconds a reply is waited for, if there is a bound.
    pub within: Option<u32>,
    /// The mode of the file of a Unix socket that is made.
    pub mode: u32,
}

/// What holds where the words say nothing of the sockets.
const UNSAID: Sockets = Sockets {
    within: None,
    mode: 0o600,
};

/// What the command that the words choose says of the sockets, and else as where nothing is said.
pub fn sockets_of(alloc: Global, words: &[Word]) -> Result<Sockets, Memory>
    ensures { IfOk result (λ sockets. sockets ≡ sockets_by_words words.now) }
{
    if !are_filled(words) {
        return Ok(UNSAID);
    }
    let Some(Choice { verb, others }) = chosen_in(words) else {
        return Ok(UNSAID);
    };
    let Some(given) = read_by(alloc, keys_of(verb), others)? else {
        return Ok(UNSAID);
    };
    match sockets_in(&given) {
        Some(sockets) => Ok(sockets),
        None => Ok(UNSAID),
    }
}

/// What the values say of the sockets, or none where one of them is no number of seconds, or no mode.
pub fn sockets_in(given: &Given<'_>) -> Option<Sockets>
    ensures { result ≡ sockets_said (held_by given.now.matches) }
{
    let within = within_in(given)?;
    let mode = mode_in(given)?;
    Some(Sockets { within, mode })
}

/// How many seconds a reply is waited for, if there is a bound, or none where that is no number of seconds.
fn within_in(given: &Given<'_>) -> Option<Option<u32>>
    ensures { result ≡ within_said (held_by given.now.matches) }
{
    match given.once("reply-within")? {
        None => Some(None),
        Some(value) => {
            let within = number_between(1, 86_400, value)?;
            Some(Some(within))
        }
    }
}

/// The mode of the file of a Unix socket, or none where that is no such mode.
fn mode_in(given: &Given<'_>) -> Option<u32>
    ensures { result ≡ once 384 mode_by_name (held_by given.now.matches (codes "mode")) }
{
    match given.once("mode")? {
        None => Some(0o600),
        Some(value) => mode_named(value.as_bytes()),
    }
}

/// The mode that the word is: one of three, in octal.
fn mode_named(word: &[u8]) -> Option<u32>
    ensures { result ≡ mode_by_name word.now }
{
    if word == b"0600".as_slice() {
        return Some(0o600);
    }
    if word == b"0660".as_slice() {
        return Some(0o660);
    }
    if word == b"0666".as_slice() {
        return Some(0o666);
    }
    None
}
