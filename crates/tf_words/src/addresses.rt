ghost use Rattle.std.specs.Prelude.{◌≡◌, [], IfOk, option_map, true};
ghost use Rattle.std.specs.List.{All};
ghost use Rattle.tf_values.specs.Text.{is_text};
ghost use Rattle.tf_words.specs.Held.{held_by, texts_in};
ghost use Rattle.tf_words.specs.Words.{behind as behind_head, has_comma as comma_in, path_of as path_said, port_of as port_said, address_of as address_said, sessions_in as sessions_said, worker_of as worker_said, seats_in as seats_said, serve_of as serve_said};
ghost use Rattle.tf_words.specs.Words.{pieces_behind, addresses_in as addresses_said_in, addresses_of as addresses_said};

use crate::asked::Asked;
use crate::commands::text_of;
use crate::given::Given;
use crate::numbers::number_between;
use crate::spelled::is_count;
use std::alloc::Global;
use tf_ports::{Address, Addresses};
use tf_values::{MakeFault, Memory, Text};

/// `worker ADDRESS`
pub fn worker_of(alloc: Global, given: &Given<'_>, words: &[&str]) -> Result<Option<Asked>, Memory>
    ensures { IfOk result (λ asked. asked ≡ worker_said (held_by given.now.matches) (texts_in words.now)) }
{
    let [word] = words else {
        return Ok(None);
    };
    let Some(sessions) = sessions_in(given) else {
        return Ok(None);
    };
    let Some(address) = address_of(alloc, word.as_bytes())? else {
        return Ok(None);
    };
    Ok(Some(Asked::Worker { address, sessions }))
}

/// How many sessions are served, or none where that is no number of sessions.
fn sessions_in(given: &Given<'_>) -> Option<u32>
    ensures { result ≡ sessions_said (held_by given.now.matches) }
{
    match given.once("sessions")? {
        None => Some(1),
        Some(value) => number_between(1, 999_999_999, value),
    }
}

/// `board serve BOARD ADDRESS`
pub fn serve_of(alloc: Global, given: &Given<'_>, words: &[&str]) -> Result<Option<Asked>, Memory>
    requires { All (λ word. is_text word.now ≡ true) words.now }
    ensures { IfOk result (λ asked. asked ≡ serve_said (held_by given.now.matches) (texts_in words.now)) }
{
    let [board, word] = words else {
        return Ok(None);
    };
    let Some(sessions) = seats_in(given) else {
        return Ok(None);
    };
    let Some(address) = address_of(alloc, word.as_bytes())? else {
        return Ok(None);
    };
    let board = text_of(alloc, board)?;
    Ok(Some(Asked::Serve {
        board,
        address,
        sessions,
    }))
}

/// How many sessions of a board are served side by side, or none where that is no number of them.
fn seats_in(given: &Given<'_>) -> Option<u8>
    ensures { result ≡ seats_said (held_by given.now.matches) }
{
    match given.once("sessions")? {
        None => Some(1),
        Some(value) => {
            let sessions = number_between(1, 64, value)?;
            Some(sessions as u8)
        }
    }
}

/// The addresses that the word spells, one to 64, with a comma between each two.
pub fn addresses_of(alloc: Global, word: &[u8]) -> Result<Option<Addresses>, Memory>
    ensures { IfOk result (λ addresses. addresses ≡ addresses_said word.now) }
{
    match all_in(alloc, word)? {
        Some(addresses) => {
            if addresses.items().len() > 64 {
                return Ok(None);
            }
            Ok(Some(addresses))
        }
        None => Ok(None),
    }
}

/// The addresses that stand between the commas of the word.
fn all_in(alloc: Global, word: &[u8]) -> Result<Option<Addresses>, Memory>
    ensures { IfOk result (λ addresses. addresses ≡ addresses_said_in (pieces_behind [] word.now)) }
{
    let mut addresses = Vec::new(alloc);
    let mut begin = 0;
    for (end, byte) in word.iter().enumerate() {
        if *byte == b',' {
            let Some(address) = address_of(alloc, &word[begin..end])? else {
                return Ok(None);
            };
            addresses.push(address)?;
            begin = end + 1;
        }
    }
    let Some(address) = address_of(alloc, &word[begin..])? else {
        return Ok(None);
    };
    addresses.push(address)?;
    Ok(Some(Addresses::make(addresses)))
}

/// The address that the word spells.
fn address_of(alloc: Global, word: &[u8]) -> Result<Option<Address>, Memory>
    ensures { IfOk result (λ address. address ≡ address_said word.now) }
{
    if let Some(path) = behind(b"unix:", word) {
        return path_of(alloc, path);
    }
    match behind(b"tcp:127.0.0.1:", word) {
        Some(port) => Ok(port_of(port)),
        None => Ok(None),
    }
}

/// What stands behind the head, if the word begins with it.
fn behind<'a>(head: &[u8], word: &'a [u8]) -> Option<&'a [u8]>
    ensures { option_map (λ rest. rest.now) result ≡ behind_head head.now word.now }
{
    if word.len() < head.len() {
        return None;
    }
    let (front, rest) = word.split_at(head.len());
    if front == head {
        return Some(rest);
    }
    None
}

/// The address of this path.
fn path_of(alloc: Global, path: &[u8]) -> Result<Option<Address>, Memory>
    ensures { IfOk result (λ address. address ≡ path_said path.now) }
{
    if path.is_empty() {
        return Ok(None);
    }
    if has_comma(path) {
        return Ok(None);
    }
    match Text::make(alloc, path) {
        Ok(path) => Ok(Some(Address::Unix(path))),
        Err(MakeFault::No) => Ok(None),
        Err(MakeFault::Memory) => Err(Memory),
    }
}

/// Whether a comma stands there.
fn has_comma(path: &[u8]) -> bool
    ensures { result ≡ comma_in path.now }
{
    path.iter().any(|byte| *byte == b',')
}

/// The address of this port.
fn port_of(word: &[u8]) -> Option<Address>
    ensures { result ≡ port_said word.now }
{
    if !is_count(word) {
        return None;
    }
    let Ok(word) = str::from_utf8(word) else {
        return None;
    };
    match number_between(1, 65_535, word) {
        Some(port) => Some(Address::Tcp(port as u16)),
        None => None,
    }
}
