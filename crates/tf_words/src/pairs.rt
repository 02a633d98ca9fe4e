ghost use Rattle.std.specs.Prelude.{◌≡◌, [], IfOk, OnOk, IfSome, None, Some, option_map, true};
ghost use Rattle.std.specs.List.{All};
ghost use Rattle.tf_values.specs.Text.{is_text};
ghost use Rattle.tf_words.specs.Held.{texts_in};
ghost use Rattle.tf_words.specs.Verbs.{halves_of as halves, bind_of as bind_in_word, put as put_in, place_of as place_among, sets_behind};

use crate::spelled::value_meant;
use std::alloc::Global;
use tf_flow::{Bind, Binds};
use tf_values::{Memory, Name};

/// The values that the words of the form NAME=VALUE give, or none where one of them is refused.
pub fn sets_of(alloc: Global, words: &[&str]) -> Result<Option<Binds>, Memory>
    requires { All (λ word. is_text word.now ≡ true) words.now }
    ensures { IfOk result (λ sets. sets ≡ sets_behind [] (texts_in words.now)) }
{
    let mut sets = Vec::new(alloc);
    for word in words {
        let Some(bind) = bind_of(alloc, word.as_bytes())? else {
            return Ok(None);
        };
        put(bind, &mut sets)?;
    }
    Ok(Some(Binds::make(sets)))
}

/// The name and the value that the word gives, or none where it is refused.
fn bind_of(alloc: Global, word: &[u8]) -> Result<Option<Bind>, Memory>
    requires { is_text word.now ≡ true }
    ensures { IfOk result (λ bind. bind ≡ bind_in_word word.now) }
{
    let Some((name, value)) = halves_of(word) else {
        return Ok(None);
    };
    let Some(symbol) = Name::make(name) else {
        return Ok(None);
    };
    match value_meant(alloc, value)? {
        Some(value) => Ok(Some(Bind { symbol, value })),
        None => Ok(None),
    }
}

/// The bytes before the first `=`, and those behind it.
fn halves_of(word: &[u8]) -> Option<(&[u8], &[u8])>
    ensures text { is_text word.now ≡ true → IfSome result (λ cut. is_text cut.1.now ≡ true) }
    ensures halves { option_map (λ cut. record { name = cut.0.now; value = cut.1.now }) result ≡ halves word.now }
{
    for (len, byte) in word.iter().enumerate() {
        if *byte == b'=' {
            return Some((&word[..len], &word[len + 1..]));
        }
    }
    None
}

/// Gives the value to its name, in place of an earlier one.
fn put(bind: Bind, sets: &mut Vec<Bind>) -> Result<(), Memory>
    ensures { OnOk result (sets.new.items ≡ put_in bind sets.old.items) }
{
    match place_of(&bind.symbol, sets) {
        Some(place) => {
            sets[place] = bind;
            Ok(())
        }
        None => Ok(sets.push(bind)?),
    }
}

/// Where the value of the name stands.
fn place_of(name: &Name, sets: &[Bind]) -> Option<usize>
    ensures { result ≡ place_among name.now sets.now }
{
    sets.iter().position(|bind| bind.symbol == *name)
}
