ghost use Rattle.std.specs.Prelude.{◌≡◌, ◌≤◌, IfSome};
ghost use Rattle.tf_words.specs.Verbs.{number_between as number_in};

use crate::spelled::are_digits;

/// The most digits that a number of a command has.
const DIGITS: usize = 9;

/// The number that one to nine digits spell, where it is one of these.
pub fn number_between(least: u32, most: u32, word: &str) -> Option<u32>
    ensures value { result ≡ number_in least most word.now }
    ensures within { IfSome result (λ number. number ≤ most) }
{
    if word.is_empty() || word.len() > DIGITS {
        return None;
    }
    if !are_digits(word.as_bytes()) {
        return None;
    }
    match word.parse::<u32>() {
        Ok(number) => {
            if least <= number && number <= most {
                return Some(number);
            }
            None
        }
        Err(_) => None,
    }
}
