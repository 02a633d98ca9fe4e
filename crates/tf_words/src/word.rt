ghost use Rattle.std.specs.Prelude.{◌≡◌, string_bytes};
ghost use Rattle.tf_words.specs.Verbs.{is_filled as filled, are_filled as all_filled};

use std::convert::AsStr;
use std::marker::Model;

/// The most bytes that a word of a command has.
const WORD_LIMIT: usize = 65_536;

/// One word of a command: UTF-8 of any length. Contracts see it as its bytes.
#[derive(Drop)]
pub struct Word {
    text: String,
}

impl Model for Word {
    ghost use Rattle.std.specs.Prelude.{ℕ, List, string_bytes};

    ghost Value = { List ℕ };

    ghost view = { λ word. string_bytes word.text };
}

impl AsStr for Word {
    ghost text = { λ word. word };

    fn as_str(&self) -> &str {
        self.text.as_str()
    }
}

impl Word {
    /// The word of this text.
    pub fn make(text: String) -> Word
        ensures { result ≡ string_bytes text }
    {
        Word { text }
    }

    /// The bytes of the word.
    pub fn bytes(&self) -> &[u8]
        ensures { result.now ≡ self.now }
    {
        self.text.as_bytes()
    }

    /// Whether the word may stand in a command: it is not empty and not too long.
    fn is_filled(&self) -> bool
        ensures { result ≡ filled self.now }
    {
        let text = self.as_str();
        if text.is_empty() {
            return false;
        }
        text.len() <= WORD_LIMIT
    }
}

/// Whether each word may stand in a command.
pub fn are_filled(words: &[Word]) -> bool
    ensures { result ≡ all_filled words.now }
{
    words.iter().all(|word| word.is_filled())
}
