ghost use Rattle.std.specs.Prelude.{◌≡◌, ◌↔◌, false, true, IfOk, IsErrOf};
ghost use Rattle.tf_values.specs.Text.{is_text};

use crate::faults::{MakeFault, Memory};
use std::alloc::Global;
use std::marker::Model;

/// The most bytes of a text.
pub const TEXT_LIMIT: usize = 65_536;

/// A text: UTF-8 of at most 65,536 bytes. Contracts see it as its bytes.
#[derive(Debug, Drop)]
pub struct Text {
    string: String,
}

impl Model for Text {
    ghost use Rattle.std.specs.Prelude.{◌≡◌, true, ℕ, List, string_bytes};
    ghost use Rattle.tf_values.specs.Text.{is_text};

    ghost Value = { List ℕ };

    ghost view = { λ text. string_bytes text.string };

    ghost invariant = { λ text. is_text (string_bytes text.string) ≡ true };
}

impl Text {
    /// The text of these bytes. `No` comes exactly where they are more than 65,536 or no UTF-8.
    #[tactic(auto, using(crate::proofs::TextLemmas::short_utf8, crate::proofs::TextLemmas::long_is_no_text, crate::proofs::TextLemmas::other_is_no_text))]
    pub fn make(alloc: Global, bytes: &[u8]) -> Result<Text, MakeFault>
        ensures ok { IfOk result (λ text. text ≡ bytes.now) }
        ensures refused { IsErrOf result MakeFault.No ↔ (is_text bytes.now ≡ false) }
    {
        if bytes.len() > TEXT_LIMIT {
            return Err(MakeFault::No);
        }
        let Ok(spelled) = str::from_utf8(bytes) else {
            return Err(MakeFault::No);
        };
        let string = String::from_str(alloc, spelled)?;
        Ok(Text { string })
    }

    /// An equal text.
    pub fn copy(&self, alloc: Global) -> Result<Text, Memory>
        ensures { IfOk result (λ text. text ≡ self.now) }
    {
        Ok(Text {
            string: String::from_str(alloc, self.string.as_str())?,
        })
    }

    /// The bytes of the text.
    pub fn bytes(&self) -> &[u8]
        ensures value { result.now ≡ self.now }
        ensures text { is_text self.now ≡ true }
    {
        self.string.as_bytes()
    }
}

/// Texts in an order of their own. Contracts see the list.
#[derive(Debug, Drop)]
pub struct Texts {
    items: Vec<Text>,
}

impl Model for Texts {
    ghost use Rattle.std.specs.Prelude.{List, ℕ};

    ghost Value = { List (List ℕ) };

    ghost view = { λ texts. texts.items.items };
}

impl Texts {
    /// A list of these texts. It takes no memory and sets no limit.
    pub fn make(items: Vec<Text>) -> Texts
        ensures { result ≡ items.items }
    {
        Texts { items }
    }

    /// Equal texts, in the same order.
    pub fn copy(&self, alloc: Global) -> Result<Texts, Memory>
        ensures { IfOk result (λ copies. copies ≡ self.now) }
    {
        let mut copies = Vec::with_capacity(alloc, self.items().len())?;
        for text in self.items() {
            copies.push(text.copy(alloc)?)?;
        }
        Ok(Texts::make(copies))
    }

    /// The texts, in order.
    pub fn items(&self) -> &[Text]
        ensures { result.now ≡ self.now }
    {
        &self.items
    }
}
