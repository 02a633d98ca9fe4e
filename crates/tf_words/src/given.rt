ghost use Rattle.std.specs.Prelude.{◌≡◌, ℕ, List, IfOk, IfSome, Some, None, [], map, option_map, unwrap_or, true};
ghost use Rattle.std.specs.List.{All};
ghost use Rattle.tf_values.specs.Text.{is_text};
ghost use Rattle.tf_words.specs.Verbs.{are_filled, read_by as read_by_forms, takes_value, form_of, once};
ghost use Rattle.tf_words.specs.Held.{held_by, texts_in};

use crate::parsing::parsed;
use crate::verbs::Key;
use crate::word::Word;
use clap::ArgMatches;
use std::alloc::Global;
use tf_values::Memory;

/// The values that words give to the names of options, and as positional words to the empty name.
#[derive(Drop)]
pub struct Given<'a> {
    pub matches: ArgMatches<'a>,
    ghost texts: { (name : List ℕ) → All (λ text. is_text text ≡ true) (held_by matches name) },
}

/// What the words behind those that choose a command give, where they are options that stand in the table and
/// positional words.
pub fn read_by<'a>(
    alloc: Global,
    keys: &'static [Key],
    words: &'a [Word],
) -> Result<Option<Given<'a>>, Memory>
    requires filled { are_filled words.now ≡ true }
    requires named { takes_value (map form_of keys.now) [] ≡ None }
    ensures { IfOk result (λ given. option_map (λ given. held_by given.matches) given
        ≡ read_by_forms (map form_of keys.now) words.now) }
{
    match parsed(alloc, keys, words)? {
        Some(matches) => Ok(Some(Given { matches })),
        None => Ok(None),
    }
}

impl<'a> Given<'a> {
    /// The values of the name, in order.
    pub fn values(&self, name: &str) -> Option<&[&'a str]>
        ensures values { unwrap_or (option_map (λ texts. texts_in texts.now) result) []
            ≡ held_by self.now.matches name.now }
        ensures texts { IfSome result (λ texts. All (λ text. is_text text.now ≡ true) texts.now) }
    {
        self.matches.get_strs(name)
    }

    /// The value of an option, if it stands. None comes where it stands more than once.
    pub fn once(&self, name: &str) -> Option<Option<&'a str>>
        ensures text { IfSome result (λ found. IfSome found (λ text. is_text text.now ≡ true)) }
        ensures once { option_map (option_map (λ text. text.now)) result
            ≡ once None (λ value. Some (Some value)) (held_by self.now.matches name.now) }
    {
        match self.values(name) {
            None => Some(None),
            Some([]) => Some(None),
            Some([value]) => Some(Some(*value)),
            Some(_) => None,
        }
    }
}
