ghost use Rattle.std.specs.Prelude.{◌≡◌, [], IfOk, None, Some, map, option_map, true, false};
ghost use Rattle.clap.specs.Words.{app_of, rule_of};
ghost use Rattle.tf_words.specs.Held.{held_by};
ghost use Rattle.tf_words.specs.Verbs.{are_filled, read_by, takes_value, form_of};
ghost use Rattle.tf_words.specs.Table.{table, option_rule, positional_rule};

use crate::verbs::Key;
use crate::word::Word;
use clap::error::ErrorKind;
use clap::{Arg, ArgAction, ArgMatches, Command};
use std::alloc::{AllocError, Global};
use tf_values::Memory;

/// What the library finds in the words by the table of options, or none where it refuses them.
pub fn parsed<'a>(
    alloc: Global,
    keys: &'static [Key],
    words: &'a [Word],
) -> Result<Option<ArgMatches<'a>>, Memory>
    requires filled { are_filled words.now ≡ true }
    requires named { takes_value (map form_of keys.now) [] ≡ None }
    ensures { IfOk result (λ found. option_map held_by found ≡ read_by (map form_of keys.now) words.now) }
{
    let command = command_with(alloc, keys)?;
    match command.try_get_matches_from(words) {
        Ok(matches) => Ok(Some(matches)),
        Err(error) => match error.kind() {
            ErrorKind::OutOfMemory => Err(Memory),
            _ => Ok(None),
        },
    }
}

/// The command that has these options and any number of positional words.
fn command_with<'a>(alloc: Global, keys: &'static [Key]) -> Result<Command<'a>, AllocError>
    ensures { IfOk result (λ command. app_of command ≡ table (map form_of keys.now)) }
{
    let mut command = Command::new(alloc, "words")
        .no_binary_name(true)
        .disable_help_flag(true)
        .disable_version_flag(true);
    for key in keys {
        command = command.arg(option_with(alloc, *key))?;
    }
    let command = command.arg(positional(alloc))?;
    Ok(command)
}

/// The positional words, of which there may be any number.
fn positional<'a>(alloc: Global) -> Arg<'a>
    ensures rule { rule_of result ≡ positional_rule }
    ensures local { result.global ≡ false }
{
    Arg::new(alloc, "").action(ArgAction::Append)
}

/// The option, which may stand any number of times. A flag gets an empty value.
fn option_with<'a>(alloc: Global, key: Key) -> Arg<'a>
    ensures rule { rule_of result ≡ option_rule (form_of key) }
    ensures local { result.global ≡ false }
{
    let option = Arg::new(alloc, key.name)
        .long(key.name)
        .action(ArgAction::Append);
    if key.valued {
        return option;
    }
    option.num_args(0).default_missing_value("")
}
