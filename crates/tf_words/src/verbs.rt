ghost use Rattle.std.specs.Prelude.{◌≡◌, [], Some, None, true, IfSome, map, option_map};
ghost use Rattle.tf_words.specs.Verbs.{are_filled, takes_value, form_of, forms_of, verb_named as verb_by_name, board_verb_named as board_verb_by_name, choice_of as chosen_by, board_choice_of as chosen_behind_board, access_of as access_by_words, access_for as access_by_verb};

use crate::word::Word;
use tf_board::JobAction;
use tf_desk::Access;

/// What a command does with the words behind those that choose it.
#[derive(Clone, Copy, Debug)]
pub enum Verb {
    Try,
    Run,
    Resume,
    Show,
    Reset,
    Details,
    Migrate,
    Check,
    Audit,
    Demo,
    Worker,
    Conduct,
    Post,
    Apply(JobAction),
    Owner,
    List,
    Serve,
}

/// An option that a command knows, by its name without the hyphens.
#[derive(Clone, Copy, Debug)]
pub struct Key {
    pub name: &'static str,
    /// Whether a value belongs to it.
    pub valued: bool,
}

/// A command, and the words behind those that choose it.
#[derive(Clone, Copy)]
pub struct Choice<'a> {
    pub verb: Verb,
    pub others: &'a [Word],
}

const DEFER_REVERTS: Key = Key {
    name: "defer-reverts",
    valued: false,
};

const HANDS: Key = Key {
    name: "hands",
    valued: true,
};

const WORKERS: Key = Key {
    name: "worker",
    valued: true,
};

const STOP_AFTER: Key = Key {
    name: "stop-after",
    valued: true,
};

const REPLY_WITHIN: Key = Key {
    name: "reply-within",
    valued: true,
};

const MODE: Key = Key {
    name: "mode",
    valued: true,
};

const TARGET: Key = Key {
    name: "target",
    valued: true,
};

const SESSIONS: Key = Key {
    name: "sessions",
    valued: true,
};

const PRIORITY: Key = Key {
    name: "priority",
    valued: true,
};

const DETAILS: Key = Key {
    name: "details",
    valued: true,
};

static TRY: [Key; 5] = [DEFER_REVERTS, HANDS, WORKERS, REPLY_WITHIN, TARGET];

static RUN: [Key; 6] = [
    DEFER_REVERTS,
    HANDS,
    WORKERS,
    REPLY_WITHIN,
    STOP_AFTER,
    TARGET,
];

static RESUME: [Key; 4] = [HANDS, WORKERS, REPLY_WITHIN, STOP_AFTER];

static CHECK: [Key; 1] = [TARGET];

static AUDIT: [Key; 1] = [DEFER_REVERTS];

static DEMO: [Key; 1] = [HANDS];

static WORKER: [Key; 2] = [SESSIONS, MODE];

static CONDUCT: [Key; 1] = [HANDS];

static POST: [Key; 2] = [PRIORITY, DETAILS];

static NONE: [Key; 0] = [];

/// The options that the command knows.
pub fn keys_of(verb: Verb) -> &'static [Key]
    ensures forms { map form_of result.now ≡ forms_of verb }
    ensures named { takes_value (map form_of result.now) [] ≡ None }
{
    match verb {
        Verb::Try => &TRY,
        Verb::Run => &RUN,
        Verb::Resume => &RESUME,
        Verb::Check => &CHECK,
        Verb::Audit => &AUDIT,
        Verb::Demo => &DEMO,
        Verb::Worker | Verb::Serve => &WORKER,
        Verb::Conduct => &CONDUCT,
        Verb::Post => &POST,
        Verb::Show | Verb::Reset => &NONE,
        Verb::Details | Verb::Migrate => &NONE,
        Verb::Apply(_) | Verb::Owner | Verb::List => &NONE,
    }
}

/// What the files of the command that the words choose are picked for; to be written where they choose none.
pub fn access_of(words: &[Word]) -> Access
    ensures { result ≡ access_by_words words.now }
{
    match chosen_in(words) {
        Some(choice) => access_for(choice.verb),
        None => Access::Own,
    }
}

/// What the files of the command are picked for.
fn access_for(verb: Verb) -> Access
    ensures { result ≡ access_by_verb verb }
{
    match verb {
        Verb::Show | Verb::Details => Access::Read,
        Verb::Owner | Verb::List => Access::Share,
        _ => Access::Own,
    }
}

/// The command that the first word chooses, or `board` and the second, if they choose one.
pub fn chosen_in(words: &[Word]) -> Option<Choice<'_>>
    ensures is { option_map (λ chosen. record { verb = chosen.verb; others = chosen.others.now }) result
        ≡ chosen_by words.now }
    ensures filled { are_filled words.now ≡ true → IfSome result (λ chosen. are_filled chosen.others.now ≡ true) }
{
    let (first, others) = words.split_first()?;
    if first.bytes() == b"board".as_slice() {
        return chosen_of_board(others);
    }
    let verb = verb_named(first.bytes())?;
    Some(Choice { verb, others })
}

/// The command of a board that the first of these words chooses.
fn chosen_of_board(words: &[Word]) -> Option<Choice<'_>>
    ensures is { option_map (λ chosen. record { verb = chosen.verb; others = chosen.others.now }) result
        ≡ chosen_behind_board words.now }
    ensures filled { are_filled words.now ≡ true → IfSome result (λ chosen. are_filled chosen.others.now ≡ true) }
{
    let (first, others) = words.split_first()?;
    let verb = board_verb_named(first.bytes())?;
    Some(Choice { verb, others })
}

/// The command of a board of this name.
fn board_verb_named(word: &[u8]) -> Option<Verb>
    ensures { result ≡ board_verb_by_name word.now }
{
    if word == b"post".as_slice() {
        return Some(Verb::Post);
    }
    if word == b"claim".as_slice() {
        return Some(Verb::Apply(JobAction::Claim));
    }
    if word == b"abandon".as_slice() {
        return Some(Verb::Apply(JobAction::Abandon));
    }
    if word == b"consume".as_slice() {
        return Some(Verb::Apply(JobAction::Consume));
    }
    if word == b"trash".as_slice() {
        return Some(Verb::Apply(JobAction::Trash));
    }
    if word == b"owner".as_slice() {
        return Some(Verb::Owner);
    }
    if word == b"list".as_slice() {
        return Some(Verb::List);
    }
    if word == b"serve".as_slice() {
        return Some(Verb::Serve);
    }
    None
}

/// The command of this name.
fn verb_named(word: &[u8]) -> Option<Verb>
    ensures { result ≡ verb_by_name word.now }
{
    if word == b"try".as_slice() {
        return Some(Verb::Try);
    }
    if word == b"run".as_slice() {
        return Some(Verb::Run);
    }
    if word == b"resume".as_slice() {
        return Some(Verb::Resume);
    }
    if word == b"show".as_slice() {
        return Some(Verb::Show);
    }
    if word == b"reset".as_slice() {
        return Some(Verb::Reset);
    }
    if word == b"details".as_slice() {
        return Some(Verb::Details);
    }
    if word == b"migrate".as_slice() {
        return Some(Verb::Migrate);
    }
    if word == b"check".as_slice() {
        return Some(Verb::Check);
    }
    if word == b"audit".as_slice() {
        return Some(Verb::Audit);
    }
    if word == b"demo".as_slice() {
        return Some(Verb::Demo);
    }
    if word == b"worker".as_slice() {
        return Some(Verb::Worker);
    }
    if word == b"conduct".as_slice() {
        return Some(Verb::Conduct);
    }
    None
}
