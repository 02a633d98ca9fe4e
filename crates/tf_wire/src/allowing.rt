ghost use Rattle.std.specs.Prelude.{◌≡◌, nat_le, length};
ghost use Rattle.std.specs.List.{list_any};
ghost use Rattle.tf_flow.specs.Rules.{is_command as kind_of_commands, least_arguments as least_of, has_wrong_words as wrong_words};
ghost use Rattle.tf_wire.specs.Grammar.{has_name, names_differ as all_differ, suits as suits_action, is_fit_request as is_allowed_request};

use crate::messages::Request;
use tf_actions::{Action, Pair};
use tf_flow::TaskKind;
use tf_values::{Name, Text};

/// The most words and the most arguments of an order.
const ORDER_LIMIT: usize = 64;

/// Whether the order that a request names is whole, its arguments' names differ, and a revert's kind is that
/// of commands.
pub fn is_allowed(request: &Request) -> bool
    ensures { result ≡ is_allowed_request request.now }
{
    let words = request.words.items();
    let args = request.args.items();
    if words.len() > ORDER_LIMIT {
        return false;
    }
    if args.len() > ORDER_LIMIT {
        return false;
    }
    if has_wrong_words(request.kind, words) {
        return false;
    }
    if !suits(request.action, request.kind, args) {
        return false;
    }
    names_differ(args)
}

/// Whether a command has no words, or another kind has some.
fn has_wrong_words(kind: TaskKind, words: &[Text]) -> bool
    ensures { result ≡ wrong_words kind words.now }
{
    if is_command(kind) {
        return words.is_empty();
    }
    !words.is_empty()
}

/// Whether the arguments suit the action and the kind.
fn suits(action: Action, kind: TaskKind, args: &[Pair]) -> bool
    ensures { result ≡ suits_action action kind args.now }
{
    match action {
        Action::Execute => least_arguments(kind) <= args.len(),
        Action::Revert => is_command(kind),
    }
}

/// Whether it is the kind of commands.
fn is_command(kind: TaskKind) -> bool
    ensures { result ≡ kind_of_commands kind }
{
    match kind {
        TaskKind::Command => true,
        _ => false,
    }
}

/// The least arguments that a kind of task takes.
fn least_arguments(kind: TaskKind) -> usize
    ensures { result ≡ least_of kind }
{
    match kind {
        TaskKind::Length | TaskKind::FailUnless => 1,
        TaskKind::Pick | TaskKind::FailBelow => 2,
        _ => 0,
    }
}

/// Whether no name stands twice among the arguments.
fn names_differ(pairs: &[Pair]) -> bool
    ensures { result ≡ all_differ pairs.now }
{
    for (number, pair) in pairs.iter().enumerate() {
        if has_named(&pairs[number + 1..], &pair.name) {
            return false;
        }
    }
    true
}

/// Whether an argument has the name.
fn has_named(pairs: &[Pair], name: &Name) -> bool
    ensures { result ≡ list_any (has_name name.now) pairs.now }
{
    for pair in pairs {
        if *name == pair.name {
            return true;
        }
    }
    false
}
