ghost use Rattle.std.specs.Prelude.{◌≡◌, [], ◌∷◌, codes, IfOk, option_map};
ghost use Rattle.serde_json.specs.View.{view, items_view};
ghost use Rattle.tf_wire.specs.Grammar.{at, each_of, list_of, size_of, text_of as text_spelled, pair_items as pair_of_items, pair_of as pair_spelled, id_of as id_spelled, action_named as action_of_word, action_of as action_spelled, kind_named as kind_of_word, kind_of as kind_spelled, request_members as members_spelled, request_of as request_spelled};

use crate::messages::Request;
use crate::values::{id_of, name_of, text_of, value_of};
use serde_json::Value;
use std::alloc::Global;
use tf_actions::{Action, Args, Pair};
use tf_flow::TaskKind;
use tf_values::{Memory, Text, Texts};

/// How many members the object has; none where it is no object.
pub fn size(value: &Value) -> usize
    ensures { result ≡ size_of (view value.now) }
{
    match value.as_object() {
        Some(members) => members.len(),
        None => 0,
    }
}

/// The request that the JSON spells, or none.
pub fn request_of(alloc: Global, message: &Value) -> Result<Option<Request>, Memory>
    ensures { IfOk result (λ made. made ≡ request_spelled (view message.now)) }
{
    if size(message) != 5 {
        return Ok(None);
    }
    request_members(alloc, message)
}

/// The request that the members of an object spell, or none.
fn request_members(alloc: Global, message: &Value) -> Result<Option<Request>, Memory>
    ensures { IfOk result (λ made. made ≡ members_spelled (view message.now)) }
{
    let Some(action) = action_at(message) else {
        return Ok(None);
    };
    let Some(args) = args_at(alloc, message)? else {
        return Ok(None);
    };
    let Some(id) = id_at(message) else {
        return Ok(None);
    };
    let Some(kind) = kind_at(message) else {
        return Ok(None);
    };
    let Some(words) = words_at(alloc, message)? else {
        return Ok(None);
    };
    Ok(Some(Request {
        id,
        action,
        kind,
        words: Texts::make(words),
        args: Args::make(args),
    }))
}

/// The number at the key `id`, or none.
pub fn id_at(message: &Value) -> Option<u64>
    ensures { result ≡ at (codes "id") id_spelled (view message.now) }
{
    match message.get("id") {
        Some(value) => id_of(value),
        None => None,
    }
}

/// The action at the key `action`, or none.
fn action_at(message: &Value) -> Option<Action>
    ensures { result ≡ at (codes "action") action_spelled (view message.now) }
{
    match message.get("action") {
        Some(value) => action_of(value),
        None => None,
    }
}

fn action_of(value: &Value) -> Option<Action>
    ensures { result ≡ action_spelled (view value.now) }
{
    match value.as_str() {
        Some(word) => action_named(word),
        None => None,
    }
}

fn action_named(word: &str) -> Option<Action>
    ensures { result ≡ action_of_word word.now }
{
    match word {
        "execute" => Some(Action::Execute),
        "revert" => Some(Action::Revert),
        _ => None,
    }
}

/// The kind of task at the key `kind`, or none.
fn kind_at(message: &Value) -> Option<TaskKind>
    ensures { result ≡ at (codes "kind") kind_spelled (view message.now) }
{
    match message.get("kind") {
        Some(value) => kind_of(value),
        None => None,
    }
}

fn kind_of(value: &Value) -> Option<TaskKind>
    ensures { result ≡ kind_spelled (view value.now) }
{
    match value.as_str() {
        Some(word) => kind_named(word),
        None => None,
    }
}

fn kind_named(word: &str) -> Option<TaskKind>
    ensures { result ≡ kind_of_word word.now }
{
    match word {
        "echo" => Some(TaskKind::Echo),
        "concat" => Some(TaskKind::Concat),
        "sum" => Some(TaskKind::Sum),
        "length" => Some(TaskKind::Length),
        "pick" => Some(TaskKind::Pick),
        "list" => Some(TaskKind::List),
        "fail" => Some(TaskKind::Fail),
        "fail_below" => Some(TaskKind::FailBelow),
        "fail_unless" => Some(TaskKind::FailUnless),
        "command" => Some(TaskKind::Command),
        _ => None,
    }
}

/// The texts at the key `words`, or none.
fn words_at(alloc: Global, message: &Value) -> Result<Option<Vec<Text>>, Memory>
    ensures { IfOk result (λ made. option_map (λ words. words.items) made
        ≡ at (codes "words") (list_of text_spelled) (view message.now)) }
{
    match message.get("words") {
        Some(value) => words_of(alloc, value),
        None => Ok(None),
    }
}

fn words_of(alloc: Global, value: &Value) -> Result<Option<Vec<Text>>, Memory>
    ensures { IfOk result (λ made. option_map (λ words. words.items) made ≡ list_of text_spelled (view value.now)) }
{
    match value.as_array() {
        Some(items) => each_word(alloc, items),
        None => Ok(None),
    }
}

/// The texts that items are, or none where one is no text.
fn each_word(alloc: Global, items: &[Value]) -> Result<Option<Vec<Text>>, Memory>
    ensures { IfOk result (λ made. option_map (λ words. words.items) made
        ≡ each_of text_spelled (items_view items.now)) }
{
    let mut words = Vec::new(alloc);
    for item in items {
        let Some(word) = text_of(alloc, item)? else {
            return Ok(None);
        };
        words.push(word)?;
    }
    Ok(Some(words))
}

/// The arguments at the key `args`, or none.
fn args_at(alloc: Global, message: &Value) -> Result<Option<Vec<Pair>>, Memory>
    ensures { IfOk result (λ made. option_map (λ args. args.items) made
        ≡ at (codes "args") (list_of pair_spelled) (view message.now)) }
{
    match message.get("args") {
        Some(value) => args_of(alloc, value),
        None => Ok(None),
    }
}

fn args_of(alloc: Global, value: &Value) -> Result<Option<Vec<Pair>>, Memory>
    ensures { IfOk result (λ made. option_map (λ args. args.items) made ≡ list_of pair_spelled (view value.now)) }
{
    match value.as_array() {
        Some(items) => each_pair(alloc, items),
        None => Ok(None),
    }
}

/// The arguments that items are, or none where one is no argument.
fn each_pair(alloc: Global, items: &[Value]) -> Result<Option<Vec<Pair>>, Memory>
    ensures { IfOk result (λ made. option_map (λ args. args.items) made ≡ each_of pair_spelled (items_view items.now)) }
{
    let mut args = Vec::new(alloc);
    for item in items {
        let Some(pair) = pair_of(alloc, item)? else {
            return Ok(None);
        };
        args.push(pair)?;
    }
    Ok(Some(args))
}

/// The argument that stands there, or none.
fn pair_of(alloc: Global, value: &Value) -> Result<Option<Pair>, Memory>
    ensures { IfOk result (λ made. made ≡ pair_spelled (view value.now)) }
{
    match value.as_array() {
        Some(items) => pair_items(alloc, items),
        None => Ok(None),
    }
}

/// The argument that the items of an array are, or none.
#[tactic(auto, using(crate::proofs::ItemLemmas::no_pair))]
fn pair_items(alloc: Global, items: &[Value]) -> Result<Option<Pair>, Memory>
    ensures { IfOk result (λ made. made ≡ pair_of_items (items_view items.now)) }
{
    if items.len() != 2 {
        return Ok(None);
    }
    let [name, value] = items else {
        unreachable!();
    };
    pair_made(alloc, name, value)
}

/// The argument of a name and a value, or none.
fn pair_made(alloc: Global, name: &Value, value: &Value) -> Result<Option<Pair>, Memory>
    ensures { IfOk result (λ made. made ≡ pair_of_items (items_view (name.now ∷ value.now ∷ []))) }
{
    let Some(name) = name_of(name) else {
        return Ok(None);
    };
    match value_of(alloc, value)? {
        Some(value) => Ok(Some(Pair { name, value })),
        None => Ok(None),
    }
}
