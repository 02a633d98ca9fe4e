ghost use Rattle.std.specs.Prelude.{◌≡◌, [], Ok, IfOk, IfErr, codes, pos};
ghost use Rattle.tf_files.specs.document.Reading.{RefusesWith, required as required_there, optional as optional_there, name_form as name_spelled, texts_form as texts_spelled};
ghost use Rattle.tf_files.specs.document.Places.{place_of};
ghost use Rattle.tf_files.specs.document.Tasks.{task_form as task_spelled, task_kind_form as kind_spelled, kind_named as kind_of, priority_form as priority_spelled, ranked as ranked_spelled, undo_form as undo_spelled, undo_named as undo_of};
ghost use Rattle.tf_flow.specs.declared.atoms.Undo.TheVariants as undone;
ghost use Rattle.toml.specs.View.{view, table_view};

use crate::document::faults::FileFault;
use crate::document::fields::{Field, known_only, optional, required};
use crate::document::paths::Path;
use crate::document::signatures::signature_form;
use crate::document::values::name_form;
use crate::document::words::{each_text, texts_form};
use std::alloc::Global;
use tf_flow::{Task, TaskKind, Undo};
use tf_values::{Name, Text, Texts};
use toml::{Table, Value};

/// The task that the table under the path spells, or the first reason why it spells none.
pub fn task_form(alloc: Global, path: &Path, table: &Table) -> Result<Task, FileFault>
    ensures ok { IfOk result (λ task. task_spelled path.now (table_view table.now) ≡ Ok task) }
    ensures refused { IfErr result (RefusesWith (task_spelled path.now (table_view table.now))) }
{
    let keys = [
        "task", "kind", "requires", "rebind", "inject", "provides", "priority", "run", "revert",
    ];
    known_only(alloc, path, &keys, table)?;
    let name = name_at(alloc, path, table)?;
    let kind = kind_at(alloc, path, table)?;
    let signature = signature_form(alloc, path, table)?;
    let priority = priority_at(alloc, path, table)?;
    let words = run_at(alloc, path, table)?;
    let undo = revert_at(alloc, path, table)?;
    Ok(Task {
        name,
        kind,
        words: Texts::make(words),
        args: signature.args,
        inject: signature.inject,
        provides: signature.provides,
        priority,
        undo,
    })
}

fn name_at(alloc: Global, path: &Path, table: &Table) -> Result<Name, FileFault>
    ensures ok { IfOk result (λ name. required_there path.now (codes "task") (table_view table.now) name_spelled
        ≡ Ok name) }
    ensures refused { IfErr result (RefusesWith (required_there path.now (codes "task")
        (table_view table.now) name_spelled)) }
{
    let field = required(alloc, path, "task", table)?;
    name_form(alloc, &field)
}

fn kind_at(alloc: Global, path: &Path, table: &Table) -> Result<TaskKind, FileFault>
    ensures ok { IfOk result (λ kind. required_there path.now (codes "kind") (table_view table.now) kind_spelled
        ≡ Ok kind) }
    ensures refused { IfErr result (RefusesWith (required_there path.now (codes "kind")
        (table_view table.now) kind_spelled)) }
{
    let field = required(alloc, path, "kind", table)?;
    kind_form(alloc, &field)
}

fn priority_at(alloc: Global, path: &Path, table: &Table) -> Result<i32, FileFault>
    ensures ok { IfOk result (λ priority. optional_there path.now (codes "priority") (table_view table.now)
        (pos 0) priority_spelled ≡ Ok priority) }
    ensures refused { IfErr result (RefusesWith (optional_there path.now (codes "priority") (table_view table.now)
        (pos 0) priority_spelled)) }
{
    match optional(path, "priority", table) {
        Some(field) => priority_form(alloc, &field),
        None => Ok(0),
    }
}

fn run_at(alloc: Global, path: &Path, table: &Table) -> Result<Vec<Text>, FileFault>
    ensures ok { IfOk result (λ words. optional_there path.now (codes "run") (table_view table.now) [] texts_spelled
        ≡ Ok words.items) }
    ensures refused { IfErr result (RefusesWith (optional_there path.now (codes "run")
        (table_view table.now) [] texts_spelled)) }
{
    match optional(path, "run", table) {
        Some(field) => texts_form(alloc, &field),
        None => Ok(Vec::new(alloc)),
    }
}

fn revert_at(alloc: Global, path: &Path, table: &Table) -> Result<Undo, FileFault>
    ensures ok { IfOk result (λ undo. optional_there path.now (codes "revert")
        (table_view table.now) undone.Pass undo_spelled ≡ Ok undo) }
    ensures refused { IfErr result (RefusesWith (optional_there path.now (codes "revert")
        (table_view table.now) undone.Pass undo_spelled)) }
{
    match optional(path, "revert", table) {
        Some(field) => undo_form(alloc, &field),
        None => Ok(Undo::Pass),
    }
}

/// A kind of task: `WrongKind` where the value is no string, `BadChoice` where it is no kind.
fn kind_form(alloc: Global, field: &Field<'_>) -> Result<TaskKind, FileFault>
    ensures ok { IfOk result (λ kind. kind_spelled (place_of field.now) (view field.now.value.now) ≡ Ok kind) }
    ensures refused { IfErr result (RefusesWith (kind_spelled (place_of field.now) (view field.now.value.now))) }
{
    let word = field.word(alloc)?;
    kind_named(alloc, field, word)
}

fn kind_named(alloc: Global, field: &Field<'_>, word: &str) -> Result<TaskKind, FileFault>
    ensures ok { IfOk result (λ kind. kind_of (place_of field.now) word.now ≡ Ok kind) }
    ensures refused { IfErr result (RefusesWith (kind_of (place_of field.now) word.now)) }
{
    match word {
        "echo" => Ok(TaskKind::Echo),
        "concat" => Ok(TaskKind::Concat),
        "sum" => Ok(TaskKind::Sum),
        "length" => Ok(TaskKind::Length),
        "pick" => Ok(TaskKind::Pick),
        "list" => Ok(TaskKind::List),
        "fail" => Ok(TaskKind::Fail),
        "fail_below" => Ok(TaskKind::FailBelow),
        "fail_unless" => Ok(TaskKind::FailUnless),
        "command" => Ok(TaskKind::Command),
        _ => Err(FileFault::BadChoice(field.path(alloc)?)),
    }
}

/// A priority: `WrongKind` where the value is no integer, `BadNumber` where it needs more than 32 bits.
fn priority_form(alloc: Global, field: &Field<'_>) -> Result<i32, FileFault>
    ensures ok { IfOk result (λ priority. priority_spelled (place_of field.now) (view field.now.value.now)
        ≡ Ok priority) }
    ensures refused { IfErr result (RefusesWith (priority_spelled (place_of field.now) (view field.now.value.now))) }
{
    match field.value.as_integer() {
        Some(number) => ranked(alloc, field, number),
        None => Err(FileFault::WrongKind(field.path(alloc)?)),
    }
}

fn ranked(alloc: Global, field: &Field<'_>, number: i64) -> Result<i32, FileFault>
    ensures ok { IfOk result (λ priority. ranked_spelled (place_of field.now) number ≡ Ok priority) }
    ensures refused { IfErr result (RefusesWith (ranked_spelled (place_of field.now) number)) }
{
    if number < -2_147_483_648 || 2_147_483_647 < number {
        return Err(FileFault::BadNumber(field.path(alloc)?));
    }
    Ok(number as i32)
}

/// What reverts a task: `WrongKind` where the value is neither a string nor an array, `BadChoice` where
/// it is another word, and for the words of a program what refuses the first that is no text.
fn undo_form(alloc: Global, field: &Field<'_>) -> Result<Undo, FileFault>
    ensures ok { IfOk result (λ undo. undo_spelled (place_of field.now) (view field.now.value.now) ≡ Ok undo) }
    ensures refused { IfErr result (RefusesWith (undo_spelled (place_of field.now) (view field.now.value.now))) }
{
    match field.value {
        Value::String(string) => undo_named(alloc, field, string.as_str()),
        Value::Array(items) => {
            let path = field.path(alloc)?;
            let words = each_text(alloc, &path, items)?;
            Ok(Undo::Run(Texts::make(words)))
        }
        _ => Err(FileFault::WrongKind(field.path(alloc)?)),
    }
}

fn undo_named(alloc: Global, field: &Field<'_>, word: &str) -> Result<Undo, FileFault>
    ensures ok { IfOk result (λ undo. undo_of (place_of field.now) word.now ≡ Ok undo) }
    ensures refused { IfErr result (RefusesWith (undo_of (place_of field.now) word.now)) }
{
    match word {
        "ok" => Ok(Undo::Pass),
        "fail" => Ok(Undo::Fail),
        _ => Err(FileFault::BadChoice(field.path(alloc)?)),
    }
}
