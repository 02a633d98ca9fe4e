ghost use Rattle.std.specs.Prelude.{◌≡◌, ◌++◌, ◌∷◌, [], ◌<◌, ◌^◌, ℕ, List, OnOk, OnErr};
ghost use Rattle.std.specs.Int.{to_be_bytes, cast_unsigned, w16, w32};
ghost use Rattle.std.specs.List.{flat_map, AllByRecursion};
ghost use Rattle.tf_values.specs.Growth.{KeepsPrefix};
ghost use Rattle.tf_values.specs.Scalars.{text_bytes};
ghost use Rattle.tf_entries.specs.Plans as form;
ghost use Rattle.tf_entries.specs.Plans.{name_bytes, truth_byte as byte_of_truth, listed, AreFew};

use crate::appending::{
    append, append_list, append_name, append_tagged_name, append_text, append_value,
};
use tf_flow::{Arg, Bind, Provides, Retry, RetryKind, Task, TaskKind, Undo};
use tf_values::{Memory, Name, Text};

/// What can be written behind another of its kind.
pub trait Form: Sized {
    ghost form: { Self → List ℕ };

    ghost is_good: { Self → Type 0 };

    fn put(&self, out: &mut Vec<u8>) -> Result<(), Memory>
        ensures ok { OnOk result (out.new.items ≡ out.old.items ++ form self.now) }
        ensures good { OnOk result (is_good self.now) }
        ensures err { OnErr result (KeepsPrefix out.old.items out.new.items) };
}

impl Form for Name {
    ghost form = { name_bytes };

    ghost is_good = { form.IsName };

    fn put(&self, out: &mut Vec<u8>) -> Result<(), Memory> {
        append_name(self, out)
    }
}

impl Form for Text {
    ghost form = { text_bytes };

    ghost is_good = { form.IsText };

    fn put(&self, out: &mut Vec<u8>) -> Result<(), Memory> {
        append_text(self.bytes(), out)
    }
}

impl Form for Arg {
    ghost form = { form.arg_bytes };

    ghost is_good = { form.IsArg };

    fn put(&self, out: &mut Vec<u8>) -> Result<(), Memory> {
        append_name(&self.name, out)?;
        append_name(&self.symbol, out)
    }
}

impl Form for Bind {
    ghost form = { form.bind_bytes };

    ghost is_good = { form.IsBind };

    fn put(&self, out: &mut Vec<u8>) -> Result<(), Memory> {
        append_name(&self.symbol, out)?;
        append_value(&self.value, out)
    }
}

/// Appends how many items there are. A number that two bytes can't hold is answered as want of memory.
pub fn append_count(count: usize, out: &mut Vec<u8>) -> Result<(), Memory>
    ensures ok { OnOk result (out.new.items ≡ out.old.items ++ to_be_bytes w16 count) }
    ensures good { OnOk result (count < 2 ^ 16) }
    ensures err { OnErr result (KeepsPrefix out.old.items out.new.items) }
{
    match u16::try_from(count) {
        Ok(count) => append(&count.to_be_bytes(), out),
        Err(_) => Err(Memory),
    }
}

/// Appends items behind their number.
#[tactic(auto, using(tf_values::proofs::GrowthLemmas::keeps_shorter))]
pub fn append_listed<T: Form>(items: &[T], out: &mut Vec<u8>) -> Result<(), Memory>
    ensures ok { OnOk result (out.new.items ≡ out.old.items ++ listed T.form items.now) }
    ensures good { OnOk result (AreFew T.is_good items.now) }
    ensures err { OnErr result (KeepsPrefix out.old.items out.new.items) }
{
    append_count(items.len(), out)?;
    append_items(items, out)
}

#[tactic(auto, using(tf_values::proofs::GrowthLemmas::keeps_shorter))]
fn append_items<T: Form>(items: &[T], out: &mut Vec<u8>) -> Result<(), Memory>
    ensures ok { OnOk result (out.new.items ≡ out.old.items ++ flat_map T.form items.now) }
    ensures good { OnOk result (AllByRecursion T.is_good items.now) }
    ensures err { OnErr result (KeepsPrefix out.old.items out.new.items) }
{
    for item in items {
        item.put(out)?;
    }
    Ok(())
}

/// Appends a task.
#[tactic(auto, using(tf_values::proofs::GrowthLemmas::keeps_shorter))]
pub fn append_task(task: &Task, out: &mut Vec<u8>) -> Result<(), Memory>
    ensures ok { OnOk result (out.new.items ≡ out.old.items ++ form.task_bytes task.now) }
    ensures good { OnOk result (form.IsTask task.now) }
    ensures err { OnErr result (KeepsPrefix out.old.items out.new.items) }
{
    append_work(&task.name, task.kind, task.words.items(), out)?;
    append_signature(task.args.items(), task.inject.items(), &task.provides, out)?;
    append(&task.priority.to_be_bytes(), out)?;
    append_undo(&task.undo, out)
}

/// Appends what a task is called and does.
#[tactic(auto, using(tf_values::proofs::GrowthLemmas::keeps_shorter))]
fn append_work(name: &Name, kind: TaskKind, words: &[Text], out: &mut Vec<u8>) -> Result<(), Memory>
    ensures ok { OnOk result (out.new.items ≡ out.old.items
        ++ (name_bytes name.now ++ (form.task_kind_byte kind ∷ listed text_bytes words.now))) }
    ensures name { OnOk result (form.IsName name.now) }
    ensures words { OnOk result (AreFew form.IsText words.now) }
    ensures err { OnErr result (KeepsPrefix out.old.items out.new.items) }
{
    append_name(name, out)?;
    append(&[task_kind_byte(kind)], out)?;
    append_listed(words, out)
}

/// Appends a retry controller.
#[tactic(auto, using(tf_values::proofs::GrowthLemmas::keeps_shorter))]
pub fn append_retry(retry: &Retry, out: &mut Vec<u8>) -> Result<(), Memory>
    ensures ok { OnOk result (out.new.items ≡ out.old.items ++ form.retry_bytes retry.now) }
    ensures good { OnOk result (form.IsRetry retry.now) }
    ensures err { OnErr result (KeepsPrefix out.old.items out.new.items) }
{
    append_name(&retry.name, out)?;
    append_retry_kind(&retry.kind, out)?;
    append_signature(
        retry.args.items(),
        retry.inject.items(),
        &retry.provides,
        out,
    )
}

/// Appends what tasks and retry controllers have alike: arguments, constants, and what is provided.
#[tactic(auto, using(tf_values::proofs::GrowthLemmas::keeps_shorter))]
fn append_signature(
    args: &[Arg],
    inject: &[Bind],
    provides: &Provides,
    out: &mut Vec<u8>,
) -> Result<(), Memory>
    ensures ok { OnOk result (out.new.items ≡ out.old.items
        ++ (listed form.arg_bytes args.now ++ (listed form.bind_bytes inject.now
        ++ form.provides_bytes provides.now))) }
    ensures args { OnOk result (AreFew form.IsArg args.now) }
    ensures inject { OnOk result (AreFew form.IsBind inject.now) }
    ensures provides { OnOk result (form.IsProvides provides.now) }
    ensures err { OnErr result (KeepsPrefix out.old.items out.new.items) }
{
    append_listed(args, out)?;
    append_listed(inject, out)?;
    append_provides(provides, out)
}

#[tactic(auto, using(tf_values::proofs::GrowthLemmas::keeps_shorter))]
fn append_provides(provides: &Provides, out: &mut Vec<u8>) -> Result<(), Memory>
    ensures ok { OnOk result (out.new.items ≡ out.old.items ++ form.provides_bytes provides.now) }
    ensures good { OnOk result (form.IsProvides provides.now) }
    ensures err { OnErr result (KeepsPrefix out.old.items out.new.items) }
{
    match provides {
        Provides::Nothing => append(&[0], out),
        Provides::Whole(name) => append_tagged_name(1, name, out),
        Provides::Parts(names) => {
            append(&[2], out)?;
            append_listed(names.items(), out)
        }
    }
}

#[tactic(auto, using(tf_values::proofs::GrowthLemmas::keeps_shorter))]
fn append_undo(undo: &Undo, out: &mut Vec<u8>) -> Result<(), Memory>
    ensures ok { OnOk result (out.new.items ≡ out.old.items ++ form.undo_bytes undo.now) }
    ensures good { OnOk result (form.IsUndo undo.now) }
    ensures err { OnErr result (KeepsPrefix out.old.items out.new.items) }
{
    match undo {
        Undo::Pass => append(&[0], out),
        Undo::Fail => append(&[1], out),
        Undo::Run(words) => {
            append(&[2], out)?;
            append_listed(words.items(), out)
        }
    }
}

#[tactic(auto, using(tf_values::proofs::GrowthLemmas::keeps_shorter))]
fn append_retry_kind(kind: &RetryKind, out: &mut Vec<u8>) -> Result<(), Memory>
    ensures ok { OnOk result (out.new.items ≡ out.old.items ++ form.retry_kind_bytes kind.now) }
    ensures good { OnOk result (form.IsRetryKind kind.now) }
    ensures err { OnErr result (KeepsPrefix out.old.items out.new.items) }
{
    match kind {
        RetryKind::AlwaysRevert => append(&[0], out),
        RetryKind::AlwaysRevertAll => append(&[1], out),
        RetryKind::Times { attempts, all } => {
            append(&[2], out)?;
            append(&attempts.to_be_bytes(), out)?;
            append(&[truth_byte(*all)], out)
        }
        RetryKind::ForEach { values, all } => {
            append(&[3], out)?;
            append_list(values.items(), out)?;
            append(&[truth_byte(*all)], out)
        }
        RetryKind::Parameterized { all } => append(&[4, truth_byte(*all)], out),
    }
}

fn task_kind_byte(kind: TaskKind) -> u8
    ensures { result ≡ form.task_kind_byte kind }
{
    match kind {
        TaskKind::Echo => 0,
        TaskKind::Concat => 1,
        TaskKind::Sum => 2,
        TaskKind::Length => 3,
        TaskKind::Pick => 4,
        TaskKind::List => 5,
        TaskKind::Fail => 6,
        TaskKind::FailBelow => 7,
        TaskKind::FailUnless => 8,
        TaskKind::Command => 9,
    }
}

/// The byte of a truth value.
pub fn truth_byte(truth: bool) -> u8
    ensures { result ≡ byte_of_truth truth }
{
    if truth { 1 } else { 0 }
}
