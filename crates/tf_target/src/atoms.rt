//! Equal tasks and retry controllers.

ghost use Rattle.std.specs.Prelude.{◌≡◌, IfOk};

use std::alloc::Global;
use tf_flow::{Arg, ArgList, Bind, Binds, Provides, Retry, RetryKind, Task};
use tf_values::{Memory, Name, Names};

/// An equal task.
pub fn copy_task(alloc: Global, task: &Task) -> Result<Task, Memory>
    ensures { IfOk result (λ copy. copy ≡ task.now) }
{
    let words = task.words.copy(alloc)?;
    let args = copy_args(alloc, &task.args)?;
    let inject = copy_binds(alloc, &task.inject)?;
    let provides = copy_provides(alloc, &task.provides)?;
    let undo = task.undo.copy(alloc)?;
    Ok(Task {
        name: task.name,
        kind: task.kind,
        words,
        args,
        inject,
        provides,
        priority: task.priority,
        undo,
    })
}

/// An equal retry controller, where there is one.
pub fn copy_control(alloc: Global, retry: &Option<Retry>) -> Result<Option<Retry>, Memory>
    ensures { IfOk result (λ copy. copy ≡ retry.now) }
{
    match retry {
        None => Ok(None),
        Some(retry) => Ok(Some(copy_retry(alloc, retry)?)),
    }
}

fn copy_retry(alloc: Global, retry: &Retry) -> Result<Retry, Memory>
    ensures { IfOk result (λ copy. copy ≡ retry.now) }
{
    let kind = copy_kind(alloc, &retry.kind)?;
    let args = copy_args(alloc, &retry.args)?;
    let inject = copy_binds(alloc, &retry.inject)?;
    let provides = copy_provides(alloc, &retry.provides)?;
    Ok(Retry {
        name: retry.name,
        kind,
        args,
        inject,
        provides,
    })
}

fn copy_kind(alloc: Global, kind: &RetryKind) -> Result<RetryKind, Memory>
    ensures { IfOk result (λ copy. copy ≡ kind.now) }
{
    match kind {
        RetryKind::AlwaysRevert => Ok(RetryKind::AlwaysRevert),
        RetryKind::AlwaysRevertAll => Ok(RetryKind::AlwaysRevertAll),
        RetryKind::Times { attempts, all } => Ok(RetryKind::Times {
            attempts: *attempts,
            all: *all,
        }),
        RetryKind::ForEach { values, all } => Ok(RetryKind::ForEach {
            values: values.copy(alloc)?,
            all: *all,
        }),
        RetryKind::Parameterized { all } => Ok(RetryKind::Parameterized { all: *all }),
    }
}

/// Equal symbols with their values.
pub fn copy_binds(alloc: Global, binds: &Binds) -> Result<Binds, Memory>
    ensures { IfOk result (λ copy. copy ≡ binds.now) }
{
    let mut copies = Vec::with_capacity(alloc, binds.items().len())?;
    for bind in binds.items() {
        copies.push(copy_bind(alloc, bind)?)?;
    }
    Ok(Binds::make(copies))
}

fn copy_bind(alloc: Global, bind: &Bind) -> Result<Bind, Memory>
    ensures { IfOk result (λ copy. copy ≡ bind.now) }
{
    let value = bind.value.copy(alloc)?;
    Ok(Bind {
        symbol: bind.symbol,
        value,
    })
}

fn copy_args(alloc: Global, args: &ArgList) -> Result<ArgList, Memory>
    ensures { IfOk result (λ copy. copy ≡ args.now) }
{
    let copies: Vec<Arg> = args.items().to_vec(alloc)?;
    Ok(ArgList::make(copies))
}

fn copy_provides(alloc: Global, provides: &Provides) -> Result<Provides, Memory>
    ensures { IfOk result (λ copy. copy ≡ provides.now) }
{
    match provides {
        Provides::Nothing => Ok(Provides::Nothing),
        Provides::Whole(name) => Ok(Provides::Whole(*name)),
        Provides::Parts(names) => Ok(Provides::Parts(copy_names(alloc, names)?)),
    }
}

fn copy_names(alloc: Global, names: &Names) -> Result<Names, Memory>
    ensures { IfOk result (λ copy. copy ≡ names.now) }
{
    let copies: Vec<Name> = names.items().to_vec(alloc)?;
    Ok(Names::make(copies))
}
