ghost use Rattle.std.specs.Prelude.{◌≡◌, ◌∷◌, ℕ, List, Option, Some, None, IfOk, IfErr};
ghost use Rattle.tf_entries.specs.AtomReading as form;
ghost use Rattle.tf_entries.specs.Reading.{RefusesForm, read_list, read_name, read_text};

use crate::reader::Reader;
use std::alloc::Global;
use tf_flow::{Arg, ArgList, Bind, Binds, Provides, Retry, RetryKind, Task, TaskKind, Undo};
use tf_values::{MakeFault, Name, Names, Scalars, Text, Texts, Val};

/// What can be read behind another of its kind.
trait Item: Sized + Drop {
    ghost read: { List ℕ → Option (Self × List ℕ) };

    fn take(reader: &mut Reader<'_>, alloc: Global) -> Result<Self, MakeFault>
        ensures ok { IfOk result (λ item. read reader.old ≡ Some (item, reader.new)) }
        ensures refused { IfErr result (RefusesForm (read reader.old)) };
}

impl Item for Name {
    ghost read = { read_name };

    fn take(reader: &mut Reader<'_>, _alloc: Global) -> Result<Self, MakeFault> {
        reader.name()
    }
}

impl Item for Text {
    ghost read = { read_text };

    fn take(reader: &mut Reader<'_>, alloc: Global) -> Result<Self, MakeFault> {
        reader.text(alloc)
    }
}

impl Item for Arg {
    ghost read = { form.read_arg };

    fn take(reader: &mut Reader<'_>, _alloc: Global) -> Result<Self, MakeFault> {
        Ok(Arg {
            name: reader.name()?,
            symbol: reader.name()?,
        })
    }
}

impl Item for Bind {
    ghost read = { form.read_bind };

    fn take(reader: &mut Reader<'_>, alloc: Global) -> Result<Self, MakeFault> {
        Ok(Bind {
            symbol: reader.name()?,
            value: reader.value(alloc)?,
        })
    }
}

impl Reader<'_> {
    /// Items behind their number.
    fn items<T: Item>(&mut self, alloc: Global) -> Result<Vec<T>, MakeFault>
        ensures ok { IfOk result (λ items. read_list T.read self.old ≡ Some (items.items, self.new)) }
        ensures refused { IfErr result (RefusesForm (read_list T.read self.old)) }
    {
        let count = self.u16()?;
        let mut items = Vec::new(alloc);
        for _ in 0..count {
            items.push(T::take(self, alloc)?)?;
        }
        Ok(items)
    }
}

impl Reader<'_> {
    /// A task.
    pub fn task(&mut self, alloc: Global) -> Result<Task, MakeFault>
        ensures ok { IfOk result (λ task. form.read_task self.old ≡ Some (task, self.new)) }
        ensures refused { IfErr result (RefusesForm (form.read_task self.old)) }
    {
        Ok(Task {
            name: self.name()?,
            kind: self.task_kind()?,
            words: self.words(alloc)?,
            args: self.args(alloc)?,
            inject: self.binds(alloc)?,
            provides: self.provides(alloc)?,
            priority: self.i32()?,
            undo: self.undo(alloc)?,
        })
    }

    /// A retry controller.
    pub fn retry(&mut self, alloc: Global) -> Result<Retry, MakeFault>
        ensures ok { IfOk result (λ retry. form.read_retry self.old ≡ Some (retry, self.new)) }
        ensures refused { IfErr result (RefusesForm (form.read_retry self.old)) }
    {
        Ok(Retry {
            name: self.name()?,
            kind: self.retry_kind(alloc)?,
            args: self.args(alloc)?,
            inject: self.binds(alloc)?,
            provides: self.provides(alloc)?,
        })
    }

    /// Symbols with their values.
    #[tactic(auto, unfolding(crate::specs::AtomReading::read_binds))]
    pub fn binds(&mut self, alloc: Global) -> Result<Binds, MakeFault>
        ensures ok { IfOk result (λ binds. form.read_binds self.old ≡ Some (binds, self.new)) }
        ensures refused { IfErr result (RefusesForm (form.read_binds self.old)) }
    {
        Ok(Binds::make(self.items(alloc)?))
    }

    /// A truth value.
    pub fn truth(&mut self) -> Result<bool, MakeFault>
        ensures ok { IfOk result (λ truth. form.read_truth self.old ≡ Some (truth, self.new)) }
        ensures refused { IfErr result (RefusesForm (form.read_truth self.old)) }
    {
        match self.byte()? {
            0 => Ok(false),
            1 => Ok(true),
            _ => Err(MakeFault::No),
        }
    }

    #[tactic(auto, unfolding(crate::specs::AtomReading::read_words))]
    fn words(&mut self, alloc: Global) -> Result<Texts, MakeFault>
        ensures ok { IfOk result (λ words. form.read_words self.old ≡ Some (words, self.new)) }
        ensures refused { IfErr result (RefusesForm (form.read_words self.old)) }
    {
        Ok(Texts::make(self.items(alloc)?))
    }

    #[tactic(auto, unfolding(crate::specs::AtomReading::read_names))]
    fn names(&mut self, alloc: Global) -> Result<Names, MakeFault>
        ensures ok { IfOk result (λ names. form.read_names self.old ≡ Some (names, self.new)) }
        ensures refused { IfErr result (RefusesForm (form.read_names self.old)) }
    {
        Ok(Names::make(self.items(alloc)?))
    }

    #[tactic(auto, unfolding(crate::specs::AtomReading::read_args))]
    fn args(&mut self, alloc: Global) -> Result<ArgList, MakeFault>
        ensures ok { IfOk result (λ args. form.read_args self.old ≡ Some (args, self.new)) }
        ensures refused { IfErr result (RefusesForm (form.read_args self.old)) }
    {
        Ok(ArgList::make(self.items(alloc)?))
    }

    /// What an atom provides.
    fn provides(&mut self, alloc: Global) -> Result<Provides, MakeFault>
        ensures ok { IfOk result (λ provides. form.read_provides self.old ≡ Some (provides, self.new)) }
        ensures refused { IfErr result (RefusesForm (form.read_provides self.old)) }
    {
        match self.byte()? {
            0 => Ok(Provides::Nothing),
            1 => Ok(Provides::Whole(self.name()?)),
            2 => Ok(Provides::Parts(self.names(alloc)?)),
            _ => Err(MakeFault::No),
        }
    }

    /// What reverts a task.
    fn undo(&mut self, alloc: Global) -> Result<Undo, MakeFault>
        ensures ok { IfOk result (λ undo. form.read_undo self.old ≡ Some (undo, self.new)) }
        ensures refused { IfErr result (RefusesForm (form.read_undo self.old)) }
    {
        match self.byte()? {
            0 => Ok(Undo::Pass),
            1 => Ok(Undo::Fail),
            2 => Ok(Undo::Run(self.words(alloc)?)),
            _ => Err(MakeFault::No),
        }
    }

    fn task_kind(&mut self) -> Result<TaskKind, MakeFault>
        ensures ok { IfOk result (λ kind. form.read_task_kind self.old ≡ Some (kind, self.new)) }
        ensures refused { IfErr result (RefusesForm (form.read_task_kind self.old)) }
    {
        match self.byte()? {
            0 => Ok(TaskKind::Echo),
            1 => Ok(TaskKind::Concat),
            2 => Ok(TaskKind::Sum),
            3 => Ok(TaskKind::Length),
            4 => Ok(TaskKind::Pick),
            5 => Ok(TaskKind::List),
            6 => Ok(TaskKind::Fail),
            7 => Ok(TaskKind::FailBelow),
            8 => Ok(TaskKind::FailUnless),
            9 => Ok(TaskKind::Command),
            _ => Err(MakeFault::No),
        }
    }

    fn retry_kind(&mut self, alloc: Global) -> Result<RetryKind, MakeFault>
        ensures ok { IfOk result (λ kind. form.read_retry_kind self.old ≡ Some (kind, self.new)) }
        ensures refused { IfErr result (RefusesForm (form.read_retry_kind self.old)) }
    {
        match self.byte()? {
            0 => Ok(RetryKind::AlwaysRevert),
            1 => Ok(RetryKind::AlwaysRevertAll),
            2 => self.times(),
            3 => self.for_each(alloc),
            4 => Ok(RetryKind::Parameterized { all: self.truth()? }),
            _ => Err(MakeFault::No),
        }
    }

    /// So many attempts.
    fn times(&mut self) -> Result<RetryKind, MakeFault>
        ensures ok { IfOk result (λ kind. form.read_times self.old ≡ Some (kind, self.new)) }
        ensures refused { IfErr result (RefusesForm (form.read_times self.old)) }
    {
        let attempts = self.u16()?;
        let all = self.truth()?;
        Ok(RetryKind::Times { attempts, all })
    }

    /// An attempt for each of these values.
    fn for_each(&mut self, alloc: Global) -> Result<RetryKind, MakeFault>
        ensures ok { IfOk result (λ kind. form.read_for_each self.old ≡ Some (kind, self.new)) }
        ensures refused { IfErr result (RefusesForm (form.read_for_each self.old)) }
    {
        let values = self.values(alloc)?;
        let all = self.truth()?;
        Ok(RetryKind::ForEach { values, all })
    }

    /// A list.
    fn values(&mut self, alloc: Global) -> Result<Scalars, MakeFault>
        ensures ok { IfOk result (λ values. form.read_values self.old ≡ Some (values, self.new)) }
        ensures refused { IfErr result (RefusesForm (form.read_values self.old)) }
    {
        match self.value(alloc)? {
            Val::List(values) => Ok(values),
            _ => Err(MakeFault::No),
        }
    }
}
