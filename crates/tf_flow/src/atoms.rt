ghost use Rattle.std.specs.Prelude.{◌≡◌, IfOk};

use std::alloc::Global;
use std::marker::Model;
use tf_values::{Memory, Name, Names, Scalars, Texts, Val};

/// What a task does.
#[derive(Clone, Copy, Debug, PartialEq, Eq)]
pub enum TaskKind {
    Echo,
    Concat,
    Sum,
    Length,
    Pick,
    List,
    Fail,
    FailBelow,
    FailUnless,
    Command,
}

/// An argument of an atom: its name, and the symbol whose value it takes.
#[derive(Clone, Copy, Debug)]
pub struct Arg {
    pub name: Name,
    pub symbol: Name,
}

/// Arguments in order. Contracts see the list.
#[derive(Debug, Drop)]
pub struct ArgList {
    items: Vec<Arg>,
}

impl Model for ArgList {
    ghost use Rattle.std.specs.Prelude.{List};
    ghost use Rattle.tf_flow.specs.declared.atoms.Arg.{Arg};

    ghost Value = { List Arg };

    ghost view = { λ list. list.items.items };
}

impl ArgList {
    /// A list of these arguments. It takes no memory and sets no limit.
    pub fn make(items: Vec<Arg>) -> ArgList
        ensures { result ≡ items.items }
    {
        ArgList { items }
    }

    /// The arguments, in order.
    pub fn items(&self) -> &[Arg]
        ensures { result.now ≡ self.now }
    {
        &self.items
    }
}

/// A symbol and the value that it is bound to.
#[derive(Debug, Drop)]
pub struct Bind {
    pub symbol: Name,
    pub value: Val,
}

/// Symbols with their values, in order. Contracts see the list.
#[derive(Debug, Drop)]
pub struct Binds {
    items: Vec<Bind>,
}

impl Model for Binds {
    ghost use Rattle.std.specs.Prelude.{List};
    ghost use Rattle.tf_flow.specs.declared.atoms.Bind.{Bind};

    ghost Value = { List Bind };

    ghost view = { λ list. list.items.items };
}

impl Binds {
    /// A list of these symbols with their values. It takes no memory and sets no limit.
    pub fn make(items: Vec<Bind>) -> Binds
        ensures { result ≡ items.items }
    {
        Binds { items }
    }

    /// The symbols with their values, in order.
    pub fn items(&self) -> &[Bind]
        ensures { result.now ≡ self.now }
    {
        &self.items
    }
}

/// Which symbols an atom's result gives.
#[derive(Debug, Drop)]
pub enum Provides {
    Nothing,
    /// This one takes the whole result.
    Whole(Name),
    /// Each of these takes the item of a list result at its own place.
    Parts(Names),
}

/// What reverts a task.
#[derive(Debug, Drop)]
pub enum Undo {
    /// Nothing is done, and the task counts as reverted.
    Pass,
    /// The revert fails.
    Fail,
    /// The program of these words is run, with the task's arguments.
    Run(Texts),
}

impl Undo {
    /// An equal undo.
    pub fn copy(&self, alloc: Global) -> Result<Undo, Memory>
        ensures { IfOk result (λ copy. copy ≡ self.now) }
    {
        match self {
            Undo::Pass => Ok(Undo::Pass),
            Undo::Fail => Ok(Undo::Fail),
            Undo::Run(words) => Ok(Undo::Run(words.copy(alloc)?)),
        }
    }
}

/// A task.
#[derive(Debug, Drop)]
pub struct Task {
    pub name: Name,
    pub kind: TaskKind,
    /// The words of a command; every other kind has none.
    pub words: Texts,
    pub args: ArgList,
    /// Symbols that have a constant value for this task alone.
    pub inject: Binds,
    pub provides: Provides,
    /// Of the tasks that can be taken up, those with the greatest priority come first.
    pub priority: i32,
    pub undo: Undo,
}

/// How a retry controller answers a failure of its flow. With `all` it answers with a reversion of
/// the whole flow where it has no attempt left.
#[derive(Debug, Drop)]
pub enum RetryKind {
    AlwaysRevert,
    AlwaysRevertAll,
    /// So many attempts; the value of each is its number, from 1.
    Times { attempts: u16, all: bool },
    /// One attempt for each of these values.
    ForEach { values: Scalars, all: bool },
    /// One attempt for each item of the argument `values`.
    Parameterized { all: bool },
}

/// The retry controller of a flow.
#[derive(Debug, Drop)]
pub struct Retry {
    pub name: Name,
    pub kind: RetryKind,
    pub args: ArgList,
    pub inject: Binds,
    pub provides: Provides,
}
