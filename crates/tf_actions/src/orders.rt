ghost use Rattle.std.specs.Prelude.{◌≡◌, IfOk};
ghost use Rattle.tf_actions.specs.Gives.{is_sent as goes_far};

use crate::outcomes::Action;
use std::alloc::Global;
use std::marker::Model;
use tf_flow::{TaskKind, Undo};
use tf_values::{Memory, Name, Texts, Val};

/// An argument: its name and its value.
#[derive(Debug, Drop)]
pub struct Pair {
    pub name: Name,
    pub value: Val,
}

impl Pair {
    /// An equal argument.
    pub fn copy(&self, alloc: Global) -> Result<Pair, Memory>
        ensures { IfOk result (λ pair. pair ≡ self.now) }
    {
        let value = self.value.copy(alloc)?;
        Ok(Pair {
            name: self.name,
            value,
        })
    }
}

/// Arguments with their values, in order. Contracts see the list.
#[derive(Debug, Drop)]
pub struct Args {
    items: Vec<Pair>,
}

impl Model for Args {
    ghost use Rattle.std.specs.Prelude.{List};
    ghost use Rattle.tf_actions.specs.declared.orders.Pair.{Pair};

    ghost Value = { List Pair };

    ghost view = { λ args. args.items.items };
}

impl Args {
    /// A list of these arguments. It takes no memory and sets no limit.
    pub fn make(items: Vec<Pair>) -> Args
        ensures { result ≡ items.items }
    {
        Args { items }
    }

    /// The arguments, in order.
    pub fn items(&self) -> &[Pair]
        ensures { result.now ≡ self.now }
    {
        &self.items
    }

    /// An equal list.
    pub fn copy(&self, alloc: Global) -> Result<Args, Memory>
        ensures { IfOk result (λ args. args ≡ self.now) }
    {
        let mut items = Vec::with_capacity(alloc, self.items.len())?;
        for pair in &self.items {
            items.push(pair.copy(alloc)?)?;
        }
        Ok(Args { items })
    }
}

/// What an atom is given: its arguments with their values, or the first symbol that has none.
#[derive(Debug, Drop)]
pub enum Given {
    Found(Args),
    Missing(Name),
}

impl Given {
    /// Equal arguments, or the same symbol.
    pub fn copy(&self, alloc: Global) -> Result<Given, Memory>
        ensures { IfOk result (λ given. given ≡ self.now) }
    {
        match self {
            Given::Found(args) => Ok(Given::Found(args.copy(alloc)?)),
            Given::Missing(symbol) => Ok(Given::Missing(*symbol)),
        }
    }
}

/// What a performer is asked for: a task to execute or to revert.
#[derive(Debug, Drop)]
pub struct Order {
    /// The number of the task.
    pub atom: u16,
    pub action: Action,
    pub kind: TaskKind,
    /// The words of a command; every other kind has none.
    pub words: Texts,
    /// What reverts the task.
    pub undo: Undo,
    pub given: Given,
}

impl Order {
    /// Whether a hand that asks a worker asks it for this: an execution whose arguments were found, and a revert that
    /// runs a program.
    pub fn is_sent(&self) -> bool
        ensures { result ≡ goes_far self.now }
    {
        match self.action {
            Action::Execute => matches!(self.given, Given::Found(_)),
            Action::Revert => matches!(self.undo, Undo::Run(_)),
        }
    }

    /// An equal order.
    pub fn copy(&self, alloc: Global) -> Result<Order, Memory>
        ensures { IfOk result (λ order. order ≡ self.now) }
    {
        let words = self.words.copy(alloc)?;
        let undo = self.undo.copy(alloc)?;
        let given = self.given.copy(alloc)?;
        Ok(Order {
            atom: self.atom,
            action: self.action,
            kind: self.kind,
            words,
            undo,
            given,
        })
    }
}
