ghost use Rattle.std.specs.Prelude.{◌≡◌};
ghost use Rattle.tf_flow.specs.Items.{test_list};

use std::marker::Model;
use tf_values::{Name, Val};

/// What a decider ignores where its test is false, the widest first.
#[derive(Clone, Copy, Debug, PartialEq, Eq)]
pub enum Depth {
    /// The refused task and all atoms after it.
    All,
    /// The refused task and the tasks of its own flow that are after it.
    Flow,
    /// The refused task and the tasks that a link leads to from it.
    Neighbors,
    /// The refused task alone.
    Atom,
}

/// A test over the results of tasks, which go by the tasks' names.
#[cycle(decision)]
#[derive(Debug, Drop)]
pub enum Test {
    /// The result is this value.
    Is(Name, Val),
    /// The result is an integer below this one.
    Below(Name, i64),
    /// The result is an integer above this one.
    Above(Name, i64),
    Not(Box<Test>),
    All(Tests),
    Any(Tests),
}

/// Tests in order. Contracts see the list as `test_list`.
#[cycle(decision)]
#[derive(Debug, Drop)]
pub struct Tests {
    items: Vec<Test>,
}

impl Tests {
    /// A list of these tests. It takes no memory and sets no limit.
    pub fn make(items: Vec<Test>) -> Tests
        ensures { test_list result ≡ items.items }
    {
        Tests { items }
    }

    /// The tests, in order.
    pub fn items(&self) -> &[Test]
        ensures { result.now ≡ test_list self.now }
    {
        &self.items
    }
}

/// The test of a link and what is ignored where it is false.
#[derive(Debug, Drop)]
pub struct Decider {
    pub test: Test,
    pub depth: Depth,
}

/// A link from one item of a graph flow to another.
#[derive(Debug, Drop)]
pub struct Link {
    pub from: Name,
    pub to: Name,
    pub decider: Option<Decider>,
}

/// Links in order. Contracts see the list.
#[derive(Debug, Drop)]
pub struct Links {
    items: Vec<Link>,
}

impl Model for Links {
    ghost use Rattle.std.specs.Coded.{codes};
    ghost use Rattle.std.specs.Prelude.{List};
    ghost use Rattle.tf_flow.specs.contracts.deciders.Test as test;
    ghost use Rattle.tf_flow.specs.declared.deciders.Link.{Link};

    ghost Value = { List Link };

    ghost coded = { Prim.hlevel (codes, test.the_row.coded) };

    ghost view = { λ list. list.items.items };
}

impl Links {
    /// A list of these links. It takes no memory and sets no limit.
    pub fn make(items: Vec<Link>) -> Links
        ensures { result ≡ items.items }
    {
        Links { items }
    }

    /// The links, in order.
    pub fn items(&self) -> &[Link]
        ensures { result.now ≡ self.now }
    {
        &self.items
    }
}
