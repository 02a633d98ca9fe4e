ghost use Rattle.std.specs.Prelude.{◌≡◌};
ghost use Rattle.tf_flow.specs.declared.faults.PlanFault.TheVariants.{Memory as OutOfMemory};

use tf_values::{Memory, Name};

/// A limit of a plan, in the order in which they are looked at.
#[derive(Clone, Copy, Debug, PartialEq, Eq)]
pub enum Limit {
    /// Flows in one another, the root counted: 16.
    Nesting,
    /// Tasks and retry controllers: 1,000.
    Atoms,
    /// Flows, the root included: 500.
    Flows,
    /// Links of all flows: 4,000.
    Links,
    /// Arguments of an atom: 64.
    Arguments,
    /// Injects of an atom: 64.
    Injects,
    /// Names that an atom provides: 64.
    Provided,
    /// Words of a task, and words that revert it: 64 each.
    Words,
    /// Values of the store: 256.
    Store,
    /// Tests in one another: 16.
    Test,
    /// Comparisons of a decider: 64.
    Comparisons,
    /// Bytes of the plan's byte form: 1,048,576.
    Plan,
}

/// Why flows make no plan.
#[derive(Clone, Copy, Debug, PartialEq, Eq)]
pub enum PlanFault {
    /// This limit is passed, with this count: the tree's, that of the first atom or decider in tree
    /// order that passes it, or the plan's bytes.
    TooLarge { which: Limit, n: u64 },
    /// There is no atom.
    Empty,
    /// The first name, in tree order, that an earlier flow or atom has already.
    Duplicate(Name),
    /// The first end of a link that names no item of its flow.
    Unknown(Name),
    /// The first flow that has links and is no graph, links one pair twice, or has a decider at a
    /// nested flow.
    BadLink(Name),
    /// The first atom with too few arguments, with wrong words, with an argument, an inject or a
    /// provided name twice, with attempts outside 1 to 1,000, or parameterized without an argument
    /// `values`; the root where the store has a symbol twice.
    BadAtom(Name),
    /// Memory ran out. It says nothing of the flows.
    Memory,
}

impl From<Memory> for PlanFault {
    ghost from_gives = { λ _ fault. fault ≡ OutOfMemory };

    fn from(_fault: Memory) -> PlanFault {
        PlanFault::Memory
    }
}
