ghost use Rattle.std.specs.Prelude.{◌≡◌, ◌↔◌, ℕ, ◌≤◌, List, length, Option, IfOk, OnErr, IsErrOf};
ghost use Rattle.tf_numbers.specs.Numbers.{Rises};
ghost use Rattle.tf_actions.specs.Gives.{told_with};
ghost use Rattle.tf_ports.specs.declared.programs.Done.{Done as ADone};
ghost use Rattle.tf_ports.specs.declared.programs.ProgramRun.{ProgramRun as ARun};

use std::alloc::Global;
use std::marker::Model;
use tf_values::{Memory, Text, Texts};

/// The most bytes that are kept of a program's output: one more than a text may have.
pub const OUTPUT_LIMIT: usize = 65_537;

/// What a program wrote. Contracts see the list of its bytes.
#[derive(Debug, Drop)]
pub struct Output {
    items: Vec<u8>,
}

impl Model for Output {
    ghost use Rattle.std.specs.Prelude.{List, ℕ};

    ghost Value = { List ℕ };

    ghost view = { λ output. output.items.items };
}

impl Output {
    /// An output of these bytes. It takes no memory and sets no limit.
    pub fn make(items: Vec<u8>) -> Output
        ensures { result ≡ items.items }
    {
        Output { items }
    }

    /// The bytes, in order.
    pub fn items(&self) -> &[u8]
        ensures { result.now ≡ self.now }
    {
        &self.items
    }
}

/// How a program ended: its status, -1 where it ended without one, and what it wrote.
#[derive(Debug, Drop)]
pub struct Done {
    pub status: i32,
    pub out: Output,
}

/// A program that was run, with its arguments.
#[derive(Debug, Drop)]
pub struct ProgramRun {
    pub program: Text,
    pub args: Texts,
}

impl ProgramRun {
    /// The run of this program with equal arguments.
    pub fn make(alloc: Global, program: &Text, args: &Texts) -> Result<ProgramRun, Memory>
        ensures { IfOk result (λ run. run ≡ record { program = program.now; args = args.now }) }
    {
        Ok(ProgramRun {
            program: program.copy(alloc)?,
            args: args.copy(alloc)?,
        })
    }
}

/// Why a program gave nothing: it couldn't be run, or memory ran out.
#[derive(Clone, Copy, Debug, PartialEq, Eq)]
pub enum SpawnFault {
    Failed,
    Memory,
}

/// What runs programs.
pub trait Spawner: Drop {
    /// How many faults there were. The count never falls, and stands still at the greatest u64.
    ghost faults: { Self → ℕ };

    /// How a program with its arguments may end. No call changes it.
    ghost answers: { Self → List ℕ → List (List ℕ) → ADone → Type 0 };

    /// The programs that were run, each with how it ended, in order, where the spawner keeps them.
    ghost ran: { Self → Option (List (ARun × ADone)) };

    /// Runs the program of that name, and keeps at most 65,537 bytes of its output. `Failed` comes only
    /// where the count of faults rose.
    fn run(&mut self, alloc: Global, program: &Text, args: &Texts) -> Result<Done, SpawnFault>
        ensures answered { IfOk result (λ done. answers self.old program.now args.now done) }
        ensures short { IfOk result (λ done. length done.out ≤ OUTPUT_LIMIT) }
        ensures ran { IfOk result (λ done. ran self.new
            ≡ told_with (ran self.old) (record { program = program.now; args = args.now }, done)) }
        ensures not_ran { OnErr result (ran self.new ≡ ran self.old) }
        ensures cause { IsErrOf result SpawnFault.Failed → Rises (faults self.old) (faults self.new) }
        ensures same { (name : List ℕ) (words : List (List ℕ)) (done : ADone)
            → (answers self.new name words done ↔ answers self.old name words done) }
        ensures no_fall { faults self.old ≤ faults self.new };
}
