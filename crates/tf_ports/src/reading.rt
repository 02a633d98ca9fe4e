ghost use Rattle.std.specs.Prelude.{ℕ, ◌≤◌, length, IfOk, IsErrOf};
ghost use Rattle.tf_numbers.specs.Numbers.{Rises};
ghost use Rattle.tf_ports.specs.Ports.{Contents, GivesBytes, PassesLimit, TellsStill};

use std::alloc::Global;
use tf_values::Text;

/// The most bytes that are read from a source.
pub const SOURCE_LIMIT: usize = 262_144;

/// Why a source wasn't read: it couldn't be, it has more than 262,144 bytes, or memory ran out.
#[derive(Clone, Copy, Debug, PartialEq, Eq)]
pub enum SourceFault {
    Read,
    TooLong,
    Memory,
}

/// What is read by name, as flow files are.
pub trait Sources: Drop {
    /// The bytes under each name, where the sources tell them. A call changes them at no name; but sources that learn by it
    /// that what they told can't be tell nothing from then on.
    ghost contents: { Self → Contents };

    /// How many faults there were. The count never falls, and stands still at the greatest u64.
    ghost faults: { Self → ℕ };

    /// All bytes of the source of that name. `Read` comes only where the count of faults rose, and
    /// `TooLong` exactly where the source has more than 262,144 bytes.
    fn read_all(&mut self, alloc: Global, name: &Text) -> Result<Vec<u8>, SourceFault>
        ensures whole { IfOk result (λ bytes. GivesBytes (contents self.new) name.now bytes.items) }
        ensures short { IfOk result (λ bytes. length bytes.items ≤ SOURCE_LIMIT) }
        ensures too_long { IsErrOf result SourceFault.TooLong → PassesLimit (contents self.new) name.now }
        ensures cause { IsErrOf result SourceFault.Read → Rises (faults self.old) (faults self.new) }
        ensures still { TellsStill (contents self.old) (contents self.new) }
        ensures no_fall { faults self.old ≤ faults self.new };

    /// The same of a source that has all its bytes from the start, as a file on a disk has: any other, as a pipe that
    /// another process fills, isn't waited for, and is one that can't be read.
    fn read_stored(&mut self, alloc: Global, name: &Text) -> Result<Vec<u8>, SourceFault>
        ensures whole { IfOk result (λ bytes. GivesBytes (contents self.new) name.now bytes.items) }
        ensures short { IfOk result (λ bytes. length bytes.items ≤ SOURCE_LIMIT) }
        ensures too_long { IsErrOf result SourceFault.TooLong → PassesLimit (contents self.new) name.now }
        ensures cause { IsErrOf result SourceFault.Read → Rises (faults self.old) (faults self.new) }
        ensures still { TellsStill (contents self.old) (contents self.new) }
        ensures no_fall { faults self.old ≤ faults self.new };
}
