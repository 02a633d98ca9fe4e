ghost use Rattle.std.specs.Prelude.{◌≡◌, false, IfErr};
ghost use Rattle.tf_desk.specs.State.{Says, Asks};
ghost use Rattle.tf_journal.specs.Format.{IsBody, IsReady};
ghost use Rattle.tf_journal.specs.declared.title.Title.TheVariants.{Book2 as book_title};
ghost use Rattle.tf_book.specs.Turns.{IsAnswered};
ghost use Rattle.tf_book.specs.SessionInvariant.{said_of, IsSaid, FailsToSay, Logged};

use crate::faults::Halt;
use tf_desk::Desk;
use tf_journal::{AppendFault, Journal};

/// Says a line, unless the book is quiet.
pub fn say_line<K: Desk>(journal: &mut Journal<K>, line: &[u8], quiet: bool) -> Result<(), Halt>
    ensures same { journal.new ≡ record journal.old { desk = journal.new.desk } }
    ensures text { IsSaid (K.state journal.old.desk).shown (said_of quiet line.now)
        (K.state journal.new.desk).shown result }
    ensures says { Says (said_of quiet line.now) (K.state journal.old.desk) (K.state journal.new.desk) }
    ensures fails { IfErr result (λ why. FailsToSay why (K.state journal.old.desk) (K.state journal.new.desk)) }
{
    if quiet {
        return Ok(());
    }
    match journal.desk().say(line) {
        Ok(()) => Ok(()),
        Err(_) => Err(Halt::Out),
    }
}

/// Asks the desk whether a stop is asked for.
pub fn ask<K: Desk>(journal: &mut Journal<K>) -> bool
    ensures same { journal.new ≡ record journal.old { desk = journal.new.desk } }
    ensures answered { IsAnswered result (K.state journal.old.desk).asks (K.state journal.new.desk).asks }
    ensures asks { Asks (K.state journal.old.desk) (K.state journal.new.desk) }
{
    journal.desk().stop_asked()
}

/// Appends a body, and then says its line, unless the book is quiet. The line is said only where the append
/// answered `Ok`, so that no crash takes away what was shown. It takes no memory.
#[tactic(auto, using(crate::proofs::LogLemmas::off_same))]
pub fn log<K: Desk>(
    journal: &mut Journal<K>,
    body: &[u8],
    line: &[u8],
    quiet: bool,
) -> Result<(), Halt>
    requires ready { IsReady K.state journal.old }
    requires sound { journal.old.halted ≡ false }
    requires title { journal.old.title ≡ book_title }
    requires body { IsBody book_title body.now }
    ensures logged { Logged K.state body.now (said_of quiet line.now) journal.old journal.new result }
{
    match journal.append(body) {
        Ok(()) => say_line(journal, line, quiet),
        Err(AppendFault::Disk) => Err(Halt::Disk),
        Err(AppendFault::Full { size, need }) => Err(Halt::Full { size, need }),
        Err(AppendFault::Halted) => unreachable!(),
    }
}
