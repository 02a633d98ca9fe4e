ghost use Rattle.std.specs.Prelude.{◌≡◌, ◌≢◌, ℕ, List, [], true, false, IsTrue, IfOk, IfErr};
ghost use Rattle.tf_desk.specs.State.{bytes_now, told_as, Trusts, Rests, GoesOn};
ghost use Rattle.tf_journal.specs.Format.{is_unborn, unborn, journal_bytes, IsAtRest, IsReady, LeavesBirth};
ghost use Rattle.tf_journal.specs.declared.title.Title.TheVariants.{Jobs as jobs_title};
ghost use Rattle.tf_records.specs.Replaying.{FailsToReadBack};
ghost use Rattle.tf_board.specs.Board.{board_in, bodies_of, IsRefusedCommand, desk_loaded, IsReadyBoard, IsLoadedBoard, FailsToMake, FailsToLoad, LeavesLoad, IsPicked, Opens};

use super::Board;
use crate::kept::Kept;
use crate::recovering::read_commands;
use std::alloc::Global;
use tf_desk::Desk;
use tf_journal::{Journal, JournalFault, LoadFault, Title};

impl<K: Desk> Board<K> {
    /// Reads a journal that was loaded, command by command.
    fn read(alloc: Global, mut journal: Journal<K>) -> Result<Board<K>, (K, LoadFault)>
        requires title { journal.title ≡ jobs_title }
        requires sound { journal.halted ≡ false }
        requires in_file { journal.volatile ≡ false }
        requires ready { IsReady K.state journal }
        ensures fresh { IfOk result IsReadyBoard }
        ensures loads { IfOk result (λ board. IsTrue (K.state board.journal.desk).tells → (held : List (List ℕ))
            → IsAtRest K.state journal held → held ≡ bodies_of board.past) }
        ensures at_rest { IfOk result (λ board. IsTrue (K.state board.journal.desk).tells
            → IsAtRest K.state board.journal (bodies_of board.past)) }
        ensures fails { IfErr result (λ back. FailsToReadBack K.state IsRefusedCommand back.1 journal back.0) }
        ensures rests { Trusts Rests (K.state journal.desk) (K.state (desk_loaded result)) }
    {
        match read_commands(alloc, &mut journal) {
            Ok(kept) => Ok(Board {
                alloc,
                journal,
                kept,
            }),
            Err(fault) => Err((journal.into_desk(), fault)),
        }
    }

    /// Makes a board without a command in the picked file, which has to be unborn.
    fn create(alloc: Global, desk: K) -> Result<Board<K>, (K, LoadFault)>
        requires { IsTrue (K.state desk).tells → is_unborn jobs_title (bytes_now (K.state desk)) ≡ true }
        ensures fresh { IfOk result IsReadyBoard }
        ensures none { IfOk result (λ board. board.past ≡ []) }
        ensures born { IfOk result (λ board. IsTrue (K.state board.journal.desk).tells
            → bytes_now (K.state board.journal.desk) ≡ journal_bytes jobs_title []) }
        ensures at_rest { IfOk result (λ board. IsTrue (K.state board.journal.desk).tells
            → IsAtRest K.state board.journal []) }
        ensures fails { IfErr result (λ back. FailsToMake back.1 (K.state desk) (K.state back.0)) }
        ensures goes { Trusts (GoesOn (LeavesBirth jobs_title (K.state desk).shown))
            (K.state desk) (K.state (desk_loaded result)) }
    {
        match Journal::create(alloc, desk, Title::Jobs) {
            Ok(journal) => Ok(Board {
                alloc,
                journal,
                kept: Kept::none(alloc),
            }),
            Err((desk, JournalFault::Disk)) => Err((desk, LoadFault::Disk)),
            Err((desk, _)) => Err((desk, LoadFault::Memory)),
        }
    }

    /// Reads the picked file as a board, command by command, and makes one without a command where the file is
    /// unborn. `NotABook` comes only where the file is no journal of a board, or where one of its bodies can't
    /// come: it is no command, or one that is refused after those before it; the offset and the byte are those of
    /// the body's first byte. `Disk` comes only where the count of disk faults rose. A file that isn't unborn isn't
    /// changed, and a crash inside leaves one that is so or a board without a command. Where the file was just
    /// picked, what a crash since then leaves is told too. All that is told of the file is told as far as the desk
    /// tells after the call.
    pub fn load(alloc: Global, desk: K) -> Result<Board<K>, (K, LoadFault)>
        ensures loaded { IfOk result (λ board. IsLoadedBoard K.state
            (told_as (K.state board.journal.desk) (K.state desk)) board) }
        ensures fails { IfErr result (λ back. FailsToLoad back.1
            (told_as (K.state back.0) (K.state desk)) (K.state back.0)) }
        ensures unchanged { IsTrue (K.state (desk_loaded result)).tells → board_in (bytes_now (K.state desk)) ≢ unborn
            → Trusts Rests (K.state desk) (K.state (desk_loaded result)) }
        ensures goes { Trusts (GoesOn (LeavesLoad (K.state desk))) (K.state desk) (K.state (desk_loaded result)) }
        ensures opens { (name : List ℕ) (entry : K)
            → IsPicked name (told_as (K.state desk) (K.state entry)) (K.state desk)
            → Opens K.state name (told_as (K.state (desk_loaded result)) (K.state entry)) result }
    {
        match Journal::load(alloc, desk, Title::Jobs) {
            Ok(journal) => Board::read(alloc, journal),
            Err((desk, fault)) => match fault {
                JournalFault::Unborn => Board::create(alloc, desk),
                JournalFault::Disk => Err((desk, LoadFault::Disk)),
                JournalFault::Memory => Err((desk, LoadFault::Memory)),
                JournalFault::NotABook { offset, byte } => {
                    Err((desk, LoadFault::NotABook { offset, byte }))
                }
                JournalFault::Old => unreachable!(),
            },
        }
    }
}
