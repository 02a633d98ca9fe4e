//! The top call over the real files, folder, crew and door.

ghost use Rattle.std.specs.Prelude.{◌≡◌, ◌≤◌, ℕ, List, [], None, Some, IsTrue};
ghost use Rattle.tf_numbers.specs.Numbers.{Rises};
ghost use Rattle.tf_actions.specs.Gives.{Gives, GivesFar};
ghost use Rattle.tf_desk.specs.Calls.{calls_of};
ghost use Rattle.tf_desk.specs.FileDesk.{said_in};
ghost use Rattle.tf_desk.specs.Replay.{IsHonest};
ghost use Rattle.tf_desk.specs.State.{told_as};
ghost use Rattle.tf_commands.specs.Asking.{WasAsked, IsWork, AsksForWork, HasCausesOr, HasNoFault, counts_of};
ghost use Rattle.tf_commands.specs.Behaviour.{Behaviour, HiresAsAsked, MayBeDone, IsComplete, ports_told};
ghost use Rattle.tf_commands.specs.Behaviour.{IsRefused, IsBoardRefused, IsOldBook};
ghost use Rattle.tf_commands.specs.Messages.{IsLogRefused};
ghost use Rattle.tf_commands.specs.declared.auditing.TheConstants.{LOG_REFUSED};
ghost use Rattle.tf_report.specs.declared.statuses.TheConstants.{NO_COMMAND, REFUSED, BOARD_REFUSED, OLD_BOOK};
ghost use Rattle.tf_ports.specs.Ports.{gives_by};
ghost use Rattle.tf_words.specs.Words.{command_of};
ghost use Rattle.tf_words.specs.declared.asked.Asked.{Asked as AnAsked};

use std::alloc::Global;
use std::rt::HostRuntime;
use std::sync::Wait;
use std::thread::Threads;
use tf_commands::{Ended, Outside, ProgramCrew, taskflow};
use tf_desk::{Access, Desk, FileDesk, World};
use tf_ports::{Crew, Door, Folder, SocketDialer, SocketDoor, Sources};
use tf_words::{Sockets, Word};

/// The real desk, whose files are picked for this, folder, crew and door, whose sockets are such, that have made no call.
pub(crate) fn begin<W: World>(
    rt: HostRuntime,
    access: Access,
    sockets: Sockets,
) -> Outside<
    FileDesk<HostRuntime, W>,
    Folder<HostRuntime, W>,
    ProgramCrew<HostRuntime, SocketDialer<HostRuntime>>,
    SocketDoor<HostRuntime>,
>
    ensures no_calls { calls_of result.desk ≡ [] }
    ensures nothing_read { (result.sources.read.items ≡ []) × (result.sources.long.items ≡ []) }
    ensures nobody { (result.crew.hired.items ≡ []) × (result.crew.back.items ≡ []) }
{
    Outside {
        desk: FileDesk::make(rt, access),
        sources: Folder::make(rt),
        crew: ProgramCrew::make(rt, SocketDialer::make(rt, sockets.within)),
        door: SocketDoor::make(rt, sockets.mode),
    }
}

/// Does what the words ask for, at the real desk, folder, crew and door, and answers these and the status. It
/// is the top call, and what it promises is said here of what these noted of their own calls, in any world: of the
/// desk the text that it wrote to standard output, and its files and what a crash may leave of them, as they follow from
/// these calls and from what the files held at first, as long as the calls are honest; of the folder the files of the
/// world, as long as all that was read of it is what they have; of the crew whom it hired, and the orders of the hands
/// that were given back; of the door where it was opened, and what passed over each of its links.
pub(crate) fn obey<R: Threads + Wait + Sync, W: World + Send + Drop>(
    rt: &R,
    alloc: Global,
    words: &[Word],
    outside: Outside<
        FileDesk<HostRuntime, W>,
        Folder<HostRuntime, W>,
        ProgramCrew<HostRuntime, SocketDialer<HostRuntime>>,
        SocketDoor<HostRuntime>,
    >,
) -> Ended<
    FileDesk<HostRuntime, W>,
    Folder<HostRuntime, W>,
    ProgramCrew<HostRuntime, SocketDialer<HostRuntime>>,
    SocketDoor<HostRuntime>,
>
    // The desk tells its files where its calls are honest: each open, each size and each read that the system answered
    // agrees with what the files held at first and what was written since. What it told before the command held too.
    ensures honest { IsHonest W.first (calls_of result.outside.desk)
        → IsTrue (⟦<FileDesk<HostRuntime, W> as Desk>⟧.state result.outside.desk).tells }
    ensures falls { IsTrue (⟦<FileDesk<HostRuntime, W> as Desk>⟧.state result.outside.desk).tells
        → IsTrue (⟦<FileDesk<HostRuntime, W> as Desk>⟧.state outside.desk).tells }

    // A desk that has made no call has the files that the world had at first.
    ensures first { calls_of outside.desk ≡ [] → (name : List ℕ)
        → (⟦<FileDesk<HostRuntime, W> as Desk>⟧.state outside.desk).content.files name ≡ W.first.files name }

    // The text shown is what was written to standard output, whatever the system answered.
    ensures shown { (⟦<FileDesk<HostRuntime, W> as Desk>⟧.state result.outside.desk).shown
        ≡ Some (said_in (calls_of result.outside.desk)) }

    // The way that the command went.
    ensures behaviour { Behaviour ⟦<FileDesk<HostRuntime, W> as Desk>⟧.state (gives_by Gives GivesFar)
        (WasAsked (⟦<FileDesk<HostRuntime, W> as Desk>⟧.state outside.desk)
        (⟦<FileDesk<HostRuntime, W> as Desk>⟧.state result.outside.desk))
        words.now (⟦<Folder<HostRuntime, W> as Sources>⟧.contents result.outside.sources)
        (ports_told ⟦<ProgramCrew<HostRuntime, SocketDialer<HostRuntime>> as Crew>⟧.told
        ⟦<SocketDoor<HostRuntime> as Door>⟧.told outside.crew outside.door)
        (ports_told ⟦<ProgramCrew<HostRuntime, SocketDialer<HostRuntime>> as Crew>⟧.told
        ⟦<SocketDoor<HostRuntime> as Door>⟧.told result.outside.crew result.outside.door)
        outside.desk result.outside.desk result.status }

    // Nobody is hired, or exactly the hands that the words ask for.
    ensures hires { HiresAsAsked words.now
        (⟦<ProgramCrew<HostRuntime, SocketDialer<HostRuntime>> as Crew>⟧.told outside.crew)
        (⟦<ProgramCrew<HostRuntime, SocketDialer<HostRuntime>> as Crew>⟧.told result.outside.crew) }

    // What is asked for is done, unless a count of faults rose, a stop was asked for or memory ran out.
    ensures complete { (command : AnAsked) → command_of words.now ≡ Some command
        → MayBeDone command (⟦<Folder<HostRuntime, W> as Sources>⟧.contents result.outside.sources)
        (told_as (⟦<FileDesk<HostRuntime, W> as Desk>⟧.state result.outside.desk)
        (⟦<FileDesk<HostRuntime, W> as Desk>⟧.state outside.desk))
        → ¬ (WasAsked (⟦<FileDesk<HostRuntime, W> as Desk>⟧.state outside.desk)
        (⟦<FileDesk<HostRuntime, W> as Desk>⟧.state result.outside.desk))
        → (IsWork command → ¬ (Rises (⟦<SocketDoor<HostRuntime> as Door>⟧.faults outside.door)
        (⟦<SocketDoor<HostRuntime> as Door>⟧.faults result.outside.door)))
        → HasNoFault (counts_of (⟦<FileDesk<HostRuntime, W> as Desk>⟧.state outside.desk)
        (⟦<Folder<HostRuntime, W> as Sources>⟧.faults outside.sources)
        (⟦<ProgramCrew<HostRuntime, SocketDialer<HostRuntime>> as Crew>⟧.faults outside.crew))
        (counts_of (⟦<FileDesk<HostRuntime, W> as Desk>⟧.state result.outside.desk)
        (⟦<Folder<HostRuntime, W> as Sources>⟧.faults result.outside.sources)
        (⟦<ProgramCrew<HostRuntime, SocketDialer<HostRuntime>> as Crew>⟧.faults result.outside.crew))
        → IsComplete command result.status }

    // Only a worker and the service of a board have to do with the door.
    ensures aside { ¬ (AsksForWork words.now)
        → ⟦<SocketDoor<HostRuntime> as Door>⟧.told result.outside.door
        ≡ ⟦<SocketDoor<HostRuntime> as Door>⟧.told outside.door }

    // Status 2 comes only where the words are no command, 4 where the file gives no plan to run, 15 where the board
    // refuses it, 16 where the book's file is one of the older format, and 17 where the log can't be one of the plan.
    ensures no_command { result.status ≡ NO_COMMAND → command_of words.now ≡ None }
    ensures refused { result.status ≡ REFUSED
        → IsRefused words.now (⟦<Folder<HostRuntime, W> as Sources>⟧.contents result.outside.sources) }
    ensures board_refused { result.status ≡ BOARD_REFUSED → IsBoardRefused words.now
        (told_as (⟦<FileDesk<HostRuntime, W> as Desk>⟧.state result.outside.desk)
        (⟦<FileDesk<HostRuntime, W> as Desk>⟧.state outside.desk)) }
    ensures old_book { result.status ≡ OLD_BOOK → IsOldBook words.now
        (told_as (⟦<FileDesk<HostRuntime, W> as Desk>⟧.state result.outside.desk)
        (⟦<FileDesk<HostRuntime, W> as Desk>⟧.state outside.desk)) }
    ensures log_refused { result.status ≡ LOG_REFUSED
        → IsLogRefused words.now (⟦<Folder<HostRuntime, W> as Sources>⟧.contents result.outside.sources) }

    // A file can't be read, the disk fails, a text can't be said, no hands are hired and a door fails only where the
    // count of such faults rose; no count falls, nor that of stops that were asked for.
    ensures door { ⟦<SocketDoor<HostRuntime> as Door>⟧.faults outside.door
        ≤ ⟦<SocketDoor<HostRuntime> as Door>⟧.faults result.outside.door }
    ensures causes { HasCausesOr
        (AsksForWork words.now × Rises (⟦<SocketDoor<HostRuntime> as Door>⟧.faults outside.door)
        (⟦<SocketDoor<HostRuntime> as Door>⟧.faults result.outside.door))
        result.status
        (counts_of (⟦<FileDesk<HostRuntime, W> as Desk>⟧.state outside.desk)
        (⟦<Folder<HostRuntime, W> as Sources>⟧.faults outside.sources)
        (⟦<ProgramCrew<HostRuntime, SocketDialer<HostRuntime>> as Crew>⟧.faults outside.crew))
        (counts_of (⟦<FileDesk<HostRuntime, W> as Desk>⟧.state result.outside.desk)
        (⟦<Folder<HostRuntime, W> as Sources>⟧.faults result.outside.sources)
        (⟦<ProgramCrew<HostRuntime, SocketDialer<HostRuntime>> as Crew>⟧.faults result.outside.crew)) }
{
    taskflow(rt, alloc, words, outside)
}
