ghost use Rattle.std.specs.Prelude.{◌≡◌, ◌≤◌, None, Some, IsTrue};
ghost use Rattle.tf_desk.specs.State.{told_as};
ghost use Rattle.tf_numbers.specs.Numbers.{Rises};
ghost use Rattle.tf_commands.specs.Asking.{IsWithin, want_of, IsWork, AsksForWork, HasCausesOr, HasNoFault, WasAsked, counts_of};
ghost use Rattle.tf_commands.specs.Messages.{IsLogRefused};
ghost use Rattle.tf_words.specs.Words.{command_of};
ghost use Rattle.tf_commands.specs.Behaviour.{Behaviour, ports_told, HiresAsAsked, HiresAsWanted, Obeys, IsRefused, IsBoardRefused, IsOldBook, MayBeDone, IsComplete};
ghost use Rattle.tf_commands.specs.declared.auditing.TheConstants.{LOG_REFUSED};
ghost use Rattle.tf_ports.specs.Ports.{gives_by};
ghost use Rattle.tf_report.specs.declared.statuses.TheConstants.{BOARD_REFUSED, OLD_BOOK};
ghost use Rattle.tf_words.specs.declared.asked.Asked.{Asked as AnAsked};

use crate::auditing::audit_file;
use crate::boards::on_board;
use crate::checking::check_file;
use crate::demoing::demo_book;
use crate::detailing::list_details;
use crate::messages::USAGE;
use crate::reading::Source;
use crate::recording::run_file;
use crate::resetting::reset_book;
use crate::resuming::resume_book;
use crate::running::{Over, Request};
use crate::showing::show_book;
use crate::trying::try_file;
use crate::working::work;
use std::alloc::Global;
use std::sync::Wait;
use std::thread::Threads;
use tf_board_service::serve_command;
use tf_desk::Desk;
use tf_migration::migrate_command;
use tf_ports::{Crew, Door, Sources};
use tf_report::{NO_COMMAND, OUT_OF_MEMORY, REFUSED, close};
use tf_runner::conduct_command;
use tf_words::{Asked, Word, conductors_are_within, demo_numbers_are_within, read_words};

/// What a command reaches beside its words: the desk, the sources, the crew that hires hands, and the door at
/// which a worker listens.
#[derive(Drop)]
pub struct Outside<K, S, W, L> {
    pub desk: K,
    pub sources: S,
    pub crew: W,
    pub door: L,
}

/// What a command leaves: the outside, and its status.
#[derive(Drop)]
pub struct Ended<K, S, W, L> {
    pub outside: Outside<K, S, W, L>,
    pub status: u8,
}

/// Does what the words ask for, and answers the outside and the status. Where several hands run a flow, they are threads
/// of the runtime.
pub fn taskflow<K: Desk + Send, S: Sources, W: Crew, L: Door, R: Threads + Wait + Sync>(
    rt: &R,
    alloc: Global,
    words: &[Word],
    outside: Outside<K, S, W, L>,
) -> Ended<K, S, W, L>
    // The way that the command went: which command the words are, which plan the sources' bytes give or
    // why they give none, what the book held and holds, which hands were hired, at which address a worker's door was
    // opened and how each of its links was served, what was recorded, what was shown, what a crash may leave, and the
    // status.
    ensures behaviour { Behaviour K.state (gives_by W.Hand.gives W.Far.gives)
        (WasAsked (K.state outside.desk) (K.state result.outside.desk)) words.now (S.contents result.outside.sources)
        (ports_told W.told L.told outside.crew outside.door)
        (ports_told W.told L.told result.outside.crew result.outside.door) outside.desk result.outside.desk
        result.status }

    // Status 2 comes only where the words are no command.
    ensures no_command { result.status ≡ NO_COMMAND → command_of words.now ≡ None }

    // Status 4 comes only where the file is too long or gives no plan to run, or none up to the target that is named.
    ensures refused { result.status ≡ REFUSED → IsRefused words.now (S.contents result.outside.sources) }

    // Status 15 comes only where the words are a command on a board which refuses it, by the commands that its file has.
    ensures board_refused { result.status ≡ BOARD_REFUSED → IsBoardRefused words.now
        (told_as (K.state result.outside.desk) (K.state outside.desk)) }

    // Status 16 comes only where the words are a command on a book whose file is one of the older format.
    ensures old_book { result.status ≡ OLD_BOOK → IsOldBook words.now
        (told_as (K.state result.outside.desk) (K.state outside.desk)) }

    // Status 17 comes only where the words are an audit, whose flow file gives a plan, and whose log is too long or has a
    // line that can't be in a run of that plan.
    ensures log_refused { result.status ≡ LOG_REFUSED → IsLogRefused words.now (S.contents result.outside.sources) }

    // A file that gives a plan is run to its end, or said to be in order, a flow that a book holds is resumed to its
    // end, or shown, or put back, the details of a book are listed, a book of the older format that holds a flow is
    // carried over into an unborn file, a log none of whose lines can't be is said to be legal, and a command is done on
    // a board that doesn't refuse it, unless a count of faults rose (that of the door for a worker and a board's service
    // alone), a stop was asked for or memory ran out; 13 comes only as the behaviour says, and 12 only where there is a
    // limit of entries.
    ensures complete { (command : AnAsked) → command_of words.now ≡ Some command
        → MayBeDone command (S.contents result.outside.sources)
        (told_as (K.state result.outside.desk) (K.state outside.desk))
        → ¬ (WasAsked (K.state outside.desk) (K.state result.outside.desk))
        → (IsWork command → ¬ (Rises (L.faults outside.door) (L.faults result.outside.door)))
        → HasNoFault (counts_of (K.state outside.desk) (S.faults outside.sources) (W.faults outside.crew))
        (counts_of (K.state result.outside.desk) (S.faults result.outside.sources) (W.faults result.outside.crew))
        → IsComplete command result.status }

    // Nobody is hired, or exactly the hands that the words ask for, and these are where something was recorded, as the behaviour
    // says.
    ensures hires { HiresAsAsked words.now (W.told outside.crew) (W.told result.outside.crew) }

    // Only a worker and the service of a board have to do with the door.
    ensures aside { ¬ (AsksForWork words.now) → L.told result.outside.door ≡ L.told outside.door }

    // What the desk tells behind the command it told before it. The clauses above ask for what it tells behind it, of
    // what was before too: an answer of the system may show that what was told of a file isn't so.
    ensures falls { IsTrue (K.state result.outside.desk).tells → IsTrue (K.state outside.desk).tells }

    // A file can't be read, the disk fails, a text can't be said, no hands are hired and a door fails only where
    // the count of such faults rose; no count falls, nor that of stops that were asked for.
    ensures door { L.faults outside.door ≤ L.faults result.outside.door }
    ensures causes { HasCausesOr (AsksForWork words.now × Rises (L.faults outside.door) (L.faults result.outside.door))
        result.status (counts_of (K.state outside.desk) (S.faults outside.sources) (W.faults outside.crew))
        (counts_of (K.state result.outside.desk) (S.faults result.outside.sources) (W.faults result.outside.crew)) }
{
    let Outside {
        desk,
        mut sources,
        mut crew,
        mut door,
    } = outside;
    let Over { desk, status } = answer(rt, alloc, words, desk, &mut sources, &mut crew, &mut door);
    Ended {
        outside: Outside {
            desk,
            sources,
            crew,
            door,
        },
        status,
    }
}

/// Does what the words ask for, and answers the desk and the status.
#[tactic(auto, using(crate::proofs::CauseLemmas::widened))]
fn answer<K: Desk + Send, S: Sources, W: Crew, L: Door, R: Threads + Wait + Sync>(
    rt: &R,
    alloc: Global,
    words: &[Word],
    mut desk: K,
    sources: &mut S,
    crew: &mut W,
    door: &mut L,
) -> Over<K>
    ensures behaviour { Behaviour K.state (gives_by W.Hand.gives W.Far.gives)
        (WasAsked (K.state desk) (K.state result.desk)) words.now
        (S.contents sources.new) (ports_told W.told L.told crew.old door.old)
        (ports_told W.told L.told crew.new door.new) desk result.desk result.status }
    ensures hires { HiresAsAsked words.now (W.told crew.old) (W.told crew.new) }
    ensures aside { ¬ (AsksForWork words.now) → L.told door.new ≡ L.told door.old }
    ensures falls { IsTrue (K.state result.desk).tells → IsTrue (K.state desk).tells }
    ensures door { L.faults door.old ≤ L.faults door.new }
    ensures causes { HasCausesOr (AsksForWork words.now × Rises (L.faults door.old) (L.faults door.new)) result.status
        (counts_of (K.state desk) (S.faults sources.old) (W.faults crew.old))
        (counts_of (K.state result.desk) (S.faults sources.new) (W.faults crew.new)) }
{
    let Ok(found) = read_words(alloc, words) else {
        return Over {
            desk,
            status: OUT_OF_MEMORY,
        };
    };
    demo_numbers_are_within();
    conductors_are_within();
    match found {
        Some(asked) => obey(rt, alloc, asked, desk, sources, crew, door),
        None => {
            let status = close(USAGE, NO_COMMAND, &mut desk);
            Over { desk, status }
        }
    }
}

/// Does what is asked for, and answers the desk and the status.
#[tactic(auto, using(crate::proofs::CauseLemmas::widened))]
fn obey<K: Desk + Send, S: Sources, W: Crew, L: Door, R: Threads + Wait + Sync>(
    rt: &R,
    alloc: Global,
    asked: Asked,
    mut desk: K,
    sources: &mut S,
    crew: &mut W,
    door: &mut L,
) -> Over<K>
    requires within { IsWithin asked }
    ensures obeys { Obeys K.state (gives_by W.Hand.gives W.Far.gives)
        (WasAsked (K.state desk) (K.state result.desk)) asked
        (S.contents sources.new) (ports_told W.told L.told crew.old door.old)
        (ports_told W.told L.told crew.new door.new) desk result.desk result.status }
    ensures hires { HiresAsWanted (want_of asked) (W.told crew.old) (W.told crew.new) }
    ensures aside { ¬ (IsWork asked) → L.told door.new ≡ L.told door.old }
    ensures falls { IsTrue (K.state result.desk).tells → IsTrue (K.state desk).tells }
    ensures door { L.faults door.old ≤ L.faults door.new }
    ensures causes { HasCausesOr (IsWork asked × Rises (L.faults door.old) (L.faults door.new)) result.status
        (counts_of (K.state desk) (S.faults sources.old) (W.faults crew.old))
        (counts_of (K.state result.desk) (S.faults sources.new) (W.faults crew.new)) }
{
    match asked {
        Asked::Try {
            file,
            sets,
            defer,
            want,
            target,
        } => {
            let source = Source {
                file,
                sets,
                defer,
                target,
            };
            let request = Request {
                want,
                quiet: false,
                limit: None,
            };
            try_file(rt, alloc, source, &request, desk, sources, crew)
        }
        Asked::Run {
            file,
            book,
            sets,
            defer,
            want,
            stop_after,
            target,
        } => {
            let source = Source {
                file,
                sets,
                defer,
                target,
            };
            let request = Request {
                want,
                quiet: false,
                limit: stop_after,
            };
            run_file(rt, alloc, source, &book, &request, desk, sources, crew)
        }
        Asked::Resume {
            book,
            name,
            want,
            stop_after,
        } => {
            let request = Request {
                want,
                quiet: false,
                limit: stop_after,
            };
            resume_book(rt, alloc, &book, &name, &request, desk, crew)
        }
        Asked::Show { book, name } => show_book(alloc, &book, &name, desk),
        Asked::Reset { book, name } => reset_book(alloc, &book, &name, desk),
        Asked::Details { book } => list_details(alloc, &book, desk),
        Asked::Migrate { old, new } => {
            let (desk, status) = migrate_command(alloc, &old, &new, desk);
            Over { desk, status }
        }
        Asked::Check { file, sets, target } => {
            let source = Source {
                file,
                sets,
                defer: false,
                target,
            };
            let status = check_file(alloc, source, &mut desk, sources);
            Over { desk, status }
        }
        Asked::Audit {
            file,
            log,
            sets,
            defer,
        } => {
            let source = Source {
                file,
                sets,
                defer,
                target: None,
            };
            let status = audit_file(alloc, source, &log, &mut desk, sources);
            Over { desk, status }
        }
        Asked::Demo {
            seed,
            size,
            book,
            hands,
        } => demo_book(rt, alloc, seed, size, &book, hands, desk, crew),
        Asked::Conduct {
            board,
            owner,
            hands,
        } => {
            let (desk, status) = conduct_command(
                rt, alloc, &board, &owner, hands, desk, sources, crew,
            );
            Over { desk, status }
        }
        Asked::Serve {
            board,
            address,
            sessions,
        } => {
            let (desk, status) = serve_command(rt, alloc, &board, &address, sessions, desk, door);
            Over { desk, status }
        }
        Asked::Worker { address, sessions } => {
            let status = work(alloc, &address, sessions, &mut desk, crew, door);
            Over { desk, status }
        }
        Asked::Board { board, request } => on_board(alloc, &board, request, desk),
    }
}
