//! The command that lets conductors work on a board.
ghost use Rattle.std.specs.Prelude.{◌≡◌, ◌≢◌, ◌≤◌, ℕ, List, [], length, vec_capacity, vec_len, IsTrue};
ghost use Rattle.tf_desk.specs.State.{told_as};
ghost use Rattle.std.specs.List.{All};
ghost use Rattle.std.specs.Arc.{arc_value};
ghost use Rattle.tf_board.specs.Board.{IsOpened, IsReadyBoard};
ghost use Rattle.tf_board.specs.Does.{HasCauses};
ghost use Rattle.tf_conductor.specs.Rounds.{AreDifferent, AreNamedBy};
ghost use Rattle.tf_numbers.specs.Numbers.{Rises};
ghost use Rattle.tf_ports.specs.Ports.{Contents};
ghost use Rattle.tf_runner.specs.Conducts.{Conducts, WorksOff};
ghost use Rattle.tf_runner.specs.Reading.{AreReadFrom, HaveFiles};

use crate::files::JobFile;
use crate::hiring::{Ready, hands_of, prepare, runners_of};
use crate::reading::read_files;
use crate::saying::conclude;
use std::alloc::Global;
use std::sync::Wait;
use std::thread::Threads;
use tf_actions::Performer;
use tf_board::{Board, end_unopened, end_with, open};
use tf_conductor::conduct;
use tf_desk::Desk;
use tf_ports::{Crew, Hands, PortFault, SourceFault, Sources, Want};
use tf_report::{CANNOT_HIRE, CANNOT_READ, OUT_OF_MEMORY, UNHIRED, UNREAD};
use tf_shared_board::SharedBoard;
use tf_values::{Name, Text};

/// Opens the board of that name, reads the flow files of its jobs that nobody has, hires so many hands of this process, and
/// lets as many conductors work, whose owners are named by the word and their numbers from 0. Then the hands are given back,
/// and the lines of the calls are said.
pub fn conduct_command<K: Desk + Send, S: Sources, W: Crew, R: Threads + Wait + Sync>(
    rt: &R,
    alloc: Global,
    name: &Text,
    word: &Name,
    hands: u8,
    desk: K,
    sources: &mut S,
    crew: &mut W,
) -> (K, u8)
    requires short { length word.now ≤ 61 }
    requires many { (1 ≤ hands) × (hands ≤ 64) }

    // The way that it went: what the board had, which hands were hired and given back, which calls the conductors made, how
    // each job's run may have ended by the files as the sources then tell them, what was shown, why the board was halted, what it
    // has, and what a crash may leave.
    ensures conducts { Conducts W.Hand.gives (S.contents sources.new) (W.told crew.old) (W.told crew.new) name.now
        word.now hands (told_as (K.state result.0) (K.state desk)) (K.state result.0) result.1 }

    // A file can't be read, the disk fails, a text can't be said and no hand is hired only where the count of such faults
    // rose; no count falls, and nobody is asked for a stop.
    ensures causes { HasCauses (told_as (K.state result.0) (K.state desk)) (K.state result.0) result.1 }

    // What the desk tells behind the command it told before it.
    ensures falls { IsTrue (K.state result.0).tells → IsTrue (K.state desk).tells }
    ensures unread { result.1 ≡ UNREAD → Rises (S.faults sources.old) (S.faults sources.new) }
    ensures unhired { result.1 ≡ UNHIRED → Rises (W.faults crew.old) (W.faults crew.new) }
    ensures no_fall { (S.faults sources.old ≤ S.faults sources.new) × (W.faults crew.old ≤ W.faults crew.new) }
{
    match open(alloc, desk, name) {
        Ok(board) => read_and_conduct(rt, alloc, board, word, hands, sources, crew),
        Err((desk, fault)) => end_unopened(alloc, desk, fault),
    }
}

/// Reads the flow files of the jobs, hires the hands, and goes on with them.
fn read_and_conduct<K: Desk + Send, S: Sources, W: Crew, R: Threads + Wait + Sync>(
    rt: &R,
    alloc: Global,
    board: Board<K>,
    word: &Name,
    hands: u8,
    sources: &mut S,
    crew: &mut W,
) -> (K, u8)
    requires short { length word.now ≤ 61 }
    requires many { (1 ≤ hands) × (hands ≤ 64) }
    requires ready { IsReadyBoard board }
    ensures conducts { (name : List ℕ) (entry seen : K) → IsOpened K.state name
        (told_as (K.state seen) (K.state entry)) board
        → Conducts W.Hand.gives (S.contents sources.new) (W.told crew.old) (W.told crew.new) name word.now hands
        (told_as (K.state seen) (K.state entry)) (K.state result.0) result.1 }
    ensures causes { (name : List ℕ) (entry seen : K) → IsOpened K.state name
        (told_as (K.state seen) (K.state entry)) board
        → HasCauses (told_as (K.state seen) (K.state entry)) (K.state result.0) result.1 }
    ensures unread { result.1 ≡ UNREAD → Rises (S.faults sources.old) (S.faults sources.new) }
    ensures unhired { result.1 ≡ UNHIRED → Rises (W.faults crew.old) (W.faults crew.new) }
    ensures no_fall { (S.faults sources.old ≤ S.faults sources.new) × (W.faults crew.old ≤ W.faults crew.new) }
{
    match read_files(alloc, &board, sources) {
        Ok(files) => prepare_and_conduct(rt, alloc, board, files, word, hands, crew),
        Err(SourceFault::Read) => end_with(board.close(), CANNOT_READ, UNREAD),
        Err(SourceFault::TooLong) => (board.close(), OUT_OF_MEMORY),
        Err(SourceFault::Memory) => (board.close(), OUT_OF_MEMORY),
    }
}

/// Takes all memory that conductors need besides their own, and goes on.
fn prepare_and_conduct<K: Desk + Send, W: Crew, R: Threads + Wait + Sync>(
    rt: &R,
    alloc: Global,
    board: Board<K>,
    files: Vec<JobFile>,
    word: &Name,
    hands: u8,
    crew: &mut W,
) -> (K, u8)
    requires short { length word.now ≤ 61 }
    requires many { (1 ≤ hands) × (hands ≤ 64) }
    requires ready { IsReadyBoard board }
    requires have { HaveFiles board.past files.items }
    ensures conducts { (contents : Contents) → AreReadFrom contents files.items
        → (name : List ℕ) (entry seen : K) → IsOpened K.state name (told_as (K.state seen) (K.state entry)) board
        → Conducts W.Hand.gives contents (W.told crew.old) (W.told crew.new) name word.now hands
        (told_as (K.state seen) (K.state entry)) (K.state result.0) result.1 }
    ensures causes { (name : List ℕ) (entry seen : K) → IsOpened K.state name
        (told_as (K.state seen) (K.state entry)) board
        → HasCauses (told_as (K.state seen) (K.state entry)) (K.state result.0) result.1 }
    ensures apart { result.1 ≢ UNREAD }
    ensures unhired { result.1 ≡ UNHIRED → Rises (W.faults crew.old) (W.faults crew.new) }
    ensures no_fall { W.faults crew.old ≤ W.faults crew.new }
{
    match prepare(alloc, files, word, hands) {
        Ok(ready) => hire_and_conduct(rt, alloc, board, ready, word, hands, crew),
        Err(_) => (board.close(), OUT_OF_MEMORY),
    }
}

/// Hires the hands, goes on with them, and gives them back.
fn hire_and_conduct<K: Desk + Send, W: Crew, R: Threads + Wait + Sync>(
    rt: &R,
    alloc: Global,
    board: Board<K>,
    ready: Ready<W::Hand>,
    word: &Name,
    hands: u8,
    crew: &mut W,
) -> (K, u8)
    requires many { (1 ≤ hands) × (hands ≤ 64) }
    requires owners { (length ready.owners ≡ hands) × AreNamedBy word.now ready.owners × AreDifferent ready.owners }
    requires shares { (vec_len ready.shares ≡ hands)
        × All (λ share. arc_value share ≡ arc_value ready.files) ready.shares.items }
    requires room { (ready.room.items ≡ []) × (hands ≤ vec_capacity ready.room) }
    requires ready { IsReadyBoard board }
    requires have { HaveFiles board.past (arc_value ready.files).items }
    ensures conducts { (contents : Contents) → AreReadFrom contents (arc_value ready.files).items
        → (name : List ℕ) (entry seen : K) → IsOpened K.state name (told_as (K.state seen) (K.state entry)) board
        → Conducts W.Hand.gives contents (W.told crew.old) (W.told crew.new) name word.now hands
        (told_as (K.state seen) (K.state entry)) (K.state result.0) result.1 }
    ensures causes { (name : List ℕ) (entry seen : K) → IsOpened K.state name
        (told_as (K.state seen) (K.state entry)) board
        → HasCauses (told_as (K.state seen) (K.state entry)) (K.state result.0) result.1 }
    ensures apart { result.1 ≢ UNREAD }
    ensures unhired { result.1 ≡ UNHIRED → Rises (W.faults crew.old) (W.faults crew.new) }
    ensures no_fall { W.faults crew.old ≤ W.faults crew.new }
{
    match crew.hire(alloc, &Want::Local(hands)) {
        Ok(Hands::Local(hired)) => {
            let ended = conduct_with(rt, alloc, board, ready, word, hired, hands);
            let Ended {
                desk,
                status,
                hands,
            } = ended;
            crew.dismiss(Hands::Local(hands));
            (desk, status)
        }
        Ok(Hands::Remote(_)) => unreachable!(),
        Err(PortFault::Failed) => end_with(board.close(), CANNOT_HIRE, UNHIRED),
        Err(PortFault::Memory) => (board.close(), OUT_OF_MEMORY),
    }
}

/// What is left where conductors are done: the desk, the status, and their hands.
struct Ended<K, P> {
    desk: K,
    status: u8,
    hands: Vec<P>,
}

/// Lets conductors work with hands that were hired, and says what they did. The hands come back.
fn conduct_with<K: Desk + Send, P: Performer + Send, R: Threads + Wait + Sync>(
    rt: &R,
    alloc: Global,
    board: Board<K>,
    ready: Ready<P>,
    word: &Name,
    hands: Vec<P>,
    count: u8,
) -> Ended<K, P>
    requires many { (1 ≤ count) × (count ≤ 64) }
    requires hands { vec_len hands ≡ count }
    requires owners { (length ready.owners ≡ count) × AreNamedBy word.now ready.owners × AreDifferent ready.owners }
    requires shares { (vec_len ready.shares ≡ count)
        × All (λ share. arc_value share ≡ arc_value ready.files) ready.shares.items }
    requires room { (ready.room.items ≡ []) × (count ≤ vec_capacity ready.room) }
    requires ready { IsReadyBoard board }
    requires have { HaveFiles board.past (arc_value ready.files).items }
    ensures works { (contents : Contents) → AreReadFrom contents (arc_value ready.files).items
        → (name : List ℕ) (entry seen : K) → IsOpened K.state name (told_as (K.state seen) (K.state entry)) board
        → WorksOff P.gives contents name word.now count (told_as (K.state seen) (K.state entry)) (K.state result.desk)
        result.status }
    ensures causes { (name : List ℕ) (entry seen : K) → IsOpened K.state name
        (told_as (K.state seen) (K.state entry)) board
        → HasCauses (told_as (K.state seen) (K.state entry)) (K.state result.desk) result.status }
    ensures apart { (result.status ≢ UNREAD) × (result.status ≢ UNHIRED) }
    ensures back { vec_len result.hands ≡ count }
{
    let Ready {
        owners,
        files,
        shares,
        room,
    } = ready;
    drop(files);
    let mut hands = hands;
    let mut runners = runners_of(&mut hands, shares, room);
    let shared = SharedBoard::make(alloc, board);
    let ended = conduct(rt, alloc, shared, &owners, &mut runners);
    let hands = hands_of(runners, hands);
    let said = conclude(alloc, ended);
    let (desk, status) = said;
    Ended {
        desk,
        status,
        hands,
    }
}
