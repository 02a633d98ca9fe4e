// The command that serves a board.
ghost use Rattle.std.specs.Prelude.{◌≡◌, ◌≢◌, ◌⊎◌, ◌≤◌, ℕ, IsTrue, List, false, map, vec_len, IfOk, IfErr};
ghost use Rattle.tf_desk.specs.State.{told_as};
ghost use Rattle.tf_board.specs.Board.{IsOpened};
ghost use Rattle.tf_board_service.specs.Sessions.{GivesBack, GivesInVain, HasServiceCauses, SaysOrStops, ServesBoard, gave_links};
ghost use Rattle.tf_numbers.specs.Numbers.{Rises};
ghost use Rattle.tf_ports.specs.Ports.{DoorTold, opened_at, seen_link};
ghost use Rattle.tf_ports.specs.declared.crews.Address.{Address as AnAddress};

use crate::saying::closing;
use crate::service::{ServedBoard, serve_board};
use std::alloc::Global;
use std::sync::Wait;
use std::thread::Threads;
use tf_board::{Board, end_unopened, end_with, open};
use tf_desk::Desk;
use tf_ports::{Address, Door, PortFault};
use tf_report::{CANNOT_LISTEN, OUT_OF_MEMORY, UNHIRED, UNSAID, close};
use tf_shared_board::{SharedBoard, halt_status};
use tf_values::{Memory, Text};

/// Opens the board of that name and the door at the address, waits for so many links, and serves them side by side, each in a
/// session of its own. Then a line is said for each session, and why the board doesn't go on, if it doesn't. What is told
/// of the file, and what a crash leaves, is told as far as the desk tells after the call, and it tells then only where it
/// told before.
pub fn serve_command<K: Desk + Send, D: Door, R: Threads + Wait + Sync>(
    rt: &R,
    alloc: Global,
    name: &Text,
    address: &Address,
    count: u8,
    desk: K,
    door: &mut D,
) -> (K, u8)
    requires few { (1 ≤ count) × (count ≤ 64) }
    ensures serves { ServesBoard name.now address.now count (D.told door.old) (D.told door.new)
        (told_as (K.state result.0) (K.state desk)) (K.state result.0) result.1 }
    ensures causes { HasServiceCauses (told_as (K.state result.0) (K.state desk)) (K.state result.0)
        (D.faults door.old) (D.faults door.new) result.1 }
    ensures falls { IsTrue (K.state result.0).tells → IsTrue (K.state desk).tells }
{
    match open(alloc, desk, name) {
        Ok(board) => listen_and_serve(rt, alloc, address, count, board, door),
        Err((desk, fault)) => end_unopened(alloc, desk, fault),
    }
}

/// Says a text, unless memory ran out for it.
fn say_text<K: Desk>(mut desk: K, text: Result<Vec<u8>, Memory>, status: u8) -> (K, u8)
    ensures says { (message : List ℕ) → IfOk text (λ t. t.items ≡ message)
        → SaysOrStops K.state message status desk result.0 result.1 }
    ensures unsaid { result.1 ≡ UNSAID → status ≢ UNSAID
        → Rises (K.state desk).out_faults (K.state result.0).out_faults }
    ensures status { result.1 ≢ UNSAID → (result.1 ≡ status) ⊎ (result.1 ≡ OUT_OF_MEMORY) }
{
    match text {
        Ok(text) => {
            let status = close(&text, status, &mut desk);
            (desk, status)
        }
        Err(_) => (desk, OUT_OF_MEMORY),
    }
}

/// Opens the door, and goes on with the links that come.
fn listen_and_serve<K: Desk + Send, D: Door, R: Threads + Wait + Sync>(
    rt: &R,
    alloc: Global,
    address: &Address,
    count: u8,
    board: Board<K>,
    door: &mut D,
) -> (K, u8)
    requires few { (1 ≤ count) × (count ≤ 64) }
    requires sound { board.journal.halted ≡ false }
    ensures serves { (name : List ℕ) (entry seen : K)
        → IsOpened K.state name (told_as (K.state seen) (K.state entry)) board
        → ServesBoard name address.now count (D.told door.old) (D.told door.new)
        (told_as (K.state seen) (K.state entry)) (K.state result.0) result.1 }
    ensures causes { (name : List ℕ) (entry seen : K)
        → IsOpened K.state name (told_as (K.state seen) (K.state entry)) board
        → HasServiceCauses (told_as (K.state seen) (K.state entry)) (K.state result.0)
        (D.faults door.old) (D.faults door.new) result.1 }
{
    match door.listen(alloc, address) {
        Ok(()) => accept_and_serve(rt, alloc, count, board, door),
        Err(PortFault::Failed) => end_with(board.close(), CANNOT_LISTEN, UNHIRED),
        Err(PortFault::Memory) => (board.close(), OUT_OF_MEMORY),
    }
}

/// Takes so many links, and goes on with them.
fn accept_and_serve<K: Desk + Send, D: Door, R: Threads + Wait + Sync>(
    rt: &R,
    alloc: Global,
    count: u8,
    board: Board<K>,
    door: &mut D,
) -> (K, u8)
    requires few { (1 ≤ count) × (count ≤ 64) }
    requires sound { board.journal.halted ≡ false }
    ensures serves { (name : List ℕ) (address : AnAddress) (before : DoorTold) (entry seen : K)
        → IsOpened K.state name (told_as (K.state seen) (K.state entry)) board
        → D.told door.old ≡ opened_at before address
        → ServesBoard name address count before (D.told door.new)
        (told_as (K.state seen) (K.state entry)) (K.state result.0) result.1 }
    ensures causes { (name : List ℕ) (entry seen : K)
        → IsOpened K.state name (told_as (K.state seen) (K.state entry)) board
        → HasServiceCauses (told_as (K.state seen) (K.state entry)) (K.state result.0)
        (D.faults door.old) (D.faults door.new) result.1 }
{
    match accept_all(alloc, count, door) {
        Ok(links) => serve_over(rt, alloc, board, links, door),
        Err(PortFault::Failed) => end_with(board.close(), CANNOT_LISTEN, UNHIRED),
        Err(PortFault::Memory) => (board.close(), OUT_OF_MEMORY),
    }
}

/// Takes so many links, one after the other. Those that came are given back where the next one doesn't.
fn accept_all<D: Door>(alloc: Global, count: u8, door: &mut D) -> Result<Vec<D::Made>, PortFault>
    ensures many { IfOk result (λ links. vec_len links ≡ count) }
    ensures gave { IfOk result (λ links. D.told door.new ≡ gave_links (D.told door.old)
        (map (seen_link D.Made.left D.Made.transcript D.Made.faults D.Made.ends) links.items)) }
    ensures vain { IfErr result (λ fault. GivesInVain count (D.told door.old) (D.told door.new)
        (fault ≡ PortFault.Failed)) }
    ensures cause { IfErr result (λ fault. fault ≡ PortFault.Failed
        → Rises (D.faults door.old) (D.faults door.new)) }
    ensures door { D.faults door.old ≤ D.faults door.new }
{
    let Ok(mut links) = Vec::with_capacity(alloc, usize::from(count)) else {
        return Err(PortFault::Memory);
    };
    for _taken in 0..count {
        match door.accept(alloc) {
            Ok(link) => links.push_reserved(link),
            Err(fault) => {
                return match give_back(links, door) {
                    Ok(()) => Err(fault),
                    Err(_) => Err(PortFault::Memory),
                };
            }
        }
    }
    Ok(links)
}

/// Gives links back. `Err`: memory ran out for one, and all are closed all the same.
fn give_back<D: Door>(links: Vec<D::Made>, door: &mut D) -> Result<(), Memory>
    ensures back { GivesBack (map (seen_link D.Made.left D.Made.transcript D.Made.faults D.Made.ends) links.items)
        (D.told door.old) (D.told door.new) result }
    ensures door { D.faults door.old ≤ D.faults door.new }
{
    let mut whole = Ok(());
    for link in links {
        if let Err(fault) = door.close(link) {
            whole = Err(fault);
        }
    }
    whole
}

/// Serves the links, gives them back, and says how the sessions ended.
fn serve_over<K: Desk + Send, D: Door, R: Threads + Wait + Sync>(
    rt: &R,
    alloc: Global,
    board: Board<K>,
    links: Vec<D::Made>,
    door: &mut D,
) -> (K, u8)
    requires few { (1 ≤ vec_len links) × (vec_len links ≤ 64) }
    requires sound { board.journal.halted ≡ false }
    ensures serves { (name : List ℕ) (address : AnAddress) (before : DoorTold) (entry seen : K)
        → IsOpened K.state name (told_as (K.state seen) (K.state entry)) board
        → D.told door.old ≡ gave_links (opened_at before address)
        (map (seen_link D.Made.left D.Made.transcript D.Made.faults D.Made.ends) links.items)
        → ServesBoard name address (vec_len links) before (D.told door.new)
        (told_as (K.state seen) (K.state entry)) (K.state result.0) result.1 }
    ensures causes { (name : List ℕ) (entry seen : K)
        → IsOpened K.state name (told_as (K.state seen) (K.state entry)) board
        → HasServiceCauses (told_as (K.state seen) (K.state entry)) (K.state result.0)
        (D.faults door.old) (D.faults door.new) result.1 }
{
    let mut links = links;
    let shared = SharedBoard::make(alloc, board);
    match serve_board(rt, alloc, shared, &mut links) {
        Ok(ServedBoard { shared, sessions }) => {
            let halt = shared.halted();
            let text = closing(alloc, sessions.items(), halt);
            let whole = give_back(links, door);
            let desk = shared.close().close();
            match whole {
                Ok(()) => say_text(desk, text, halt_status(halt)),
                Err(_) => (desk, OUT_OF_MEMORY),
            }
        }
        Err((shared, _)) => {
            let _whole = give_back(links, door);
            (shared.close().close(), OUT_OF_MEMORY)
        }
    }
}
