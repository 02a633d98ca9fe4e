// Sessions at work: each link gets a pass, is served in a thread of its own, and comes back.
ghost use Rattle.std.specs.Prelude.{◌≡◌, ◌<◌, ◌≤◌, ◌++◌, ℕ, [], false, length, map, slice_index_or, vec_capacity, vec_len};
ghost use Rattle.std.specs.List.{All};
ghost use Rattle.tf_ports.specs.Ports.{seen_link};
ghost use Rattle.tf_board_service.specs.Sessions.{is_halted as halted_end};
ghost use Rattle.tf_board_service.specs.Turning.{HasServed, IsAppointed};

use crate::serving::{Server, serve};
use crate::sessions::{Points, Session, SessionEnd};
use crate::turns::Serving;
use std::alloc::Global;
use std::sync::Wait;
use std::thread;
use std::thread::Threads;
use tf_desk::Desk;
use tf_ports::Link;
use tf_turnstile::{Pass, Turnstile};

/// The most threads, one for each session.
const THREADS: usize = 64;

/// Each link with its pass, in their order. The links' list keeps its room.
pub(crate) fn hire<K: Desk, L: Link>(
    alloc: Global,
    links: &mut Vec<L>,
    passes: Vec<Pass<Serving<K>>>,
    room: Vec<Server<K, L>>,
) -> Vec<Server<K, L>>
    requires count { vec_len passes ≡ vec_len links.old }
    requires room { (room.items ≡ []) × (vec_len passes ≤ vec_capacity room) }
    ensures links { map (λ w. w.link) result.items ++ links.new.items ≡ links.old.items }
    ensures passes { map (λ w. w.pass) result.items ≡ passes.items }
    ensures points { All (λ w. w.points.items ≡ []) result.items }
    ensures count { vec_len result ≡ vec_len passes }
    ensures empty { links.new.items ≡ [] }
    ensures kept { vec_capacity links.new ≡ vec_capacity links.old }
{
    let mut servers = room;
    for pass in passes {
        let link = links.remove(0);
        servers.push_reserved(Server {
            link,
            pass,
            points: Vec::new(alloc),
            end: SessionEnd::Halted,
        });
    }
    servers
}

/// Whether a session is halted.
fn is_halted(end: SessionEnd) -> bool
    ensures { result ≡ halted_end end }
{
    match end {
        SessionEnd::Halted => true,
        SessionEnd::Ended | SessionEnd::Lost | SessionEnd::Bad { .. } => false,
    }
}

/// The links and their passes back, in their order, with their sessions. Whether one is halted.
pub(crate) fn dismiss<K: Desk, L: Link>(
    servers: Vec<Server<K, L>>,
    links: &mut Vec<L>,
    passes: &mut Vec<Pass<Serving<K>>>,
    sessions: &mut Vec<Session>,
) -> bool
    requires links { (links.old.items ≡ []) × (vec_len servers ≤ vec_capacity links.old) }
    requires passes { (passes.old.items ≡ []) × (vec_len servers ≤ vec_capacity passes.old) }
    requires sessions { (sessions.old.items ≡ []) × (vec_len servers ≤ vec_capacity sessions.old) }
    ensures links { links.new.items ≡ map (λ w. w.link) servers.items }
    ensures passes { passes.new.items ≡ map (λ w. w.pass) servers.items }
    ensures sessions { sessions.new.items ≡ map (λ w. record { end = w.end; points = w.points.items }) servers.items }
    ensures halted { result ≡ false → All (λ w. halted_end w.end ≡ false) servers.items }
{
    let mut halted = false;
    for server in servers {
        let Server {
            link,
            pass,
            points,
            end,
        } = server;
        let this = is_halted(end);
        links.push_reserved(link);
        passes.push_reserved(pass);
        sessions.push_reserved(Session {
            end,
            points: Points::make(points),
        });
        if this {
            halted = true;
        }
    }
    halted
}

/// All links are served, each in a thread of its own where there are threads, until each session is over.
pub(crate) fn serve_all<K: Desk + Send, L: Link + Send, T: Threads + Wait + Sync>(
    rt: &T,
    alloc: Global,
    turnstile: &Turnstile<Serving<K>>,
    servers: &mut [Server<K, L>],
)
    requires each { (i : ℕ) (d : _) → i < length servers.old
        → IsAppointed turnstile.now i (slice_index_or servers.old i d).pass }
    requires points { All (λ w. w.points.items ≡ []) servers.old }
    ensures { (i : ℕ) (d : _) → i < length servers.old
        → HasServed turnstile.now i
        (seen_link L.left L.transcript L.faults L.ends (slice_index_or servers.old i d).link)
        (seen_link L.left L.transcript L.faults L.ends (slice_index_or servers.new i d).link)
        (slice_index_or servers.new i d).points.items (slice_index_or servers.new i d).end
        (slice_index_or servers.new i d).pass }
{
    let turns = |i: usize, server: &mut Server<K, L>|
        requires { IsAppointed turnstile.now i server.now.pass × (server.now.points.items ≡ []) }
        ensures { HasServed turnstile.entry.now i (seen_link L.left L.transcript L.faults L.ends server.entry.now.link)
            (seen_link L.left L.transcript L.faults L.ends server.exit.now.link) server.exit.now.points.items
            server.exit.now.end server.exit.now.pass }
    { serve(rt, alloc, turnstile, server, i as u8) };
    thread::for_each_mut(rt, servers, THREADS, &turns);
}

/// The same of the links of a list, which come back in it.
pub(crate) fn serve_through<K: Desk + Send, L: Link + Send, T: Threads + Wait + Sync>(
    rt: &T,
    alloc: Global,
    turnstile: &Turnstile<Serving<K>>,
    servers: Vec<Server<K, L>>,
) -> Vec<Server<K, L>>
    requires each { (i : ℕ) (d : _) → i < length servers.items
        → IsAppointed turnstile.now i (slice_index_or servers.items i d).pass }
    requires points { All (λ w. w.points.items ≡ []) servers.items }
    ensures count { length result.items ≡ length servers.items }
    ensures served { (i : ℕ) (d : _) → i < length servers.items
        → HasServed turnstile.now i
        (seen_link L.left L.transcript L.faults L.ends (slice_index_or servers.items i d).link)
        (seen_link L.left L.transcript L.faults L.ends (slice_index_or result.items i d).link)
        (slice_index_or result.items i d).points.items (slice_index_or result.items i d).end
        (slice_index_or result.items i d).pass }
{
    let mut servers = servers;
    serve_all(rt, alloc, turnstile, servers.as_mut_slice());
    servers
}
