//! A call of the program is a call of a life.

ghost use Rattle.std.specs.Prelude.{◌≡◌, IsTrue};
ghost use Rattle.tf_commands.specs.Behaviour.{ports_told};
ghost use Rattle.tf_lifetime.specs.Life.{Call};
ghost use Rattle.tf_ports.specs.Ports.{gives_by};

use std::alloc::Global;
use std::sync::Wait;
use std::thread::Threads;
use tf_commands::{Ended, Outside, taskflow};
use tf_desk::Desk;
use tf_ports::{Crew, Door, Sources};
use tf_words::Word;

/// The top call, as a call of a life: where the desk tells behind it, what it promises is all that the laws ask of a call by these
/// words, between these desks, with this status. So the laws hold of the calls that the program makes, and a clause that
/// promised less would give no call.
pub fn call<K: Desk + Send, S: Sources, W: Crew, L: Door, R: Threads + Wait + Sync>(
    rt: &R,
    alloc: Global,
    words: &[Word],
    outside: Outside<K, S, W, L>,
) -> Ended<K, S, W, L>
    ensures lived { IsTrue (K.state result.outside.desk).tells
        → (lived : Call K.state (gives_by W.Hand.gives W.Far.gives))
        × (lived.words ≡ words.now) × (lived.entry ≡ outside.desk) × (lived.now ≡ result.outside.desk)
        × (lived.status ≡ result.status)
        × (lived.ports ≡ ports_told W.told L.told outside.crew outside.door)
        × (lived.later ≡ ports_told W.told L.told result.outside.crew result.outside.door)
        × (lived.files ≡ S.contents result.outside.sources) }
{
    taskflow(rt, alloc, words, outside)
}
