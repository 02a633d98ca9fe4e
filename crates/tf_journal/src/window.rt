//! A file through a window: one read of the disk serves as many records as lie in it.
ghost use Rattle.std.specs.Prelude.{◌≡◌, ◌≤◌, ◌<◌, ◌+◌, ◌-◌, ◌^◌, List, ℕ, true, Ok, IsTrue, length, take, drop, IfOk, IfErr, OnOk};
ghost use Rattle.tf_desk.specs.State.{bytes_now, Trusts, Rests, FailsOnDisk};
ghost use Rattle.tf_journal.specs.Reach.{IsWindow};

use tf_desk::{Desk, DeskFault};
use tf_values::Memory;

/// How many bytes are read at once.
const WIDTH: usize = 4096;

/// Bytes of the picked file that were read at once, from an offset on, and the file's size as it was asked for last.
/// `Journal::window` makes one; bodies are read through it by `next_body`.
#[derive(Drop)]
pub struct Window {
    bytes: [u8; WIDTH],
    start: u64,
    count: usize,
    pub(crate) size: u64,
}

impl Window {
    /// A window that has no byte yet of a file of that size.
    pub(crate) fn make(size: u64) -> Window
        ensures size { result.size ≡ size }
        ensures shows { (file : List ℕ) → length file ≡ size → IsWindow file result }
    {
        Window {
            bytes: [0; WIDTH],
            start: 0,
            count: 0,
            size,
        }
    }

    /// Whether it has that many bytes from that place on.
    fn covers(&self, place: u64, count: u64) -> bool
        requires { place + count < 2 ^ 64 }
        ensures { result ≡ true → (self.now.start ≤ place) × (place - self.now.start + count ≤ self.now.count)
            × (place - self.now.start + count ≤ 4096) }
    {
        self.start <= place && place - self.start + count <= self.count.min(WIDTH) as u64
    }

    /// Reads the file from that place on into the window, in place of what it has.
    fn fill<K: Desk>(&mut self, desk: &mut K, place: u64) -> Result<(), DeskFault>
        ensures shows { IsTrue (K.state desk.new).tells
            → IsWindow (bytes_now (K.state desk.old)) self.old → IsWindow (bytes_now (K.state desk.old)) self.new }
        ensures all { OnOk result (IsTrue (K.state desk.new).tells
            → take self.new.count self.new.bytes ≡ take 4096 (drop place (bytes_now (K.state desk.old)))) }
        ensures within { OnOk result ((self.new.count ≤ 4096) × (length self.new.bytes ≡ 4096)) }
        ensures size { self.new.size ≡ self.old.size }
        ensures rests { Trusts Rests (K.state desk.old) (K.state desk.new) }
        ensures fails { IfErr result (λ fault. FailsOnDisk fault (K.state desk.old) (K.state desk.new)) }
    {
        let mut bytes = [0; WIDTH];
        let count = desk.read(place, &mut bytes)?;
        self.bytes = bytes;
        self.start = place;
        self.count = count;
        Ok(())
    }

    /// Reads five bytes of the file from that place on, of the window where it has them, else of the file, which the
    /// window then shows. It answers how many there are: fewer only at the file's end.
    pub(crate) fn read<K: Desk>(
        &mut self,
        desk: &mut K,
        place: u64,
        head: &mut [u8; 5],
    ) -> Result<usize, DeskFault>
        requires { place < 2 ^ 63 }
        ensures bound { IfOk result (λ n. n ≤ 5) }
        ensures bytes { IfOk result (λ n. IsTrue (K.state desk.new).tells
            → IsWindow (bytes_now (K.state desk.old)) self.old
            → take n head.new ≡ take 5 (drop place (bytes_now (K.state desk.old)))) }
        ensures shows { IsTrue (K.state desk.new).tells
            → IsWindow (bytes_now (K.state desk.old)) self.old → IsWindow (bytes_now (K.state desk.old)) self.new }
        ensures size { self.new.size ≡ self.old.size }
        ensures rests { Trusts Rests (K.state desk.old) (K.state desk.new) }
        ensures fails { IfErr result (λ fault. FailsOnDisk fault (K.state desk.old) (K.state desk.new)) }
    {
        if self.covers(place, 5) {
            let from = (place - self.start) as usize;
            head.copy_from_slice(&self.bytes[from..from + 5]);
            return Ok(5);
        }
        self.fill(desk, place)?;
        let count = self.count.min(5);
        head[..count].copy_from_slice(&self.bytes[..count]);
        Ok(count)
    }

    /// Reads the file from that place on into the window, where it lacks some of that many bytes from there on and
    /// can have them all.
    pub(crate) fn reach<K: Desk>(
        &mut self,
        desk: &mut K,
        place: u64,
        count: u64,
    ) -> Result<(), DeskFault>
        requires { place + count < 2 ^ 64 }
        ensures shows { IsTrue (K.state desk.new).tells
            → IsWindow (bytes_now (K.state desk.old)) self.old → IsWindow (bytes_now (K.state desk.old)) self.new }
        ensures rests { Trusts Rests (K.state desk.old) (K.state desk.new) }
        ensures fails { IfErr result (λ fault. FailsOnDisk fault (K.state desk.old) (K.state desk.new)) }
    {
        if count > WIDTH as u64 || self.covers(place, count) {
            return Ok(());
        }
        self.fill(desk, place)
    }

    /// Puts that many bytes of the file from that place on into the vector, in place of what it has, where the
    /// window has them all, and answers whether it has. `Err`: the vector didn't grow.
    pub(crate) fn copy(&self, place: u64, count: u64, into: &mut Vec<u8>) -> Result<bool, Memory>
        requires { place + count < 2 ^ 64 }
        ensures { result ≡ Ok true → (file : List ℕ) → IsWindow file self.now
            → into.new.items ≡ take count (drop place file) }
    {
        if !self.covers(place, count) {
            return Ok(false);
        }
        let from = (place - self.start) as usize;
        into.clear();
        into.extend_from_slice(&self.bytes[from..from + count as usize])?;
        Ok(true)
    }
}
