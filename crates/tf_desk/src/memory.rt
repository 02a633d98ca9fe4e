ghost use Rattle.std.specs.Prelude.{◌≡◌, ◌≤◌, ◌∷◌, [], length, IfOk, true, false};
ghost use Rattle.std.proofs.Common.{refl};
ghost use Rattle.tf_desk.specs.Acts.{shown_after};
ghost use Rattle.tf_desk.specs.ActLaws.{picked_there, left_reads, left_none, crashes_earlier, crashes_now, crashes_only};
ghost use Rattle.tf_numbers.specs.Numbers.{Rises};
ghost use Rattle.tf_desk.specs.Crashed.{began_at, ended_at, struck_at, IsCrashed};
ghost use Rattle.tf_desk.specs.MemoryDesk.{state_of};

use crate::crashing::Torn;
use crate::device::{Desk, DeskFault};
use crate::past::Past;
use std::alloc::Global;
use std::marker::Model;
use tf_values::{Memory, Text};

/// A desk in memory. Its calls are numbered from 1, and the stated ones fail.
#[derive(Drop)]
pub struct MemoryDesk {
    past: Past,
    began: Vec<usize>,
    calls: usize,
    made: usize,
    failing: Vec<u64>,
    asking: Vec<u64>,
    disk_faults: u64,
    out_faults: u64,
    asks: u64,
    turns: u64,
}

impl Model for MemoryDesk {
    ghost use Rattle.tf_desk.specs.MemoryDesk.{Held};

    ghost Value = { Held };

    ghost view = { λ desk. record { past = desk.past; began = desk.began.items; disk_faults = desk.disk_faults; out_faults = desk.out_faults; asks = desk.asks; turns = desk.turns } };
}

impl MemoryDesk {
    /// An empty desk without a file. It reserves all its memory but that of a file, which its pick takes:
    /// `capacity` bounds the bytes that its calls together write and show. A call fails where its number is
    /// in `failing`, where more than `calls` were made, or past the capacity; a `say` and a `write_at` then
    /// take the first half of their bytes, or none past the calls or the capacity. `stop_asked` answers `true` at its
    /// turns in `asking`, and doesn't fail.
    pub fn make(
        alloc: Global,
        capacity: usize,
        calls: usize,
        failing: Vec<u64>,
        asking: Vec<u64>,
    ) -> Result<MemoryDesk, Memory>
        ensures empty { IfOk result (λ desk. desk.past ≡ []) }
        ensures no_faults { IfOk result (λ desk. (desk.disk_faults ≡ 0) × (desk.out_faults ≡ 0) × (desk.asks ≡ 0)
            × (desk.turns ≡ 0)) }
    {
        Ok(MemoryDesk {
            past: Past::make(alloc, capacity, calls)?,
            began: Vec::with_capacity(alloc, calls)?,
            calls,
            made: 0,
            failing,
            asking,
            disk_faults: 0,
            out_faults: 0,
            asks: 0,
            turns: 0,
        })
    }

    /// Counts a call, and tells whether it is one that fails.
    fn fails(&mut self) -> bool
        ensures same { self.new ≡ record self.old { began = self.new.began } }
    {
        self.made = self.made.saturating_add(1);
        if self.made > self.calls {
            return true;
        }
        let _room = self.began.push(self.past.count());
        self.failing.contains(&(self.made as u64))
    }

    /// How many bytes a call may write or say: none past the calls that the desk takes.
    fn room(&self) -> usize {
        if self.made > self.calls {
            return 0;
        }
        self.past.room()
    }

    /// A fault of the disk, counted.
    fn disk_fault(&mut self) -> DeskFault
        ensures disk { result ≡ DeskFault.Disk }
        ensures same { self.new ≡ record self.old { disk_faults = self.new.disk_faults } }
        ensures rose { Rises self.old.disk_faults self.new.disk_faults }
        ensures no_fall { self.old.disk_faults ≤ self.new.disk_faults }
    {
        self.disk_faults = self.disk_faults.saturating_add(1);
        DeskFault::Disk
    }

    /// A fault of the output, counted.
    fn out_fault(&mut self) -> DeskFault
        ensures out { result ≡ DeskFault.Out }
        ensures same { self.new ≡ record self.old { out_faults = self.new.out_faults } }
        ensures rose { Rises self.old.out_faults self.new.out_faults }
        ensures no_fall { self.old.out_faults ≤ self.new.out_faults }
    {
        self.out_faults = self.out_faults.saturating_add(1);
        DeskFault::Out
    }

    /// The text shown so far.
    pub fn shown(&self) -> &[u8]
        ensures { result.now ≡ shown_after self.now.past }
    {
        self.past.shown()
    }

    /// How many calls were made, of those that the desk takes.
    pub fn made(&self) -> u64
        ensures { result ≡ length self.now.began }
    {
        self.began.len() as u64
    }

    /// When the call of that number ended.
    fn ended(&self, call: usize) -> usize
        ensures { result ≡ ended_at self.now call }
    {
        let done = self.past.count();
        if call < self.began.len() {
            return self.began[call].min(done);
        }
        done
    }

    /// When the call of that number began.
    fn began(&self, call: usize) -> usize
        requires low { 1 ≤ call }
        requires high { call ≤ length self.now.began }
        ensures { result ≡ began_at self.now call }
    {
        self.began[call - 1].min(self.ended(call))
    }

    /// The moment whose files a crash in the call tears so.
    fn struck(&self, call: usize, torn: Torn) -> usize
        requires low { 1 ≤ call }
        requires high { call ≤ length self.now.began }
        ensures { result ≡ struck_at torn self.now call }
    {
        let began = self.began(call);
        match torn {
            Torn::Old => began,
            Torn::New | Torn::Mixed(_) => self.past.unsynced(began, self.ended(call)),
        }
    }

    /// The desk that a crash in the call of that number leaves: the picked file, torn so, the other files as they
    /// read, all of them on the disk, and the text. What the call itself said was shown, but for `Old`, which tears
    /// what was there before the call; a sync of its own wasn't done. Calls are numbered anew, none fails, and no stop
    /// is asked for. As many calls, and bytes, can be made, written and shown as when this desk was made. `Err`: memory
    /// ran out.
    pub fn crashed(&self, alloc: Global, call: u64, torn: Torn) -> Result<MemoryDesk, Memory>
        requires low { 1 ≤ call }
        requires high { call ≤ length self.now.began }
        ensures { IfOk result (λ desk. IsCrashed torn call self.now desk) }
    {
        let moment = self.struck(call as usize, torn);
        Ok(MemoryDesk {
            past: self.past.crashed(alloc, self.calls, moment, torn)?,
            began: Vec::with_capacity(alloc, self.calls)?,
            calls: self.calls,
            made: 0,
            failing: Vec::new(alloc),
            asking: Vec::new(alloc),
            disk_faults: 0,
            out_faults: 0,
            asks: 0,
            turns: 0,
        })
    }
}

impl Desk for MemoryDesk {
    ghost state = { state_of };

    ghost tells_shown = { λ desk told. refl };

    ghost picked_is_there = { λ desk name told. picked_there desk.past name };

    ghost reads_left = { λ desk name bytes told. left_reads desk.past name bytes };

    ghost none_left = { λ desk name image told. left_none desk.past name image };

    ghost earlier_allows = { λ desk early late image text told. crashes_earlier desk.past early late image text };

    ghost counts_now = { λ desk start image text told. crashes_now desk.past start image text };

    ghost only_now = { λ desk image text told. crashes_only desk.past image text };

    fn pick(&mut self, alloc: Global, name: &Text) -> Result<(), DeskFault> {
        if self.fails() {
            return Err(self.disk_fault());
        }
        match self.past.pick(alloc, name) {
            Ok(()) => Ok(()),
            Err(_) => Err(DeskFault::Memory),
        }
    }

    fn size(&mut self) -> Result<u64, DeskFault> {
        if self.fails() {
            return Err(self.disk_fault());
        }
        Ok(self.past.size() as u64)
    }

    fn read(&mut self, at: u64, buf: &mut [u8]) -> Result<usize, DeskFault> {
        if self.fails() {
            return Err(self.disk_fault());
        }
        Ok(self.past.read(at as usize, buf))
    }

    fn write_at(&mut self, at: u64, bytes: &[u8]) -> Result<(), DeskFault> {
        let fails = self.fails();
        if bytes.len() > self.room() {
            return Err(self.disk_fault());
        }
        if fails {
            let _ = self.past.write(at as usize, &bytes[..bytes.len() / 2]);
            return Err(self.disk_fault());
        }
        if !self.past.write(at as usize, bytes) {
            return Err(self.disk_fault());
        }
        Ok(())
    }

    fn sync(&mut self) -> Result<(), DeskFault> {
        if self.fails() || !self.past.sync() {
            return Err(self.disk_fault());
        }
        Ok(())
    }

    fn say(&mut self, bytes: &[u8]) -> Result<(), DeskFault> {
        let fails = self.fails();
        if bytes.len() > self.room() {
            return Err(self.out_fault());
        }
        if fails {
            let _ = self.past.say(&bytes[..bytes.len() / 2]);
            return Err(self.out_fault());
        }
        if !self.past.say(bytes) {
            return Err(self.out_fault());
        }
        Ok(())
    }

    fn stop_asked(&mut self) -> bool {
        let _ = self.fails();
        self.turns = self.turns.saturating_add(1);
        if !self.asking.contains(&self.turns) {
            return false;
        }
        self.asks = self.asks.saturating_add(1);
        true
    }
}
