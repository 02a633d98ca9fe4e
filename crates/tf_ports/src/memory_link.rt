ghost use Rattle.std.specs.Prelude.{◌≡◌, ◌<◌, ◌≤◌, [], ◌++◌, drop, take, length, vec_len, Some, OnOk, OnErr};
ghost use Rattle.tf_numbers.specs.Numbers.{Rises};
ghost use Rattle.tf_ports.specs.Transcript.{sent_with};

use crate::links::{Came, Link, LinkFault};
use std::alloc::Global;
use std::marker::Model;
use tf_trace::Trace;

/// A link in memory, with the bytes that it gives, a stated number of them at most at once. Its calls are
/// numbered from 1, and the stated ones fail: a `send` then sends the first half of its bytes. A `send` also
/// fails where memory runs out.
#[derive(Drop)]
pub struct MemoryLink {
    bytes: Vec<u8>,
    given: usize,
    piece: usize,
    sent: Vec<u8>,
    trace: Trace,
    made: u64,
    failing: Vec<u64>,
    faults: u64,
    ends: u64,
    ghost is_within: { given ≤ vec_len bytes },
    ghost has_piece: { 0 < piece },
}

impl Model for MemoryLink {
    ghost use Rattle.std.specs.Prelude.{drop};
    ghost use Rattle.tf_ports.specs.MemoryLink.{HeldByLink};
    ghost use Rattle.tf_ports.specs.Noted.{passed_in};

    ghost Value = { HeldByLink };

    ghost view = { λ link. record {
      left = drop link.given link.bytes.items;
      sent = link.sent.items;
      transcript = passed_in link.trace.calls;
      faults = link.faults;
      ends = link.ends;
    } };
}

impl MemoryLink {
    /// A link that gives these bytes and then its end, and was sent nothing so far.
    pub fn make(alloc: Global, bytes: Vec<u8>, piece: usize, failing: Vec<u64>) -> MemoryLink
        requires piece { 0 < piece }
        ensures { result ≡ record { left = bytes.items; sent = []; transcript = []; faults = 0; ends = 0 } }
    {
        MemoryLink {
            bytes,
            given: 0,
            piece,
            sent: Vec::new(alloc),
            trace: Trace::new(),
            made: 0,
            failing,
            faults: 0,
            ends: 0,
        }
    }

    /// The bytes that the link was sent.
    pub fn sent(&self) -> &[u8]
        ensures { result.now ≡ self.now.sent }
    {
        &self.sent
    }

    /// Counts a call, and tells whether it is one that fails.
    fn fails(&mut self) -> bool
        ensures same { self.new ≡ self.old }
    {
        self.made = self.made.saturating_add(1);
        self.failing.contains(&self.made)
    }

    /// Counts a fault.
    fn fault(&mut self)
        ensures same { self.new ≡ record self.old { faults = self.new.faults } }
        ensures rose { Rises self.old.faults self.new.faults }
        ensures no_fall { self.old.faults ≤ self.new.faults }
    {
        self.faults = self.faults.saturating_add(1);
    }

    /// Keeps bytes that were sent, or counts a fault where memory runs out.
    fn keep(&mut self, bytes: &[u8]) -> Result<(), LinkFault>
        ensures kept { OnOk result (self.new ≡ record self.old {
          sent = self.old.sent ++ bytes.now;
          transcript = sent_with self.old.transcript bytes.now;
        }) }
        ensures same { OnErr result (self.new ≡ record self.old { faults = self.new.faults }) }
        ensures rose { OnErr result (Rises self.old.faults self.new.faults) }
        ensures no_fall { self.old.faults ≤ self.new.faults }
    {
        if self.sent.extend_from_slice(bytes).is_err() {
            self.fault();
            return Err(LinkFault);
        }
        self.trace.said(bytes);
        Ok(())
    }
}

impl Link for MemoryLink {
    ghost left = { λ link. Some link.left };

    ghost transcript = { λ link. link.transcript };

    ghost faults = { λ link. link.faults };

    ghost ends = { λ link. link.ends };

    fn send(&mut self, bytes: &[u8]) -> Result<(), LinkFault> {
        if self.fails() {
            self.keep(&bytes[..bytes.len() / 2])?;
            self.fault();
            return Err(LinkFault);
        }
        self.keep(bytes)
    }

    fn recv(&mut self, buf: &mut [u8]) -> Came {
        if self.fails() {
            self.fault();
            return Came::Failed;
        }
        let rest = &self.bytes[self.given..];
        if rest.is_empty() {
            self.ends = self.ends.saturating_add(1);
            return Came::End;
        }
        let count = copy_prefix(rest, buf, self.piece);
        self.given += count;
        self.trace.gave(0, &buf[..count]);
        Came::Bytes(count)
    }

    fn end(&mut self) {}
}

/// Copies the front of the bytes into the buffer: as many as it holds, and at most so many.
fn copy_prefix(bytes: &[u8], buf: &mut [u8], most: usize) -> usize
    requires some { 0 < length bytes.now }
    requires room { 0 < length buf.old }
    requires most { 0 < most }
    ensures some { 0 < result }
    ensures had { result ≤ length bytes.now }
    ensures fits { result ≤ length buf.new }
    ensures copied { take result buf.new ≡ take result bytes.now }
{
    let count = bytes.len().min(buf.len()).min(most);
    buf[..count].copy_from_slice(&bytes[..count]);
    count
}
