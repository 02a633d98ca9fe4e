ghost use Rattle.std.specs.Prelude.{◌≡◌, ℕ, ◌<◌, ◌≤◌, List, Option, length, OnOk, OnErr};
ghost use Rattle.tf_numbers.specs.Numbers.{Rises};
ghost use Rattle.tf_ports.specs.Ports.{Comes};
ghost use Rattle.tf_ports.specs.Transcript.{Passed, sent_with, came_with, SendsPrefix};

/// What a link gave: so many bytes, at the front of the buffer; its end, after which nothing comes; or
/// nothing, as it failed.
#[derive(Clone, Copy, Debug, PartialEq, Eq)]
pub enum Came {
    Bytes(usize),
    End,
    Failed,
}

/// A link couldn't send.
#[derive(Clone, Copy, Debug, PartialEq, Eq)]
pub struct LinkFault;

/// A stream of bytes to and from another process.
pub trait Link: Drop {
    /// The bytes that the link has left to give, where it tells them.
    ghost left: { Self → Option (List ℕ) };

    /// What passed over the link both ways, in one order: the pieces that came, and the bytes that it was sent.
    ghost transcript: { Self → List Passed };

    /// How many faults there were. The count never falls, and stands still at the greatest u64.
    ghost faults: { Self → ℕ };

    /// How often the link said that it is at its end. The count never falls, and stands still at the
    /// greatest u64.
    ghost ends: { Self → ℕ };

    /// Sends the bytes. Where it fails, a prefix of the bytes was sent, and the count of faults rose.
    fn send(&mut self, bytes: &[u8]) -> Result<(), LinkFault>
        ensures added { OnOk result (transcript self.new ≡ sent_with (transcript self.old) bytes.now) }
        ensures cut { OnErr result (SendsPrefix (transcript self.old) bytes.now (transcript self.new)) }
        ensures keeps { left self.new ≡ left self.old }
        ensures cause { OnErr result (Rises (faults self.old) (faults self.new)) }
        ensures no_fall { (faults self.old ≤ faults self.new) × (ends self.old ≤ ends self.new) };

    /// Waits for bytes and puts what comes into the buffer, which isn't empty: at least one byte. `End` comes
    /// only where the count of ends rose, and nothing is left; `Failed` only where the count of faults rose.
    fn recv(&mut self, buf: &mut [u8]) -> Came
        requires room { 0 < length buf.old }
        ensures came { Comes (left self.old) (left self.new) buf.new result }
        ensures passed { transcript self.new ≡ came_with (transcript self.old) buf.new result }
        ensures end { result ≡ Came.End → Rises (ends self.old) (ends self.new) }
        ensures cause { result ≡ Came.Failed → Rises (faults self.old) (faults self.new) }
        ensures no_fall { (faults self.old ≤ faults self.new) × (ends self.old ≤ ends self.new) };

    /// Ends the link, so that the other process learns at once that nothing more comes; it was sent nothing by this.
    fn end(&mut self)
        ensures same { (left self.new ≡ left self.old) × (transcript self.new ≡ transcript self.old) }
        ensures counts { (faults self.new ≡ faults self.old) × (ends self.new ≡ ends self.old) };
}
