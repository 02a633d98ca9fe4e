ghost use Rattle.std.specs.Prelude.{◌≡◌, List, [], ◌∷◌};
ghost use Rattle.std.specs.Borrow.{ftrue};
ghost use Rattle.tf_trace.specs.Calls.{Call, call_of, opened, made, sized, gave, wrote, tore, synced, said};

use std::marker::{Model, PhantomData};

/// The calls that were made with what the system answered, the newest first. It takes no bytes and its methods do
/// nothing at run time.
#[derive(Drop)]
pub struct Trace {
    marker: PhantomData<u8>,
    pub ghost calls: { List Call },
}

impl Model for Trace {
    ghost also_owns = { λ _. ftrue };
}

// It owns nothing.
unsafe impl Send for Trace {}

impl Trace {
    pub fn new() -> Trace
        ensures { result.calls ≡ [] }
    {
        Trace {
            marker: PhantomData,
        }
    }

    /// The one function here that sets the calls: the first number says which call it was.
    fn note(&mut self, _numbers: &[u64], _bytes: &[u8])
        ensures { self.new.calls ≡ call_of _numbers.now _bytes.now ∷ self.old.calls }
    {}

    /// The file of that name was picked. `none`: there was none, so that it reads as empty; it was made, unless it was
    /// picked to be read alone.
    pub fn opened(&mut self, none: bool, name: &[u8])
        ensures { self.new.calls ≡ opened none name.now ∷ self.old.calls }
    {
        if none {
            self.note(&[0], name)
        } else {
            self.note(&[1], name)
        }
    }

    /// An empty file of that name was made, since there was none, but it couldn't be picked.
    pub fn made(&mut self, name: &[u8])
        ensures { self.new.calls ≡ made name.now ∷ self.old.calls }
    {
        self.note(&[2], name)
    }

    /// The picked file has so many bytes.
    pub fn sized(&mut self, size: u64)
        ensures { self.new.calls ≡ sized size ∷ self.old.calls }
    {
        self.note(&[3, size], &[])
    }

    /// These bytes came from that offset on; none: the file ends there.
    pub fn gave(&mut self, at: u64, bytes: &[u8])
        ensures { self.new.calls ≡ gave at bytes.now ∷ self.old.calls }
    {
        self.note(&[4, at], bytes)
    }

    /// These bytes were put from that offset on.
    pub fn wrote(&mut self, at: u64, bytes: &[u8])
        ensures { self.new.calls ≡ wrote at bytes.now ∷ self.old.calls }
    {
        self.note(&[5, at], bytes)
    }

    /// A call that was to put these bytes from that offset on failed.
    pub fn tore(&mut self, at: u64, bytes: &[u8])
        ensures { self.new.calls ≡ tore at bytes.now ∷ self.old.calls }
    {
        self.note(&[6, at], bytes)
    }

    /// A sync of the picked file succeeded; of one that isn't there, there is nothing to be put on the disk.
    pub fn synced(&mut self)
        ensures { self.new.calls ≡ synced ∷ self.old.calls }
    {
        self.note(&[7], &[])
    }

    /// These bytes were written to standard output.
    pub fn said(&mut self, bytes: &[u8])
        ensures { self.new.calls ≡ said bytes.now ∷ self.old.calls }
    {
        self.note(&[8], bytes)
    }
}
