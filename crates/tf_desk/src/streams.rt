//! The calls of the system on an open file and on standard output, each noted with its answer, and the loops of them.
//!
//! No proof shows that a function that notes a call makes it, with those bytes and at that offset: `write_once`,
//! `read_once` and `say_once` are to be read by eye. That a call which was interrupted did nothing is taken on trust.
ghost use Rattle.std.specs.Prelude.{◌≡◌, ◌∷◌, ◌≤◌, ◌<◌, length, take, IsTrue, IfSome, IfNone, IfOk, OnErr};
ghost use Rattle.tf_trace.specs.Calls.{gave, wrote, tore, said};
ghost use Rattle.tf_desk.specs.Crash.{Reads};
ghost use Rattle.tf_desk.specs.State.{bytes_now};
ghost use Rattle.tf_desk.specs.Replay.{First, replay};
ghost use Rattle.tf_desk.specs.Loops.{Answers, PutsSome, SaysThem};
ghost use Rattle.tf_desk.specs.Streams.{ReadsOn};

use std::io::{self, Error, ErrorKind, Print, Read, Seek, SeekFrom};
use std::os::unix::fs::FileExt;
use tf_trace::Trace;

/// Whether the call was interrupted, and is to be tried again.
fn is_interrupted(error: &Error) -> bool {
    matches!(error.kind(), ErrorKind::Interrupted)
}

/// Fills the buffer from what the reader has left, in as many reads as it takes; an interrupted one is
/// tried again. It answers how many bytes it took, fewer than the buffer holds only at the reader's end.
/// `Err`: a read failed.
pub fn read_on<R: Read>(from: &mut R, buf: &mut [u8]) -> io::Result<usize>
    ensures bound { IfOk result (λ n. n ≤ length buf.new) }
    ensures taken { IfOk result (λ n. ReadsOn (R.remaining from.old) (R.remaining from.new) buf.new n) }
{
    let mut done = 0;
    for _ in 0..u64::MAX {
        if done >= buf.len() {
            return Ok(done);
        }
        match from.read(&mut buf[done..]) {
            Ok(0) => return Ok(done),
            Ok(n) => done += n,
            Err(error) => {
                if !is_interrupted(&error) {
                    return Err(error);
                }
            }
        }
    }
    Err(Error::from(ErrorKind::Interrupted))
}

/// How many bytes the file has.
pub fn end_of<F: Seek>(file: &mut F) -> io::Result<u64> {
    file.seek(SeekFrom::End(0))
}

/// Makes one write of the bytes at that offset, and notes how many it put, or that it failed. `None`: it was
/// interrupted, and did nothing.
fn write_once<F: FileExt>(
    file: &F,
    trace: &mut Trace,
    at: u64,
    bytes: &[u8],
) -> io::Result<Option<usize>>
    ensures bound { IfOk result (λ put. IfSome put (λ n. n ≤ length bytes.now)) }
    ensures put { IfOk result (λ put.
        IfSome put (λ n. trace.new.calls ≡ wrote at (take n bytes.now) ∷ trace.old.calls)) }
    ensures none { IfOk result (λ put. IfNone put (trace.new.calls ≡ trace.old.calls)) }
    ensures failed { OnErr result (trace.new.calls ≡ tore at bytes.now ∷ trace.old.calls) }
{
    match file.write_at(bytes, at) {
        Ok(n) => {
            trace.wrote(at, &bytes[..n]);
            Ok(Some(n))
        }
        Err(error) if is_interrupted(&error) => Ok(None),
        Err(error) => {
            trace.tore(at, bytes);
            Err(error)
        }
    }
}

/// Makes one read into the buffer from that offset on, and notes what it gave; nothing is the file's end. `None`: it
/// was interrupted, and did nothing.
fn read_once<F: FileExt>(
    file: &F,
    trace: &mut Trace,
    at: u64,
    buf: &mut [u8],
) -> io::Result<Option<usize>>
    requires some { 0 < length buf.old }
    ensures bound { IfOk result (λ got. IfSome got (λ n. n ≤ length buf.new)) }
    ensures got { IfOk result (λ got. IfSome got (λ n. trace.new.calls ≡ gave at (take n buf.new) ∷ trace.old.calls)) }
    ensures none { IfOk result (λ got. IfNone got (trace.new.calls ≡ trace.old.calls)) }
    ensures failed { OnErr result (trace.new.calls ≡ trace.old.calls) }
{
    match file.read_at(buf, at) {
        Ok(n) => {
            trace.gave(at, &buf[..n]);
            Ok(Some(n))
        }
        Err(error) if is_interrupted(&error) => Ok(None),
        Err(error) => Err(error),
    }
}

/// Makes one write of the bytes to standard output, and notes what was written. `None`: it was interrupted, and did
/// nothing. `Err`: it failed, and wrote nothing.
fn say_once<P: Print>(out: &P, trace: &mut Trace, bytes: &[u8]) -> io::Result<Option<usize>>
    ensures bound { IfOk result (λ put. IfSome put (λ n. n ≤ length bytes.now)) }
    ensures put { IfOk result (λ put. IfSome put (λ n. trace.new.calls ≡ said (take n bytes.now) ∷ trace.old.calls)) }
    ensures none { IfOk result (λ put. IfNone put (trace.new.calls ≡ trace.old.calls)) }
    ensures failed { OnErr result (trace.new.calls ≡ trace.old.calls) }
{
    match out.write_some(bytes) {
        Ok(n) => {
            trace.said(&bytes[..n]);
            Ok(Some(n))
        }
        Err(error) if is_interrupted(&error) => Ok(None),
        Err(error) => Err(error),
    }
}

/// Puts the bytes into the file from that offset on, in as many writes as it takes; an interrupted one is tried again.
/// `Err`: a write failed or took nothing, and some of the bytes were put.
pub fn write_whole<F: FileExt>(file: &F, trace: &mut Trace, at: u64, bytes: &[u8]) -> io::Result<()>
    ensures { (first : First)
        → PutsSome at bytes.now result (replay first trace.old.calls) (replay first trace.new.calls) }
{
    let mut done = 0;
    for _ in 0..u64::MAX {
        if done >= bytes.len() {
            return Ok(());
        }
        let Some(from) = at.checked_add(done as u64) else {
            return Err(Error::from(ErrorKind::InvalidInput));
        };
        match write_once(file, trace, from, &bytes[done..])? {
            Some(0) => return Err(Error::from(ErrorKind::WriteZero)),
            Some(n) => done += n,
            None => {}
        }
    }
    Err(Error::from(ErrorKind::Interrupted))
}

/// Fills the buffer with what the file has from that offset on, in as many reads as it takes; an interrupted one is
/// tried again. It answers how many bytes there are: fewer than the buffer holds only at the file's end. `Err`: a read
/// failed.
pub fn read_whole<F: FileExt>(
    file: &F,
    trace: &mut Trace,
    at: u64,
    buf: &mut [u8],
) -> io::Result<usize>
    ensures bound { IfOk result (λ n. n ≤ length buf.new) }
    ensures answers { (first : First) → Answers (replay first trace.old.calls) (replay first trace.new.calls) }
    ensures bytes { (first : First) → IfOk result (λ n. IsTrue (replay first trace.new.calls).tells
        → Reads (bytes_now (replay first trace.old.calls)) at buf.new n) }
{
    let mut done = 0;
    for _ in 0..u64::MAX {
        if done >= buf.len() {
            return Ok(done);
        }
        let Some(from) = at.checked_add(done as u64) else {
            return Err(Error::from(ErrorKind::InvalidInput));
        };
        match read_once(file, trace, from, &mut buf[done..])? {
            Some(0) => return Ok(done),
            Some(n) => done += n,
            None => {}
        }
    }
    Err(Error::from(ErrorKind::Interrupted))
}

/// Writes the bytes to standard output, in as many writes as it takes; an interrupted one is tried again.
/// `Err`: a write failed or took nothing, and a prefix of the bytes was written.
pub fn say_whole<P: Print>(out: &P, trace: &mut Trace, bytes: &[u8]) -> io::Result<()>
    ensures { (first : First)
        → SaysThem bytes.now result (replay first trace.old.calls) (replay first trace.new.calls) }
{
    let mut done = 0;
    for _ in 0..u64::MAX {
        if done >= bytes.len() {
            return Ok(());
        }
        match say_once(out, trace, &bytes[done..])? {
            Some(0) => return Err(Error::from(ErrorKind::WriteZero)),
            Some(n) => done += n,
            None => {}
        }
    }
    Err(Error::from(ErrorKind::Interrupted))
}
