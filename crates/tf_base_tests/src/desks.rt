use crate::lists::{numbers, text};
use std::alloc::Global;
use std::process::Abort;
use std::test::Fail;
use tf_desk::{Desk, DeskFault, MemoryDesk, Torn};

/// A desk of which the calls of these numbers fail, and the turns of those ask for a stop.
fn desk_of(alloc: Global, failing: Vec<u64>, asking: Vec<u64>) -> Result<MemoryDesk, Fail> {
    let desk = MemoryDesk::make(alloc, 64, 20, failing, asking)?;
    Ok(desk)
}

/// A desk of which the stated calls fail and the stated turns ask for a stop.
fn desk(alloc: Global, failing: &[u64], asking: &[u64]) -> Result<MemoryDesk, Fail> {
    desk_of(alloc, numbers(alloc, failing)?, numbers(alloc, asking)?)
}

/// Picks the file `book`.
fn pick_book(alloc: Global, desk: &mut MemoryDesk) -> Result<(), Fail> {
    let name = text(alloc, b"book")?;
    desk.pick(alloc, &name)?;
    Ok(())
}

/// Such a desk, whose file `book` is picked by its first call.
fn picked(alloc: Global, failing: &[u64], asking: &[u64]) -> Result<MemoryDesk, Fail> {
    let mut desk = desk(alloc, failing, asking)?;
    pick_book(alloc, &mut desk)?;
    Ok(desk)
}

/// Writes at the beginning of the picked file.
fn write(desk: &mut MemoryDesk, bytes: &[u8]) -> Result<(), DeskFault> {
    desk.write_at(0, bytes)
}

/// Says a text.
fn say(desk: &mut MemoryDesk, text: &[u8]) -> Result<(), DeskFault> {
    desk.say(text)
}

/// Whether the desk asks for a stop.
fn asks(desk: &mut MemoryDesk) -> bool {
    desk.stop_asked()
}

/// The first bytes of the picked file, as far as there are so many.
fn read(desk: &mut MemoryDesk, buf: &mut [u8]) -> Result<usize, DeskFault> {
    desk.read(0, buf)
}

/// The picked file has these bytes, and no more.
fn assert_bytes(rt: &impl Abort, desk: &mut MemoryDesk, bytes: &[u8]) {
    let mut buf = [0; 32];
    assert!(rt; desk.size() == Ok(bytes.len() as u64));
    assert!(rt; read(desk, &mut buf) == Ok(bytes.len()));
    assert!(rt; bytes.len() <= 32);
    assert_eq!(rt; &buf[..bytes.len()], bytes);
}

/// The second turn of three asks for a stop.
fn assert_asks_once(rt: &impl Abort, desk: &mut MemoryDesk) {
    assert!(rt; !asks(desk));
    assert!(rt; asks(desk));
    assert!(rt; !asks(desk));
}

#[test]
fn the_stated_calls_fail(rt: HostRuntime) -> Result<(), Fail> {
    let alloc = rt.alloc();
    let mut desk = picked(alloc, &[2, 5, 7, 9], &[2])?;
    assert!(rt; write(&mut desk, b"abcd") == Err(DeskFault::Disk));
    assert_bytes(&rt, &mut desk, b"ab");
    assert!(rt; say(&mut desk, b"line") == Err(DeskFault::Out));
    assert!(rt; desk.shown() == b"li".as_slice());
    // The seventh call fails nothing, since it asks for a stop.
    assert_asks_once(&rt, &mut desk);
    assert!(rt; desk.sync() == Err(DeskFault::Disk));
    Ok(())
}

/// Thirty bytes are said, then three that pass the capacity, and then two that fit.
fn assert_says_what_fits(rt: &impl Abort, desk: &mut MemoryDesk) {
    assert!(rt; say(desk, &[8; 30]).is_ok());
    assert!(rt; say(desk, b"abc") == Err(DeskFault::Out));
    assert!(rt; desk.shown().len() == 30);
    assert!(rt; say(desk, b"ab").is_ok());
}

#[test]
fn what_passes_the_capacity_is_not_taken(rt: HostRuntime) -> Result<(), Fail> {
    let alloc = rt.alloc();
    let mut desk = desk(alloc, &[], &[])?;
    assert!(rt; write(&mut desk, b"a") == Err(DeskFault::Disk));
    pick_book(alloc, &mut desk)?;
    assert!(rt; write(&mut desk, &[7; 32]).is_ok());
    assert_says_what_fits(&rt, &mut desk);
    Ok(())
}

/// A desk that has four bytes on the disk, and three of them written anew, with a line said before and after the
/// last sync. Its calls: pick, write, sync, write, say, sync, say.
fn written_desk(alloc: Global) -> Result<MemoryDesk, Fail> {
    let mut desk = picked(alloc, &[], &[])?;
    write(&mut desk, b"abcd")?;
    desk.sync()?;
    write(&mut desk, b"XYZ")?;
    say(&mut desk, b"one")?;
    desk.sync()?;
    say(&mut desk, b"two")?;
    Ok(desk)
}

/// A crash in that call leaves these bytes and that text.
fn assert_crashed(
    rt: &impl Abort,
    alloc: Global,
    call: u64,
    torn: Torn,
    bytes: &[u8],
    text: &[u8],
) -> Result<(), Fail> {
    let desk = written_desk(alloc)?;
    if call < 1 || call > desk.made() {
        return Err(Fail::from("no such call"));
    }
    let mut crashed = desk.crashed(alloc, call, torn)?;
    assert_eq!(rt; crashed.made(), 0);
    assert_eq!(rt; crashed.shown(), text);
    assert_bytes(rt, &mut crashed, bytes);
    Ok(())
}

#[test]
fn a_crash_in_a_write_tears_it(rt: HostRuntime) -> Result<(), Fail> {
    let alloc = rt.alloc();
    assert_crashed(&rt, alloc, 2, Torn::Old, b"", b"")?;
    assert_crashed(&rt, alloc, 2, Torn::New, b"abcd", b"")?;
    assert_crashed(&rt, alloc, 4, Torn::Old, b"abcd", b"")?;
    assert_crashed(&rt, alloc, 4, Torn::New, b"XYZd", b"")?;
    // The draws are 0 of 1, and 11,249, 57,305 and 38,044 modulo 256.
    assert_crashed(&rt, alloc, 4, Torn::Mixed(1), b"\xf1\xd9\x9cd", b"")
}

#[test]
fn a_crash_in_a_sync_comes_before_it_is_done(rt: HostRuntime) -> Result<(), Fail> {
    let alloc = rt.alloc();
    assert_crashed(&rt, alloc, 6, Torn::Old, b"abcd", b"one")?;
    assert_crashed(&rt, alloc, 6, Torn::New, b"XYZd", b"one")?;
    assert_crashed(&rt, alloc, 6, Torn::Mixed(1), b"\xf1\xd9\x9cd", b"one")
}

#[test]
fn a_crash_in_a_say_shows_all_of_it_or_nothing(rt: HostRuntime) -> Result<(), Fail> {
    let alloc = rt.alloc();
    assert_crashed(&rt, alloc, 5, Torn::Old, b"abcd", b"")?;
    assert_crashed(&rt, alloc, 5, Torn::New, b"XYZd", b"one")?;
    assert_crashed(&rt, alloc, 7, Torn::Old, b"XYZd", b"one")?;
    assert_crashed(&rt, alloc, 7, Torn::Mixed(2), b"XYZd", b"onetwo")
}

/// A desk with two files: four bytes of `book` aren't synced, and then two of `other` are written. Its calls: pick,
/// write, pick, write.
fn desk_of_two(alloc: Global) -> Result<MemoryDesk, Fail> {
    let mut desk = picked(alloc, &[], &[])?;
    write(&mut desk, b"abcd")?;
    let other = text(alloc, b"other")?;
    desk.pick(alloc, &other)?;
    write(&mut desk, b"xy")?;
    Ok(desk)
}

/// A crash in the last call leaves these bytes of the picked file, and those that were written to `book`.
fn assert_leaves_both(
    rt: &impl Abort,
    alloc: Global,
    torn: Torn,
    bytes: &[u8],
) -> Result<(), Fail> {
    let desk = desk_of_two(alloc)?;
    if desk.made() != 4 {
        return Err(Fail::from("no such call"));
    }
    let mut crashed = desk.crashed(alloc, 4, torn)?;
    assert_bytes(rt, &mut crashed, bytes);
    pick_book(alloc, &mut crashed)?;
    assert_bytes(rt, &mut crashed, b"abcd");
    Ok(())
}

#[test]
fn a_crash_hands_the_other_files_on_as_they_read(rt: HostRuntime) -> Result<(), Fail> {
    let alloc = rt.alloc();
    assert_leaves_both(&rt, alloc, Torn::Old, b"")?;
    assert_leaves_both(&rt, alloc, Torn::New, b"xy")
}
