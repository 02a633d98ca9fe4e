use crate::calls::REVERTED_FLOW;
use crate::faults::{NO_FAULTS, desk, ran_over};
use std::alloc::Global;
use std::sync::Wait;
use std::test::Fail;
use std::thread::Threads;
use tf_desk::{Desk, MemoryDesk, Torn};
use tf_report::SUCCEEDED;
use tf_values::Text;

/// The book of the older format that a run of the reverted flow left.
const OLD_BOOK: &[u8] = b"\
    \xa5TASKFLOW BOOK 1\x0a\xa5\x00\x00\x00\x93\x04main\x00\x00\x00\x03\x00\x01a\x00\x00\x00\x00\x01\x05value\
    \x05value\x00\x01\x05value\x03\x00\x00\x00\x00\x00\x00\x00\x01\x00\x00\x00\x00\x00\x00\x00\x01b\x00\x00\x00\
    \x00\x01\x05value\x05value\x00\x01\x05value\x03\x00\x00\x00\x00\x00\x00\x00\x02\x00\x00\x00\x00\x00\x00\x00\
    \x01c\x06\x00\x00\x00\x01\x07message\x07message\x00\x01\x07message\x04\x00\x00\x00\x02no\x00\x00\x00\x00\x00\
    \x00\x00\x00\x00\x00\x00\xa5\x00\x00\x00\x03\x00\x02\x01\xa5\x00\x00\x00\x05\x00\x01\x00\x00\x01\xa5\x00\x00\
    \x00\x0e\x00\x01\x00\x00\x02\x03\x00\x00\x00\x00\x00\x00\x00\x01\xa5\x00\x00\x00\x05\x00\x01\x00\x01\x01\xa5\
    \x00\x00\x00\x0e\x00\x01\x00\x01\x02\x03\x00\x00\x00\x00\x00\x00\x00\x02\xa5\x00\x00\x00\x05\x00\x01\x00\x02\
    \x01\xa5\x00\x00\x00\x0c\x00\x01\x00\x02\x03\x00\x00\x00\x00\x02no\xa5\x00\x00\x00\x05\x00\x03\x00\x00\x02\
    \xa5\x00\x00\x00\x05\x00\x01\x00\x02\x04\xa5\x00\x00\x00\x05\x00\x01\x00\x02\x05\xa5\x00\x00\x00\x05\x00\x01\
    \x00\x01\x04\xa5\x00\x00\x00\x05\x00\x01\x00\x01\x05\xa5\x00\x00\x00\x05\x00\x01\x00\x00\x04\xa5\x00\x00\x00\
    \x05\x00\x01\x00\x00\x05\xa5\x00\x00\x00\x03\x00\x02\x04\x00";

/// A desk whose file `O` is that book.
fn old_desk(alloc: Global) -> Result<MemoryDesk, Fail> {
    let mut desk = desk(alloc, &[])?;
    desk.pick(alloc, &Text::make(alloc, b"O")?)?;
    desk.write_at(0, OLD_BOOK)?;
    desk.sync()?;
    Ok(desk)
}

/// Whether the file `O` is still that book.
fn keeps_old(alloc: Global, desk: &mut MemoryDesk) -> Result<bool, Fail> {
    let mut buf = [0; 512];
    desk.pick(alloc, &Text::make(alloc, b"O")?)?;
    Ok(
        desk.size()? == OLD_BOOK.len() as u64
            && desk.read(0, &mut buf)? == OLD_BOOK.len()
            && &buf[..OLD_BOOK.len()] == OLD_BOOK,
    )
}

/// Whether after a crash in this call of the migration's desk, torn so, the old book is as it was, and the new one holds no flow or the whole one.
fn is_unborn_or_whole<R: Threads + Wait + Sync>(
    rt: &R,
    alloc: Global,
    ran: &MemoryDesk,
    call: u64,
    torn: Torn,
) -> Result<bool, Fail> {
    if call < 1 || call > ran.made() {
        return Err(Fail::from("no such call"));
    }
    let mut desk = ran.crashed(alloc, call, torn)?;
    if !keeps_old(alloc, &mut desk)? {
        return Ok(false);
    }
    let before = desk.shown().len();
    let words = ["details", "N"];
    let (desk, status) = ran_over(rt, alloc, desk, REVERTED_FLOW, &words, &NO_FAULTS, &[])?;
    let Some(said) = desk.shown().get(before..) else {
        return Ok(false);
    };
    Ok(status == SUCCEEDED && (said.is_empty() || said == b"0 main REVERTED\n".as_slice()))
}

/// Whether that is so of a crash in each call of the migration, torn so.
fn are_unborn_or_whole<R: Threads + Wait + Sync>(
    rt: &R,
    alloc: Global,
    torn: Torn,
) -> Result<bool, Fail> {
    let desk = old_desk(alloc)?;
    let first = desk.made() + 1;
    let words = ["migrate", "O", "N"];
    let (ran, status) = ran_over(rt, alloc, desk, REVERTED_FLOW, &words, &NO_FAULTS, &[])?;
    if status != SUCCEEDED || ran.shown() != b"migrated 15 entries\n".as_slice() {
        return Ok(false);
    }
    for call in first..=ran.made() {
        if !is_unborn_or_whole(rt, alloc, &ran, call, torn)? {
            return Ok(false);
        }
    }
    Ok(true)
}

#[test]
fn a_new_book_is_unborn_or_whole_after_a_crash_that_leaves_the_old_bytes(
    rt: HostRuntime,
) -> Result<(), Fail> {
    assert!(rt; are_unborn_or_whole(&rt, rt.alloc(), Torn::Old)?);
    Ok(())
}

#[test]
fn a_new_book_is_unborn_or_whole_after_a_crash_that_leaves_the_new_bytes(
    rt: HostRuntime,
) -> Result<(), Fail> {
    assert!(rt; are_unborn_or_whole(&rt, rt.alloc(), Torn::New)?);
    Ok(())
}
