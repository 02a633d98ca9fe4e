ghost use Rattle.std.specs.Prelude.{◌≡◌, [], IfOk, length};
ghost use Rattle.tf_desk.specs.Acts.{content_after};
ghost use Rattle.tf_desk.specs.Crash.{bytes_of};

use std::alloc::Global;
use std::process::Abort;
use std::test::Fail;
use tf_desk::{Desk, MemoryDesk};
use tf_journal::{AppendFault, Journal, ScanFault, Scanned, Title, scan};
use tf_values::Text;

/// A desk with an empty picked file, of which the stated calls fail. Its pick was the first call.
fn desk(alloc: Global, failing: &[u64]) -> Result<MemoryDesk, Fail>
    ensures { IfOk result (λ desk. bytes_of (content_after desk.past) ≡ []) }
{
    let failing = Vec::from_slice(alloc, failing)?;
    let mut desk = MemoryDesk::make(alloc, 4096, 64, failing, Vec::new(alloc))?;
    desk.pick(alloc, &Text::make(alloc, b"book")?)?;
    Ok(desk)
}

/// That many bytes.
fn sevens(alloc: Global, count: usize) -> Result<Vec<u8>, Fail>
    ensures { IfOk result (λ bytes. length bytes.items ≡ count) }
{
    Ok(vec![in alloc; 7u8; count]?)
}

/// The picked file has these bytes, and no more.
fn assert_file(rt: &impl Abort, mut desk: MemoryDesk, bytes: &[u8]) {
    let mut buf = [0; 64];
    let size = desk.size();
    assert!(rt; size == Ok(bytes.len() as u64));
    let count = desk.read(0, &mut buf);
    assert!(rt; count == Ok(bytes.len()));
    assert!(rt; bytes.len() <= 64);
    assert_eq!(rt; &buf[..bytes.len()], bytes);
}

#[test]
fn a_gate_that_cannot_be_opened_halts(rt: HostRuntime) -> Result<(), Fail> {
    let alloc = rt.alloc();
    // The pick is call 1, the creation has the calls 2 to 10, and the third of the append opens its gate.
    let Ok(mut journal) = Journal::create(alloc, desk(alloc, &[13])?, Title::Book) else {
        return Err(Fail::from("not created"));
    };
    assert_eq!(rt; journal.append(&[1, 2]), Err(AppendFault::Disk));
    assert_eq!(rt; journal.append(&[1, 2]), Err(AppendFault::Halted));
    assert_eq!(rt; journal.size(), 18);
    assert_file(
        &rt,
        journal.into_desk(),
        b"\xa5TASKFLOW BOOK 1\n\0\0\0\0\x02\x01\x02\0",
    );
    Ok(())
}

#[test]
fn a_draft_is_unborn(rt: HostRuntime) -> Result<(), Fail> {
    let alloc = rt.alloc();
    let Ok(mut journal) = Journal::draft(alloc, desk(alloc, &[])?, Title::Book2) else {
        return Err(Fail::from("not drafted"));
    };
    assert_eq!(rt; journal.append(&[1, 2]), Ok(()));
    let mut desk = journal.into_desk();
    assert_eq!(rt; scan(&mut desk, Title::Book2), Ok(Scanned::Unborn));
    assert_file(&rt, desk, b"\0TASKFLOW BOOK 2\n\xa5\0\0\0\x02\x01\x02\0");
    Ok(())
}

#[test]
fn a_draft_is_a_journal_once_it_is_published(rt: HostRuntime) -> Result<(), Fail> {
    let alloc = rt.alloc();
    let Ok(mut journal) = Journal::draft(alloc, desk(alloc, &[])?, Title::Book2) else {
        return Err(Fail::from("not drafted"));
    };
    assert_eq!(rt; journal.publish(), Ok(()));
    let mut desk = journal.into_desk();
    let empty = Scanned::Records { count: 0, end: 18 };
    assert_eq!(rt; scan(&mut desk, Title::Book2), Ok(empty));
    assert_file(&rt, desk, b"\xa5TASKFLOW BOOK 2\n\0");
    Ok(())
}

#[test]
fn a_full_journal_refuses_by_its_two_numbers(rt: HostRuntime) -> Result<(), Fail> {
    let alloc = rt.alloc();
    let body = sevens(alloc, 1_048_576)?;
    let last = sevens(alloc, 1_048_230)?;
    let Ok(mut journal) = Journal::volatile(alloc, desk(alloc, &[])?) else {
        return Err(Fail::from("not made"));
    };
    for _ in 0..63 {
        assert_eq!(rt; journal.append(&body), Ok(()));
    }
    assert_eq!(rt; journal.append(&last), Ok(()));
    assert_eq!(rt; journal.size(), 67_108_856);
    let full = AppendFault::Full {
        size: 67_108_856,
        need: 9,
    };
    assert_eq!(rt; journal.append(&[1, 2, 3, 4]), Err(full));
    assert_eq!(rt; journal.append(&[1, 2, 3]), Ok(()));
    assert_eq!(rt; journal.size(), 67_108_864);
    let mut none = Vec::new(alloc);
    assert_eq!(rt; journal.body_at(17, &mut none), Ok(None));
    Ok(())
}

/// A desk with an empty picked file that takes so many bytes.
fn wide_desk(alloc: Global, capacity: usize) -> Result<MemoryDesk, Fail> {
    let mut desk = MemoryDesk::make(alloc, capacity, 10_000, Vec::new(alloc), Vec::new(alloc))?;
    desk.pick(alloc, &Text::make(alloc, b"book")?)?;
    Ok(desk)
}

/// Puts the bytes behind the file's.
fn add(desk: &mut MemoryDesk, bytes: &[u8]) -> Result<(), Fail> {
    let size = desk.size()?;
    desk.write_at(size, bytes)?;
    Ok(())
}

#[test]
fn what_is_no_journal_is_scanned(rt: HostRuntime) -> Result<(), Fail> {
    let alloc = rt.alloc();
    let mut desk = wide_desk(alloc, 64)?;
    assert_eq!(rt; scan(&mut desk, Title::Book), Ok(Scanned::Unborn));
    add(&mut desk, b"\xa5TASKFLOW JOBS 1\n\0")?;
    let fault = ScanFault::NotABook {
        offset: 10,
        byte: Some(b'J'),
    };
    assert_eq!(rt; scan(&mut desk, Title::Book), Err(fault));
    let empty = Scanned::Records { count: 0, end: 18 };
    assert_eq!(rt; scan(&mut desk, Title::Jobs), Ok(empty));
    Ok(())
}

#[test]
fn a_book_of_one_flow_is_no_book_of_several(rt: HostRuntime) -> Result<(), Fail> {
    let alloc = rt.alloc();
    let mut desk = wide_desk(alloc, 64)?;
    add(&mut desk, b"\xa5TASKFLOW BOOK 1\n\0")?;
    assert_eq!(rt; scan(&mut desk, Title::Book2), Err(ScanFault::Old));
    Ok(())
}

#[test]
fn records_that_lie_across_windows_are_scanned(rt: HostRuntime) -> Result<(), Fail> {
    let alloc = rt.alloc();
    let mut desk = wide_desk(alloc, 20_000)?;
    add(&mut desk, b"\xa5TASKFLOW BOOK 1\n")?;
    for _ in 0..1_000 {
        add(&mut desk, b"\xa5\0\0\0\x07seven..")?;
    }
    add(&mut desk, b"\0\xa5")?;
    let all = Scanned::Records {
        count: 1_000,
        end: 12_018,
    };
    assert_eq!(rt; scan(&mut desk, Title::Book), Ok(all));
    Ok(())
}

#[test]
fn a_journal_of_the_greatest_size_is_scanned(rt: HostRuntime) -> Result<(), Fail> {
    let alloc = rt.alloc();
    let mut desk = wide_desk(alloc, 67_108_864)?;
    let body = sevens(alloc, 1_048_576)?;
    let last = sevens(alloc, 1_048_230)?;
    add(&mut desk, b"\xa5TASKFLOW BOOK 1\n")?;
    for _ in 0..63 {
        add(&mut desk, b"\xa5\0\x10\0\0")?;
        add(&mut desk, &body)?;
    }
    add(&mut desk, b"\xa5\0\x0f\xfe\xa6")?;
    add(&mut desk, &last)?;
    add(&mut desk, b"\xa5\0\0\0\x03\x01\x02\x03\0")?;
    let all = Scanned::Records {
        count: 65,
        end: 67_108_864,
    };
    assert_eq!(rt; scan(&mut desk, Title::Book), Ok(all));
    Ok(())
}
