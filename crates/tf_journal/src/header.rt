//! What the first bytes of a file show.
ghost use Rattle.std.specs.Prelude.{◌≡◌, ◌≤◌, ℕ, List, length, take, drop, true, ◌↔◌};
ghost use Rattle.tf_journal.specs.Format.{title_fault, has_title, is_old, is_unborn};
ghost use Rattle.tf_journal.specs.Header.{ShowsHeader};

use crate::gates::OPEN;
use crate::title::Title;

/// What the first 18 bytes of a file show: an unborn file, a book of one flow where one of several is asked for, a
/// journal, or none.
pub enum Header {
    Unborn,
    Old,
    Titled,
    Bad { offset: u64, byte: Option<u8> },
}

/// The first place at which the bytes differ from the letters, or at which they end; they stand from offset 1 on.
fn first_other(letters: &[u8], rest: &[u8]) -> Option<(u64, Option<u8>)>
    requires { length letters.now ≤ 16 }
    ensures { result ≡ title_fault letters.now rest.now 1 }
{
    for (at, letter) in letters.iter().enumerate() {
        let offset = at as u64 + 1;
        if at >= rest.len() {
            return Some((offset, None));
        }
        let byte = rest[at];
        if *letter != byte {
            return Some((offset, Some(byte)));
        }
    }
    if letters.len() < rest.len() {
        return None;
    }
    Some((letters.len() as u64 + 1, None))
}

/// Whether the bytes behind the first have these letters in front.
pub fn has_letters(head: &[u8], letters: &[u8; 17]) -> bool
    ensures { (result ≡ true) ↔ (take 16 (drop 1 head.now) ≡ take 16 letters.now) }
{
    if head.len() < 17 {
        return false;
    }
    head[1..17] == letters[..16]
}

/// Whether the title stands behind the gate of a file of that size as an unborn file may have it.
fn is_titled(head: &[u8], size: u64, title: Title) -> bool
    requires { 1 ≤ length head.now }
    ensures { (bytes : List ℕ) → head.now ≡ take 18 bytes → length bytes ≡ size
        → result ≡ has_title title (drop 1 bytes) }
{
    match title {
        Title::Book | Title::Jobs => size == 18 && &head[1..] == title.closed().as_slice(),
        Title::Book2 => has_letters(head, title.closed()),
    }
}

/// Whether a book of several flows is asked for and the title of a book of one stands behind the gate.
fn has_old_title(head: &[u8], title: Title) -> bool
    requires { 1 ≤ length head.now }
    ensures is { (bytes : List ℕ) → head.now ≡ take 18 bytes → result ≡ is_old title (drop 1 bytes) }
    ensures several { result ≡ true → title ≡ Title.Book2 }
{
    match title {
        Title::Book | Title::Jobs => false,
        Title::Book2 => has_letters(head, Title::Book.closed()),
    }
}

/// Whether a file of that size is unborn, of whose bytes the first 18 are enough.
fn looks_unborn(head: &[u8], size: u64, title: Title) -> bool
    requires { 2 ≤ length head.now }
    ensures { (bytes : List ℕ) → head.now ≡ take 18 bytes → length bytes ≡ size
        → result ≡ is_unborn title bytes }
{
    if size <= 18 && head[0] == 0 {
        return true;
    }
    if head[0] == OPEN {
        return false;
    }
    is_titled(head, size, title)
}

/// What a file shows of that size, of whose bytes the first 18 are enough.
pub fn read_header(head: &[u8], size: u64, title: Title) -> Header
    ensures shows { (bytes : List ℕ) → head.now ≡ take 18 bytes → length bytes ≡ size
        → ShowsHeader result title bytes }
    ensures old_format { result ≡ Header.Old → title ≡ Title.Book2 }
{
    let closed = title.closed();
    if head.len() < 2 {
        return Header::Unborn;
    }
    if looks_unborn(head, size, title) {
        return Header::Unborn;
    }
    if has_old_title(head, title) {
        return Header::Old;
    }
    if head[0] != OPEN {
        return Header::Bad {
            offset: 0,
            byte: Some(head[0]),
        };
    }
    match first_other(&closed[..16], &head[1..]) {
        Some((offset, byte)) => Header::Bad { offset, byte },
        None => Header::Titled,
    }
}
