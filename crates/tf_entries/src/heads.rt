//! Heads of bodies: what stands in a book of several flows before the form of a plan or of an entry.
ghost use Rattle.std.specs.Prelude.{◌≡◌, ◌<◌, ◌≤◌, ◌+◌, ◌++◌, List, ℕ, length, Some, None, IsOk, OnOk, OnErr, MatchOption, vec_capacity};
ghost use Rattle.tf_values.specs.Growth.{KeepsPrefix};
ghost use Rattle.tf_entries.specs.Heads.{IsHead, BeginsWith, IsFound, head_bytes, read_head};

use crate::appending::append;
use crate::reader::u16_at;
use tf_values::Memory;

/// What a body of a book of several flows holds: the plan of a new flow, which the book calls a detail, or an
/// entry of the detail with that number. The plan's or the entry's form stands behind it.
#[derive(Clone, Copy, Debug, PartialEq, Eq)]
pub enum Head {
    Detail,
    Entry(u16),
}

/// Appends the bytes of a head, one or three. It takes no memory where the output has room of 3 bytes. `Memory`
/// comes where the output didn't grow, and leaves it as it was.
pub fn put_head(head: Head, out: &mut Vec<u8>) -> Result<(), Memory>
    ensures ok { OnOk result (out.new.items ≡ out.old.items ++ head_bytes head) }
    ensures is_head { IsHead head }
    ensures err { OnErr result (out.new.items ≡ out.old.items) }
    ensures room { length out.old.items + 3 ≤ vec_capacity out.old → IsOk result }
    ensures capacity { vec_capacity out.old ≤ vec_capacity out.new }
{
    let before = out.len();
    match append_head(head, out) {
        Ok(()) => Ok(()),
        Err(fault) => {
            out.truncate(before);
            Err(fault)
        }
    }
}

fn append_head(head: Head, out: &mut Vec<u8>) -> Result<(), Memory>
    ensures ok { OnOk result (out.new.items ≡ out.old.items ++ head_bytes head) }
    ensures err { OnErr result (KeepsPrefix out.old.items out.new.items) }
    ensures full { OnErr result (vec_capacity out.old < length out.old.items + 3) }
    ensures room { vec_capacity out.old ≤ vec_capacity out.new }
{
    match head {
        Head::Detail => append(&[1], out),
        Head::Entry(number) => {
            let [high, low] = number.to_be_bytes();
            append(&[2, high, low], out)
        }
    }
}

/// The head that the bytes begin with, and how many bytes it has. `None` comes exactly where they begin with none.
pub fn take_head(bytes: &[u8]) -> Option<(Head, usize)>
    ensures taken { MatchOption result ((first : Head) → BeginsWith bytes.now first → ⊥)
        (λ taken. BeginsWith bytes.now taken.0 × (taken.1 ≡ length (head_bytes taken.0))) }
    ensures back { (first : Head) (rest : List ℕ) → IsHead first → bytes.now ≡ head_bytes first ++ rest
        → result ≡ Some (first, length (head_bytes first)) }
{
    find_head(bytes)
}

fn find_head(bytes: &[u8]) -> Option<(Head, usize)>
    ensures { MatchOption result (read_head bytes.now ≡ None)
        (λ taken. IsFound bytes.now taken.0 × (taken.1 ≡ length (head_bytes taken.0))) }
{
    let (tag, rest) = bytes.split_first()?;
    match *tag {
        1 => Some((Head::Detail, 1)),
        2 => {
            let (number, _) = u16_at(rest)?;
            Some((Head::Entry(number), 3))
        }
        _ => None,
    }
}
