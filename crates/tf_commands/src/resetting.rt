//! How a flow that was reverted is put back, to be run anew.

ghost use Rattle.std.specs.Prelude.{◌≡◌, ◌≢◌, ◌≤◌, ℕ, List, Option, None, Some, false, IsSome, IsTrue};
ghost use Rattle.tf_desk.specs.State.{told_as};
ghost use Rattle.tf_book.specs.Book.{BookValue};
ghost use Rattle.tf_commands.specs.Books.{ResetsBook};
ghost use Rattle.tf_commands.specs.Asking.{HasEachCause, counts_of};
ghost use Rattle.tf_commands.specs.Runs.{HoldsBook, IsPutBackTo, GoesBack};
ghost use Rattle.tf_journal.specs.Start.{Open};

use crate::books::forbid;
use crate::finding::open_flow;
use crate::running::{Over, say_cause};
use std::alloc::Global;
use tf_book::{Book, ResetFault};
use tf_desk::Desk;
use tf_report::{SUCCEEDED, UNHIRED, UNREAD};
use tf_values::{Name, Text};

/// Opens the flow of a book that is asked for, and puts it back, which has to be REVERTED with every atom settled: each
/// REVERTED or IGNORE atom becomes PENDING, in tree order, and then the flow does.
pub fn reset_book<K: Desk>(alloc: Global, name: &Text, wanted: &Option<Name>, desk: K) -> Over<K>
    ensures resets { ResetsBook name.now wanted.now (told_as (K.state result.desk) (K.state desk))
        (K.state result.desk) result.status }
    ensures falls { IsTrue (K.state result.desk).tells → IsTrue (K.state desk).tells }
    ensures causes { HasEachCause result.status (counts_of (K.state desk) 0 0)
        (counts_of (K.state result.desk) 0 0) }
{
    match open_flow(alloc, desk, name, wanted) {
        Ok(book) => put_back(alloc, book),
        Err(over) => over,
    }
}

/// Puts a book's flow back, or says why not.
fn put_back<K: Desk>(alloc: Global, mut book: Book<K>) -> Over<K>
    requires sound { book.halt ≡ None }
    requires speaks { book.quiet ≡ false }
    requires kept { book.journal.volatile ≡ false }
    ensures goes { (name : List ℕ) (wanted : Option (List ℕ)) (entry seen : K)
        → Open name (told_as (K.state seen) (K.state entry)) (K.state book.journal.desk)
        → HoldsBook name wanted (told_as (K.state seen) (K.state entry)) book
        → ResetsBook name wanted (told_as (K.state seen) (K.state entry)) (K.state result.desk) result.status }
    ensures tells { (K.state result.desk).tells ≡ (K.state book.journal.desk).tells }
    ensures causes { HasEachCause result.status (counts_of (K.state book.journal.desk) 0 0)
        (counts_of (K.state result.desk) 0 0) }
{
    match book.reset() {
        Ok(()) => {
            let _pending = book.state();
            Over {
                desk: book.close(),
                status: SUCCEEDED,
            }
        }
        Err(ResetFault::Forbidden(state)) => {
            let named = book.machine().plan().root().name;
            forbid(alloc, &named, state, book.close())
        }
        Err(ResetFault::Book(_fault)) => stop(alloc, book),
    }
}

/// Says why a book was halted while its flow was put back, unless its output failed or memory ran out.
fn stop<K: Desk>(alloc: Global, book: Book<K>) -> Over<K>
    requires halted { IsSome book.halt }
    ensures goes { (start : BookValue K)
        → IsPutBackTo K.state start book
        → GoesBack K.state start (K.state result.desk) result.status }
    ensures apart { (result.status ≢ UNREAD) × (result.status ≢ UNHIRED) }
    ensures asks { (K.state book.journal.desk).asks ≤ (K.state result.desk).asks }
{
    match book.halted() {
        Some(halt) => {
            let _standing = book.state();
            let mut desk = book.close();
            let status = say_cause(alloc, halt, &mut desk);
            Over { desk, status }
        }
        None => unreachable!(),
    }
}
