//! How a flow of a book is shown: the lines of its whole history, and the table.

ghost use Rattle.std.specs.Prelude.{◌≡◌, ◌⊎◌, ℕ, List, IsTrue};
ghost use Rattle.tf_desk.specs.State.{told_as};
ghost use Rattle.tf_book.specs.Book.{outline};
ghost use Rattle.tf_book.specs.SessionInvariant.{history_text};
ghost use Rattle.tf_commands.specs.Books.{RefusesOrStops, ShowsBook, HasSaid};
ghost use Rattle.tf_commands.specs.Asking.{HasEachCause, counts_of};
ghost use Rattle.tf_journal.specs.Start.{Untouched};

use crate::books::say_over;
use crate::finding::open_flow;
use crate::running::Over;
use std::alloc::Global;
use tf_book::Book;
use tf_desk::Desk;
use tf_report::{OUT_OF_MEMORY, SUCCEEDED, UNSAID};
use tf_values::{Name, Text};

/// Opens the flow of a book that is asked for, and says the lines of its whole history and the table. Nothing is
/// recorded.
pub fn show_book<K: Desk>(alloc: Global, name: &Text, wanted: &Option<Name>, desk: K) -> Over<K>
    ensures shows { ShowsBook name.now wanted.now (told_as (K.state result.desk) (K.state desk))
        (K.state result.desk) result.status }
    ensures falls { IsTrue (K.state result.desk).tells → IsTrue (K.state desk).tells }
    ensures causes { HasEachCause result.status (counts_of (K.state desk) 0 0)
        (counts_of (K.state result.desk) 0 0) }
{
    match open_flow(alloc, desk, name, wanted) {
        Ok(book) => say_whole(book),
        Err(over) => over,
    }
}

/// Says the lines of a book's history and the table, unless memory runs out.
fn say_whole<K: Desk>(book: Book<K>) -> Over<K>
    ensures shows { (name : List ℕ) (entry seen : K)
        → Untouched name (told_as (K.state seen) (K.state entry)) (K.state book.journal.desk)
        → RefusesOrStops name (told_as (K.state seen) (K.state entry)) (K.state result.desk)
        (history_text (outline book) book.past) SUCCEEDED result.status }
    ensures said { HasSaid (K.state book.journal.desk) (K.state result.desk) result.status }
    ensures status { (result.status ≡ SUCCEEDED) ⊎ (result.status ≡ UNSAID) ⊎ (result.status ≡ OUT_OF_MEMORY) }
{
    match book.into_history_text() {
        Ok((text, desk)) => say_over(&text, SUCCEEDED, desk),
        Err((desk, _)) => Over {
            desk,
            status: OUT_OF_MEMORY,
        },
    }
}
