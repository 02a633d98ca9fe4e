//! How the details of a book are listed.

ghost use Rattle.std.specs.Prelude.{◌≡◌, ℕ, List, IsTrue};
ghost use Rattle.tf_desk.specs.State.{told_as};
ghost use Rattle.tf_book.specs.Shelf.{desk_of};
ghost use Rattle.tf_commands.specs.Asking.{HasEachCause, counts_of};
ghost use Rattle.tf_commands.specs.Begun.{IsShelfOf};
ghost use Rattle.tf_commands.specs.Books.{ListsDetails};

use crate::books::{open, refuse_book, say_over};
use crate::messages::append_details;
use crate::running::Over;
use std::alloc::Global;
use tf_book::Shelf;
use tf_desk::Desk;
use tf_report::{OUT_OF_MEMORY, SUCCEEDED};
use tf_values::Text;

/// Opens the book, and says a line of each of its details. Nothing is recorded.
pub fn list_details<K: Desk>(alloc: Global, name: &Text, desk: K) -> Over<K>
    ensures lists { ListsDetails name.now (told_as (K.state result.desk) (K.state desk)) (K.state result.desk)
        result.status }
    ensures falls { IsTrue (K.state result.desk).tells → IsTrue (K.state desk).tells }
    ensures causes { HasEachCause result.status (counts_of (K.state desk) 0 0)
        (counts_of (K.state result.desk) 0 0) }
{
    match open(alloc, desk, name) {
        Ok(shelf) => say_details(alloc, shelf),
        Err((desk, fault)) => refuse_book(alloc, desk, fault),
    }
}

/// Says the lines of a book's details, unless memory runs out.
fn say_details<K: Desk>(alloc: Global, shelf: Shelf<K>) -> Over<K>
    ensures lists { (name : List ℕ) (entry seen : K)
        → IsShelfOf K.state name (told_as (K.state seen) (K.state entry)) shelf
        → ListsDetails name (told_as (K.state seen) (K.state entry)) (K.state result.desk) result.status }
    ensures causes { HasEachCause result.status
        (counts_of (K.state (desk_of shelf)) 0 0) (counts_of (K.state result.desk) 0 0) }
    ensures tells { (K.state result.desk).tells ≡ (K.state (desk_of shelf)).tells }
{
    let mut text = Vec::new(alloc);
    let made = append_details(shelf.details(), &mut text);
    let desk = shelf.close();
    match made {
        Ok(()) => say_over(&text, SUCCEEDED, desk),
        Err(_) => Over {
            desk,
            status: OUT_OF_MEMORY,
        },
    }
}
