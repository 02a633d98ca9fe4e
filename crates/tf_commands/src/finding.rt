//! The details of a book: which one has a name, and which one a command asks for.

ghost use Rattle.std.specs.Prelude.{◌≡◌, ◌≤◌, ◌<◌, ◌+◌, ℕ, List, Option, false, length, position, None, Some, IfOk, IfErr, IfSome, IsTrue};
ghost use Rattle.tf_desk.specs.State.{told_as, Trusts};
ghost use Rattle.tf_details.specs.Elements.{Element, details};
ghost use Rattle.tf_book.specs.Shelf.{desk_of, is_volatile};
ghost use Rattle.tf_book.specs.Book.{listed};
ghost use Rattle.tf_commands.specs.Asking.{HasEachCause, counts_of};
ghost use Rattle.tf_commands.specs.Begun.{IsShelf, IsShelfOf, is_listed, IsNamedState, IsNumberAsked, IsReadyBook, desk_found};
ghost use Rattle.tf_commands.specs.Books.{IsAskedFor, Unfound};
ghost use Rattle.tf_commands.specs.Runs.{HoldsBook};
ghost use Rattle.tf_journal.specs.Start.{Open};

use crate::books::{open, refuse_book, say_empty, say_not_there};
use crate::running::Over;
use std::alloc::Global;
use tf_book::{Book, Detail, Shelf};
use tf_desk::Desk;
use tf_states::FlowState;
use tf_values::{Name, Text};

/// Where the detail of this name stands.
fn place_of(list: &[Detail], name: &Name) -> Option<usize>
    ensures is { result ≡ position (is_listed name.now) list.now }
    ensures within { IfSome result (λ place. place < length list.now) }
{
    list.iter().position(|detail| detail.name == *name)
}

/// The state of the flow of this name.
pub fn state_named(list: &[Detail], name: &Name) -> Option<FlowState>
    ensures { (elements : List Element) → list.now ≡ listed elements → IsNamedState elements name.now result }
{
    match place_of(list, name) {
        Some(place) => Some(list[place].state),
        None => None,
    }
}

/// The number of the last detail.
fn last_number(list: &[Detail]) -> Option<u16>
    requires few { length list.now ≤ 64 }
    ensures none { result ≡ None → length list.now ≡ 0 }
    ensures last { IfSome result (λ number. number + 1 ≡ length list.now) }
{
    if list.is_empty() {
        return None;
    }
    Some(list.len() as u16 - 1)
}

/// The number of the detail that is asked for: the one of this name, and without a name the last.
fn number_asked(list: &[Detail], wanted: &Option<Name>) -> Option<u16>
    requires few { length list.now ≤ 64 }
    ensures { (elements : List Element) → list.now ≡ listed elements → IsNumberAsked wanted.now elements result }
{
    match wanted {
        Some(name) => match place_of(list, name) {
            Some(place) => Some(place as u16),
            None => None,
        },
        None => last_number(list),
    }
}

/// Opens the book, and in it the flow that is asked for: the one of this name, and without a name the last. Where it
/// can't be had, it is said why.
pub fn open_flow<K: Desk>(
    alloc: Global,
    desk: K,
    name: &Text,
    wanted: &Option<Name>,
) -> Result<Book<K>, Over<K>>
    ensures opened { IfOk result (λ book. Trusts (Open name.now) (K.state desk) (K.state book.journal.desk)) }
    ensures holds { IfOk result (λ book. HoldsBook name.now wanted.now
        (told_as (K.state book.journal.desk) (K.state desk)) book) }
    ensures ready { IfOk result IsReadyBook }
    ensures unfound { IfErr result (λ over. Unfound name.now wanted.now (told_as (K.state over.desk) (K.state desk))
        (K.state over.desk) over.status) }
    ensures falls { IsTrue (K.state (desk_found result)).tells → IsTrue (K.state desk).tells }
    ensures asks { (K.state desk).asks ≤ (K.state (desk_found result)).asks }
    ensures causes { IfErr result (λ over. HasEachCause over.status
        (counts_of (K.state desk) 0 0) (counts_of (K.state over.desk) 0 0)) }
{
    match open(alloc, desk, name) {
        Ok(shelf) => open_asked(alloc, shelf, wanted),
        Err((desk, fault)) => Err(refuse_book(alloc, desk, fault)),
    }
}

/// Opens the flow of a book that is asked for, or says that there is none.
fn open_asked<K: Desk>(
    alloc: Global,
    shelf: Shelf<K>,
    wanted: &Option<Name>,
) -> Result<Book<K>, Over<K>>
    requires kept { is_volatile shelf.place ≡ false }
    ensures opened { IfOk result (λ book. (name : List ℕ) (entry seen : K)
        → Open name (told_as (K.state seen) (K.state entry)) (K.state (desk_of shelf))
        → Open name (told_as (K.state book.journal.desk) (K.state entry)) (K.state book.journal.desk)) }
    ensures holds { IfOk result (λ book. (name : List ℕ) (entry seen : K)
        → IsShelfOf K.state name (told_as (K.state seen) (K.state entry)) shelf
        → HoldsBook name wanted.now (told_as (K.state book.journal.desk) (K.state entry)) book) }
    ensures ready { IfOk result IsReadyBook }
    ensures unfound { IfErr result (λ over. (name : List ℕ) (entry seen : K)
        → IsShelfOf K.state name (told_as (K.state seen) (K.state entry)) shelf
        → Unfound name wanted.now (told_as (K.state over.desk) (K.state entry)) (K.state over.desk) over.status) }
    ensures falls { IsTrue (K.state (desk_found result)).tells → IsTrue (K.state (desk_of shelf)).tells }
    ensures asks { (K.state (desk_of shelf)).asks ≤ (K.state (desk_found result)).asks }
    ensures causes { IfErr result (λ over. HasEachCause over.status
        (counts_of (K.state (desk_of shelf)) 0 0) (counts_of (K.state over.desk) 0 0)) }
{
    match number_asked(shelf.details(), wanted) {
        Some(number) => open_number(alloc, shelf, number),
        None => Err(say_none(alloc, shelf, wanted)),
    }
}

/// Opens the flow of a book that has this number.
fn open_number<K: Desk>(alloc: Global, shelf: Shelf<K>, number: u16) -> Result<Book<K>, Over<K>>
    requires shelf { IsShelf K.state shelf }
    requires within { number < length (details shelf.elements) }
    ensures opened { IfOk result (λ book. (name : List ℕ) (entry seen : K)
        → Open name (told_as (K.state seen) (K.state entry)) (K.state (desk_of shelf))
        → Open name (told_as (K.state book.journal.desk) (K.state entry)) (K.state book.journal.desk)) }
    ensures holds { IfOk result (λ book. (name : List ℕ) (wanted : Option (List ℕ)) (entry seen : K)
        → IsShelfOf K.state name (told_as (K.state seen) (K.state entry)) shelf →
        IsAskedFor wanted shelf.elements number
        → HoldsBook name wanted (told_as (K.state book.journal.desk) (K.state entry)) book) }
    ensures ready { IfOk result IsReadyBook }
    ensures unfound { IfErr result (λ over. (name : List ℕ) (wanted : Option (List ℕ)) (entry seen : K)
        → IsShelfOf K.state name (told_as (K.state seen) (K.state entry)) shelf
        → Unfound name wanted (told_as (K.state over.desk) (K.state entry)) (K.state over.desk) over.status) }
    ensures falls { IsTrue (K.state (desk_found result)).tells → IsTrue (K.state (desk_of shelf)).tells }
    ensures asks { (K.state (desk_of shelf)).asks ≤ (K.state (desk_found result)).asks }
    ensures causes { IfErr result (λ over. HasEachCause over.status
        (counts_of (K.state (desk_of shelf)) 0 0) (counts_of (K.state over.desk) 0 0)) }
{
    match shelf.open(number) {
        Ok(book) => {
            let _state = book.state();
            Ok(book)
        }
        Err((desk, fault)) => Err(refuse_book(alloc, desk, fault)),
    }
}

/// Says that a book doesn't hold the flow that is asked for.
fn say_none<K: Desk>(alloc: Global, shelf: Shelf<K>, wanted: &Option<Name>) -> Over<K>
    requires none { IsNumberAsked wanted.now shelf.elements None }
    ensures unfound { (name : List ℕ) (entry seen : K)
        → IsShelfOf K.state name (told_as (K.state seen) (K.state entry)) shelf
        → Unfound name wanted.now (told_as (K.state seen) (K.state entry)) (K.state result.desk) result.status }
    ensures tells { (K.state result.desk).tells ≡ (K.state (desk_of shelf)).tells }
    ensures causes { HasEachCause result.status
        (counts_of (K.state (desk_of shelf)) 0 0) (counts_of (K.state result.desk) 0 0) }
{
    if shelf.details().is_empty() {
        return say_empty(shelf.close());
    }
    match wanted {
        Some(sought) => say_not_there(alloc, sought, shelf.close()),
        None => unreachable!(),
    }
}
