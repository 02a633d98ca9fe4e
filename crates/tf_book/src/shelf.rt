//! A shelf: a book's file before one of its details is opened or a new one begins.
ghost use Rattle.std.specs.Prelude.{◌≡◌, [], length, true, IfOk, IfErr};
ghost use Rattle.tf_details.specs.Elements.{details, IsLegalBook};
ghost use Rattle.tf_details.specs.Reading.{HasGathered};
ghost use Rattle.tf_book.specs.Shelf.{desk_at, desk_of, is_volatile, IsPlaced};
ghost use Rattle.tf_book.specs.Book.{listed};
ghost use Rattle.tf_book.specs.Histories.{KeepsHistory};

mod loading;
mod opening;
mod starting;

use crate::buffers::Buffers;
use crate::history::History;
use std::alloc::{AllocError, Global};
use std::marker::Model;
use tf_desk::Desk;
use tf_details::Gathering;
use tf_journal::Journal;
use tf_states::FlowState;
use tf_values::{Memory, Name};

/// A detail of a book, as it is listed: the name of its root flow, and the state of that flow.
#[derive(Drop)]
pub struct Detail {
    pub name: Name,
    pub state: FlowState,
}

/// Where the elements of a shelf stand: in a journal; or nowhere yet, and the file is unborn.
#[derive(Drop)]
pub(crate) enum Place<K: Desk> {
    Kept(Journal<K>),
    Unborn(K),
}

impl<K: Desk> Place<K> {
    /// The desk back.
    pub(crate) fn into_desk(self) -> K
        ensures { result ≡ desk_at self }
    {
        match self {
            Place::Kept(journal) => journal.into_desk(),
            Place::Unborn(desk) => desk,
        }
    }
}

/// Nothing was read yet of a book, of which the history of the detail with that number is to be gathered.
fn begin_gathering(alloc: Global, number: u16) -> Result<Gathering<History>, AllocError>
    ensures number { IfOk result (λ gathering. gathering.number ≡ number) }
    ensures gathered { IfOk result (λ gathering. HasGathered KeepsHistory gathering []) }
{
    let history = History::with_room(alloc)?;
    Gathering::begin(alloc, number, history)
}

/// What a book's file holds, of which a detail is to be opened or begun. Contracts see the elements, and where they
/// stand.
#[derive(Drop)]
pub struct Shelf<K: Desk> {
    alloc: Global,
    place: Place<K>,
    read: Gathering<History>,
    list: Vec<Detail>,
}

impl<K: Desk> Model for Shelf<K> {
    ghost use Rattle.std.specs.Coded.{codes};
    ghost use Rattle.std.specs.Prelude.{◌≡◌, ◌≤◌, vec_capacity};
    ghost use Rattle.tf_flow.specs.contracts.nested.Flow as flow;
    ghost use Rattle.tf_details.specs.Elements.{details, history, IsLegalBook};
    ghost use Rattle.tf_details.specs.Reading.{elements_in, AreMachinesOf};
    ghost use Rattle.tf_book.specs.Shelf.{ShelfValue, IsPlaced};
    ghost use Rattle.tf_book.specs.Book.{listed};
    ghost use Rattle.tf_book.specs.Histories.{KeepsHistory};

    ghost Value = { ShelfValue K };

    ghost coded = { Prim.hlevel (codes, flow.the_row.coded) };

    ghost view = { λ s. record { place = s.place; elements = elements_in s.read } };

    ghost invariant = { λ s. IsPlaced K.state s.place (elements_in s.read) × IsLegalBook (elements_in s.read)
        × AreMachinesOf s.read.details (elements_in s.read) × (67108864 ≤ vec_capacity s.read.marks)
        × (s.list.items ≡ listed (elements_in s.read))
        × KeepsHistory s.read.kept (history s.read.number (elements_in s.read)) };
}

impl<K: Desk> Shelf<K> {
    /// A shelf without a detail that keeps nothing: it calls the disk for nothing, and counts sizes alike.
    pub fn volatile(alloc: Global, desk: K) -> Result<Shelf<K>, (K, Memory)>
        ensures none { IfOk result (λ shelf. shelf.elements ≡ []) }
        ensures volatile { IfOk result (λ shelf. is_volatile shelf.place ≡ true) }
        ensures desk { IfOk result (λ shelf. desk_of shelf ≡ desk) }
        ensures back { IfErr result (λ back. back.0 ≡ desk) }
    {
        match Buffers::make(alloc) {
            Ok(buffers) => Shelf::volatile_in(alloc, buffers, desk),
            Err(_) => Err((desk, Memory)),
        }
    }

    /// The same in buffers that were taken before.
    pub fn volatile_in(alloc: Global, buffers: Buffers, desk: K) -> Result<Shelf<K>, (K, Memory)>
        ensures none { IfOk result (λ shelf. shelf.elements ≡ []) }
        ensures volatile { IfOk result (λ shelf. is_volatile shelf.place ≡ true) }
        ensures desk { IfOk result (λ shelf. desk_of shelf ≡ desk) }
        ensures back { IfErr result (λ back. back.0 ≡ desk) }
    {
        let Ok(read) = Gathering::begin(alloc, 0, buffers.into_history()) else {
            return Err((desk, Memory));
        };
        match Journal::volatile(alloc, desk) {
            Ok(journal) => Ok(Shelf {
                alloc,
                place: Place::Kept(journal),
                read,
                list: Vec::new(alloc),
            }),
            Err(back) => Err(back),
        }
    }

    /// The details, in the order of their numbers, which count from 0: the names of their root flows, no two of which
    /// are equal, and the states of these. The elements are a legal book, which stands where the shelf says.
    #[tactic(auto, using(crate::proofs::ShelfLemmas::listed_long))]
    pub fn details(&self) -> &[Detail]
        ensures list { result.now ≡ listed self.now.elements }
        ensures count { length result.now ≡ length (details self.now.elements) }
        ensures legal { IsLegalBook self.now.elements }
        ensures placed { IsPlaced K.state self.now.place self.now.elements }
    {
        &self.list
    }

    /// The desk back.
    pub fn close(self) -> K
        ensures { result ≡ desk_of self }
    {
        let Shelf {
            alloc: _,
            place,
            read: _,
            list: _,
        } = self;
        place.into_desk()
    }
}
