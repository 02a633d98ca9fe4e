ghost use Rattle.std.specs.Prelude.{◌≡◌, ◌≢◌, ℕ, List, [], true, false, IsTrue, IfOk, IfErr};
ghost use Rattle.tf_numbers.specs.Numbers.{Rises};
ghost use Rattle.tf_desk.specs.State.{bytes_now, Trusts, Rests};
ghost use Rattle.tf_details.specs.Elements.{Element, CannotFollow};
ghost use Rattle.tf_details.specs.Reading.{AreMachinesOf};
ghost use Rattle.tf_journal.specs.Format.{recovered, is_unborn, IsAtRest, HasSynced, IsSynced};
ghost use Rattle.tf_journal.specs.declared.title.Title.TheVariants.{Book2 as book_title};
ghost use Rattle.tf_records.specs.Replaying.{FailsToReadBack};
ghost use Rattle.tf_book.specs.Book.{RefusesBook, listed};
ghost use Rattle.tf_book.specs.declared.shelf.Place.TheVariants as place;
ghost use Rattle.tf_book.specs.Shelf.{desk_of, desk_after_load, is_volatile, IsFoundAs, IsReadFrom};

use super::{Detail, Place, Shelf, begin_gathering};
use std::alloc::Global;
use tf_desk::Desk;
use tf_details::Details;
use tf_journal::{Journal, JournalFault, LoadFault, Title};
use tf_records::read_back;
use tf_values::Memory;

/// The list of the details.
fn list(alloc: Global, details: &Details) -> Result<Vec<Detail>, Memory>
    ensures { IfOk result (λ list. (elements : List Element) → AreMachinesOf details.now elements
        → list.items ≡ listed elements) }
{
    let mut list = Vec::new(alloc);
    'listing: for number in 0..details.count() {
        list.push(Detail {
            name: *details.name(number),
            state: details.state(number),
        })?;
    }
    Ok(list)
}

impl<K: Desk> Shelf<K> {
    /// A shelf without a detail, whose file is unborn.
    fn unborn(alloc: Global, desk: K) -> Result<Shelf<K>, (K, LoadFault)>
        requires { IsTrue (K.state desk).tells → is_unborn book_title (bytes_now (K.state desk)) ≡ true }
        ensures made { IfOk result (λ shelf. (shelf.place ≡ place.Unborn desk) × (shelf.elements ≡ [])) }
        ensures back { IfErr result (λ back. (back.0 ≡ desk) × (back.1 ≡ LoadFault.Memory)) }
    {
        match begin_gathering(alloc, 0) {
            Ok(read) => Ok(Shelf {
                alloc,
                place: Place::Unborn(desk),
                read,
                list: Vec::new(alloc),
            }),
            Err(_) => Err((desk, LoadFault::Memory)),
        }
    }

    /// Reads the bodies of a journal that was loaded, and gathers the history of the first detail, which is opened most
    /// often.
    fn read(alloc: Global, mut journal: Journal<K>) -> Result<Shelf<K>, (K, LoadFault)>
        requires title { journal.title ≡ book_title }
        requires sound { journal.halted ≡ false }
        requires kept { journal.volatile ≡ false }
        requires told { IsTrue (K.state journal.desk).tells → (held : List (List ℕ))
            × IsAtRest K.state journal held }
        ensures kept { IfOk result (λ shelf. is_volatile shelf.place ≡ false) }
        ensures loads { IfOk result (λ shelf. IsTrue (K.state (desk_of shelf)).tells → (held : List (List ℕ))
            → IsAtRest K.state journal held → IsReadFrom shelf held) }
        ensures fails { IfErr result (λ back. FailsToReadBack K.state CannotFollow back.1 journal back.0) }
        ensures rests { Trusts Rests (K.state journal.desk) (K.state (desk_after_load result)) }
    {
        let Ok(mut read) = begin_gathering(alloc, 0) else {
            return Err((journal.into_desk(), LoadFault::Memory));
        };
        match read_back(alloc, &mut journal, &mut read) {
            Ok(()) => match list(alloc, &read.details) {
                Ok(list) => Ok(Shelf {
                    alloc,
                    place: Place::Kept(journal),
                    read,
                    list,
                }),
                Err(_) => Err((journal.into_desk(), LoadFault::Memory)),
            },
            Err(fault) => Err((journal.into_desk(), fault)),
        }
    }

    /// Reads the picked file as a book, body by body. `NotABook` comes only where the file is no journal of a book, or
    /// where one of its bodies is that of no element that may stand there; the offset and the byte are those of the
    /// body's first byte. `Old` comes exactly where the file has the title of a book of one flow. `Disk` comes only where
    /// the count of disk faults rose. No file changes. The file is synced first: unless the answer is `Disk`, there is a
    /// moment in it since which a crash leaves just what a read gives.
    #[tactic(auto, using(tf_journal::proofs::CrashLemmas::synced_on))]
    pub fn load(alloc: Global, desk: K) -> Result<Shelf<K>, (K, LoadFault)>
        ensures kept { IfOk result (λ shelf. is_volatile shelf.place ≡ false) }
        ensures loads { IfOk result (λ shelf. IsTrue (K.state (desk_of shelf)).tells
            → IsFoundAs shelf.place shelf.elements (recovered book_title (bytes_now (K.state desk)))) }
        ensures refused { IfErr result (λ back. IsTrue (K.state back.0).tells
            → RefusesBook back.1 (recovered book_title (bytes_now (K.state desk)))) }
        ensures cause { IfErr result (λ back. back.1 ≡ LoadFault.Disk
            → Rises (K.state desk).disk_faults (K.state back.0).disk_faults) }
        ensures rests { Trusts Rests (K.state desk) (K.state (desk_after_load result)) }
        ensures synced { IsTrue (K.state (desk_after_load result)).tells
            → IsSynced (K.state desk) (K.state (desk_after_load result)) }
        ensures at_sync { IsTrue (K.state (desk_after_load result)).tells
            → IfErr result (λ back. back.1 ≢ LoadFault.Disk)
            → HasSynced (K.state desk) (K.state (desk_after_load result)) }
    {
        match Journal::load(alloc, desk, Title::Book2) {
            Ok(journal) => Shelf::read(alloc, journal),
            Err((desk, fault)) => match fault {
                JournalFault::Unborn => Shelf::unborn(alloc, desk),
                JournalFault::Disk => Err((desk, LoadFault::Disk)),
                JournalFault::Memory => Err((desk, LoadFault::Memory)),
                JournalFault::Old => Err((desk, LoadFault::Old)),
                JournalFault::NotABook { offset, byte } => {
                    Err((desk, LoadFault::NotABook { offset, byte }))
                }
            },
        }
    }
}
