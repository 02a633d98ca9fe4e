ghost use Rattle.std.specs.Prelude.{◌≡◌, ◌≢◌, ◌<◌, ◌≤◌, ◌⊎◌, length, false, vec_capacity, IsTrue, IfOk, IfErr};
ghost use Rattle.tf_numbers.specs.Numbers.{Rises};
ghost use Rattle.tf_desk.specs.State.{Trusts, Rests};
ghost use Rattle.tf_details.specs.Elements.{details, history, CannotFollow, IsLegalBook};
ghost use Rattle.tf_details.specs.Reading.{elements_in, AreMachinesOf, HasGathered};
ghost use Rattle.tf_journal.specs.Reading.{OnlyReads};
ghost use Rattle.tf_records.specs.Replaying.{HasReadAll, FailsToReadBack};
ghost use Rattle.tf_book.specs.Histories.{KeepsHistory};
ghost use Rattle.tf_book.specs.Shelf.{desk_of, desk_after_open, HoldsElements, IsOpened};
ghost use Rattle.tf_book.specs.declared.shelf.Place.TheVariants as place;

use super::{Place, Shelf, begin_gathering};
use crate::book::Book;
use crate::history::History;
use crate::holding::Holding;
use crate::writing::Draft;
use std::alloc::Global;
use tf_desk::Desk;
use tf_details::Gathering;
use tf_journal::{Journal, LoadFault};
use tf_records::read_back;

/// Reads a journal again, and gathers the history of one detail.
fn gather<K: Desk>(
    alloc: Global,
    journal: &mut Journal<K>,
    number: u16,
) -> Result<Gathering<History>, LoadFault>
    requires in_file { journal.old.volatile ≡ false }
    ensures read { IfOk result (λ gathering. HasReadAll K.state (HasGathered KeepsHistory)
        journal.old journal.new.desk gathering) }
    ensures number { IfOk result (λ gathering. gathering.number ≡ number) }
    ensures fails { IfErr result (λ fault. FailsToReadBack K.state CannotFollow
        fault journal.old journal.new.desk) }
    ensures reads { OnlyReads K.state journal.old journal.new }
{
    let Ok(mut gathering) = begin_gathering(alloc, number) else {
        return Err(LoadFault::Memory);
    };
    match read_back(alloc, journal, &mut gathering) {
        Ok(()) => Ok(gathering),
        Err(fault) => Err(fault),
    }
}

/// The book of the detail whose history was gathered as the journal was read.
fn open_gathered<K: Desk>(
    alloc: Global,
    journal: Journal<K>,
    gathering: Gathering<History>,
) -> Result<Book<K>, (K, LoadFault)>
    requires holds { HoldsElements K.state journal (elements_in gathering) }
    requires in_file { journal.volatile ≡ false }
    requires legal { IsLegalBook (elements_in gathering) }
    requires machines { AreMachinesOf gathering.details (elements_in gathering) }
    requires within { gathering.number < length gathering.details }
    requires room { 67108864 ≤ vec_capacity gathering.marks }
    requires kept { KeepsHistory gathering.kept (history gathering.number (elements_in gathering)) }
    ensures opened { IfOk result (IsOpened K.state (record {
      place = place.Kept journal;
      elements = elements_in gathering;
    }) gathering.number) }
    ensures rests { Rests (K.state journal.desk) (K.state (desk_after_open result)) }
    ensures memory { IfErr result (λ back. back.1 ≡ LoadFault.Memory) }
{
    let Ok(draft) = Draft::make(alloc) else {
        return Err((journal.into_desk(), LoadFault::Memory));
    };
    let Gathering {
        details,
        marks,
        number,
        kept,
    } = gathering;
    let machine = details.into_machine(number);
    Ok(Book {
        alloc,
        journal,
        machine,
        history: kept,
        holding: Holding { number, marks },
        draft,
        quiet: false,
        halt: None,
        failed: None,
        limit: None,
    })
}

impl<K: Desk> Shelf<K> {
    /// Opens the detail of that number, from 0 and below the count of the details, to go on with it: its history is kept
    /// in memory, and no other. That of the first was gathered as the file was read; for another it is read again.
    /// `Disk` comes only where the count of disk faults rose; `Old` never, and `NotABook` never where the file is as it
    /// was when it was loaded. Each hands the desk back; no file changes.
    pub fn open(self, number: u16) -> Result<Book<K>, (K, LoadFault)>
        requires { number < length (details self.elements) }
        ensures opened { IfOk result (IsOpened K.state self number) }
        ensures rests { Trusts Rests (K.state (desk_of self)) (K.state (desk_after_open result)) }
        ensures cause { IfErr result (λ back. back.1 ≡ LoadFault.Disk
            → Rises (K.state (desk_of self)).disk_faults (K.state back.0).disk_faults) }
        ensures new_format { IfErr result (λ back. back.1 ≢ LoadFault.Old) }
        ensures book { IsTrue (K.state (desk_after_open result)).tells
            → IfErr result (λ back. (back.1 ≡ LoadFault.Disk) ⊎ (back.1 ≡ LoadFault.Memory)) }
    {
        let Shelf {
            alloc,
            place,
            read,
            list: _,
        } = self;
        let Place::Kept(mut journal) = place else {
            unreachable!();
        };
        if number == read.number {
            return open_gathered(alloc, journal, read);
        }
        // What was read first isn't kept beside what is read now.
        drop(read);
        let gathering = match gather(alloc, &mut journal, number) {
            Ok(gathering) => gathering,
            Err(fault) => return Err((journal.into_desk(), fault)),
        };
        let Ok(draft) = Draft::make(alloc) else {
            return Err((journal.into_desk(), LoadFault::Memory));
        };
        let Gathering {
            details,
            marks,
            number: _,
            kept,
        } = gathering;
        if number >= details.count() {
            let offset = journal.size();
            return Err((
                journal.into_desk(),
                LoadFault::NotABook { offset, byte: None },
            ));
        }
        let machine = details.into_machine(number);
        Ok(Book {
            alloc,
            journal,
            machine,
            history: kept,
            holding: Holding { number, marks },
            draft,
            quiet: false,
            halt: None,
            failed: None,
            limit: None,
        })
    }
}
