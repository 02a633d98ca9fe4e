ghost use Rattle.std.specs.Prelude.{◌≡◌, ◌≢◌, ◌⊎◌, ◌≤◌, ◌<◌, ◌+◌, ◌++◌, ◌∷◌, [], ℕ, List, None, true, false, IsTrue, length, vec_capacity, OnOk, IfOk, IfErr, MatchResult, Ok};
ghost use Rattle.tf_numbers.specs.Numbers.{Rises};
ghost use Rattle.tf_desk.specs.State.{bytes_now, anything, Trusts, Rests, GoesOn};
ghost use Rattle.tf_journal.specs.Adding.{Adds, AddsAtMost, AddsToDraft, StaysDraft, Publishes, PublishesAtMost, Grows, FailsToAppend, FailsToPublish};
ghost use Rattle.tf_journal.specs.Answers.{RefusesFile, RefusesRecord, GivesRecord, FailsToCreate, FailsToRead};
ghost use Rattle.tf_journal.specs.Birth.{born_bytes, draft_bytes};
ghost use Rattle.tf_journal.specs.Format.{length_bytes, is_unborn, bodies, recovered, record_at, IsBody, IsAtRest, IsDrafted, IsReady, IsDraft, AtRest, AsDraft, HasSynced, IsSynced, LeavesUnborn, LeavesBirth, desk_after};
ghost use Rattle.tf_journal.specs.Reach.{IsWindow};
ghost use Rattle.tf_journal.specs.Reading.{IsWindowOf, OnlyReads};

use crate::birth::{bear, begin};
use crate::faults::{AppendFault, JournalFault};
use crate::gates::{OPEN, write_gated, write_synced};
use crate::reading::read_record;
use crate::scanning::{SIZE_LIMIT, find_end};
use crate::title::Title;
use crate::window::Window;
use std::alloc::Global;
use std::marker::Model;
use tf_desk::Desk;
use tf_values::Memory;

/// The greatest length of what is written behind a gate: a length, a body and the next gate.
const TAIL_LIMIT: usize = 1_048_577 + 5;

/// The size of a journal without a record.
const EMPTY_SIZE: u64 = 18;

/// Bodies in a file, each of which a crash leaves once its append answered `Ok`. A volatile journal keeps
/// nothing and counts sizes alike. A draft is a journal whose file stays unborn until it is published, all its bodies
/// at once. Contracts see its desk, its title, its size, whether an append found a
/// disk fault, and whether it is volatile.
#[derive(Drop)]
pub struct Journal<K: Desk> {
    desk: K,
    title: Title,
    size: u64,
    halted: bool,
    volatile: bool,
    buffer: Vec<u8>,
}

impl<K: Desk> Model for Journal<K> {
    ghost use Rattle.std.specs.Prelude.{◌≤◌, vec_capacity};
    ghost use Rattle.tf_journal.specs.Format.{Held};

    ghost Value = { Held K };

    ghost view = { λ j. record { desk = j.desk; title = j.title; size = j.size; halted = j.halted; volatile = j.volatile } };

    ghost invariant = { λ j. (1048582 ≤ vec_capacity j.buffer) × (18 ≤ j.size) × (j.size ≤ 67108864) };
}

/// Puts the body's length, the body and a closed gate into the buffer, in place of what it has.
fn fill(buffer: &mut Vec<u8>, body: &[u8])
    requires body { length body.now ≤ 1048577 }
    requires room { 1048582 ≤ vec_capacity buffer.old }
    ensures items { buffer.new.items ≡ length_bytes (length body.now) ++ (body.now ++ 0 ∷ []) }
    ensures room { 1048582 ≤ vec_capacity buffer.new }
{
    let n = body.len();
    buffer.clear();
    let _ = buffer.extend_from_slice(&[
        (n / 256 / 256 / 256) as u8,
        (n / 256 / 256 % 256) as u8,
        (n / 256 % 256) as u8,
        (n % 256) as u8,
    ]);
    let _ = buffer.extend_from_slice(body);
    let _ = buffer.push(0);
}

impl<K: Desk> Journal<K> {
    /// Makes a journal without a record in the picked file, which has to be unborn. A crash leaves an unborn
    /// file or a journal without a record. `Err` is `Disk` or `Memory`, and hands the desk back. In a file of a book of
    /// several flows the bytes behind the first 18 stay; it is the same there to draft a journal and to publish it.
    pub fn create(alloc: Global, mut desk: K, title: Title) -> Result<Journal<K>, (K, JournalFault)>
        requires { IsTrue (K.state desk).tells → is_unborn title (bytes_now (K.state desk)) ≡ true }
        ensures made { IfOk result (λ journal. (journal.title ≡ title) × (journal.size ≡ 18)
            × (journal.halted ≡ false) × (journal.volatile ≡ false)) }
        ensures born { IfOk result (λ journal. IsTrue (K.state journal.desk).tells
            → bytes_now (K.state journal.desk) ≡ born_bytes title (bytes_now (K.state desk))) }
        ensures at_rest { IfOk result (λ journal. IsTrue (K.state journal.desk).tells → IsAtRest K.state journal []) }
        ensures goes { Trusts (GoesOn (LeavesBirth title (K.state desk).shown))
            (K.state desk) (K.state (desk_after result)) }
        ensures fails { IfErr result (λ back. FailsToCreate back.1 (K.state desk) (K.state back.0)) }
        ensures untouched { IfErr result (λ back. back.1 ≡ JournalFault.Memory → back.0 ≡ desk) }
    {
        let Ok(buffer) = Vec::with_capacity(alloc, TAIL_LIMIT) else {
            return Err((desk, JournalFault::Memory));
        };
        match bear(&mut desk, title) {
            Ok(()) => Ok(Journal {
                desk,
                title,
                size: EMPTY_SIZE,
                halted: false,
                volatile: false,
                buffer,
            }),
            Err(_) => Err((desk, JournalFault::Disk)),
        }
    }

    /// Makes a draft without a record in the picked file, which has to be unborn, for a book of several flows. The
    /// file stays unborn whatever is appended, after each crash too, until the draft is published; the bytes behind
    /// its first 18 stay. `Err` is `Disk` or `Memory`, leaves the file unborn, and hands the desk back.
    pub fn draft(alloc: Global, mut desk: K, title: Title) -> Result<Journal<K>, (K, JournalFault)>
        requires book { title ≡ Title.Book2 }
        requires unborn { IsTrue (K.state desk).tells → is_unborn title (bytes_now (K.state desk)) ≡ true }
        ensures made { IfOk result (λ journal. (journal.title ≡ title) × (journal.size ≡ 18)
            × (journal.halted ≡ false) × (journal.volatile ≡ false)) }
        ensures begun { IfOk result (λ journal. IsTrue (K.state journal.desk).tells
            → bytes_now (K.state journal.desk) ≡ draft_bytes title (bytes_now (K.state desk))) }
        ensures drafted { IfOk result (λ journal. IsTrue (K.state journal.desk).tells → IsDrafted K.state journal []) }
        ensures goes { Trusts (GoesOn (LeavesUnborn title (K.state desk).shown))
            (K.state desk) (K.state (desk_after result)) }
        ensures fails { IfErr result (λ back. FailsToCreate back.1 (K.state desk) (K.state back.0)) }
        ensures untouched { IfErr result (λ back. back.1 ≡ JournalFault.Memory → back.0 ≡ desk) }
    {
        let Ok(buffer) = Vec::with_capacity(alloc, TAIL_LIMIT) else {
            return Err((desk, JournalFault::Memory));
        };
        match begin(&mut desk, title) {
            Ok(()) => Ok(Journal {
                desk,
                title,
                size: EMPTY_SIZE,
                halted: false,
                volatile: false,
                buffer,
            }),
            Err(_) => Err((desk, JournalFault::Disk)),
        }
    }

    /// Reads the picked file as a journal of that title. `Unborn`, `Old` and `NotABook` come exactly where recovery
    /// says so of the whole file, `Old` for a book of several flows alone, `Disk` only where the count of disk faults
    /// rose. No file changes. The file is synced first: unless the answer is `Disk`, there is a moment in it since
    /// which a crash leaves just what a read gives.
    pub fn load(alloc: Global, mut desk: K, title: Title) -> Result<Journal<K>, (K, JournalFault)>
        ensures made { IfOk result (λ journal. (journal.title ≡ title) × (journal.halted ≡ false)
            × (journal.volatile ≡ false)) }
        ensures recovers { IsTrue (K.state (desk_after result)).tells → MatchResult result
            (λ journal. (held : List (List ℕ))
            × (recovered title (bytes_now (K.state desk)) ≡ bodies held)
            × IsAtRest K.state journal held)
            (λ back. RefusesFile back.1 (recovered title (bytes_now (K.state desk)))) }
        ensures old_format { IfErr result (λ back. back.1 ≡ JournalFault.Old → title ≡ Title.Book2) }
        ensures rests { Trusts Rests (K.state desk) (K.state (desk_after result)) }
        ensures synced { IsTrue (K.state (desk_after result)).tells → IsSynced
            (K.state desk) (K.state (desk_after result)) }
        ensures at_sync { IsTrue (K.state (desk_after result)).tells → IfErr result (λ back. back.1 ≢ JournalFault.Disk)
            → HasSynced (K.state desk) (K.state (desk_after result)) }
        ensures cause { IfErr result (λ back. back.1 ≡ JournalFault.Disk
            → Rises (K.state desk).disk_faults (K.state back.0).disk_faults) }
    {
        match find_end(&mut desk, title) {
            Ok(size) => match Vec::with_capacity(alloc, TAIL_LIMIT) {
                Ok(buffer) => Ok(Journal {
                    desk,
                    title,
                    size,
                    halted: false,
                    volatile: false,
                    buffer,
                }),
                Err(_) => Err((desk, JournalFault::Memory)),
            },
            Err(fault) => Err((desk, fault)),
        }
    }

    /// A journal that keeps nothing: it calls the disk for nothing, and its size is that of a journal kept.
    pub fn volatile(alloc: Global, desk: K) -> Result<Journal<K>, (K, Memory)>
        ensures made { IfOk result (λ journal. (journal.desk ≡ desk) × (journal.size ≡ 18) × (journal.halted ≡ false)
            × (journal.volatile ≡ true)) }
        ensures title { IfOk result (λ journal. journal.title ≡ Title.Book2) }
        ensures back { IfErr result (λ back. back.0 ≡ desk) }
    {
        match Vec::with_capacity(alloc, TAIL_LIMIT) {
            Ok(buffer) => Ok(Journal {
                desk,
                title: Title::Book2,
                size: EMPTY_SIZE,
                halted: false,
                volatile: true,
                buffer,
            }),
            Err(_) => Err((desk, Memory)),
        }
    }

    /// Adds a body of 1 to 1,048,576 bytes, in a book of several flows of 1 to 1,048,577. After `Ok` every crash leaves
    /// it; a crash inside leaves the bodies from before, with the new one or without. A draft stays one, and a crash
    /// leaves its file unborn. `Full` comes exactly where the size and what is needed pass
    /// 67,108,864, and nothing changed; `Disk` only where the count of disk faults rose, and from then on each
    /// append answers `Halted` and changes nothing. It takes no memory.
    pub fn append(&mut self, body: &[u8]) -> Result<(), AppendFault>
        requires ready { IsReady K.state self.old ⊎ IsDraft K.state self.old }
        requires body { IsBody self.old.title body.now }
        ensures grows { OnOk result (Grows body.now self.old self.new) }
        ensures adds { OnOk result (AtRest K.state self.old (Adds K.state body.now self.old self.new)) }
        ensures at_most { AtRest K.state self.old (AddsAtMost K.state body.now self.old self.new) }
        ensures drafts { OnOk result (AsDraft K.state self.old (AddsToDraft K.state body.now self.old self.new)) }
        ensures unborn { AsDraft K.state self.old (λ held. StaysDraft K.state self.old self.new) }
        ensures fails { IfErr result (FailsToAppend K.state body.now self.old self.new) }
        ensures volatile { self.old.volatile ≡ true → self.new.desk ≡ self.old.desk }
        ensures goes { GoesOn anything (K.state self.old.desk) (K.state self.new.desk) }
    {
        if self.halted {
            return Err(AppendFault::Halted);
        }
        let size = self.size;
        let need = 5 + body.len() as u64;
        if size + need > SIZE_LIMIT {
            return Err(AppendFault::Full { size, need });
        }
        if self.volatile {
            self.size = size + need;
            return Ok(());
        }
        fill(&mut self.buffer, body);
        match write_gated(&mut self.desk, size - 1, &self.buffer) {
            Ok(()) => {
                self.size = size + need;
                Ok(())
            }
            Err(_) => Err(self.halt()),
        }
    }

    /// Takes no body from now on, since the disk failed.
    fn halt(&mut self) -> AppendFault
        ensures halted { self.new ≡ record self.old { halted = true } }
        ensures fault { result ≡ AppendFault.Disk }
    {
        self.halted = true;
        AppendFault::Disk
    }

    /// Opens the gate of a draft's file, with which all its bodies count at once. After `Ok` every crash leaves them;
    /// a crash inside leaves the file unborn, or all of them. `Disk` comes only where the count of disk faults rose,
    /// and from then on each append answers `Halted`, as after an append that answered `Disk`; `Halted` comes exactly
    /// then, and changes nothing; `Full` never. It takes no memory.
    pub fn publish(&mut self) -> Result<(), AppendFault>
        requires draft { IsDraft K.state self.old }
        ensures grows { OnOk result ((self.new ≡ record self.old { desk = self.new.desk })
            × (self.old.halted ≡ false)) }
        ensures publishes { OnOk result (AsDraft K.state self.old (Publishes K.state self.old self.new)) }
        ensures at_most { AsDraft K.state self.old (PublishesAtMost K.state self.old self.new) }
        ensures fails { IfErr result (FailsToPublish K.state self.old self.new) }
        ensures volatile { self.old.volatile ≡ true → self.new.desk ≡ self.old.desk }
        ensures goes { GoesOn anything (K.state self.old.desk) (K.state self.new.desk) }
    {
        if self.halted {
            return Err(AppendFault::Halted);
        }
        if self.volatile {
            return Ok(());
        }
        match write_synced(&mut self.desk, 0, &[OPEN]) {
            Ok(()) => Ok(()),
            Err(_) => Err(self.halt()),
        }
    }

    /// Reads the record whose gate is at that place, from 17 to 67,108,863, into the vector, and answers the
    /// next gate's place; `None` at a gate that isn't open or isn't there, and the vector stays. `NotABook`
    /// comes exactly where the file has no record behind the open gate there, `Disk` only where the count of
    /// disk faults rose, and `Unborn` and `Old` never. A volatile journal answers `None`. No file changes.
    pub fn body_at(&mut self, place: u64, into: &mut Vec<u8>) -> Result<Option<u64>, JournalFault>
        requires low { 17 ≤ place }
        requires high { place < 67108864 }
        ensures gives { IsTrue (K.state self.new.desk).tells → self.old.volatile ≡ false
            → IfOk result
            (λ next. GivesRecord next into.old.items into.new.items
            (record_at self.old.title (bytes_now (K.state self.old.desk)) place)) }
        ensures refuses { IsTrue (K.state self.new.desk).tells → self.old.volatile ≡ false
            → IfErr result
            (λ fault. RefusesRecord fault (record_at self.old.title (bytes_now (K.state self.old.desk)) place)) }
        ensures volatile { self.old.volatile ≡ true → (result ≡ Ok None) × (self.new ≡ self.old)
            × (into.new.items ≡ into.old.items) }
        ensures fails { IfErr result (λ fault. FailsToRead fault (K.state self.old.desk) (K.state self.new.desk)) }
        ensures reads { OnlyReads K.state self.old self.new }
    {
        let mut window = self.window()?;
        self.body_through(&mut window, place, into)
    }

    /// A window onto the journal's file that has no byte of it yet. `Disk` comes only where the count of disk faults
    /// rose, and no other fault. A volatile journal asks the disk for nothing. No file changes, and it takes no memory.
    pub fn window(&mut self) -> Result<Window, JournalFault>
        ensures shows { self.old.volatile ≡ false
            → IfOk result (IsWindowOf (K.state self.new.desk)) }
        ensures volatile { self.old.volatile ≡ true → self.new ≡ self.old }
        ensures fails { IfErr result (λ fault. (self.old.volatile ≡ false) × (fault ≡ JournalFault.Disk)
            × Rises (K.state self.old.desk).disk_faults (K.state self.new.desk).disk_faults) }
        ensures reads { OnlyReads K.state self.old self.new }
    {
        if self.volatile {
            return Ok(Window::make(0));
        }
        match self.desk.size() {
            Ok(size) => Ok(Window::make(size)),
            Err(_) => Err(JournalFault::Disk),
        }
    }

    /// Reads the record whose gate is at that place as `body_at` does, through a window onto the journal's file, which
    /// is one after each answer too.
    pub(crate) fn body_through(
        &mut self,
        window: &mut Window,
        place: u64,
        into: &mut Vec<u8>,
    ) -> Result<Option<u64>, JournalFault>
        requires { place < 67108864 }
        ensures gives { IsTrue (K.state self.new.desk).tells → self.old.volatile ≡ false
            → IsWindow (bytes_now (K.state self.old.desk)) window.old
            → IfOk result
            (λ next. GivesRecord next into.old.items into.new.items
            (record_at self.old.title (bytes_now (K.state self.old.desk)) place)) }
        ensures refuses { IsTrue (K.state self.new.desk).tells → self.old.volatile ≡ false
            → IsWindow (bytes_now (K.state self.old.desk)) window.old
            → IfErr result
            (λ fault. RefusesRecord fault (record_at self.old.title (bytes_now (K.state self.old.desk)) place)) }
        ensures window { IsWindowOf (K.state self.old.desk) window.old
            → IsWindowOf (K.state self.new.desk) window.new }
        ensures volatile { self.old.volatile ≡ true → (result ≡ Ok None) × (self.new ≡ self.old)
            × (into.new.items ≡ into.old.items) }
        ensures fails { IfErr result (λ fault. FailsToRead fault (K.state self.old.desk) (K.state self.new.desk)) }
        ensures reads { OnlyReads K.state self.old self.new }
    {
        if self.volatile {
            return Ok(None);
        }
        read_record(&mut self.desk, window, self.title, place, into)
    }

    /// The place after the last gate.
    pub fn size(&self) -> u64
        ensures { result ≡ self.now.size }
    {
        self.size
    }

    /// The desk back.
    pub fn into_desk(self) -> K
        ensures { result ≡ self.desk }
    {
        let Journal {
            desk,
            title: _,
            size: _,
            halted: _,
            volatile: _,
            buffer: _,
        } = self;
        desk
    }
}

impl<K: Desk> Journal<K> {
    ghost use Rattle.std.specs.Prelude.{◌≡◌};
    ghost use Rattle.std.specs.Borrow.{Lends, sem};
    ghost use Rattle.tf_journal.specs.contracts.journal.Journal.{the_row};

    /// The desk, lent for `say` and `stop_asked`.
    pub fn desk(&mut self) -> &mut K
        ensures* lends { sem 𝓛
            (Lends (the_row K.row K.Desk) K.row self.entry result (λ desk. record self.entry.now { desk = desk })) }
        ensures value { result.now ≡ self.old.desk }
    {
        &mut self.desk
    }
}
