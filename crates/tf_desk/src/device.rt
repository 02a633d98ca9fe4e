ghost use Rattle.std.specs.Prelude.{◌≡◌, ℕ, ◌≤◌, true, false, IsTrue, List, length, Some, None, is_some, OnOk, OnErr, IfOk, IfErr};
ghost use Rattle.tf_numbers.specs.Numbers.{Rises};
ghost use Rattle.tf_desk.specs.Crash.{written, Reads, shown_with};
ghost use Rattle.tf_desk.specs.State.{DeskState, bytes_now, LeftNow, OnDisk, Unmarked, told_as, Trusts, Rests, GoesOn, Tears, Syncs, Says, Asks, Picks, PicksNone, LeavesMade, MeetsNoDiskFault, MeetsNoOutputFault, FailsOnDisk, FailsOnOutput, FailsToPick};

use std::alloc::Global;
use tf_values::Text;

/// Why a call of a desk failed: the disk's fault, the output's, or want of memory.
#[derive(Clone, Copy, Debug, PartialEq, Eq)]
pub enum DeskFault {
    Disk,
    Out,
    Memory,
}

/// The device that keeps files, one of which is picked, and shows what is said. Disk and output share
/// one clock. Between two syncs a crash may leave any bytes in each range that was written and past the
/// old end, and a length between the old and the new one; after a sync that succeeds it leaves what is
/// read. What was shown stays shown.
pub trait Desk: Drop {
    /// What the desk tells: whether it tells what its files hold and what a crash may leave, the text shown so
    /// far, the files, the picked name, the moment and the marks, and how often each fault and each question
    /// came. The counts never fall, and stand still at the greatest u64; a desk that tells nothing tells them.
    ghost state: { Self → DeskState };

    /// Picks the file of that name, and makes it empty where there is none. Where it fails nothing is
    /// picked, and an empty file may have been made. `Memory` is answered here alone.
    fn pick(&mut self, alloc: Global, name: &Text) -> Result<(), DeskFault>
        ensures picked { OnOk result (IsTrue (state self.new).tells
            → Picks name.now (state self.old) (state self.new)) }
        ensures unpicked { OnErr result (IsTrue (state self.new).tells
            → PicksNone name.now (state self.old) (state self.new)) }
        ensures leaves { IsTrue (state self.new).tells → LeavesMade name.now (state self.old) (state self.new) }
        ensures on_disk { Trusts (OnDisk (LeftNow (state self.new))) (state self.old) (state self.new) }
        ensures calm { OnOk result (MeetsNoDiskFault (state self.old) (state self.new)) }
        ensures fails { IfErr result (λ fault. FailsToPick fault (state self.old) (state self.new)) };

    /// How many bytes the picked file has.
    fn size(&mut self) -> Result<u64, DeskFault>
        ensures size { IfOk result (λ size. IsTrue (state self.new).tells
            → size ≡ length (bytes_now (state self.old))) }
        ensures unmarked { Unmarked (told_as (state self.new) (state self.old)) (state self.new) }
        ensures rests { Trusts Rests (state self.old) (state self.new) }
        ensures calm { OnOk result (MeetsNoDiskFault (state self.old) (state self.new)) }
        ensures fails { IfErr result (λ fault. FailsOnDisk fault (state self.old) (state self.new)) };

    /// Fills the buffer with the picked file's bytes from that offset on, and answers how many it put
    /// there: fewer than the buffer holds only at the file's end.
    fn read(&mut self, at: u64, buf: &mut [u8]) -> Result<usize, DeskFault>
        ensures bound { IfOk result (λ n. n ≤ length buf.new) }
        ensures bytes { IfOk result (λ n. IsTrue (state self.new).tells
            → Reads (bytes_now (state self.old)) at buf.new n) }
        ensures unmarked { Unmarked (told_as (state self.new) (state self.old)) (state self.new) }
        ensures rests { Trusts Rests (state self.old) (state self.new) }
        ensures calm { OnOk result (MeetsNoDiskFault (state self.old) (state self.new)) }
        ensures fails { IfErr result (λ fault. FailsOnDisk fault (state self.old) (state self.new)) };

    /// Puts the bytes into the picked file from that offset on, which is at most its size. Until a sync a
    /// crash may leave any bytes there. A write that fails counts as written in part.
    fn write_at(&mut self, at: u64, bytes: &[u8]) -> Result<(), DeskFault>
        requires { IsTrue (state self.old).tells → at ≤ length (bytes_now (state self.old)) }
        ensures wrote { OnOk result (IsTrue (state self.old).tells
            → bytes_now (state self.new) ≡ written (bytes_now (state self.old)) at bytes.now) }
        ensures tears { IsTrue (state self.old).tells
            → Tears at (length bytes.now) (state self.old) (state self.new) }
        ensures goes { GoesOn (LeftNow (state self.new)) (state self.old) (state self.new) }
        ensures calm { OnOk result (MeetsNoDiskFault (state self.old) (state self.new)) }
        ensures fails { IfErr result (λ fault. FailsOnDisk fault (state self.old) (state self.new)) };

    /// Puts what was written to the picked file on the disk. After `Ok` a crash leaves what is read of it.
    fn sync(&mut self) -> Result<(), DeskFault>
        ensures synced { OnOk result (IsTrue (state self.old).tells → Syncs (state self.old) (state self.new)) }
        ensures unsynced { OnErr result (Unmarked (state self.old) (state self.new)) }
        ensures rests { Rests (state self.old) (state self.new) }
        ensures calm { OnOk result (MeetsNoDiskFault (state self.old) (state self.new)) }
        ensures fails { IfErr result (λ fault. FailsOnDisk fault (state self.old) (state self.new)) };

    /// Appends the bytes to the shown text. Where it fails, a prefix of the bytes was shown, and the
    /// count of output faults rose.
    fn say(&mut self, bytes: &[u8]) -> Result<(), DeskFault>
        ensures said { OnOk result ((state self.new).shown ≡ shown_with (state self.old).shown bytes.now) }
        ensures says { Says bytes.now (state self.old) (state self.new) }
        ensures calm { OnOk result (MeetsNoOutputFault (state self.old) (state self.new)) }
        ensures fails { IfErr result (λ fault. FailsOnOutput fault (state self.old) (state self.new)) };

    /// Whether a stop is asked for. `true` comes only where the count of asks rose, and `false` only
    /// where it stayed.
    fn stop_asked(&mut self) -> bool
        ensures asked { result ≡ true → Rises (state self.old).asks (state self.new).asks }
        ensures unasked { result ≡ false → (state self.new).asks ≡ (state self.old).asks }
        ensures asks { Asks (state self.old) (state self.new) };

    /// A desk that tells its content tells its shown text.
    ghost tells_shown: { (desk : Self) → IsTrue (state desk).tells → IsTrue (is_some (state desk).shown) };

    /// The picked name has a file.
    ghost picked_is_there: { (desk : Self) (name : List ℕ) → IsTrue (state desk).tells
        → (state desk).content.picked ≡ Some name → (state desk).content.files name ≡ Some (bytes_now (state desk)) };

    /// What a file reads as is among what a crash now may leave of it.
    ghost reads_left: { (desk : Self) (name bytes : List ℕ) → IsTrue (state desk).tells
        → (state desk).content.files name ≡ Some bytes → (state desk).left name bytes };

    /// Of a name without a file nothing is left.
    ghost none_left: { (desk : Self) (name image : List ℕ) → IsTrue (state desk).tells
        → (state desk).content.files name ≡ None → (state desk).left name image → ⊥ };

    /// An earlier start allows more.
    ghost earlier_allows: { (desk : Self) (early late : ℕ) (image text : List ℕ) → IsTrue (state desk).tells
        → early ≤ late → (state desk).crashes late image text → (state desk).crashes early image text };

    /// This moment is one of those since an earlier one.
    ghost counts_now: { (desk : Self) (start : ℕ) (image text : List ℕ) → IsTrue (state desk).tells
        → start ≤ (state desk).content.clock → LeftNow (state desk) image text
        → (state desk).crashes start image text };

    /// Since this moment there is no other.
    ghost only_now: { (desk : Self) (image text : List ℕ) → IsTrue (state desk).tells
        → (state desk).crashes (state desk).content.clock image text → LeftNow (state desk) image text };
}
