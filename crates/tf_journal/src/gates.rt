//! Writes that are on the disk when they answer.
ghost use Rattle.std.specs.Prelude.{◌≡◌, ◌≤◌, ◌<◌, ◌+◌, ◌^◌, ◌∷◌, [], IsTrue, length, OnOk, IfErr};
ghost use Rattle.tf_desk.specs.Crash.{written};
ghost use Rattle.tf_desk.specs.State.{bytes_now, IsDurable, GoesOn, FailsOnDisk};
ghost use Rattle.tf_journal.specs.Format.{OPEN};
ghost use Rattle.tf_journal.specs.Gates.{LeavesTornAt, LeavesGated};

use tf_desk::{Desk, DeskFault};

/// An open gate.
pub const OPEN: u8 = 0xa5;

/// Writes the bytes at the offset and syncs them.
pub fn write_synced<K: Desk>(desk: &mut K, at: u64, bytes: &[u8]) -> Result<(), DeskFault>
    requires within { IsTrue (K.state desk.old).tells → at ≤ length (bytes_now (K.state desk.old)) }
    requires durable { IsTrue (K.state desk.old).tells → IsDurable (K.state desk.old) }
    ensures written { OnOk result (IsTrue (K.state desk.old).tells
        → bytes_now (K.state desk.new) ≡ written (bytes_now (K.state desk.old)) at bytes.now) }
    ensures durable { OnOk result (IsTrue (K.state desk.old).tells → IsDurable (K.state desk.new)) }
    ensures goes { GoesOn (LeavesTornAt (bytes_now (K.state desk.old)) at (length bytes.now) (K.state desk.old).shown)
        (K.state desk.old) (K.state desk.new) }
    ensures fails { IfErr result (λ fault. FailsOnDisk fault (K.state desk.old) (K.state desk.new)) }
{
    desk.write_at(at, bytes)?;
    desk.sync()
}

/// Writes the bytes behind the gate at that place, which isn't open, syncs them, opens the gate and syncs
/// that: a crash leaves the gate as it was before the bytes stand behind it.
pub fn write_gated<K: Desk>(desk: &mut K, gate: u64, bytes: &[u8]) -> Result<(), DeskFault>
    requires within { IsTrue (K.state desk.old).tells → gate < length (bytes_now (K.state desk.old)) }
    requires durable { IsTrue (K.state desk.old).tells → IsDurable (K.state desk.old) }
    requires fits { gate < 2 ^ 63 }
    ensures written { OnOk result (IsTrue (K.state desk.old).tells
        → bytes_now (K.state desk.new) ≡ written (written (bytes_now (K.state desk.old)) (gate + 1) bytes.now) gate
        (OPEN ∷ [])) }
    ensures durable { OnOk result (IsTrue (K.state desk.old).tells → IsDurable (K.state desk.new)) }
    ensures goes { GoesOn (LeavesGated (bytes_now (K.state desk.old)) gate bytes.now (K.state desk.old).shown)
        (K.state desk.old) (K.state desk.new) }
    ensures fails { IfErr result (λ fault. FailsOnDisk fault (K.state desk.old) (K.state desk.new)) }
{
    write_synced(desk, gate + 1, bytes)?;
    write_synced(desk, gate, &[OPEN])
}
