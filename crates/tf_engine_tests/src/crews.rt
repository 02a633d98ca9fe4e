//! Hands that perform the built-in tasks, and crews of them.
ghost use Rattle.std.specs.Prelude.{◌≡◌, []};

use std::alloc::Global;
use std::test::Fail;
use tf_ports::{MemoryCrew, MemorySpawner};
use tf_tasks::LocalHand;

/// A hand that performs the built-in tasks.
pub(crate) type Hand = LocalHand<MemorySpawner>;

/// A hand of this process, which has no order yet.
pub(crate) fn local_hand(alloc: Global) -> Hand
    ensures { result.done.items ≡ [] }
{
    LocalHand::make(MemorySpawner::make(alloc, Vec::new(alloc), Vec::new(alloc)))
}

/// A crew of two hands, whose stated calls fail.
pub(crate) fn crew(alloc: Global, failing: &[u64]) -> Result<MemoryCrew<Hand>, Fail> {
    let mut hands = Vec::new(alloc);
    hands.push(local_hand(alloc))?;
    hands.push(local_hand(alloc))?;
    let failing = Vec::from_slice(alloc, failing)?;
    Ok(MemoryCrew::make(alloc, hands, failing))
}
