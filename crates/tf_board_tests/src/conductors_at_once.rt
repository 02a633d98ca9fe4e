ghost use Rattle.std.specs.Prelude.{◌≡◌, None, IfOk, vec_len};

use crate::boards::{post, shared_board};
use crate::owners::{file, kind, owners};
use crate::waits::comes_to;
use std::alloc::Global;
use std::sync::Arc;
use std::sync::atomic::{AtomicU64, Ordering};
use std::test::Fail;
use tf_conductor::{Ran, Runner, conduct};
use tf_states::Priority;
use tf_values::{Memory, Val};

/// A runner that is done with a job once two were begun.
#[derive(Drop)]
struct Meeting {
    begun: Arc<AtomicU64, Global>,
}

impl Runner for Meeting {
    ghost did = { λ _. None };

    ghost gives = { λ _ _ _. Unit {0} };

    fn run(&mut self, _alloc: Global, _details: &Val) -> Result<Ran, Memory> {
        self.begun.fetch_add(1, Ordering::SeqCst);
        if comes_to(&self.begun, 2) {
            return Ok(Ran::Done);
        }
        Ok(Ran::Left)
    }
}

fn two_runners(alloc: Global) -> Result<Vec<Meeting>, Fail>
    ensures { IfOk result (λ runners. vec_len runners ≡ 2) }
{
    let begun = Arc::new(alloc, AtomicU64::new(0))?;
    let mut runners = Vec::new(alloc);
    runners.push(Meeting {
        begun: Arc::try_clone(&begun)?,
    })?;
    runners.push(Meeting { begun })?;
    Ok(runners)
}

#[test]
fn two_conductors_are_at_work_at_once(rt: HostRuntime) -> Result<(), Fail> {
    let alloc = rt.alloc();
    let mut shared = shared_board(alloc, &[])?;
    post(
        &mut shared,
        b"build",
        Priority::Normal,
        file(alloc, b"a.toml")?,
    )?;
    post(
        &mut shared,
        b"test",
        Priority::Normal,
        file(alloc, b"b.toml")?,
    )?;
    let owners = owners(alloc, 2)?;
    let mut runners = two_runners(alloc)?;
    let ended = conduct(&rt, alloc, shared, &owners, &mut runners);
    assert!(rt; ended.halt.is_none());
    let mut consumed = 0u64;
    for made in ended.shared.made() {
        if kind(made) == 3 && consumed < 10 {
            consumed += 1;
        }
    }
    assert_eq!(rt; consumed, 2);
    assert_eq!(rt; ended.shared.made().len(), 6);
    Ok(())
}
