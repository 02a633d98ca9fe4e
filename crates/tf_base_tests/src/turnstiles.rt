ghost use Rattle.std.specs.Prelude.{◌≡◌, vec_len};
ghost use Rattle.tf_turnstile.specs.Passes.{AreAll, IsIdle};

use std::alloc::Global;
use std::process::Abort;
use std::sync::Wait;
use std::test::Fail;
use std::thread;
use std::thread::Threads;
use tf_turnstile::*;

fn made(rt: &impl Abort, alloc: Global, tally: Tally) -> (Turnstile<Tally>, Vec<Pass<Tally>>)
    ensures start { result.0.start ≡ tally }
    ensures passes { AreAll result.0 result.1.items }
    ensures count { vec_len result.1 ≡ 2 }
{
    let made = Turnstile::make(alloc, tally, 2);
    made.ok().expect(rt, "memory")
}

// Of two passes the first adds an amount and the second waits, in threads of their own.
fn one_adds_and_one_waits<R: Threads + Wait + Abort + Sync>(
    rt: &R,
    turnstile: &Turnstile<Tally>,
    passes: &mut [Pass<Tally>],
)
    requires { AreAll turnstile.now passes.old }
    ensures { AreAll turnstile.now passes.new }
{
    let turn = |i: usize, pass: &mut Pass<Tally>|
        requires { IsIdle turnstile.now i pass.now }
        ensures { IsIdle turnstile.entry.now i pass.exit.now }
    { add_or_wait(rt, turnstile, pass, i as u64) };
    thread::for_each_mut(rt, passes, 64, &turn);
}

fn add_or_wait<R: Wait + Abort>(
    rt: &R,
    turnstile: &Turnstile<Tally>,
    pass: &mut Pass<Tally>,
    number: u64,
)
    requires { IsIdle turnstile.now number pass.old }
    ensures { IsIdle turnstile.now number pass.new }
{
    if number == 0 {
        assert!(rt; Tally::add_by(rt, turnstile, pass, number, 5));
        return;
    }
    turnstile.wait(rt, pass);
}

#[test]
fn a_wait_ends_once_another_pass_has_added(rt: HostRuntime) -> Result<(), Fail> {
    let (turnstile, mut passes) = made(&rt, rt.alloc(), Tally::new(rt.alloc(), 3));
    one_adds_and_one_waits(&rt, &turnstile, passes.as_mut_slice());
    let tally = Tally::end(turnstile, passes);
    assert_eq!(rt; tally.amounts(), [(0, 5)].as_slice());
    Ok(())
}
