ghost use Rattle.std.specs.Prelude.{◌≡◌, ◌+◌, ◌<◌, ◌^◌, ◌++◌, [], ◌∷◌, ℕ, true, false, length, OnOk, OnErr, MatchBool};
ghost use Rattle.tf_turnstile.specs.Numbered.{own};
ghost use Rattle.tf_turnstile.specs.Passes.{AreAll, HasGrown, IsIdle};

use crate::keeping::Kept;
use crate::passes::{Pass, Turnstile};
use std::alloc::Global;
use std::marker::Model;
use std::sync::Wait;
use tf_values::Memory;

/// Amounts, each with the number of the pass by which it was added: the smallest value for a turnstile, as an example and
/// for measuring.
#[derive(Drop)]
pub struct Tally {
    name: u64,
    amounts: Vec<(u64, u64)>,
    stopped: bool,
}

impl Model for Tally {
    ghost use Rattle.tf_turnstile.specs.Tally.{TallyValue};

    ghost Value = { TallyValue };

    ghost view = { λ tally. record { name = tally.name; amounts = tally.amounts.items; stopped = tally.stopped } };
}

impl Tally {
    /// An empty tally of this name.
    pub fn new(alloc: Global, name: u64) -> Tally
        ensures { result ≡ record { name = name; amounts = []; stopped = false } }
    {
        Tally {
            name,
            amounts: Vec::new(alloc),
            stopped: false,
        }
    }

    /// Adds an amount under a number. At `Memory` nothing changed.
    pub fn add(&mut self, number: u64, amount: u64) -> Result<(), Memory>
        ensures added { let amounts = self.old.amounts ++ (number, amount) ∷ [] in
            OnOk result (self.new ≡ record self.old { amounts = amounts }) }
        ensures same { OnErr result (self.new ≡ self.old) }
        ensures few { length self.new.amounts < 2 ^ 63 }
    {
        self.amounts.push((number, amount))?;
        Ok(())
    }

    /// Nothing more is to be added.
    pub fn stop(&mut self)
        ensures { self.new ≡ record self.old { stopped = true } }
    {
        self.stopped = true;
    }

    /// The amounts, each with its number.
    pub fn amounts(&self) -> &[(u64, u64)]
        ensures amounts { result.now ≡ self.now.amounts }
        ensures few { length self.now.amounts < 2 ^ 63 }
    {
        &self.amounts
    }

    /// One turn of a pass: takes the tally, adds an amount under the pass's number and gives it back. It answers whether
    /// there was memory for the amount; otherwise the tally goes back as it was.
    pub fn add_by<R: Wait>(
        rt: &R,
        turnstile: &Turnstile<Tally>,
        pass: &mut Pass<Tally>,
        number: u64,
        amount: u64,
    ) -> bool
        requires idle { IsIdle turnstile.now number pass.old }
        ensures own { let before = own number pass.old.seen in
            let after = own number pass.new.seen in
            MatchBool result (after ≡ before ++ (number, amount) ∷ []) (after ≡ before) }
        ensures idle { IsIdle turnstile.now number pass.new }
    {
        let mut tally = turnstile.take(rt, pass);
        let added = tally.add(number, amount).is_ok();
        turnstile.give(tally, pass);
        added
    }

    /// Ends the turns, and gives the tally back, stopped.
    pub fn end(turnstile: Turnstile<Tally>, passes: Vec<Pass<Tally>>) -> Tally
        requires { AreAll turnstile passes.items }
        ensures name { result.name ≡ turnstile.start.name }
        ensures amounts { HasGrown (λ tally. tally.amounts) turnstile passes.items result }
        ensures stopped { result.stopped ≡ true }
    {
        let mut tally = turnstile.close(passes);
        tally.stop();
        tally
    }
}

impl Kept for Tally {
    type Origin = u64;

    type Entry = u64;

    ghost origin = { λ tally. tally.name };

    ghost first = { λ _. 0 };

    ghost entries = { λ tally. tally.amounts };

    ghost is_stopped = { λ tally. tally.stopped };

    fn count(&self) -> u64 {
        self.amounts.len() as u64
    }

    fn stopped(&self) -> bool {
        self.stopped
    }
}
