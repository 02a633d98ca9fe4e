ghost use Rattle.std.specs.Prelude.{◌≡◌, ◌≤◌, [], map, option_copied, Some};
ghost use Rattle.std.specs.List.{flat_map, AllByRecursion};
ghost use Rattle.tf_numbers.specs.Numbers.{Rises};
ghost use Rattle.tf_ports.specs.Ports.{addresses_wanted, did_by, gave_back, IsFresh};
ghost use Rattle.tf_ports.specs.MemoryCrew.{did_back, told_of};

use crate::crews::{Crew, Hands, PortFault, Want};
use std::alloc::Global;
use std::marker::Model;
use tf_actions::Performer;

/// A crew in memory, with hands that wait to be hired, none of which was given an order. Its calls are numbered from 1,
/// and the stated ones fail; so does one that wants more hands than are left. It keeps the hands that were given back
/// last, and hires none of them again.
#[derive(Drop)]
pub struct MemoryCrew<P: Performer> {
    hands: Vec<P>,
    hired: Vec<Want>,
    back: Option<Hands<P, P>>,
    made: u64,
    failing: Vec<u64>,
    faults: u64,
}

impl<P: Performer> Model for MemoryCrew<P> {
    ghost use Rattle.std.specs.Prelude.{map};
    ghost use Rattle.std.specs.List.{AllByRecursion};
    ghost use Rattle.tf_ports.specs.Ports.{IsFresh};
    ghost use Rattle.tf_ports.specs.MemoryCrew.{HeldByCrew, did_back};

    ghost Value = { HeldByCrew };

    ghost view = { λ crew. record {
      hired = crew.hired.items;
      back = did_back P.did crew.back;
      faults = crew.faults;
    } };

    ghost invariant = { λ crew. AllByRecursion IsFresh (map P.did crew.hands.items) };
}

impl<P: Performer> MemoryCrew<P> {
    /// A crew of these hands, with nobody hired or given back, and no fault so far.
    pub fn make(alloc: Global, hands: Vec<P>, failing: Vec<u64>) -> MemoryCrew<P>
        requires fresh { AllByRecursion IsFresh (map P.did hands.items) }
        ensures nobody { result.hired ≡ [] }
        ensures back { result.back ≡ [] }
        ensures none { result.faults ≡ 0 }
    {
        MemoryCrew {
            hands,
            hired: Vec::new(alloc),
            back: None,
            made: 0,
            failing,
            faults: 0,
        }
    }

    /// The wants that were answered with hands, in order.
    pub fn hired(&self) -> &[Want]
        ensures { result.now ≡ self.now.hired }
    {
        &self.hired
    }

    /// The hands that were given back last, if any were.
    pub fn back(&self) -> Option<&Hands<P, P>>
        ensures { did_back P.did (option_copied result) ≡ self.now.back }
    {
        self.back.as_ref()
    }

    /// Counts a fault.
    fn fault(&mut self) -> PortFault
        ensures failed { result ≡ PortFault.Failed }
        ensures same { self.new.hired ≡ self.old.hired }
        ensures kept { self.new.back ≡ self.old.back }
        ensures rose { Rises self.old.faults self.new.faults }
        ensures no_fall { self.old.faults ≤ self.new.faults }
    {
        self.faults = self.faults.saturating_add(1);
        PortFault::Failed
    }
}

impl<P: Performer + Send> Crew for MemoryCrew<P> {
    type Hand = P;

    type Far = P;

    ghost faults = { λ crew. crew.faults };

    ghost told = { λ crew. told_of crew };

    ghost dialled = { λ crew. Some (flat_map addresses_wanted crew.hired) };

    fn hire(&mut self, alloc: Global, want: &Want) -> Result<Hands<P, P>, PortFault> {
        self.made = self.made.saturating_add(1);
        let count = want.count();
        if self.failing.contains(&self.made) {
            return Err(self.fault());
        }
        if count > self.hands.len() {
            return Err(self.fault());
        }
        let Ok(kept) = want.copy(alloc) else {
            return Err(PortFault::Memory);
        };
        let Ok(hands) = self.hands.split_off(self.hands.len() - count) else {
            return Err(PortFault::Memory);
        };
        if let Err(_) = self.hired.push(kept) {
            return Err(PortFault::Memory);
        }
        Ok(match want {
            Want::Local(_) => Hands::Local(hands),
            Want::Remote(_) => Hands::Remote(hands),
        })
    }

    fn dismiss(&mut self, hands: Hands<P, P>)
        ensures back { told_of self.new ≡ gave_back (told_of self.old) (did_by P.did P.did hands) }
        ensures dialled { Some (flat_map addresses_wanted self.new.hired)
            ≡ Some (flat_map addresses_wanted self.old.hired) }
        ensures faults { self.new.faults ≡ self.old.faults }
    {
        self.back = Some(hands);
    }
}
