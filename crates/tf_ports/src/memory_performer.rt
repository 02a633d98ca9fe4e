ghost use Rattle.std.specs.Prelude.{◌≡◌, true, [], Some};
ghost use Rattle.tf_ports.specs.MemoryPerformer.{IsPlayed, IsNothingOrLost, IsLost};
ghost use Rattle.tf_ports.specs.PlayedLaws.{played_looks_up, played_reverts};

use std::alloc::Global;
use std::marker::Model;
use tf_actions::{Action, Given, Order, Outcome, Performer};
use tf_states::Failure;
use tf_values::{Memory, Val};

/// A performer in memory, which keeps its orders and does nothing for them. Its calls are numbered from
/// 1, and the stated ones fail as if a hand were lost, which counts as a fault; every other one gives nothing.
#[derive(Drop)]
pub struct MemoryPerformer {
    did: Vec<Order>,
    made: u64,
    failing: Vec<u64>,
    faults: u64,
}

impl Model for MemoryPerformer {
    ghost use Rattle.tf_ports.specs.MemoryPerformer.{HeldByPerformer};

    ghost Value = { HeldByPerformer };

    ghost view = { λ performer. record { did = performer.did.items; faults = performer.faults } };
}

impl MemoryPerformer {
    /// A performer that was asked for nothing and had no fault so far.
    pub fn make(alloc: Global, failing: Vec<u64>) -> MemoryPerformer
        ensures nothing { result.did ≡ [] }
        ensures none { result.faults ≡ 0 }
    {
        MemoryPerformer {
            did: Vec::new(alloc),
            made: 0,
            failing,
            faults: 0,
        }
    }

    /// The orders so far, in order.
    pub fn did(&self) -> &[Order]
        ensures { result.now ≡ self.now.did }
    {
        &self.did
    }
}

impl Performer for MemoryPerformer {
    ghost did = { λ performer. Some performer.did };

    ghost gives = { IsPlayed };

    ghost faults = { λ performer. performer.faults };

    ghost of_fault = { λ order. IsLost };

    ghost looks_up = { played_looks_up };

    ghost reverts_to_nothing = { played_reverts };

    fn perform(&mut self, alloc: Global, order: &Order) -> Result<Outcome, Memory> {
        self.made = self.made.saturating_add(1);
        let fails = self.failing.contains(&self.made);
        let kept = order.copy(alloc)?;
        self.did.push(kept)?;
        if fails {
            self.faults = self.faults.saturating_add(1);
        }
        Ok(play(order, fails))
    }
}

/// What an order gives.
fn play(order: &Order, fails: bool) -> Outcome
    ensures plays { IsPlayed order.now result }
    ensures cause { IsLost result → fails ≡ true }
{
    match order.action {
        Action::Execute => match &order.given {
            Given::Missing(symbol) => Outcome::Failed(Failure::Lookup(*symbol)),
            Given::Found(_) => nothing_or_lost(fails),
        },
        Action::Revert => nothing_or_lost(fails),
    }
}

fn nothing_or_lost(fails: bool) -> Outcome
    ensures plays { IsNothingOrLost result }
    ensures cause { IsLost result → fails ≡ true }
{
    if fails {
        Outcome::Failed(Failure::Lost)
    } else {
        Outcome::Gave(Val::Nothing)
    }
}
