ghost use Rattle.std.specs.Prelude.{◌≡◌, ◌≤◌, [], Some};
ghost use Rattle.tf_numbers.specs.Numbers.{Rises};

use crate::crews::{Address, PortFault};
use crate::dialers::Dialer;
use crate::links::Link;
use std::alloc::Global;
use std::marker::Model;

/// A dialer in memory, with links that wait to be made. Its calls are numbered from 1, and the stated ones
/// fail; so does one where no link is left.
#[derive(Drop)]
pub struct MemoryDialer<L> {
    links: Vec<L>,
    dialled: Vec<Address>,
    made: u64,
    failing: Vec<u64>,
    faults: u64,
}

impl<L> Model for MemoryDialer<L> {
    ghost use Rattle.tf_ports.specs.MemoryDialer.{HeldByDialer};

    ghost Value = { HeldByDialer };

    ghost view = { λ dialer. record { dialled = dialer.dialled.items; faults = dialer.faults } };
}

impl<L> MemoryDialer<L> {
    /// A dialer with these links, of which the last is made first, and no fault so far.
    pub fn make(alloc: Global, links: Vec<L>, failing: Vec<u64>) -> MemoryDialer<L>
        ensures nobody { result.dialled ≡ [] }
        ensures none { result.faults ≡ 0 }
    {
        MemoryDialer {
            links,
            dialled: Vec::new(alloc),
            made: 0,
            failing,
            faults: 0,
        }
    }

    /// The addresses to which links were made, in order.
    pub fn dialled(&self) -> &[Address]
        ensures { result.now ≡ self.now.dialled }
    {
        &self.dialled
    }

    /// Counts a fault.
    fn fault(&mut self) -> PortFault
        ensures failed { result ≡ PortFault.Failed }
        ensures same { self.new.dialled ≡ self.old.dialled }
        ensures rose { Rises self.old.faults self.new.faults }
        ensures no_fall { self.old.faults ≤ self.new.faults }
    {
        self.faults = self.faults.saturating_add(1);
        PortFault::Failed
    }
}

impl<L: Link + Send> Dialer for MemoryDialer<L> {
    type Made = L;

    ghost faults = { λ dialer. dialer.faults };

    ghost dialled = { λ dialer. Some dialer.dialled };

    fn dial(&mut self, alloc: Global, address: &Address) -> Result<L, PortFault> {
        self.made = self.made.saturating_add(1);
        if self.failing.contains(&self.made) {
            return Err(self.fault());
        }
        let Ok(kept) = address.copy(alloc) else {
            return Err(PortFault::Memory);
        };
        let Some(link) = self.links.pop() else {
            return Err(self.fault());
        };
        if self.dialled.push(kept).is_err() {
            return Err(PortFault::Memory);
        }
        Ok(link)
    }
}
