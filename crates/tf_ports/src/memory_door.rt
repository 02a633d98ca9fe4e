ghost use Rattle.std.specs.Prelude.{◌≡◌, ◌≤◌, [], map, Some};
ghost use Rattle.tf_numbers.specs.Numbers.{Rises};
ghost use Rattle.tf_ports.specs.Ports.{seen_link};

use crate::crews::{Address, PortFault};
use crate::doors::Door;
use crate::links::Link;
use std::alloc::Global;
use std::marker::Model;
use std::snapshot::Snapshot;
use tf_values::Memory;

/// A door in memory, with links that wait to be accepted; those that are given back it keeps. Its calls are numbered
/// from 1, and the stated ones fail; so does an `accept` before a `listen`, or where no link is left. To give a link
/// back is no such call.
#[derive(Drop)]
pub struct MemoryDoor<L> {
    links: Vec<L>,
    opened: Vec<Address>,
    given: Vec<Snapshot<L>>,
    returned: Vec<L>,
    made: u64,
    failing: Vec<u64>,
    faults: u64,
}

impl<L> Model for MemoryDoor<L> {
    ghost use Rattle.std.specs.Prelude.{map};
    ghost use Rattle.tf_ports.specs.MemoryDoor.{HeldByDoor};

    ghost Value = { HeldByDoor L };

    ghost view = { λ door. record {
      opened = door.opened.items;
      given = map (λ seen. seen.value) door.given.items;
      returned = door.returned.items;
      faults = door.faults;
    } };
}

impl<L> MemoryDoor<L> {
    /// A door with these links, of which the last is accepted first; it wasn't opened, and had no fault so far.
    pub fn make(alloc: Global, links: Vec<L>, failing: Vec<u64>) -> MemoryDoor<L>
        ensures unopened { result.opened ≡ [] }
        ensures gave { result.given ≡ [] }
        ensures returned { result.returned ≡ [] }
        ensures none { result.faults ≡ 0 }
    {
        MemoryDoor {
            links,
            opened: Vec::new(alloc),
            given: Vec::new(alloc),
            returned: Vec::new(alloc),
            made: 0,
            failing,
            faults: 0,
        }
    }

    /// The addresses at which it was opened, in order.
    pub fn opened(&self) -> &[Address]
        ensures { result.now ≡ self.now.opened }
    {
        &self.opened
    }

    /// The links that were given back, in order.
    pub fn returned(&self) -> &[L]
        ensures { result.now ≡ self.now.returned }
    {
        &self.returned
    }

    /// Counts a call, and tells whether it is one that fails.
    fn fails(&mut self) -> bool
        ensures same { self.new ≡ self.old }
    {
        self.made = self.made.saturating_add(1);
        self.failing.contains(&self.made)
    }

    /// Counts a fault.
    fn fault(&mut self) -> PortFault
        ensures failed { result ≡ PortFault.Failed }
        ensures same { self.new ≡ record self.old { faults = self.new.faults } }
        ensures rose { Rises self.old.faults self.new.faults }
        ensures no_fall { self.old.faults ≤ self.new.faults }
    {
        self.faults = self.faults.saturating_add(1);
        PortFault::Failed
    }
}

impl<L: Link + Send> Door for MemoryDoor<L> {
    type Made = L;

    ghost faults = { λ door. door.faults };

    ghost told = { λ door. record {
      opened = Some door.opened;
      given = Some (map (seen_link L.left L.transcript L.faults L.ends) door.given);
      returned = Some (map (seen_link L.left L.transcript L.faults L.ends) door.returned);
    } };

    fn listen(&mut self, alloc: Global, address: &Address) -> Result<(), PortFault> {
        if self.fails() {
            return Err(self.fault());
        }
        let Ok(kept) = address.copy(alloc) else {
            return Err(PortFault::Memory);
        };
        match self.opened.push(kept) {
            Ok(()) => Ok(()),
            Err(_) => Err(PortFault::Memory),
        }
    }

    fn accept(&mut self, _alloc: Global) -> Result<L, PortFault> {
        if self.fails() || self.opened.is_empty() {
            return Err(self.fault());
        }
        let Some(link) = self.links.pop() else {
            return Err(self.fault());
        };
        match self.given.push(Snapshot::of(&link)) {
            Ok(()) => Ok(link),
            Err(_) => Err(PortFault::Memory),
        }
    }

    fn close(&mut self, link: L) -> Result<(), Memory> {
        match self.returned.push(link) {
            Ok(()) => Ok(()),
            Err(_) => Err(Memory),
        }
    }
}
