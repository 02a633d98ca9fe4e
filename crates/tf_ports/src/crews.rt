ghost use Rattle.std.specs.Prelude.{◌≡◌, ℕ, ◌≤◌, List, Option, IfOk, OnOk, OnErr, IsErrOf};
ghost use Rattle.tf_numbers.specs.Numbers.{Rises};
ghost use Rattle.tf_ports.specs.declared.crews.Address.{Address as AnAddress};
ghost use Rattle.tf_ports.specs.Ports.{wanted, AreWanted, AreFresh, addresses_wanted, told_with_all, DialsSome};
ghost use Rattle.tf_ports.specs.Ports.{CrewTold, hired_for, gave_back, did_by};

use std::alloc::Global;
use std::marker::Model;
use tf_actions::Performer;
use tf_values::{Memory, Text};

/// Where a remote hand is: a Unix socket's path, or a port of 127.0.0.1.
#[derive(Debug, Drop)]
pub enum Address {
    Unix(Text),
    Tcp(u16),
}

impl Address {
    /// An equal address.
    pub fn copy(&self, alloc: Global) -> Result<Address, Memory>
        ensures { IfOk result (λ address. address ≡ self.now) }
    {
        match self {
            Address::Unix(path) => Ok(Address::Unix(path.copy(alloc)?)),
            Address::Tcp(port) => Ok(Address::Tcp(*port)),
        }
    }
}

/// Addresses in order. Contracts see the list.
#[derive(Debug, Drop)]
pub struct Addresses {
    items: Vec<Address>,
}

impl Model for Addresses {
    ghost use Rattle.std.specs.Prelude.{List};
    ghost use Rattle.tf_ports.specs.declared.crews.Address.{Address};

    ghost Value = { List Address };

    ghost view = { λ addresses. addresses.items.items };
}

impl Addresses {
    /// A list of these addresses. It takes no memory and sets no limit.
    pub fn make(items: Vec<Address>) -> Addresses
        ensures { result ≡ items.items }
    {
        Addresses { items }
    }

    /// The addresses, in order.
    pub fn items(&self) -> &[Address]
        ensures { result.now ≡ self.now }
    {
        &self.items
    }

    /// An equal list.
    pub fn copy(&self, alloc: Global) -> Result<Addresses, Memory>
        ensures { IfOk result (λ addresses. addresses ≡ self.now) }
    {
        let mut items = Vec::with_capacity(alloc, self.items.len())?;
        for address in &self.items {
            items.push(address.copy(alloc)?)?;
        }
        Ok(Addresses { items })
    }
}

/// Which hands are wanted: so many of this process, or one at each address.
#[derive(Debug, Drop)]
pub enum Want {
    Local(u8),
    Remote(Addresses),
}

impl Want {
    /// An equal want.
    pub fn copy(&self, alloc: Global) -> Result<Want, Memory>
        ensures { IfOk result (λ want. want ≡ self.now) }
    {
        match self {
            Want::Local(count) => Ok(Want::Local(*count)),
            Want::Remote(addresses) => Ok(Want::Remote(addresses.copy(alloc)?)),
        }
    }

    /// How many hands are wanted.
    pub fn count(&self) -> usize
        ensures { result ≡ wanted self.now }
    {
        match self {
            Want::Local(count) => usize::from(*count),
            Want::Remote(addresses) => addresses.items().len(),
        }
    }
}

/// Why a port gave nothing: it failed, or memory ran out.
#[derive(Clone, Copy, Debug, PartialEq, Eq)]
pub enum PortFault {
    Failed,
    Memory,
}

/// Hands that were hired: hands of this process, or hands that ask workers elsewhere. Which they are is told by their
/// type, so that each keeps a relation of orders and outcomes of its own.
#[derive(Drop)]
pub enum Hands<H, F> {
    Local(Vec<H>),
    Remote(Vec<F>),
}

/// Who hires hands, and takes them back.
pub trait Crew: Drop {
    /// A hand of this process.
    type Hand: Performer + Send;

    /// A hand that asks a worker.
    type Far: Performer + Send;

    /// How many faults there were. The count never falls, and stands still at the greatest u64.
    ghost faults: { Self → ℕ };

    /// Which wants were answered with hands, and which orders the hands that were given back last had been given, where
    /// the crew tells them.
    ghost told: { Self → CrewTold };

    /// The addresses that were dialled, in order, where the crew tells them.
    ghost dialled: { Self → Option (List AnAddress) };

    /// The hands that are wanted, which were given no order yet: as many of this process, or one for each address; the
    /// addresses are dialled in order, up to the first at which no link can be made. `Failed` comes only where the count
    /// of faults rose.
    fn hire(
        &mut self,
        alloc: Global,
        want: &Want,
    ) -> Result<Hands<Self::Hand, Self::Far>, PortFault>
        ensures all { IfOk result (λ hands. AreWanted want.now hands) }
        ensures cause { IsErrOf result PortFault.Failed → Rises (faults self.old) (faults self.new) }
        ensures fresh { IfOk result (λ hands. AreFresh Self.Hand.did Self.Far.did hands) }
        ensures hired { OnOk result (told self.new ≡ hired_for (told self.old) want.now) }
        ensures not_hired { OnErr result (told self.new ≡ told self.old) }
        ensures dialled { OnOk result
            (dialled self.new ≡ told_with_all (dialled self.old) (addresses_wanted want.now)) }
        ensures dialled_some { OnErr result
            (DialsSome (addresses_wanted want.now) (dialled self.old) (dialled self.new)) }
        ensures no_fall { faults self.old ≤ faults self.new };

    /// Takes hands back that aren't wanted any more. A crew that tells which orders they were given forgets those of the
    /// hands that it took back before. Nothing is dialled, and there is no fault.
    fn dismiss(&mut self, hands: Hands<Self::Hand, Self::Far>)
        ensures back { told self.new ≡ gave_back (told self.old) (did_by Self.Hand.did Self.Far.did hands) }
        ensures dialled { dialled self.new ≡ dialled self.old }
        ensures faults { faults self.new ≡ faults self.old };
}
