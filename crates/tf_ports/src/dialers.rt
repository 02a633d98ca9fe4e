ghost use Rattle.std.specs.Prelude.{◌≡◌, ℕ, ◌≤◌, List, Option, OnOk, OnErr, IsErrOf};
ghost use Rattle.tf_numbers.specs.Numbers.{Rises};
ghost use Rattle.tf_actions.specs.Gives.{told_with};
ghost use Rattle.tf_ports.specs.declared.crews.Address.{Address as AnAddress};

use crate::crews::{Address, PortFault};
use crate::links::Link;
use std::alloc::Global;

/// Who makes links to addresses at which others wait.
pub trait Dialer: Drop {
    type Made: Link + Send;

    /// How many faults there were. The count never falls, and stands still at the greatest u64.
    ghost faults: { Self → ℕ };

    /// The addresses to which links were made, in order, where the dialer keeps them.
    ghost dialled: { Self → Option (List AnAddress) };

    /// Makes a link to the address. `Failed` comes only where the count of faults rose.
    fn dial(&mut self, alloc: Global, address: &Address) -> Result<Self::Made, PortFault>
        ensures cause { IsErrOf result PortFault.Failed → Rises (faults self.old) (faults self.new) }
        ensures dialled { OnOk result (dialled self.new ≡ told_with (dialled self.old) address.now) }
        ensures not_dialled { OnErr result (dialled self.new ≡ dialled self.old) }
        ensures no_fall { faults self.old ≤ faults self.new };
}
