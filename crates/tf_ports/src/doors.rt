ghost use Rattle.std.specs.Prelude.{◌≡◌, ℕ, ◌≤◌, IfOk, OnOk, OnErr, IsErrOf};
ghost use Rattle.tf_numbers.specs.Numbers.{Rises};
ghost use Rattle.tf_ports.specs.Ports.{seen_link, DoorTold, opened_at, gave_link, took_back};

use crate::crews::{Address, PortFault};
use crate::links::Link;
use std::alloc::Global;
use tf_values::Memory;

/// Who takes the links that others make to an address.
pub trait Door: Drop {
    type Made: Link + Send;

    /// How many faults there were. The count never falls, and stands still at the greatest u64.
    ghost faults: { Self → ℕ };

    /// At which addresses the door was opened, which links it gave, and which were given back, where it tells them.
    ghost told: { Self → DoorTold };

    /// Opens the door at the address, which nobody else has. `Failed` comes only where the count of faults
    /// rose.
    fn listen(&mut self, alloc: Global, address: &Address) -> Result<(), PortFault>
        ensures opened { OnOk result (told self.new ≡ opened_at (told self.old) address.now) }
        ensures not_opened { OnErr result (told self.new ≡ told self.old) }
        ensures cause { IsErrOf result PortFault.Failed → Rises (faults self.old) (faults self.new) }
        ensures no_fall { faults self.old ≤ faults self.new };

    /// Waits for the next link that is made to the address. `Failed` comes only where the count of faults
    /// rose.
    fn accept(&mut self, alloc: Global) -> Result<Self::Made, PortFault>
        ensures gave { IfOk result (λ link. told self.new
            ≡ gave_link (told self.old)
            (seen_link Self.Made.left Self.Made.transcript Self.Made.faults Self.Made.ends link)) }
        ensures gave_none { OnErr result (told self.new ≡ told self.old) }
        ensures cause { IsErrOf result PortFault.Failed → Rises (faults self.old) (faults self.new) }
        ensures no_fall { faults self.old ≤ faults self.new };

    /// Takes a link back whose session is over, and closes it. `Err`: memory ran out, and the link is closed all the
    /// same.
    fn close(&mut self, link: Self::Made) -> Result<(), Memory>
        ensures returned { OnOk result (told self.new
            ≡ took_back (told self.old)
            (seen_link Self.Made.left Self.Made.transcript Self.Made.faults Self.Made.ends link)) }
        ensures not_returned { OnErr result (told self.new ≡ told self.old) }
        ensures no_fall { faults self.old ≤ faults self.new };
}
