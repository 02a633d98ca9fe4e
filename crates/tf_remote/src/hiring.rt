ghost use Rattle.std.specs.Prelude.{◌≡◌, ◌≤◌, length, vec_len, IfOk, OnOk, OnErr, IsErrOf};
ghost use Rattle.tf_numbers.specs.Numbers.{Rises};
ghost use Rattle.tf_ports.specs.Ports.{DialsSome, told_with_all};

use crate::hand::RemoteHand;
use std::alloc::Global;
use tf_ports::{Address, Dialer, PortFault};

/// A remote hand for each address, in order. The addresses are dialled in that order, up to the first at which no
/// link can be made; `Failed` comes only where the dialer's count of faults rose.
pub fn hire<D: Dialer>(
    alloc: Global,
    dialer: &mut D,
    addresses: &[Address],
) -> Result<Vec<RemoteHand<D::Made>>, PortFault>
    ensures all { IfOk result (λ hands. vec_len hands ≡ length addresses.now) }
    ensures dialled { OnOk result (D.dialled dialer.new ≡ told_with_all (D.dialled dialer.old) addresses.now) }
    ensures not_dialled { OnErr result (DialsSome addresses.now (D.dialled dialer.old) (D.dialled dialer.new)) }
    ensures cause { IsErrOf result PortFault.Failed → Rises (D.faults dialer.old) (D.faults dialer.new) }
    ensures no_fall { D.faults dialer.old ≤ D.faults dialer.new }
{
    let mut hands = Vec::new(alloc);
    for address in addresses {
        let link = match dialer.dial(alloc, address) {
            Ok(link) => link,
            Err(fault) => return Err(fault),
        };
        if hands.push(RemoteHand::make(link)).is_err() {
            return Err(PortFault::Memory);
        }
    }
    Ok(hands)
}
