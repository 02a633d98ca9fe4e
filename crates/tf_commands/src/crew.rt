ghost use Rattle.std.specs.Prelude.{◌≡◌, [], map, vec_len, IfOk};
ghost use Rattle.std.specs.List.{AllByRecursion};
ghost use Rattle.tf_ports.specs.Ports.{IsFresh, did_by, gave_back};
ghost use Rattle.tf_commands.specs.Crews.{crew_told, orders_of};

use std::alloc::Global;
use std::io::Eprint;
use std::process::Processes;
use tf_log::Log;
use tf_ports::{Children, Crew, Dialer, Hands, PortFault, Want};
use tf_remote::RemoteHand;
use tf_tasks::LocalHand;
use tf_values::Memory;

/// The program's crew: hands of this process, which perform built-in tasks and run programs, or hands over links that
/// its dialer makes, one for each address, in order. It notes and tells whom it hired, and the hands that were given
/// back last with their orders. Its count is that of the dialer's faults, and it tells whom it dialled where the dialer
/// does.
#[derive(Drop)]
pub struct ProgramCrew<R, D: Dialer> {
    runtime: R,
    dialer: D,
    hired: Log<Want, ()>,
    back: Log<Hands<LocalHand<Children<R>>, RemoteHand<D::Made>>, ()>,
}

impl<R, D: Dialer> ProgramCrew<R, D> {
    /// A crew with nobody hired.
    pub fn make(runtime: R, dialer: D) -> ProgramCrew<R, D>
        ensures dialer { result.dialer ≡ dialer }
        ensures nobody { (result.hired.items ≡ []) × (result.back.items ≡ []) }
    {
        ProgramCrew {
            runtime,
            dialer,
            hired: Log::new(),
            back: Log::new(),
        }
    }

    /// The dialer.
    pub fn dialer(&self) -> &D
        ensures { result.now ≡ self.now.dialer }
    {
        &self.dialer
    }
}

impl<R: Processes + Eprint + Copy + Send + Drop, D: Dialer> Crew for ProgramCrew<R, D> {
    type Hand = LocalHand<Children<R>>;

    type Far = RemoteHand<D::Made>;

    ghost faults = { λ crew. D.faults crew.dialer };

    ghost told = { λ crew. crew_told (λ hand. orders_of hand.done.items) (λ hand. orders_of hand.done.items)
        crew.hired.items crew.back.items };

    ghost dialled = { λ crew. D.dialled crew.dialer };

    fn hire(
        &mut self,
        alloc: Global,
        want: &Want,
    ) -> Result<Hands<Self::Hand, Self::Far>, PortFault> {
        match want {
            Want::Local(count) => match local_hands(alloc, self.runtime, *count) {
                Ok(hands) => {
                    self.hired = self.hired.and(want, &());
                    Ok(Hands::Local(hands))
                }
                Err(_) => Err(PortFault::Memory),
            },
            Want::Remote(addresses) => {
                // As `hire` of `tf_remote` does: a call of it, which hands the dialer on, isn't covered here by the check.
                let mut hands = Vec::new(alloc);
                for address in addresses.items() {
                    let link = match self.dialer.dial(alloc, address) {
                        Ok(link) => link,
                        Err(fault) => return Err(fault),
                    };
                    if hands.push(RemoteHand::make(link)).is_err() {
                        return Err(PortFault::Memory);
                    }
                }
                self.hired = self.hired.and(want, &());
                Ok(Hands::Remote(hands))
            }
        }
    }

    fn dismiss(&mut self, hands: Hands<Self::Hand, Self::Far>)
        ensures back { crew_told (λ hand. orders_of hand.done.items) (λ hand. orders_of hand.done.items)
            self.new.hired.items self.new.back.items
            ≡ gave_back (crew_told (λ hand. orders_of hand.done.items) (λ hand. orders_of hand.done.items)
            self.old.hired.items self.old.back.items)
            (did_by (λ hand. orders_of hand.done.items) (λ hand. orders_of hand.done.items) hands) }
        ensures dialled { D.dialled self.new.dialer ≡ D.dialled self.old.dialer }
        ensures faults { D.faults self.new.dialer ≡ D.faults self.old.dialer }
    {
        self.back = Log::new().and(&hands, &());
        drop(hands);
    }
}

/// So many hands of this process, which have no order yet.
fn local_hands<R: Processes + Eprint + Copy + Drop>(
    alloc: Global,
    runtime: R,
    count: u8,
) -> Result<Vec<LocalHand<Children<R>>>, Memory>
    ensures all { IfOk result (λ hands. vec_len hands ≡ count) }
    ensures fresh { IfOk result (λ hands.
        AllByRecursion IsFresh (map (λ hand. orders_of hand.done.items) hands.items)) }
{
    let mut hands = Vec::new(alloc);
    for _hand in 0..count {
        hands.push(LocalHand::make(Children::make(runtime)))?;
    }
    Ok(hands)
}
