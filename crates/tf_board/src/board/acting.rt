ghost use Rattle.std.specs.Prelude.{◌≡◌, ◌⊎◌, ◌+◌, IfOk};
ghost use Rattle.tf_board.specs.Board.{posted as count_of, refuses_id, LegalJobs, owner_of};
ghost use Rattle.tf_board.specs.Does.{fault_of as named_fault, Records, Acts};
ghost use Rattle.tf_board.specs.Seeking.{number_named};
ghost use Rattle.tf_board.specs.declared.commands.Command.TheVariants as command;

use super::{Board, Owner};
use crate::commands::{Command, JobAction};
use crate::faults::BoardFault;
use crate::ids::id_text;
use crate::jobs::Standing;
use crate::kept::Change;
use crate::rules::{Refusal, refusal_at};
use std::alloc::Global;
use tf_desk::Desk;
use tf_states::Priority;
use tf_values::{Name, Val};
use uuid::Uuid;

/// The fault of a call that is refused for this reason, of the job of this id.
pub(crate) fn fault_of(alloc: Global, refusal: Refusal, id: &Uuid) -> BoardFault
    ensures { (result ≡ named_fault refusal id.now) ⊎ (result ≡ BoardFault.Memory) }
{
    match refusal {
        Refusal::NoJob => match id_text(alloc, id) {
            Ok(text) => BoardFault::NoJob(text),
            Err(_) => BoardFault::Memory,
        },
        Refusal::Gone => match id_text(alloc, id) {
            Ok(text) => BoardFault::Gone(text),
            Err(_) => BoardFault::Memory,
        },
        Refusal::Claimed(owner) => BoardFault::Claimed(owner),
        Refusal::NotOwner(owner) => BoardFault::NotOwner(owner),
    }
}

impl<K: Desk> Board<K> {
    /// Posts a job, and answers its number. It is never refused. `Full` comes exactly where the board's size and
    /// what is needed pass 67,108,864, and nothing changed; `Disk` only where the count of disk faults rose, and
    /// from then on each call that would record answers `Halted`. Want of memory leaves everything as it was. A
    /// crash inside leaves the commands from before, with the new one or without; after `Ok` every crash leaves it.
    pub fn post(&mut self, name: Name, priority: Priority, details: Val) -> Result<u64, BoardFault>
        ensures records { Records K.state self.old self.new (command.Post name priority details) result }
        ensures number { IfOk result (λ number. number ≡ count_of self.old.past + 1) }
    {
        let Ok(job) = self.kept.next(self.alloc, &name, priority) else {
            return Err(BoardFault::Memory);
        };
        let number = job.number;
        let command = Command::Post {
            name,
            priority,
            details,
        };
        match self.record(command, Change::Posted(job)) {
            Ok(()) => Ok(number),
            Err(fault) => Err(fault),
        }
    }

    /// Takes the job that the id names for this owner. It is refused where no job has the id (`NoJob`), where the
    /// job is gone (`Gone`) or somebody has it (`Claimed`), and then nothing changes; what else it may answer is as
    /// at `post`.
    pub fn claim(&mut self, id: &Uuid, owner: &Name) -> Result<(), BoardFault>
        ensures { Acts K.state (refuses_id self.old.past JobAction.Claim id.now owner.now) self.old self.new
            JobAction.Claim id.now owner.now result }
    {
        self.act(JobAction::Claim, id, owner)
    }

    /// Gives the job back that this owner has. It is refused where no job has the id, where the job is gone, or where
    /// this owner doesn't have it (`NotOwner`, with who has it, if somebody does), and then nothing changes.
    pub fn abandon(&mut self, id: &Uuid, owner: &Name) -> Result<(), BoardFault>
        ensures { Acts K.state (refuses_id self.old.past JobAction.Abandon id.now owner.now) self.old self.new
            JobAction.Abandon id.now owner.now result }
    {
        self.act(JobAction::Abandon, id, owner)
    }

    /// Finishes the job that this owner has: it is gone from then on. It is refused as `abandon` is.
    pub fn consume(&mut self, id: &Uuid, owner: &Name) -> Result<(), BoardFault>
        ensures { Acts K.state (refuses_id self.old.past JobAction.Consume id.now owner.now) self.old self.new
            JobAction.Consume id.now owner.now result }
    {
        self.act(JobAction::Consume, id, owner)
    }

    /// Throws the job away that this owner has: it is gone from then on. It is refused as `abandon` is.
    pub fn trash(&mut self, id: &Uuid, owner: &Name) -> Result<(), BoardFault>
        ensures { Acts K.state (refuses_id self.old.past JobAction.Trash id.now owner.now) self.old self.new
            JobAction.Trash id.now owner.now result }
    {
        self.act(JobAction::Trash, id, owner)
    }

    /// Does that with the job that the id names for this owner, unless it is refused: it is `claim`, `abandon`,
    /// `consume` or `trash`.
    pub fn act(&mut self, action: JobAction, id: &Uuid, owner: &Name) -> Result<(), BoardFault>
        ensures { Acts K.state (refuses_id self.old.past action id.now owner.now) self.old self.new
            action id.now owner.now result }
    {
        let number = self.number_of(id);
        self.act_on(number, action, id, owner)
    }

    /// The same where the number of the job that the id names is known already, as `number_of` tells it.
    pub fn act_on(
        &mut self,
        number: Option<u64>,
        action: JobAction,
        id: &Uuid,
        owner: &Name,
    ) -> Result<(), BoardFault>
        requires { number ≡ number_named self.old.past id.now }
        ensures { Acts K.state (refuses_id self.old.past action id.now owner.now) self.old self.new
            action id.now owner.now result }
    {
        let Some(place) = self.kept.place_numbered(number, id) else {
            return Err(fault_of(self.alloc, Refusal::NoJob, id));
        };
        match refusal_at(self.kept.jobs[place].standing, action, owner) {
            Some(refusal) => Err(fault_of(self.alloc, refusal, id)),
            None => {
                let command = Command::Apply {
                    action,
                    job: place as u64 + 1,
                    owner: *owner,
                };
                let standing = Standing::after(action, owner);
                self.record(command, Change::Stands { place, standing })
            }
        }
    }

    /// Who has the job that the id names. The commands are legal: none of them was refused after those before it. It
    /// takes no memory.
    pub fn owner(&self, id: &Uuid) -> Owner
        ensures is { result ≡ owner_of self.now.past id.now }
        ensures legal { LegalJobs self.now.past }
    {
        let Some(place) = self.kept.place_of(id) else {
            return Owner::NoJob;
        };
        match self.kept.jobs[place].standing {
            Standing::Free => Owner::Free,
            Standing::Held(owner) => Owner::Of(owner),
            Standing::Consumed | Standing::Trashed => Owner::Gone,
        }
    }
}
