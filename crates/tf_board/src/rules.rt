ghost use Rattle.std.specs.Prelude.{◌≡◌, None, Some, if◌then◌else◌};
ghost use Rattle.tf_board.specs.Board.{same, refused_at};

use crate::commands::JobAction;
use crate::jobs::Standing;
use tf_values::Name;

/// Why an owner may not do something with a job: no job has the id, it is gone, somebody has it, or the owner hasn't,
/// but perhaps somebody else.
#[derive(Clone, Copy, Debug)]
pub enum Refusal {
    NoJob,
    Gone,
    Claimed(Name),
    NotOwner(Option<Name>),
}

/// Why an owner may not do that with a job that stands so, or none where the owner may.
pub fn refusal_at(standing: Standing, action: JobAction, owner: &Name) -> Option<Refusal>
    ensures { result ≡ refused_at standing action owner.now }
{
    match standing {
        Standing::Consumed | Standing::Trashed => Some(Refusal::Gone),
        Standing::Free => match action {
            JobAction::Claim => None,
            JobAction::Abandon | JobAction::Consume | JobAction::Trash => Some(Refusal::NotOwner(
                None,
            )),
        },
        Standing::Held(kept) => match action {
            JobAction::Claim => Some(Refusal::Claimed(kept)),
            JobAction::Abandon | JobAction::Consume | JobAction::Trash => not_owner(kept, owner),
        },
    }
}

/// Why somebody may not give back, finish or throw away a job that an owner has.
fn not_owner(kept: Name, owner: &Name) -> Option<Refusal>
    ensures { result ≡ if same kept owner.now then None else Some (Refusal.NotOwner (Some kept)) }
{
    if kept == *owner {
        return None;
    }
    Some(Refusal::NotOwner(Some(kept)))
}
