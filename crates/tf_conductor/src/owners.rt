//! How the owners of conductors are named.
ghost use Rattle.std.specs.Prelude.{◌≡◌, ◌<◌, ◌≤◌, IfOk, length};
ghost use Rattle.tf_conductor.specs.Rounds.{AreDifferent, AreNamedBy, owner_name};

use std::alloc::Global;
use tf_report::{append, append_number};
use tf_values::{Memory, Name, Names};

/// The owner of the conductor of this number.
#[tactic(auto, unfolding(crate::specs::Rounds::owner_name))]
fn owner_of(alloc: Global, word: &Name, number: u8) -> Result<Name, Memory>
    requires short { length word.now ≤ 61 }
    requires few { number < 64 }
    ensures { IfOk result (λ owner. owner ≡ owner_name word.now number) }
{
    let mut bytes = Vec::new(alloc);
    let begun = word.bytes();
    append(begun, &mut bytes)?;
    append(b"-", &mut bytes)?;
    append_number(number as u64, &mut bytes)?;
    let Some(owner) = Name::make(&bytes) else {
        unreachable!()
    };
    Ok(owner)
}

/// The owners of so many conductors, at most 64: each is named by the word, a hyphen and its number from 0. The word has
/// at most 61 bytes.
pub fn owners_of(alloc: Global, word: &Name, count: u8) -> Result<Names, Memory>
    requires short { length word.now ≤ 61 }
    requires few { count ≤ 64 }
    ensures count { IfOk result (λ owners. length owners ≡ count) }
    ensures named { IfOk result (AreNamedBy word.now) }
    ensures different { IfOk result AreDifferent }
{
    let mut owners = Vec::new(alloc);
    for number in 0..count {
        let owner = owner_of(alloc, word, number)?;
        owners.push(owner)?;
    }
    Ok(Names::make(owners))
}
