ghost use Rattle.std.specs.Prelude.{◌≡◌, IfOk, option_map};
ghost use Rattle.tf_ports.specs.declared.crews.Want.TheVariants as want;
ghost use Rattle.tf_words.specs.Held.{held_by};
ghost use Rattle.tf_words.specs.Words.{hands_in as hands_said, want_in as want_said};

use crate::addresses::addresses_of;
use crate::given::Given;
use crate::numbers::number_between;
use std::alloc::Global;
use tf_ports::Want;
use tf_values::Memory;

/// The hands that are wanted: one at each address of `--worker`, or as many of this process as `--hands` says, and
/// else one. None comes where both stand, or one of them spells no such hands.
pub fn want_in(alloc: Global, given: &Given<'_>) -> Result<Option<Want>, Memory>
    ensures { IfOk result (λ want. want ≡ want_said (held_by given.now.matches)) }
{
    let Some(list) = given.once("worker") else {
        return Ok(None);
    };
    let Some(list) = list else {
        return Ok(local_in(given));
    };
    let Some(None) = given.once("hands") else {
        return Ok(None);
    };
    match addresses_of(alloc, list.as_bytes())? {
        Some(addresses) => Ok(Some(Want::Remote(addresses))),
        None => Ok(None),
    }
}

/// The hands of this process that are wanted.
fn local_in(given: &Given<'_>) -> Option<Want>
    ensures { result ≡ option_map (λ hands. want.Local hands) (hands_said (held_by given.now.matches)) }
{
    let hands = hands_in(given)?;
    Some(Want::Local(hands))
}

/// How many hands of this process are wanted, or none where that is no number of hands.
pub fn hands_in(given: &Given<'_>) -> Option<u8>
    ensures { result ≡ hands_said (held_by given.now.matches) }
{
    match given.once("hands")? {
        None => Some(1),
        Some(value) => {
            let hands = number_between(1, 64, value)?;
            Some(hands as u8)
        }
    }
}
