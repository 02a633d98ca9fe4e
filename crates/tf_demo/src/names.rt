ghost use Rattle.std.specs.Prelude.{◌≡◌, ◌∷◌, ◌<◌, true, IfOk};
ghost use Rattle.std.specs.Fmt.{decimal};
ghost use Rattle.tf_values.specs.Text.{begins_name};

use itoa::Buffer;
use std::alloc::Global;
use tf_values::{Memory, Name};

/// The name of a letter and a number in decimal digits.
#[tactic(auto, using(crate::proofs::NameLemmas::numbered_is_name))]
pub fn numbered(alloc: Global, letter: u8, number: u16) -> Result<Name, Memory>
    requires { begins_name letter ≡ true }
    ensures { IfOk result (λ name. name ≡ letter ∷ decimal number) }
{
    let mut buffer = Buffer::new();
    let mut bytes = Vec::from_slice(alloc, &[letter])?;
    bytes.extend_from_slice(buffer.format(number).as_bytes())?;
    Ok(Name::make(&bytes).unwrap())
}
