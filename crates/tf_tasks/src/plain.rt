ghost use Rattle.std.specs.Prelude.{◌≡◌, ◌++◌, codes, true, IfOk};
ghost use Rattle.tf_actions.specs.Built.{plain, joined, text_of, raised, demanded};

use std::alloc::Global;
use tf_actions::{Outcome, Pair};
use tf_states::Failure;
use tf_values::{MakeFault, Memory, Text, Val};

/// Appends a text's own bytes, or the text form of another value.
pub fn append_plain(value: &Val, out: &mut Vec<u8>) -> Result<(), Memory>
    ensures { IfOk result (λ _. out.new.items ≡ out.old.items ++ plain value.now) }
{
    match value {
        Val::Text(text) => {
            out.extend_from_slice(text.bytes())?;
            Ok(())
        }
        other => other.print(out),
    }
}

/// The plain bytes of the arguments, one after another.
pub fn join(alloc: Global, pairs: &[Pair]) -> Result<Vec<u8>, Memory>
    ensures { IfOk result (λ bytes. bytes.items ≡ joined pairs.now) }
{
    let mut bytes = Vec::new(alloc);
    for pair in pairs {
        append_plain(&pair.value, &mut bytes)?;
    }
    Ok(bytes)
}

/// The text of all arguments.
pub fn concat(alloc: Global, pairs: &[Pair]) -> Result<Outcome, Memory>
    ensures { IfOk result (λ outcome. outcome ≡ text_of (joined pairs.now)) }
{
    let bytes = join(alloc, pairs)?;
    match Text::make(alloc, &bytes) {
        Ok(text) => Ok(Outcome::Gave(Val::Text(text))),
        Err(MakeFault::No) => Ok(Outcome::Failed(Failure::TooLong)),
        Err(MakeFault::Memory) => Err(Memory),
    }
}

/// A failure that raises these bytes, or that they are too long for a text.
pub fn raise(alloc: Global, bytes: &[u8]) -> Result<Outcome, Memory>
    ensures { IfOk result (λ outcome. outcome ≡ raised bytes.now) }
{
    match Text::make(alloc, bytes) {
        Ok(text) => Ok(Outcome::Failed(Failure::Raised(text))),
        Err(MakeFault::No) => Ok(Outcome::Failed(Failure::TooLong)),
        Err(MakeFault::Memory) => Err(Memory),
    }
}

/// The argument where it is true, and else a failure that shows it.
pub fn demand(alloc: Global, value: &Val) -> Result<Outcome, Memory>
    ensures { IfOk result (λ outcome. outcome ≡ demanded value.now) }
{
    match value {
        Val::Truth(true) => Ok(Outcome::Gave(Val::Truth(true))),
        other => refuse(alloc, other),
    }
}

/// A failure that says that a value isn't true.
fn refuse(alloc: Global, value: &Val) -> Result<Outcome, Memory>
    ensures { IfOk result (λ outcome. outcome ≡ raised (plain value.now ++ codes " is not true")) }
{
    let mut bytes = Vec::new(alloc);
    append_plain(value, &mut bytes)?;
    bytes.extend_from_slice(b" is not true")?;
    raise(alloc, &bytes)
}
