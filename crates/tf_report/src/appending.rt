ghost use Rattle.std.specs.Prelude.{◌≡◌, ◌<◌, ◌≤◌, ◌+◌, ◌++◌, ◌∷◌, length, OnOk, OnErr, vec_capacity};
ghost use Rattle.tf_values.specs.Growth.{KeepsPrefix};

use itoa::{Buffer, Integer};
use tf_values::Memory;

/// Appends bytes. Want of memory leaves a prefix of them behind what was there.
pub fn append(bytes: &[u8], out: &mut Vec<u8>) -> Result<(), Memory>
    ensures ok { OnOk result (out.new.items ≡ out.old.items ++ bytes.now) }
    ensures err { OnErr result (KeepsPrefix out.old.items out.new.items) }
    ensures full { OnErr result (vec_capacity out.old < length out.old.items + length bytes.now) }
    ensures capacity { vec_capacity out.old ≤ vec_capacity out.new }
{
    out.extend_from_slice(bytes)?;
    Ok(())
}

/// Appends a number in decimal digits. Want of memory leaves a prefix of them behind what was there.
pub fn append_number<I: Integer + Drop>(number: I, out: &mut Vec<u8>) -> Result<(), Memory>
    ensures ok { OnOk result (out.new.items ≡ out.old.items ++ I.text number) }
    ensures err { OnErr result (KeepsPrefix out.old.items out.new.items) }
    ensures full { OnErr result (vec_capacity out.old < length out.old.items + length (I.text number)) }
    ensures capacity { vec_capacity out.old ≤ vec_capacity out.new }
    ensures short { length (I.text number) ≤ 40 }
{
    let mut buffer = Buffer::new();
    append(buffer.format(number).as_bytes(), out)
}

/// Appends a head and a number. Want of memory leaves a prefix of both behind what was there.
#[tactic(auto, using(tf_values::proofs::GrowthLemmas::keeps_shorter))]
pub fn append_counted<I: Integer + Drop>(
    head: &[u8],
    number: I,
    out: &mut Vec<u8>,
) -> Result<(), Memory>
    ensures ok { OnOk result (out.new.items ≡ out.old.items ++ (head.now ++ I.text number)) }
    ensures err { OnErr result (KeepsPrefix out.old.items out.new.items) }
    ensures full { OnErr result (vec_capacity out.old < length out.old.items + (length head.now + 40)) }
    ensures capacity { vec_capacity out.old ≤ vec_capacity out.new }
    ensures short { OnOk result (length (I.text number) ≤ 40) }
{
    append(head, out)?;
    append_number(number, out)
}

/// Appends a head and a name. Want of memory leaves a prefix of both behind what was there.
#[tactic(auto, using(tf_values::proofs::GrowthLemmas::keeps_shorter))]
pub fn append_pair(head: &[u8], name: &[u8], out: &mut Vec<u8>) -> Result<(), Memory>
    ensures ok { OnOk result (out.new.items ≡ out.old.items ++ (head.now ++ name.now)) }
    ensures err { OnErr result (KeepsPrefix out.old.items out.new.items) }
    ensures full { OnErr result (vec_capacity out.old < length out.old.items + (length head.now + length name.now)) }
    ensures capacity { vec_capacity out.old ≤ vec_capacity out.new }
{
    append(head, out)?;
    append(name, out)
}

/// Appends a head, a name and a word.
#[tactic(auto, using(tf_values::proofs::GrowthLemmas::keeps_shorter))]
pub fn append_named(head: &[u8], name: &[u8], word: &str, out: &mut Vec<u8>) -> Result<(), Memory>
    ensures ok { OnOk result (out.new.items ≡ out.old.items ++ (head.now ++ name.now ++ 32 ∷ word.now)) }
    ensures err { OnErr result (KeepsPrefix out.old.items out.new.items) }
    ensures full { OnErr result (vec_capacity out.old
        < length out.old.items + (length head.now + length name.now + 1 + length word.now)) }
    ensures capacity { vec_capacity out.old ≤ vec_capacity out.new }
{
    append_pair(head, name, out)?;
    append_pair(b" ", word.as_bytes(), out)
}
