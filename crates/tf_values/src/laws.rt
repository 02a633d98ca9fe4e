//! What the forms of values promise, whatever the values are.

ghost use Rattle.std.specs.Prelude.{◌≡◌, ◌++◌, ℕ, List};
ghost use Rattle.tf_values.specs.declared.value.Val.{Val};
ghost use Rattle.tf_values.specs.Value.{text_form, IsValue, byte_form};

/// A text form has one reading.
#[tactic(auto, using(crate::proofs::ValueLemmas::value_text_one))]
pub fn one_text_reading()
    ensures { (v w : Val) → IsValue v → IsValue w → text_form v ≡ text_form w → v ≡ w }
{}

/// A byte form has one reading, and begins no other's, whatever follows.
#[tactic(auto, using(crate::proofs::ValueLemmas::value_byte_one))]
pub fn one_byte_reading()
    ensures { (v w : Val) (x y : List ℕ) → IsValue v → IsValue w
        → byte_form v ++ x ≡ byte_form w ++ y → (v ≡ w) × (x ≡ y) }
{}
