ghost use Rattle.std.specs.Prelude.{◌≡◌, ◌↔◌, IsTrue};

use crate::elements::Scalar;
use crate::value::Val;

impl Val {
    /// Whether the two values are equal.
    pub fn same(&self, other: &Val) -> bool
        ensures { IsTrue result ↔ (self.now ≡ other.now) }
    {
        match self {
            Val::Nothing => matches!(other, Val::Nothing),
            Val::Truth(truth) => matches!(other, Val::Truth(other) if *truth == *other),
            Val::Int(number) => matches!(other, Val::Int(other) if *number == *other),
            Val::Text(text) => matches!(other, Val::Text(other) if text.bytes() == other.bytes()),
            Val::List(list) => match other {
                Val::List(other) => same_scalars(list.items(), other.items()),
                _ => false,
            },
        }
    }
}

/// Whether two lists have equal scalars in the same order.
fn same_scalars(scalars: &[Scalar], others: &[Scalar]) -> bool
    ensures { IsTrue result ↔ (scalars.now ≡ others.now) }
{
    if scalars.len() != others.len() {
        return false;
    }
    for (index, scalar) in scalars.iter().enumerate() {
        if !same_scalar(scalar, &others[index]) {
            return false;
        }
    }
    true
}

/// Whether two scalars are equal.
fn same_scalar(scalar: &Scalar, other: &Scalar) -> bool
    ensures { IsTrue result ↔ (scalar.now ≡ other.now) }
{
    match scalar {
        Scalar::Nothing => matches!(other, Scalar::Nothing),
        Scalar::Truth(truth) => matches!(other, Scalar::Truth(other) if *truth == *other),
        Scalar::Int(number) => matches!(other, Scalar::Int(other) if *number == *other),
        Scalar::Text(text) => {
            matches!(other, Scalar::Text(other) if text.bytes() == other.bytes())
        }
    }
}
