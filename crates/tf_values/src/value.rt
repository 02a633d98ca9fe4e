ghost use Rattle.std.specs.Prelude.{◌≡◌, IfOk};
ghost use Rattle.tf_values.specs.Value.{value_of};

use crate::elements::{Scalar, Scalars};
use crate::faults::Memory;
use crate::utf8::Text;
use std::alloc::Global;

/// A value: nothing, a truth value, an integer of 64 bits, a text or a list of scalars.
#[derive(Debug, Drop)]
pub enum Val {
    Nothing,
    Truth(bool),
    Int(i64),
    Text(Text),
    List(Scalars),
}

impl Val {
    /// An equal value.
    pub fn copy(&self, alloc: Global) -> Result<Val, Memory>
        ensures { IfOk result (λ value. value ≡ self.now) }
    {
        match self {
            Val::Nothing => Ok(Val::Nothing),
            Val::Truth(truth) => Ok(Val::Truth(*truth)),
            Val::Int(number) => Ok(Val::Int(*number)),
            Val::Text(text) => Ok(Val::Text(text.copy(alloc)?)),
            Val::List(scalars) => Ok(Val::List(scalars.copy(alloc)?)),
        }
    }
}

impl From<Scalar> for Val {
    ghost from_gives = { λ scalar value. value ≡ value_of scalar };

    fn from(scalar: Scalar) -> Val {
        match scalar {
            Scalar::Nothing => Val::Nothing,
            Scalar::Truth(truth) => Val::Truth(truth),
            Scalar::Int(number) => Val::Int(number),
            Scalar::Text(text) => Val::Text(text),
        }
    }
}
