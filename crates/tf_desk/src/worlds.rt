ghost use Rattle.std.specs.Prelude.{ℕ, List, Option, None, false};
ghost use Rattle.tf_desk.specs.Replay.{First};

use std::marker::Brand;

/// What was outside before the program began, which no run can tell. It is a ghost of a type alone, so the same code
/// runs for each: what is proved for any world holds for the one that there is.
pub trait World {
    /// The bytes under each name that the sources have; None where they have none.
    ghost sources: { List ℕ → Option (List ℕ) };

    /// What the files of the desk held at first, and what no call of it can tell.
    ghost first: { First };
}

/// The world that a program names, as it has to name one: nothing is claimed by it.
impl World for Brand {
    ghost sources = { λ name. None };

    ghost first = { record { files = λ name. None; left = λ name image. false; put = λ call. 0 } };
}
