//! What can be made of the bodies of a journal.
ghost use Rattle.std.specs.Prelude.{◌≡◌, ◌++◌, ◌∷◌, [], ℕ, List, OnOk, IsErrOf};

use std::alloc::Global;
use tf_values::MakeFault;

/// What is made of a journal's bodies, which are replayed into it one after another: the jobs of a board, or the run
/// that a book records.
pub trait Replay {
    /// Just these bodies were replayed into the value, in this order.
    ghost replayed: { Self → List (List ℕ) → Type 0 };

    /// No such body may come after these.
    ghost refuses: { List (List ℕ) → List ℕ → Type 0 };

    /// A number of the value that stays while bodies are replayed into it, where it has one.
    ghost fixed: { Self → ℕ } = { λ _. 0 };

    /// Replays one body more. `No` comes only where no such body may come after those before it, and `Memory` for want
    /// of memory; after either nothing is said of the value.
    fn replay(&mut self, alloc: Global, body: &[u8]) -> Result<(), MakeFault>
        requires ready { (before : List (List ℕ)) × replayed self.old before }
        ensures replayed { OnOk result ((before : List (List ℕ)) → replayed self.old before
            → replayed self.new (before ++ body.now ∷ [])) }
        ensures fixed { OnOk result (fixed self.new ≡ fixed self.old) }
        ensures refused { IsErrOf result MakeFault.No → (before : List (List ℕ)) → replayed self.old before
            → refuses before body.now };
}
