ghost use Rattle.std.specs.Prelude.{◌≡◌, List, [], ◌∷◌, ◌++◌};
ghost use Rattle.std.specs.Borrow.{ftrue};

use std::marker::{Model, PhantomData};

/// Pairs that were noted, the oldest first. A clause reads them as `items`. It takes no bytes, and its methods do
/// nothing at run time.
#[derive(Drop)]
pub struct Log<A, B> {
    of: PhantomData<(A, B)>,
    pub ghost items: { List (A × B) },
}

impl<A, B> Model for Log<A, B> {
    ghost also_owns = { λ _. ftrue };
}

// It owns nothing.
unsafe impl<A: Send, B: Send> Send for Log<A, B> {}

impl<A, B> Log<A, B> {
    /// A log without a pair.
    pub fn new() -> Log<A, B>
        ensures { result.items ≡ [] }
    {
        Log { of: PhantomData }
    }

    /// The log with one pair more.
    pub fn and(&self, first: &A, second: &B) -> Log<A, B>
        ensures { result.items ≡ self.now.items ++ (first.now, second.now) ∷ [] }
    {
        Log { of: PhantomData }
    }
}
