//! What holds of every legal book. The functions do nothing; their contracts are the laws.

ghost use Rattle.std.specs.Prelude.{◌≡◌, ◌+◌, ◌++◌, ◌∷◌, ℕ, List, Some, length};
ghost use Rattle.tf_flow.specs.Plan.{PlanValue};
ghost use Rattle.tf_journal.specs.Format.{prefix_of};
ghost use Rattle.tf_journal.specs.declared.title.Title.TheVariants.{Book2};
ghost use Rattle.tf_details.specs.Elements.{Element, plan_of, history, bodies_of, book_size, IsHistoryOf, IsLegalBook, CannotFollow};
ghost use Rattle.tf_details.specs.Whole.{IsLegalAsAWhole, AreAlike};

/// The history of each detail of a legal book is one that a book may hold.
pub fn details_have_histories()
    ensures { (book : List Element) (number : ℕ) (plan : PlanValue) → IsLegalBook book
        → plan_of book number ≡ Some plan → IsHistoryOf plan (history number book) }
{}

/// A book is legal element by element exactly where it is as a whole.
#[tactic(auto, using(crate::proofs::WholeLemmas::whole_legal))]
pub fn books_are_legal_as_a_whole()
    ensures whole { (book : List Element) → IsLegalBook book → IsLegalAsAWhole book }
    ensures steps { (book : List Element) → IsLegalAsAWhole book → IsLegalBook book }
{}

/// No body of a legal book is refused after those before it.
#[tactic(auto, using(crate::proofs::OnceLemmas::never_refused))]
pub fn books_are_never_refused()
    ensures { (book : List Element) (before after : List (List ℕ)) (body : List ℕ) → IsLegalBook book
        → bodies_of book ≡ before ++ body ∷ after → ¬ (CannotFollow before body) }
{}

/// Legal books with the same bodies tell the same.
#[tactic(auto, using(crate::proofs::OnceLemmas::read_once))]
pub fn books_are_read_once()
    ensures { (a b : List Element) → IsLegalBook a → IsLegalBook b → bodies_of a ≡ bodies_of b → AreAlike a b }
{}

/// What makes a legal book of one of two that have the same bodies makes one of the other, with the same bodies again.
pub fn books_grow_alike()
    ensures { (a b newer : List Element) → IsLegalBook a → IsLegalBook b → bodies_of a ≡ bodies_of b
        → IsLegalBook (newer ++ b) → IsLegalBook (newer ++ a) × (bodies_of (newer ++ a) ≡ bodies_of (newer ++ b)) }
{}

/// The size of a book is that of a journal with its bodies.
#[tactic(auto, using(crate::proofs::BookLemmas::size_is))]
pub fn books_have_their_size()
    ensures { (book : List Element) → length (prefix_of Book2 (bodies_of book)) + 1 ≡ book_size book }
{}
