//! What holds of every flow that is carried over. The functions do nothing; their contracts are the laws.
ghost use Rattle.std.specs.Prelude.{◌≡◌, ◌+◌, ◌*◌, ◌++◌, ◌∷◌, ℕ, List, Some, length};
ghost use Rattle.tf_states.specs.declared.record.Entry.{Entry};
ghost use Rattle.tf_flow.specs.Plan.{PlanValue};
ghost use Rattle.tf_details.specs.Elements.{IsHistoryOf, IsLegalBook, plan_of, history};
ghost use Rattle.tf_details.specs.Whole.{plan_written};
ghost use Rattle.tf_journal.specs.Format.{Recovered, journal_bytes};
ghost use Rattle.tf_journal.specs.declared.title.Title.TheVariants.{Book, Book2};
ghost use Rattle.tf_migration.specs.Migrates.{IsBookOfFlow, old_bodies, carried, new_bodies, HoldsFlow, CannotFollow};

use tf_details::{books_are_never_refused, books_are_read_once};

/// What is carried over is a legal book of several flows, whose detail 0 has the plan and the history.
pub fn a_flow_carried_over_is_a_book()
    ensures legal { (plan : PlanValue) (past : List Entry) → IsHistoryOf plan past → IsLegalBook (carried plan past) }
    ensures plan { (plan : PlanValue) (past : List Entry) → plan_of (carried plan past) 0 ≡ Some plan }
    ensures history { (plan : PlanValue) (past : List Entry) → history 0 (carried plan past) ≡ past }
{}

/// No body of a book of one flow is refused after those before it.
pub fn old_books_are_never_refused()
    ensures { (plan : PlanValue) (past : List Entry) (before after : List (List ℕ)) (body : List ℕ)
        → IsHistoryOf plan past → old_bodies plan past ≡ before ++ body ∷ after → ¬ (CannotFollow before body) }
{
    books_are_never_refused();
}

/// Books of one flow with the same bodies tell the same, whether they are carried over or not.
pub fn old_books_are_read_once()
    ensures { (p q : PlanValue) (past other : List Entry) → IsHistoryOf p past → IsHistoryOf q other
        → old_bodies p past ≡ old_bodies q other → (plan_written p ≡ plan_written q) × (past ≡ other) }
{
    books_are_read_once();
}

/// A file that holds a flow is a book of one flow.
pub fn flows_are_in_books()
    ensures { (plan : PlanValue) (past : List Entry) (found : Recovered) → HoldsFlow plan past found
        → IsBookOfFlow found }
{
    old_books_are_never_refused();
}

/// The new book is longer than the old one, by a byte for the plan and by three for each entry.
pub fn a_new_book_is_longer()
    ensures { (plan : PlanValue) (past : List Entry) → length (journal_bytes Book2 (new_bodies plan past))
        ≡ length (journal_bytes Book (old_bodies plan past)) + 1 + 3 * length past }
{}
