ghost use Rattle.std.specs.Prelude.{◌≡◌, ◌<◌, ◌∷◌, [], vec_len, vec_capacity};
ghost use Rattle.tf_details.specs.Elements.{with_entries};
ghost use Rattle.tf_details.specs.Marks.{elements_shown};
ghost use Rattle.tf_book.specs.Holding.{contents_of, HasHoldingRoom};
ghost use Rattle.tf_book.specs.Book.{with_detail};

use std::snapshot::Snapshot;
use tf_details::Mark;
use tf_flow::Plan;
use tf_states::Entry;

/// What a book's file holds, as clauses see it: its elements, which take no bytes, and the number of the book's detail
/// among them.
#[derive(Drop)]
pub struct Holding {
    pub number: u16,
    pub marks: Vec<Snapshot<Mark>>,
}

impl Holding {
    /// Notes a detail of this plan behind the elements.
    pub fn begin(&mut self, plan: &Plan)
        requires room { vec_len self.old.marks < vec_capacity self.old.marks }
        ensures held { elements_shown self.new.marks.items
            ≡ with_detail (elements_shown self.old.marks.items) plan.now }
        ensures number { self.new.number ≡ self.old.number }
        ensures all_room { HasHoldingRoom self.old → HasHoldingRoom self.new }
    {
        let _ = self
            .marks
            .push(Snapshot::of(&Mark::Detail(Snapshot::of(plan))));
    }

    /// Notes an entry of the book's detail behind the elements.
    pub fn keep(&mut self, entry: &Entry)
        requires room { vec_len self.old.marks < vec_capacity self.old.marks }
        ensures held { contents_of self.new ≡ with_entries (contents_of self.old) (entry.now ∷ []) }
        ensures number { self.new.number ≡ self.old.number }
        ensures all_room { HasHoldingRoom self.old → HasHoldingRoom self.new }
    {
        let mark = Mark::Entry(self.number, Snapshot::of(entry));
        let _ = self.marks.push(Snapshot::of(&mark));
    }
}
