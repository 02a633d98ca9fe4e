ghost use Rattle.std.specs.Prelude.{◌≡◌, ◌∷◌, ◌++◌, ◌<◌, [], List, Option, Some, length};
ghost use Rattle.tf_board.specs.Board.{priority_byte as byte_of};
ghost use Rattle.tf_board.specs.Seeking.{firsts, starts_in as starts_among};
ghost use Rattle.tf_states.specs.declared.priorities.Priority.{Priority as APriority};

use crate::commands::priority_byte;
use crate::jobs::is_priority;
use tf_states::Priority;

/// Where the search for a job begins: the first place that is free under each priority, of those before the first
/// under the most urgent one, and where these end. What stands behind matters only where that one may not be taken.
#[derive(Drop)]
pub struct Starts {
    found: [Option<usize>; 5],
    end: usize,
}

/// How many priorities are more urgent.
fn rank(priority: Priority) -> usize
    ensures is { result ≡ byte_of priority }
    ensures within { result < 5 }
{
    priority_byte(priority).into()
}

/// Notes the place that is free under the priority, unless an earlier one is.
fn note(found: &mut [Option<usize>; 5], priority: Priority, place: usize)
    ensures { (before : List (Option APriority)) → found.old ≡ firsts before → place ≡ length before
        → found.new ≡ firsts (before ++ Some priority ∷ []) }
{
    let first = rank(priority);
    if found[first].is_none() {
        found[first] = Some(place);
    }
}

/// Where the search begins under each priority, in one pass.
pub fn starts_in(free: &[Option<Priority>]) -> Starts
    ensures { result ≡ starts_among free.now }
{
    let mut found = [None; 5];
    for (place, under) in free.iter().enumerate() {
        if let Some(priority) = *under {
            if is_priority(priority, Priority::VeryHigh) {
                return Starts { found, end: place };
            }
            note(&mut found, priority, place);
        }
    }
    Starts {
        found,
        end: free.len(),
    }
}

impl Starts {
    ghost use Rattle.std.specs.Prelude.{◌≡◌, List, Option};
    ghost use Rattle.tf_board.specs.Seeking.{starts_in as starts_among, start_under};
    ghost use Rattle.tf_states.specs.declared.priorities.Priority.{Priority as APriority};

    /// The place before which no job is free under the priority.
    pub fn of(&self, priority: Priority) -> usize
        ensures { (free : List (Option APriority)) → self.now ≡ starts_among free
            → result ≡ start_under free priority }
    {
        self.found[rank(priority)].unwrap_or(self.end)
    }
}
