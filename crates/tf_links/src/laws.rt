//! What the definitions promise of all links.

ghost use Rattle.std.specs.Prelude.{◌≡◌, ℕ, ◌<◌, ◌≤◌, List, [], ◌∷◌, ◌++◌, true, false, length};
ghost use Rattle.tf_numbers.specs.Numbers.{has_number, Pair, has_pair};
ghost use Rattle.tf_links.specs.Graphs.{reached, shortest_cycle, standing_items, AreBelow, Chain, IsNextOf, IsCycle, comes_before};

/// A number reaches another exactly where a chain of pairs leads from the one to the other, for pairs of
/// numbers below n.
#[tactic(auto, using(crate::proofs::ReachLawLemmas::chain_of, crate::proofs::ReachLawLemmas::chain_reaches))]
pub fn reached_is_by_a_chain()
    ensures chain { (n : ℕ) (pairs : List Pair) (u v : ℕ) → has_pair (reached n pairs) u v ≡ true → Chain pairs u v }
    ensures reached { (n : ℕ) (pairs : List Pair) → AreBelow n pairs → (u v : ℕ) → Chain pairs u v
        → has_pair (reached n pairs) u v ≡ true }
{}

/// Where a chain of links leads from an item back to it, the shortest cycle through it is a cycle; where
/// none does, nothing is told. No cycle through the item is shorter, and none of the same length comes
/// before it item by item.
#[tactic(auto, using(crate::proofs::CycleLawLemmas::cycle_told, crate::proofs::CycleLawLemmas::nothing_told, crate::proofs::CycleLawLemmas::none_shorter, crate::proofs::CycleLawLemmas::none_before))]
pub fn shortest_cycle_is_the_first_of_the_shortest()
    ensures cycle { (n : ℕ) (pairs : List Pair) → AreBelow n pairs → (v : ℕ) → Chain pairs v v
        → IsCycle pairs v (shortest_cycle n pairs v) }
    ensures nothing { (n : ℕ) (pairs : List Pair) → AreBelow n pairs → (v : ℕ) → (Chain pairs v v → ⊥)
        → shortest_cycle n pairs v ≡ [] }
    ensures shortest { (n : ℕ) (pairs : List Pair) → AreBelow n pairs → (v : ℕ) (other : List ℕ) → IsCycle pairs v other
        → length (shortest_cycle n pairs v) ≤ length other }
    ensures first { (n : ℕ) (pairs : List Pair) → AreBelow n pairs → (v : ℕ) (other : List ℕ) → IsCycle pairs v other
        → length other ≡ length (shortest_cycle n pairs v) → comes_before other (shortest_cycle n pairs v) ≡ false }
{}

/// Where an item stands in standing order, all that lead to it stand before it and it doesn't itself, and it
/// is the least that could stand there: each smaller item stands before, or another leads to it that doesn't.
/// Where no chain leads from an item back to it, each item stands.
#[tactic(auto, using(crate::proofs::StandingLawLemmas::all_stand))]
pub fn standing_order_is_the_least()
    ensures next { (n : ℕ) (pairs : List Pair) (before : List ℕ) (v : ℕ) (after : List ℕ)
        → standing_items n pairs ≡ before ++ v ∷ after → IsNextOf n pairs before v }
    ensures whole { (n : ℕ) (pairs : List Pair) → AreBelow n pairs → ((v : ℕ) → v < n → Chain pairs v v → ⊥)
        → (v : ℕ) → v < n → has_number (standing_items n pairs) v ≡ true }
{}
