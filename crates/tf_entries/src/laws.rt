//! What the forms of entries and plans promise, whatever these are.

ghost use Rattle.std.specs.Prelude.{◌≡◌, ◌≤◌, ◌++◌, List, ℕ, None, length};
ghost use Rattle.tf_states.specs.declared.record.Entry.{Entry};
ghost use Rattle.tf_flow.specs.Limits.{plan_len};
ghost use Rattle.tf_flow.specs.Tree.{tree_order, tree_of};
ghost use Rattle.tf_flow.specs.Plan.{PlanValue, as_written};
ghost use Rattle.tf_flow.specs.Rules.{first_refusal};
ghost use Rattle.tf_entries.specs.Entries.{IsEntry, HasItsPayload, entry_bytes};
ghost use Rattle.tf_entries.specs.Heads.{IsHead, head_bytes};
ghost use Rattle.tf_entries.specs.Plans.{plan_bytes, KeepsLimits};
ghost use Rattle.tf_entries.specs.declared.heads.Head.{Head};

/// A form is that of one entry, and has 1 to 131,200 bytes.
#[tactic(auto, using(crate::proofs::SizeLemmas::entry_long))]
pub fn entry_has_one_form()
    ensures one { (n m : ℕ) (a b : Entry) → IsEntry n m a → IsEntry n m b
        → entry_bytes a ≡ entry_bytes b → a ≡ b }
    ensures long { (e : Entry) → HasItsPayload e.what
        → (1 ≤ length (entry_bytes e)) × (length (entry_bytes e) ≤ 131200) }
{}

/// The form of a plan is as long as the limit of a plan's bytes counts it.
#[tactic(auto, using(crate::proofs::LengthLemmas::plan_long))]
pub fn plan_has_its_length()
    ensures { (plan : PlanValue) → length (plan_bytes plan) ≡ plan_len (tree_order plan.root) plan.store }
{}

/// A plan's form is that of plans that are written alike: with the same flows, links and tests, the same
/// store, and the same answer to whether reverts are deferred.
pub fn plan_has_one_form()
    ensures { (p q : PlanValue) → first_refusal p.root p.store ≡ None → first_refusal q.root q.store ≡ None
        → KeepsLimits p → KeepsLimits q → plan_bytes p ≡ plan_bytes q
        → (as_written (tree_of p.root) ≡ as_written (tree_of q.root))
        × (p.store ≡ q.store) × (p.defer ≡ q.defer) }
{}

/// What a head was put in front of is read as that head and what stands behind it, and as nothing else.
pub fn head_has_one_form()
    ensures { (a b : Head) (rest more : List ℕ) → IsHead a → IsHead b
        → head_bytes a ++ rest ≡ head_bytes b ++ more → (a ≡ b) × (rest ≡ more) }
{}
