//! What holds of every generated flow. The functions do nothing; their contracts are the laws.

ghost use Rattle.std.specs.Prelude.{◌≡◌, ◌∷◌, ℕ, None, map};
ghost use Rattle.tf_flow.specs.Tree.{places, tree_of};
ghost use Rattle.tf_flow.specs.Plan.{PlanValue};
ghost use Rattle.tf_flow.specs.declared.nested.FlowKind.TheVariants.{Linear as as_they_stand};
ghost use Rattle.tf_model.specs.Plan.{compile_refusal, outline_of};
ghost use Rattle.tf_model.specs.Scope.{missing_symbol};
ghost use Rattle.tf_demo.specs.Demo.{demo_flow, group_count};
ghost use Rattle.tf_demo.specs.Order.{tasks_in, kinds_in, task_of_number, kind_of_number};
ghost use Rattle.tf_numbers.specs.Numbers.{numbers_below};

/// A plan of a generated flow compiles.
#[tactic(auto, using(crate::proofs::CompileLemmas::compiles))]
pub fn demo_compiles()
    ensures { (seed size : ℕ) (plan : PlanValue) → tree_of plan.root ≡ demo_flow seed size
        → compile_refusal plan ≡ None }
{}

/// Somebody gives each symbol that a generated flow takes.
#[tactic(auto, using(crate::proofs::SymbolLemmas::complete))]
pub fn demo_misses_no_symbol()
    ensures { (seed size : ℕ) (plan : PlanValue) → tree_of plan.root ≡ demo_flow seed size
        → missing_symbol (outline_of plan) ≡ None }
{}

/// A generated flow has the tasks with the numbers below its size, each once and in order, and a group for
/// each ten of them that was begun. The draws follow one another through all of it: each task and each
/// group is made by the draw of its own place.
#[tactic(auto, using(crate::proofs::OrderLemmas::tasks_numbered, crate::proofs::OrderLemmas::kinds_numbered))]
pub fn demo_is_read_by_numbers()
    ensures tasks { (seed size : ℕ)
        → tasks_in (places (demo_flow seed size)) ≡ map (task_of_number seed) (numbers_below size) }
    ensures groups { (seed size : ℕ)
        → kinds_in (places (demo_flow seed size)) ≡ as_they_stand
        ∷ map (kind_of_number seed) (numbers_below (group_count size)) }
{}
