ghost use Rattle.std.specs.Prelude.{◌≡◌, ◌<◌, true, false};
ghost use Rattle.std.specs.List.{list_all};
ghost use Rattle.tf_model.specs.Plan.{outline_of, count};
ghost use Rattle.tf_model.specs.Readiness.{can_run, can_revert};
ghost use Rattle.tf_model.specs.Forced.{is_done_at};
ghost use Rattle.tf_model.specs.Steps.{is_settled_at};
ghost use Rattle.tf_order.specs.Graph.{predecessors_of, successors_of};
ghost use Rattle.tf_machine.specs.Counts.{HasCounters};
ghost use Rattle.tf_machine.specs.Tables.{shown_by};

use crate::compiled::Compiled;
use crate::states::{is_executed, is_pending};
use crate::tables::Tables;

/// Whether an atom is PENDING with mark EXECUTE, and every atom before it is done with.
#[tactic(auto, using(crate::proofs::ReadinessLemmas::runs_by_predecessors))]
pub fn can_run(compiled: &Compiled, tables: &Tables, atom: u16) -> bool
    requires counted { HasCounters (outline_of compiled.now) tables.now }
    requires atom { atom < count (outline_of compiled.now) }
    ensures { result ≡ can_run (outline_of compiled.now) (shown_by tables.now) atom }
{
    is_pending(tables.state(atom))
        && tables.is_unmarked(atom)
        && are_done_before(compiled, tables, atom)
}

/// Whether an atom is SUCCESS or FAILURE with another mark than EXECUTE, and every atom after it is
/// settled.
#[tactic(auto, using(crate::proofs::ReadinessLemmas::reverts_by_successors))]
pub fn can_revert(compiled: &Compiled, tables: &Tables, atom: u16) -> bool
    requires counted { HasCounters (outline_of compiled.now) tables.now }
    requires atom { atom < count (outline_of compiled.now) }
    ensures { result ≡ can_revert (outline_of compiled.now) (shown_by tables.now) atom }
{
    is_executed(tables.state(atom))
        && !tables.is_unmarked(atom)
        && are_settled_after(compiled, tables, atom)
}

/// Whether each atom before an atom is done with.
fn are_done_before(compiled: &Compiled, tables: &Tables, atom: u16) -> bool
    requires counted { HasCounters (outline_of compiled.now) tables.now }
    requires atom { atom < count (outline_of compiled.now) }
    ensures { result ≡ list_all (is_done_at (shown_by tables.now)) (predecessors_of (outline_of compiled.now) atom) }
{
    tables.counters.waiting(atom) == 0
}

/// Whether each atom after an atom is settled.
fn are_settled_after(compiled: &Compiled, tables: &Tables, atom: u16) -> bool
    requires counted { HasCounters (outline_of compiled.now) tables.now }
    requires atom { atom < count (outline_of compiled.now) }
    ensures { result ≡ list_all (is_settled_at (shown_by tables.now)) (successors_of (outline_of compiled.now) atom) }
{
    tables.counters.holding(atom) == 0
}
