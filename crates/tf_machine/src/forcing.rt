ghost use Rattle.std.specs.Prelude.{◌≡◌, ◌≢◌, true, false, Some, Ok, IfOk, is_some};
ghost use Rattle.tf_model.specs.Plan.{outline_of};
ghost use Rattle.tf_model.specs.Forced.{is_unhurt, is_active, forced_if_running, forced};
ghost use Rattle.tf_machine.specs.Counts.{HasCounters};
ghost use Rattle.tf_machine.specs.Tables.{shown_by};
ghost use Rattle.tf_machine.specs.Worklists.{IsListed};

use crate::cases::first_case;
use crate::compiled::Compiled;
use crate::entries::entry_of;
use crate::equality::same_event;
use crate::states::{flow_runs, is_revert_failure};
use crate::tables::Tables;
use crate::worklists::Worklist;
use std::alloc::Global;
use tf_states::What;
use tf_values::Memory;

/// Whether no atom is REVERT_FAILURE. It is looked for only where one may be.
pub fn is_unhurt(compiled: &Compiled, tables: &Tables, list: &Worklist) -> bool
    requires listed { IsListed (outline_of compiled.now) (shown_by tables.now) list.now }
    ensures { result ≡ is_unhurt (outline_of compiled.now) (shown_by tables.now) }
{
    !list.hurt || are_unhurt(compiled, tables)
}

/// Whether no atom is REVERT_FAILURE.
#[tactic(auto, using(tf_numbers::proofs::BelowLemmas::not_each, tf_numbers::proofs::BelowLemmas::still_all))]
pub fn are_unhurt(compiled: &Compiled, tables: &Tables) -> bool
    ensures { result ≡ is_unhurt (outline_of compiled.now) (shown_by tables.now) }
{
    for atom in 0..compiled.atoms() {
        if is_revert_failure(tables.state(atom)) {
            return false;
        }
    }
    true
}

/// Whether the flow is RUNNING and no atom is REVERT_FAILURE.
#[tactic(auto, unfolding(tf_model::specs::Forced::is_active))]
pub fn is_active(compiled: &Compiled, tables: &Tables, list: &Worklist) -> bool
    requires listed { IsListed (outline_of compiled.now) (shown_by tables.now) list.now }
    ensures { result ≡ is_active (outline_of compiled.now) (shown_by tables.now) }
{
    flow_runs(tables.flow) && is_unhurt(compiled, tables, list)
}

/// Whether something is forced, read as if the flow were RUNNING. It takes no memory.
pub fn something_forced(compiled: &Compiled, tables: &Tables, list: &Worklist) -> bool
    requires counted { HasCounters (outline_of compiled.now) tables.now }
    requires listed { IsListed (outline_of compiled.now) (shown_by tables.now) list.now }
    ensures { result ≡ is_some (forced_if_running (outline_of compiled.now) (shown_by tables.now)) }
{
    first_case(compiled, tables, list).is_some()
}

/// The forced entry.
#[tactic(auto, unfolding(tf_model::specs::Forced::forced))]
pub fn forced(
    alloc: Global,
    compiled: &Compiled,
    tables: &Tables,
    list: &Worklist,
) -> Result<Option<What>, Memory>
    requires counted { HasCounters (outline_of compiled.now) tables.now }
    requires listed { IsListed (outline_of compiled.now) (shown_by tables.now) list.now }
    ensures { IfOk result (λ found. found ≡ forced (outline_of compiled.now) (shown_by tables.now)) }
{
    if !is_active(compiled, tables, list) {
        return Ok(None);
    }
    match first_case(compiled, tables, list) {
        None => Ok(None),
        Some(found) => Ok(Some(entry_of(alloc, compiled, tables, found)?)),
    }
}

/// Whether this is the forced entry.
pub fn is_forced(
    alloc: Global,
    compiled: &Compiled,
    tables: &Tables,
    list: &Worklist,
    what: &What,
) -> Result<bool, Memory>
    requires counted { HasCounters (outline_of compiled.now) tables.now }
    requires listed { IsListed (outline_of compiled.now) (shown_by tables.now) list.now }
    ensures yes { result ≡ Ok true → forced (outline_of compiled.now) (shown_by tables.now) ≡ Some what.now }
    ensures no { result ≡ Ok false → forced (outline_of compiled.now) (shown_by tables.now) ≢ Some what.now }
{
    match forced(alloc, compiled, tables, list)? {
        None => Ok(false),
        Some(entry) => Ok(same_event(&entry, what)),
    }
}
