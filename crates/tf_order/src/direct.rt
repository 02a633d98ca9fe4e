ghost use Rattle.std.specs.Prelude.{◌≡◌, ℕ, ◌<◌, ◌≤◌, List, Some, true, ◌+◌, ◌++◌, ◌&&◌, ◌||◌, length, map, nat_eq, IfOk, OnOk};
ghost use Rattle.tf_links.specs.Bits.{has, words_for};
ghost use Rattle.tf_links.specs.Links.{leads};
ghost use Rattle.tf_model.specs.Before.{Flow, flow_at};
ghost use Rattle.tf_numbers.specs.Numbers.{which_below, numbers_below, has_number};
ghost use Rattle.tf_order.specs.Arranged.{ShowsFlows};
ghost use Rattle.tf_order.specs.Direct.{task_item, stands_at, AreTasksByItem, is_own, is_at_one};
ghost use Rattle.tf_order.specs.Graph.{leads_to, leads_in};
ghost use Rattle.tf_order.specs.Rows.{row_at};
ghost use Rattle.tf_order.specs.Tables.{plan_seen, atoms_found, number_if, item_leads};

use crate::arranged::Arranged;
use crate::paths::last_turn;
use crate::rows::{Row, row_at, row_of};
use std::alloc::Global;
use tf_flow::{AtomPlace, FlowKind, Outline, Turn};
use tf_links::Bits;
use tf_values::Memory;

/// For each atom the tasks that a link or the next place leads to from it, ascending.
#[tactic(auto, using(crate::proofs::TableLemmas::rows_more, crate::proofs::TableLemmas::rows_whole))]
pub fn direct_rows(
    alloc: Global,
    outline: &Outline<'_>,
    table: &[Option<Arranged>],
) -> Result<Vec<Row>, Memory>
    requires shows { ShowsFlows table.now (plan_seen outline.now).flows }
    requires few { atoms_found outline.now ≤ 1000 }
    ensures { IfOk result (λ rows. rows.items ≡ map (λ a. which_below (atoms_found outline.now)
        (leads_to (plan_seen outline.now) a)) (numbers_below (atoms_found outline.now))) }
{
    let tasks = tasks_by_item(alloc, outline)?;
    let mut rows = Vec::with_capacity(alloc, outline.atoms.len())?;
    for a in 0..outline.atoms.len() {
        rows.push(direct_row(alloc, outline, table, &tasks, a)?)?;
    }
    Ok(rows)
}

/// The tasks that stand at each item, in whichever flow.
#[tactic(auto, using(crate::proofs::DirectLemmas::tasks_start, crate::proofs::DirectLemmas::tasks_more, crate::proofs::DirectLemmas::tasks_whole))]
fn tasks_by_item(alloc: Global, outline: &Outline<'_>) -> Result<Vec<Row>, Memory>
    requires { atoms_found outline.now ≤ 1000 }
    ensures { IfOk result (λ rows. AreTasksByItem outline.now (atoms_found outline.now) rows.items) }
{
    let mut rows = Vec::new(alloc);
    for atom in 0..outline.atoms.len() {
        add_task(alloc, outline, atom, &mut rows)?;
    }
    Ok(rows)
}

/// Adds an atom to the row of the item at which it stands, where it is a task.
#[tactic(auto, using(crate::proofs::DirectLemmas::no_task, crate::proofs::DirectLemmas::one_task))]
fn add_task(
    alloc: Global,
    outline: &Outline<'_>,
    atom: usize,
    rows: &mut Vec<Row>,
) -> Result<(), Memory>
    requires few { atoms_found outline.now ≤ 1000 }
    requires atom { atom < atoms_found outline.now }
    ensures { OnOk result ((item : ℕ)
        → row_at rows.new.items item ≡ row_at rows.old.items item ++ number_if (stands_at outline.now item atom) atom) }
{
    let Some(item) = task_item(&outline.atoms[atom]) else {
        return Ok(());
    };
    add_rows(alloc, item, rows)?;
    rows[item].push(atom as u16)?;
    Ok(())
}

/// The item of its own flow at which an atom stands, where it is a task.
fn task_item(atom: &AtomPlace<'_>) -> Option<usize>
    ensures { result ≡ task_item atom.now }
{
    if !atom.part.is_task() {
        return None;
    }
    last_turn(atom.path.turns())?.item
}

/// Adds rows without a number until there is one of this number.
#[tactic(auto, using(crate::proofs::DirectLemmas::row_without))]
fn add_rows(alloc: Global, number: usize, rows: &mut Vec<Row>) -> Result<(), Memory>
    ensures there { OnOk result (number < length rows.new.items) }
    ensures kept { OnOk result ((k : ℕ) → row_at rows.new.items k ≡ row_at rows.old.items k) }
{
    'more: while rows.len() <= number {
        rows.push(Row::new(alloc))?;
    }
    Ok(())
}

/// The tasks that a link or the next place leads to from an atom, ascending.
fn direct_row(
    alloc: Global,
    outline: &Outline<'_>,
    table: &[Option<Arranged>],
    tasks: &[Row],
    a: usize,
) -> Result<Row, Memory>
    requires shows { ShowsFlows table.now (plan_seen outline.now).flows }
    requires few { atoms_found outline.now ≤ 1000 }
    requires tasks { AreTasksByItem outline.now (atoms_found outline.now) tasks.now }
    requires atom { a < atoms_found outline.now }
    ensures { IfOk result (λ row. row ≡ which_below (atoms_found outline.now) (leads_to (plan_seen outline.now) a)) }
{
    let Some(from) = last_turn(outline.atoms[a].path.turns()) else {
        return Ok(Row::new(alloc));
    };
    let items = items_led_to(alloc, table, from, tasks.len())?;
    let found = tasks_at(alloc, outline, from.flow, tasks, &items)?;
    let row = row_of(alloc, outline.atoms.len(), &found)?;
    Ok(row)
}

/// The tasks of a flow itself that stand at one of these items.
#[tactic(auto, using(crate::proofs::DirectLemmas::found_start, crate::proofs::DirectLemmas::found_more, crate::proofs::DirectLemmas::found_whole, crate::proofs::DirectLemmas::row_within))]
fn tasks_at(
    alloc: Global,
    outline: &Outline<'_>,
    flow: usize,
    tasks: &[Row],
    items: &[usize],
) -> Result<Bits, Memory>
    requires { AreTasksByItem outline.now (atoms_found outline.now) tasks.now }
    ensures wide { IfOk result (λ found. length found ≡ words_for (atoms_found outline.now)) }
    ensures found { IfOk result (λ found. (k : ℕ) → has found k ≡ is_at_one outline.now flow tasks.now items.now k) }
{
    let mut found = Bits::new(alloc, outline.atoms.len())?;
    for item in items {
        add_own(outline, flow, row_at(tasks, *item), &mut found);
    }
    Ok(found)
}

/// The items that the place of a turn leads to, of those below the bound.
fn items_led_to(
    alloc: Global,
    table: &[Option<Arranged>],
    from: Turn,
    bound: usize,
) -> Result<Vec<usize>, Memory>
    ensures { IfOk result (λ items. (flows : List Flow) → ShowsFlows table.now flows → (v : ℕ) → v < bound
        → has_number items.items v ≡ leads_in (flow_at flows from.flow) from.item (Some v)) }
{
    let Some(u) = from.item else {
        return Ok(Vec::new(alloc));
    };
    match table.get(from.flow) {
        Some(Some(arranged)) => led_to(alloc, arranged, u, bound),
        _ => Ok(Vec::new(alloc)),
    }
}

/// The items of a flow that item `u` leads to, of those below the bound.
fn led_to(alloc: Global, arranged: &Arranged, u: usize, bound: usize) -> Result<Vec<usize>, Memory>
    ensures { IfOk result (λ items. (v : ℕ) → v < bound → has_number items.items v ≡ item_leads arranged.now u v) }
{
    match arranged.kind {
        FlowKind::Linear => next_item(alloc, u, bound),
        FlowKind::Unordered => Ok(Vec::new(alloc)),
        FlowKind::Graph => linked_items(alloc, arranged.links.rows(), u),
    }
}

/// The next item, where it isn't past the bound.
#[tactic(auto, using(crate::proofs::DirectLemmas::next_told, crate::proofs::DirectLemmas::next_past))]
fn next_item(alloc: Global, u: usize, bound: usize) -> Result<Vec<usize>, Memory>
    ensures { IfOk result (λ items. (v : ℕ) → v < bound → has_number items.items v ≡ nat_eq (u + 1) v) }
{
    let mut items = Vec::new(alloc);
    if u < bound {
        items.push(u + 1)?;
    }
    Ok(items)
}

/// The items in the row of `u`.
#[tactic(auto, using(crate::proofs::DirectLemmas::linked_told, crate::proofs::DirectLemmas::linked_none))]
fn linked_items(alloc: Global, rows: &[Bits], u: usize) -> Result<Vec<usize>, Memory>
    ensures { IfOk result (λ items. (v : ℕ) → has_number items.items v ≡ leads rows.now u v) }
{
    if rows.len() <= u {
        return Ok(Vec::new(alloc));
    }
    let items = rows[u].numbers(alloc)?;
    Ok(items)
}

/// Adds those of these tasks that stand in a flow itself.
#[tactic(auto, using(crate::proofs::DirectLemmas::own_start, crate::proofs::DirectLemmas::own_more, crate::proofs::DirectLemmas::own_all, crate::proofs::DirectLemmas::own_within))]
fn add_own(outline: &Outline<'_>, flow: usize, tasks: &[u16], found: &mut Bits)
    requires within { (k : ℕ) → has_number tasks.now k ≡ true → k < atoms_found outline.now }
    requires wide { length found.old ≡ words_for (atoms_found outline.now) }
    ensures wide { length found.new ≡ words_for (atoms_found outline.now) }
    ensures found { (k : ℕ)
        → has found.new k ≡ (has found.old k || (has_number tasks.now k && is_own outline.now flow k)) }
{
    for task in tasks {
        add_if_own(outline, flow, *task as usize, found);
    }
}

/// Adds an atom where it stands in a flow itself.
#[tactic(auto, using(crate::proofs::DirectLemmas::is_there, crate::proofs::DirectLemmas::isnt_there))]
fn add_if_own(outline: &Outline<'_>, flow: usize, atom: usize, found: &mut Bits)
    requires atom { atom < atoms_found outline.now }
    requires wide { length found.old ≡ words_for (atoms_found outline.now) }
    ensures wide { length found.new ≡ words_for (atoms_found outline.now) }
    ensures found { (k : ℕ) → has found.new k ≡ (has found.old k || (nat_eq k atom && is_own outline.now flow k)) }
{
    if is_own(outline, flow, atom) {
        found.insert(atom);
    }
}

/// Whether an atom stands in a flow itself.
fn is_own(outline: &Outline<'_>, flow: usize, atom: usize) -> bool
    requires { atom < atoms_found outline.now }
    ensures { result ≡ is_own outline.now flow atom }
{
    match last_turn(outline.atoms[atom].path.turns()) {
        None => false,
        Some(turn) => turn.flow == flow,
    }
}
