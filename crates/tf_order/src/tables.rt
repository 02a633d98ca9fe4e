ghost use Rattle.std.specs.Prelude.{◌≡◌, ℕ, ◌+◌, ◌<◌, ◌≤◌, length, map, slice_index_or, IfOk, OnOk};
ghost use Rattle.tf_numbers.specs.Numbers.{which_below, numbers_below};
ghost use Rattle.tf_model.specs.Plan.{is_before};
ghost use Rattle.tf_order.specs.Arranged.{ShowsFlows};
ghost use Rattle.tf_order.specs.Graph.{standing_of_plan};
ghost use Rattle.tf_order.specs.Intervals.{IsAscending};
ghost use Rattle.tf_order.specs.Tables.{plan_seen, atoms_found, AreRows, AreRowsAt, AreSet, AreClosed, AreTables, AllBelow};

use crate::arranged::Arranged;
use crate::direct::direct_rows;
use crate::graph::Graph;
use crate::intervals::{Interval, interval_at, interval_of_last};
use crate::rows::{Row, empty_rows, short_numbers};
use std::alloc::Global;
use tf_flow::Outline;
use tf_values::Memory;

/// For each atom those before it and those after it.
#[derive(Drop)]
struct Orders {
    predecessors: Vec<Row>,
    successors: Vec<Row>,
}

/// The graph of the atoms, of which the table has all flows as they are arranged.
pub fn tables(
    alloc: Global,
    outline: &Outline<'_>,
    table: &[Option<Arranged>],
) -> Result<Graph, Memory>
    requires shows { ShowsFlows table.now (plan_seen outline.now).flows }
    requires ascending { IsAscending (plan_seen outline.now) }
    requires few { atoms_found outline.now ≤ 1000 }
    requires standing { AllBelow 1000 (standing_of_plan (plan_seen outline.now)) }
    ensures { IfOk result (λ graph. AreTables graph (plan_seen outline.now)) }
{
    let orders = order_atoms(alloc, outline, table)?;
    let direct_tasks = direct_rows(alloc, outline, table)?;
    let standing = standing(alloc, outline, table)?;
    let graph = Graph::make(
        alloc,
        orders.predecessors,
        orders.successors,
        direct_tasks,
        standing,
    )?;
    Ok(graph)
}

/// For each atom those before it and those after it, ascending. A row of those before is open while the atoms
/// are before it, and takes them all at once.
#[tactic(auto, using(crate::proofs::SpreadLemmas::rows_start, crate::proofs::TableLemmas::rows_more, crate::proofs::TableLemmas::rows_whole, crate::proofs::SpreadLemmas::rows_end))]
fn order_atoms(
    alloc: Global,
    outline: &Outline<'_>,
    table: &[Option<Arranged>],
) -> Result<Orders, Memory>
    requires shows { ShowsFlows table.now (plan_seen outline.now).flows }
    requires ascending { IsAscending (plan_seen outline.now) }
    requires few { atoms_found outline.now ≤ 1000 }
    ensures predecessors { IfOk result (λ found. AreRows (atoms_found outline.now)
        (λ b. which_below (atoms_found outline.now) (λ a. is_before
        (plan_seen outline.now) a b)) found.predecessors.items) }
    ensures successors { IfOk result (λ found. found.successors.items
        ≡ map (λ a. which_below (atoms_found outline.now) (is_before (plan_seen outline.now) a))
        (numbers_below (atoms_found outline.now))) }
{
    let count = outline.atoms.len();
    let numbers = all_numbers(alloc, count)?;
    let mut opened = all_numbers(alloc, count)?;
    let mut predecessors = empty_rows(alloc, count)?;
    let mut successors = Vec::with_capacity(alloc, count)?;
    for a in 0..count {
        let after = add_atom(
            alloc,
            outline,
            table,
            &numbers,
            a,
            &mut opened,
            &mut predecessors,
        )?;
        successors.push(after)?;
    }
    let _none = add_atom(
        alloc,
        outline,
        table,
        &numbers,
        count,
        &mut opened,
        &mut predecessors,
    )?;
    Ok(Orders {
        predecessors,
        successors,
    })
}

/// The numbers below a count.
#[tactic(auto, using(crate::proofs::TableLemmas::numbers_start, crate::proofs::TableLemmas::numbers_more, crate::proofs::TableLemmas::numbers_whole))]
fn all_numbers(alloc: Global, count: usize) -> Result<Vec<u16>, Memory>
    requires { count ≤ 1000 }
    ensures { IfOk result (λ numbers. numbers.items ≡ numbers_below count) }
{
    let mut numbers = Vec::with_capacity(alloc, count)?;
    for number in 0..count {
        numbers.push(number as u16)?;
    }
    Ok(numbers)
}

/// The atoms after one, ascending. Rows of those before are opened where it comes before an atom and the last
/// one didn't, and closed where the last one did and it doesn't. An interval of atoms that are alike in this is
/// taken at once. A number that no atom has is before none.
#[tactic(auto, using(crate::proofs::SpreadLemmas::opened_earlier, crate::proofs::SpreadLemmas::rows_over))]
fn add_atom(
    alloc: Global,
    outline: &Outline<'_>,
    table: &[Option<Arranged>],
    numbers: &[u16],
    a: usize,
    opened: &mut Vec<u16>,
    rows: &mut Vec<Row>,
) -> Result<Row, Memory>
    requires shows { ShowsFlows table.now (plan_seen outline.now).flows }
    requires ascending { IsAscending (plan_seen outline.now) }
    requires few { atoms_found outline.now ≤ 1000 }
    requires numbers { numbers.now ≡ numbers_below (atoms_found outline.now) }
    requires atom { a ≤ atoms_found outline.now }
    requires rows { AreRowsAt (plan_seen outline.now) (atoms_found outline.now) a 0 rows.old.items opened.old.items }
    ensures after { IfOk result (λ after. after ≡ which_below (atoms_found outline.now)
        (is_before (plan_seen outline.now) a)) }
    ensures rows { OnOk result (AreRowsAt (plan_seen outline.now) (atoms_found outline.now) (a + 1) 0
        rows.new.items opened.new.items) }
{
    let mut after = Row::new(alloc);
    let mut last = Interval::none();
    let mut this = Interval::none();
    let mut b = 0;
    while b < outline.atoms.len() {
        last = interval_of_last(outline, table, a, b, last);
        this = interval_at(outline, table, a, b, this);
        let end = last.end.min(this.end);
        if this.is_after {
            after.extend(&numbers[b..end])?;
            if !last.is_after {
                open_rows(a, b, end, opened);
            }
        } else if last.is_after {
            close_rows(numbers, a, b, end, opened, rows)?;
        }
        b = end;
    }
    Ok(after)
}

/// The rows from one up to before the end are opened at this number.
#[tactic(auto, using(crate::proofs::SpreadLemmas::setting_start, crate::proofs::SpreadLemmas::setting_next))]
fn open_rows(number: usize, from: usize, end: usize, opened: &mut Vec<u16>)
    requires number { number ≤ 1000 }
    requires order { from ≤ end }
    requires width { end ≤ length opened.old.items }
    ensures { AreSet number from end opened.old.items opened.new.items }
{
    for row in from..end {
        opened[row] = number as u16;
    }
}

/// Adds to the rows from one up to before the end the numbers from where each was opened up to before this
/// one.
#[tactic(auto, using(crate::proofs::SpreadLemmas::closing_start, crate::proofs::SpreadLemmas::closing_next))]
fn close_rows(
    numbers: &[u16],
    number: usize,
    from: usize,
    end: usize,
    opened: &[u16],
    rows: &mut Vec<Row>,
) -> Result<(), Memory>
    requires number { number ≤ length numbers.now }
    requires order { from ≤ end }
    requires earlier { (k : ℕ) → from ≤ k → k < end → slice_index_or opened.now k 0 ≤ number }
    requires width { end ≤ length opened.now }
    requires height { end ≤ length rows.old.items }
    ensures { OnOk result (AreClosed numbers.now number from end opened.now rows.old.items rows.new.items) }
{
    for row in from..end {
        rows[row].extend(&numbers[opened[row] as usize..number])?;
    }
    Ok(())
}

/// The atoms in standing order.
fn standing(
    alloc: Global,
    outline: &Outline<'_>,
    table: &[Option<Arranged>],
) -> Result<Vec<u16>, Memory>
    requires shows { ShowsFlows table.now (plan_seen outline.now).flows }
    requires few { AllBelow 1000 (standing_of_plan (plan_seen outline.now)) }
    ensures { IfOk result (λ standing. standing.items ≡ standing_of_plan (plan_seen outline.now)) }
{
    match table.get(0) {
        Some(Some(arranged)) => short_numbers(alloc, &arranged.standing),
        _ => Ok(Vec::new(alloc)),
    }
}
