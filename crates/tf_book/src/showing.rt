//! How the lines of a history are made from its bodies in memory.
ghost use Rattle.std.specs.Prelude.{◌≡◌, ◌++◌, [], List, ℕ, false, drop, OnOk};
ghost use Rattle.tf_states.specs.declared.record.Entry.{Entry as Record};
ghost use Rattle.tf_entries.specs.Entries.{entry_bytes};
ghost use Rattle.tf_model.specs.Plan.{outline_of};
ghost use Rattle.tf_report.specs.Lines.{line as line_of};
ghost use Rattle.tf_details.specs.Elements.{IsEntryOf, AreEntriesOf};
ghost use Rattle.tf_book.specs.Histories.{past_shown, framed_bodies, BeginsWithBody};
ghost use Rattle.tf_book.specs.SessionInvariant.{said};

use crate::history::History;
use std::alloc::Global;
use tf_entries::{decode_entry, entry_has_one_form};
use tf_flow::Plan;
use tf_report::line;
use tf_values::{MakeFault, Memory};

/// The body that stands at that place, behind its length.
fn body_at(bodies: &[u8], at: usize) -> &[u8]
    requires { (body : List ℕ) × BeginsWithBody (drop at bodies.now) body }
    ensures { (body : List ℕ) → BeginsWithBody (drop at bodies.now) body → result.now ≡ body }
{
    let n = 256
        * (256 * (256 * bodies[at] as usize + bodies[at + 1] as usize) + bodies[at + 2] as usize)
        + bodies[at + 3] as usize;
    &bodies[at + 4..at + 4 + n]
}

/// Appends the line of the entry that has this form.
fn append_line(
    alloc: Global,
    plan: &Plan,
    number: u64,
    body: &[u8],
    out: &mut Vec<u8>,
) -> Result<(), Memory>
    requires { (e : Record) × IsEntryOf plan.now e × (entry_bytes e ≡ body.now) }
    ensures { OnOk result ((e : Record) → IsEntryOf plan.now e → entry_bytes e ≡ body.now
        → out.new.items ≡ out.old.items ++ line_of (outline_of plan.now) number e) }
{
    entry_has_one_form();
    match decode_entry(alloc, plan, body) {
        Ok(entry) => {
            let result = line(plan, number, &entry, out);
            drop(entry);
            result
        }
        Err(MakeFault::Memory) => Err(Memory),
        Err(MakeFault::No) => unreachable!(),
    }
}

/// Appends the line of each entry, in the order in which they were recorded.
pub fn append_lines(
    alloc: Global,
    plan: &Plan,
    history: &History,
    out: &mut Vec<u8>,
) -> Result<(), Memory>
    requires bodies { history.now.bodies.items ≡ framed_bodies (past_shown history.now.entries.items) }
    requires entries { AreEntriesOf plan.now (past_shown history.now.entries.items) }
    ensures { OnOk result (out.new.items
        ≡ out.old.items ++ said false (outline_of plan.now) [] (past_shown history.now.entries.items)) }
{
    let mut at = 0;
    let mut number = 0;
    'lines: while at < history.bodies.len() {
        let body = body_at(&history.bodies, at);
        append_line(alloc, plan, number + 1, body, out)?;
        number += 1;
        at += 4 + body.len();
    }
    Ok(())
}
