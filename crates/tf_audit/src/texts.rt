//! What is said of a verdict.

ghost use Rattle.std.specs.Prelude.{◌≡◌, ◌≤◌, ◌++◌, ◌∷◌, [], length, drop, OnOk};
ghost use Rattle.tf_model.specs.Plan.{outline_of, atom_name};
ghost use Rattle.tf_report.specs.Lines.{what_text};
ghost use Rattle.tf_audit.specs.Verdicts.{start_word as word_of_start, why_text, verdict_text};

use crate::names::name_of_atom;
use crate::verdicts::{Verdict, Why};
use std::alloc::Global;
use tf_flow::Plan;
use tf_machine::Start;
use tf_report::{append, append_counted, append_pair, flow_word, line};
use tf_states::{Entry, What};
use tf_values::Memory;

/// How many bytes stand before what is said of entry 1 by hand 0: both numbers, each with a space.
const NUMBERS: usize = 4;

/// Appends the text of a verdict on a log of the plan's runs.
#[tactic(auto, unfolding(crate::specs::Verdicts::verdict_text))]
pub fn append_verdict(
    alloc: Global,
    plan: &Plan,
    verdict: Verdict,
    out: &mut Vec<u8>,
) -> Result<(), Memory>
    ensures { OnOk result (out.new.items ≡ out.old.items ++ verdict_text (outline_of plan.now) verdict) }
{
    match verdict {
        Verdict::Legal { entries, state } => {
            append_counted(b"legal ", entries, out)?;
            append_pair(b" entries, ", flow_word(state).as_bytes(), out)?;
            append(b"\n", out)
        }
        Verdict::Bad { line, why } => {
            append_counted(b"taskflow: audit line ", line, out)?;
            append(b": ", out)?;
            append_why(alloc, plan, why, out)
        }
    }
}

/// Appends why a line can't be, with a line feed.
fn append_why(alloc: Global, plan: &Plan, why: Why, out: &mut Vec<u8>) -> Result<(), Memory>
    ensures { OnOk result (out.new.items ≡ out.old.items ++ (why_text (outline_of plan.now) why ++ 10 ∷ [])) }
{
    match why {
        Why::Unreadable => append(b"unreadable\n", out),
        Why::Number => append(b"number\n", out),
        Why::Forced(what) => {
            append(b"expected ", out)?;
            append_event(alloc, plan, what, out)
        }
        Why::First(start) => {
            append(b"expected ", out)?;
            append_start(plan, start, out)
        }
        Why::NoStep => append(b"no step\n", out),
        Why::Value => append(b"value\n", out),
    }
}

/// Appends what an entry says: its line behind the number and the hand.
fn append_event(alloc: Global, plan: &Plan, what: What, out: &mut Vec<u8>) -> Result<(), Memory>
    ensures { OnOk result (out.new.items ≡ out.old.items ++ (what_text (outline_of plan.now) what ++ 10 ∷ [])) }
{
    let entry = Entry { hand: 0, what };
    let mut text = Vec::new(alloc);
    line(plan, 1, &entry, &mut text)?;
    append(behind_numbers(&text), out)
}

/// What the line says behind its numbers.
fn behind_numbers(line: &[u8]) -> &[u8]
    requires { NUMBERS ≤ length line.now }
    ensures { result.now ≡ drop NUMBERS line.now }
{
    &line[NUMBERS..]
}

/// Appends which task is to be taken up, with a line feed.
fn append_start(plan: &Plan, start: Start, out: &mut Vec<u8>) -> Result<(), Memory>
    ensures { OnOk result (out.new.items
        ≡ out.old.items ++ ((word_of_start start.restart ++ atom_name (outline_of plan.now) start.atom) ++ 10 ∷ [])) }
{
    append_pair(
        start_word(start.restart).as_bytes(),
        name_of_atom(plan, start.atom),
        out,
    )?;
    append(b"\n", out)
}

fn start_word(restart: bool) -> &'static str
    ensures { result.now ≡ word_of_start restart }
{
    if restart { "restart " } else { "start " }
}
