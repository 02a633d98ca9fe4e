ghost use Rattle.std.specs.Prelude.{◌≡◌, ◌++◌, ◌∷◌, [], ℕ, Some, IfOk, true, length};
ghost use Rattle.tf_flow.specs.Plan as numbering;
ghost use Rattle.tf_states.specs.declared.record.Entry.{Entry as Record};
ghost use Rattle.tf_states.specs.declared.record.What.{What as Event};
ghost use Rattle.tf_states.specs.declared.record.What.TheVariants as event;
ghost use Rattle.tf_states.specs.declared.record.Payload.{Payload as Held};
ghost use Rattle.tf_states.specs.declared.state.AtomState.{AtomState as State};
ghost use Rattle.tf_model.specs.Plan.{outline_of, count};
ghost use Rattle.tf_entries.specs.Entries.{IsAmong, HasItsPayload, IsPayload, is_payload_of};
ghost use Rattle.tf_report.specs.Lines.{what_text, atom_word};
ghost use Rattle.tf_audit.specs.Events.{event_with as event_of_parts, resolve_with, payload_rest};
ghost use Rattle.tf_audit.specs.Names.{AreNamed};
ghost use Rattle.tf_audit.specs.Verdicts.{IsLineOf, IsReading, numbered_with};
ghost use Rattle.tf_audit.specs.Words.{resolution_named};

use crate::limits::is_of_plan;
use crate::names::{atom_of, flow_of};
use crate::numbers::{hand_of, number_of};
use crate::payloads::payload_of;
use crate::state_words::{atom_state_of, flow_state_of, kind_of};
use crate::words::cut;
use indexmap::IndexSet;
use std::alloc::Global;
use tf_flow::Plan;
use tf_report::line;
use tf_states::{Entry, FlowState, What};
use tf_values::{Memory, Name};

/// An entry with its number, counted from 1 in its history.
#[derive(Debug, Drop)]
pub struct Numbered {
    pub number: u64,
    pub entry: Entry,
}

/// The entry of the plan that the line says, with its number; none exactly where no entry has this line. A line has one
/// reading.
pub fn read_line(
    alloc: Global,
    plan: &Plan,
    flows: &IndexSet<Name>,
    text: &[u8],
) -> Result<Option<Numbered>, Memory>
    requires named { AreNamed (outline_of plan.now) }
    requires flows { flows.now.keys ≡ numbering.flows plan.now }
    ensures is { IfOk result (IsReading (outline_of plan.now) text.now) }
    ensures one { IfOk result (λ read. (number : ℕ) (e : Record) → IsLineOf (outline_of plan.now) number e text.now
        → read ≡ Some record { number = number; entry = e }) }
{
    let Some(read) = spelled(alloc, plan, flows, text)? else {
        return Ok(None);
    };
    if !is_of_plan(plan, &read.entry) {
        return Ok(None);
    }
    let mut printed = Vec::new(alloc);
    line(plan, read.number, &read.entry, &mut printed)?;
    if printed.as_slice() == text {
        Ok(Some(read))
    } else {
        Ok(None)
    }
}

/// The entry that has the line, where one has it; else perhaps another one.
fn spelled(
    alloc: Global,
    plan: &Plan,
    flows: &IndexSet<Name>,
    text: &[u8],
) -> Result<Option<Numbered>, Memory>
    requires named { AreNamed (outline_of plan.now) }
    requires flows { flows.now.keys ≡ numbering.flows plan.now }
    ensures { IfOk result (λ read. (number : ℕ) (e : Record) → IsLineOf (outline_of plan.now) number e text.now
        → read ≡ Some record { number = number; entry = e }) }
{
    let (word, behind) = cut(text);
    let number = number_of(word);
    let (word, last) = cut(behind);
    let hand = hand_of(word);
    let what = what_of(alloc, plan, flows, last)?;
    Ok(joined(number, hand, what))
}

/// The entry with its number, where all of it is there.
fn joined(number: Option<u64>, hand: Option<u8>, what: Option<What>) -> Option<Numbered>
    ensures { result ≡ numbered_with number hand what }
{
    let number = number?;
    let hand = hand?;
    let what = what?;
    Some(Numbered {
        number,
        entry: Entry { hand, what },
    })
}

/// What was recorded, of what stands behind the hand.
fn what_of(
    alloc: Global,
    plan: &Plan,
    flows: &IndexSet<Name>,
    bytes: &[u8],
) -> Result<Option<What>, Memory>
    requires named { AreNamed (outline_of plan.now) }
    requires flows { flows.now.keys ≡ numbering.flows plan.now }
    ensures { IfOk result (λ read. (w : Event)
        → IsAmong (count (outline_of plan.now)) (length (outline_of plan.now).flows) w → HasItsPayload w
        → bytes.now ≡ what_text (outline_of plan.now) w ++ 10 ∷ [] → read ≡ Some w) }
{
    let (word, behind) = cut(bytes);
    let (name, rest) = cut(behind);
    let (state, last) = cut(rest);
    let atom = atom_of(plan, name);
    let entered = entered(alloc, atom, state, last)?;
    let resolved = resolved(flow_of(plan, flows, name), state);
    Ok(event_with(word, entered, flow_state_of(state), resolved, atom))
}

/// What the atom enters, of the word of the state and what stands behind it.
fn entered(
    alloc: Global,
    atom: Option<u16>,
    word: &[u8],
    rest: &[u8],
) -> Result<Option<What>, Memory>
    ensures { IfOk result (λ read. (a : ℕ) (s : State) (held : Held) → atom ≡ Some a → word.now ≡ atom_word s
        → is_payload_of s held ≡ true → IsPayload held → rest.now ≡ payload_rest held
        → read ≡ Some (event.Atom a s held)) }
{
    let Some(atom) = atom else {
        return Ok(None);
    };
    let Some(state) = atom_state_of(word) else {
        return Ok(None);
    };
    match payload_of(alloc, state, rest)? {
        Some(payload) => Ok(Some(What::Atom {
            atom,
            state,
            payload,
        })),
        None => Ok(None),
    }
}

/// The resolution at the flow, to what has the word.
fn resolved(flow: Option<u16>, word: &[u8]) -> Option<What>
    ensures { result ≡ resolve_with flow (resolution_named word.now) }
{
    let flow = flow?;
    let kind = kind_of(word)?;
    Some(What::Resolve { flow, kind })
}

/// The event of a word, with what stands behind it that it takes.
fn event_with(
    word: &[u8],
    entered: Option<What>,
    turned: Option<FlowState>,
    resolved: Option<What>,
    again: Option<u16>,
) -> Option<What>
    ensures { result ≡ event_of_parts word.now entered turned resolved again }
{
    if word == b"task".as_slice() || word == b"retry".as_slice() {
        return entered;
    }
    if word == b"flow".as_slice() {
        return Some(What::Flow(turned?));
    }
    if word == b"resolve".as_slice() {
        return resolved;
    }
    if word == b"restart".as_slice() {
        return Some(What::Restart(again?));
    }
    None
}
