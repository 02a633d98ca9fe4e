ghost use Rattle.std.specs.Prelude.{◌≡◌, ◌≤◌, ◌++◌, OnOk, length};
ghost use Rattle.std.specs.List.{flat_map};
ghost use Rattle.tf_model.specs.Plan.{outline_of, count};
ghost use Rattle.tf_commands.specs.Messages.{limit_word as word_of_limit, checked, summary, tasks_below, spaced, plan_fault_text, file_fault_text, compile_fault_text, scope_fault_text, target_fault_text, reason_text, refusal, no_flow_named, state_forbids, detail_lines};

use tf_accept::Refusal;
use tf_book::Detail;
use tf_files::{FileFault, Path};
use tf_flow::{Limit, Plan, PlanFault};
use tf_order::CompileFault;
use tf_report::{
    append, append_counted, append_named, append_number, append_pair, detail, flow_name, flow_word,
};
use tf_scopes::ScopeFault;
use tf_states::FlowState;
use tf_target::TargetFault;
use tf_values::{Memory, Name};

/// The message for words that are no command.
pub const USAGE: &[u8] = b"taskflow: usage\n";

/// The message for a file that is longer than a flow file may be.
pub const TOO_LONG: &[u8] = b"taskflow: flow file: too long\n";

/// The message for a log that is longer than a log may be.
pub const LOG_TOO_LONG: &[u8] = b"taskflow: audit: too long\n";

/// The message for a book that holds no flow.
pub const NO_FLOW: &[u8] = b"taskflow: no flow in the book\n";

/// The message for a book that holds as many flows as it may.
pub const TOO_MANY_FLOWS: &[u8] = b"taskflow: too many flows: 64\n";

/// Appends the message for a book that holds no flow of this name.
#[tactic(auto, unfolding(crate::specs::Messages::no_flow_named))]
pub fn append_no_flow_named(name: &Name, out: &mut Vec<u8>) -> Result<(), Memory>
    ensures { OnOk result (out.new.items ≡ out.old.items ++ no_flow_named name.now) }
{
    append_pair(b"taskflow: no flow: ", name.bytes(), out)?;
    append(b"\n", out)
}

/// Appends the message for a flow of this name whose state forbids a command.
#[tactic(auto, unfolding(crate::specs::Messages::state_forbids))]
pub fn append_state_forbids(name: &Name, state: FlowState, out: &mut Vec<u8>) -> Result<(), Memory>
    ensures { OnOk result (out.new.items ≡ out.old.items ++ state_forbids name.now state) }
{
    append_named(
        b"taskflow: state forbids: ",
        name.bytes(),
        flow_word(state),
        out,
    )?;
    append(b"\n", out)
}

/// Appends the lines of the details of a book, in the order of their numbers.
#[tactic(auto, using(crate::proofs::MessageLemmas::lines_on))]
pub fn append_details(list: &[Detail], out: &mut Vec<u8>) -> Result<(), Memory>
    requires few { length list.now ≤ 64 }
    ensures { OnOk result (out.new.items ≡ out.old.items ++ detail_lines 0 list.now) }
{
    let mut number = 0;
    'listing: for found in list {
        detail(number, &found.name, found.state, out)?;
        number += 1;
    }
    Ok(())
}

/// Appends what a check says of a plan.
#[tactic(auto, unfolding(crate::specs::Messages::checked), using(tf_model::proofs::PlanLemmas::atoms_counted, tf_report::proofs::LineLemmas::flows_counted))]
pub fn append_checked(plan: &Plan, out: &mut Vec<u8>) -> Result<(), Memory>
    ensures { OnOk result (out.new.items ≡ out.old.items ++ checked (outline_of plan.now)) }
{
    let tasks = count_tasks(plan);
    append_pair(b"ok ", flow_name(plan, 0), out)?;
    append_counted(b": ", tasks, out)?;
    append_counted(b" tasks, ", plan.atoms() - tasks, out)?;
    append_counted(b" retries, ", plan.flows(), out)?;
    append(b" flows\n", out)
}

/// Appends how many tasks a generated flow has, and how many entries its history.
#[tactic(auto, unfolding(crate::specs::Messages::summary))]
pub fn append_summary(plan: &Plan, entries: u64, out: &mut Vec<u8>) -> Result<(), Memory>
    ensures { OnOk result (out.new.items ≡ out.old.items ++ summary (outline_of plan.now) entries) }
{
    append_counted(b"demo ", count_tasks(plan), out)?;
    append_counted(b" tasks, ", entries, out)?;
    append(b" entries\n", out)
}

/// How many tasks the plan has.
fn count_tasks(plan: &Plan) -> u16
    ensures is { result ≡ tasks_below (outline_of plan.now) (count (outline_of plan.now)) }
    ensures few { result ≤ count (outline_of plan.now) }
{
    let mut tasks = 0;
    for atom in 0..plan.atoms() {
        if !plan.is_retry(atom) {
            tasks += 1;
        }
    }
    tasks
}

/// Appends the message for a flow file that is refused for the reason.
#[tactic(auto, unfolding(crate::specs::Messages::refusal))]
pub fn append_refusal(reason: &Refusal, out: &mut Vec<u8>) -> Result<(), Memory>
    ensures { OnOk result (out.new.items ≡ out.old.items ++ refusal (reason_text reason.now)) }
{
    append(b"taskflow: flow file: ", out)?;
    append_reason(reason, out)?;
    append(b"\n", out)
}

fn append_reason(reason: &Refusal, out: &mut Vec<u8>) -> Result<(), Memory>
    ensures { OnOk result (out.new.items ≡ out.old.items ++ reason_text reason.now) }
{
    match reason {
        Refusal::File(fault) => append_file_fault(fault, out),
        Refusal::Compile(fault) => append_compile_fault(fault, out),
        Refusal::Scope(fault) => append_scope_fault(fault, out),
        Refusal::Target(fault) => append_target_fault(fault, out),
        Refusal::Memory => Ok(()),
    }
}

fn append_target_fault(fault: &TargetFault, out: &mut Vec<u8>) -> Result<(), Memory>
    ensures { OnOk result (out.new.items ≡ out.old.items ++ target_fault_text fault.now) }
{
    match fault {
        TargetFault::NotAGraph => append(b"not a graph", out),
        TargetFault::UnknownTarget(name) => append_pair(b"unknown target ", name.bytes(), out),
        TargetFault::Empty => append(b"empty", out),
        TargetFault::Memory => Ok(()),
    }
}

fn append_scope_fault(fault: &ScopeFault, out: &mut Vec<u8>) -> Result<(), Memory>
    ensures { OnOk result (out.new.items ≡ out.old.items ++ scope_fault_text fault.now) }
{
    match fault {
        ScopeFault::Missing { atom, symbol } => {
            append_pair(b"missing ", atom.bytes(), out)?;
            append_pair(b" ", symbol.bytes(), out)
        }
        ScopeFault::Memory => Ok(()),
    }
}

fn append_compile_fault(fault: &CompileFault, out: &mut Vec<u8>) -> Result<(), Memory>
    ensures { OnOk result (out.new.items ≡ out.old.items ++ compile_fault_text fault.now) }
{
    match fault {
        CompileFault::Ambiguous {
            symbol,
            first,
            second,
        } => {
            append_pair(b"ambiguous ", symbol.bytes(), out)?;
            append_pair(b" ", first.bytes(), out)?;
            append_pair(b" ", second.bytes(), out)
        }
        CompileFault::Cycle(names) => {
            append(b"cycle", out)?;
            append_names(names.items(), out)
        }
        CompileFault::Memory => Ok(()),
    }
}

/// Appends names, each after a space.
fn append_names(names: &[Name], out: &mut Vec<u8>) -> Result<(), Memory>
    ensures { OnOk result (out.new.items ≡ out.old.items ++ flat_map spaced names.now) }
{
    for name in names {
        append_pair(b" ", name.bytes(), out)?;
    }
    Ok(())
}

fn append_file_fault(fault: &FileFault, out: &mut Vec<u8>) -> Result<(), Memory>
    ensures { OnOk result (out.new.items ≡ out.old.items ++ file_fault_text fault.now) }
{
    match fault {
        FileFault::NotToml => append(b"not toml", out),
        FileFault::UnknownKey(path) => append_place(b"unknown key ", path, out),
        FileFault::MissingKey(path) => append_place(b"missing key ", path, out),
        FileFault::WrongKind(path) => append_place(b"wrong kind ", path, out),
        FileFault::BadName(path) => append_place(b"bad name ", path, out),
        FileFault::BadChoice(path) => append_place(b"bad choice ", path, out),
        FileFault::BadNumber(path) => append_place(b"bad number ", path, out),
        FileFault::BadValue(path) => append_place(b"bad value ", path, out),
        FileFault::Plan(fault) => append_plan_fault(fault, out),
        FileFault::Memory => Ok(()),
    }
}

/// Appends a head and a path.
fn append_place(head: &[u8], path: &Path, out: &mut Vec<u8>) -> Result<(), Memory>
    ensures { OnOk result (out.new.items ≡ out.old.items ++ (head.now ++ path.now)) }
{
    append_pair(head, path.bytes(), out)
}

fn append_plan_fault(fault: &PlanFault, out: &mut Vec<u8>) -> Result<(), Memory>
    ensures { OnOk result (out.new.items ≡ out.old.items ++ plan_fault_text fault.now) }
{
    match fault {
        PlanFault::TooLarge { which, n } => {
            append(b"too large ", out)?;
            append(limit_word(*which).as_bytes(), out)?;
            append(b" ", out)?;
            append_number(*n, out)
        }
        PlanFault::Empty => append(b"empty", out),
        PlanFault::Duplicate(name) => append_pair(b"duplicate ", name.bytes(), out),
        PlanFault::Unknown(name) => append_pair(b"unknown item ", name.bytes(), out),
        PlanFault::BadLink(name) => append_pair(b"bad link ", name.bytes(), out),
        PlanFault::BadAtom(name) => append_pair(b"bad atom ", name.bytes(), out),
        PlanFault::Memory => Ok(()),
    }
}

fn limit_word(limit: Limit) -> &'static str
    ensures { result.now ≡ word_of_limit limit }
{
    match limit {
        Limit::Nesting => "nesting",
        Limit::Atoms => "atoms",
        Limit::Flows => "flows",
        Limit::Links => "links",
        Limit::Arguments => "arguments",
        Limit::Injects => "injects",
        Limit::Provided => "provided",
        Limit::Words => "words",
        Limit::Store => "store",
        Limit::Test => "test",
        Limit::Comparisons => "comparisons",
        Limit::Plan => "plan",
    }
}
