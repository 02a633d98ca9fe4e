ghost use Rattle.std.specs.Prelude.{◌≡◌, [], None, true, IfOk};
ghost use Rattle.tf_book.specs.Book.{begun_contents};
ghost use Rattle.tf_flow.specs.Plan.{plan_tree};
ghost use Rattle.tf_machine.specs.Machine.{StandsFor};
ghost use Rattle.tf_runner.specs.Conducts.{BytesRunTo, PlanRunsTo};
ghost use Rattle.tf_runner.specs.Reading.{ContentRunsTo, MeansRunTo};
ghost use Rattle.tf_runner.specs.Working.{IsCalm, LeftBy, ran_by};

use crate::files::{Content, JobFile, find};
use crate::mute::Mute;
use std::alloc::Global;
use std::sync::Arc;
use tf_accept::accept;
use tf_actions::Performer;
use tf_book::{Book, Buffers, Halt, Shelf};
use tf_conductor::{Ran, Runner};
use tf_engines::{How, RunEnd, serial};
use tf_flow::Binds;
use tf_machine::Machine;
use tf_states::FlowState;
use tf_values::{Memory, Val};

/// Runs jobs with one hand: the details of a job are the name of a flow file, which is one of those that were read
/// beforehand. Nothing of a run is kept, and nothing of it is said. A run is done where its flow ended in SUCCESS; and
/// the job is left where its details are no text, or name a file that wasn't read, is too long or gives no plan, and
/// where the run ended otherwise or filled its book. The buffers of the last run serve the next one.
#[derive(Drop)]
pub struct FileRunner<P> {
    hand: P,
    files: Arc<Vec<JobFile>, Global>,
    buffers: Option<Buffers>,
}

impl<P> FileRunner<P> {
    /// Who runs the flows of these files with that hand.
    pub fn make(hand: P, files: Arc<Vec<JobFile>, Global>) -> FileRunner<P>
        ensures hand { result.hand ≡ hand }
        ensures files { result.files ≡ files }
    {
        FileRunner {
            hand,
            files,
            buffers: None,
        }
    }

    /// The hand back.
    pub fn into_hand(self) -> P
        ensures { result ≡ self.hand }
    {
        let FileRunner {
            hand,
            files,
            buffers,
        } = self;
        drop(buffers);
        drop(files);
        hand
    }
}

impl<P: Performer> Runner for FileRunner<P> {
    ghost use Rattle.std.specs.Prelude.{None};
    ghost use Rattle.std.specs.Arc.{arc_value};
    ghost use Rattle.tf_runner.specs.Reading.{MeansRunTo};

    ghost did = { λ _. None };

    ghost gives = { λ runner. MeansRunTo P.gives (arc_value runner.files).items };

    fn run(&mut self, alloc: Global, details: &Val) -> Result<Ran, Memory> {
        let Val::Text(name) = details else {
            return Ok(Ran::Left);
        };
        let Some(file) = find(&self.files, name) else {
            return Ok(Ran::Left);
        };
        run_content(alloc, &file.content, &mut self.hand, &mut self.buffers)
    }
}

/// Runs the flow of a file, if it was read whole.
fn run_content<P: Performer>(
    alloc: Global,
    content: &Content,
    hand: &mut P,
    buffers: &mut Option<Buffers>,
) -> Result<Ran, Memory>
    ensures { IfOk result (ContentRunsTo P.gives content.now) }
{
    match content {
        Content::Bytes(bytes) => run_bytes(alloc, bytes, hand, buffers),
        Content::TooLong => Ok(Ran::Left),
    }
}

/// Runs the flow that the bytes of a file give, if they give one.
fn run_bytes<P: Performer>(
    alloc: Global,
    bytes: &[u8],
    hand: &mut P,
    buffers: &mut Option<Buffers>,
) -> Result<Ran, Memory>
    ensures { IfOk result (BytesRunTo P.gives bytes.now) }
{
    match accept(alloc, bytes, Binds::make(Vec::new(alloc)), false, None) {
        Ok(machine) => run_plan(alloc, machine, hand, buffers),
        Err(reason) => {
            if reason.is_memory() {
                return Err(Memory);
            }
            Ok(Ran::Left)
        }
    }
}

/// Runs the plan of a machine, in the buffers of the last run, if there was one.
fn run_plan<P: Performer>(
    alloc: Global,
    machine: Machine,
    hand: &mut P,
    buffers: &mut Option<Buffers>,
) -> Result<Ran, Memory>
    requires fresh { StandsFor machine [] }
    ensures { IfOk result (PlanRunsTo P.gives (plan_tree machine.plan)) }
{
    let last = match buffers.take() {
        Some(last) => last,
        None => Buffers::make(alloc)?,
    };
    match Shelf::volatile_in(alloc, last, Mute::make()) {
        Ok(shelf) => run_on(alloc, shelf, machine, hand, buffers),
        Err(_) => Err(Memory),
    }
}

/// Runs the plan of a machine in a shelf without a detail.
fn run_on<P: Performer>(
    alloc: Global,
    shelf: Shelf<Mute>,
    machine: Machine,
    hand: &mut P,
    buffers: &mut Option<Buffers>,
) -> Result<Ran, Memory>
    requires none { shelf.elements ≡ [] }
    requires fresh { StandsFor machine [] }
    ensures { IfOk result (PlanRunsTo P.gives (plan_tree machine.plan)) }
{
    match shelf.start(machine, true) {
        Ok(book) => run_book(alloc, book, hand, buffers),
        Err(_) => Err(Memory),
    }
}

/// Runs the flow of a book that keeps nothing, and keeps its buffers.
fn run_book<P: Performer>(
    alloc: Global,
    book: Book<Mute>,
    hand: &mut P,
    buffers: &mut Option<Buffers>,
) -> Result<Ran, Memory>
    requires none { book.past ≡ [] }
    requires contents { book.contents ≡ begun_contents [] book.plan }
    requires sound { book.halt ≡ None }
    ensures { IfOk result (PlanRunsTo P.gives (plan_tree book.plan)) }
{
    let RunEnd { book, how } = serial(alloc, book, hand, None);
    *buffers = Some(book.into_buffers());
    match how {
        How::Ended(last) => Ok(ran_of(last)),
        How::Halted(halt) => left_by(halt),
        How::Suspended => unreachable!(),
    }
}

/// A run is done where its flow ended in SUCCESS.
fn ran_of(last: FlowState) -> Ran
    ensures { result ≡ ran_by last }
{
    match last {
        FlowState::Success => Ran::Done,
        _ => Ran::Left,
    }
}

/// The job is left whose run filled its book.
fn left_by(halt: Halt) -> Result<Ran, Memory>
    requires { IsCalm halt }
    ensures { IfOk result (LeftBy halt) }
{
    match halt {
        Halt::Full { .. } => Ok(Ran::Left),
        Halt::Memory => Err(Memory),
        Halt::Disk | Halt::Out => unreachable!(),
    }
}
