//! Books that tests run.
ghost use Rattle.std.specs.Prelude.{◌≡◌, [], IfOk};
ghost use Rattle.tf_machine.specs.Machine.{StandsFor};

use std::alloc::Global;
use std::test::Fail;
use tf_book::{Book, Shelf};
use tf_desk::{Desk, MemoryDesk};
use tf_entries::decode_plan;
use tf_flow::Plan;
use tf_machine::Machine;
use tf_values::Text;

/// The book of a linear flow `main` with one task `a` that gives 1, of which nothing was run.
pub(crate) const ONE_TASK_BOOK: &[u8] =
    b"\xa5TASKFLOW BOOK 2\x0a\xa5\x00\x00\x00:\x01\x04main\x00\x00\x00\x01\x00\x01a\x00\x00\x00\x00\x01\x05value\x05value\x00\x01\x05value\x03\x00\x00\x00\x00\x00\x00\x00\x01\x00\x00\x00\x00\x00\x00\x00\x00\x00\x00\x00\x00";

/// The plan in it.
pub(crate) const ONE_TASK: &[u8] =
    b"\x04main\x00\x00\x00\x01\x00\x01a\x00\x00\x00\x00\x01\x05value\x05value\x00\x01\x05value\x03\x00\x00\x00\x00\x00\x00\x00\x01\x00\x00\x00\x00\x00\x00\x00\x00\x00\x00\x00";

/// The plan of an unordered flow `main` of two tasks `a` and `b` that give nothing.
pub(crate) const TWO_ECHOES: &[u8] =
    b"\x04main\x01\x00\x00\x02\x00\x01a\x00\x00\x00\x00\x00\x00\x00\x00\x00\x00\x00\x00\x00\x00\x01b\x00\x00\x00\x00\x00\x00\x00\x00\x00\x00\x00\x00\x00\x00\x00\x00\x00\x00";

/// The plan of an unordered flow `main` of two tasks `t1` and `t2` that fail where the number of the attempt is below 2. Its
/// retry controller `r` tells this number, and has two attempts.
pub(crate) const RETRIED: &[u8] =
    b"\x04main\x01\x01\x01r\x02\x00\x02\x00\x00\x00\x00\x00\x01\x01n\x00\x02\x00\x02t1\x07\x00\x00\x00\x02\x01n\x01n\x05limit\x05limit\x00\x01\x05limit\x03\x00\x00\x00\x00\x00\x00\x00\x02\x00\x00\x00\x00\x00\x00\x00\x02t2\x07\x00\x00\x00\x02\x01n\x01n\x05limit\x05limit\x00\x01\x05limit\x03\x00\x00\x00\x00\x00\x00\x00\x02\x00\x00\x00\x00\x00\x00\x00\x00\x00\x00\x00";

/// The plan that these bytes are.
pub(crate) fn plan(alloc: Global, bytes: &[u8]) -> Result<Plan, Fail> {
    match decode_plan(alloc, bytes) {
        Ok(plan) => Ok(plan),
        Err(_) => Err(Fail::from("the plan isn't read")),
    }
}

/// The machine of a plan of which nothing was run.
fn machine(alloc: Global, plan: Plan) -> Result<Machine, Fail>
    ensures { IfOk result (λ machine. StandsFor machine []) }
{
    match Machine::make(alloc, plan) {
        Ok(machine) => Ok(machine),
        Err(_) => Err(Fail::from("the plan isn't taken")),
    }
}

/// A shelf of which nothing is kept, over this desk.
fn shelf<K: Desk>(alloc: Global, desk: K) -> Result<Shelf<K>, Fail>
    ensures { IfOk result (λ shelf. shelf.elements ≡ []) }
{
    match Shelf::volatile(alloc, desk) {
        Ok(shelf) => Ok(shelf),
        Err(_) => Err(Fail::from("there is no shelf")),
    }
}

/// The book of a machine that has run nothing, in a shelf without a detail.
fn started<K: Desk>(shelf: Shelf<K>, machine: Machine) -> Result<Book<K>, Fail>
    requires none { shelf.elements ≡ [] }
    requires fresh { StandsFor machine [] }
{
    match shelf.start(machine, false) {
        Ok(book) => Ok(book),
        Err(_) => Err(Fail::from("the book doesn't begin")),
    }
}

/// A run of a plan of which nothing is kept, over this desk.
pub(crate) fn begun<K: Desk>(alloc: Global, plan: Plan, desk: K) -> Result<Book<K>, Fail> {
    let machine = machine(alloc, plan)?;
    let shelf = shelf(alloc, desk)?;
    started(shelf, machine)
}

/// These numbers, as those of the calls that fail.
fn numbers(alloc: Global, items: &[u64]) -> Result<Vec<u64>, Fail> {
    let list = Vec::from_slice(alloc, items)?;
    Ok(list)
}

/// A desk of whose calls these fail.
fn desk_of(alloc: Global, failing: Vec<u64>) -> Result<MemoryDesk, Fail> {
    let desk = MemoryDesk::make(alloc, 65_536, 1_000, failing, Vec::new(alloc))?;
    Ok(desk)
}

/// A desk of whose calls the stated ones fail.
pub(crate) fn desk(alloc: Global, failing: &[u64]) -> Result<MemoryDesk, Fail> {
    desk_of(alloc, numbers(alloc, failing)?)
}

/// A run of the plan of these bytes of which nothing is kept, over a desk in memory that doesn't fail.
pub(crate) fn run_of(alloc: Global, bytes: &[u8]) -> Result<Book<MemoryDesk>, Fail> {
    let plan = plan(alloc, bytes)?;
    let desk = desk(alloc, &[])?;
    begun(alloc, plan, desk)
}

/// Writes these bytes into the file `B`.
fn write<K: Desk>(alloc: Global, desk: &mut K, bytes: &[u8]) -> Result<(), Fail> {
    let name = Text::make(alloc, b"B")?;
    if desk.pick(alloc, &name).is_err() {
        return Err(Fail::from("the file isn't there"));
    }
    if desk.write_at(0, bytes).is_err() {
        return Err(Fail::from("the file isn't written"));
    }
    Ok(())
}

/// The only detail of the book that the picked file of this desk is.
fn loaded<K: Desk>(alloc: Global, desk: K) -> Result<Book<K>, Fail> {
    let Ok(shelf) = Shelf::load(alloc, desk) else {
        return Err(Fail::from("the file is no book"));
    };
    if shelf.details().len() != 1 {
        return Err(Fail::from("the book hasn't one detail"));
    }
    match shelf.open(0) {
        Ok(book) => Ok(book),
        Err(_) => Err(Fail::from("the detail isn't opened")),
    }
}

/// The book that a file with these bytes is, over this desk.
pub(crate) fn opened<K: Desk>(alloc: Global, desk: K, bytes: &[u8]) -> Result<Book<K>, Fail> {
    let mut desk = desk;
    write(alloc, &mut desk, bytes)?;
    loaded(alloc, desk)
}
