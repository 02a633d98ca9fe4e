//! How the flow of a book of one flow is read body by body.
ghost use Rattle.std.specs.Prelude.{◌<◌, ◌∷◌, [], List, OnOk, IfOk, IsErrOf};
ghost use Rattle.tf_details.specs.Elements.{Element, IsNoPlan, IsNoEntry};
ghost use Rattle.tf_details.specs.Reading.{AreMachinesOf};
ghost use Rattle.tf_migration.specs.Reading.{HasReadFlow, HasReadEntry};

use crate::bodies::Body;
use std::alloc::Global;
use tf_details::{Details, read_plan};
use tf_entries::entry_has_one_form;
use tf_records::Replay;
use tf_values::MakeFault;

/// A flow as far as it was read: what its plan and its history are, and the bodies that it has in a book of several
/// flows.
#[derive(Drop)]
pub struct Flow {
    pub details: Details,
    pub bodies: Vec<Body>,
}

/// A book of one flow as far as it was read.
#[derive(Drop)]
pub enum OldBook {
    Empty,
    Of(Flow),
}

/// Reads the plan of these bytes, before a run. `No` comes where they are no plan's form, or where the plan can't run.
fn read_first(alloc: Global, form: &[u8]) -> Result<Flow, MakeFault>
    ensures read { IfOk result (λ flow. HasReadFlow flow (form.now ∷ [])) }
    ensures refused { IsErrOf result MakeFault.No → IsNoPlan form.now }
{
    let machine = read_plan(alloc, form)?;
    let Ok(body) = Body::of_plan(alloc, machine.plan()) else {
        return Err(MakeFault::Memory);
    };
    let mut details = Details::none(alloc);
    details.add(machine)?;
    let mut bodies = Vec::new(alloc);
    bodies.push(body)?;
    Ok(Flow { details, bodies })
}

impl Flow {
    /// Reads an entry of these bytes, which follows the history. `No` comes where no entry that may follow has them.
    fn read_entry(&mut self, alloc: Global, form: &[u8]) -> Result<(), MakeFault>
        ensures read { OnOk result (HasReadEntry self.old self.new form.now) }
        ensures refused { IsErrOf result MakeFault.No → (book : List Element) → AreMachinesOf self.old.details book
            → IsNoEntry book 0 form.now }
    {
        entry_has_one_form();
        let entry = self.details.decode(alloc, 0, form)?;
        let Ok(body) = Body::of_entry(alloc, form) else {
            return Err(MakeFault::Memory);
        };
        self.bodies.push(body)?;
        self.details.take(alloc, 0, entry)
    }
}

impl Replay for OldBook {
    ghost use Rattle.tf_migration.specs.Migrates.{CannotFollow};
    ghost use Rattle.tf_migration.specs.Reading.{HasReadBook};

    ghost replayed = { HasReadBook };

    ghost refuses = { CannotFollow };

    /// Reads the plan, and then one entry after another. `No` comes where the first body is no plan that can run, or
    /// a later one is no entry that may follow.
    fn replay(&mut self, alloc: Global, body: &[u8]) -> Result<(), MakeFault> {
        match self {
            OldBook::Empty => {
                *self = OldBook::Of(read_first(alloc, body)?);
                Ok(())
            }
            OldBook::Of(flow) => flow.read_entry(alloc, body),
        }
    }
}
