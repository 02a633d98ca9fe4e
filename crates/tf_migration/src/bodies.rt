//! The bodies that a flow has in a book of several flows.
ghost use Rattle.std.specs.Prelude.{◌≡◌, ◌<◌, ◌≤◌, ◌+◌, ◌++◌, IfOk, length};
ghost use Rattle.tf_entries.specs.Heads.{head_bytes};
ghost use Rattle.tf_details.specs.Elements.{element_bytes, detail};
ghost use Rattle.tf_entries.specs.declared.heads.Head.TheVariants as head;

use std::alloc::Global;
use std::marker::Model;
use tf_entries::{Head, encode_plan, put_head};
use tf_flow::Plan;
use tf_values::Memory;

/// A body of a book of several flows: a head, and behind it the form of a plan or of an entry.
#[derive(Drop)]
pub struct Body {
    bytes: Vec<u8>,
}

impl Model for Body {
    ghost use Rattle.std.specs.Prelude.{ℕ, List, length, ◌≤◌};

    ghost Value = { List ℕ };

    ghost view = { λ b. b.bytes.items };

    ghost invariant = { λ b. (1 ≤ length b.bytes.items) × (length b.bytes.items ≤ 1048577) };
}

impl Body {
    /// The body of a new detail of the plan.
    pub fn of_plan(alloc: Global, plan: &Plan) -> Result<Body, Memory>
        ensures { IfOk result (λ body. body ≡ element_bytes (detail plan.now)) }
    {
        let mut bytes = Vec::new(alloc);
        put_head(Head::Detail, &mut bytes)?;
        encode_plan(plan, &mut bytes)?;
        Ok(Body { bytes })
    }

    /// The body of an entry of the first detail, of which these bytes are the form.
    pub fn of_entry(alloc: Global, form: &[u8]) -> Result<Body, Memory>
        requires { length form.now ≤ 131200 }
        ensures { IfOk result (λ body. body ≡ head_bytes (head.Entry 0) ++ form.now) }
    {
        let mut bytes = Vec::new(alloc);
        put_head(Head::Entry(0), &mut bytes)?;
        bytes.extend_from_slice(form)?;
        Ok(Body { bytes })
    }

    /// Its bytes.
    pub fn bytes(&self) -> &[u8]
        ensures is { result.now ≡ self.now }
        ensures limits { (1 ≤ length self.now) × (length self.now ≤ 1048577) }
    {
        &self.bytes
    }
}
