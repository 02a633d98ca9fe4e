ghost use Rattle.std.specs.Prelude.{◌≡◌, ◌<◌, List, IfSome, Some, slice_get};
ghost use Rattle.tf_model.specs.Plan.{outline_of, count, retry_of};
ghost use Rattle.tf_model.specs.Retries as retries;
ghost use Rattle.tf_model.specs.Retries.{Controlled, resolution};
ghost use Rattle.tf_model.specs.History.{Snapshot};
ghost use Rattle.tf_states.specs.declared.record.Kind.{Kind};
ghost use Rattle.tf_rules.specs.Answers.{HasAnswers};
ghost use Rattle.tf_rules.specs.Resolutions.{shown_resolution, shown_controller, controllers_in};

use crate::flows::retry_of;
use tf_flow::Plan;
use tf_states::Kind;

/// What a failure is resolved to: a flow by its number, and whether it runs again, is reverted, or is
/// reverted as the whole flow.
#[derive(Clone, Copy, Debug, PartialEq, Eq)]
pub struct Resolution {
    pub flow: u16,
    pub kind: Kind,
}

/// A flow with its retry controller, both by their numbers.
#[derive(Clone, Copy)]
struct Controller {
    flow: u16,
    retry: u16,
}

/// What a failure of an atom is resolved to, where the answer of each retry controller around it stands at its
/// atom number; other places are not read. It takes no memory. The retry controllers around the atom are asked
/// from the outermost one on, since the answer of one may leave the failure to those around it.
pub fn resolve(plan: &Plan, answers: &[Kind], atom: u16) -> Resolution
    requires { atom < count (outline_of plan.now) }
    ensures { (s : Snapshot) → HasAnswers answers.now (outline_of plan.now) s atom
        → shown_resolution result ≡ resolution (outline_of plan.now) s atom }
{
    let mut found = REVERT_ALL;
    let mut is_outermost = true;
    for turn in plan.path(atom) {
        if let Some(here) = controller_of(plan, turn.flow, atom) {
            let answer = answer_of(answers, here.retry);
            found = resolved(plan.defer(), here, is_outermost, found, answer);
            is_outermost = false;
        }
    }
    found
}

/// The whole flow is reverted.
const REVERT_ALL: Resolution = Resolution {
    flow: 0,
    kind: Kind::RevertAll,
};

/// A flow with its retry controller, where it has one other than this atom.
fn controller_of(plan: &Plan, flow: usize, atom: u16) -> Option<Controller>
    ensures found { controllers_in result ≡ retries.controlled atom flow (retry_of (outline_of plan.now) flow) }
    ensures retry { IfSome result (λ here. retry_of (outline_of plan.now) flow ≡ Some here.retry) }
{
    let retry = retry_of(plan, flow)?;
    if retry == atom {
        return None;
    }
    Some(Controller {
        flow: flow as u16,
        retry,
    })
}

/// The answer at a place; what has none there is to be reverted.
fn answer_of(answers: &[Kind], retry: u16) -> Kind
    ensures { (answer : Kind) → slice_get answers.now retry ≡ Some answer → result ≡ answer }
{
    match answers.get(retry as usize) {
        Some(answer) => *answer,
        None => Kind::Revert,
    }
}

/// What the answer of a flow's retry controller is resolved to, where a failure of the controller itself is
/// resolved to `outer`.
fn resolved(
    defer: bool,
    here: Controller,
    is_outermost: bool,
    outer: Resolution,
    answer: Kind,
) -> Resolution
    ensures { (others : List Controlled) → is_outermost ≡ retries.is_outermost others
        → shown_resolution result ≡ retries.resolved defer (shown_controller here) others
        (shown_resolution outer) answer }
{
    match answer {
        Kind::Retry => Resolution {
            flow: here.flow,
            kind: Kind::Retry,
        },
        Kind::RevertAll => REVERT_ALL,
        Kind::Revert => {
            if defer || (!is_outermost && outer.kind != Kind::Revert) {
                outer
            } else {
                Resolution {
                    flow: here.flow,
                    kind: Kind::Revert,
                }
            }
        }
    }
}
