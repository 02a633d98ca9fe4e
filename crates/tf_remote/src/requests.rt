ghost use Rattle.std.specs.Prelude.{◌≡◌, ◌<◌, ◌^◌, true, IfOk};
ghost use Rattle.tf_actions.specs.Gives.{is_sent, IsWhole};
ghost use Rattle.tf_remote.specs.Asking.{IsRequestBack};
ghost use Rattle.tf_remote.specs.Requests.{kind_asked, words_asked, pairs_asked, request_for, frame_for};

use std::alloc::Global;
use tf_actions::{Action, Args, Given, Order};
use tf_flow::{TaskKind, Undo};
use tf_values::{Memory, Texts};
use tf_wire::{Request, print_request};

/// The frame of the request of that id that names the order.
pub fn frame_of(alloc: Global, id: u64, order: &Order) -> Result<Vec<u8>, Memory>
    requires whole { IsWhole order.now }
    requires sent { is_sent order.now ≡ true }
    requires small { id < 2 ^ 63 }
    ensures frame { IfOk result (λ frame. frame.items ≡ frame_for order.now id) }
    ensures read_back { IfOk result (λ _. IsRequestBack order.now id) }
{
    let request = request_of(alloc, id, order)?;
    let mut frame = Vec::new(alloc);
    print_request(alloc, &request, &mut frame)?;
    Ok(frame)
}

/// The request of that id that names the order.
fn request_of(alloc: Global, id: u64, order: &Order) -> Result<Request, Memory>
    ensures { IfOk result (λ request. request ≡ request_for order.now id) }
{
    let words = words_of(alloc, order)?;
    let args = args_of(alloc, &order.given)?;
    Ok(Request {
        id,
        action: order.action,
        kind: kind_of(order.action, order.kind),
        words,
        args,
    })
}

/// The kind that is asked for: what undoes a task is a command.
fn kind_of(action: Action, kind: TaskKind) -> TaskKind
    ensures { result ≡ kind_asked action kind }
{
    match action {
        Action::Execute => kind,
        Action::Revert => TaskKind::Command,
    }
}

/// The words that are sent: the task's, or those of the command that undoes it.
fn words_of(alloc: Global, order: &Order) -> Result<Texts, Memory>
    ensures { IfOk result (λ words. words ≡ words_asked order.now.action order.now.words order.now.undo) }
{
    match (order.action, &order.undo) {
        (Action::Execute, _) => order.words.copy(alloc),
        (Action::Revert, Undo::Run(words)) => words.copy(alloc),
        (Action::Revert, _) => Ok(Texts::make(Vec::new(alloc))),
    }
}

/// The arguments that are sent.
fn args_of(alloc: Global, given: &Given) -> Result<Args, Memory>
    ensures { IfOk result (λ args. args ≡ pairs_asked given.now) }
{
    match given {
        Given::Found(args) => args.copy(alloc),
        Given::Missing(_) => Ok(Args::make(Vec::new(alloc))),
    }
}
