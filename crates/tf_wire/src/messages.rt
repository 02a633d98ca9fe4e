use tf_actions::{Action, Args};
use tf_flow::TaskKind;
use tf_states::Failure;
use tf_values::{Texts, Val};

/// What a remote hand asks of its worker. The words of a revert are those of the command that undoes.
#[derive(Debug, Drop)]
pub struct Request {
    pub id: u64,
    pub action: Action,
    pub kind: TaskKind,
    pub words: Texts,
    pub args: Args,
}

/// What a worker answers to the request of that id: that its order runs, what it gave, or why it failed.
#[derive(Debug, Drop)]
pub enum Response {
    Running(u64),
    Success(u64, Val),
    Failure(u64, Failure),
}
