use crate::commands::JobAction;
use tf_states::Priority;
use tf_values::{Name, Val};
use uuid::Uuid;

/// A call that is to record something: that a job is posted, or that an owner does something with the job that an id
/// names.
#[derive(Debug, Drop)]
pub enum JobCall {
    Post {
        name: Name,
        priority: Priority,
        details: Val,
    },
    Apply {
        action: JobAction,
        id: Uuid,
        owner: Name,
    },
}

/// What is asked of a board: to make a call, who has the job that an id names, or which jobs there are.
#[derive(Debug, Drop)]
pub enum BoardRequest {
    Call(JobCall),
    Owner { id: Uuid },
    List,
}
