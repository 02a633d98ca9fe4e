ghost use Rattle.std.specs.Prelude.{◌≡◌, ◌<◌, ◌++◌, true, OnOk};
ghost use Rattle.tf_values.specs.Text.{is_name};
ghost use Rattle.tf_board.specs.Board as form;

use tf_report::append;
use tf_states::Priority;
use tf_values::{Memory, Name, Val};

/// What an owner does with a job.
#[derive(Clone, Copy, Debug, PartialEq, Eq)]
pub enum JobAction {
    /// To take a job that nobody has.
    Claim,
    /// To give it back.
    Abandon,
    /// To finish it.
    Consume,
    /// To throw it away.
    Trash,
}

/// What a board records: that a job was posted, or that an owner did something with the job of that number.
#[derive(Debug, Drop)]
pub enum Command {
    Post {
        name: Name,
        priority: Priority,
        details: Val,
    },
    Apply {
        action: JobAction,
        job: u64,
        owner: Name,
    },
}

/// Appends the form of a command. Want of memory leaves a prefix of it behind what was there.
pub fn append_command(command: &Command, out: &mut Vec<u8>) -> Result<(), Memory>
    ensures ok { OnOk result (out.new.items ≡ out.old.items ++ form.command_bytes command.now) }
    ensures is { OnOk result (form.IsCommand command.now) }
{
    match command {
        Command::Post {
            name,
            priority,
            details,
        } => {
            append(&[1], out)?;
            append_name(name, out)?;
            append(&[priority_byte(*priority)], out)?;
            details.encode(out)
        }
        Command::Apply { action, job, owner } => {
            append(&[action_byte(*action)], out)?;
            append(&job.to_be_bytes(), out)?;
            append_name(owner, out)
        }
    }
}

/// Appends a name behind its length.
fn append_name(name: &Name, out: &mut Vec<u8>) -> Result<(), Memory>
    ensures ok { OnOk result (out.new.items ≡ out.old.items ++ form.name_bytes name.now) }
    ensures name { is_name name.now ≡ true }
{
    let bytes = name.bytes();
    append(&[bytes.len() as u8], out)?;
    append(bytes, out)
}

/// The byte of a priority: how many priorities are more urgent.
pub fn priority_byte(priority: Priority) -> u8
    ensures is { result ≡ form.priority_byte priority }
    ensures within { result < 5 }
{
    match priority {
        Priority::VeryHigh => 0,
        Priority::High => 1,
        Priority::Normal => 2,
        Priority::Low => 3,
        Priority::VeryLow => 4,
    }
}

/// The byte of what an owner does.
fn action_byte(action: JobAction) -> u8
    ensures { result ≡ form.action_byte action }
{
    match action {
        JobAction::Claim => 2,
        JobAction::Abandon => 3,
        JobAction::Consume => 4,
        JobAction::Trash => 5,
    }
}
