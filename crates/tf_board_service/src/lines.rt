// Lines of commands as the texts of a reply.
ghost use Rattle.std.specs.Prelude.{◌≡◌, ◌≤◌, length, IfOk};
ghost use Rattle.tf_board_service.specs.Sessions.{without_feed, without_name};

use std::alloc::Global;
use tf_values::{Memory, Text};

/// How many bytes stand before a message's own words: the program's name, a colon and a space.
const NAME_LENGTH: usize = 10;

/// The text of a line without its line feed.
pub(crate) fn line_text(alloc: Global, line: &[u8]) -> Result<Text, Memory>
    ensures { IfOk result (λ text. text ≡ without_feed line.now) }
{
    made(alloc, &line[..line.len().saturating_sub(1)])
}

/// The text of a message without the program's name and its line feed.
pub(crate) fn message_text(alloc: Global, message: &[u8]) -> Result<Text, Memory>
    requires long { 11 ≤ length message.now }
    ensures { IfOk result (λ text. text ≡ without_name message.now) }
{
    let line = &message[..message.len() - 1];
    made(alloc, &line[NAME_LENGTH..])
}

/// The text of these bytes.
fn made(alloc: Global, bytes: &[u8]) -> Result<Text, Memory>
    ensures { IfOk result (λ text. text ≡ bytes.now) }
{
    match Text::make(alloc, bytes) {
        Ok(text) => Ok(text),
        Err(_) => Err(Memory),
    }
}
