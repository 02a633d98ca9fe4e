ghost use Rattle.std.specs.Prelude.{◌≡◌, ◌++◌, ◌∷◌, OnOk, IfOk};
ghost use Rattle.std.specs.Fmt.{decimal};
ghost use Rattle.tf_board.specs.Board.{id_of, id_text as text_of};

use std::alloc::Global;
use tf_report::{append, append_number};
use tf_values::{Memory, Name, Text};
use uuid::Uuid;

/// The most bytes of a job's number, a slash and a name.
const TITLE_LIMIT: usize = 128;

/// The id of the job of that number and that name: version 5 of the DNS name space and the text `NUMBER/NAME`.
#[tactic(auto, unfolding(crate::specs::Board::id_of))]
pub fn job_id(alloc: Global, number: u64, name: &Name) -> Result<Uuid, Memory>
    ensures { IfOk result (λ id. id ≡ id_of number name.now) }
{
    let mut title = Vec::with_capacity(alloc, TITLE_LIMIT)?;
    append_number(number, &mut title)?;
    append(b"/", &mut title)?;
    append(name.bytes(), &mut title)?;
    Ok(Uuid::new_v5(&Uuid::NAMESPACE_DNS, &title))
}

/// The text of an id: hyphenated, in lower case.
#[tactic(auto, unfolding(crate::specs::Board::id_text))]
pub fn id_text(alloc: Global, id: &Uuid) -> Result<Text, Memory>
    ensures { IfOk result (λ text. text ≡ text_of id.now) }
{
    let mut buffer = Uuid::encode_buffer();
    let text = id.hyphenated().encode_lower(&mut buffer);
    match Text::make(alloc, text.as_bytes()) {
        Ok(text) => Ok(text),
        Err(_) => Err(Memory),
    }
}
