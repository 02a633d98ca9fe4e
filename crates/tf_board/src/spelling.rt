ghost use Rattle.std.specs.Prelude.{◌≡◌};
ghost use Rattle.tf_board.specs.Board.{parsed_id, priority_named as priority_by_name};

use tf_states::Priority;
use uuid::Uuid;

/// The id that the word spells, in one of the text forms that `uuid` knows, or none.
#[tactic(auto, unfolding(crate::specs::Board::parsed_id))]
pub fn parse_id(word: &str) -> Option<Uuid>
    ensures { result ≡ parsed_id word.now }
{
    match Uuid::parse_str(word) {
        Ok(id) => Some(id),
        Err(_) => None,
    }
}

/// The priority of this name, in capital letters; none where it is the name of none.
pub fn priority_named(word: &[u8]) -> Option<Priority>
    ensures { result ≡ priority_by_name word.now }
{
    if word == b"VERY_HIGH".as_slice() {
        return Some(Priority::VeryHigh);
    }
    if word == b"HIGH".as_slice() {
        return Some(Priority::High);
    }
    if word == b"NORMAL".as_slice() {
        return Some(Priority::Normal);
    }
    if word == b"LOW".as_slice() {
        return Some(Priority::Low);
    }
    if word == b"VERY_LOW".as_slice() {
        return Some(Priority::VeryLow);
    }
    None
}
