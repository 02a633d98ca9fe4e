use tf_values::{Text, Texts};

/// What a board service answers: the lines that the command says, without their line feeds; or why it is refused, without
/// the program's name and the line feed.
#[derive(Debug, Drop)]
pub enum BoardReply {
    Lines(Texts),
    Refused(Text),
}
