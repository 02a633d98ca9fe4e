ghost use Rattle.std.specs.Prelude.{◌≡◌, IfOk};
ghost use Rattle.tf_words.specs.Words.{command_of};

use crate::commands::asked_by;
use crate::given::read_by;
use crate::sockets::sockets_in;
use crate::verbs::{Choice, chosen_in, keys_of};
use crate::word::{Word, are_filled};
use std::alloc::Global;
use tf_board::BoardRequest;
use tf_flow::Binds;
use tf_ports::{Address, Want};
use tf_values::{Memory, Name, Text};

/// What the words ask for.
#[derive(Debug, Drop)]
pub enum Asked {
    /// Run the flow of a file with these values, up to a target if there is one, and keep nothing of it.
    Try {
        file: Text,
        sets: Binds,
        defer: bool,
        want: Want,
        target: Option<Name>,
    },
    /// Run the flow of a file with these values, up to a target if there is one, and keep its history in a book.
    Run {
        file: Text,
        book: Text,
        sets: Binds,
        defer: bool,
        want: Want,
        stop_after: Option<u32>,
        target: Option<Name>,
    },
    /// Run a flow of a book on: the one of this name, or else the last.
    Resume {
        book: Text,
        name: Option<Name>,
        want: Want,
        stop_after: Option<u32>,
    },
    /// Say the history of a book's flow, and how it stands: of the flow of this name, or else of the last.
    Show {
        book: Text,
        name: Option<Name>,
    },
    /// Make a book's flow ready to run anew: the one of this name, or else the last.
    Reset {
        book: Text,
        name: Option<Name>,
    },
    /// Say which flows a book has, and how each stands.
    Details {
        book: Text,
    },
    /// Write what a book of the older format has into a new book.
    Migrate {
        old: Text,
        new: Text,
    },
    /// Read the flow of a file with these values, and say what it has, up to a target if there is one.
    Check {
        file: Text,
        sets: Binds,
        target: Option<Name>,
    },
    /// Say whether a log can be that of runs of the flow of a file with these values, and else what stands against it.
    Audit {
        file: Text,
        log: Text,
        sets: Binds,
        defer: bool,
    },
    /// Run a flow that is made by numbers, and keep its history in a book.
    Demo {
        seed: u32,
        size: u16,
        book: Text,
        hands: u8,
    },
    /// Perform what comes to this address, for so many sessions.
    Worker {
        address: Address,
        sessions: u32,
    },
    /// Let so many hands of this process take the jobs of a board for owners who are named by this word, and run them.
    Conduct {
        board: Text,
        owner: Name,
        hands: u8,
    },
    /// Ask something of a board: to post a job, that an owner does something with a job, who has a job, or which
    /// jobs there are.
    Board {
        board: Text,
        request: BoardRequest,
    },
    /// Serve a board to those who come to this address, so many sessions side by side.
    Serve {
        board: Text,
        address: Address,
        sessions: u8,
    },
}

/// The command that the words are, or none.
pub fn read_words(alloc: Global, words: &[Word]) -> Result<Option<Asked>, Memory>
    ensures { IfOk result (λ asked. asked ≡ command_of words.now) }
{
    if !are_filled(words) {
        return Ok(None);
    }
    let Some(Choice { verb, others }) = chosen_in(words) else {
        return Ok(None);
    };
    let Some(given) = read_by(alloc, keys_of(verb), others)? else {
        return Ok(None);
    };
    if sockets_in(&given).is_none() {
        return Ok(None);
    }
    asked_by(alloc, verb, &given)
}
