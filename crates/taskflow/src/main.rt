//! The program: it checks flow files, runs their flows, keeps a run in a book and goes on from it, says each
//! transition, and keeps the jobs of a board.
#![tactic(auto)]

mod shipped;

use shipped::{begin, obey};
use std::env::Env;
use std::fs::{self, File};
use std::marker::Brand;
use std::process::ExitCode;
use std::rt::Files;
use std::{env, io};
use tf_report::OUT_OF_MEMORY;
use tf_words::{Word, access_of, sockets_of};

/// What is opened so that nothing else takes the number of a standard stream that was closed before.
const NOTHING: &str = "/dev/null";

fn main(rt: HostRuntime) -> ExitCode {
    let alloc = rt.alloc();
    let _taken = take_streams(&rt);
    let words = match read_arguments(&rt) {
        Ok(words) => words,
        Err(fault) => {
            if fault.kind() == io::ErrorKind::OutOfMemory {
                return ExitCode::from(OUT_OF_MEMORY);
            }
            // A word that isn't UTF-8 makes the words no command, as no words do.
            Vec::new(alloc)
        }
    };
    let Ok(sockets) = sockets_of(alloc, &words) else {
        return ExitCode::from(OUT_OF_MEMORY);
    };
    let outside = begin::<Brand>(rt, access_of(&words), sockets);
    let ended = obey(&rt, alloc, &words, outside);
    ExitCode::from(ended.status)
}

/// Takes the numbers of the standard streams, where they are free, until the answer is let go: the system gives a file or
/// a socket the least free number, and what is said must not go into it. Where it can't be opened they stay as they are.
fn take_streams<R: Files<File = File>>(rt: &R) -> [Option<File>; 3] {
    [
        fs::open(rt, NOTHING).ok(),
        fs::open(rt, NOTHING).ok(),
        fs::open(rt, NOTHING).ok(),
    ]
}

/// The words after the program's own name.
fn read_arguments(rt: &(impl Env + AllocGlobal)) -> io::Result<Vec<Word>> {
    let mut words = Vec::new(rt.alloc());
    for text in env::args(rt)?.skip(1) {
        words.push(Word::make(text))?;
    }
    Ok(words)
}
