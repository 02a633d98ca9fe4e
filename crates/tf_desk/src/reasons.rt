//! What is said on standard error of a file, a socket or a program that failed.

use std::io::{Eprint, Error};

/// Says on standard error which thing failed, by its name, and the system's reason, in one line. What can't be
/// said there is left unsaid: the call that failed answers its fault all the same.
pub fn tell_reason<R: Eprint>(runtime: &R, name: &str, reason: &Error) {
    let _told = eprintln!(runtime; "taskflow: {name}: {reason}");
}
