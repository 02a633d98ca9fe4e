//! Tests of books and of who works on them: two hands on one book whose calls come in a stated order, hands that take turns as they
//! are told, hands that wait for each other, a hand without memory, a disk that fails, and the command that lets conductors work.
#![tactic(auto)]

#[cfg(test)]
mod boards;
#[cfg(test)]
mod books;
#[cfg(test)]
mod calls;
#[cfg(test)]
mod conducting;
#[cfg(test)]
mod crews;
#[cfg(test)]
mod hands;
