//! Names, texts and values, with their text form and their byte form.
#![tactic(auto)]

mod byte_form;
mod decoding;
mod elements;
mod equality;
mod faults;
mod identifier;
mod laws;
mod parsing;
mod quoted;
mod text_form;
mod utf8;
mod value;
mod word;

pub use elements::{Scalar, Scalars};
pub use faults::{MakeFault, Memory};
pub use identifier::{Name, Names};
pub use laws::{one_byte_reading, one_text_reading};
pub use text_form::quote;
pub use utf8::{Text, Texts};
pub use value::Val;
