//! Lists, texts and names that the tests give.
use std::alloc::Global;
use std::test::Fail;
use tf_values::{Name, Text};

/// These bytes.
pub(crate) fn bytes(alloc: Global, items: &[u8]) -> Result<Vec<u8>, Fail> {
    let list = Vec::from_slice(alloc, items)?;
    Ok(list)
}

/// These parts, one after the other.
pub(crate) fn joined(alloc: Global, parts: &[&[u8]]) -> Result<Vec<u8>, Fail> {
    let mut bytes = Vec::new(alloc);
    for part in parts {
        bytes.extend_from_slice(part)?;
    }
    Ok(bytes)
}

/// These numbers, as those of the calls that fail.
pub(crate) fn numbers(alloc: Global, items: &[u64]) -> Result<Vec<u64>, Fail> {
    let list = Vec::from_slice(alloc, items)?;
    Ok(list)
}

/// The text of these bytes.
pub(crate) fn text(alloc: Global, items: &[u8]) -> Result<Text, Fail> {
    let text = Text::make(alloc, items)?;
    Ok(text)
}

/// The name of these bytes.
pub(crate) fn named(bytes: &[u8]) -> Result<Name, Fail> {
    match Name::make(bytes) {
        Some(name) => Ok(name),
        None => Err(Fail::from("no name")),
    }
}
