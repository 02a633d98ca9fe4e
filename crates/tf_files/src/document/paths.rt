ghost use Rattle.std.specs.Prelude.{◌≡◌, [], IfOk};
ghost use Rattle.tf_files.specs.document.Reading.{below, step_of};

use std::alloc::Global;
use std::marker::Model;
use tf_values::{Memory, Name};

/// Where a value stands in a document: keys and numbers of items, with dots between. Contracts see the bytes.
#[derive(Debug, Drop)]
pub struct Path {
    bytes: Vec<u8>,
}

impl Model for Path {
    ghost use Rattle.std.specs.Prelude.{List, ℕ};

    ghost Value = { List ℕ };

    ghost view = { λ path. path.bytes.items };
}

impl Path {
    /// The path of the document itself.
    pub fn root(alloc: Global) -> Path
        ensures { result ≡ [] }
    {
        Path {
            bytes: Vec::new(alloc),
        }
    }

    /// The bytes of the path.
    pub fn bytes(&self) -> &[u8]
        ensures { result.now ≡ self.now }
    {
        &self.bytes
    }

    /// The path of one step further in.
    pub fn below(&self, alloc: Global, step: &[u8]) -> Result<Path, Memory>
        ensures { IfOk result (λ path. path ≡ below self.now step.now) }
    {
        let mut bytes = Vec::with_capacity(alloc, self.bytes.len() + step.len() + 1)?;
        bytes.extend_from_slice(&self.bytes)?;
        if !self.bytes.is_empty() {
            bytes.push(b'.')?;
        }
        bytes.extend_from_slice(step)?;
        Ok(Path { bytes })
    }

    /// The path of a key of a table: a key that is no name stands in its quoted form.
    pub(crate) fn below_key(&self, alloc: Global, key: &str) -> Result<Path, Memory>
        ensures { IfOk result (λ path. path ≡ below self.now (step_of key.now)) }
    {
        if Name::make(key.as_bytes()).is_some() {
            return self.below(alloc, key.as_bytes());
        }
        let mut step = Vec::new(alloc);
        tf_values::quote(key.as_bytes(), &mut step)?;
        self.below(alloc, &step)
    }
}
