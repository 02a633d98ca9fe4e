ghost use Rattle.std.specs.Prelude.{◌≡◌, ◌≤◌, Some, map, option_map, IsErrOf};
ghost use Rattle.tf_numbers.specs.Numbers.{Rises};
ghost use Rattle.tf_ports.specs.MemorySources.{seen, source_at};

use crate::reading::{SOURCE_LIMIT, SourceFault, Sources};
use std::alloc::Global;
use std::marker::Model;
use tf_values::Text;

/// A name and the bytes under it.
#[derive(Drop)]
pub struct MemorySource {
    pub name: Text,
    pub bytes: Vec<u8>,
}

/// Sources in memory. The calls are numbered from 1, and the stated ones fail; so does one for a name
/// that has no source.
#[derive(Drop)]
pub struct MemorySources {
    sources: Vec<MemorySource>,
    made: u64,
    failing: Vec<u64>,
    faults: u64,
}

impl Model for MemorySources {
    ghost use Rattle.std.specs.Prelude.{map};
    ghost use Rattle.tf_ports.specs.MemorySources.{HeldBySources, seen};

    ghost Value = { HeldBySources };

    ghost view = { λ held. record { sources = map seen held.sources.items; faults = held.faults } };
}

impl MemorySources {
    /// These sources, of which the first of a name counts, with no fault so far.
    pub fn make(sources: Vec<MemorySource>, failing: Vec<u64>) -> MemorySources
        ensures held { result.sources ≡ map seen sources.items }
        ensures none { result.faults ≡ 0 }
    {
        MemorySources {
            sources,
            made: 0,
            failing,
            faults: 0,
        }
    }

    fn fault(&mut self) -> Result<Vec<u8>, SourceFault>
        ensures read { IsErrOf result SourceFault.Read }
        ensures same { self.new.sources ≡ self.old.sources }
        ensures rose { Rises self.old.faults self.new.faults }
        ensures no_fall { self.old.faults ≤ self.new.faults }
    {
        self.faults = self.faults.saturating_add(1);
        Err(SourceFault::Read)
    }
}

impl Sources for MemorySources {
    ghost contents = { λ held. Some (source_at held.sources) };

    ghost faults = { λ held. held.faults };

    fn read_all(&mut self, alloc: Global, name: &Text) -> Result<Vec<u8>, SourceFault> {
        self.made = self.made.saturating_add(1);
        if self.failing.contains(&self.made) {
            return self.fault();
        }
        let Some(bytes) = find(&self.sources, name) else {
            return self.fault();
        };
        if bytes.len() > SOURCE_LIMIT {
            return Err(SourceFault::TooLong);
        }
        Vec::from_slice(alloc, bytes).map_err(|_| SourceFault::Memory)
    }

    fn read_stored(&mut self, alloc: Global, name: &Text) -> Result<Vec<u8>, SourceFault> {
        self.read_all(alloc, name)
    }
}

/// The bytes of the first source of that name.
fn find<'a>(sources: &'a [MemorySource], name: &Text) -> Option<&'a [u8]>
    ensures { option_map (λ bytes. bytes.now) result ≡ source_at (map seen sources.now) name.now }
{
    for source in sources {
        if source.name.bytes() == name.bytes() {
            return Some(&source.bytes);
        }
    }
    None
}
