ghost use Rattle.std.specs.Prelude.{◌≡◌, ◌++◌, ◌∷◌, [], IfOk, OnOk};
ghost use Rattle.tf_scopes.specs.Sources.{gives_nothing};

use std::alloc::Global;
use std::marker::Model;
use tf_values::Memory;

/// Numbers of atoms in order. Contracts see the list.
#[derive(Drop)]
pub struct Givers {
    atoms: Vec<u16>,
}

impl Model for Givers {
    ghost use Rattle.std.specs.Prelude.{List, ℕ};

    ghost Value = { List ℕ };

    ghost view = { λ givers. givers.atoms.items };
}

impl Givers {
    /// A list of these numbers.
    pub fn make(atoms: Vec<u16>) -> Givers
        ensures { result ≡ atoms.items }
    {
        Givers { atoms }
    }

    /// The numbers, in order.
    pub fn atoms(&self) -> &[u16]
        ensures { result.now ≡ self.now }
    {
        &self.atoms
    }
}

/// From where an atom takes the value of an argument.
#[derive(Drop)]
pub enum Source {
    /// The value at this place among the atom's own injects.
    Injected(usize),
    /// The value at this place of the store.
    Stored(usize),
    /// What the first of these atoms gives that gives a value.
    Given(Givers),
}

impl Source {
    /// Whether there is nothing from which a value could be taken.
    pub fn gives_nothing(&self) -> bool
        ensures { result ≡ gives_nothing self.now }
    {
        match self {
            Source::Injected(_) | Source::Stored(_) => false,
            Source::Given(givers) => givers.atoms().is_empty(),
        }
    }
}

/// The sources of an atom's arguments, in the order of these. Contracts see the list.
#[derive(Drop)]
pub struct Sources {
    items: Vec<Source>,
}

impl Model for Sources {
    ghost use Rattle.std.specs.Prelude.{List};
    ghost use Rattle.tf_scopes.specs.declared.sources.Source.{Source};

    ghost Value = { List Source };

    ghost view = { λ sources. sources.items.items };
}

impl Sources {
    /// No source yet, with room for so many.
    pub fn with_room(alloc: Global, count: usize) -> Result<Sources, Memory>
        ensures { IfOk result (λ sources. sources ≡ []) }
    {
        let items = Vec::with_capacity(alloc, count)?;
        Ok(Sources { items })
    }

    /// Adds a source at the end.
    pub fn push(&mut self, source: Source) -> Result<(), Memory>
        ensures { OnOk result (self.new ≡ self.old ++ source ∷ []) }
    {
        self.items.push(source)?;
        Ok(())
    }

    /// The sources, in order.
    pub fn items(&self) -> &[Source]
        ensures { result.now ≡ self.now }
    {
        &self.items
    }
}
