//! The labels that have been seen.

ghost use Rattle.std.specs.Prelude.{◌≡◌, ℕ, List, [], OnOk, ◌||◌};
ghost use Rattle.asm_core.specs.Reading.Cut.{same_name};
ghost use Rattle.att_reader.specs.Seen.{has_seen, names_seen};

use asm_core::Memory;
use std::alloc::Global;
use std::collections::HashSet;

/// Names of labels.
#[derive(Drop)]
pub struct Seen {
    alloc: Global,
    names: HashSet<Vec<u8>>,
}

impl Seen {
    pub fn new(alloc: Global) -> Seen
        ensures { names_seen result ≡ [] }
    {
        Seen {
            alloc,
            names: HashSet::new(alloc),
        }
    }

    pub fn has(&self, name: &[u8]) -> bool
        ensures { result ≡ has_seen self.now name.now }
    {
        self.names.contains(name)
    }

    pub fn add(&mut self, name: &[u8]) -> Result<(), Memory>
        ensures { OnOk result ((other : List ℕ) → has_seen self.new other ≡ (same_name other name.now || has_seen self.old other)) }
    {
        self.names.insert(Vec::from_slice(self.alloc, name)?)?;
        Ok(())
    }
}
