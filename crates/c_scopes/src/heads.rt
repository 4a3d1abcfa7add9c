ghost use Rattle.std.specs.Prelude.{◌≡◌, ℕ, List, nat_eq, OnOk, OnErr, if◌then◌else◌};
ghost use Rattle.std.specs.Cmp.Lexicographic.{pointwise};
ghost use Rattle.c_scopes.specs.declared.declaration.NameSpace.{NameSpace};
ghost use Rattle.c_scopes.specs.Seen.{has_name};
ghost use Rattle.c_scopes.specs.Head.{count_in, head_of};

use crate::{Declaration, NameSpace};
use asm_core::Memory;
use std::alloc::Global;
use std::collections::HashMap;

/// For each name how many declarations of the file there are up to the last one of that name.
type Counts = HashMap<Vec<u8>, usize>;

/// The counts of tags and of ordinary names.
#[derive(Debug, Drop)]
pub(crate) struct Heads {
    pub tags: Counts,
    pub ordinary: Counts,
}

impl Heads {
    pub fn new(alloc: Global) -> Heads
        ensures { (space : NameSpace) (name : List ℕ) → head_of result space name ≡ 0 }
    {
        Heads {
            tags: HashMap::new(alloc),
            ordinary: HashMap::new(alloc),
        }
    }

    /// 0 where the name has no declaration.
    pub fn of(&self, space: NameSpace, name: &[u8]) -> usize
        ensures { result ≡ head_of self.now space name.now }
    {
        match space {
            NameSpace::Tag => count_in(&self.tags, name),
            NameSpace::Ordinary => count_in(&self.ordinary, name),
        }
    }

    /// Makes `count` the count of the declaration's name.
    pub fn set(
        &mut self,
        alloc: Global,
        declaration: &Declaration,
        count: usize,
    ) -> Result<(), Memory>
        ensures ok { OnOk result ((space : NameSpace) (name : List ℕ) → head_of self.new space name ≡ (if has_name space name declaration.now then count else head_of self.old space name)) }
        ensures err { OnErr result ((space : NameSpace) (name : List ℕ) → head_of self.new space name ≡ head_of self.old space name) }
    {
        let name = declaration.name.as_slice();
        match declaration.entity.space() {
            NameSpace::Tag => set_count(alloc, &mut self.tags, name, count),
            NameSpace::Ordinary => set_count(alloc, &mut self.ordinary, name, count),
        }
    }
}

fn count_in(counts: &Counts, name: &[u8]) -> usize
    ensures { result ≡ count_in counts.now name.now }
{
    counts.get(name).copied().unwrap_or(0)
}

fn set_count(alloc: Global, counts: &mut Counts, name: &[u8], count: usize) -> Result<(), Memory>
    ensures ok { OnOk result ((other : List ℕ) → count_in counts.new other ≡ (if pointwise nat_eq other name.now then count else count_in counts.old other)) }
    ensures err { OnErr result ((other : List ℕ) → count_in counts.new other ≡ count_in counts.old other) }
{
    counts.insert(Vec::from_slice(alloc, name)?, count)?;
    Ok(())
}
