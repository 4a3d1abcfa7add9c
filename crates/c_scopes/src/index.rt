ghost use Rattle.std.specs.Prelude.{◌≡◌, ◌+◌, ◌≤◌, [], ◌∷◌, ◌++◌, length, OnOk, OnErr};
ghost use Rattle.std.specs.Option.{option_copied};
ghost use Rattle.c_scopes.specs.Seen.{declares, last_of, space_of};

use crate::chain::{Link, Run};
use crate::heads::Heads;
use crate::{Declaration, NameSpace};
use asm_core::Memory;
use std::alloc::Global;

/// Declarations in their order, with what finds the last that is seen at a place without a walk over them all.
///
/// The declarations of one name form a chain from the last to the first. The lengths of the runs along it are as in a binary counter, so
/// that a look-up leaves out all that isn't seen at its place in few steps.
#[derive(Debug, Drop)]
pub(crate) struct Index {
    alloc: Global,
    pub declarations: Vec<Declaration>,
    links: Vec<Link>,
    heads: Heads,
}

impl Index {
    ghost use Rattle.c_scopes.specs.Chain.{IsIndex, IsLink, LeadsTo, Outside, always};

    pub fn new(alloc: Global) -> Index
        ensures empty { result.declarations.items ≡ [] }
        ensures sound { IsIndex result }
    {
        Index {
            alloc,
            declarations: Vec::new(alloc),
            links: Vec::new(alloc),
            heads: Heads::new(alloc),
        }
    }

    /// The last declaration of the name that is seen at the place.
    pub fn last_seen(&self, space: NameSpace, name: &[u8], place: u32) -> Option<&Declaration>
        requires { IsIndex self.now }
        ensures { option_copied result ≡ last_of (declares space name.now place) self.now.declarations.items }
    {
        let mut at = self.heads.of(space, name);
        while at > 0 {
            let declaration = &self.declarations[at - 1];
            let link = self.links[at - 1];
            if link.run.is_outside(place) {
                at = link.run.before;
                continue;
            }
            if declaration.is_seen(place) {
                return Some(declaration);
            }
            at = link.before;
        }
        None
    }

    /// Adds a declaration behind the others.
    pub fn add(&mut self, declaration: Declaration) -> Result<(), Memory>
        requires { IsIndex self.old }
        ensures ok { OnOk result (self.new.declarations.items ≡ self.old.declarations.items ++ declaration ∷ []) }
        ensures err { OnErr result (self.new.declarations.items ≡ self.old.declarations.items) }
        ensures sound { IsIndex self.new }
    {
        self.declarations.reserve(1)?;
        self.links.reserve(1)?;
        let link = self.link_of(&declaration);
        let count = self.declarations.len() + 1;
        self.heads.set(self.alloc, &declaration, count)?;
        self.links.push_reserved(link);
        self.declarations.push_reserved(declaration);
        Ok(())
    }

    /// The link of a declaration that is about to be added.
    fn link_of(&self, declaration: &Declaration) -> Link
        requires { IsIndex self.now }
        ensures { IsLink (self.now.declarations.items ++ declaration.now ∷ []) (length self.now.declarations.items) declaration.now result }
    {
        let before = self
            .heads
            .of(declaration.entity.space(), declaration.name.as_slice());
        Link {
            before,
            run: self.run_of(declaration, before),
        }
    }

    fn run_of(&self, declaration: &Declaration, before: usize) -> Run
        requires index { IsIndex self.now }
        requires before { LeadsTo self.now.declarations.items (space_of declaration.now.entity) declaration.now.name always (length self.now.declarations.items) before }
        ensures leads { LeadsTo (self.now.declarations.items ++ declaration.now ∷ []) (space_of declaration.now.entity) declaration.now.name (Outside result) (length self.now.declarations.items + 1) result.before }
        ensures back { result.before ≤ length self.now.declarations.items }
        ensures fits { result.length + result.before ≤ length self.now.declarations.items + 1 }
    {
        let mut run = Run {
            earliest: declaration.seen.from,
            latest: declaration.seen.to,
            length: 1,
            before,
        };
        while run.before > 0 {
            let earlier = self.links[run.before - 1].run;
            if earlier.length != run.length {
                return run;
            }
            run = run.joined(earlier);
        }
        run
    }
}
