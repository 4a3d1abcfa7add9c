//! Where the walk through a file stands.

ghost use Rattle.std.specs.Prelude.{◌≡◌, ◌<◌, IfOk, length};
ghost use Rattle.c_decls.specs.Declarations.{StandsIn};
ghost use Rattle.c_decls.specs.Places.{at_item, beginning, block_entered, entered, follows_tag, has_statements, is_entered, is_sealed, is_unread, last_frame, left, moved, passing};

use crate::declaring::Ending;
use crate::ends::{Stop, level_end, opens_block};
use asm_core::{Items, Memory};
use c_reader::marks::{is_name, is_open_brace, is_semicolon};
use c_words::{Source, Word};
use std::alloc::Global;

/// The offset at which the scope of a file ends.
pub const END_OF_FILE: u32 = 4294967295;

/// A block that is open.
#[derive(Clone, Copy, Drop)]
pub struct Frame {
    /// The index of its closing brace.
    pub close: usize,
    /// The index at which the next item begins behind it.
    pub behind: usize,
    /// The index of an opening brace behind it, whose braces are passed over as one.
    pub sealed: Option<usize>,
}

/// Where reading stands.
#[derive(Drop)]
pub struct Place {
    /// The open blocks, the innermost last.
    pub frames: Items<Frame>,
    /// The index at which the next item begins.
    pub next: usize,
    /// The index of an opening brace before it, whose braces are passed over as one.
    pub sealed: Option<usize>,
}

/// Whether the brace at the index opens the body of a struct, union or enumeration.
fn follows_tag(source: &Source<'_>, i: usize) -> bool
    ensures { result ≡ follows_tag source.now i }
{
    let before = source.word(i.saturating_sub(1));
    if is_name(before) {
        return matches!(source.word(i.saturating_sub(2)), Word::Tag(_));
    }
    matches!(before, Word::Tag(_))
}

/// Whether a semicolon stands at the level behind the brace at the index.
fn has_statements(source: &Source<'_>, i: usize) -> bool
    requires { i < 4294967296 }
    ensures { result ≡ has_statements source.now i }
{
    is_semicolon(source.word(level_end(source, Stop::Semicolon, i + 1)))
}

impl Place {
    /// At the first token.
    pub fn new(alloc: Global) -> Place
        ensures { result ≡ beginning }
    {
        Place {
            frames: Items::new(alloc),
            next: 0,
            sealed: None,
        }
    }

    /// The innermost of the open blocks.
    pub fn last_frame(&self) -> Option<Frame>
        ensures { result ≡ last_frame self.now.frames }
    {
        self.frames
            .get(self.frames.len().saturating_sub(1))
            .copied()
    }

    /// Whether the braces that open at the index are passed over as one.
    pub fn is_sealed(&self, i: usize) -> bool
        ensures { result ≡ is_sealed i self.now.sealed }
    {
        match self.sealed {
            Some(brace) => brace == i,
            None => false,
        }
    }

    /// Whether the braces that open at the index are read as no block, though statements stand in them.
    pub fn is_unread(&self, source: &Source<'_>, i: usize) -> bool
        requires { i < 4294967296 }
        ensures { result ≡ is_unread source.now i self.now }
    {
        if !is_open_brace(source.word(i)) {
            return false;
        }
        if self.is_entered(source, i) || follows_tag(source, i) {
            return false;
        }
        has_statements(source, i)
    }

    /// Whether the brace at the index has opened the innermost block.
    fn is_entered(&self, source: &Source<'_>, i: usize) -> bool
        ensures { result ≡ is_entered source.now i self.now }
    {
        match self.last_frame() {
            Some(frame) => frame.close == source.past(i).saturating_sub(1),
            None => false,
        }
    }

    /// The next item begins at the index.
    pub fn begin_item(&mut self, i: usize)
        ensures { self.new ≡ at_item i self.old }
    {
        self.next = i;
        self.sealed = None;
    }

    /// The block whose brace has this index opens. Behind it the next item begins at the index `behind`, and the braces `sealed` are
    /// passed over if they haven't come yet.
    fn enter(
        &mut self,
        source: &Source<'_>,
        brace: usize,
        behind: usize,
        sealed: Option<usize>,
    ) -> Result<(), Memory>
        requires { brace < length source.now.tokens }
        ensures { IfOk result (λ _. self.new ≡ entered source.now brace behind sealed self.old) }
    {
        self.frames.push(Frame {
            close: source.past(brace).saturating_sub(1),
            behind,
            sealed,
        })?;
        self.begin_item(brace + 1);
        Ok(())
    }

    /// A block opens that is an item, or a function's body.
    pub fn enter_block(&mut self, source: &Source<'_>, brace: usize) -> Result<(), Memory>
        requires { brace < length source.now.tokens }
        ensures { IfOk result (λ _. self.new ≡ block_entered source.now brace self.old) }
    {
        self.enter(source, brace, source.past(brace), None)
    }

    /// The innermost block closes.
    #[tactic(auto, using(crate::proofs::PlaceLemmas::frame_rules))]
    pub fn leave(&mut self)
        ensures { self.new ≡ left self.old }
    {
        if let Some(frame) = self.frames.pop() {
            self.next = frame.behind;
            self.sealed = frame.sealed;
        }
    }

    /// Goes on behind the declaration at the index.
    pub fn go_on(&mut self, source: &Source<'_>, i: usize, ending: Ending) -> Result<(), Memory>
        requires few { i < 4294967296 }
        requires body { StandsIn source.now ending }
        ensures { IfOk result (λ _. self.new ≡ moved source.now i ending self.old) }
    {
        match ending {
            Ending::Behind(end) => self.begin_item(end),
            Ending::Body(brace) => return self.enter_block(source, brace),
            Ending::Skipped(end, braces) => {
                self.next = end;
                self.sealed = braces;
            }
            Ending::Uncovered => self.begin_item(i + 1),
        }
        Ok(())
    }

    /// Passes a token before the next item, at which a block in a statement expression may open.
    pub fn pass(&mut self, source: &Source<'_>, i: usize) -> Result<(), Memory>
        requires { i < 4294967296 }
        ensures { IfOk result (λ _. self.new ≡ passing source.now i self.old) }
    {
        if !opens_block(source, i) {
            return Ok(());
        }
        self.enter(source, i + 1, self.next, self.sealed)
    }
}
