//! The heads of statements, whose first part may declare (C11 6.8.5; C2Y 6.8.5 for those of `if`, `while` and `switch`).

ghost use Rattle.std.specs.Prelude.{◌≡◌, ◌<◌, IfOk};
ghost use Rattle.c_decls.specs.Progress.{read};
ghost use Rattle.c_decls.specs.Statements.{statement_ends};
ghost use Rattle.c_decls.specs.Walk.{ending_index, first_part, for_begun, for_end, head_begun, may_declare_in_head};

use crate::block_items::{declare_by, item_in, pass};
use crate::declaring::Ending;
use crate::ends::{Stop, closes, level_end};
use crate::items::Item;
use crate::place::Place;
use crate::statements::behind_head;
use asm_core::Memory;
use c_reader::marks::is_open_paren;
use c_scopes::Scopes;
use c_words::Source;
use std::alloc::Global;

impl Ending {
    /// The index at which the tokens of a declaration end that begins at the index `first`.
    fn index(self, first: usize) -> usize
        ensures { result ≡ ending_index first self }
    {
        match self {
            Ending::Behind(end) => end,
            Ending::Body(brace) => brace,
            Ending::Skipped(end, _) => end,
            Ending::Uncovered => first,
        }
    }
}

/// The offset at which the scope of the `for`, or of another head that declares, ends: behind its statement (C11 6.8.5, 5).
fn for_end(source: &Source<'_>, ends: &[u32], i: usize) -> u32
    requires { ends.now ≡ statement_ends source.now 0 source.now.tokens }
    ensures { result ≡ for_end source.now i }
{
    let end = ends.get(i).map_or(i, |end| *end as usize);
    source.end(end.saturating_sub(1))
}

/// The first part of the head at the index declares to the end of its statement; the others are expressions.
fn begin_for_item(
    alloc: Global,
    source: &Source<'_>,
    ends: &[u32],
    scopes: &mut Scopes,
    place: &mut Place,
    to: u32,
    i: usize,
    item: Item,
) -> Result<(), Memory>
    requires few { i < 4294967296 }
    requires ends { ends.now ≡ statement_ends source.now 0 source.now.tokens }
    ensures { IfOk result (λ _. read scopes.new place.new ≡ first_part source.now to i (read scopes.old place.old) item) }
{
    let behind = behind_head(source, i);
    match item {
        Item::Statement => pass(alloc, source, scopes, place, to, i + 2, behind),
        _ => {
            let to = for_end(source, ends, i);
            let ending = declare_by(alloc, source, scopes, to, i + 2, item)?;
            pass(
                alloc,
                source,
                scopes,
                place,
                to,
                ending.index(i + 2),
                behind,
            )
        }
    }
}

/// A `for` begins at the index.
pub fn begin_for(
    alloc: Global,
    source: &Source<'_>,
    ends: &[u32],
    scopes: &mut Scopes,
    place: &mut Place,
    to: u32,
    i: usize,
) -> Result<(), Memory>
    requires few { i < 4294967296 }
    requires ends { ends.now ≡ statement_ends source.now 0 source.now.tokens }
    ensures { IfOk result (λ _. read scopes.new place.new ≡ for_begun source.now to i (read scopes.old place.old)) }
{
    if !is_open_paren(source.word(i + 1)) {
        place.begin_item(i + 1);
        return Ok(());
    }
    let item = item_in(source, scopes, i + 2);
    begin_for_item(alloc, source, ends, scopes, place, to, i, item)
}

/// Whether a declaration may stand in the head of the `if`, `while` or `switch` at the index: with a semicolon or an initialiser.
fn may_declare_in_head(source: &Source<'_>, i: usize) -> bool
    requires { i < 4294967296 }
    ensures { result ≡ may_declare_in_head source.now i }
{
    if !is_open_paren(source.word(i + 1)) {
        return false;
    }
    !closes(source.word(level_end(source, Stop::Assign, i + 2)))
}

/// An `if`, a `while` or a `switch` begins at the index.
pub fn begin_head(
    alloc: Global,
    source: &Source<'_>,
    ends: &[u32],
    scopes: &mut Scopes,
    place: &mut Place,
    to: u32,
    i: usize,
) -> Result<(), Memory>
    requires few { i < 4294967296 }
    requires ends { ends.now ≡ statement_ends source.now 0 source.now.tokens }
    ensures { IfOk result (λ _. read scopes.new place.new ≡ head_begun source.now to i (read scopes.old place.old)) }
{
    if !may_declare_in_head(source, i) {
        let behind = behind_head(source, i);
        return pass(alloc, source, scopes, place, to, i + 1, behind);
    }
    let item = item_in(source, scopes, i + 2);
    begin_for_item(alloc, source, ends, scopes, place, to, i, item)
}
