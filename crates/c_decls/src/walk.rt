//! From the first token of a file to its last.

ghost use Rattle.std.specs.Prelude.{◌≡◌, ◌<◌, IfOk, length};
ghost use Rattle.c_words.specs.File.{file_of};
ghost use Rattle.c_words.specs.Words.{word_at};
ghost use Rattle.c_reader.specs.declared.next.Next.TheVariants.{More};
ghost use Rattle.c_decls.specs.Progress.{read};
ghost use Rattle.c_types.specs.Extents.{AllAligned};
ghost use Rattle.c_decls.specs.Statements.{statement_ends};
ghost use Rattle.c_decls.specs.Walk.{begun, begun_at, begun_outside, declarations_of, outer_begun, walk_step};

use crate::block_items::{begin_in_block, pass};
use crate::declaring::declare_or_hide;
use crate::ends::behind_semicolon;
use crate::place::{END_OF_FILE, Frame, Place};
use crate::sealed::hide_sealed;
use crate::statements::statement_ends;
use asm_core::Memory;
use c_reader::marks::is_semicolon;
use c_scopes::Scopes;
use c_tokens::Tokens;
use c_types::Tags;
use c_words::{Source, Word};
use std::alloc::Global;

/// What begins at the index at file level, but for a static assertion.
fn begin_outer(
    alloc: Global,
    source: &Source<'_>,
    scopes: &mut Scopes,
    place: &mut Place,
    i: usize,
) -> Result<(), Memory>
    requires { i < length source.now.tokens }
    ensures { IfOk result (λ _. read scopes.new place.new ≡ outer_begun source.now i (read scopes.old place.old) (word_at source.now i)) }
{
    if is_semicolon(source.word(i)) {
        place.begin_item(i + 1);
        return Ok(());
    }
    let ending = declare_or_hide(alloc, source, scopes, END_OF_FILE, i)?;
    place.go_on(source, i, ending)
}

/// What begins at the index at file level.
fn begin_outside(
    alloc: Global,
    source: &Source<'_>,
    scopes: &mut Scopes,
    place: &mut Place,
    i: usize,
) -> Result<(), Memory>
    requires { i < length source.now.tokens }
    ensures { IfOk result (λ _. read scopes.new place.new ≡ begun_outside source.now i (read scopes.old place.old) (word_at source.now i)) }
{
    match source.word(i) {
        Word::StaticAssert => {
            let end = behind_semicolon(source, i);
            pass(alloc, source, scopes, place, END_OF_FILE, i, end)
        }
        _ => begin_outer(alloc, source, scopes, place, i),
    }
}

/// An item begins at the index, or the innermost block ends there.
fn begin(
    alloc: Global,
    source: &Source<'_>,
    ends: &[u32],
    scopes: &mut Scopes,
    place: &mut Place,
    i: usize,
    innermost: Option<Frame>,
) -> Result<(), Memory>
    requires inside { i < length source.now.tokens }
    requires ends { ends.now ≡ statement_ends source.now 0 source.now.tokens }
    ensures { IfOk result (λ _. read scopes.new place.new ≡ begun source.now i (read scopes.old place.old) innermost) }
{
    let Some(frame) = innermost else {
        return begin_outside(alloc, source, scopes, place, i);
    };
    if frame.close == i {
        place.leave();
        return Ok(());
    }
    let to = source.end(frame.close);
    begin_in_block(alloc, source, ends, scopes, place, to, i)
}

/// An item begins at the index, or the innermost block ends there, unless the token is one to be passed.
fn begin_at(
    alloc: Global,
    source: &Source<'_>,
    ends: &[u32],
    scopes: &mut Scopes,
    place: &mut Place,
    i: usize,
) -> Result<(), Memory>
    requires inside { i < length source.now.tokens }
    requires ends { ends.now ≡ statement_ends source.now 0 source.now.tokens }
    ensures { IfOk result (λ _. read scopes.new place.new ≡ begun_at source.now i (read scopes.old place.old)) }
{
    if i < place.next {
        return Ok(());
    }
    let innermost = place.last_frame();
    begin(alloc, source, ends, scopes, place, i, innermost)
}

/// One token. The result is the index at which to go on.
#[tactic(auto, unfolding(crate::specs::Walk::walk_step))]
fn walk_step(
    alloc: Global,
    source: &Source<'_>,
    ends: &[u32],
    scopes: &mut Scopes,
    place: &mut Place,
    i: usize,
) -> Result<usize, Memory>
    requires inside { i < length source.now.tokens }
    requires few { i < 4294967296 }
    requires ends { ends.now ≡ statement_ends source.now 0 source.now.tokens }
    ensures is { IfOk result (λ next. More (read scopes.new place.new) next ≡ walk_step source.now i (read scopes.old place.old)) }
    ensures further { IfOk result (λ next. i < next) }
{
    begin_at(alloc, source, ends, scopes, place, i)?;
    if place.is_sealed(i) {
        return Ok(source.past(i));
    }
    if place.is_unread(source, i) {
        hide_sealed(alloc, source, scopes, i)?;
        return Ok(source.past(i));
    }
    place.pass(source, i)?;
    Ok(i + 1)
}

/// What the tokens declare.
#[tactic(auto, using(crate::proofs::WalkLemmas::walk_steps))]
fn walk(alloc: Global, source: &Source<'_>) -> Result<Scopes, Memory>
    ensures { IfOk result (λ s. s ≡ declarations_of source.now) }
{
    let ends = statement_ends(alloc, source)?;
    let mut scopes = Scopes::new(alloc);
    let mut place = Place::new(alloc);
    let mut i = 0;
    while i < source.len() {
        i = walk_step(alloc, source, ends.as_slice(), &mut scopes, &mut place, i)?;
    }
    Ok(scopes)
}

/// Reads all declarations of a file: what each name means at each of its places, and its structs and unions.
///
/// `t` are the tokens of `text`, the bytes of the file. The one error is want of memory: a declaration that isn't covered leaves its names
/// without a type.
pub fn scopes(alloc: Global, t: &Tokens, text: &[u8]) -> Result<Scopes, Memory>
    requires short { length text.now < 4294967295 }
    requires few { length t.now.list < 4294967296 }
    ensures { IfOk result (λ s. s ≡ declarations_of (file_of text.now t.now.list)) }
{
    let source = Source::new(alloc, text, t)?;
    walk(alloc, &source)
}

/// The structs and unions of a file, in the order in which they are declared.
pub fn tags(s: &Scopes) -> &Tags
    ensures is { result.now ≡ s.now.tags }
    ensures sound { AllAligned result.now }
{
    s.tags()
}
