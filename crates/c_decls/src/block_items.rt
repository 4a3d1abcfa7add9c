//! What begins in a block: declarations, labels and statements (C11 6.8.2).

ghost use Rattle.std.specs.Prelude.{◌≡◌, ◌<◌, IfOk, length};
ghost use Rattle.c_words.specs.Words.{word_at};
ghost use Rattle.c_decls.specs.Progress.{read};
ghost use Rattle.c_decls.specs.Statements.{statement_ends};
ghost use Rattle.c_decls.specs.Declarations.{StandsIn};
ghost use Rattle.c_decls.specs.Items.{item_at};
ghost use Rattle.c_decls.specs.Walk.{attribute_begun, begun_by, declared_by, item_declared, other_begun, passed};

use crate::declaring::{Ending, declare_hidden, declare_or_hide};
use crate::ends::{behind_case, behind_semicolon};
use crate::for_head::{begin_for, begin_head};
use crate::hiding::hide_bodies;
use crate::items::{Item, item_at};
use crate::place::Place;
use crate::statements::behind_statement;
use asm_core::Memory;
use c_reader::marks::{is_colon, is_name, is_open_brace, is_semicolon};
use c_reader::{Reader, opens_attribute};
use c_scopes::Scopes;
use c_words::{Source, Word};
use std::alloc::Global;

/// Passes over an expression and what belongs to it, from one index up to another.
pub fn pass(
    alloc: Global,
    source: &Source<'_>,
    scopes: &mut Scopes,
    place: &mut Place,
    to: u32,
    i: usize,
    end: usize,
) -> Result<(), Memory>
    ensures { IfOk result (λ _. read scopes.new place.new ≡ passed source.now to i end (read scopes.old place.old)) }
{
    hide_bodies(alloc, source, scopes, to, i, end)?;
    place.begin_item(end);
    Ok(())
}

/// What begins at the index in a block.
pub fn item_in(source: &Source<'_>, scopes: &Scopes, i: usize) -> Item
    ensures { result ≡ item_at source.now scopes.now i }
{
    let reader = Reader { source, scopes };
    item_at(&reader, i)
}

/// Declares what the declaration at the index declares, covered or not.
pub fn declare_by(
    alloc: Global,
    source: &Source<'_>,
    scopes: &mut Scopes,
    to: u32,
    i: usize,
    item: Item,
) -> Result<Ending, Memory>
    ensures is { IfOk result (λ e. read scopes.new e ≡ declared_by source.now to i scopes.old item) }
    ensures inside { IfOk result (λ e. StandsIn source.now e) }
{
    match item {
        Item::Declaration => declare_or_hide(alloc, source, scopes, to, i),
        _ => declare_hidden(alloc, source, scopes, to, i),
    }
}

/// A declaration or a statement begins at the index.
fn begin_item(
    alloc: Global,
    source: &Source<'_>,
    scopes: &mut Scopes,
    place: &mut Place,
    to: u32,
    i: usize,
    item: Item,
) -> Result<(), Memory>
    requires { i < 4294967296 }
    ensures { IfOk result (λ _. read scopes.new place.new ≡ item_declared source.now to i (read scopes.old place.old) item) }
{
    match item {
        Item::Statement => pass(
            alloc,
            source,
            scopes,
            place,
            to,
            i,
            behind_statement(source, i),
        ),
        _ => {
            let ending = declare_by(alloc, source, scopes, to, i, item)?;
            place.go_on(source, i, ending)
        }
    }
}

/// A declaration or a statement begins at the attributes of C23 at the index. An item begins again behind a statement's.
fn begin_attributed(
    alloc: Global,
    source: &Source<'_>,
    scopes: &mut Scopes,
    place: &mut Place,
    to: u32,
    i: usize,
    item: Item,
) -> Result<(), Memory>
    requires { i < 4294967296 }
    ensures { IfOk result (λ _. read scopes.new place.new ≡ attribute_begun source.now to i (read scopes.old place.old) item) }
{
    match item {
        Item::Statement => {
            place.begin_item(source.past(i));
            Ok(())
        }
        _ => begin_item(alloc, source, scopes, place, to, i, item),
    }
}

/// What begins at the index in a block, with no keyword of a statement: an empty statement, a block, a label, a declaration or a statement.
fn begin_other(
    alloc: Global,
    source: &Source<'_>,
    scopes: &mut Scopes,
    place: &mut Place,
    to: u32,
    i: usize,
) -> Result<(), Memory>
    requires { i < length source.now.tokens }
    ensures { IfOk result (λ _. read scopes.new place.new ≡ other_begun source.now to i (read scopes.old place.old) (word_at source.now i)) }
{
    let word = source.word(i);
    if is_semicolon(word) {
        place.begin_item(i + 1);
        return Ok(());
    }
    if is_open_brace(word) {
        return place.enter_block(source, i);
    }
    if is_name(word) && is_colon(source.word(i + 1)) {
        place.begin_item(i + 2);
        return Ok(());
    }
    let item = item_in(source, scopes, i);
    if opens_attribute(source, i) {
        return begin_attributed(alloc, source, scopes, place, to, i, item);
    }
    begin_item(alloc, source, scopes, place, to, i, item)
}

/// What begins at the index in a block that ends at the offset `to`.
pub fn begin_in_block(
    alloc: Global,
    source: &Source<'_>,
    ends: &[u32],
    scopes: &mut Scopes,
    place: &mut Place,
    to: u32,
    i: usize,
) -> Result<(), Memory>
    requires inside { i < length source.now.tokens }
    requires ends { ends.now ≡ statement_ends source.now 0 source.now.tokens }
    ensures { IfOk result (λ _. read scopes.new place.new ≡ begun_by source.now to i (read scopes.old place.old) (word_at source.now i)) }
{
    match source.word(i) {
        Word::For => begin_for(alloc, source, ends, scopes, place, to, i),
        Word::Head => begin_head(alloc, source, ends, scopes, place, to, i),
        Word::Lead => {
            place.begin_item(i + 1);
            Ok(())
        }
        Word::Case | Word::Default => {
            pass(alloc, source, scopes, place, to, i, behind_case(source, i))
        }
        Word::StaticAssert => {
            pass(
                alloc,
                source,
                scopes,
                place,
                to,
                i,
                behind_semicolon(source, i),
            )
        }
        _ => begin_other(alloc, source, scopes, place, to, i),
    }
}
