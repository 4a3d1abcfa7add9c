//! What begins in a block or at file level (C11 6.8.2, 6.9; GNU C's extensions).

ghost use Rattle.std.specs.Prelude.{◌≡◌, ◌<◌, ◌≤◌, length};
ghost use Rattle.c_words.specs.Words.{word_at};
ghost use Rattle.c_decls.specs.Items.{attribute_item, attributed, behind_extensions, is_extension, is_hidden, is_untyped, item_at, item_behind, item_by, item_or_attributed, may_declare, name_item, declares_in_parentheses, specifier_item};

use c_reader::marks::{is_colon, is_open_paren, is_semicolon, is_star};
use c_reader::{Reader, attributes_at, opens_attribute};
use c_scopes::{name_kind, visible};
use c_words::{Source, Word};

/// What begins at a token.
#[derive(Clone, Copy)]
pub enum Item {
    Declaration,
    /// A declaration that isn't covered.
    Uncovered,
    /// A statement or a label.
    Statement,
}

/// The index behind each `__extension__` from the index on.
#[tactic(auto, using(crate::proofs::ItemLemmas::extension_steps))]
pub fn behind_extensions(source: &Source<'_>, first: usize) -> usize
    ensures { result ≡ behind_extensions source.now first }
{
    let mut i = first;
    while i < source.len() {
        if !is_extension(source.word(i)) {
            return i;
        }
        i += 1;
    }
    i
}

/// Whether it is `__extension__`.
fn is_extension(word: Word) -> bool
    ensures { result ≡ is_extension word }
{
    matches!(word, Word::Extension)
}

/// What begins with an attribute at the index: attributes alone are a statement, as `__attribute__((fallthrough));`.
fn attribute_item(source: &Source<'_>, i: usize) -> Item
    ensures { result ≡ attribute_item source.now i }
{
    if is_semicolon(source.word(attributes_at(source, i).end)) {
        Item::Statement
    } else {
        Item::Declaration
    }
}

/// What begins at the index by whether a specifier of a declaration stands there.
fn specifier_item(reader: &Reader<'_>, i: usize) -> Item
    ensures { result ≡ specifier_item reader.now.source.now reader.now.scopes.now i }
{
    if reader.begins_specifier(i) {
        Item::Declaration
    } else {
        Item::Statement
    }
}

/// Whether the name at the index has no type: it isn't declared, or what it means isn't known.
fn is_untyped(reader: &Reader<'_>, i: usize) -> bool
    ensures { result ≡ is_untyped reader.now.source.now reader.now.scopes.now i }
{
    let source = reader.source;
    visible(reader.scopes, source.bytes(i), source.start(i)).is_none()
}

/// Whether the name at the index is declared without a type.
fn is_hidden(reader: &Reader<'_>, i: usize) -> bool
    ensures { result ≡ is_hidden reader.now.source.now reader.now.scopes.now i }
{
    let source = reader.source;
    name_kind(reader.scopes, source.bytes(i), source.start(i)).is_some() && is_untyped(reader, i)
}

/// Whether a parenthesis behind the name at the index goes with a declarator, or with what stands before one.
fn declares_in_parentheses(reader: &Reader<'_>, i: usize) -> bool
    requires { i < 4294967296 }
    ensures { result ≡ declares_in_parentheses reader.now.source.now reader.now.scopes.now i }
{
    let source = reader.source;
    is_open_paren(source.word(i + 1))
        && (is_hidden(reader, i) || source.is_name_token(source.past(i + 1)))
}

/// Whether the name at the index, which is no typedef name, may stand for a type and declare what stands behind it.
fn may_declare(reader: &Reader<'_>, i: usize) -> bool
    requires { i < 4294967296 }
    ensures { result ≡ may_declare reader.now.source.now reader.now.scopes.now i }
{
    (is_star(reader.source.word(i + 1)) && is_untyped(reader, i))
        || declares_in_parentheses(reader, i)
}

/// What begins with the name at the index.
fn name_item(reader: &Reader<'_>, i: usize) -> Item
    requires { i < 4294967296 }
    ensures { result ≡ name_item reader.now.source.now reader.now.scopes.now i }
{
    if is_colon(reader.source.word(i + 1)) {
        return Item::Statement;
    }
    if reader.begins_specifier(i) {
        return Item::Declaration;
    }
    if reader.source.is_name_token(i + 1) || may_declare(reader, i) {
        Item::Uncovered
    } else {
        Item::Statement
    }
}

/// What begins at an attribute of C23, which isn't covered, before such an item.
fn attributed(item: Item) -> Item
    ensures { result ≡ attributed item }
{
    match item {
        Item::Statement => Item::Statement,
        Item::Declaration | Item::Uncovered => Item::Uncovered,
    }
}

/// What begins at the index, where neither `__extension__` nor an attribute of C23 stands: a declaration where a specifier does; one that
/// isn't covered where a word of such ones stands, two names, of which the first is no keyword, or a name without a type that may
/// declare; else a statement or a label.
fn item_behind(reader: &Reader<'_>, i: usize) -> Item
    ensures { result ≡ item_behind reader.now.source.now reader.now.scopes.now i }
{
    match reader.source.word(i) {
        Word::Uncovered => Item::Uncovered,
        Word::Attribute => attribute_item(reader.source, i),
        Word::Name => name_item(reader, i),
        _ => specifier_item(reader, i),
    }
}

/// What begins at the index, behind its `__extension__`s.
#[tactic(auto, unfolding(crate::specs::Items::item_at))]
pub fn item_at(reader: &Reader<'_>, first: usize) -> Item
    ensures { result ≡ item_at reader.now.source.now reader.now.scopes.now first }
{
    let source = reader.source;
    let i = behind_extensions(source, first);
    if opens_attribute(source, i) {
        return attributed(item_behind(reader, source.past(i)));
    }
    item_behind(reader, i)
}
