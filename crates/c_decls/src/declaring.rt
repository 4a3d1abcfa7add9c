//! Declarations and what they declare.

ghost use Rattle.std.specs.Prelude.{◌≡◌, ◌≤◌, IfOk};
ghost use Rattle.c_decls.specs.Progress.{read};
ghost use Rattle.c_decls.specs.Declarations.{StandsIn, attributes_of, declaration_at, declaration_or_hidden, declared_type, entity_of, hidden_declaration, name_declared, specified_again};

use crate::declarators::declare_all;
use crate::hiding::{Hidden, declare};
use crate::members::{name_of, specifiers_in};
use crate::recovery::{Uncovered, uncovered_at};
use crate::tag_declarations::declare_lone_tag;
use crate::tag_names::name_tags_within;
use crate::uncovered::hide_declaration;
use asm_core::Memory;
use c_reader::marks::is_semicolon;
use c_reader::{Asked, Declarator, Specifiers, attributes_from};
use c_scopes::{Entity, NameKind, Scopes};
use c_types::CType;
use c_words::Source;
use std::alloc::Global;

/// How many levels of nesting a declaration or an expression may have (this project's own).
pub const MOST_NESTING: u32 = 64;

/// Where a declaration ends.
#[derive(Clone, Copy)]
pub enum Ending {
    /// Before the token with this index.
    Behind(usize),
    /// At the body of a function, whose opening brace has this index.
    Body(usize),
    /// It isn't covered: it ends before the token with the first index, at the braces whose opening one has the second.
    Skipped(usize, Option<usize>),
    /// It isn't covered.
    Uncovered,
}

fn entity_of(s: &Specifiers) -> Entity
    ensures { result ≡ entity_of s.now }
{
    Entity::Name(if s.is_typedef {
        NameKind::Typedef
    } else {
        NameKind::Other
    })
}

/// The attributes of the declaration and of the declarator, those behind it and its asm label among them.
pub fn attributes_of(source: &Source<'_>, s: &Specifiers, d: &Declarator) -> Asked
    ensures is { result ≡ attributes_of source.now s.now d.now }
    ensures behind { d.now.end ≤ result.end }
{
    attributes_from(
        source,
        s.attributes.both(d.attributes),
        source.behind_asm_label(d.end),
    )
}

/// The type of the declared name. `None` where it isn't known, and for a register variable with an asm label: it is placed by it, and not by
/// the compiler alone (GCC manual, "Explicit Register Variables").
fn declared_type(source: &Source<'_>, s: &Specifiers, d: Declarator, asked: Asked) -> Option<CType>
    ensures { result ≡ declared_type source.now s.now d asked }
{
    if s.is_register && source.behind_asm_label(d.end) != d.end {
        return None;
    }
    asked.attributes.typed(s.is_typedef, d.ctype)
}

/// Declares the declarator's name, which is seen from the end of its declarator on (C11 6.2.1, 7). The result is the index behind its attributes.
pub fn declare_name(
    alloc: Global,
    source: &Source<'_>,
    scopes: &mut Scopes,
    to: u32,
    s: &Specifiers,
    d: Declarator,
) -> Result<usize, Memory>
    ensures is { IfOk result (λ _. scopes.new ≡ name_declared source.now to s.now d scopes.old) }
    ensures ended { IfOk result (λ end. end ≡ (attributes_of source.now s.now d).end) }
    ensures behind { IfOk result (λ end. d.end ≤ end) }
{
    let asked = attributes_of(source, s, &d);
    let name = name_of(source, d.name);
    let from = source.end(d.end.saturating_sub(1));
    let ctype = declared_type(source, s, d, asked);
    declare(alloc, scopes, name, entity_of(s), ctype, from, to)?;
    Ok(asked.end)
}

/// The declaration whose specifiers begin at the index, in which the tags are declared.
fn specified_again(
    alloc: Global,
    source: &Source<'_>,
    scopes: &mut Scopes,
    to: u32,
    i: usize,
) -> Result<Ending, Memory>
    ensures is { IfOk result (λ e. read scopes.new e ≡ specified_again source.now to i scopes.old) }
    ensures inside { IfOk result (λ e. StandsIn source.now e) }
{
    let Some(s) = specifiers_in(alloc, source, scopes, MOST_NESTING, i)? else {
        return Ok(Ending::Uncovered);
    };
    if is_semicolon(source.word(s.end)) {
        return Ok(Ending::Behind(s.end + 1));
    }
    declare_all(alloc, source, scopes, to, &s)
}

/// Declares what the declaration at the index declares. The tags among its specifiers are declared before its type is known.
#[tactic(auto, unfolding(crate::specs::Declarations::declaration_at))]
fn declaration_at(
    alloc: Global,
    source: &Source<'_>,
    scopes: &mut Scopes,
    to: u32,
    i: usize,
) -> Result<Ending, Memory>
    ensures is { IfOk result (λ e. read scopes.new e ≡ declaration_at source.now to i scopes.old) }
    ensures inside { IfOk result (λ e. StandsIn source.now e) }
{
    let Some(s) = specifiers_in(alloc, source, scopes, MOST_NESTING, i)? else {
        return Ok(Ending::Uncovered);
    };
    declare_lone_tag(alloc, source, scopes, to, i)?;
    name_tags_within(alloc, source, scopes, to, MOST_NESTING, i, s.end)?;
    specified_again(alloc, source, scopes, to, i)
}

/// Hides the names of the declaration at the index, which isn't covered, in the scope that ends at the offset `to`.
pub fn declare_hidden(
    alloc: Global,
    source: &Source<'_>,
    scopes: &mut Scopes,
    to: u32,
    first: usize,
) -> Result<Ending, Memory>
    ensures is { IfOk result (λ e. read scopes.new e ≡ hidden_declaration source.now to first scopes.old) }
    ensures inside { IfOk result (λ e. StandsIn source.now e) }
{
    let Uncovered { end, braces } = uncovered_at(source, first);
    let hidden = Hidden {
        first,
        end,
        braces,
        to,
    };
    hide_declaration(alloc, source, scopes, hidden)?;
    Ok(Ending::Skipped(end, braces))
}

/// Declares what the declaration at the index declares, in the scope that ends at the offset `to`. The names of one that isn't covered are hidden.
pub fn declare_or_hide(
    alloc: Global,
    source: &Source<'_>,
    scopes: &mut Scopes,
    to: u32,
    i: usize,
) -> Result<Ending, Memory>
    ensures is { IfOk result (λ e. read scopes.new e ≡ declaration_or_hidden source.now to i scopes.old) }
    ensures inside { IfOk result (λ e. StandsIn source.now e) }
{
    match declaration_at(alloc, source, scopes, to, i)? {
        Ending::Uncovered => declare_hidden(alloc, source, scopes, to, i),
        ending => Ok(ending),
    }
}
