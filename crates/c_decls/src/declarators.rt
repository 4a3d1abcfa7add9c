//! The declarators of a declaration, one after the other, and what follows each.

ghost use Rattle.std.specs.Prelude.{◌≡◌, ◌<◌, IfOk, length};
ghost use Rattle.c_scopes.specs.Seen.{Declared};
ghost use Rattle.c_reader.specs.declared.next.Next.TheVariants.{Done};
ghost use Rattle.c_decls.specs.Progress.{read};
ghost use Rattle.c_decls.specs.Declarations.{GoesOn, StandsIn, again, begins_body, behind_declarator, body_parameters, declarator_step, declarators_declared, declaring, initialised, is_function, next_declarator};

use crate::declaring::{Ending, MOST_NESTING, attributes_of, declare_name};
use crate::ends::{Stop, level_end};
use crate::hiding::hide_bodies;
use crate::members::declarator_in;
use crate::parameters::declare_parameters;
use crate::tag_names::name_tags_within;
use asm_core::Memory;
use c_reader::marks::{is_assign, is_comma, is_open_brace, is_semicolon};
use c_reader::{Declarator, Next, Specifiers};
use c_scopes::Scopes;
use c_types::CType;
use c_words::Source;
use std::alloc::Global;

/// What follows a declarator or its initialiser.
fn next_declarator(source: &Source<'_>, i: usize) -> Next<(), Ending>
    ensures is { (seen : Declared) → declaring seen result ≡ next_declarator source.now i seen }
    ensures further { GoesOn source.now i result }
{
    let word = source.word(i);
    if is_comma(word) {
        return Next::More((), i + 1);
    }
    if is_semicolon(word) {
        return Next::Done(Ending::Behind(i + 1));
    }
    Next::Done(Ending::Uncovered)
}

/// The initialiser behind the `=` at the index goes to the next comma or semicolon at its level.
fn initialised(
    alloc: Global,
    source: &Source<'_>,
    scopes: &mut Scopes,
    to: u32,
    assign: usize,
) -> Result<Next<(), Ending>, Memory>
    requires { assign < 4294967296 }
    ensures is { IfOk result (λ next. declaring scopes.new next ≡ initialised source.now to assign scopes.old) }
    ensures further { IfOk result (λ next. GoesOn source.now assign next) }
{
    let end = level_end(source, Stop::Comma, assign + 1);
    hide_bodies(alloc, source, scopes, to, assign + 1, end)?;
    Ok(next_declarator(source, end))
}

/// Whether it is a function's type.
fn is_function(t: &CType) -> bool
    ensures { result ≡ is_function t.now }
{
    matches!(t, CType::Function(_))
}

/// The parenthesis of the parameters of a function whose body may follow the declarator at the index (C11 6.9.1). Only the first declarator
/// of a declaration may be that of one.
fn body_parameters(s: &Specifiers, j: usize, d: &Declarator) -> Option<usize>
    ensures { result ≡ body_parameters s.now j d.now }
{
    if s.end == j && !s.is_typedef && is_function(&d.ctype) {
        d.parameters
    } else {
        None
    }
}

/// The brace of a function's body with the parenthesis of its parameters, if a body may stand there.
fn begins_body(
    alloc: Global,
    source: &Source<'_>,
    scopes: &mut Scopes,
    paren: Option<usize>,
    brace: usize,
) -> Result<Ending, Memory>
    ensures is { IfOk result (λ e. declaring scopes.new (Done e) ≡ begins_body source.now paren brace scopes.old) }
    ensures inside { brace < length source.now.tokens → IfOk result (λ e. StandsIn source.now e) }
{
    let Some(paren) = paren else {
        return Ok(Ending::Uncovered);
    };
    declare_parameters(alloc, source, scopes, paren, brace)?;
    Ok(Ending::Body(brace))
}

/// What follows a declarator and its attributes, at the index `i`.
fn behind_declarator(
    alloc: Global,
    source: &Source<'_>,
    scopes: &mut Scopes,
    to: u32,
    paren: Option<usize>,
    i: usize,
) -> Result<Next<(), Ending>, Memory>
    ensures is { IfOk result (λ next. declaring scopes.new next ≡ behind_declarator source.now to paren i scopes.old) }
    ensures further { IfOk result (λ next. GoesOn source.now i next) }
{
    let word = source.word(i);
    if is_assign(word) {
        return initialised(alloc, source, scopes, to, i);
    }
    if is_open_brace(word) {
        return Ok(Next::Done(begins_body(alloc, source, scopes, paren, i)?));
    }
    Ok(next_declarator(source, i))
}

/// The declarator at the index, in which the tags are declared.
fn declare_again(
    alloc: Global,
    source: &Source<'_>,
    scopes: &mut Scopes,
    to: u32,
    s: &Specifiers,
    j: usize,
) -> Result<Next<(), Ending>, Memory>
    ensures is { IfOk result (λ next. declaring scopes.new next ≡ again source.now to s.now j scopes.old) }
    ensures further { IfOk result (λ next. GoesOn source.now j next) }
{
    let Some(d) = declarator_in(alloc, source, scopes, MOST_NESTING, s, j)? else {
        return Ok(Next::Done(Ending::Uncovered));
    };
    let paren = body_parameters(s, j, &d);
    let end = declare_name(alloc, source, scopes, to, s, d)?;
    behind_declarator(alloc, source, scopes, to, paren, end)
}

/// The declarator at the index, and what follows it. Its tags are declared before its type is known.
#[tactic(auto, unfolding(crate::specs::Declarations::declarator_step))]
fn declarator_step(
    alloc: Global,
    source: &Source<'_>,
    scopes: &mut Scopes,
    to: u32,
    s: &Specifiers,
    j: usize,
) -> Result<Next<(), Ending>, Memory>
    ensures is { IfOk result (λ next. declaring scopes.new next ≡ declarator_step source.now to s.now j scopes.old) }
    ensures further { IfOk result (λ next. GoesOn source.now j next) }
{
    let Some(d) = declarator_in(alloc, source, scopes, MOST_NESTING, s, j)? else {
        return Ok(Next::Done(Ending::Uncovered));
    };
    let end = attributes_of(source, s, &d).end;
    name_tags_within(alloc, source, scopes, to, MOST_NESTING, j, end)?;
    hide_bodies(alloc, source, scopes, to, j, end)?;
    declare_again(alloc, source, scopes, to, s, j)
}

/// Declares what the declarators behind these specifiers declare.
#[tactic(auto, using(crate::proofs::DeclaringLemmas::declarator_steps))]
pub fn declare_all(
    alloc: Global,
    source: &Source<'_>,
    scopes: &mut Scopes,
    to: u32,
    s: &Specifiers,
) -> Result<Ending, Memory>
    ensures is { IfOk result (λ e. read scopes.new e ≡ declarators_declared source.now to s.now scopes.old) }
    ensures inside { IfOk result (λ e. StandsIn source.now e) }
{
    let mut j = s.end;
    while j < source.len() {
        match declarator_step(alloc, source, scopes, to, s, j)? {
            Next::Done(ending) => return Ok(ending),
            Next::More((), next) => {
                j = next;
                continue;
            }
        }
    }
    Ok(Ending::Uncovered)
}
