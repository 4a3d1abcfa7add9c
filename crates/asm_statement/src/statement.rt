//! The asm statements of a text.

ghost use Rattle.std.specs.Prelude.{◌≡◌, ◌<◌, ◌≤◌, Ok, drop, length, IfOk, All};
ghost use Rattle.asm_core.specs.Parts.{IsBody};
ghost use Rattle.c_tokens.specs.Tokens.{tokens_of};
ghost use Rattle.asm_statement.specs.Laws.{AreAll, AreNested, IsRising, edit_offsets, offsets_of, StandApart};
ghost use Rattle.asm_statement.specs.Statements.{behind_words, close_of, last_of, is_nested, body_of, statement_at, first_of, statements_from, statements_of};

use crate::beginning::{Beginning, beginnings};
use crate::form_end::FormEnd;
use crate::parts::parts_at;
use crate::source::{Source, class_of};
use asm_core::{Body, Items, Mark, MarkKind, Memory, Statement};
use c_tokens::{Tokens, closers};
use std::alloc::Global;

/// The index behind the keyword with this index and the words after it, `goto` only where that is asked for.
#[tactic(auto, using(crate::proofs::StatementLemmas::word_steps))]
fn behind_words(source: &Source<'_>, keyword: u32, goto: bool) -> usize
    ensures { result ≡ behind_words goto source.now.text.now source.now.tokens.now keyword }
{
    let mut i = keyword as usize + 1;
    while i < source.tokens.len() {
        if !class_of(source.text, &source.tokens[i]).is_word(goto) {
            return i;
        }
        i += 1;
    }
    i
}

/// The index of the parenthesis that closes the statement with this keyword.
#[tactic(auto, unfolding(crate::specs::Statements::close_of))]
fn close_of(source: &Source<'_>, keyword: u32) -> Option<usize>
    ensures { result ≡ close_of source.now.text.now source.now.tokens.now keyword }
{
    let open = behind_words(source, keyword, true);
    if source.class_at(open).is_open_paren() {
        return source.closer_at(open);
    }
    None
}

/// The last token of the statement: the keyword where no parenthesis closes.
fn last_of(keyword: u32, close: Option<usize>) -> usize
    ensures { result ≡ last_of keyword close }
{
    match close {
        Some(close) => close,
        None => keyword as usize,
    }
}

/// Whether the next statement begins before this one closes.
fn is_nested(next: Option<usize>, close: Option<usize>) -> bool
    ensures { result ≡ is_nested next close }
{
    match (next, close) {
        (Some(next), Some(close)) => next < close,
        _ => false,
    }
}

/// The parts of a statement, or that it is outside.
#[tactic(auto, unfolding(crate::specs::Statements::body_of))]
fn body_of(
    alloc: Global,
    source: &Source<'_>,
    begun: Beginning,
    next: Option<usize>,
    close: Option<usize>,
) -> Result<Body, Memory>
    ensures { IfOk result (λ b. b ≡ body_of source.now.text.now source.now.tokens.now begun next close) }
{
    let outside = Mark {
        kind: MarkKind::Statement,
        place: source.start_at(begun.at as usize),
    };
    if is_nested(next, close) {
        return Ok(Body::Outside(outside));
    }
    if !begun.in_block || !begun.covered {
        return Ok(Body::Outside(outside));
    }
    let open = behind_words(source, begun.at, false);
    if !source.class_at(open).is_open_paren() {
        return Ok(Body::Outside(outside));
    }
    match parts_at(alloc, source, open + 1) {
        Ok(parts) => Ok(Body::Parts(parts)),
        Err(FormEnd::OtherForm) => Ok(Body::Outside(outside)),
        Err(FormEnd::Memory) => Err(Memory),
    }
}

/// The statement that begins here; `next` is where the next one begins.
#[tactic(auto, unfolding(crate::specs::Statements::statement_at))]
fn statement_at(
    alloc: Global,
    source: &Source<'_>,
    begun: Beginning,
    next: Option<usize>,
) -> Result<Statement, Memory>
    ensures { IfOk result (λ s. s ≡ statement_at source.now.text.now source.now.tokens.now begun next) }
{
    let close = close_of(source, begun.at);
    Ok(Statement {
        span: source.span_of(begun.at as usize, last_of(begun.at, close)),
        body: body_of(alloc, source, begun, next, close)?,
    })
}

/// Where the first of the beginnings from one on is.
#[tactic(auto, using(crate::proofs::StatementLemmas::first_rules))]
fn first_of(begun: &[Beginning], k: usize) -> Option<usize>
    ensures { result ≡ first_of (drop k begun.now) }
{
    if k < begun.len() {
        return Some(begun[k].at as usize);
    }
    None
}

/// The statements that begin at these keywords.
#[tactic(auto, using(crate::proofs::StatementLemmas::statement_steps))]
fn statements_at(
    alloc: Global,
    source: &Source<'_>,
    begun: &[Beginning],
) -> Result<Items<Statement>, Memory>
    ensures { IfOk result (λ list. list ≡ statements_from source.now.text.now source.now.tokens.now begun.now) }
{
    let mut list = Items::new(alloc);
    for (k, beginning) in begun.iter().enumerate() {
        let next = first_of(begun, k + 1);
        list.push(statement_at(alloc, source, *beginning, next)?)?;
    }
    Ok(list)
}

/// The asm statements of a text with these tokens, in order of place.
///
/// A keyword `asm`, `__asm__` or `__asm` begins one where a statement of C may begin; elsewhere it is the label of a
/// declaration. One that isn't of this profile's form is answered as outside, and so is one behind attributes or
/// anywhere behind a token that the compiler cuts otherwise, as a digraph.
pub fn statements(alloc: Global, t: &Tokens, text: &[u8]) -> Result<Items<Statement>, Memory>
    requires tokens { tokens_of text.now ≡ Ok t.now.list }
    requires short { length text.now < 4294967295 }
    // Exactly the definition's statements, unless memory runs out.
    ensures is { IfOk result (λ list. list ≡ statements_of text.now t.now.list) }
    // At most 30 operands, a `+` output counted twice.
    ensures parts { IfOk result (All (λ (s : Statement). IsBody s.body)) }
    // Each keyword begins one of them or stands where none may begin, and each begins with such a keyword.
    ensures keywords { IfOk result (AreAll text.now t.now.list) }
    // They begin one behind the other,
    ensures order { IfOk result (λ list. IsRising 0 (offsets_of list) (length text.now)) }
    // of each two the later stands behind the earlier or inside it,
    ensures nested { IfOk result AreNested }
    // and those with parts stand apart, their parts in order inside them.
    ensures apart { IfOk result (λ list. StandApart 0 list (length text.now)) }
    // So the places at which they may be edited go upwards.
    ensures edits { IfOk result (λ list. IsRising 0 (edit_offsets list) (length text.now)) }
{
    read_statements(alloc, t, text)
}

#[tactic(auto, using(crate::proofs::CountLemmas::count_rules))]
fn read_statements(alloc: Global, t: &Tokens, text: &[u8]) -> Result<Items<Statement>, Memory>
    requires tokens { tokens_of text.now ≡ Ok t.now.list }
    requires short { length text.now < 4294967295 }
    ensures { IfOk result (λ list. list ≡ statements_of text.now t.now.list) }
{
    let closers = closers(alloc, text, t)?;
    let source = Source {
        text,
        tokens: t.list.as_slice(),
        closers: closers.as_slice(),
    };
    let begun = beginnings(alloc, text, source.tokens)?;
    statements_at(alloc, &source, &begun)
}
