//! Where statements end (C11 6.8).

ghost use Rattle.std.specs.Prelude.{◌≡◌, ◌+◌, ◌<◌, IfOk, IsTrue, codes, drop, length};
ghost use Rattle.c_decls.specs.declared.ends.Stop.TheVariants.{Semicolon};
ghost use Rattle.c_decls.specs.Ends.{behind_semicolon, level_end};
ghost use Rattle.c_decls.specs.Statements.{behind_else, behind_statement, bracket_end, behind_head, end_among, head_end, lead_end, level_ends, name_end, punct_end, spelt, statement_end_by, statement_ends};

use crate::ends::{self, behind_case, closes};
use asm_core::{Items, Memory};
use c_reader::marks::{
    is_colon, is_name, is_open_brace, is_open_bracket, is_open_paren, is_semicolon,
};
use c_words::{Punct, Source, Word};
use std::alloc::Global;

/// The index behind the parentheses that follow the word at the index, or behind the word.
pub fn behind_head(source: &Source<'_>, i: usize) -> usize
    requires { i < 4294967296 }
    ensures is { result ≡ behind_head source.now i }
    ensures behind { i < result }
    ensures fits { i < length source.now.tokens → result < 4294967296 }
{
    if is_open_paren(source.word(i + 1)) {
        return source.past(i + 1);
    }
    i + 1
}

/// What the list of ends, whose first belongs to the index `first`, says of the index: behind the list's last the index itself.
fn end_among(first: usize, ends: &[u32], i: usize) -> usize
    ensures is { result ≡ end_among first ends.now i }
    ensures fits { i < 4294967296 → result < 4294967296 }
{
    match ends.get(i.saturating_sub(first)) {
        Some(&end) => end as usize,
        None => i,
    }
}

/// The index of the first semicolon at the token's level from it on, or of the bracket that closes around it, by the same for
/// each later token.
#[tactic(auto, using(crate::proofs::EndLemmas::level_steps, crate::proofs::StatementLemmas::level_later))]
fn level_end_by(source: &Source<'_>, later: &[u32], i: usize) -> usize
    requires later { later.now ≡ level_ends source.now (i + 1) (drop (i + 1) source.now.tokens) }
    requires inside { i < length source.now.tokens }
    ensures is { result ≡ level_end source.now Semicolon i }
    ensures fits { result < 4294967296 }
{
    let word = source.word(i);
    if is_semicolon(word) || closes(word) {
        return i;
    }
    end_among(i + 1, later, source.past(i))
}

/// For each token the index of the first semicolon at its level from it on, or of the bracket that closes around it.
#[tactic(auto, using(crate::proofs::StatementLemmas::backward_steps))]
fn level_ends(alloc: Global, source: &Source<'_>) -> Result<Items<u32>, Memory>
    ensures { IfOk result (λ ends. ends ≡ level_ends source.now 0 source.now.tokens) }
{
    let mut ends = vec![in alloc; 0u32; source.len()]?;
    let mut i = source.len();
    while i > 0 {
        i -= 1;
        let end = level_end_by(source, &ends[i + 1..], i);
        ends[i] = end as u32;
    }
    Ok(Items::from_vec(ends))
}

/// The index behind the part that ends at the first semicolon at its level, or of the bracket that closes around it, by the
/// ends of all levels.
#[tactic(auto, using(crate::proofs::StatementLemmas::level_all))]
fn behind_semicolon(source: &Source<'_>, levels: &[u32], i: usize) -> usize
    requires { levels.now ≡ level_ends source.now 0 source.now.tokens }
    ensures is { result ≡ behind_semicolon source.now i }
    ensures fits { i < 4294967296 → result < 4294967296 }
{
    let end = end_among(0, levels, i);
    if is_semicolon(source.word(end)) {
        return end + 1;
    }
    end
}

/// Whether `else` stands at the index.
#[tactic(auto, using(crate::proofs::StatementLemmas::else_past))]
fn is_else(source: &Source<'_>, i: usize) -> bool
    ensures is { result ≡ spelt source.now i (codes "else") }
    ensures inside { IsTrue result → i < length source.now.tokens }
{
    if i >= source.len() {
        return false;
    }
    source.bytes(i) == b"else".as_slice()
}

/// The index behind the `else` at the index and its statement, where an `if` stands before.
fn behind_else(source: &Source<'_>, first: usize, later: &[u32], is_if: bool, i: usize) -> usize
    requires { length source.now.tokens < 4294967296 }
    ensures is { result ≡ behind_else (end_among first later.now) source.now is_if i }
    ensures fits { i < 4294967296 → result < 4294967296 }
{
    if is_if && is_else(source, i) {
        return end_among(first, later, i + 1);
    }
    i
}

/// Where the statement ends that begins with `do` or `else` at the index.
fn lead_end(source: &Source<'_>, levels: &[u32], later: &[u32], i: usize) -> usize
    requires levels { levels.now ≡ level_ends source.now 0 source.now.tokens }
    requires inside { i < length source.now.tokens }
    requires few { length source.now.tokens < 4294967296 }
    ensures is { result ≡ lead_end (end_among (i + 1) later.now) source.now i }
    ensures fits { result < 4294967296 }
{
    let end = end_among(i + 1, later, i + 1);
    if source.bytes(i) == b"do".as_slice() {
        return behind_semicolon(source, levels, end);
    }
    end
}

/// Where the statement ends that begins with a bracket at the index, as an attribute of C23 does.
fn bracket_end(source: &Source<'_>, levels: &[u32], later: &[u32], i: usize) -> usize
    requires levels { levels.now ≡ level_ends source.now 0 source.now.tokens }
    requires inside { i < length source.now.tokens }
    requires few { length source.now.tokens < 4294967296 }
    ensures is { result ≡ bracket_end (end_among (i + 1) later.now) source.now i }
    ensures fits { result < 4294967296 }
{
    if is_open_bracket(source.word(i + 1)) {
        return end_among(i + 1, later, source.past(i));
    }
    behind_semicolon(source, levels, i)
}

/// Where the statement ends that begins with a punctuator at the index.
fn punct_end(source: &Source<'_>, levels: &[u32], later: &[u32], i: usize, punct: Punct) -> usize
    requires levels { levels.now ≡ level_ends source.now 0 source.now.tokens }
    requires inside { i < length source.now.tokens }
    requires few { length source.now.tokens < 4294967296 }
    ensures is { result ≡ punct_end (end_among (i + 1) later.now) source.now i punct }
    ensures fits { result < 4294967296 }
{
    match punct {
        Punct::OpenBrace => source.past(i),
        Punct::OpenBracket => bracket_end(source, levels, later, i),
        Punct::CloseBrace | Punct::CloseParen | Punct::CloseBracket => i,
        _ => behind_semicolon(source, levels, i),
    }
}

/// Where the statement ends that begins with the name at the index, which may be a label.
fn name_end(source: &Source<'_>, levels: &[u32], later: &[u32], i: usize) -> usize
    requires levels { levels.now ≡ level_ends source.now 0 source.now.tokens }
    requires inside { i < length source.now.tokens }
    requires few { length source.now.tokens < 4294967296 }
    ensures is { result ≡ name_end (end_among (i + 1) later.now) source.now i }
    ensures fits { result < 4294967296 }
{
    if is_colon(source.word(i + 1)) {
        return end_among(i + 1, later, i + 2);
    }
    let head = behind_head(source, i);
    if is_open_brace(source.word(head)) {
        return source.past(head);
    }
    behind_semicolon(source, levels, i)
}

/// The index behind the statement at the index, which begins with no keyword. A brace behind a name and its parentheses belongs to a
/// statement of another dialect, which ends with that group.
pub fn behind_statement(source: &Source<'_>, i: usize) -> usize
    requires { i < 4294967296 }
    ensures { result ≡ behind_statement source.now i }
{
    if is_name(source.word(i)) {
        let head = behind_head(source, i);
        if is_open_brace(source.word(head)) {
            return source.past(head);
        }
    }
    ends::behind_semicolon(source, i)
}

/// Where the statement ends that begins with `if`, `while` or `switch` at the index.
fn head_end(source: &Source<'_>, later: &[u32], i: usize) -> usize
    requires inside { i < length source.now.tokens }
    requires few { length source.now.tokens < 4294967296 }
    ensures is { result ≡ head_end (end_among (i + 1) later.now) source.now i }
    ensures fits { result < 4294967296 }
{
    let end = end_among(i + 1, later, behind_head(source, i));
    behind_else(
        source,
        i + 1,
        later,
        source.bytes(i) == b"if".as_slice(),
        end,
    )
}

/// Where the statement ends that begins at the index, by the ends of all levels and where the statements end that begin behind it.
#[tactic(auto, unfolding(crate::specs::Statements::statement_end_by))]
fn statement_end_by(source: &Source<'_>, levels: &[u32], later: &[u32], i: usize) -> usize
    requires levels { levels.now ≡ level_ends source.now 0 source.now.tokens }
    requires inside { i < length source.now.tokens }
    ensures is { result ≡ statement_end_by (end_among (i + 1) later.now) source.now i }
    ensures fits { result < 4294967296 }
{
    match source.word(i) {
        Word::For | Word::Attribute => end_among(i + 1, later, behind_head(source, i)),
        Word::Head => head_end(source, later, i),
        Word::Lead => lead_end(source, levels, later, i),
        Word::Case | Word::Default => end_among(i + 1, later, behind_case(source, i)),
        Word::Name => name_end(source, levels, later, i),
        Word::Punct(punct) => punct_end(source, levels, later, i, punct),
        _ => behind_semicolon(source, levels, i),
    }
}

/// Where the statements end that begin at each token: the index behind the statement's last token.
#[tactic(auto, using(crate::proofs::StatementLemmas::backward_steps))]
pub fn statement_ends(alloc: Global, source: &Source<'_>) -> Result<Items<u32>, Memory>
    ensures { IfOk result (λ ends. ends ≡ statement_ends source.now 0 source.now.tokens) }
{
    let levels = level_ends(alloc, source)?;
    let mut ends = vec![in alloc; 0u32; source.len()]?;
    let mut i = source.len();
    while i > 0 {
        i -= 1;
        let end = statement_end_by(source, levels.as_slice(), &ends[i + 1..], i);
        ends[i] = end as u32;
    }
    Ok(Items::from_vec(ends))
}
