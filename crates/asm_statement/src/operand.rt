//! One operand or clobber of an asm statement.

ghost use Rattle.std.specs.Prelude.{◌≡◌, ◌<◌, ◌≤◌, ℕ, length, drop, IfOk};
ghost use Rattle.asm_statement.specs.Operands.{literals_end_at, constrained, operand_at, clobber_at};
ghost use Rattle.asm_statement.specs.Ends.{GivesForm};

use crate::class::Class;
use crate::form_end::FormEnd;
use crate::literal::{name_at, quoted_at};
use crate::source::{Source, class_of};
use asm_core::{Part, Quoted};
use std::alloc::Global;

/// An operand, and the index behind it.
#[derive(Drop)]
pub struct Operand {
    pub part: Part,
    pub end: usize,
}

/// A clobber, and the index behind it.
#[derive(Drop)]
pub struct Clobber {
    pub quoted: Quoted,
    pub end: usize,
}

/// The index behind the adjacent literals from `first` on; those with a prefix count only where that is asked for.
#[tactic(auto, using(crate::proofs::OperandLemmas::literals_steps))]
pub fn literals_end(source: &Source<'_>, first: usize, prefixed: bool) -> usize
    ensures is { result ≡ literals_end_at prefixed source.now.text.now source.now.tokens.now first }
    ensures after { first ≤ result }
    ensures within { first < result → result ≤ length source.now.tokens.now }
{
    let mut i = first;
    while i < source.tokens.len() {
        if !class_of(source.text, &source.tokens[i]).is_literal(prefixed) {
            return i;
        }
        i += 1;
    }
    i
}

/// What stands behind the `[name]` of an operand: literals, and an expression in parentheses.
#[tactic(auto, unfolding(crate::specs::Operands::constrained))]
fn constrained(
    alloc: Global,
    source: &Source<'_>,
    name: Option<Quoted>,
    first: usize,
) -> Result<Operand, FormEnd>
    ensures is { GivesForm result (constrained source.now.text.now source.now.tokens.now name first) }
    ensures further { IfOk result (λ x. first < x.end) }
{
    let open = literals_end(source, first, false);
    if first == open || !source.class_at(open).is_open_paren() {
        return Err(FormEnd::OtherForm);
    }
    let Some(close) = source.closer_at(open) else {
        return Err(FormEnd::OtherForm);
    };
    if close <= open + 1 {
        return Err(FormEnd::OtherForm);
    }
    let part = Part {
        name,
        constraint: quoted_at(alloc, source, first, open)?,
        expr: source.span_of(open + 1, close - 1),
    };
    Ok(Operand {
        part,
        end: close + 1,
    })
}

/// The operand at an index.
#[tactic(auto, unfolding(crate::specs::Operands::operand_at))]
pub fn operand_at(alloc: Global, source: &Source<'_>, i: usize) -> Result<Operand, FormEnd>
    ensures is { GivesForm result (operand_at source.now.text.now source.now.tokens.now i) }
    ensures further { IfOk result (λ x. i < x.end) }
{
    if !source.class_at(i).is_open_bracket() {
        return constrained(alloc, source, None, i);
    }
    if !source.class_at(i + 1).is_name() || !source.class_at(i + 2).is_close_bracket() {
        return Err(FormEnd::OtherForm);
    }
    let name = name_at(alloc, source, i + 1)?;
    constrained(alloc, source, Some(name), i + 3)
}

/// The clobber at an index.
#[tactic(auto, unfolding(crate::specs::Operands::clobber_at))]
pub fn clobber_at(alloc: Global, source: &Source<'_>, i: usize) -> Result<Clobber, FormEnd>
    ensures is { GivesForm result (clobber_at source.now.text.now source.now.tokens.now i) }
    ensures further { IfOk result (λ x. i < x.end) }
{
    let end = literals_end(source, i, false);
    if end == i {
        return Err(FormEnd::OtherForm);
    }
    let quoted = quoted_at(alloc, source, i, end)?;
    Ok(Clobber { quoted, end })
}
