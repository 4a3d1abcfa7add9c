//! What stands between the parentheses of an asm statement.

ghost use Rattle.std.specs.Prelude.{◌≡◌, ◌+◌, ◌<◌, ◌≤◌, length, count_by, nat_le, IfOk};
ghost use Rattle.asm_core.specs.Parts.{is_in_out, operand_count};
ghost use Rattle.asm_statement.specs.Parts.{template_at, parts_at};
ghost use Rattle.asm_statement.specs.Ends.{GivesForm};

use crate::form_end::FormEnd;
use crate::list::{clobber_section, operand_section};
use crate::literal::quoted;
use crate::operand::literals_end;
use crate::source::Source;
use crate::template::template;
use asm_core::{Memory, Part, Parts, Quoted};
use c_literals::LiteralEnd;
use std::alloc::Global;

/// The most operands that a statement may have, those that are both read and written counted twice.
const MAX_OPERANDS: usize = 30;

/// A template's bytes, and the offset of the leftmost form in it that is in no table.
#[derive(Drop)]
pub struct Template {
    pub quoted: Quoted,
    pub bad: Option<u32>,
}

/// The template whose literals stand from the index `first` up to `end`.
#[tactic(auto, unfolding(crate::specs::Parts::template_at))]
fn template_at(
    alloc: Global,
    source: &Source<'_>,
    first: usize,
    end: usize,
) -> Result<Template, Memory>
    requires { (first < end) × (end ≤ length source.now.tokens.now) }
    ensures { IfOk result (λ t. t ≡ template_at source.now.text.now source.now.tokens.now first end) }
{
    let span = source.span_of(first, end - 1);
    match template(alloc, source.text, &source.tokens[first..end]) {
        Ok(raws) => Ok(Template {
            quoted: quoted(alloc, &raws, span)?,
            bad: None,
        }),
        Err(LiteralEnd::Bad(offset)) => Ok(Template {
            quoted: quoted(alloc, &[], span)?,
            bad: Some(offset),
        }),
        Err(LiteralEnd::Memory) => Err(Memory),
    }
}

/// Whether the output is read too: its constraint begins with `+`.
fn is_in_out(output: &Part) -> bool
    ensures { result ≡ is_in_out output.now }
{
    output.constraint.bytes.as_slice().first() == Some(&b'+')
}

/// How many outputs are read too.
fn in_outs(outputs: &[Part]) -> usize
    ensures is { result ≡ count_by is_in_out outputs.now }
    ensures within { result ≤ length outputs.now }
{
    outputs.iter().filter(|output| is_in_out(output)).count()
}

/// Whether there are at most as many operands as a statement may have.
fn are_few(outputs: &[Part], inputs: &[Part]) -> bool
    ensures { result ≡ nat_le (operand_count outputs.now inputs.now) 30 }
{
    outputs.len() + in_outs(outputs) + inputs.len() <= MAX_OPERANDS
}

/// The parts of the statement whose opening parenthesis stands before the index `first`.
#[tactic(auto, unfolding(crate::specs::Parts::parts_at))]
pub fn parts_at(alloc: Global, source: &Source<'_>, first: usize) -> Result<Parts, FormEnd>
    ensures { GivesForm result (parts_at source.now.text.now source.now.tokens.now first) }
{
    let end = literals_end(source, first, true);
    if end == first || !source.class_at(end).is_colon() {
        return Err(FormEnd::OtherForm);
    }
    let template = template_at(alloc, source, first, end)?;
    let outputs = operand_section(alloc, source, end)?;
    let inputs = operand_section(alloc, source, outputs.end)?;
    let clobbers = clobber_section(alloc, source, inputs.end)?;
    if !source.class_at(clobbers.end).is_close_paren() {
        return Err(FormEnd::OtherForm);
    }
    if !are_few(outputs.list.as_slice(), inputs.list.as_slice()) {
        return Err(FormEnd::OtherForm);
    }
    let second = u8::from(source.class_at(outputs.end).is_colon());
    let third = u8::from(source.class_at(inputs.end).is_colon());
    Ok(Parts {
        template: template.quoted,
        outputs: outputs.list,
        inputs: inputs.list,
        clobbers: clobbers.list,
        colons: 1 + second + third,
        last: source.end_at(clobbers.end.saturating_sub(1)),
        bad_template: template.bad,
    })
}
