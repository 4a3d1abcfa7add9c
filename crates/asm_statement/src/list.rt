//! The lists behind the colons of an asm statement.

ghost use Rattle.std.specs.Prelude.{◌≡◌, drop};
ghost use Rattle.asm_statement.specs.Operands.{operands_from, clobbers_from};
ghost use Rattle.asm_statement.specs.Parts.{operands_at, clobbers_at, operand_section, clobber_section};
ghost use Rattle.asm_statement.specs.Ends.{GivesForm};

use crate::form_end::FormEnd;
use crate::operand::{clobber_at, operand_at};
use crate::source::Source;
use asm_core::{Items, Part, Quoted};
use std::alloc::Global;

/// Operands, and the index behind them.
#[derive(Drop)]
pub struct Operands {
    pub list: Items<Part>,
    pub end: usize,
}

/// Clobbers, and the index behind them.
#[derive(Drop)]
pub struct Clobbers {
    pub list: Items<Quoted>,
    pub end: usize,
}

/// One or more operands with commas between them.
#[tactic(auto, using(crate::proofs::OperandListLemmas::operand_steps))]
fn operands_from(alloc: Global, source: &Source<'_>, first: usize) -> Result<Operands, FormEnd>
    ensures { GivesForm result (operands_from source.now.text.now source.now.tokens.now first first (drop first source.now.tokens.now)) }
{
    let mut list = Items::new(alloc);
    let mut i = first;
    while i < source.tokens.len() {
        let operand = operand_at(alloc, source, i)?;
        let end = operand.end;
        list.push(operand.part)?;
        if !source.class_at(end).is_comma() {
            return Ok(Operands { list, end });
        }
        i = end + 1;
    }
    Err(FormEnd::OtherForm)
}

/// One or more clobbers with commas between them.
#[tactic(auto, using(crate::proofs::ClobberListLemmas::clobber_steps))]
fn clobbers_from(alloc: Global, source: &Source<'_>, first: usize) -> Result<Clobbers, FormEnd>
    ensures { GivesForm result (clobbers_from source.now.text.now source.now.tokens.now first first (drop first source.now.tokens.now)) }
{
    let mut list = Items::new(alloc);
    let mut i = first;
    while i < source.tokens.len() {
        let clobber = clobber_at(alloc, source, i)?;
        let end = clobber.end;
        list.push(clobber.quoted)?;
        if !source.class_at(end).is_comma() {
            return Ok(Clobbers { list, end });
        }
        i = end + 1;
    }
    Err(FormEnd::OtherForm)
}

fn operands_at(alloc: Global, source: &Source<'_>, i: usize) -> Result<Operands, FormEnd>
    ensures { GivesForm result (operands_at source.now.text.now source.now.tokens.now i) }
{
    if source.class_at(i).ends_list() {
        return Ok(Operands {
            list: Items::new(alloc),
            end: i,
        });
    }
    operands_from(alloc, source, i)
}

fn clobbers_at(alloc: Global, source: &Source<'_>, i: usize) -> Result<Clobbers, FormEnd>
    ensures { GivesForm result (clobbers_at source.now.text.now source.now.tokens.now i) }
{
    if source.class_at(i).ends_list() {
        return Ok(Clobbers {
            list: Items::new(alloc),
            end: i,
        });
    }
    clobbers_from(alloc, source, i)
}

/// The operands behind a colon; none where no colon stands at the index.
#[tactic(auto, unfolding(crate::specs::Parts::operand_section))]
pub fn operand_section(alloc: Global, source: &Source<'_>, i: usize) -> Result<Operands, FormEnd>
    ensures { GivesForm result (operand_section source.now.text.now source.now.tokens.now i) }
{
    if source.class_at(i).is_colon() {
        return operands_at(alloc, source, i + 1);
    }
    Ok(Operands {
        list: Items::new(alloc),
        end: i,
    })
}

/// The clobbers behind a colon; none where no colon stands at the index.
#[tactic(auto, unfolding(crate::specs::Parts::clobber_section))]
pub fn clobber_section(alloc: Global, source: &Source<'_>, i: usize) -> Result<Clobbers, FormEnd>
    ensures { GivesForm result (clobber_section source.now.text.now source.now.tokens.now i) }
{
    if source.class_at(i).is_colon() {
        return clobbers_at(alloc, source, i + 1);
    }
    Ok(Clobbers {
        list: Items::new(alloc),
        end: i,
    })
}
