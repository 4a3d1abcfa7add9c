//! The instructions of a template under a shape.

ghost use Rattle.std.specs.Prelude.{◌≡◌, ◌≤◌, length, map, IfOk, OnOk};
ghost use Rattle.asm_core.specs.Pieces.{ArePieces};
ghost use Rattle.asm_core.specs.WellFormed.{IsInterface};
ghost use Rattle.asm_core.specs.Reading.Cut.{instruction_count};
ghost use Rattle.asm_core.specs.Reading.Line.{inst_of_reading, left_out_from, lines_under, lines_with, readings_from, readings_of, targets_from};
ghost use Rattle.asm_core.specs.Reading.Names.{names};
ghost use Rattle.asm_core.specs.Reading.Placed.{ReadsWhole};
ghost use Rattle.asm_core.specs.Reading.UnderShape.{ReadsExactly};
ghost use Rattle.att_reader.specs.Answers.{GivesLines};
ghost use Rattle.att_reader.specs.Named.{BodiesBelow};
ghost use Rattle.att_reader.specs.Raws.{raws_as};
ghost use Rattle.att_reader.specs.Text.{defined};

use crate::cut::raws;
use crate::elements::{codes_of, elements};
use crate::goals::Goals;
use crate::label::labels;
use crate::line::{line_of, push_targets, sym_of};
use crate::named::named;
use crate::places::{instruction_count, place_from, places};
use crate::raw::Raw;
use crate::text::Text;
use asm_core::{
    Interface, Items, JumpTarget, Label, Lines, LinesEnd, Memory, Piece, Reading, Shape, Sym,
};
use std::alloc::Global;

/// How many instructions a template may have.
const MOST: usize = 512;

/// The readings of the instructions.
#[tactic(auto, using(crate::proofs::ReaderLemmas::reading_steps), unfolding(asm_core::specs::Reading::Line::readings_from))]
fn readings(alloc: Global, labels: &[Label], raws: &[Raw<'_>]) -> Result<Vec<Reading>, Memory>
    requires { instruction_count (raws_as raws.now) ≤ 512 }
    ensures { IfOk result (λ readings. readings.items ≡ readings_from names (map defined labels.now) 0 (raws_as raws.now)) }
{
    let mut readings = Vec::new(alloc);
    let mut inst = 0;
    for raw in raws {
        match raw {
            Raw::Label(_) => {}
            Raw::Dead(_) => {
                readings.push(Reading::Unread)?;
                inst += 1;
            }
            Raw::Live(instruction) => {
                let goals = Goals { labels, inst };
                let place = place_from(instruction.from);
                let reading = line_of(alloc, &goals, &instruction.before, place, instruction.body)?;
                readings.push(reading)?;
                inst += 1;
            }
        }
    }
    Ok(readings)
}

/// An instruction before any placement; labels that are not there have the count of instructions.
fn inst_of(alloc: Global, count: u32, reading: &Reading) -> Result<Option<Sym>, Memory>
    ensures { IfOk result (λ inst. inst ≡ inst_of_reading count reading.now) }
{
    match reading {
        Reading::Read(line) => Ok(Some(sym_of(alloc, count, line)?)),
        Reading::LeftOut | Reading::Unread => Ok(None),
    }
}

fn insts(alloc: Global, count: u32, readings: &[Reading]) -> Result<Items<Option<Sym>>, Memory>
    ensures { IfOk result (λ insts. insts ≡ map (inst_of_reading count) readings.now) }
{
    let mut insts = Items::new(alloc);
    for reading in readings {
        insts.push(inst_of(alloc, count, reading)?)?;
    }
    Ok(insts)
}

/// The numbers of the instructions that are left out.
fn left_out(alloc: Global, readings: &[Reading]) -> Result<Items<u32>, Memory>
    requires { length readings.now ≤ 512 }
    ensures { IfOk result (λ numbers. numbers ≡ left_out_from 0 readings.now) }
{
    let mut numbers = Items::new(alloc);
    for (n, reading) in readings.iter().enumerate() {
        match reading {
            Reading::LeftOut => numbers.push(n as u32)?,
            Reading::Read(_) | Reading::Unread => {}
        }
    }
    Ok(numbers)
}

/// The targets of the instructions that jump.
fn targets(alloc: Global, readings: &[Reading]) -> Result<Vec<JumpTarget>, Memory>
    requires { length readings.now ≤ 512 }
    ensures { IfOk result (λ targets. targets.items ≡ targets_from 0 readings.now) }
{
    let mut targets = Vec::new(alloc);
    for (n, reading) in readings.iter().enumerate() {
        match reading {
            Reading::Read(line) => push_targets(&mut targets, n as u32, line)?,
            Reading::LeftOut | Reading::Unread => {}
        }
    }
    Ok(targets)
}

/// The lines of so many instructions.
fn lines(alloc: Global, raws: &[Raw<'_>], count: u32) -> Result<Lines, Memory>
    requires count { count ≡ instruction_count (raws_as raws.now) }
    requires few { count ≤ 512 }
    requires holes { BodiesBelow 32 (raws_as raws.now) }
    ensures { IfOk result (λ lines. lines ≡ lines_with (raws_as raws.now) (readings_of names (raws_as raws.now))) }
{
    let labels = labels(alloc, raws)?;
    let readings = readings(alloc, labels.as_slice(), raws)?;
    Ok(Lines {
        insts: insts(alloc, count, &readings)?,
        places: Items::from_vec(places(alloc, raws)?),
        named: Items::from_vec(named(alloc, raws)?),
        left_out: left_out(alloc, &readings)?,
        labels,
        targets: Items::from_vec(targets(alloc, &readings)?),
    })
}

/// The instructions of a template's pieces under a shape.
///
/// # Errors
/// `TooMany` exactly where there are more than 512; `Memory`.
pub fn read_lines(
    alloc: Global,
    pieces: &[Piece],
    interface: &Interface,
    shape: &Shape,
) -> Result<Lines, LinesEnd>
    requires interface { IsInterface interface.now }
    requires pieces { ArePieces (length interface.now.operands) pieces.now }
    ensures is { GivesLines result (lines_under names interface.now shape.now pieces.now) }
    ensures law { IfOk result (ReadsWhole names interface.now shape.now pieces.now) }
    ensures exactly { IfOk result (ReadsExactly names interface.now shape.now pieces.now) }
{
    let atoms = elements(alloc, pieces, interface, shape)?;
    let codes = codes_of(alloc, &atoms)?;
    let text = Text {
        atoms: &atoms,
        codes: &codes,
    };
    let raws = raws(alloc, text)?;
    let count = instruction_count(&raws);
    if count > MOST {
        return Err(LinesEnd::TooMany);
    }
    Ok(lines(alloc, &raws, count as u32)?)
}
