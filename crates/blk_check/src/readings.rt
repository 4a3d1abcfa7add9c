//! The lines of a template under each shape.

ghost use Rattle.std.specs.Prelude.{◌≡◌, length, All, IfOk};
ghost use Rattle.asm_core.specs.Pieces.{ArePieces};
ghost use Rattle.asm_core.specs.WellFormed.{IsInterface};
ghost use Rattle.blk_check.specs.Readable.{GivesReadings, IsShort, readings_under};

use asm_core::{Interface, Items, Lines, LinesEnd, Piece, Shape};
use att_reader::read_lines;
use std::alloc::Global;

/// The lines under each of the shapes.
///
/// # Errors
/// `TooMany` exactly where there are more than 512; `Memory`.
pub fn readings(
    alloc: Global,
    pieces: &[Piece],
    interface: &Interface,
    shapes: &[Shape],
) -> Result<Items<Lines>, LinesEnd>
    requires interface { IsInterface interface.now }
    requires pieces { ArePieces (length interface.now.operands) pieces.now }
    ensures is { GivesReadings result (readings_under interface.now pieces.now shapes.now) }
    ensures short { IfOk result (All IsShort) }
{
    read_all(alloc, pieces, interface, shapes)
}

#[tactic(auto, using(crate::proofs::ReadingLaws::reading_steps))]
fn read_all(
    alloc: Global,
    pieces: &[Piece],
    interface: &Interface,
    shapes: &[Shape],
) -> Result<Items<Lines>, LinesEnd>
    requires interface { IsInterface interface.now }
    requires pieces { ArePieces (length interface.now.operands) pieces.now }
    ensures { GivesReadings result (readings_under interface.now pieces.now shapes.now) }
{
    let mut readings = Items::new(alloc);
    for shape in shapes {
        readings.push(read_lines(alloc, pieces, interface, shape)?)?;
    }
    Ok(readings)
}
