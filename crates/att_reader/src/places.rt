//! How many instructions a template has, and where they stand.

ghost use Rattle.std.specs.Prelude.{◌≡◌, ◌≤◌, length, IfOk};
ghost use Rattle.asm_core.specs.Reading.Cut.{instruction_count};
ghost use Rattle.asm_core.specs.Reading.Line.{place_from, places_of};
ghost use Rattle.att_reader.specs.Raws.{raws_as};

use crate::raw::Raw;
use crate::text::Text;
use asm_core::{Items, Memory, Piece};
use std::alloc::Global;

/// How many instructions there are.
pub fn instruction_count(raws: &[Raw<'_>]) -> usize
    ensures { result ≡ instruction_count (raws_as raws.now) }
{
    let mut count = 0;
    for raw in raws {
        match raw {
            Raw::Label(_) => {}
            Raw::Dead(_) | Raw::Live(_) => count += 1,
        }
    }
    count
}

/// The offset in the file at which the text begins.
pub fn place_from(text: Text<'_>) -> u32
    ensures { result ≡ place_from text.entry.atoms.now }
{
    let Some(atom) = text.atoms.first() else {
        return 0;
    };
    match atom.piece {
        Piece::Byte(_, at) | Piece::Hole(_, _, at) | Piece::Unique(at) => at,
    }
}

/// The offset in the file of each instruction's first byte.
pub fn places(alloc: Global, raws: &[Raw<'_>]) -> Result<Vec<u32>, Memory>
    ensures { IfOk result (λ places. places.items ≡ places_of (raws_as raws.now)) }
{
    let mut places = Vec::new(alloc);
    for raw in raws {
        match raw {
            Raw::Label(_) => {}
            Raw::Dead(from) => places.push(place_from(*from))?,
            Raw::Live(instruction) => places.push(place_from(instruction.from))?,
        }
    }
    Ok(places)
}
