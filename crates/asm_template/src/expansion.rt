//! The text of a template under a placement.

ghost use Rattle.std.specs.Prelude.{◌≡◌, ◌++◌, Ok, IfOk, IfErr, OnOk, length, map};
ghost use Rattle.asm_core.specs.Pieces.{piece_code};
ghost use Rattle.asm_core.specs.Expansion.{expansion_of, expansion_with, piece_text, with_origin};
ghost use Rattle.asm_template.specs.Answers.{AppendsText, FailsText, GivesText};

use crate::ExpandEnd;
use crate::comments::comments;
use crate::printing::operand_text;
use asm_core::{Interface, Items, Modifier, Piece, Placement, Sign};
use std::alloc::{AllocError, Global};

/// The origin of the number that `%=` gives.
const UNIQUE: u16 = 255;

/// A template's text under a placement.
#[derive(Debug, Drop)]
pub struct Expanded {
    pub text: Items<Sign>,
}

/// What a template's operands and its `%=` are.
#[derive(Clone, Copy)]
struct Placed<'a> {
    interface: &'a Interface,
    placement: &'a Placement,
    unique: u32,
}

/// The byte of a piece, 0 for an operand, 1 for `%=`. The bytes below 2, which mean nothing, count as 2.
fn piece_code(piece: &Piece) -> u8
    ensures { result ≡ piece_code piece.now }
{
    match *piece {
        Piece::Byte(byte, _) => byte.max(2),
        Piece::Hole(_, _, _) => 0,
        Piece::Unique(_) => 1,
    }
}

/// What each piece is among bytes.
pub fn piece_codes(alloc: Global, pieces: &[Piece]) -> Result<Vec<u8>, AllocError>
    ensures { IfOk result (λ codes. codes.items ≡ map piece_code pieces.now) }
{
    pieces.iter().map(piece_code).collect(alloc)
}

/// Appends bytes of one origin.
fn append(signs: &mut Vec<Sign>, origin: u16, text: &[u8]) -> Result<(), AllocError>
    ensures { OnOk result (signs.new.items ≡ signs.old.items ++ with_origin origin text.now) }
{
    for byte in text {
        signs.push(Sign {
            byte: *byte,
            origin,
        })?;
    }
    Ok(())
}

/// Appends what a piece gives. An operand without a name prints `?` in a comment.
fn append_piece(
    alloc: Global,
    signs: &mut Vec<Sign>,
    placed: &Placed<'_>,
    inside: bool,
    piece: &Piece,
) -> Result<(), ExpandEnd>
    ensures { AppendsText signs.old.items signs.new.items result
        (piece_text placed.now.interface.now placed.now.placement.now placed.now.unique inside piece.now) }
{
    let (k, modifier) = match *piece {
        Piece::Byte(byte, _) => return Ok(append(signs, 0, &[byte])?),
        Piece::Unique(_) => {
            let number = format!(in alloc; "{}", placed.unique)?;
            return Ok(append(signs, UNIQUE, number.as_bytes())?);
        }
        Piece::Hole(k, modifier, _) => (k, modifier),
    };
    match operand_text(alloc, placed.interface, placed.placement, k, modifier)? {
        Some(text) => Ok(append(signs, u16::from(k) + 1, text.as_bytes())?),
        None if inside => Ok(append(signs, u16::from(k) + 1, b"?")?),
        None => Err(ExpandEnd::NoName(k)),
    }
}

/// The text of pieces, each with whether it stands in a comment.
#[tactic(auto, using(crate::proofs::ExpansionLemmas::expansion_steps))]
fn signs(
    alloc: Global,
    placed: &Placed<'_>,
    pieces: &[Piece],
    marks: &[bool],
) -> Result<Vec<Sign>, ExpandEnd>
    requires { length marks.now ≡ length pieces.now }
    ensures ok { IfOk result (λ signs.
        expansion_with placed.now.interface.now placed.now.placement.now placed.now.unique pieces.now marks.now
        ≡ Ok signs.items) }
    ensures err { IfErr result (λ end.
        FailsText end
        (expansion_with placed.now.interface.now placed.now.placement.now placed.now.unique pieces.now marks.now)) }
{
    let mut signs = Vec::new(alloc);
    for (k, piece) in pieces.iter().enumerate() {
        append_piece(alloc, &mut signs, placed, marks[k], piece)?;
    }
    Ok(signs)
}

/// A template's text under a placement, each byte with where it comes from (GCC manual, "x86 Operand Modifiers").
/// `unique` is the number that `%=` gives. In a comment an operand without the name that is asked for prints `?`, which
/// is this project's own rule.
///
/// # Errors
/// The first operand outside comments that has no such name where it is placed; or want of memory.
pub fn expand(
    alloc: Global,
    pieces: &[Piece],
    interface: &Interface,
    placement: &Placement,
    unique: u32,
) -> Result<Expanded, ExpandEnd>
    ensures exact { GivesText result (expansion_of interface.now placement.now unique pieces.now) }
{
    let codes = piece_codes(alloc, pieces)?;
    let marks = comments(alloc, &codes)?;
    let placed = Placed {
        interface,
        placement,
        unique,
    };
    let text = signs(alloc, &placed, pieces, &marks)?;
    Ok(Expanded {
        text: Items::from_vec(text),
    })
}
