//! The elements of a template outside comments.

ghost use Rattle.std.specs.Prelude.{◌≡◌, ◌≤◌, ◌==◌, ◌&&◌, not, length, map, IfOk};
ghost use Rattle.asm_core.specs.Comments.{kept, uncommented};
ghost use Rattle.asm_core.specs.Lists.{optional_at};
ghost use Rattle.asm_core.specs.Pieces.{piece_code};
ghost use Rattle.asm_core.specs.Reading.Facts.{atom_of};
ghost use Rattle.asm_core.specs.Reading.Operands.{atom_code};
ghost use Rattle.att_reader.specs.Elements.{atoms_under};

use crate::facts::facts;
use crate::leaf::leaf_of;
use asm_core::{Atom, Interface, Leaf, Memory, OperandFacts, Piece, Shape};
use asm_template::comments::comments;
use std::alloc::{AllocError, Global};

/// A piece's code: a byte, 1 for `%=`, 0 for an operand; a byte below 2, which means nothing, counts as 2.
fn piece_code(piece: &Piece) -> u8
    ensures { result ≡ piece_code piece.now }
{
    match *piece {
        Piece::Byte(byte, _) => byte.max(2),
        Piece::Hole(_, _, _) => 0,
        Piece::Unique(_) => 1,
    }
}

/// The facts of operand `k`.
fn fact_at(facts: &[Option<OperandFacts>], k: u8) -> Option<OperandFacts>
    ensures { result ≡ optional_at facts.now k }
{
    match facts.get(usize::from(k)) {
        Some(fact) => *fact,
        None => None,
    }
}

/// A piece with what it stands for.
fn atom_of(facts: &[Option<OperandFacts>], piece: &Piece) -> Atom
    ensures { result ≡ atom_of (optional_at facts.now) piece.now }
{
    let piece = *piece;
    match piece {
        Piece::Byte(_, _) | Piece::Unique(_) => Atom {
            piece,
            leaf: Leaf::Nothing,
        },
        Piece::Hole(k, modifier, _) => Atom {
            piece,
            leaf: leaf_of(fact_at(facts, k), modifier),
        },
    }
}

fn piece_codes(alloc: Global, pieces: &[Piece]) -> Result<Vec<u8>, AllocError>
    ensures { IfOk result (λ codes. codes.items ≡ map piece_code pieces.now) }
{
    pieces.iter().map(piece_code).collect(alloc)
}

/// Whether it is in a comment and no newline.
fn is_dropped(inside: bool, piece: &Piece) -> bool
    ensures { result ≡ (inside && not (piece_code piece.now == 10)) }
{
    inside && piece_code(piece) != b'\n'
}

/// What is left without comments; the newlines in them go on parting lines.
#[tactic(auto, using(crate::proofs::ElementLemmas::kept_steps))]
fn kept(alloc: Global, pieces: &[Piece], marks: &[bool]) -> Result<Vec<Piece>, Memory>
    requires { length marks.now ≡ length pieces.now }
    ensures { IfOk result (λ left. left.items ≡ kept piece_code pieces.now marks.now) }
{
    let mut left = Vec::new(alloc);
    for (i, piece) in pieces.iter().enumerate() {
        if is_dropped(marks[i], piece) {
            continue;
        }
        left.push(*piece)?;
    }
    Ok(left)
}

/// The pieces outside comments.
#[tactic(auto, using(crate::proofs::ElementLemmas::marks_length))]
fn uncommented(alloc: Global, pieces: &[Piece]) -> Result<Vec<Piece>, Memory>
    ensures { IfOk result (λ left. left.items ≡ uncommented piece_code pieces.now) }
{
    let codes = piece_codes(alloc, pieces)?;
    let marks = comments(alloc, &codes)?;
    kept(alloc, pieces, &marks)
}

fn atoms_of(
    alloc: Global,
    facts: &[Option<OperandFacts>],
    pieces: &[Piece],
) -> Result<Vec<Atom>, AllocError>
    ensures { IfOk result (λ atoms. atoms.items ≡ map (atom_of (optional_at facts.now)) pieces.now) }
{
    pieces
        .iter()
        .map(|piece| atom_of(facts, piece))
        .collect(alloc)
}

/// The code of each element.
pub fn codes_of(alloc: Global, atoms: &[Atom]) -> Result<Vec<u8>, AllocError>
    ensures { IfOk result (λ codes. codes.items ≡ map atom_code atoms.now) }
{
    let mut codes = Vec::new(alloc);
    for atom in atoms {
        codes.push(piece_code(&atom.piece))?;
    }
    Ok(codes)
}

/// The elements of pieces outside comments, under a shape.
#[tactic(auto, using(crate::proofs::FactLemmas::atoms_same))]
pub fn elements(
    alloc: Global,
    pieces: &[Piece],
    interface: &Interface,
    shape: &Shape,
) -> Result<Vec<Atom>, Memory>
    requires { length interface.now.operands ≤ 30 }
    ensures { IfOk result (λ atoms. atoms.items ≡ atoms_under interface.now shape.now pieces.now) }
{
    let facts = facts(alloc, interface, shape)?;
    let left = uncommented(alloc, pieces)?;
    Ok(atoms_of(alloc, &facts, &left)?)
}
