//! What the text of an instruction names.

ghost use Rattle.std.specs.Prelude.{◌≡◌, ◌≤◌, [], length, IfOk};
ghost use Rattle.std.specs.List.{prefix_len};
ghost use Rattle.asm_core.specs.Pieces.{NamesOneOf};
ghost use Rattle.asm_core.specs.Reading.Cut.{is_word};
ghost use Rattle.asm_core.specs.Reading.Line.{hole_bits, named_in, named_of, set_of, written_registers};
ghost use Rattle.att_reader.specs.Named.{BodiesBelow, HolesBelow, hole_bit, named_bit, register_bit};
ghost use Rattle.att_reader.specs.Raws.{raws_as};
ghost use Rattle.att_reader.specs.Text.{IsText};

use crate::line::name_len;
use crate::raw::Raw;
use crate::register::register_named;
use crate::text::Text;
use asm_core::{Atom, Memory, Named, Piece, Reg, RegSet, Slice};
use bitflags::Flags;
use std::alloc::Global;

/// The bit of the register, if there is one.
fn register_bit(register: Option<(Reg, Slice)>) -> u8
    ensures { result ≡ register_bit register }
{
    match register {
        Some((Reg::Eax, _)) => 1,
        Some((Reg::Ebx, _)) => 2,
        Some((Reg::Ecx, _)) => 4,
        Some((Reg::Edx, _)) => 8,
        Some((Reg::Esi, _)) => 16,
        Some((Reg::Edi, _)) => 32,
        Some((Reg::Ebp, _)) => 64,
        None => 0,
    }
}

/// The bit of the register whose name is the word at the beginning; 0 where it is no register's.
#[tactic(auto, unfolding(crate::specs::Named::named_bit))]
fn named_bit(codes: &[u8]) -> u8
    ensures { result ≡ named_bit codes.now }
{
    let n = name_len(codes);
    register_bit(register_named(&codes[..n]))
}

/// The bits of the registers that are written in the text, each behind its `%`.
#[tactic(auto, using(crate::proofs::NamedLemmas::written_steps))]
fn written_bits(codes: &[u8]) -> u8
    ensures { result ≡ set_of (written_registers codes.now) }
{
    let mut bits = 0;
    for (i, code) in codes.iter().enumerate() {
        if *code != b'%' {
            continue;
        }
        bits |= named_bit(&codes[i + 1..]);
    }
    bits
}

/// The bit of the operand that the piece is a hole of; 0 where it is none.
fn hole_bit(piece: Piece) -> u32
    requires { NamesOneOf 32 piece }
    ensures { result ≡ hole_bit piece }
{
    match piece {
        Piece::Byte(_, _) | Piece::Unique(_) => 0,
        Piece::Hole(k, _, _) => 1 << u32::from(k),
    }
}

/// The bits of the operands that are written as holes.

#[tactic(auto, using(crate::proofs::NamedLemmas::hole_steps))]
fn hole_bits(atoms: &[Atom]) -> u32
    requires { HolesBelow 32 atoms.now }
    ensures { result ≡ hole_bits atoms.now }
{
    let mut bits = 0;
    for atom in atoms {
        bits |= hole_bit(atom.piece);
    }
    bits
}

/// What the text of an instruction names.
fn named_in(text: Text<'_>) -> Named
    requires same { IsText text }
    requires holes { HolesBelow 32 text.atoms.now }
    ensures { result ≡ named_in text.entry.atoms.now }
{
    Named {
        regs: RegSet::from_bits_retain(written_bits(text.codes)),
        operands: hole_bits(text.atoms),
    }
}

/// What an instruction without a reading names.
fn nothing() -> Named
    ensures { result ≡ named_in [] }
{
    Named {
        regs: RegSet::from_bits_retain(0),
        operands: 0,
    }
}

/// What each instruction names.
pub fn named(alloc: Global, raws: &[Raw<'_>]) -> Result<Vec<Named>, Memory>
    requires { BodiesBelow 32 (raws_as raws.now) }
    ensures { IfOk result (λ named. named.items ≡ named_of (raws_as raws.now)) }
{
    let mut named = Vec::new(alloc);
    for raw in raws {
        match raw {
            Raw::Label(_) => {}
            Raw::Dead(_) => named.push(nothing())?,
            Raw::Live(instruction) => named.push(named_in(instruction.body))?,
        }
    }
    Ok(named)
}
