//! The clobber list.

ghost use Rattle.std.specs.Prelude.{◌≡◌, ◌<◌, ◌^◌, option_map, find};
ghost use Rattle.asm_core.specs.Reg.{reg_number};
ghost use Rattle.asm_core.specs.Clobber.{bare_name, register_named, is_memory, is_cc, is_unknown, is_register, is_clobbered, register_bit, clobbered_registers};
ghost use Rattle.asm_core.specs.Interface.{clobber_mark, first_clobber_mark};

use asm_core::{Mark, MarkKind, Quoted, Reg, RegSet};
use bitflags::Flags;

/// The name without a percent sign before it.
fn bare_name(name: &[u8]) -> &[u8]
    ensures { result.now ≡ bare_name name.now }
{
    match name {
        [b'%', rest @ ..] => rest,
        _ => name,
    }
}

/// The register of that name.
#[tactic(auto, unfolding(asm_core::specs::Clobber::register_named))]
fn register_named(name: &[u8]) -> Option<Reg>
    ensures { result ≡ register_named name.now }
{
    match bare_name(name) {
        b"eax" | b"ax" | b"al" | b"ah" => Some(Reg::Eax),
        b"ebx" | b"bx" | b"bl" | b"bh" => Some(Reg::Ebx),
        b"ecx" | b"cx" | b"cl" | b"ch" => Some(Reg::Ecx),
        b"edx" | b"dx" | b"dl" | b"dh" => Some(Reg::Edx),
        b"esi" | b"si" => Some(Reg::Esi),
        b"edi" | b"di" => Some(Reg::Edi),
        b"ebp" | b"bp" => Some(Reg::Ebp),
        _ => None,
    }
}

/// Whether the clobber is `memory`.
pub fn is_memory(clobber: &Quoted) -> bool
    ensures { result ≡ is_memory clobber.now }
{
    clobber.bytes.as_slice() == b"memory".as_slice()
}

/// Whether the clobber is `cc`.
pub fn is_cc(clobber: &Quoted) -> bool
    ensures { result ≡ is_cc clobber.now }
{
    clobber.bytes.as_slice() == b"cc".as_slice()
}

#[tactic(auto, unfolding(asm_core::specs::Clobber::is_unknown))]
fn is_unknown(clobber: &Quoted) -> bool
    ensures { result ≡ is_unknown clobber.now }
{
    !(is_memory(clobber) || is_cc(clobber) || register_named(clobber.bytes.as_slice()).is_some())
}

fn is_register(register: Reg, named: Option<Reg>) -> bool
    ensures { result ≡ is_register register named }
{
    match named {
        Some(named) => register.number() == named.number(),
        None => false,
    }
}

/// Whether some clobber names the register.
#[tactic(auto, unfolding(asm_core::specs::Clobber::is_clobbered))]
pub fn is_clobbered(clobbers: &[Quoted], register: Reg) -> bool
    ensures { result ≡ is_clobbered clobbers.now register }
{
    clobbers.iter().any(|clobber| is_register(register, register_named(clobber.bytes.as_slice())))
}

fn register_bit(register: Option<Reg>) -> u8
    ensures { result ≡ register_bit register }
{
    match register {
        Some(register) => 1 << register.number(),
        None => 0,
    }
}

/// The registers that the clobbers name.
#[tactic(auto, unfolding(asm_core::specs::Clobber::clobbered_registers))]
pub fn clobbered_registers(clobbers: &[Quoted]) -> RegSet
    ensures { result ≡ clobbered_registers clobbers.now }
{
    let mut bits = 0;
    for clobber in clobbers {
        bits |= register_bit(register_named(clobber.bytes.as_slice()));
    }
    RegSet::from_bits_retain(bits)
}

fn clobber_mark(clobber: &Quoted) -> Mark
    ensures { result ≡ clobber_mark clobber.now }
{
    Mark {
        kind: MarkKind::Clobber,
        place: clobber.span.from,
    }
}

/// The first clobber that is in no table.
#[tactic(auto, unfolding(asm_core::specs::Interface::first_clobber_mark))]
pub fn first_clobber_mark(clobbers: &[Quoted]) -> Option<Mark>
    ensures { result ≡ first_clobber_mark clobbers.now }
{
    clobbers
        .iter()
        .find(|clobber| is_unknown(clobber))
        .map(clobber_mark)
}
