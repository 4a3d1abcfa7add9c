//! The registers and operands whose companies differ between shapes.

ghost use Rattle.std.specs.Prelude.{◌≡◌, ◌<◌, not, bit_or, fold, map, slice_get, IfOk};
ghost use Rattle.std.specs.List.{list_any};
ghost use Rattle.asm_core.specs.Lists.{count_from};
ghost use Rattle.asm_core.specs.Placement.{is_output};
ghost use Rattle.asm_core.specs.WellFormed.{IsInterface};
ghost use Rattle.asm_core.specs.Company.{all_places, same_in_register};
ghost use Rattle.blk_check.specs.Readable.{registers, same_of_operand, register_differs, operand_differs, register_bit, operand_bit, differing, output_differs_at, some_output_differs};

use asm_core::{Interface, Items, Memory, Named, Places, Reg, RegSet, Role, Shape};
use asm_places::{all_places, same_in_register, same_of_operand};
use bitflags::Flags;
use std::alloc::Global;

/// Where each operand is under each of the shapes.
pub fn places_under(
    alloc: Global,
    interface: &Interface,
    shapes: &[Shape],
) -> Result<Items<Items<Places>>, Memory>
    requires { IsInterface interface.now }
    ensures { IfOk result (λ places. places ≡ map (all_places interface.now) shapes.now) }
{
    let mut places = Items::new(alloc);
    for shape in shapes {
        places.push(all_places(alloc, interface, shape)?)?;
    }
    Ok(places)
}

fn some_other(register: Reg, first: &[Places], others: &[Items<Places>]) -> bool
    ensures { result ≡ list_any (λ q. not (same_in_register register first.now q)) others.now }
{
    others.iter().any(|other| !same_in_register(register, first, other.as_slice()))
}

/// Whether the register's company differs between two of the shapes.
fn register_differs(places: &[Items<Places>], register: Reg) -> bool
    ensures { result ≡ register_differs places.now register }
{
    match places {
        [] => false,
        [first, others @ ..] => some_other(register, first.as_slice(), others),
    }
}

fn some_other_of(k: usize, first: &[Places], others: &[Items<Places>]) -> bool
    ensures { result ≡ list_any (λ q. not (same_of_operand k first.now q)) others.now }
{
    others
        .iter()
        .any(|other| !same_of_operand(k, first, other.as_slice()))
}

/// Whether the operand's company differs between two of the shapes.
fn operand_differs(places: &[Items<Places>], k: usize) -> bool
    ensures { result ≡ operand_differs places.now k }
{
    match places {
        [] => false,
        [first, others @ ..] => some_other_of(k, first.as_slice(), others),
    }
}

fn register_bit(places: &[Items<Places>], register: Reg) -> u8
    ensures { result ≡ register_bit places.now register }
{
    if register_differs(places, register) {
        1 << register.number()
    } else {
        0
    }
}

fn operand_bit(places: &[Items<Places>], k: usize) -> u32
    requires { k < 32 }
    ensures { result ≡ operand_bit places.now k }
{
    if operand_differs(places, k) {
        1 << k
    } else {
        0
    }
}

fn register_bits(places: &[Items<Places>]) -> u8
    ensures { result ≡ fold (λ bits r. bit_or bits (register_bit places.now r)) 0 registers }
{
    register_bit(places, Reg::Eax)
        | register_bit(places, Reg::Ebx)
        | register_bit(places, Reg::Ecx)
        | register_bit(places, Reg::Edx)
        | register_bit(places, Reg::Esi)
        | register_bit(places, Reg::Edi)
        | register_bit(places, Reg::Ebp)
}

#[tactic(auto, using(asm_core::proofs::CountLaws::counted_more, asm_core::proofs::CountLaws::counted_all))]
fn operand_bits(interface: &Interface, places: &[Items<Places>]) -> u32
    requires { IsInterface interface.now }
    ensures { result ≡ fold (λ bits k. bit_or bits (operand_bit places.now k)) 0 (count_from 0 interface.now.operands) }
{
    let mut bits = 0;
    for (k, _operand) in interface.operands.as_slice().iter().enumerate() {
        bits |= operand_bit(places, k);
    }
    bits
}

/// The registers and the operands whose company differs between two of the shapes, whose operands are at these places.
#[tactic(auto, unfolding(crate::specs::Readable::differing))]
pub fn differing(interface: &Interface, places: &[Items<Places>]) -> Named
    requires { IsInterface interface.now }
    ensures { result ≡ differing interface.now places.now }
{
    Named {
        regs: RegSet::from_bits_retain(register_bits(places)),
        operands: operand_bits(interface, places),
    }
}

fn is_output(role: Role) -> bool
    ensures { result ≡ is_output role }
{
    matches!(role, Role::Out | Role::InOut)
}

/// Whether operand k is an output whose company differs.
fn output_differs_at(interface: &Interface, places: &[Items<Places>], k: usize) -> bool
    ensures { result ≡ output_differs_at places.now k (slice_get interface.now.operands k) }
{
    match interface.operands.get(k) {
        None => false,
        Some(operand) => is_output(operand.role) && operand_differs(places, k),
    }
}

/// Whether the company of an output differs between two of the shapes.
#[tactic(auto, using(asm_core::proofs::CountLaws::counted_more, asm_core::proofs::CountLaws::counted_all))]
pub fn some_output_differs(interface: &Interface, places: &[Items<Places>]) -> bool
    ensures { result ≡ some_output_differs interface.now places.now }
{
    for (k, _operand) in interface.operands.as_slice().iter().enumerate() {
        if output_differs_at(interface, places, k) {
            return true;
        }
    }
    false
}
