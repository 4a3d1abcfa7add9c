//! What a statement tells the compiler with the items of a patch.

ghost use Rattle.std.specs.Prelude.{◌≡◌, ◌<◌, ◌≤◌, ◌++◌, length, map, fold, bit_or, IfOk};
ghost use Rattle.asm_core.specs.Placement.{is_output};
ghost use Rattle.blk_patch.specs.Items.{role_with, registers_with, alternative_with, operand_with, operands_with, clobber_bit, clobbers_with, registers, with_items};

use crate::Item;
use crate::item::has;
use asm_core::{AltIface, Interface, Items, Memory, OperandIface, Reg, RegSet, Role};
use bitflags::Flags;
use std::alloc::Global;

/// The registers that have byte names.
const LOW_REGISTERS: u8 = 15;

/// What the statement tells the compiler with these items.
#[tactic(auto, unfolding(crate::specs::Items::with_items))]
pub fn with_items(alloc: Global, items: &[Item], interface: &Interface) -> Result<Interface, Memory>
    requires { length interface.now.operands ≤ 30 }
    ensures { IfOk result (λ patched. patched ≡ with_items items.now interface.now) }
{
    Ok(Interface {
        operands: operands_with(alloc, items, interface.operands.as_slice())?,
        clobbers: clobbers_with(items, interface.clobbers),
        cc: interface.cc || has(items, Item::Cc),
        memory: interface.memory || has(items, Item::Memory),
    })
}

#[tactic(auto, using(crate::proofs::InterfaceLaws::operands_begin, crate::proofs::InterfaceLaws::operands_more))]
fn operands_with(
    alloc: Global,
    items: &[Item],
    operands: &[OperandIface],
) -> Result<Items<OperandIface>, Memory>
    requires { length operands.now ≤ 30 }
    ensures { IfOk result (λ patched. patched ≡ operands_with items.now 0 operands.now) }
{
    let mut patched = Items::new(alloc);
    for (k, operand) in operands.iter().enumerate() {
        patched.push(operand_with(alloc, items, k as u8, operand)?)?;
    }
    Ok(patched)
}

/// Operand k with these items.
fn operand_with(
    alloc: Global,
    items: &[Item],
    k: u8,
    operand: &OperandIface,
) -> Result<OperandIface, Memory>
    ensures { IfOk result (λ patched. patched ≡ operand_with items.now k operand.now) }
{
    let output = is_output(operand.role);
    Ok(OperandIface {
        role: role_with(items, k, operand.role),
        size: operand.size,
        pointer: operand.pointer,
        known: operand.known,
        flag: operand.flag,
        alts: alternatives_with(alloc, items, k, output, operand.alts.as_slice())?,
    })
}

fn is_output(role: Role) -> bool
    ensures { result ≡ is_output role }
{
    matches!(role, Role::Out | Role::InOut)
}

fn role_with(items: &[Item], k: u8, role: Role) -> Role
    ensures { result ≡ role_with items.now k role }
{
    match role {
        Role::Out if has(items, Item::Plus(k)) => Role::InOut,
        role => role,
    }
}

fn alternatives_with(
    alloc: Global,
    items: &[Item],
    k: u8,
    output: bool,
    alternatives: &[AltIface],
) -> Result<Items<AltIface>, Memory>
    ensures { IfOk result (λ patched. patched ≡ map (alternative_with items.now k output) alternatives.now) }
{
    let mut patched = Items::new(alloc);
    for alternative in alternatives {
        patched.push(alternative_with(items, k, output, *alternative))?;
    }
    Ok(patched)
}

/// An alternative of operand k, which is an output or not, with these items.
fn alternative_with(items: &[Item], k: u8, output: bool, alternative: AltIface) -> AltIface
    ensures { result ≡ alternative_with items.now k output alternative }
{
    AltIface {
        early: alternative.early || output && has(items, Item::Early(k)),
        regs: registers_with(items, k, alternative.regs),
        ..alternative
    }
}

fn registers_with(items: &[Item], k: u8, registers: RegSet) -> RegSet
    ensures { result ≡ registers_with items.now k registers }
{
    if has(items, Item::Byte(k)) {
        return RegSet::from_bits_retain(registers.bits() & LOW_REGISTERS);
    }
    registers
}

fn clobber_bit(items: &[Item], register: Reg) -> u8
    ensures { result ≡ clobber_bit items.now register }
{
    if has(items, Item::Clobber(register)) {
        1 << register.number()
    } else {
        0
    }
}

fn clobbers_with(items: &[Item], clobbers: RegSet) -> RegSet
    ensures { result ≡ clobbers_with items.now clobbers }
{
    RegSet::from_bits_retain(
        clobbers.bits()
            | clobber_bit(items, Reg::Eax)
            | clobber_bit(items, Reg::Ebx)
            | clobber_bit(items, Reg::Ecx)
            | clobber_bit(items, Reg::Edx)
            | clobber_bit(items, Reg::Esi)
            | clobber_bit(items, Reg::Edi)
            | clobber_bit(items, Reg::Ebp),
    )
}
