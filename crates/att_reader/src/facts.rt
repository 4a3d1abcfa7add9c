//! What the reading of a template knows of its operands under a shape.

ghost use Rattle.std.specs.Prelude.{◌≡◌, ◌≤◌, length, map, IfOk};
ghost use Rattle.std.specs.List.{range_with_len};
ghost use Rattle.std.specs.Option.{option_copied};
ghost use Rattle.asm_core.specs.Reading.Facts.{allows_byte_names, alternative_at, facts_from, facts_of, fixed_register, only_register};
ghost use Rattle.asm_core.specs.Placement.{tie_root};

use asm_core::{AltIface, Interface, Kind, Memory, OperandFacts, OperandIface, Reg, RegSet, Shape};
use bitflags::Flags;
use std::alloc::Global;

/// The register of a set of one.
fn only_register(set: RegSet) -> Option<Reg>
    ensures { result ≡ only_register set }
{
    match set.bits() {
        1 => Some(Reg::Eax),
        2 => Some(Reg::Ebx),
        4 => Some(Reg::Ecx),
        8 => Some(Reg::Edx),
        16 => Some(Reg::Esi),
        32 => Some(Reg::Edi),
        64 => Some(Reg::Ebp),
        _ => None,
    }
}

/// The one register that letters allow, and eax for the pair.
fn fixed_register(allowed: &AltIface) -> Option<Reg>
    ensures { result ≡ fixed_register allowed.now }
{
    if !allowed.pair {
        return only_register(allowed.regs);
    }
    if allowed.regs.bits() == 0 {
        Some(Reg::Eax)
    } else {
        None
    }
}

/// Whether eax, ebx, ecx or edx may be it.
fn allows_byte_names(allowed: &AltIface) -> bool
    ensures { result ≡ allows_byte_names allowed.now }
{
    allowed.pair || allowed.regs.bits() % 16 != 0
}

/// What the alternative allows the operand, if there is one.
fn alternative_at(operand: Option<&OperandIface>, alternative: u32) -> Option<AltIface>
    ensures { result ≡ alternative_at (option_copied operand.entry) alternative }
{
    match operand {
        Some(operand) => operand.alts.get(alternative as usize).copied(),
        None => None,
    }
}

/// The output that operand `k` is tied to, or else itself.
fn tie_root(interface: &Interface, shape: &Shape, k: u8) -> u8
    ensures { result ≡ tie_root interface.now shape.now k }
{
    match alternative_at(interface.operands.get(usize::from(k)), shape.alternative) {
        Some(allowed) => allowed.tied.unwrap_or(k),
        None => k,
    }
}

/// The facts of an operand of that size, all but the size those of its root.
fn facts_from(
    size: u32,
    root: u8,
    output: Option<&OperandIface>,
    allowed: Option<AltIface>,
    kind: Option<Kind>,
) -> Option<OperandFacts>
    ensures { result ≡ facts_from size root (option_copied output.entry) allowed kind }
{
    let (Some(output), Some(allowed), Some(kind)) = (output, allowed, kind) else {
        return None;
    };
    Some(OperandFacts {
        kind,
        size,
        known: output.known,
        fixed: fixed_register(&allowed),
        has_byte_names: allows_byte_names(&allowed),
        root,
    })
}

/// The facts of operand `k` under the shape: a tied operand has its own size, and all else of its output.
#[tactic(auto, unfolding(asm_core::specs::Reading::Facts::facts_of))]
fn facts_of(interface: &Interface, shape: &Shape, k: u8) -> Option<OperandFacts>
    ensures { result ≡ facts_of interface.now shape.now k }
{
    let root = tie_root(interface, shape, k);
    let Some(operand) = interface.operands.get(usize::from(k)) else {
        return None;
    };
    let output = interface.operands.get(usize::from(root));
    let allowed = alternative_at(output, shape.alternative);
    let kind = shape.kinds.as_slice().get(usize::from(root)).copied();
    facts_from(operand.size, root, output, allowed, kind)
}

/// The facts of each operand.
#[tactic(auto, using(crate::proofs::FactLemmas::facts_more))]
pub fn facts(
    alloc: Global,
    interface: &Interface,
    shape: &Shape,
) -> Result<Vec<Option<OperandFacts>>, Memory>
    requires { length interface.now.operands ≤ 30 }
    ensures { IfOk result (λ facts. facts.items ≡ map (facts_of interface.now shape.now) (range_with_len 0 (length interface.now.operands))) }
{
    let mut facts = Vec::new(alloc);
    for k in 0..interface.operands.len() {
        facts.push(facts_of(interface, shape, k as u8))?;
    }
    Ok(facts)
}
