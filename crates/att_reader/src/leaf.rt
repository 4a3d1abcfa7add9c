//! What a hole stands for under a shape.

ghost use Rattle.std.specs.Prelude.{◌≡◌};
ghost use Rattle.asm_core.specs.Reading.Facts.{disp_of, is_byte_slice, is_fixed_cl, leaf_of, memory_leaf, number_leaf, place_of, register_leaf};

use asm_core::{Disp, Kind, Leaf, Modifier, OperandFacts, Place, Reg, Slice};

fn is_byte_slice(slice: Slice) -> bool
    ensures { result ≡ is_byte_slice slice }
{
    matches!(slice, Slice::Low8 | Slice::High8)
}

fn place_of(fact: OperandFacts) -> Place
    ensures { result ≡ place_of fact }
{
    match fact.fixed {
        Some(register) => Place::Reg(register),
        None => Place::Operand(fact.root),
    }
}

/// Whether it is `%cl` wherever the operand is put.
fn is_fixed_cl(fixed: Option<Reg>, slice: Slice) -> bool
    ensures { result ≡ is_fixed_cl fixed slice }
{
    matches!((fixed, slice), (Some(Reg::Ecx), Slice::Low8))
}

fn register_leaf(fact: OperandFacts, slice: Option<Slice>) -> Leaf
    ensures { result ≡ register_leaf fact slice }
{
    let Some(slice) = slice else {
        return Leaf::Nameless;
    };
    if is_byte_slice(slice) && !fact.has_byte_names {
        Leaf::Nameless
    } else {
        Leaf::Register(place_of(fact), slice, is_fixed_cl(fact.fixed, slice))
    }
}

/// A number that is known stands for itself.
fn disp_of(fact: OperandFacts) -> Disp
    ensures { result ≡ disp_of fact }
{
    match fact.known {
        Some(n) => Disp::Number(n),
        None => Disp::Hole(fact.root),
    }
}

fn number_leaf(fact: OperandFacts, modifier: Modifier) -> Leaf
    ensures { result ≡ number_leaf fact modifier }
{
    match modifier {
        Modifier::H => Leaf::Nameless,
        Modifier::C => Leaf::Bare(disp_of(fact), fact.known),
        Modifier::Plain | Modifier::B | Modifier::W | Modifier::K => Leaf::Immediate(disp_of(fact)),
    }
}

fn memory_leaf(fact: OperandFacts, modifier: Modifier) -> Leaf
    ensures { result ≡ memory_leaf fact modifier }
{
    match modifier {
        Modifier::H | Modifier::C => Leaf::Nameless,
        Modifier::Plain | Modifier::B | Modifier::W | Modifier::K => Leaf::Memory(fact.root, None),
    }
}

/// What a hole with that modifier stands for.
pub fn leaf_of(fact: Option<OperandFacts>, modifier: Modifier) -> Leaf
    ensures { result ≡ leaf_of fact modifier }
{
    let Some(fact) = fact else {
        return Leaf::Nameless;
    };
    match fact.kind {
        Kind::Register => register_leaf(fact, modifier.slice(fact.size)),
        Kind::Number => number_leaf(fact, modifier),
        Kind::Memory => memory_leaf(fact, modifier),
    }
}
