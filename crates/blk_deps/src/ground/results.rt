//! The flags that flag outputs take.

ghost use Rattle.std.specs.Prelude.{◌≡◌, ℕ, ◌<◌, ◌==◌, ◌||◌};
ghost use Rattle.std.specs.List.{list_any};
ghost use Rattle.asm_core.specs.Flag.{flag_number};
ghost use Rattle.asm_core.specs.declared.flag.Flag.{Flag};
ghost use Rattle.blk_deps.specs.Rules.{condition_flags, flags_of_output};
ghost use Rattle.blk_deps.specs.Ground.{has_bit, is_result_flag};

use asm_core::{Cond, Interface, OperandIface};

/// The flags that a condition names, bit f for flag f (Intel SDM volume 1, appendix B).
fn condition_flags(condition: Cond) -> u8
    ensures { (f : ℕ) → f < 6 → has_bit result f
        ≡ list_any (λ (g : Flag). flag_number g == f) (condition_flags condition) }
{
    match condition {
        Cond::O | Cond::No => 32,
        Cond::B | Cond::Ae => 1,
        Cond::E | Cond::Ne => 8,
        Cond::Be | Cond::A => 1 + 8,
        Cond::S | Cond::Ns => 16,
        Cond::P | Cond::Np => 2,
        Cond::L | Cond::Ge => 16 + 32,
        Cond::Le | Cond::G => 8 + 16 + 32,
    }
}

/// The flags of an output; none where it is no flag output.
fn flags_of_output(operand: &OperandIface) -> u8
    ensures { (f : ℕ) → f < 6 → has_bit result f
        ≡ list_any (λ (g : Flag). flag_number g == f) (flags_of_output operand.now) }
{
    match operand.flag {
        Some(condition) => condition_flags(condition),
        None => 0,
    }
}

fn either(flags: u8, more: u8) -> u8
    ensures { (f : ℕ) → has_bit result f ≡ (has_bit flags f || has_bit more f) }
{
    flags | more
}

/// Bit f: the condition of some flag output names flag f.
pub(crate) fn result_flags(interface: &Interface) -> u8
    ensures { (f : ℕ) → f < 6 → has_bit result f ≡ is_result_flag interface.now f }
{
    let mut flags = 0;
    for operand in interface.operands.as_slice() {
        flags = either(flags, flags_of_output(operand));
    }
    flags
}
