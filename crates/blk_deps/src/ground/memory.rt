//! Which memory operands aren't seen, and which are changing.

ghost use Rattle.std.specs.Prelude.{◌≡◌, ℕ, ◌<◌, ◌==◌, ◌&&◌, not};
ghost use Rattle.std.specs.List.{list_any};
ghost use Rattle.asm_core.specs.Placement.{tie_root};
ghost use Rattle.asm_core.specs.declared.shape.Shape.{Shape};
ghost use Rattle.blk_deps.specs.Operands.{in_memory, has_address, has_tied, is_written_only, is_changing, is_unseen};
ghost use Rattle.blk_deps.specs.Ground.{has_bit};

use super::bits::{low_half, with_bit};
use super::operand::{in_memory, is_input_at, is_root, tie_root};
use asm_core::{Interface, Shape};

/// Whether place 7 + k is operand k's address.
pub(crate) fn has_address(interface: &Interface, shape: &Shape, k: usize) -> bool
    ensures { result ≡ has_address interface.now shape.now k }
{
    in_memory(shape, k) && is_root(interface, shape, k)
}

/// Whether operand j is another one and tied to operand k.
fn is_tied_to(interface: &Interface, shape: &Shape, j: usize, k: usize) -> bool
    ensures { result ≡ (not (j == k) && tie_root interface.now shape.now j == k) }
{
    j != k && tie_root(interface, shape, j) == k
}

/// Whether some input is tied to operand k.
fn has_tied(interface: &Interface, shape: &Shape, k: usize) -> bool
    ensures { result ≡ has_tied interface.now shape.now k }
{
    for j in 0..interface.operands.len() {
        if is_tied_to(interface, shape, j, k) {
            return true;
        }
    }
    false
}

fn is_written_only(interface: &Interface, shape: &Shape, k: usize) -> bool
    ensures { result ≡ is_written_only interface.now shape.now k }
{
    !is_input_at(interface, k) && !has_tied(interface, shape, k)
}

/// Whether operand k is in memory in some of the shapes.
fn is_somewhere_memory(live: &[Shape], k: usize) -> bool
    ensures { result ≡ list_any (λ (s : Shape). in_memory s k) live.now }
{
    live.iter().any(|shape| in_memory(shape, k))
}

/// Whether operand k is of another kind in some of the shapes.
fn is_somewhere_else(live: &[Shape], k: usize) -> bool
    ensures { result ≡ list_any (λ (s : Shape). not (in_memory s k)) live.now }
{
    live.iter().any(|shape| !in_memory(shape, k))
}

/// Whether operand k is memory in one live shape and of another kind in another.
fn is_changing(live: &[Shape], k: usize) -> bool
    ensures { result ≡ is_changing live.now k }
{
    is_somewhere_memory(live, k) && is_somewhere_else(live, k)
}

/// Whether operand k is memory that isn't seen.
fn is_unseen(interface: &Interface, live: &[Shape], shape: &Shape, k: usize) -> bool
    ensures { result ≡ is_unseen interface.now live.now shape.now k }
{
    has_address(interface, shape, k)
        && is_written_only(interface, shape, k)
        && (!interface.memory || is_changing(live, k))
}

/// Bit k: operand k is memory that isn't seen.
pub(crate) fn unseen_operands(interface: &Interface, live: &[Shape], shape: &Shape) -> u32
    ensures { (k : ℕ) → k < 32 → has_bit result k ≡ is_unseen interface.now live.now shape.now k }
{
    let mut word = 0;
    for k in 0..32 {
        word = with_bit(word, k, is_unseen(interface, live, shape, k));
    }
    low_half(word)
}

/// Bit k: operand k is memory in one live shape and of another kind in another.
pub(crate) fn changing_operands(live: &[Shape]) -> u32
    ensures { (k : ℕ) → k < 32 → has_bit result k ≡ is_changing live.now k }
{
    let mut word = 0;
    for k in 0..32 {
        word = with_bit(word, k, is_changing(live, k));
    }
    low_half(word)
}
