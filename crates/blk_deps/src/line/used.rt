ghost use Rattle.std.specs.Prelude.{◌≡◌, ◌≤◌, ◌+◌, [], ◌∷◌, ◌++◌, ◌||◌, length, All, IfOk, OnOk};
ghost use Rattle.std.specs.List.{range_with_len, list_any};
ghost use Rattle.asm_core.specs.declared.row.Access.{Access};
ghost use Rattle.asm_core.specs.declared.row.Write.{Write};
ghost use Rattle.x86_rows.specs.Entered.{IsNarrow};
ghost use Rattle.blk_deps.specs.Line.{is_memory, stored_from, hand_count};
ghost use Rattle.blk_deps.specs.Stack.{is_push, is_pop};
ghost use Rattle.blk_deps.specs.Rules.{is_of_operand, is_address_of};
ghost use Rattle.blk_deps.specs.LineMoves.{AreBits};

use asm_core::{Access, Arg, Items, Memory, Source, Write, Written};
use std::alloc::Global;

fn is_memory(to: Written) -> bool
    ensures { result ≡ is_memory to }
{
    matches!(to, Written::Arg(Arg::Memory(_) | Arg::Address(_, _, _)))
}

fn push_hands(hand: u8, count: u8, hands: &mut Items<u8>) -> Result<(), Memory>
    requires { hand + count ≤ 255 }
    ensures { OnOk result (hands.new ≡ hands.old ++ range_with_len hand count) }
{
    for n in 0..count {
        hands.push(hand + n)?;
    }
    Ok(())
}

/// The hands that count as uses: the bytes that are stored, what the instruction uses by itself, and its addresses.
pub fn used_hands(alloc: Global, writes: &[Write]) -> Result<Items<u8>, Memory>
    requires few { length writes.now ≤ 22 }
    requires narrow { All IsNarrow writes.now }
    ensures { IfOk result (λ hands. hands ≡ stored_from 0 writes.now ++ hand_count writes.now ∷ (hand_count writes.now + 1) ∷ []) }
{
    let mut hands = Items::new(alloc);
    let mut hand = 0;
    for write in writes {
        if is_memory(write.to) {
            push_hands(hand, write.count, &mut hands)?;
        }
        hand += write.count;
    }
    push_hands(hand, 2, &mut hands)?;
    Ok(hands)
}

/// The bit of a memory operand.
fn operand_bit(arg: Arg) -> u32
    ensures { AreBits result (λ k. is_of_operand k arg) }
{
    match arg {
        Arg::Memory(k) if k < 32 => 1 << k,
        _ => 0,
    }
}

fn addressed_by_access(accesses: &[Access]) -> u32
    ensures { AreBits result (λ k. list_any (λ (a : Access). is_of_operand k a.to) accesses.now) }
{
    let mut bits = 0;
    for access in accesses {
        bits |= operand_bit(access.to);
    }
    bits
}

fn address_bit(source: Source) -> u32
    ensures { AreBits result (λ k. is_address_of k source) }
{
    match source {
        Source::Address(arg) => operand_bit(arg),
        _ => 0,
    }
}

fn addressed_by_source(sources: &[Source]) -> u32
    ensures { AreBits result (λ k. list_any (is_address_of k) sources.now) }
{
    let mut bits = 0;
    for source in sources {
        bits |= address_bit(*source);
    }
    bits
}

/// Bit k: the address of operand k is used by an access or a source.
pub fn addressed(accesses: &[Access], sources: &[Source]) -> u32
    ensures { AreBits result (λ k. list_any (λ (a : Access). is_of_operand k a.to) accesses.now || list_any (is_address_of k) sources.now) }
{
    addressed_by_access(accesses) | addressed_by_source(sources)
}

pub fn pushes(writes: &[Write]) -> bool
    ensures { result ≡ list_any (λ (w : Write). is_push w.to) writes.now }
{
    writes.iter().any(|w| matches!(w.to, Written::Push))
}

pub fn pops(writes: &[Write]) -> bool
    ensures { result ≡ list_any (λ (w : Write). is_pop w.to) writes.now }
{
    writes.iter().any(|w| matches!(w.to, Written::Pop))
}
