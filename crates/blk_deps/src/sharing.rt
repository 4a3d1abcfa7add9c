//! Which places may be in one register.

ghost use Rattle.std.specs.Prelude.{◌≡◌, ◌↔◌, ◌+◌, ◌<◌, ◌≤◌, true, IsTrue, length, IfOk};
ghost use Rattle.asm_core.specs.Lists.{IsMember};
ghost use Rattle.asm_core.specs.Shape.{IsLive, shapes_of};
ghost use Rattle.asm_core.specs.WellFormed.{IsInterface};
ghost use Rattle.blk_deps.specs.Cells.{place_at, reg_at};
ghost use Rattle.blk_deps.specs.Operands.{is_place};
ghost use Rattle.blk_deps.specs.Ground.{IsContext, has_bit};
ghost use Rattle.blk_deps.specs.Sharing.{TellsBelow, TellWords, shares_by};
ghost use Rattle.blk_deps.specs.Start.{MayShare, TellsSharing};

use crate::Context;
use crate::ground::bits::{has_bit, with_bit};
use asm_core::{Items, Memory, Place, Reg};
use asm_places::can_share;
use std::alloc::Global;

/// The register of that number.
fn register_at(number: usize) -> Reg
    ensures { result ≡ reg_at number }
{
    match number {
        0 => Reg::Eax,
        1 => Reg::Ebx,
        2 => Reg::Ecx,
        3 => Reg::Edx,
        4 => Reg::Esi,
        5 => Reg::Edi,
        6 => Reg::Ebp,
        _ => Reg::Eax,
    }
}

/// The place of that number.
fn place_at(p: usize) -> Place
    requires { p < 64 }
    ensures { result ≡ place_at p }
{
    if p < 7 {
        Place::Reg(register_at(p))
    } else {
        Place::Operand((p - 7) as u8)
    }
}

/// Whether two places of the shape may be in one register.
#[tactic(auto, using(crate::proofs::SharingLaws::place_there))]
fn share(context: &Context, p: usize, q: usize) -> bool
    requires interface { IsInterface context.now.interface.now }
    requires shape { IsMember context.now.shape.now (shapes_of context.now.interface.now) }
    requires live { IsLive context.now.interface.now context.now.shape.now }
    requires first { p < 64 }
    requires second { q < 64 }
    requires is_first { IsTrue (is_place context.now.interface.now context.now.shape.now p) }
    requires is_second { IsTrue (is_place context.now.interface.now context.now.shape.now q) }
    ensures { IsTrue result ↔ MayShare context.now.interface.now context.now.shape.now p q }
{
    if p < 7 && q < 7 {
        return p == q;
    }
    can_share(context.interface, context.shape, place_at(p), place_at(q))
}

/// Whether q is a place of the shape, and may be in one register with p, which is one. The words are those of the first
/// places.
#[tactic(auto, using(crate::proofs::SharingLaws::nowhere, crate::proofs::SharingLaws::told_before))]
fn shares_with(context: &Context, words: &[u64], p: usize, q: usize) -> bool
    requires interface { IsInterface context.now.interface.now }
    requires context { IsContext context.now }
    requires shape { IsMember context.now.shape.now (shapes_of context.now.interface.now) }
    requires live { IsLive context.now.interface.now context.now.shape.now }
    requires words { TellWords context.now.interface.now context.now.shape.now
        (7 + length context.now.interface.now.operands) words.now }
    requires first { p < 7 + length context.now.interface.now.operands }
    requires second { q < 64 }
    requires is_first { IsTrue (is_place context.now.interface.now context.now.shape.now p) }
    ensures { IsTrue result ↔ MayShare context.now.interface.now context.now.shape.now p q }
{
    if q < words.len() {
        return has_bit(words[q], p);
    }
    if !has_bit(context.ground.places, q) {
        return false;
    }
    share(context, p, q)
}

/// The places that may be in one register with place p, as bits. The words are those of the first places.
#[tactic(auto, using(crate::proofs::SharingLaws::word_start, crate::proofs::SharingLaws::word_more))]
fn sharers_of(context: &Context, words: &[u64], p: usize) -> u64
    requires interface { IsInterface context.now.interface.now }
    requires context { IsContext context.now }
    requires shape { IsMember context.now.shape.now (shapes_of context.now.interface.now) }
    requires live { IsLive context.now.interface.now context.now.shape.now }
    requires words { TellWords context.now.interface.now context.now.shape.now
        (7 + length context.now.interface.now.operands) words.now }
    requires place { p < 7 + length context.now.interface.now.operands }
    requires is_place { IsTrue (is_place context.now.interface.now context.now.shape.now p) }
    ensures { TellsBelow context.now.interface.now context.now.shape.now p
        (7 + length context.now.interface.now.operands) result }
{
    let count = 7 + context.interface.operands.len();
    let mut word = 0;
    for q in 0..count {
        word = with_bit(word, q, shares_with(context, words, p, q));
    }
    word
}

/// The word of place p, which may be none. The words are those of the first places.
#[tactic(auto, using(crate::proofs::SharingLaws::no_place))]
fn word_of(context: &Context, words: &[u64], p: usize) -> u64
    requires interface { IsInterface context.now.interface.now }
    requires context { IsContext context.now }
    requires shape { IsMember context.now.shape.now (shapes_of context.now.interface.now) }
    requires live { IsLive context.now.interface.now context.now.shape.now }
    requires words { TellWords context.now.interface.now context.now.shape.now
        (7 + length context.now.interface.now.operands) words.now }
    requires place { p < 7 + length context.now.interface.now.operands }
    ensures { TellsBelow context.now.interface.now context.now.shape.now p
        (7 + length context.now.interface.now.operands) result }
{
    if has_bit(context.ground.places, p) {
        sharers_of(context, words, p)
    } else {
        0
    }
}

/// For each place, of the registers and the operands, the places that may be in one register with it, as bits.
///
/// # Errors
/// Want of memory.
#[tactic(auto, using(crate::proofs::SharingLaws::tells_all))]
pub fn sharers(alloc: Global, context: &Context) -> Result<Items<u64>, Memory>
    requires interface { IsInterface context.now.interface.now }
    requires context { IsContext context.now }
    requires shape { IsMember context.now.shape.now (shapes_of context.now.interface.now) }
    requires live { IsLive context.now.interface.now context.now.shape.now }
    ensures count { IfOk result (λ words. length words ≡ 7 + length context.now.interface.now.operands) }
    ensures tells { IfOk result (λ words. TellsSharing context.now.interface.now context.now.shape.now
        (shares_by words (7 + length context.now.interface.now.operands))) }
{
    all_words(alloc, context)
}

/// The words of all places.
#[tactic(auto, using(crate::proofs::SharingLaws::words_more))]
fn all_words(alloc: Global, context: &Context) -> Result<Items<u64>, Memory>
    requires interface { IsInterface context.now.interface.now }
    requires context { IsContext context.now }
    requires shape { IsMember context.now.shape.now (shapes_of context.now.interface.now) }
    requires live { IsLive context.now.interface.now context.now.shape.now }
    ensures count { IfOk result (λ words. length words ≡ 7 + length context.now.interface.now.operands) }
    ensures words { IfOk result (TellWords context.now.interface.now context.now.shape.now
        (7 + length context.now.interface.now.operands)) }
{
    let count = 7 + context.interface.operands.len();
    let mut words = Items::new(alloc);
    for p in 0..count {
        let word = word_of(context, words.as_slice(), p);
        words.push(word)?;
    }
    Ok(words)
}
