ghost use Rattle.std.specs.Prelude.{◌≡◌, ◌≤◌, ◌+◌, ◌++◌, IfOk, OnOk};
ghost use Rattle.std.specs.List.{range_with_len, flat_map};
ghost use Rattle.x86_rows.specs.Entered.{IsNarrow};
ghost use Rattle.blk_deps.specs.Line.{put_byte, put_word, put_flag, put_store, puts_to, line_puts};
ghost use Rattle.blk_deps.specs.LineMoves.{IsInstance, interface_of, shape_of};

use crate::Put;
use crate::line::instance::{Instance, place_number};
use crate::line::names::flag_cell;
use crate::line::reads::slice_first;
use asm_core::{Arg, By, Flag, Items, Memory, Place, Slice, Write, Written};
use std::alloc::Global;

fn push_flag(flag: Flag, hand: u8, by: By, puts: &mut Items<Put>) -> Result<(), Memory>
    ensures { OnOk result (puts.new ≡ puts.old ++ put_flag flag hand by) }
{
    match (flag, by) {
        (Flag::Df, By::Set(on)) => Ok(puts.push(Put::Direction(on))?),
        (Flag::Df, _) => Ok(()),
        _ => Ok(puts.push(Put::Plain(flag_cell(flag), hand))?),
    }
}

impl<'a> Instance<'a> {
    fn push_byte(&self, place: Place, n: u8, hand: u8, puts: &mut Items<Put>) -> Result<(), Memory>
        requires instance { IsInstance self.now }
        requires few { n ≤ 11 }
        ensures { OnOk result (puts.new ≡ puts.old ++ put_byte (interface_of self.now) (shape_of self.now) place n hand) }
    {
        let p = place_number(place);
        if n >= 4 {
            return Ok(());
        }
        if !self.is_place(p) {
            return Ok(());
        }
        Ok(puts.push(Put::Place(4 * p as u8 + n, hand))?)
    }

    /// Appends what is put into the bytes of a place.
    fn push_bytes(
        &self,
        place: Place,
        first: u8,
        hand: u8,
        count: u8,
        puts: &mut Items<Put>,
    ) -> Result<(), Memory>
        requires instance { IsInstance self.now }
        requires first { first ≤ 4 }
        requires hand { hand ≤ 200 }
        requires count { count ≤ 8 }
        ensures { OnOk result (puts.new ≡ puts.old ++ flat_map (λ n. put_byte (interface_of self.now) (shape_of self.now) place (first + n) (hand + n)) (range_with_len 0 count)) }
    {
        for n in 0..count {
            self.push_byte(place, first + n, hand + n, puts)?;
        }
        Ok(())
    }

    fn push_word_byte(&self, n: u8, hand: u8, puts: &mut Items<Put>) -> Result<(), Memory>
        requires instance { IsInstance self.now }
        ensures { OnOk result (puts.new ≡ puts.old ++ put_word self.now.depth n hand) }
    {
        if n >= 4 {
            return Ok(());
        }
        Ok(puts.push(Put::Plain(154 + 4 * self.depth + n, hand))?)
    }

    /// Appends what is put into the bytes of the word that is pushed.
    fn push_pushed(&self, hand: u8, count: u8, puts: &mut Items<Put>) -> Result<(), Memory>
        requires instance { IsInstance self.now }
        requires hand { hand ≤ 200 }
        requires count { count ≤ 8 }
        ensures { OnOk result (puts.new ≡ puts.old ++ flat_map (λ n. put_word self.now.depth n (hand + n)) (range_with_len 0 count)) }
    {
        for n in 0..count {
            self.push_word_byte(n, hand + n, puts)?;
        }
        Ok(())
    }

    /// Appends the store of a write to memory operand k, if that is one of the shape.
    fn push_store(&self, k: u8, write: Write, puts: &mut Items<Put>) -> Result<(), Memory>
        requires instance { IsInstance self.now }
        ensures { OnOk result (puts.new ≡ puts.old ++ put_store (interface_of self.now) (shape_of self.now) k write) }
    {
        if !self.is_place(7 + u32::from(k)) {
            return Ok(());
        }
        Ok(puts.push(Put::Store(k, write.first, write.count))?)
    }

    /// Appends what a write puts down, whose bytes are in the hands from that one on.
    fn push_puts(&self, hand: u8, write: Write, puts: &mut Items<Put>) -> Result<(), Memory>
        requires instance { IsInstance self.now }
        requires hand { hand ≤ 200 }
        requires narrow { IsNarrow write }
        ensures { OnOk result (puts.new ≡ puts.old ++ puts_to (interface_of self.now) (shape_of self.now) self.now.depth hand write write.to) }
    {
        match write.to {
            Written::Arg(Arg::Register(place, slice)) => self.push_bytes(
                place,
                slice_first(slice) + write.first,
                hand,
                write.count,
                puts,
            ),
            Written::Arg(Arg::Memory(k)) => self.push_store(k, write, puts),
            Written::Arg(_) => Ok(()),
            Written::Flag(flag) => push_flag(flag, hand, write.by, puts),
            Written::Push => self.push_pushed(hand, write.count, puts),
            Written::Pop => Ok(()),
        }
    }
}

/// What the instruction puts down.
pub fn line_puts(alloc: Global, x: &Instance) -> Result<Items<Put>, Memory>
    requires { IsInstance x.now }
    ensures { IfOk result (λ puts. puts ≡ line_puts (interface_of x.now) (shape_of x.now) x.now.depth x.now.line.now) }
{
    let mut puts = Items::new(alloc);
    let mut hand = 0;
    for write in x.entries.writes.as_slice() {
        x.push_puts(hand, *write, &mut puts)?;
        hand += write.count;
    }
    Ok(puts)
}
