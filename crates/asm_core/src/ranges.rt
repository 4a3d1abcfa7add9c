ghost use Rattle.std.specs.Prelude.{◌≡◌, [], ◌∷◌, ◌++◌, ◌-◌, ◌≤◌, slice_index, OnOk, OnErr};
ghost use Rattle.std.specs.List.{list_any};
ghost use Rattle.asm_core.specs.Machine.{byte_at, covers};
ghost use Rattle.asm_core.specs.Memory.{with_byte, put_byte, lets_in, is_open_to};

use crate::{Memory, Range};
use std::alloc::Global;
use std::marker::Model;

/// The ranges of a machine. Contracts see their list.
#[derive(Debug, Drop)]
pub struct Ranges {
    items: Vec<Range>,
}

impl Model for Ranges {
    ghost use Rattle.std.specs.Prelude.{List};
    ghost use Rattle.asm_core.specs.declared.machine.Range.{Range};

    ghost Value = { List Range };

    ghost view = { λ r. r.items.items };
}

impl Ranges {
    pub fn new(alloc: Global) -> Ranges
        ensures { result ≡ [] }
    {
        Ranges {
            items: Vec::new(alloc),
        }
    }

    /// Adds a range.
    pub fn push(&mut self, range: Range) -> Result<(), Memory>
        ensures ok { OnOk result (self.new ≡ self.old ++ range ∷ []) }
        ensures err { OnErr result (self.new ≡ self.old) }
    {
        self.items.push(range)?;
        Ok(())
    }

    pub fn as_slice(&self) -> &[Range]
        ensures { result.now ≡ self.now }
    {
        self.items.as_slice()
    }

    /// The byte at the address, 0 in no range.
    pub fn byte_at(&self, address: u32) -> u8
        ensures { result ≡ byte_at self.now address }
    {
        byte_in(self.items.as_slice(), address)
    }

    /// Writes the byte at the address in each range that has it.
    pub fn set_byte(&mut self, address: u32, byte: u8)
        ensures { self.new ≡ with_byte address byte self.old }
    {
        put_byte_in_all(self.items.as_mut_slice(), address, byte);
    }

    /// Whether some range lets an access through that operand, or through none, reach the address.
    pub fn lets_in(&self, through: Option<u8>, store: bool, address: u32) -> bool
        ensures { result ≡ list_any (lets_in through store address) self.now }
    {
        self.items
            .iter()
            .any(|range| lets_in(range, through, store, address))
    }
}

fn byte_in(ranges: &[Range], address: u32) -> u8
    ensures { result ≡ byte_at ranges.now address }
{
    for range in ranges {
        if covers(range, address) {
            return byte_of(range, address);
        }
    }
    0
}

fn byte_of(range: &Range, address: u32) -> u8
    requires { range.now.base ≤ address }
    ensures { result ≡ slice_index range.now.bytes (address - range.now.base) }
{
    let bytes = range.bytes.as_slice();
    let index = (address - range.base) as usize;
    if index < bytes.len() { bytes[index] } else { 0 }
}

fn put_byte_in_all(ranges: &mut [Range], address: u32, byte: u8)
    ensures { ranges.new ≡ with_byte address byte ranges.old }
{
    for range in ranges.iter_mut() {
        put_byte(range, address, byte);
    }
}

fn covers(range: &Range, address: u32) -> bool
    ensures { result ≡ covers range.now address }
{
    range.base <= address && ((address - range.base) as usize) < range.bytes.len()
}

fn put_byte(range: &mut Range, address: u32, byte: u8)
    ensures { range.new ≡ put_byte address byte range.old }
{
    if covers(range, address) {
        range.bytes.set((address - range.base) as usize, byte);
    }
}

fn is_open_to(owner: Option<u8>, through: Option<u8>) -> bool
    ensures { result ≡ is_open_to owner through }
{
    match (owner, through) {
        (None, _) => true,
        (Some(owner), Some(through)) => owner == through,
        (Some(_), None) => false,
    }
}

fn lets_in(range: &Range, through: Option<u8>, store: bool, address: u32) -> bool
    ensures { result ≡ lets_in through store address range.now }
{
    covers(range, address) && is_open_to(range.owner, through) && (!store || range.writable)
}
