ghost use Rattle.std.specs.Prelude.{◌≡◌, ◌≤◌, ◌<◌, ◌-◌, ◌++◌, map, length, IfOk, OnOk};
ghost use Rattle.std.specs.List.{range_with_len};
ghost use Rattle.std.specs.Option.{option_to_list};
ghost use Rattle.x86_rows.specs.Entered.{IsNarrow, IsNarrowBy};
ghost use Rattle.blk_deps.specs.Cells.{slice_first, place_number};
ghost use Rattle.blk_deps.specs.Line.{byte_there, word_byte, copied_cell, copy_of, read_for, line_reads};
ghost use Rattle.blk_deps.specs.LineMoves.{IsInstance, interface_of, shape_of};

use crate::line::instance::{Instance, place_number};
use crate::{Names, Read};
use asm_core::{Arg, By, Items, Memory, Place, Slice, Source, Write};
use std::alloc::Global;

/// The first byte of a register that the name has.
pub fn slice_first(slice: Slice) -> u8
    ensures is { result ≡ slice_first slice }
    ensures few { result ≤ 1 }
{
    match slice {
        Slice::High8 => 1,
        _ => 0,
    }
}

impl<'a> Instance<'a> {
    /// Byte n of the place, if it is one of the shape and has such a byte.
    fn copied_byte(&self, place: Place, n: u8) -> Option<u8>
        requires instance { IsInstance self.now }
        requires few { n ≤ 11 }
        ensures { option_to_list result ≡ byte_there (interface_of self.now) (shape_of self.now) (place_number place) n }
    {
        let p = place_number(place);
        if n >= 4 || !self.is_place(p) {
            return None;
        }
        Some(4 * p as u8 + n)
    }

    /// Byte n of the pushed word on top.
    fn top_byte(&self, n: u8) -> Option<u8>
        requires instance { IsInstance self.now }
        ensures { option_to_list result ≡ word_byte (self.now.depth - 1) n }
    {
        if n < 4 { Some(self.top() + n) } else { None }
    }

    /// The cell of byte n of a source that a copy may be of.
    fn copied_cell(&self, source: Source, n: u8) -> Option<u8>
        requires instance { IsInstance self.now }
        requires few { n ≤ 10 }
        ensures { option_to_list result ≡ copied_cell (interface_of self.now) (shape_of self.now) self.now.depth source n }
    {
        match source {
            Source::Arg(Arg::Register(place, slice)) => self.copied_byte(
                place,
                slice_first(slice) + n,
            ),
            Source::Top => self.top_byte(n),
            _ => None,
        }
    }

    /// A copy of byte n of the source, else a value that is computed of it all.
    fn copy_of(&self, alloc: Global, source: Source, n: u8) -> Result<Read, Memory>
        requires instance { IsInstance self.now }
        requires few { n ≤ 10 }
        ensures { IfOk result (λ read. read ≡ copy_of (interface_of self.now) (shape_of self.now) self.now.depth self.now.line.now source (copied_cell (interface_of self.now) (shape_of self.now) self.now.depth source n)) }
    {
        if let Some(cell) = self.copied_cell(source, n) {
            return Ok(Read::Copy(cell));
        }
        let mut names = Names::new(alloc);
        self.push_source(source, &mut names)?;
        Ok(Read::Compute(names))
    }

    /// Byte n of what the k-th write writes.
    fn read_for(&self, alloc: Global, k: usize, by: By, n: u8) -> Result<Read, Memory>
        requires instance { IsInstance self.now }
        requires within { k < length self.now.entries.now.writes }
        requires narrow { IsNarrowBy by }
        requires few { n < 8 }
        ensures { IfOk result (λ read. read ≡ read_for (interface_of self.now) (shape_of self.now) self.now.depth self.now.line.now k by n) }
    {
        match by {
            By::Copy(source, first) => self.copy_of(alloc, source, first + n),
            By::Named => Ok(Read::Compute(self.all_names(alloc, self.named(k))?)),
            By::Set(_) => Ok(Read::Compute(Names::new(alloc))),
        }
    }

    /// Appends the bytes of the k-th write.
    fn push_write(
        &self,
        alloc: Global,
        k: usize,
        write: Write,
        reads: &mut Items<Read>,
    ) -> Result<(), Memory>
        requires instance { IsInstance self.now }
        requires within { k < length self.now.entries.now.writes }
        requires narrow { IsNarrow write }
        ensures { OnOk result (reads.new ≡ reads.old ++ map (read_for (interface_of self.now) (shape_of self.now) self.now.depth self.now.line.now k write.by) (range_with_len 0 write.count)) }
    {
        for n in 0..write.count {
            let read = self.read_for(alloc, k, write.by, n)?;
            reads.push(read)?;
        }
        Ok(())
    }
}

/// What the instruction reads: the bytes of its writes, then what it uses by itself, then its addresses.
pub fn line_reads(alloc: Global, x: &Instance) -> Result<Items<Read>, Memory>
    requires { IsInstance x.now }
    ensures { IfOk result (λ reads. reads ≡ line_reads (interface_of x.now) (shape_of x.now) x.now.depth x.now.line.now) }
{
    let mut reads = Items::new(alloc);
    for (k, write) in x.entries.writes.as_slice().iter().enumerate() {
        x.push_write(alloc, k, *write, &mut reads)?;
    }
    reads.push(Read::Compute(x.all_names(alloc, x.entries.uses.as_slice())?))?;
    reads.push(Read::Compute(x.access_names(alloc)?))?;
    Ok(reads)
}
