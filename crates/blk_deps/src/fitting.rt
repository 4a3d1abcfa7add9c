//! Whether what instructions do to values speaks only of what a layout has.

ghost use Rattle.std.specs.Prelude.{◌≡◌, ◌↔◌, IsTrue, All, length};
ghost use Rattle.std.specs.List.{list_all};
ghost use Rattle.asm_core.specs.WellFormed.{IsInterface};
ghost use Rattle.blk_deps.specs.Layout.{IsLayout};
ghost use Rattle.blk_deps.specs.Fits.{has_slot, fits_name, fits_put};
ghost use Rattle.blk_deps.specs.Fitting.{fits_read, fits_moves, FitsMoves, stack_layout, layout_for};

use crate::{Layout, LineMoves, Name, Put, Read};
use asm_core::Interface;

fn has_slot(layout: &Layout, cell: u8) -> bool
    requires { IsLayout layout.now }
    ensures { result ≡ has_slot layout.now cell }
{
    layout.slot(cell).is_some()
}

fn fits_name(layout: &Layout, name: Name) -> bool
    requires { IsLayout layout.now }
    ensures { result ≡ fits_name layout.now name }
{
    match name {
        Name::Cell(cell) => has_slot(layout, cell),
        Name::Load(operand, _) => u32::from(operand) < layout.operands,
        Name::Undefined | Name::Outside => true,
    }
}

fn fit_names(layout: &Layout, names: &[Name]) -> bool
    requires { IsLayout layout.now }
    ensures { result ≡ list_all (fits_name layout.now) names.now }
{
    names.iter().all(|name| fits_name(layout, *name))
}

fn fits_read(layout: &Layout, read: &Read) -> bool
    requires { IsLayout layout.now }
    ensures { result ≡ fits_read layout.now read.now }
{
    match read {
        Read::Copy(cell) => has_slot(layout, *cell),
        Read::Compute(names) => fit_names(layout, names.as_slice()),
    }
}

/// Whether that is put where there is something, of so many hands.
fn fits_put(layout: &Layout, hands: usize, put: Put) -> bool
    requires { IsLayout layout.now }
    ensures { result ≡ fits_put layout.now hands put }
{
    match put {
        Put::Place(cell, hand) => cell < 148 && has_slot(layout, cell) && (hand as usize) < hands,
        Put::Plain(cell, hand) => has_slot(layout, cell) && (hand as usize) < hands,
        Put::Store(operand, _, _) => u32::from(operand) < layout.operands,
        Put::Direction(_) => true,
    }
}

fn fit_reads(layout: &Layout, reads: &[Read]) -> bool
    requires { IsLayout layout.now }
    ensures { result ≡ list_all (fits_read layout.now) reads.now }
{
    reads.iter().all(|read| fits_read(layout, read))
}

fn fit_puts(layout: &Layout, hands: usize, puts: &[Put]) -> bool
    requires { IsLayout layout.now }
    ensures { result ≡ list_all (fits_put layout.now hands) puts.now }
{
    puts.iter().all(|put| fits_put(layout, hands, *put))
}

/// Whether the moves are the answer of the definition.
fn fits_moves(layout: &Layout, moves: &LineMoves) -> bool
    requires { IsLayout layout.now }
    ensures { result ≡ fits_moves layout.now moves.now }
{
    let reads = moves.reads.as_slice();
    fit_reads(layout, reads) && fit_puts(layout, reads.len(), moves.puts.as_slice())
}

/// Whether what an instruction reads and puts down speaks only of cells, operands and hands that there are.
pub fn fits(layout: &Layout, moves: &LineMoves) -> bool
    requires { IsLayout layout.now }
    ensures { IsTrue result ↔ FitsMoves layout.now moves.now }
{
    fits_moves(layout, moves)
}

fn all_fit(layout: &Layout, moves: &[LineMoves]) -> bool
    requires { IsLayout layout.now }
    ensures { result ≡ list_all (fits_moves layout.now) moves.now }
{
    moves.iter().all(|line| fits_moves(layout, line))
}

/// The layout for instructions that do this: without cells of pushed words where it does nothing to them.
pub fn layout_of(interface: &Interface, moves: &[LineMoves]) -> Layout
    requires interface { IsInterface interface.now }
    requires fit { All (FitsMoves (stack_layout interface.now)) moves.now }
    ensures is { result ≡ layout_for interface.now moves.now }
    ensures layout { IsLayout result }
    ensures operands { result.operands ≡ length interface.now.operands }
    ensures fit { All (FitsMoves result) moves.now }
{
    let plain = Layout {
        operands: interface.operands.len() as u32,
        words: 0,
    };
    if all_fit(&plain, moves) {
        return plain;
    }
    Layout { words: 16, ..plain }
}
