ghost use Rattle.std.specs.Prelude.{◌≡◌, ◌<◌, ◌+◌, [], ◌∷◌, ◌++◌, map, IfOk, OnOk};
ghost use Rattle.asm_core.specs.declared.sym.Place.{Place};
ghost use Rattle.blk_deps.specs.Cells.{place_number, slice_cells, flag_cell};
ghost use Rattle.blk_deps.specs.Line.{is_memory_of, loaded, flag_names, index_place, cells_there, cells_of_place, address_cells, load_names, arg_names, source_names, all_names, access_cells, accesses_in};
ghost use Rattle.blk_deps.specs.LineMoves.{IsInstance, interface_of, shape_of};
ghost use Rattle.blk_deps.specs.declared.step.Name.{Name};

use crate::line::instance::{Instance, place_number};
use crate::{Name, Names};
use asm_core::{Access, Arg, Flag, Memory, Place, Slice, Source};
use std::alloc::Global;

fn push_pair(names: &mut Names, first: u8) -> Result<(), Memory>
    requires { first < 255 }
    ensures { OnOk result (names.new ≡ names.old ++ Name.Cell first ∷ Name.Cell (first + 1) ∷ []) }
{
    names.push(Name::Cell(first))?;
    names.push(Name::Cell(first + 1))
}

/// Appends the four cells from the first on.
fn push_word(names: &mut Names, first: u8) -> Result<(), Memory>
    requires { first < 253 }
    ensures { OnOk result (names.new ≡ names.old ++ Name.Cell first ∷ Name.Cell (first + 1) ∷ Name.Cell (first + 2) ∷ Name.Cell (first + 3) ∷ []) }
{
    push_pair(names, first)?;
    push_pair(names, first + 2)
}

/// Appends the cells of that part of a place.
fn push_slice(names: &mut Names, place: u8, slice: Slice) -> Result<(), Memory>
    requires { place < 37 }
    ensures { OnOk result (names.new ≡ names.old ++ map Name.Cell (slice_cells place slice)) }
{
    let first = 4 * place;
    match slice {
        Slice::Low8 => names.push(Name::Cell(first)),
        Slice::High8 => names.push(Name::Cell(first + 1)),
        Slice::Low16 => push_pair(names, first),
        Slice::All => push_word(names, first),
    }
}

fn is_memory_of(k: u8, arg: Arg) -> bool
    ensures { result ≡ is_memory_of k arg }
{
    match arg {
        Arg::Memory(j) => j == k,
        _ => false,
    }
}

/// How many bytes of memory operand k the accesses load.
fn loaded(k: u8, accesses: &[Access]) -> u8
    ensures { result ≡ loaded k accesses.now }
{
    for access in accesses {
        if is_memory_of(k, access.to) && !access.store {
            return access.bytes;
        }
    }
    0
}

/// The cell of a flag.
pub fn flag_cell(flag: Flag) -> u8
    ensures is { result ≡ flag_cell flag }
    ensures few { result < 155 }
{
    148 + flag as u8
}

fn push_flag(flag: Flag, names: &mut Names) -> Result<(), Memory>
    ensures { OnOk result (names.new ≡ names.old ++ flag_names flag) }
{
    match flag {
        Flag::Df => Ok(()),
        _ => names.push(Name::Cell(flag_cell(flag))),
    }
}

fn index_place(index: Option<(Place, u8)>) -> Option<Place>
    ensures { result ≡ index_place index }
{
    match index {
        Some((place, _)) => Some(place),
        None => None,
    }
}

impl<'a> Instance<'a> {
    /// Appends the cells of that part of a place, if it is one of the shape.
    fn push_place(&self, place: Place, slice: Slice, names: &mut Names) -> Result<(), Memory>
        requires { IsInstance self.now }
        ensures { OnOk result (names.new ≡ names.old ++ map Name.Cell (cells_there (interface_of self.now) (shape_of self.now) (place_number place) (slice_cells (place_number place) slice))) }
    {
        let p = place_number(place);
        if !self.is_place(p) {
            return Ok(());
        }
        push_slice(names, p as u8, slice)
    }

    fn push_whole(&self, place: Option<Place>, names: &mut Names) -> Result<(), Memory>
        requires { IsInstance self.now }
        ensures { OnOk result (names.new ≡ names.old ++ map Name.Cell (cells_of_place (interface_of self.now) (shape_of self.now) place)) }
    {
        match place {
            Some(place) => self.push_place(place, Slice::All, names),
            None => Ok(()),
        }
    }

    /// Appends the cells of which the address is made.
    pub fn push_address(&self, arg: Arg, names: &mut Names) -> Result<(), Memory>
        requires { IsInstance self.now }
        ensures { OnOk result (names.new ≡ names.old ++ map Name.Cell (address_cells (interface_of self.now) (shape_of self.now) arg)) }
    {
        match arg {
            Arg::Memory(k) => self.push_place(Place::Operand(k), Slice::All, names),
            Arg::Address(_, base, index) => {
                self.push_whole(base, names)?;
                self.push_whole(index_place(index), names)
            }
            _ => Ok(()),
        }
    }

    /// Appends what is loaded of memory operand k, if that is one of the shape.
    fn push_load(&self, k: u8, names: &mut Names) -> Result<(), Memory>
        requires { IsInstance self.now }
        ensures { OnOk result (names.new ≡ names.old ++ load_names (interface_of self.now) (shape_of self.now) self.now.line.now k) }
    {
        if !self.is_place(7 + u32::from(k)) {
            return Ok(());
        }
        names.push(Name::Load(k, loaded(k, self.entries.accesses.as_slice())))
    }

    fn push_arg(&self, arg: Arg, names: &mut Names) -> Result<(), Memory>
        requires { IsInstance self.now }
        ensures { OnOk result (names.new ≡ names.old ++ arg_names (interface_of self.now) (shape_of self.now) self.now.line.now arg) }
    {
        match arg {
            Arg::Register(place, slice) => self.push_place(place, slice, names),
            Arg::Memory(k) => self.push_load(k, names),
            _ => Ok(()),
        }
    }

    /// Appends what the source is.
    pub fn push_source(&self, source: Source, names: &mut Names) -> Result<(), Memory>
        requires { IsInstance self.now }
        ensures { OnOk result (names.new ≡ names.old ++ source_names (interface_of self.now) (shape_of self.now) self.now.depth self.now.line.now source) }
    {
        match source {
            Source::Arg(arg) => self.push_arg(arg, names),
            Source::Address(arg) => self.push_address(arg, names),
            Source::Flag(flag) => push_flag(flag, names),
            Source::Top => push_word(names, self.top()),
            Source::Undefined => names.push(Name::Undefined),
            Source::Outside => names.push(Name::Outside),
        }
    }

    /// What these sources are.
    pub fn all_names(&self, alloc: Global, sources: &[Source]) -> Result<Names, Memory>
        requires { IsInstance self.now }
        ensures { IfOk result (λ names. names ≡ all_names (interface_of self.now) (shape_of self.now) self.now.depth self.now.line.now sources.now) }
    {
        let mut names = Names::new(alloc);
        for source in sources {
            self.push_source(*source, &mut names)?;
        }
        Ok(names)
    }

    /// The cells of which the addresses of the accesses are made.
    pub fn access_names(&self, alloc: Global) -> Result<Names, Memory>
        requires { IsInstance self.now }
        ensures { IfOk result (λ names. names ≡ map Name.Cell (access_cells (interface_of self.now) (shape_of self.now) (accesses_in self.now.line.now))) }
    {
        let mut names = Names::new(alloc);
        for access in self.entries.accesses.as_slice() {
            self.push_address(access.to, &mut names)?;
        }
        Ok(names)
    }
}
