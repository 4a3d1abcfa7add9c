ghost use Rattle.std.specs.Prelude.{◌≡◌, ◌≤◌, ◌∷◌, ◌++◌, length, map, filter, slice_get};
ghost use Rattle.std.specs.List.{filter_map};
ghost use Rattle.asm_core.specs.Entries.{origins, source_in, has_name, sources_of, names_where, is_control, is_write, is_of_use, uses_of, reads_of, register_arg_of, pointed_arg, line_arg, first_in_name, copied, set_to, by_of, write_to_site, write_to, write_of, writes_of, write_numbers, if_named, named_of, known_in};
ghost use Rattle.asm_core.specs.RowLaws.{NamesDecide, ReadsKnown};
ghost use Rattle.asm_core.specs.Steps.{DecidesLine};
ghost use Rattle.asm_core.specs.declared.placement.Placement.{Placement};
ghost use Rattle.x86_rows.specs.Purpose.{targets_of};

use crate::fact::{fact_at, facts, rank, slice_with};
use crate::part::{count, first, size, sized};
use asm_core::{
    Arg, By, Bytes, Disp, Fact, Flag, Function, Input, MicroOp, Origin, Place, Reg, Site, Slice,
    Source, Sym, Target, Write, Written,
};
use sqlite_items::at;

/// All origins of a line, in the order of sources.
const ORIGINS: [Origin; 51] = [
    Origin::Argument(0),
    Origin::Address(0),
    Origin::Argument(1),
    Origin::Address(1),
    Origin::Argument(2),
    Origin::Address(2),
    Origin::Pointed(Reg::Eax),
    Origin::Pointed(Reg::Ebx),
    Origin::Pointed(Reg::Ecx),
    Origin::Pointed(Reg::Edx),
    Origin::Pointed(Reg::Esi),
    Origin::Pointed(Reg::Edi),
    Origin::Pointed(Reg::Ebp),
    Origin::Register(Reg::Eax, Slice::Low8),
    Origin::Register(Reg::Eax, Slice::High8),
    Origin::Register(Reg::Eax, Slice::Low16),
    Origin::Register(Reg::Eax, Slice::All),
    Origin::Register(Reg::Ebx, Slice::Low8),
    Origin::Register(Reg::Ebx, Slice::High8),
    Origin::Register(Reg::Ebx, Slice::Low16),
    Origin::Register(Reg::Ebx, Slice::All),
    Origin::Register(Reg::Ecx, Slice::Low8),
    Origin::Register(Reg::Ecx, Slice::High8),
    Origin::Register(Reg::Ecx, Slice::Low16),
    Origin::Register(Reg::Ecx, Slice::All),
    Origin::Register(Reg::Edx, Slice::Low8),
    Origin::Register(Reg::Edx, Slice::High8),
    Origin::Register(Reg::Edx, Slice::Low16),
    Origin::Register(Reg::Edx, Slice::All),
    Origin::Register(Reg::Esi, Slice::Low8),
    Origin::Register(Reg::Esi, Slice::High8),
    Origin::Register(Reg::Esi, Slice::Low16),
    Origin::Register(Reg::Esi, Slice::All),
    Origin::Register(Reg::Edi, Slice::Low8),
    Origin::Register(Reg::Edi, Slice::High8),
    Origin::Register(Reg::Edi, Slice::Low16),
    Origin::Register(Reg::Edi, Slice::All),
    Origin::Register(Reg::Ebp, Slice::Low8),
    Origin::Register(Reg::Ebp, Slice::High8),
    Origin::Register(Reg::Ebp, Slice::Low16),
    Origin::Register(Reg::Ebp, Slice::All),
    Origin::Flag(Flag::Cf),
    Origin::Flag(Flag::Pf),
    Origin::Flag(Flag::Af),
    Origin::Flag(Flag::Zf),
    Origin::Flag(Flag::Sf),
    Origin::Flag(Flag::Of),
    Origin::Flag(Flag::Df),
    Origin::Top,
    Origin::Undefined,
    Origin::Outside,
];

#[tactic(auto, unfolding(asm_core::specs::Entries::origins))]
pub fn all_origins<'a>() -> &'a [Origin]
    ensures { result.now ≡ origins }
{
    &ORIGINS
}

/// A register as an operand of a line.
fn register_arg(r: Reg, slice: Slice) -> Arg
    ensures { result ≡ register_arg_of r slice }
{
    Arg::Register(Place::Reg(r), slice)
}

/// The memory at the address in a register as an operand of a line.
pub fn pointed_arg(r: Reg) -> Arg
    ensures { result ≡ pointed_arg r }
{
    Arg::Address(Disp::Number(0), Some(Place::Reg(r)), None)
}

/// The k-th operand of a line.
pub fn line_arg(s: &Sym, k: u8) -> Arg
    ensures { result ≡ line_arg s.now k }
{
    match s.args.get(usize::from(k)) {
        Some(arg) => arg,
        None => Arg::Number(0),
    }
}

pub fn source(s: &Sym, origin: Origin) -> Source
    ensures { result ≡ source_in s.now origin }
{
    match origin {
        Origin::Argument(k) => Source::Arg(line_arg(s, k)),
        Origin::Address(k) => Source::Address(line_arg(s, k)),
        Origin::Pointed(r) => Source::Arg(pointed_arg(r)),
        Origin::Register(r, slice) => Source::Arg(register_arg(r, slice)),
        Origin::Flag(f) => Source::Flag(f),
        Origin::Top => Source::Top,
        Origin::Undefined => Source::Undefined,
        Origin::Outside => Source::Outside,
    }
}

fn has_name(names: u64, origin: Origin) -> bool
    ensures { result ≡ has_name names origin }
{
    (names >> rank(origin)) % 2 == 1
}

/// The k-th of the origins that are among the names.
fn nth_named(origins: &[Origin], names: u64, k: usize) -> Option<Origin>
    ensures { result ≡ slice_get (filter (has_name names) origins.now) k }
{
    let mut left = k;
    for origin in origins {
        if !has_name(names, *origin) {
            continue;
        }
        if left == 0 {
            return Some(*origin);
        }
        left -= 1;
    }
    None
}

/// The k-th of the sources of these names.
fn nth_source(s: &Sym, names: u64, k: usize) -> Option<Source>
    ensures { result ≡ slice_get (sources_of s.now names) k }
{
    match nth_named(all_origins(), names, k) {
        Some(origin) => Some(source(s, origin)),
        None => None,
    }
}

fn is_control(target: Target) -> bool
    ensures { result ≡ is_control target }
{
    matches!(
        target,
        Target::Jump | Target::Stay | Target::Turn | Target::Divide
    )
}

pub fn is_write(target: Target) -> bool
    ensures { result ≡ is_write target }
{
    matches!(target, Target::Site(_) | Target::Push | Target::Pop)
}

/// Which values of a row are looked at.
#[derive(Clone, Copy)]
pub enum Purpose {
    Control,
    Use,
}

fn serves(purpose: Purpose, target: Target) -> bool
    ensures { result ≡ targets_of purpose target }
{
    match purpose {
        Purpose::Control => is_control(target),
        Purpose::Use => is_control(target) || is_write(target),
    }
}

/// What the values that serve the purpose name together.
pub fn names_where(purpose: Purpose, row: &[MicroOp], facts: &[Fact]) -> u64
    ensures { result ≡ names_where (targets_of purpose) row.now 0 facts.now 0 }
{
    let mut names = 0;
    for (k, op) in row.iter().enumerate() {
        if serves(purpose, op.target) {
            names |= fact_at(facts, k).names;
        }
    }
    names
}

/// The k-th thing that a jump, a division or a repeated instruction depends on.
pub fn uses(row: &[MicroOp], s: &Sym, k: usize) -> Option<Source>
    requires { length row.now ≤ 40 }
    ensures { result ≡ slice_get (uses_of row.now s.now) k }
{
    let facts = facts(row, s);
    nth_source(s, names_where(Purpose::Control, row, facts.as_slice()), k)
}

/// The k-th thing that is copied, named or used.
pub fn reads(row: &[MicroOp], s: &Sym, k: usize) -> Option<Source>
    requires { length row.now ≤ 40 }
    ensures { result ≡ slice_get (reads_of row.now s.now) k }
{
    let facts = facts(row, s);
    nth_source(s, names_where(Purpose::Use, row, facts.as_slice()), k)
}

/// How a value that is copied comes about.
fn copied(s: &Sym, x: Input) -> By
    ensures { result ≡ copied s.now x }
{
    match x {
        Input::Read(Site::Argument(k, bytes)) => By::Copy(
            Source::Arg(line_arg(s, k)),
            first(bytes),
        ),
        Input::Read(Site::Register(r, bytes)) => By::Copy(
            Source::Arg(register_arg(r, slice_with(sized(s.width, bytes)))),
            first_in_name(bytes),
        ),
        Input::Read(Site::Pointed(r)) => By::Copy(Source::Arg(pointed_arg(r)), 0),
        Input::Top => By::Copy(Source::Top, 0),
        _ => By::Named,
    }
}

/// The first byte of a register's bytes in the least name that has them all.
fn first_in_name(bytes: Bytes) -> u8
    ensures { result ≡ first_in_name bytes }
{
    match bytes {
        Bytes::Byte1 => 0,
        _ => first(bytes),
    }
}

fn set_to(x: Input) -> By
    ensures { result ≡ set_to x }
{
    match x {
        Input::Number(n) => By::Set(n != 0),
        _ => By::Named,
    }
}

/// How the value of a micro-operation comes about.
pub fn by(s: &Sym, op: &MicroOp) -> By
    ensures { result ≡ by_of s.now op.now.function op.now.x }
{
    match op.function {
        Function::Copy => copied(s, op.x),
        Function::Set => set_to(op.x),
        _ => By::Named,
    }
}

fn write_to_site(s: &Sym, by: By, site: Site) -> Write
    ensures { result ≡ write_to_site s.now by site }
{
    let (to, first, count) = match site {
        Site::Argument(k, bytes) => (
            Written::Arg(line_arg(s, k)),
            first(bytes),
            count(s.width, bytes),
        ),
        Site::Register(r, bytes) => {
            let bytes_there = sized(s.width, bytes);
            (
                Written::Arg(register_arg(r, slice_with(bytes_there))),
                first_in_name(bytes),
                count(s.width, bytes_there),
            )
        }
        Site::Pointed(r) => (Written::Arg(pointed_arg(r)), 0, size(s.width)),
        Site::Flag(f) => (Written::Flag(f), 0, 1),
    };
    Write {
        to,
        first,
        count,
        by,
    }
}

pub fn write(s: &Sym, op: &MicroOp) -> Option<Write>
    ensures { result ≡ write_of s.now op.now }
{
    let by = by(s, op);
    match op.target {
        Target::Site(site) => Some(write_to_site(s, by, site)),
        Target::Push => Some(Write {
            to: Written::Push,
            first: 0,
            count: 4,
            by,
        }),
        Target::Pop => Some(Write {
            to: Written::Pop,
            first: 0,
            count: 0,
            by,
        }),
        _ => None,
    }
}

/// The k-th write, in the row's order.
pub fn writes(row: &[MicroOp], s: &Sym, k: usize) -> Option<Write>
    ensures { result ≡ slice_get (writes_of row.now s.now) k }
{
    let mut left = k;
    for op in row {
        if let Some(write) = write(s, op) {
            if left == 0 {
                return Some(write);
            }
            left -= 1;
        }
    }
    None
}

/// The number of the micro-operation that makes the k-th write.
fn nth_write(row: &[MicroOp], k: usize) -> Option<usize>
    ensures { result ≡ slice_get (write_numbers row.now 0) k }
{
    let mut left = k;
    for (n, op) in row.iter().enumerate() {
        if !is_write(op.target) {
            continue;
        }
        if left == 0 {
            return Some(n);
        }
        left -= 1;
    }
    None
}

fn named_source(row: &[MicroOp], s: &Sym, k: usize, j: usize) -> Option<Source>
    requires { length row.now ≤ 40 }
    ensures { result ≡ slice_get (named_of row.now s.now k) j }
{
    let n = nth_write(row, k)?;
    let op = at(row, n)?;
    match by(s, op) {
        By::Named => nth_source(s, fact_at(facts(row, s).as_slice(), n).names, j),
        _ => None,
    }
}

/// The j-th thing that the k-th write names. Nothing where the write is a copy or sets a flag. What is named decides: two
/// readings that agree on it give equal values, and numbers are read as they are known. Two steps of the line at any two
/// placements that agree on what a write names agree on what is written, and a placed line steps as the line says.
pub fn named(row: &[MicroOp], s: &Sym, k: usize, j: usize) -> Option<Source>
    requires { length row.now ≤ 40 }
    ensures is { result ≡ slice_get (named_of row.now s.now k) j }
    ensures decides { NamesDecide row.now s.now.width (known_in s.now) }
    ensures known { length s.now.args ≤ 3 → (p : Placement) → ReadsKnown p s.now }
    ensures line { DecidesLine row.now s.now }
{
    named_source(row, s, k, j)
}
