ghost use Rattle.std.specs.Prelude.{◌≡◌, ◌++◌, false, true, length, slice_get};
ghost use Rattle.std.specs.List.{filter_map};
ghost use Rattle.asm_core.specs.Entries.{site_count, count_at, or_else, input_load, touched, target_store, op_load, op_access, row_access, memory_arg, memory_in, access_at, accesses_of};

use crate::entries::{all_origins, line_arg, pointed_arg};
use crate::fact::{rank, site_origin};
use crate::part::{count, size};
use asm_core::{Access, Arg, Bytes, Input, MicroOp, Origin, Site, Sym, Target, Width};

fn site_count(width: Width, site: Site) -> u8
    ensures { result ≡ site_count width site }
{
    match site {
        Site::Argument(_, bytes) => count(width, bytes),
        _ => size(width),
    }
}

/// How many bytes of the origin a site has.
fn count_at(width: Width, origin: Origin, site: Site) -> Option<u8>
    ensures { result ≡ count_at width origin site }
{
    if rank(site_origin(width, site)) == rank(origin) {
        Some(site_count(width, site))
    } else {
        None
    }
}

fn or_else(first: Option<u8>, second: Option<u8>) -> Option<u8>
    ensures { result ≡ or_else first second }
{
    match first {
        Some(n) => Some(n),
        None => second,
    }
}

fn input_load(width: Width, origin: Origin, x: Input) -> Option<u8>
    ensures { result ≡ input_load width origin x }
{
    match x {
        Input::Read(site) => count_at(width, origin, site),
        _ => None,
    }
}

fn touched(width: Width, origin: Origin, target: Target) -> Option<u8>
    ensures { result ≡ touched width origin target }
{
    match target {
        Target::Touch(k) => count_at(width, origin, Site::Argument(k, Bytes::Whole)),
        _ => None,
    }
}

fn target_store(width: Width, origin: Origin, target: Target) -> Option<u8>
    ensures { result ≡ target_store width origin target }
{
    match target {
        Target::Site(site) => count_at(width, origin, site),
        _ => touched(width, origin, target),
    }
}

fn op_load(width: Width, origin: Origin, op: &MicroOp) -> Option<u8>
    ensures { result ≡ op_load width origin op.now }
{
    let last = or_else(
        input_load(width, origin, op.y),
        input_load(width, origin, op.z),
    );
    let inputs = or_else(input_load(width, origin, op.x), last);
    or_else(touched(width, origin, op.target), inputs)
}

fn op_access(store: bool, width: Width, origin: Origin, op: &MicroOp) -> Option<u8>
    ensures { result ≡ op_access store width origin op.now }
{
    if store {
        target_store(width, origin, op.target)
    } else {
        op_load(width, origin, op)
    }
}

/// How many bytes of an origin a row stores, or else loads; `None` where it doesn't.
fn row_access(store: bool, width: Width, origin: Origin, row: &[MicroOp]) -> Option<u8>
    ensures { result ≡ row_access store width origin row.now }
{
    for op in row {
        if let Some(bytes) = op_access(store, width, origin, op) {
            return Some(bytes);
        }
    }
    None
}

/// The memory that an origin of a line is.
fn memory(s: &Sym, origin: Origin) -> Option<Arg>
    ensures { result ≡ memory_in s.now origin }
{
    match origin {
        Origin::Argument(k) => memory_arg(line_arg(s, k)),
        Origin::Pointed(r) => Some(pointed_arg(r)),
        _ => None,
    }
}

fn memory_arg(arg: Arg) -> Option<Arg>
    ensures { result ≡ memory_arg arg }
{
    match arg {
        Arg::Memory(k) => Some(Arg::Memory(k)),
        Arg::Address(disp, base, index) => Some(Arg::Address(disp, base, index)),
        _ => None,
    }
}

pub fn access_at(store: bool, row: &[MicroOp], s: &Sym, origin: Origin) -> Option<Access>
    ensures { result ≡ access_at store row.now s.now origin }
{
    let to = memory(s, origin)?;
    let bytes = row_access(store, s.width, origin, row)?;
    Some(Access { to, bytes, store })
}

/// The k-th store, or else the k-th load, of the origins.
fn nth_access(store: bool, row: &[MicroOp], s: &Sym, origins: &[Origin], k: usize) -> Option<Access>
    ensures { result ≡ slice_get (filter_map (access_at store row.now s.now) origins.now) k }
{
    let mut left = k;
    for origin in origins {
        if let Some(access) = access_at(store, row, s, *origin) {
            if left == 0 {
                return Some(access);
            }
            left -= 1;
        }
    }
    None
}

fn count_loads(row: &[MicroOp], s: &Sym, origins: &[Origin]) -> usize
    ensures is { result ≡ length (filter_map (access_at false row.now s.now) origins.now) }
{
    let mut count = 0;
    for origin in origins {
        if access_at(false, row, s, *origin).is_some() {
            count += 1;
        }
    }
    count
}

/// The k-th access to memory, loads before stores.
#[tactic(auto, using(crate::proofs::Appended::nth_of_both))]
pub fn access(row: &[MicroOp], s: &Sym, k: usize) -> Option<Access>
    ensures { result ≡ slice_get (accesses_of row.now s.now) k }
{
    let origins = all_origins();
    let loads = count_loads(row, s, origins);
    if k < loads {
        nth_access(false, row, s, origins, k)
    } else {
        nth_access(true, row, s, origins, k - loads)
    }
}
