ghost use Rattle.std.specs.Prelude.{◌≡◌, ◌<◌, ◌≤◌, length, slice_get};
ghost use Rattle.asm_core.specs.Entries.{slice_number, origin_rank, site_origin, input_origin, slice_with, named_alone, fact_in, fact_for, is_sure, known_from, fact_joined, op_fact, known_number, known_in, line_facts};

use crate::function::value;
use crate::memory::number;
use crate::part::{count, sized};
use crate::stepper::MOST;
use arrayvec::ArrayVec;
use asm_core::{Arg, Bytes, Fact, Function, Input, MicroOp, Origin, Site, Slice, Sym, Width};

pub type Facts = ArrayVec<Fact, MOST>;

pub fn slice_number(slice: Slice) -> u32
    ensures is { result ≡ slice_number slice }
    ensures small { result < 4 }
{
    match slice {
        Slice::Low8 => 0,
        Slice::High8 => 1,
        Slice::Low16 => 2,
        Slice::All => 3,
    }
}

/// The place of an origin in the order of sources.
pub fn rank(origin: Origin) -> u32
    ensures is { result ≡ origin_rank origin }
    ensures small { result < 51 }
{
    match origin {
        Origin::Argument(k) => 2 * u32::from(k.min(2)),
        Origin::Address(k) => 2 * u32::from(k.min(2)) + 1,
        Origin::Pointed(r) => 6 + r.number() as u32,
        Origin::Register(r, slice) => 13 + 4 * r.number() as u32 + slice_number(slice),
        Origin::Flag(f) => 41 + f as u32,
        Origin::Top => 48,
        Origin::Undefined => 49,
        Origin::Outside => 50,
    }
}

/// The least name of a register that has all these bytes.
pub fn slice_with(bytes: Bytes) -> Slice
    ensures { result ≡ slice_with bytes }
{
    match bytes {
        Bytes::Byte0 => Slice::Low8,
        Bytes::Byte1 => Slice::High8,
        Bytes::Low16 => Slice::Low16,
        _ => Slice::All,
    }
}

pub fn site_origin(width: Width, site: Site) -> Origin
    ensures { result ≡ site_origin width site }
{
    match site {
        Site::Argument(k, _) => Origin::Argument(k),
        Site::Register(r, bytes) => Origin::Register(r, slice_with(sized(width, bytes))),
        Site::Pointed(r) => Origin::Pointed(r),
        Site::Flag(f) => Origin::Flag(f),
    }
}

fn input_origin(width: Width, x: Input) -> Option<Origin>
    ensures { result ≡ input_origin width x }
{
    match x {
        Input::Read(site) | Input::Kept(site) => Some(site_origin(width, site)),
        Input::Address(k) => Some(Origin::Address(k)),
        Input::Top => Some(Origin::Top),
        Input::Undefined(_) => Some(Origin::Undefined),
        Input::Outside(_) => Some(Origin::Outside),
        Input::Earlier(_) | Input::Number(_) => None,
    }
}

/// The names of an origin alone.
fn named_alone(origin: Option<Origin>) -> u64
    ensures { result ≡ named_alone origin }
{
    match origin {
        None => 0,
        Some(origin) => 1 << rank(origin),
    }
}

fn known_number(width: Width, bytes: Bytes, s: &Sym, k: u8) -> Option<u64>
    ensures { result ≡ known_number width bytes (slice_get s.now.args k) }
{
    match s.args.get(usize::from(k)) {
        Some(Arg::Number(n)) => Some(number(n, 8 * count(width, bytes))),
        _ => None,
    }
}

fn known(s: &Sym, x: Input) -> Option<u64>
    ensures { result ≡ known_in s.now x }
{
    match x {
        Input::Read(Site::Argument(k, bytes)) => known_number(s.width, bytes, s, k),
        Input::Kept(Site::Argument(k, bytes)) => known_number(s.width, bytes, s, k),
        _ => None,
    }
}

/// The k-th fact, if there are so many.
pub fn fact_at(facts: &[Fact], k: usize) -> Fact
    ensures { result ≡ fact_in facts.now k }
{
    if k < facts.len() {
        facts[k]
    } else {
        Fact {
            known: None,
            names: 0,
        }
    }
}

fn input_fact(s: &Sym, facts: &[Fact], x: Input) -> Fact
    ensures { result ≡ fact_for s.now.width (known_in s.now) facts.now x }
{
    match x {
        Input::Earlier(k) => fact_at(facts, usize::from(k)),
        Input::Number(n) => Fact {
            known: Some(u64::from(n)),
            names: 0,
        },
        _ => Fact {
            known: known(s, x),
            names: named_alone(input_origin(s.width, x)),
        },
    }
}

/// What is true of every count: it is below 32.
fn is_sure(f: Function, width: Width) -> bool
    ensures { result ≡ is_sure f width }
{
    matches!(
        (f, width),
        (Function::CountBelowWidth | Function::CountTurns, Width::L)
    )
}

fn known_from(
    f: Function,
    width: Width,
    x: Option<u64>,
    y: Option<u64>,
    z: Option<u64>,
) -> Option<u64>
    ensures { result ≡ known_from f width x y z }
{
    if is_sure(f, width) {
        return Some(1);
    }
    match (x, y, z) {
        (Some(x), Some(y), Some(z)) => Some(value(f, width, x, y, z)),
        _ => None,
    }
}

fn joined(f: Function, width: Width, x: Fact, y: Fact, z: Fact) -> Fact
    ensures { result ≡ fact_joined f width x y z }
{
    let names = x.names | (y.names | z.names);
    match (f, x.known) {
        (Function::Pick, None) => Fact { known: None, names },
        (Function::Pick, Some(0)) => z,
        (Function::Pick, Some(_)) => y,
        _ => Fact {
            known: known_from(f, width, x.known, y.known, z.known),
            names,
        },
    }
}

fn op_fact(s: &Sym, facts: &[Fact], op: &MicroOp) -> Fact
    ensures { result ≡ op_fact s.now.width (known_in s.now) facts.now op.now }
{
    joined(
        op.function,
        s.width,
        input_fact(s, facts, op.x),
        input_fact(s, facts, op.y),
        input_fact(s, facts, op.z),
    )
}

/// What is known of the values of a line's row before any state is.
pub fn facts(row: &[MicroOp], s: &Sym) -> Facts
    requires { length row.now ≤ 40 }
    ensures { result.items ≡ line_facts row.now s.now }
{
    let mut facts = Facts::new();
    for op in row {
        let fact = op_fact(s, facts.as_slice(), op);
        facts.push(fact);
    }
    facts
}
