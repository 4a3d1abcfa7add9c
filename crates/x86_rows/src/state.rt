ghost use Rattle.std.specs.Prelude.{◌≡◌, ◌/◌, ◌<◌, ◌^◌, slice_index};
ghost use Rattle.asm_core.specs.MicroOps.{arg_at, read_arg, read_site, read_in, address_in, is_good_arg, is_good_site, is_good_input, is_good_target, is_good_op, arg_destination, site_destination, destination_of, put, pushed, popped};

use crate::memory::{
    address, is_good_access, number, register, scratch_word, set_scratch_word, set_word, word_at,
};
use crate::part::{count, first, part, size, sized, with_part, within};
use asm_core::{Bytes, Destination, Input, Inst, InstArg, Machine, MicroOp, Site, Target, Width};
use sqlite_items::at;

/// The k-th operand.
fn arg(i: &Inst, k: u8) -> Option<InstArg>
    ensures { result ≡ arg_at i.now k }
{
    match at(&i.args, usize::from(k)) {
        Some(arg) => *arg,
        None => None,
    }
}

fn read_arg(width: Width, bytes: Bytes, arg: Option<InstArg>, m: &Machine) -> u64
    ensures { result ≡ read_arg width bytes arg m.now }
{
    match arg {
        Some(InstArg::Register(r, slice)) => u64::from(part(within(slice, bytes), register(m, r))),
        Some(InstArg::Number(n)) => number(n, 8 * count(width, bytes)),
        Some(InstArg::Address(form, _)) => word_at(
            &m.ranges,
            u64::from(address(&form, m)) + u64::from(first(bytes)),
            count(width, bytes),
        ),
        Some(InstArg::Label(_)) | None => 0,
    }
}

fn read_site(i: &Inst, m: &Machine, site: Site) -> u64
    ensures { result ≡ read_site i.now m.now site }
{
    match site {
        Site::Argument(k, bytes) => read_arg(i.width, bytes, arg(i, k), m),
        Site::Register(r, bytes) => u64::from(part(sized(i.width, bytes), register(m, r))),
        Site::Pointed(r) => word_at(&m.ranges, u64::from(register(m, r)), size(i.width)),
        Site::Flag(f) => u64::from(m.flags.has(f)),
    }
}

fn address_in(arg: Option<InstArg>, m: &Machine) -> u32
    ensures { result ≡ address_in arg m.now }
{
    match arg {
        Some(InstArg::Address(form, _)) => address(&form, m),
        _ => 0,
    }
}

/// What an input that is no value of the row is in a state.
pub fn read(i: &Inst, choice: u64, words: &[u32; 4], m: &Machine, x: Input) -> u64
    ensures { result ≡ read_in i.now choice words.now m.now x }
{
    match x {
        Input::Read(site) | Input::Kept(site) => read_site(i, m, site),
        Input::Address(k) => u64::from(address_in(arg(i, k), m)),
        Input::Top => scratch_word(&m.scratch, m.scratch_top.saturating_sub(1)),
        Input::Undefined(n) => from_bit(choice, n),
        Input::Outside(k) => u64::from(word(words, k)),
        Input::Earlier(_) | Input::Number(_) => 0,
    }
}

/// The bits of a number from that one on.
fn from_bit(choice: u64, n: u8) -> u64
    ensures { result ≡ choice / 2 ^ n }
{
    if n < 64 { choice >> n } else { 0 }
}

fn word(words: &[u32; 4], k: u8) -> u32
    ensures { result ≡ slice_index words.now k }
{
    let k = usize::from(k);
    if k < words.len() { words[k] } else { 0 }
}

fn is_good_arg(width: Width, bytes: Bytes, store: bool, arg: Option<InstArg>, m: &Machine) -> bool
    ensures { result ≡ is_good_arg width bytes store arg m.now }
{
    match arg {
        Some(InstArg::Register(..)) => true,
        Some(InstArg::Number(_)) => !store,
        Some(InstArg::Address(form, through)) => is_good_access(
            m,
            through,
            store,
            count(width, bytes),
            u64::from(address(&form, m)) + u64::from(first(bytes)),
        ),
        Some(InstArg::Label(_)) | None => false,
    }
}

fn is_good_site(i: &Inst, m: &Machine, store: bool, site: Site) -> bool
    ensures { result ≡ is_good_site i.now m.now store site }
{
    match site {
        Site::Argument(k, bytes) => is_good_arg(i.width, bytes, store, arg(i, k), m),
        Site::Pointed(r) => is_good_access(
            m,
            None,
            store,
            size(i.width),
            u64::from(register(m, r)),
        ),
        Site::Register(..) | Site::Flag(_) => true,
    }
}

fn is_good_input(i: &Inst, m: &Machine, x: Input) -> bool
    ensures { result ≡ is_good_input i.now m.now x }
{
    match x {
        Input::Read(site) => is_good_site(i, m, false, site),
        Input::Top => 0 < m.scratch_top,
        _ => true,
    }
}

fn is_good_target(i: &Inst, m: &Machine, target: Target) -> bool
    ensures { result ≡ is_good_target i.now m.now target }
{
    match target {
        Target::Site(site) => is_good_site(i, m, true, site),
        Target::Touch(k) => {
            is_good_site(i, m, false, Site::Argument(k, Bytes::Whole))
                && is_good_site(i, m, true, Site::Argument(k, Bytes::Whole))
        }
        Target::Push => m.scratch_top < 16,
        Target::Pop => 0 < m.scratch_top,
        Target::Temporary | Target::Jump | Target::Stay | Target::Turn | Target::Divide => true,
    }
}

/// Whether all that a micro-operation reads and writes can be read and written.
pub fn is_good_op(i: &Inst, m: &Machine, op: &MicroOp) -> bool
    ensures { result ≡ is_good_op i.now m.now op.now }
{
    is_good_input(i, m, op.x)
        && is_good_input(i, m, op.y)
        && is_good_input(i, m, op.z)
        && is_good_target(i, m, op.target)
}

fn arg_destination(width: Width, bytes: Bytes, arg: Option<InstArg>, m: &Machine) -> Destination
    ensures { result ≡ arg_destination width bytes arg m.now }
{
    match arg {
        Some(InstArg::Register(r, slice)) => Destination::Register(r, within(slice, bytes)),
        Some(InstArg::Address(form, _)) => {
            let from = (u64::from(address(&form, m)) + u64::from(first(bytes))) % 4294967296;
            Destination::Memory(from as u32, count(width, bytes))
        }
        _ => Destination::Nowhere,
    }
}

fn site_destination(i: &Inst, m: &Machine, site: Site) -> Destination
    ensures { result ≡ site_destination i.now m.now site }
{
    match site {
        Site::Argument(k, bytes) => arg_destination(i.width, bytes, arg(i, k), m),
        Site::Register(r, bytes) => Destination::Register(r, sized(i.width, bytes)),
        Site::Pointed(r) => Destination::Memory(register(m, r), size(i.width)),
        Site::Flag(f) => Destination::Flag(f),
    }
}

/// Where the value of a target goes.
pub fn destination(i: &Inst, m: &Machine, target: Target) -> Destination
    ensures { result ≡ destination_of i.now m.now target }
{
    match target {
        Target::Site(site) => site_destination(i, m, site),
        Target::Push => Destination::Push(m.scratch_top),
        Target::Pop => Destination::Pop(m.scratch_top),
        _ => Destination::Nowhere,
    }
}

fn push(m: &mut Machine, n: u32, v: u64)
    requires { n < 16 }
    ensures { m.new ≡ pushed n v m.old }
{
    set_scratch_word(&mut m.scratch, n, v);
    m.scratch_top = n + 1;
    m.esp = ((u64::from(m.esp) + 4294967292) % 4294967296) as u32;
}

fn pop(m: &mut Machine, n: u32)
    ensures { m.new ≡ popped n m.old }
{
    m.scratch_top = n.saturating_sub(1);
    m.esp = ((u64::from(m.esp) + 4) % 4294967296) as u32;
}

/// Writes a value, cut to its destination.
pub fn put(m: &mut Machine, destination: Destination, v: u64)
    ensures { m.new ≡ put destination v m.old }
{
    match destination {
        Destination::Nowhere => {}
        Destination::Register(r, bytes) => m.regs[r.number()] = with_part(bytes, v, register(m, r)),
        Destination::Memory(address, count) => set_word(
            &mut m.ranges,
            u64::from(address),
            count,
            v,
        ),
        Destination::Flag(f) => m.flags = m.flags.with(f, v),
        Destination::Push(n) if n < 16 => push(m, n, v),
        Destination::Push(_) => {}
        Destination::Pop(n) => pop(m, n),
    }
}
