ghost use Rattle.std.specs.Prelude.{◌≡◌, ◌+◌, ◌*◌, ◌<◌, ◌≤◌, ◌^◌, length, slice_index};
ghost use Rattle.asm_core.specs.Machine.{scratch_base};
ghost use Rattle.asm_core.specs.Memory.{modulo, address_of, base_in, index_in, word_at, with_word, in_scratch, is_good_byte, is_good_access, scratch_word, with_scratch_word};
ghost use Rattle.asm_core.specs.Machine.{reg_in};

use asm_core::{Base, Form, Machine, Ranges, Reg};

pub fn register(m: &Machine, r: Reg) -> u32
    ensures { result ≡ reg_in r m.now }
{
    m.regs[r.number()]
}

fn base(form: &Form, m: &Machine) -> u32
    ensures { result ≡ base_in form.now.base m.now }
{
    match form.base {
        None => 0,
        Some(Base::Esp) => m.esp,
        Some(Base::Reg(r)) => register(m, r),
    }
}

fn index(form: &Form, m: &Machine) -> u64
    ensures is { result ≡ index_in form.now.index m.now }
    ensures small { result < 2 ^ 40 }
{
    match form.index {
        None => 0,
        Some((r, scale)) => u64::from(register(m, r)) * u64::from(scale),
    }
}

/// A number read modulo 2 to so many bits.
pub fn number(n: i64, bits: u8) -> u64
    requires { bits ≤ 64 }
    ensures is { result ≡ modulo n bits }
    ensures small { result < 2 ^ bits }
{
    let modulus = 1_u128 << bits;
    let size = u128::from(n.unsigned_abs());
    let cut = if n >= 0 {
        size % modulus
    } else {
        modulus - 1 - (size - 1) % modulus
    };
    cut as u64
}

/// The address that a form gives.
pub fn address(form: &Form, m: &Machine) -> u32
    ensures { result ≡ address_of form.now m.now }
{
    ((number(form.disp, 32) + u64::from(base(form, m)) + index(form, m)) % 4294967296) as u32
}

/// The bytes from an address on as one number.
pub fn word_at(ranges: &Ranges, address: u64, count: u8) -> u64
    requires count { count ≤ 8 }
    requires address { address + count < 2 ^ 40 }
    ensures is { result ≡ word_at count address ranges.now }
    ensures small { result < 256 ^ count }
{
    if count == 0 {
        return 0;
    }
    let low = ranges.byte_at((address % 4294967296) as u32);
    let rest = word_at(ranges, address + 1, count - 1);
    u64::from(low) + 256 * rest
}

/// Writes the low bytes of a value from an address on.
pub fn set_word(ranges: &mut Ranges, address: u64, count: u8, value: u64)
    requires { address + count < 2 ^ 40 }
    ensures { ranges.new ≡ with_word count address value ranges.old }
{
    if count == 0 {
        return;
    }
    ranges.set_byte((address % 4294967296) as u32, (value % 256) as u8);
    set_word(ranges, address + 1, count - 1, value / 256);
}

/// Whether the address lies in the 64 bytes of the scratch.
fn in_scratch(m: &Machine, address: u32) -> bool
    ensures { result ≡ in_scratch m.now address }
{
    let base = (u64::from(m.esp) + 4 * u64::from(m.scratch_top) + 4294967296 - 64) % 4294967296;
    (u64::from(address) + 4294967296 - base) % 4294967296 < 64
}

fn is_good_byte(m: &Machine, through: Option<u8>, store: bool, address: u32) -> bool
    ensures { result ≡ is_good_byte m.now through store address }
{
    m.ranges.lets_in(through, store, address) && !in_scratch(m, address)
}

/// Whether each of the bytes from an address on may be reached.
pub fn is_good_access(
    m: &Machine,
    through: Option<u8>,
    store: bool,
    count: u8,
    address: u64,
) -> bool
    requires { address + count < 2 ^ 40 }
    ensures { result ≡ is_good_access m.now through store count address }
{
    if count == 0 {
        return true;
    }
    is_good_byte(m, through, store, (address % 4294967296) as u32)
        && is_good_access(m, through, store, count - 1, address + 1)
}

fn byte(bytes: &[u8], k: usize) -> u64
    ensures is { result ≡ slice_index bytes.now k }
    ensures small { result < 256 }
{
    if k < bytes.len() {
        u64::from(bytes[k])
    } else {
        0
    }
}

/// The word of that number of the scratch.
pub fn scratch_word(bytes: &[u8], n: u32) -> u64
    ensures is { result ≡ scratch_word bytes.now n }
    ensures small { result < 2 ^ 32 }
{
    let first = 4 * n as usize;
    byte(bytes, first)
        + 256 * byte(bytes, first + 1)
        + 65536 * byte(bytes, first + 2)
        + 16777216 * byte(bytes, first + 3)
}

pub fn set_scratch_word(bytes: &mut [u8], n: u32, value: u64)
    requires { 4 * n + 4 ≤ length bytes.old }
    ensures { bytes.new ≡ with_scratch_word bytes.old n value }
{
    let first = 4 * n as usize;
    bytes[first] = (value % 256) as u8;
    bytes[first + 1] = (value / 256 % 256) as u8;
    bytes[first + 2] = (value / 65536 % 256) as u8;
    bytes[first + 3] = (value / 16777216 % 256) as u8;
}
