//! Companies: which operands are at one place under a shape.

ghost use Rattle.std.specs.Prelude.{◌≡◌, slice_get};
ghost use Rattle.asm_core.specs.Rows.{same_place};
ghost use Rattle.asm_core.specs.Company.{half_in, pair_at, held_at, same_held, same_company, same_in_register, same_companies, same_if_there};

use asm_core::{Held, Place, Places, Reg};

fn same_place(p: Place, q: Place) -> bool
    ensures { result ≡ same_place p q }
{
    match (p, q) {
        (Place::Reg(r), Place::Reg(other)) => r.number() == other.number(),
        (Place::Operand(k), Place::Operand(other)) => k == other,
        _ => false,
    }
}

/// The half of a value in edx:eax that the register holds.
fn half_in(register: Reg) -> Held
    ensures { result ≡ half_in register }
{
    match register {
        Reg::Eax => Held::Low,
        Reg::Edx => Held::High,
        _ => Held::Nothing,
    }
}

/// What of an operand in edx:eax is at the place.
fn pair_at(place: Place) -> Held
    ensures { result ≡ pair_at place }
{
    match place {
        Place::Reg(register) => half_in(register),
        Place::Operand(_) => Held::Nothing,
    }
}

/// What of an operand that is there is at the place.
fn held_at(place: Place, operand: Places) -> Held
    ensures { result ≡ held_at place operand }
{
    match operand {
        Places::One(other) if same_place(place, other) => Held::All,
        Places::One(_) => Held::Nothing,
        Places::Pair => pair_at(place),
    }
}

fn same_held(held: Held, other: Held) -> bool
    ensures { result ≡ same_held held other }
{
    held == other
}

/// Whether place `p` has the company under one shape that `q` has under another; operands are at `xs` and at `ys`.
#[tactic(auto, using(crate::proofs::CompanyLemmas::company_steps))]
fn same_company(p: Place, xs: &[Places], q: Place, ys: &[Places]) -> bool
    ensures { result ≡ same_company p xs.now q ys.now }
{
    if xs.len() != ys.len() {
        return false;
    }
    for (k, x) in xs.iter().enumerate() {
        if !same_held(held_at(p, *x), held_at(q, ys[k])) {
            return false;
        }
    }
    true
}

/// Whether the register has one company under two shapes whose operands are at `xs` and at `ys`.
pub fn same_in_register(register: Reg, xs: &[Places], ys: &[Places]) -> bool
    ensures { result ≡ same_in_register register xs.now ys.now }
{
    same_company(Place::Reg(register), xs, Place::Reg(register), ys)
}

/// Whether an operand that is at `x` under one shape and at `y` under the other has one company under both.
fn same_companies(xs: &[Places], ys: &[Places], x: Places, y: Places) -> bool
    ensures { result ≡ same_companies xs.now ys.now x y }
{
    match (x, y) {
        (Places::One(p), Places::One(q)) => same_company(p, xs, q, ys),
        (Places::Pair, Places::Pair) => {
            same_in_register(Reg::Eax, xs, ys) && same_in_register(Reg::Edx, xs, ys)
        }
        _ => false,
    }
}

fn same_if_there(xs: &[Places], ys: &[Places], x: Option<Places>, y: Option<Places>) -> bool
    ensures { result ≡ same_if_there xs.now ys.now x y }
{
    match (x, y) {
        (Some(x), Some(y)) => same_companies(xs, ys, x, y),
        _ => true,
    }
}

/// Whether operand k has one company under two shapes whose operands are at `xs` and at `ys`.
pub fn same_of_operand(k: usize, xs: &[Places], ys: &[Places]) -> bool
    ensures { result ≡ same_if_there xs.now ys.now (slice_get xs.now k) (slice_get ys.now k) }
{
    same_if_there(xs, ys, xs.get(k).copied(), ys.get(k).copied())
}
