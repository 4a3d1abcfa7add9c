//! A line under a placement.

ghost use Rattle.std.specs.Prelude.{◌≡◌, slice_get};
ghost use Rattle.asm_core.specs.Placement.{spot_of};
ghost use Rattle.asm_core.specs.Reading.Placed.{inst_under, operand_at, operand_under, placed_base, placed_disp, placed_index, placed_place, spot_disp, spot_form, spot_place};
ghost use Rattle.asm_core.specs.Reading.Text.{address_arg, base_arg, index_arg, memory_arg, number_arg, register_arg};

use asm_core::{Arg, Base, Disp, Form, Inst, InstArg, Place, Placement, Reg, Slice, Spot, Sym};

fn place_under(at: &Placement, place: Place) -> Place
    ensures { result ≡ placed_place at.now place }
{
    let k = match place {
        Place::Reg(_) => return place,
        Place::Operand(k) => k,
    };
    match at.spot(k) {
        Spot::Register(register) => Place::Reg(register),
        Spot::Pair => Place::Reg(Reg::Eax),
        Spot::Memory(_) | Spot::Number(_) => place,
    }
}

fn disp_under(at: &Placement, disp: Disp) -> Disp
    ensures { result ≡ placed_disp at.now disp }
{
    let k = match disp {
        Disp::Number(_) => return disp,
        Disp::Hole(k) => k,
    };
    match at.spot(k) {
        Spot::Number(n) => Disp::Number(n),
        Spot::Register(_) | Spot::Pair | Spot::Memory(_) => disp,
    }
}

fn register_arg(place: Place, slice: Slice) -> Option<InstArg>
    ensures { result ≡ register_arg place slice }
{
    match place {
        Place::Reg(register) => Some(InstArg::Register(register, slice)),
        Place::Operand(_) => None,
    }
}

fn number_arg(disp: Disp) -> Option<InstArg>
    ensures { result ≡ number_arg disp }
{
    match disp {
        Disp::Number(n) => Some(InstArg::Number(n)),
        Disp::Hole(_) => None,
    }
}

fn memory_arg(at: &Placement, k: u8) -> Option<InstArg>
    ensures { result ≡ memory_arg k (spot_form (spot_of at.now k)) }
{
    match at.spot(k) {
        Spot::Memory(form) => Some(InstArg::Address(form, Some(k))),
        Spot::Register(_) | Spot::Pair | Spot::Number(_) => None,
    }
}

fn base_under(at: &Placement, base: Option<Place>) -> Option<Base>
    ensures { result ≡ base_arg (placed_base at.now base) }
{
    let Some(place) = base else {
        return None;
    };
    match place_under(at, place) {
        Place::Reg(register) => Some(Base::Reg(register)),
        Place::Operand(_) => None,
    }
}

fn index_under(at: &Placement, index: Option<(Place, u8)>) -> Option<(Reg, u8)>
    ensures { result ≡ index_arg (placed_index at.now index) }
{
    let Some((place, scale)) = index else {
        return None;
    };
    match place_under(at, place) {
        Place::Reg(register) => Some((register, scale)),
        Place::Operand(_) => None,
    }
}

fn address_arg(
    at: &Placement,
    disp: Disp,
    base: Option<Place>,
    index: Option<(Place, u8)>,
) -> Option<InstArg>
    ensures { result ≡ address_arg (placed_disp at.now disp) (placed_base at.now base) (placed_index at.now index) }
{
    let base = base_under(at, base);
    let index = index_under(at, index);
    match disp_under(at, disp) {
        Disp::Number(disp) => Some(InstArg::Address(Form { disp, base, index }, None)),
        Disp::Hole(_) => None,
    }
}

fn operand_under(at: &Placement, arg: Arg) -> Option<InstArg>
    ensures { result ≡ operand_under at.now arg }
{
    match arg {
        Arg::Register(place, slice) => register_arg(place_under(at, place), slice),
        Arg::Number(n) => Some(InstArg::Number(n)),
        Arg::Hole(k) => number_arg(disp_under(at, Disp::Hole(k))),
        Arg::Memory(k) => memory_arg(at, k),
        Arg::Address(disp, base, index) => address_arg(at, disp, base, index),
        Arg::Label(n) => Some(InstArg::Label(n)),
    }
}

fn operand_at(at: &Placement, arg: Option<Arg>) -> Option<InstArg>
    ensures { result ≡ operand_at at.now arg }
{
    match arg {
        Some(arg) => operand_under(at, arg),
        None => None,
    }
}

/// The line under a placement: each operand is what the placement puts there. It takes no memory.
pub fn instantiate(s: &Sym, at: &Placement) -> Inst
    ensures { result ≡ inst_under at.now s.now }
{
    Inst {
        op: s.op,
        width: s.width,
        args: [
            operand_at(at, s.args.get(0)),
            operand_at(at, s.args.get(1)),
            operand_at(at, s.args.get(2)),
        ],
        repeat: s.repeat,
        lock: s.lock,
    }
}
