//! The places of each name.

ghost use Rattle.std.specs.Prelude.{◌≡◌, ◌<◌, ◌≤◌, length, IfSome};
ghost use Rattle.blk_deps.specs.Ruling.{place_index, mask_at, AddsName, AreMasks};

use asm_core::Cell;

/// The places of each name, as bits: of the registers' names and of the operands'.
#[derive(Clone, Copy)]
pub struct PlaceNames {
    masks: [u64; 37],
}

/// The number of a name among those that places have.
fn place_index(cell: Cell) -> Option<usize>
    ensures is { result ≡ place_index cell }
    ensures below { IfSome result (λ x. x < 37) }
{
    match cell {
        Cell::Reg(register) => Some(register.number()),
        Cell::Operand(k) if k < 30 => Some(7 + k as usize),
        _ => None,
    }
}

/// Puts place p to those of its name.
fn add_name(masks: &mut [u64; 37], p: usize, name: Cell)
    requires { p < 37 }
    ensures { AddsName p name masks.old masks.new }
{
    if let Some(x) = place_index(name) {
        masks[x] |= 1 << p;
    }
}

impl PlaceNames {
    /// Of places with these names.
    pub fn of(names: &[Cell]) -> PlaceNames
        requires { length names.now ≤ 37 }
        ensures { AreMasks names.now result.masks }
    {
        let mut masks = [0; 37];
        for p in 0..names.len() {
            add_name(&mut masks, p, names[p]);
        }
        PlaceNames { masks }
    }

    /// Bit p: place p has the name.
    pub(crate) fn places(&self, cell: Cell) -> u64
        ensures { result ≡ mask_at self.now.masks (place_index cell) }
    {
        match place_index(cell) {
            Some(x) => self.masks[x],
            None => 0,
        }
    }
}
