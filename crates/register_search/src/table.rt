ghost use Rattle.std.specs.Prelude.{◌≡◌, ℕ, ◌<◌, ◌&&◌, ◌||◌, length, slice_index_or, IsTrue, true};
ghost use Rattle.register_search.specs.Assignment.{registers_of};
ghost use Rattle.register_search.specs.Table.{holds, leads, leads_by, always, all_below};

use crate::CHOICES;

/// The registers of each choice, bit n standing for register n.
const REGISTERS: [u32; CHOICES] = [1, 2, 4, 8, 16, 32, 64, 9];

/// The registers that a choice takes, bit n standing for register n.
pub(crate) fn registers_of(choice: usize) -> u32
    requires { choice < 8 }
    ensures { result ≡ registers_of choice }
{
    REGISTERS[choice]
}

/// For each choice the sets of registers that are apart from it, bit n standing for the set n.
const APART: [u128; CHOICES] = [
    0x5555_5555_5555_5555_5555_5555_5555_5555,
    0x3333_3333_3333_3333_3333_3333_3333_3333,
    0x0f0f_0f0f_0f0f_0f0f_0f0f_0f0f_0f0f_0f0f,
    0x00ff_00ff_00ff_00ff_00ff_00ff_00ff_00ff,
    0x0000_ffff_0000_ffff_0000_ffff_0000_ffff,
    0x0000_0000_ffff_ffff_0000_0000_ffff_ffff,
    0x0000_0000_0000_0000_ffff_ffff_ffff_ffff,
    0x0055_0055_0055_0055_0055_0055_0055_0055,
];

/// Sets of taken registers: bit n stands for the set n, whose bits stand for the registers in it.
#[derive(Clone, Copy)]
pub(crate) struct Table {
    sets: u128,
}

impl Table {
    /// Every set.
    pub const ALL: Table = Table { sets: u128::MAX };

    /// No set.
    const NONE: Table = Table { sets: 0 };

    pub fn holds_empty_set(self) -> bool
        ensures { result ≡ holds self 0 }
    {
        self.sets & 1 == 1
    }

    /// The sets of both tables.
    pub fn and(self, other: Table) -> Table
        ensures { (set : ℕ) → holds result set ≡ (holds self set && holds other set) }
    {
        Table {
            sets: self.sets & other.sets,
        }
    }

    /// The sets of either table.
    fn or(self, other: Table) -> Table
        ensures { (set : ℕ) → holds result set ≡ (holds self set || holds other set) }
    {
        Table {
            sets: self.sets | other.sets,
        }
    }

    /// The sets that are apart from the choice and, with it, are in this table.
    fn before_choice(self, choice: usize) -> Table
        requires { choice < 8 }
        ensures { (set : ℕ) → set < 128 → holds result set ≡ leads_by choice (holds self) set }
    {
        Table {
            sets: (self.sets >> REGISTERS[choice]) & APART[choice],
        }
    }

    /// The sets from which one of the choices leads to a set of this table.
    pub fn before(self, choices: [bool; CHOICES]) -> Table
        ensures { (set : ℕ) → set < 128 → holds result set ≡ leads choices (holds self) set }
    {
        let mut table = Table::NONE;
        for choice in 0..CHOICES {
            if choices[choice] {
                table = table.or(self.before_choice(choice));
            }
        }
        table
    }
}
