//! What a patch adds to a statement.

ghost use Rattle.std.specs.Prelude.{◌≡◌, Some};
ghost use Rattle.blk_patch.specs.Items.{has, item_number};

use asm_core::Reg;

/// Something that a patch adds to a statement.
#[derive(Clone, Copy, Debug)]
pub enum Item {
    /// The register is clobbered.
    Clobber(Reg),
    /// `memory` is clobbered.
    Memory,
    /// `cc` is clobbered.
    Cc,
    /// The output is early, in every alternative.
    Early(u8),
    /// The output is read too.
    Plus(u8),
    /// The operand is in a register that has a byte name.
    Byte(u8),
}

impl Item {
    /// A number that no other item has.
    fn number(self) -> u32
        ensures { result ≡ item_number self }
    {
        match self {
            Item::Clobber(register) => register.number() as u32,
            Item::Memory => 7,
            Item::Cc => 8,
            Item::Early(k) => 9 + 3 * k as u32,
            Item::Plus(k) => 10 + 3 * k as u32,
            Item::Byte(k) => 11 + 3 * k as u32,
        }
    }
}

/// Whether the item is among these.
#[tactic(auto, unfolding(crate::specs::Items::has))]
pub fn has(items: &[Item], item: Item) -> bool
    ensures { result ≡ has items.now item }
{
    items.iter().any(|other| item.number() == other.number())
}
