ghost use Rattle.std.specs.Prelude.{◌≡◌};
ghost use Rattle.std.specs.Option.{option_copied};

use crate::CType;
use asm_core::Items;

/// What `Tag::known_from` is for a struct or union without a body.
pub const NO_BODY: u32 = 4294967295;

/// The structs and unions of a file. A tagged type is named by its place in the list.
#[derive(Debug, Drop)]
pub struct Tags {
    pub list: Items<Tag>,
}

/// A struct or a union.
#[derive(Debug, Drop)]
pub struct Tag {
    /// Whether it is a union.
    pub joined: bool,
    /// The members' names, empty for a member without one.
    pub names: Items<Items<u8>>,
    pub members: Items<CType>,
    /// `None` where the size isn't known.
    pub layout: Option<Layout>,
    /// The offset in the file just past the body's closing brace, from which on members and size are known, or `NO_BODY`.
    pub known_from: u32,
}

/// Where the members of a struct or union lie, in bytes.
#[derive(Debug, Drop)]
pub struct Layout {
    /// How far each member lies from the beginning.
    pub offsets: Items<u32>,
    /// The bytes of the whole, those after the last member too.
    pub size: u32,
    /// What the address of the whole is a multiple of.
    pub align: u32,
}

impl Tags {
    ghost use Rattle.c_types.specs.Types.{known_tag};

    /// The struct or union of that number, if its body has ended at the offset `place` of the file (C11 6.7.2.1, 8).
    pub fn known(&self, number: u32, place: u32) -> Option<&Tag>
        ensures { option_copied result ≡ known_tag self.now number place }
    {
        let tag = self.list.get(number as usize)?;
        if tag.known_from < NO_BODY && tag.known_from <= place {
            Some(tag)
        } else {
            None
        }
    }
}
