ghost use Rattle.std.specs.Prelude.{◌≡◌, ◌↔◌, IsSome};
ghost use Rattle.std.specs.Option.{option_copied};
ghost use Rattle.c_scopes.specs.Seen.{declaration_of, kind_of, tag_type, visible_type};
ghost use Rattle.c_scopes.specs.declared.declaration.NameSpace.TheVariants.{Ordinary};

use crate::{Entity, NameKind, NameSpace, Scopes};
use c_types::CType;

/// The type of the ordinary name at the offset `place` of the file. `None` where it isn't declared there, or its type isn't known.
pub fn visible<'a>(s: &'a Scopes, name: &[u8], place: u32) -> Option<&'a CType>
    ensures { option_copied result ≡ visible_type s.now name.now place }
{
    s.declaration(NameSpace::Ordinary, name, place)?
        .ctype
        .as_ref()
}

/// What the ordinary name stands for at the offset `place` of the file. `None` where it isn't declared there.
pub fn name_kind(s: &Scopes, name: &[u8], place: u32) -> Option<NameKind>
    ensures is { result ≡ kind_of s.now name.now place }
    ensures declared { IsSome result ↔ IsSome (declaration_of s.now Ordinary name.now place) }
{
    match s.declaration(NameSpace::Ordinary, name, place)?.entity {
        Entity::Name(kind) => Some(kind),
        Entity::Tag => None,
    }
}

/// The type that the tag names at the offset `place` of the file. `None` where it isn't declared there, or its type isn't known.
pub fn tagged<'a>(s: &'a Scopes, tag: &[u8], place: u32) -> Option<&'a CType>
    ensures { option_copied result ≡ tag_type s.now tag.now place }
{
    s.declaration(NameSpace::Tag, tag, place)?.ctype.as_ref()
}
