//! Members of structs and unions.

ghost use Rattle.std.specs.Prelude.{◌≡◌};
ghost use Rattle.std.specs.Option.{option_copied};
ghost use Rattle.c_values.specs.Ends.{Gives};
ghost use Rattle.c_values.specs.Members.{anonymous, is_named, is_unnamed, member_in, member_of, member_type, pointed_member_of, tag_number};

use crate::scalar::{Scalar, operand_of, varying};
use crate::{TypeEnd, Value};
use c_types::{CType, Tags};
use std::alloc::Global;

/// How many structs and unions around one another are searched for a member, the outermost too.
const DEEPEST: u32 = 64;

/// The number of a struct or union.
fn tag_number(t: &CType) -> Option<u32>
    ensures { result ≡ tag_number t.now }
{
    match t {
        CType::Tagged(number) => Some(*number),
        _ => None,
    }
}

fn is_unnamed(name: &[u8]) -> bool
    ensures { result ≡ is_unnamed name.now }
{
    name.len() == 0
}

fn is_named(name: &[u8], wanted: &[u8]) -> bool
    ensures { result ≡ is_named name.now wanted.now }
{
    !is_unnamed(name) && name == wanted
}

/// The struct or union without a name whose members are the outer one's (C11 6.7.2.1, 13).
fn anonymous(name: &[u8], t: &CType) -> Option<u32>
    ensures { result ≡ anonymous name.now t.now }
{
    if is_unnamed(name) {
        tag_number(t)
    } else {
        None
    }
}

/// The member of a struct or union whose body has ended at the place, or of one without a name inside it, `depth` of them around one another at most.
#[tactic(auto, using(crate::proofs::MemberLemmas::member_steps))]
fn member_in<'a>(
    tags: &'a Tags,
    place: u32,
    wanted: &[u8],
    number: u32,
    depth: u32,
) -> Option<&'a CType>
    ensures { option_copied result ≡ member_in depth tags.now place wanted.now number }
{
    if depth == 0 {
        return None;
    }
    let tag = tags.known(number, place)?;
    for k in 0..tag.members.len() {
        let name = tag.names.get(k)?;
        let t = tag.members.get(k)?;
        if is_named(name.as_slice(), wanted) {
            return Some(t);
        }
        let Some(inner) = anonymous(name.as_slice(), t) else {
            continue;
        };
        if let Some(found) = member_in(tags, place, wanted, inner, depth - 1) {
            return Some(found);
        }
    }
    None
}

/// The type of a member of an expression of the type.
fn member_type<'a>(tags: &'a Tags, place: u32, wanted: &[u8], t: &CType) -> Option<&'a CType>
    ensures { option_copied result ≡ member_type tags.now place wanted.now t.now }
{
    member_in(tags, place, wanted, tag_number(t)?, DEEPEST)
}

/// What `operand.wanted` is, of a struct or union whose body has ended at the offset `place` of the file (C11 6.5.2.3, 3).
pub fn member_of(
    alloc: Global,
    operand: Value,
    wanted: &[u8],
    tags: &Tags,
    place: u32,
) -> Result<Value, TypeEnd>
    ensures { Gives result (member_of tags.now place wanted.now operand) }
{
    match member_type(tags, place, wanted, &operand.ctype) {
        Some(t) => varying(t.copy(alloc)?),
        None => Err(TypeEnd::NoType),
    }
}

/// What `operand->wanted` is, of a pointer to such a struct or union (C11 6.5.2.3, 4).
pub fn pointed_member_of(
    alloc: Global,
    operand: Value,
    wanted: &[u8],
    tags: &Tags,
    place: u32,
) -> Result<Value, TypeEnd>
    ensures { Gives result (pointed_member_of tags.now place wanted.now operand) }
{
    match operand_of(alloc, operand)?.scalar {
        Scalar::Pointer(to) => match member_type(tags, place, wanted, to.get()) {
            Some(t) => varying(t.copy(alloc)?),
            None => Err(TypeEnd::NoType),
        },
        Scalar::Number(_) => Err(TypeEnd::NoType),
    }
}
