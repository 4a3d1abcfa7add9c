//! The members of a declaration that isn't covered.

ghost use Rattle.std.specs.Prelude.{◌≡◌, ◌<◌, IfOk, length};
ghost use Rattle.c_reader.specs.Reads.{IsBehind};
ghost use Rattle.c_decls.specs.Members.{unknown_members, unknown_step};

use crate::ends::opens_block;
use crate::members::Members;
use asm_core::Memory;
use c_reader::marks::is_name;
use c_reader::{Next, Reader};
use c_scopes::Scopes;
use c_types::CType;
use c_words::Source;
use std::alloc::Global;

/// One token of it: a name that is no typedef name there is a member of which nothing is known.
#[tactic(auto, unfolding(crate::specs::Members::unknown_step))]
fn unknown_step(
    alloc: Global,
    source: &Source<'_>,
    scopes: &Scopes,
    end: usize,
    i: usize,
    members: Members,
) -> Result<Next<Members, Members>, Memory>
    requires { i < length source.now.tokens }
    ensures is { IfOk result (λ next. next ≡ unknown_step source.now scopes.now end i members) }
    ensures further { IfOk result (IsBehind i) }
{
    if i >= end {
        return Ok(Next::Done(members));
    }
    if is_name(source.word(i)) {
        if (Reader { source, scopes }).names_type(i) {
            return Ok(Next::More(members, i + 1));
        }
        let members = members.with(alloc, source.bytes(i), CType::Unknown, false)?;
        return Ok(Next::More(members, i + 1));
    }
    if opens_block(source, i) {
        return Ok(Next::More(members, source.past(i)));
    }
    Ok(Next::More(members, i + 1))
}

/// The members of a declaration that isn't covered, which stands from one index up to another.
#[tactic(auto, using(crate::proofs::MemberLemmas::unknown_steps))]
pub fn unknown_members(
    alloc: Global,
    source: &Source<'_>,
    scopes: &Scopes,
    first: usize,
    end: usize,
) -> Result<Members, Memory>
    ensures { IfOk result (λ m. m ≡ unknown_members source.now scopes.now first end) }
{
    let mut members = Members::new(alloc).without_size();
    let mut i = first;
    while i < source.len() {
        match unknown_step(alloc, source, scopes, end, i, members)? {
            Next::Done(members) => return Ok(members),
            Next::More(more, next) => {
                members = more;
                i = next;
                continue;
            }
        }
    }
    Ok(members)
}
