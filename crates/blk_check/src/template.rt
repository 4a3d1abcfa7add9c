//! The pieces of a statement's template.

ghost use Rattle.std.specs.Prelude.{◌≡◌, ◌++◌, length, is_ok, IsTrue, IfOk};
ghost use Rattle.asm_core.specs.Parts.{IsParts};
ghost use Rattle.asm_core.specs.Pieces.{ArePieces};
ghost use Rattle.blk_check.specs.Judged.{IsInterfaceOf};
ghost use Rattle.blk_check.specs.Readable.{parts_pieces, pieces_or_none, pieces_in};

use asm_constraints::names;
use asm_core::{Body, Interface, Memory, Parts, Pieces, PiecesEnd, Statement};
use asm_template::pieces;
use std::alloc::Global;

/// The pieces of the template, which has some.
#[tactic(auto, using(crate::proofs::PieceLaws::name_count))]
fn parts_pieces(alloc: Global, parts: &Parts) -> Result<Pieces, Memory>
    requires parts { IsParts parts.now }
    requires there { IsTrue (is_ok (parts_pieces parts.now)) }
    ensures is { IfOk result (λ pieces. pieces.list ≡ pieces_or_none (parts_pieces parts.now)) }
    ensures kept { IfOk result (λ pieces. ArePieces (length (parts.now.outputs ++ parts.now.inputs)) pieces.list) }
{
    let names = names(alloc, parts)?;
    match pieces(alloc, &parts.template, names.as_slice()) {
        Ok(pieces) => Ok(pieces),
        Err(PiecesEnd::Memory) => Err(Memory),
        Err(PiecesEnd::Outside(_) | PiecesEnd::NoOperand) => unreachable!(),
    }
}

/// The pieces of a statement's template.
pub fn pieces_in(
    alloc: Global,
    statement: &Statement,
    interface: &Interface,
) -> Result<Pieces, Memory>
    requires { IsInterfaceOf interface.now statement.now }
    ensures is { IfOk result (λ pieces. pieces.list ≡ pieces_in statement.now.body) }
    ensures kept { IfOk result (λ pieces. ArePieces (length interface.now.operands) pieces.list) }
{
    match &statement.body {
        Body::Parts(parts) => parts_pieces(alloc, parts),
        Body::Outside(_) => unreachable!(),
    }
}
