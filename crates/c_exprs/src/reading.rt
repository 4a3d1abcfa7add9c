//! The expression of an asm operand.

ghost use Rattle.std.specs.Prelude.{◌≡◌, ◌<◌, ◌≤◌, true, false, length, IfOk};
ghost use Rattle.std.specs.List.Sorted.{IsPartitionedBy, IsPartitionPoint};
ghost use Rattle.c_tokens.specs.Cut.{IsOrdered};
ghost use Rattle.c_words.specs.File.{file_of};
ghost use Rattle.c_exprs.specs.Operands.{begins_before, operand_at, operand_from, operand_of, token_from};

use asm_core::{Memory, Operand, Span};
use c_reader::{Level, Reader, Typed};
use c_scopes::Scopes;
use c_tokens::{Token, Tokens};
use c_values::TypeEnd;
use c_words::Source;
use std::alloc::Global;

/// How many levels of nesting may be read: the operand, and 64 in it (this project's own).
const LEVELS: u32 = 65;

/// How many tokens begin before the offset.
fn begun_before(tokens: &[Token], offset: u32) -> usize
    ensures within { result ≤ length tokens.now }
    ensures point { IsPartitionedBy (begins_before offset) tokens.now → IsPartitionPoint (λ t. begins_before offset t ≡ true) (λ t. begins_before offset t ≡ false) tokens.now result }
{
    tokens.partition_point(|t| t.span.from < offset)
}

/// The index of the first token that doesn't begin before the offset.
pub fn token_from(source: &Source<'_>, offset: u32) -> usize
    requires { IsOrdered 0 source.now.tokens (length source.now.text) }
    ensures { result ≡ token_from source.now.tokens offset }
{
    begun_before(source.tokens(), offset)
}

/// The operand that the expression from the index on is, if it ends at the offset `to`.
fn operand_from(
    alloc: Global,
    source: &Source<'_>,
    scopes: &Scopes,
    i: usize,
    to: u32,
) -> Result<Option<Operand>, Memory>
    ensures { IfOk result (λ operand. operand ≡ operand_from source.now scopes.now i to) }
{
    let reader = Reader { source, scopes };
    let read = match reader.nested(alloc, LEVELS, Level::Comma, i) {
        Ok(read) => read,
        Err(TypeEnd::NoType) => return Ok(None),
        Err(TypeEnd::Memory) => return Err(Memory),
    };
    if source.end(read.end - 1) != to {
        return Ok(None);
    }
    Ok(Some(described(scopes, source.start(i), &read)))
}

/// The operand that a value is, its sizes being those at the offset `place` of the file.
#[tactic(auto, unfolding(crate::specs::Operands::operand_at))]
fn described(scopes: &Scopes, place: u32, read: &Typed) -> Operand
    ensures { result ≡ operand_at scopes.now place read.now }
{
    Operand {
        own: read.value.own_size(scopes.tags(), place),
        value: read.value.value_size(),
        pointer: read.value.is_pointer(),
        known: read.value.known(),
    }
}

/// The expression whose tokens stand in the span of the source, with the names as `scopes` has them. `None` exactly where it has no type.
#[tactic(auto, unfolding(crate::specs::Operands::operand_of))]
pub fn operand_in(
    alloc: Global,
    source: &Source<'_>,
    scopes: &Scopes,
    span: Span,
) -> Result<Option<Operand>, Memory>
    requires { IsOrdered 0 source.now.tokens (length source.now.text) }
    ensures { IfOk result (λ operand. operand ≡ operand_of source.now scopes.now span) }
{
    let i = token_from(source, span.from);
    operand_from(alloc, source, scopes, i, span.to)
}

/// The expression whose tokens stand in the span of the text. `None` exactly where it has no type.
///
/// It reads the whole text's tokens: for several operands of a text make a `Source` once and ask `operand_in`.
pub fn operand(
    alloc: Global,
    t: &Tokens,
    text: &[u8],
    span: Span,
    s: &Scopes,
) -> Result<Option<Operand>, Memory>
    requires short { length text.now < 4294967295 }
    requires few { length t.now.list < 4294967296 }
    requires ordered { IsOrdered 0 t.now.list (length text.now) }
    ensures { IfOk result (λ operand. operand ≡ operand_of (file_of text.now t.now.list) s.now span) }
{
    let source = Source::new(alloc, text, t)?;
    operand_in(alloc, &source, s, span)
}
