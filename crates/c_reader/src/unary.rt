//! Unary expressions and casts (C11 6.5.3, 6.5.4).

ghost use Rattle.std.specs.Prelude.{◌≡◌, ◌+◌, ◌<◌, ◌≤◌, IfOk, IsTrue, length};
ghost use Rattle.c_reader.specs.Expressions.{cast_at, is_prefix, never_null, opens_type, prefixed_value, qualified, size_operand_at, sized, spells_void_pointer, spells_zero, unary_at};
ghost use Rattle.c_reader.specs.Nesting.{inner};
ghost use Rattle.c_values.specs.Ends.{Gives};
ghost use Rattle.c_values.specs.Literals.{sizeof_of};

use crate::grammar::{Level, Typed};
use crate::marks::{is_close_paren, is_open_brace, is_open_paren, is_star, is_void};
use crate::reader::Reader;
use c_scopes::Scopes;
use c_types::CType;
use c_values::{
    Constant, TypeEnd, Unary, Value, address_of, cast_of, dereference_of, sizeof_of, step_of,
    unary_of, varying,
};
use c_words::{Punct, Word};
use std::alloc::Global;

/// Whether the punctuator may stand before its operand.
fn is_prefix(punct: Punct) -> bool
    ensures { result ≡ is_prefix punct }
{
    matches!(
        punct,
        Punct::Increment
            | Punct::Decrement
            | Punct::Ampersand
            | Punct::Star
            | Punct::Plus
            | Punct::Minus
            | Punct::Tilde
            | Punct::Exclamation
    )
}

/// The value of an operand behind the punctuator.
fn prefixed_value(alloc: Global, punct: Punct, operand: Value) -> Result<Value, TypeEnd>
    ensures { Gives result (prefixed_value punct operand) }
{
    match punct {
        Punct::Increment | Punct::Decrement => step_of(operand),
        Punct::Ampersand => address_of(alloc, operand),
        Punct::Star => dereference_of(alloc, operand),
        Punct::Plus => unary_of(alloc, Unary::Plus, operand),
        Punct::Minus => unary_of(alloc, Unary::Minus, operand),
        Punct::Tilde => unary_of(alloc, Unary::Complement, operand),
        Punct::Exclamation => unary_of(alloc, Unary::Not, operand),
        _ => Err(TypeEnd::NoType),
    }
}

/// The value of a cast, which is a null pointer constant only in the plain spelling, of a 0 that is written.
fn qualified(plain: bool, value: Value) -> Value
    ensures { result ≡ qualified plain value }
{
    if plain {
        return value;
    }
    let constant = match value.constant {
        Constant::Null => Constant::Varies,
        constant => constant,
    };
    Value { constant, ..value }
}

/// The size of a type at an offset of the file.
fn size_value(scopes: &Scopes, ctype: &CType, place: u32) -> Result<Value, TypeEnd>
    ensures { Gives result (sizeof_of scopes.now.tags place ctype.now) }
{
    sizeof_of(ctype, scopes.tags(), place)
}

impl Reader<'_> {
    /// Whether a parenthesis with a type name opens at the index.
    fn opens_type(&self, i: usize) -> bool
        ensures is { result ≡ opens_type self.now.source.now self.now.scopes.now i }
        ensures inside { IsTrue result → i < 4294967296 }
    {
        is_open_paren(self.source.word(i)) && self.begins_type(i + 1)
    }

    /// Whether an integer constant 0 stands from the index `i` up to `end`, in parentheses or not.
    fn spells_zero(&self, i: usize, end: usize) -> bool
        requires { i < 4294967296 }
        ensures { result ≡ spells_zero self.now.source.now i end }
    {
        if self.is_zero_at(i) && end == i + 1 {
            return true;
        }
        is_open_paren(self.source.word(i)) && self.is_zero_at(i + 1) && end == i + 3
    }

    /// Whether the plain spelling `void *)` stands at the index.
    fn spells_void_pointer(&self, i: usize) -> bool
        ensures { result ≡ spells_void_pointer self.now.source.now i }
    {
        is_void(self.source.word(i))
            && is_star(self.source.word(i + 1))
            && is_close_paren(self.source.word(i + 2))
    }

    /// What `sizeof` at an offset of the file gives of its operand.
    #[tactic(auto, unfolding(crate::specs::Expressions::sized))]
    fn sized(&self, place: u32, operand: Typed) -> Result<Typed, TypeEnd>
        ensures is { Gives result (sized self.now.scopes.now place (Some operand)) }
        ensures behind { IfOk result (λ x. x.end ≡ operand.end) }
    {
        let end = operand.end;
        let value = size_value(self.scopes, &operand.value.ctype, place)?;
        Ok(Typed { value, end })
    }

    /// A cast expression (6.5.4).
    #[cycle(reader)]
    #[tactic(auto, unfolding(crate::specs::Expressions::cast_at))]
    pub(crate) fn cast_at(&self, alloc: Global, depth: u32, i: usize) -> Result<Typed, TypeEnd>
        ensures is { Gives result (cast_at self.now.source.now self.now.scopes.now (inner self.now.source.now self.now.scopes.now depth) i) }
        ensures behind { IfOk result (λ x. i < x.end) }
    {
        if !self.opens_type(i) {
            return self.unary_at(alloc, depth, i);
        }
        let to = self.nested_type_name(alloc, depth, i + 1)?;
        if !is_close_paren(self.source.word(to.end)) {
            return Err(TypeEnd::NoType);
        }
        let operand = self.nested(alloc, depth, Level::Cast, to.end + 1)?;
        let plain = self.spells_void_pointer(i + 1) && self.spells_zero(to.end + 1, operand.end);
        let value = cast_of(alloc, to.ctype, operand.value)?;
        Ok(Typed {
            value: qualified(plain, value),
            end: operand.end,
        })
    }

    /// What `sizeof` is asked of (6.5.3.4).
    #[cycle(reader)]
    #[tactic(auto, unfolding(crate::specs::Expressions::size_operand_at))]
    pub(crate) fn size_operand_at(
        &self,
        alloc: Global,
        depth: u32,
        i: usize,
    ) -> Result<Typed, TypeEnd>
        ensures is { Gives result (size_operand_at self.now.source.now self.now.scopes.now (inner self.now.source.now self.now.scopes.now depth) i) }
        ensures behind { IfOk result (λ x. i < x.end) }
    {
        if !self.opens_type(i) {
            return self.unary_at(alloc, depth, i);
        }
        let named = self.nested_type_name(alloc, depth, i + 1)?;
        if !is_close_paren(self.source.word(named.end))
            || is_open_brace(self.source.word(named.end + 1))
        {
            return Err(TypeEnd::NoType);
        }
        Ok(Typed {
            value: varying(named.ctype)?,
            end: named.end + 1,
        })
    }

    /// A unary expression (6.5.3).
    #[cycle(reader)]
    #[tactic(auto, using(crate::proofs::ExpressionLemmas::size_steps), unfolding(crate::specs::Expressions::unary_at))]
    pub(crate) fn unary_at(&self, alloc: Global, depth: u32, i: usize) -> Result<Typed, TypeEnd>
        ensures is { Gives result (unary_at self.now.source.now self.now.scopes.now (inner self.now.source.now self.now.scopes.now depth) i) }
        ensures behind { IfOk result (λ x. i < x.end) }
    {
        match self.source.word(i) {
            Word::Sizeof => {
                let operand = self.nested(alloc, depth, Level::SizeOperand, i + 1)?;
                self.sized(self.source.start(i), operand)
            }
            Word::Punct(punct) => {
                if !is_prefix(punct) {
                    return self.postfix_at(alloc, depth, i);
                }
                let operand = self.nested(alloc, depth, Level::Cast, i + 1)?;
                Ok(Typed {
                    value: prefixed_value(alloc, punct, operand.value)?,
                    end: operand.end,
                })
            }
            _ => self.postfix_at(alloc, depth, i),
        }
    }
}
