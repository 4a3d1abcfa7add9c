//! Postfix and primary expressions (C11 6.5.1, 6.5.2).

ghost use Rattle.std.specs.Prelude.{◌≡◌, ◌+◌, ◌<◌, ◌≤◌, IfOk, length};
ghost use Rattle.c_reader.specs.Expressions.{called_at, indexed_at, pointed_member_at, member_at, postfix_at, postfix_step, primary_at, EndsAt};
ghost use Rattle.c_reader.specs.Nesting.{inner};
ghost use Rattle.c_reader.specs.Reads.{GivesNext, IsBehind};
ghost use Rattle.c_values.specs.Ends.{Gives};

use crate::grammar::{Level, Typed};
use crate::leaf::number_value;
use crate::marks::{is_close_bracket, is_close_paren, is_name, is_open_paren};
use crate::next::Next;
use crate::reader::Reader;
use c_values::{TypeEnd, Value, call_of, index_of, member_of, pointed_member_of, step_of};
use c_words::{Punct, Word};
use std::alloc::Global;

impl Reader<'_> {
    /// A primary expression (6.5.1).
    #[cycle(reader)]
    #[tactic(auto, unfolding(crate::specs::Expressions::primary_at))]
    fn primary_at(&self, alloc: Global, depth: u32, i: usize) -> Result<Typed, TypeEnd>
        ensures is { Gives result (primary_at self.now.source.now self.now.scopes.now (inner self.now.source.now self.now.scopes.now depth) i) }
        ensures behind { IfOk result (λ x. i < x.end) }
    {
        match self.source.word(i) {
            Word::Name => Ok(Typed {
                value: self.named_value(alloc, i)?,
                end: i + 1,
            }),
            Word::Number => Ok(Typed {
                value: number_value(self.source.bytes(i))?,
                end: i + 1,
            }),
            Word::Char => Ok(Typed {
                value: self.character_value(alloc, i)?,
                end: i + 1,
            }),
            Word::Text => Ok(Typed {
                value: self.text_value(alloc, i)?,
                end: self.texts_end(i),
            }),
            Word::Punct(Punct::OpenParen) => {
                let inside = self.nested(alloc, depth, Level::Comma, i + 1)?;
                if !is_close_paren(self.source.word(inside.end)) {
                    return Err(TypeEnd::NoType);
                }
                Ok(Typed {
                    end: inside.end + 1,
                    ..inside
                })
            }
            _ => Err(TypeEnd::NoType),
        }
    }

    /// A postfix expression (6.5.2).
    #[cycle(reader)]
    #[tactic(auto, using(crate::proofs::ExpressionLemmas::postfix_steps))]
    pub(crate) fn postfix_at(&self, alloc: Global, depth: u32, i: usize) -> Result<Typed, TypeEnd>
        ensures is { Gives result (postfix_at self.now.source.now self.now.scopes.now (inner self.now.source.now self.now.scopes.now depth) i) }
        ensures behind { IfOk result (λ x. i < x.end) }
    {
        let first = self.primary_at(alloc, depth, i)?;
        let mut value = first.value;
        let mut end = first.end;
        while end < self.source.len() {
            match self.postfix_step(alloc, depth, end, value)? {
                Next::Done(read) => return Ok(read),
                Next::More(next, further) => {
                    value = next;
                    end = further;
                    continue;
                }
            }
        }
        Err(TypeEnd::NoType)
    }

    /// What stands behind an operand.
    #[cycle(reader)]
    #[tactic(auto, unfolding(crate::specs::Expressions::postfix_step))]
    fn postfix_step(
        &self,
        alloc: Global,
        depth: u32,
        i: usize,
        value: Value,
    ) -> Result<Next<Value, Typed>, TypeEnd>
        ensures is { GivesNext result (postfix_step self.now.source.now self.now.scopes.now (inner self.now.source.now self.now.scopes.now depth) i value) }
        ensures further { IfOk result (IsBehind i) }
        ensures ended { IfOk result (EndsAt i) }
    {
        match self.source.word(i) {
            Word::Punct(Punct::OpenBracket) => self.indexed_at(alloc, depth, i, value),
            Word::Punct(Punct::OpenParen) => self.called_at(alloc, depth, i, value),
            Word::Punct(Punct::Dot) => self.member_at(alloc, i, value),
            Word::Punct(Punct::Arrow) => self.pointed_member_at(alloc, i, value),
            Word::Punct(Punct::Increment | Punct::Decrement) => Ok(Next::More(
                step_of(value)?,
                i + 1,
            )),
            _ => Ok(Next::Done(Typed { value, end: i })),
        }
    }

    /// An index in brackets (6.5.2.1).
    #[cycle(reader)]
    fn indexed_at(
        &self,
        alloc: Global,
        depth: u32,
        i: usize,
        value: Value,
    ) -> Result<Next<Value, Typed>, TypeEnd>
        requires { i < 4294967296 }
        ensures is { GivesNext result (indexed_at self.now.source.now (inner self.now.source.now self.now.scopes.now depth) i value) }
        ensures further { IfOk result (IsBehind i) }
        ensures ended { IfOk result (EndsAt i) }
    {
        let index = self.nested(alloc, depth, Level::Comma, i + 1)?;
        if !is_close_bracket(self.source.word(index.end)) {
            return Err(TypeEnd::NoType);
        }
        Ok(Next::More(index_of(alloc, value, index.value)?, index.end + 1))
    }

    /// Arguments in parentheses (6.5.2.2).
    #[cycle(reader)]
    fn called_at(
        &self,
        alloc: Global,
        depth: u32,
        i: usize,
        value: Value,
    ) -> Result<Next<Value, Typed>, TypeEnd>
        requires { i < 4294967296 }
        ensures is { GivesNext result (called_at self.now.source.now (inner self.now.source.now self.now.scopes.now depth) i value) }
        ensures further { IfOk result (IsBehind i) }
        ensures ended { IfOk result (EndsAt i) }
    {
        if is_close_paren(self.source.word(i + 1)) {
            return Ok(Next::More(call_of(value)?, i + 2));
        }
        let arguments = self.nested(alloc, depth, Level::Comma, i + 1)?;
        if !is_close_paren(self.source.word(arguments.end)) {
            return Err(TypeEnd::NoType);
        }
        Ok(Next::More(call_of(value)?, arguments.end + 1))
    }

    /// A member's name behind a dot (6.5.2.3).
    fn member_at(
        &self,
        alloc: Global,
        i: usize,
        value: Value,
    ) -> Result<Next<Value, Typed>, TypeEnd>
        requires { i < 4294967296 }
        ensures is { GivesNext result (member_at self.now.source.now self.now.scopes.now i value) }
        ensures further { IfOk result (IsBehind i) }
        ensures ended { IfOk result (EndsAt i) }
    {
        if !is_name(self.source.word(i + 1)) {
            return Err(TypeEnd::NoType);
        }
        let name = self.source.bytes(i + 1);
        let place = self.source.start(i);
        let member = member_of(alloc, value, name, self.scopes.tags(), place)?;
        Ok(Next::More(member, i + 2))
    }

    /// A member's name behind an arrow (6.5.2.3).
    fn pointed_member_at(
        &self,
        alloc: Global,
        i: usize,
        value: Value,
    ) -> Result<Next<Value, Typed>, TypeEnd>
        requires { i < 4294967296 }
        ensures is { GivesNext result (pointed_member_at self.now.source.now self.now.scopes.now i value) }
        ensures further { IfOk result (IsBehind i) }
        ensures ended { IfOk result (EndsAt i) }
    {
        if !is_name(self.source.word(i + 1)) {
            return Err(TypeEnd::NoType);
        }
        let name = self.source.bytes(i + 1);
        let place = self.source.start(i);
        let member = pointed_member_of(alloc, value, name, self.scopes.tags(), place)?;
        Ok(Next::More(member, i + 2))
    }
}
