//! Expressions, from the largest to the smallest (C11 6.5).

ghost use Rattle.std.specs.Prelude.{◌≡◌, ◌+◌, ◌<◌, ◌≤◌, IfOk, length, drop};
ghost use Rattle.c_reader.specs.Expressions.{EndsAt, assignment_at, assignment_value, binary_at, binary_step, chained, comma_at, comma_step, conditional_at};
ghost use Rattle.c_reader.specs.Nesting.{inner};
ghost use Rattle.c_reader.specs.Reads.{GivesNext, IsBehind};
ghost use Rattle.c_values.specs.Ends.{Gives};

use crate::grammar::{Level, Typed};
use crate::marks::{is_colon, is_comma, is_question};
use crate::next::Next;
use crate::operators::{Assignment, assignment_in, operator_at};
use crate::reader::Reader;
use c_values::{TypeEnd, Value, assignment_of, binary_of, comma_of, compound_of, conditional_of};
use std::alloc::Global;

impl Reader<'_> {
    /// An expression inside a bracket or behind a prefix operator, where so many levels of nesting may still come.
    #[cycle(reader)]
    #[tactic(auto, using(crate::proofs::NestingLemmas::expression_steps))]
    pub fn nested(
        &self,
        alloc: Global,
        depth: u32,
        level: Level,
        i: usize,
    ) -> Result<Typed, TypeEnd>
        ensures is { Gives result ((inner self.now.source.now self.now.scopes.now depth).expression level i) }
        ensures behind { IfOk result (λ x. i < x.end) }
    {
        if depth == 0 {
            return Err(TypeEnd::NoType);
        }
        match level {
            Level::Comma => self.comma_at(alloc, depth - 1, i),
            Level::Assignment => self.assignment_at(alloc, depth - 1, i),
            Level::Conditional => self.conditional_at(alloc, depth - 1, i),
            Level::Cast => self.cast_at(alloc, depth - 1, i),
            Level::SizeOperand => self.size_operand_at(alloc, depth - 1, i),
        }
    }

    /// An expression with its commas (6.5.17).
    #[cycle(reader)]
    #[tactic(auto, using(crate::proofs::ExpressionLemmas::comma_steps))]
    fn comma_at(&self, alloc: Global, depth: u32, i: usize) -> Result<Typed, TypeEnd>
        ensures is { Gives result (comma_at self.now.source.now self.now.scopes.now (inner self.now.source.now self.now.scopes.now depth) i) }
        ensures behind { IfOk result (λ x. i < x.end) }
    {
        let first = self.assignment_at(alloc, depth, i)?;
        let mut value = first.value;
        let mut end = first.end;
        while end < self.source.len() {
            match self.comma_step(alloc, depth, end, value)? {
                Next::Done(read) => return Ok(read),
                Next::More(next, further) => {
                    value = next;
                    end = further;
                    continue;
                }
            }
        }
        Err(TypeEnd::NoType)
    }

    /// A comma and what it joins.
    #[cycle(reader)]
    #[tactic(auto, unfolding(crate::specs::Expressions::comma_step))]
    fn comma_step(
        &self,
        alloc: Global,
        depth: u32,
        i: usize,
        value: Value,
    ) -> Result<Next<Value, Typed>, TypeEnd>
        ensures is { GivesNext result (comma_step self.now.source.now self.now.scopes.now (inner self.now.source.now self.now.scopes.now depth) i value) }
        ensures further { IfOk result (IsBehind i) }
        ensures ended { IfOk result (EndsAt i) }
    {
        if !is_comma(self.source.word(i)) {
            return Ok(Next::Done(Typed { value, end: i }));
        }
        let next = self.assignment_at(alloc, depth, i + 1)?;
        Ok(Next::More(comma_of(alloc, next.value)?, next.end))
    }

    /// An assignment expression (6.5.16).
    #[cycle(reader)]
    #[tactic(auto, unfolding(crate::specs::Expressions::assignment_at))]
    fn assignment_at(&self, alloc: Global, depth: u32, i: usize) -> Result<Typed, TypeEnd>
        ensures is { Gives result (assignment_at self.now.source.now self.now.scopes.now (inner self.now.source.now self.now.scopes.now depth) i) }
        ensures behind { IfOk result (λ x. i < x.end) }
    {
        let left = self.conditional_at(alloc, depth, i)?;
        let Some(assignment) = assignment_in(self.source.word(left.end)) else {
            return Ok(left);
        };
        let right = self.nested(alloc, depth, Level::Assignment, left.end + 1)?;
        Ok(Typed {
            value: assigned(alloc, assignment, left.value, right.value)?,
            end: right.end,
        })
    }

    /// A conditional expression (6.5.15).
    #[cycle(reader)]
    #[tactic(auto, unfolding(crate::specs::Expressions::conditional_at))]
    fn conditional_at(&self, alloc: Global, depth: u32, i: usize) -> Result<Typed, TypeEnd>
        ensures is { Gives result (conditional_at self.now.source.now self.now.scopes.now (inner self.now.source.now self.now.scopes.now depth) i) }
        ensures behind { IfOk result (λ x. i < x.end) }
    {
        let condition = self.binary_at(alloc, depth, 10, i)?;
        if !is_question(self.source.word(condition.end)) {
            return Ok(condition);
        }
        let a = self.nested(alloc, depth, Level::Comma, condition.end + 1)?;
        if !is_colon(self.source.word(a.end)) {
            return Err(TypeEnd::NoType);
        }
        let b = self.nested(alloc, depth, Level::Conditional, a.end + 1)?;
        Ok(Typed {
            value: conditional_of(alloc, condition.value, a.value, b.value)?,
            end: b.end,
        })
    }

    /// An expression of the so many tightest of the ten levels of operators with two operands (6.5.5 to 6.5.14); of none it is a
    /// cast expression.
    #[cycle(reader)]
    #[tactic(auto, using(crate::proofs::ExpressionLemmas::binary_steps))]
    fn binary_at(&self, alloc: Global, depth: u32, level: u32, i: usize) -> Result<Typed, TypeEnd>
        requires { level ≤ 10 }
        ensures is { Gives result (binary_at self.now.source.now self.now.scopes.now (inner self.now.source.now self.now.scopes.now depth) level i) }
        ensures behind { IfOk result (λ x. i < x.end) }
    {
        if level == 0 {
            return self.cast_at(alloc, depth, i);
        }
        let first = self.binary_at(alloc, depth, level - 1, i)?;
        self.operators_behind(alloc, depth, level - 1, first)
    }

    /// The operators of the level that stand behind its first operand, with their right operands.
    #[cycle(reader)]
    #[tactic(auto, using(crate::proofs::ExpressionLemmas::operator_steps))]
    fn operators_behind(
        &self,
        alloc: Global,
        depth: u32,
        level: u32,
        first: Typed,
    ) -> Result<Typed, TypeEnd>
        requires { level < 10 }
        ensures is { Gives result (chained self.now.source.now (binary_at self.now.source.now self.now.scopes.now (inner self.now.source.now self.now.scopes.now depth) level) level (Some first)) }
        ensures behind { IfOk result (λ x. first.end ≤ x.end) }
    {
        let mut value = first.value;
        let mut end = first.end;
        while end < self.source.len() {
            match self.binary_step(alloc, depth, level, end, value)? {
                Next::Done(read) => return Ok(read),
                Next::More(next, further) => {
                    value = next;
                    end = further;
                    continue;
                }
            }
        }
        Err(TypeEnd::NoType)
    }

    /// An operator of the level, and its right operand.
    #[cycle(reader)]
    fn binary_step(
        &self,
        alloc: Global,
        depth: u32,
        level: u32,
        i: usize,
        value: Value,
    ) -> Result<Next<Value, Typed>, TypeEnd>
        requires { level < 10 }
        ensures is { GivesNext result (binary_step self.now.source.now (binary_at self.now.source.now self.now.scopes.now (inner self.now.source.now self.now.scopes.now depth) level) level i value) }
        ensures further { IfOk result (IsBehind i) }
        ensures ended { IfOk result (EndsAt i) }
    {
        let Some(operator) = operator_at(level, self.source.word(i)) else {
            return Ok(Next::Done(Typed { value, end: i }));
        };
        let right = self.binary_at(alloc, depth, level, i + 1)?;
        Ok(Next::More(binary_of(alloc, operator, value, right.value)?, right.end))
    }
}

/// What an assignment gives.
fn assigned(
    alloc: Global,
    assignment: Assignment,
    left: Value,
    right: Value,
) -> Result<Value, TypeEnd>
    ensures { Gives result (assignment_value assignment left right) }
{
    match assignment {
        Assignment::Plain => assignment_of(left),
        Assignment::With(operation) => compound_of(alloc, operation, left, right),
    }
}
