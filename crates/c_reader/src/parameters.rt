//! The parameters of functions (C11 6.7.6.3).

ghost use Rattle.std.specs.Prelude.{◌≡◌, ◌≤◌, ◌<◌, IfOk};
ghost use Rattle.c_types.specs.declared.ctype.CType.{out-CType};
ghost use Rattle.c_reader.specs.Declarators.{ParametersEndBehind, adjusted, listed_parameters, parameter_at, parameters_at, parameters_step};
ghost use Rattle.c_reader.specs.Nesting.{inner};
ghost use Rattle.c_reader.specs.Reads.{GivesNext, IsBehind};
ghost use Rattle.c_values.specs.Ends.{Gives};

use crate::attributes::attributes_from;
use crate::grammar::{Context, Declarator, Parameter, Parameters, Shape};
use crate::marks::{is_close_paren, is_comma, is_ellipsis, is_void};
use crate::next::Next;
use crate::reader::Reader;
use asm_core::{Items, Memory};
use c_types::CType;
use c_values::TypeEnd;
use std::alloc::Global;

/// A parameter, and the index behind it.
#[derive(Drop)]
pub struct ReadParameter {
    pub parameter: Parameter,
    pub end: usize,
}

/// The type of a parameter: a pointer where it is declared as an array or a function.
fn adjusted(alloc: Global, ctype: CType) -> Result<CType, Memory>
    ensures { IfOk result (λ t. t ≡ adjusted ctype) }
{
    match ctype {
        CType::Array(element, _) | CType::VariableArray(element) => CType::pointer_to(
            alloc,
            element.into_inner(),
        ),
        CType::Function(gives) => CType::pointer_to(alloc, CType::Function(gives)),
        other => Ok(other),
    }
}

impl Reader<'_> {
    /// The parameter at the index.
    #[cycle(reader)]
    #[tactic(auto, unfolding(crate::specs::Declarators::parameter_at))]
    fn parameter_at(
        &self,
        alloc: Global,
        depth: u32,
        context: Context,
        i: usize,
    ) -> Result<ReadParameter, TypeEnd>
        ensures is { Gives result (parameter_at self.now.source.now self.now.scopes.now (inner self.now.source.now self.now.scopes.now depth) context i) }
        ensures behind { IfOk result (λ r. i ≤ r.end) }
    {
        let base = self.specifiers_at(alloc, depth, context, i)?;
        let declarator = self.declarator_at(
            alloc,
            depth,
            context,
            Shape::Parameter,
            base.ctype,
            base.end,
        )?;
        let already = base.attributes.both(declarator.attributes);
        let asked = attributes_from(self.source, already, declarator.end);
        let ctype = adjusted(alloc, declarator.ctype)?;
        let parameter = Parameter {
            name: declarator.name,
            ctype: asked.attributes.typed(false, ctype),
        };
        Ok(ReadParameter {
            parameter,
            end: asked.end,
        })
    }

    /// One parameter, or the `...` behind the last.
    #[cycle(reader)]
    #[tactic(auto, unfolding(crate::specs::Declarators::parameters_step))]
    fn parameters_step(
        &self,
        alloc: Global,
        depth: u32,
        context: Context,
        i: usize,
        found: Items<Parameter>,
    ) -> Result<Next<Items<Parameter>, Parameters>, TypeEnd>
        ensures is { GivesNext result (parameters_step self.now.source.now self.now.scopes.now (inner self.now.source.now self.now.scopes.now depth) context i found) }
        ensures further { IfOk result (IsBehind i) }
        ensures ended { IfOk result (ParametersEndBehind i) }
    {
        let mut list = found;
        if is_ellipsis(self.source.word(i)) {
            if !is_close_paren(self.source.word(i + 1)) {
                return Err(TypeEnd::NoType);
            }
            return Ok(Next::Done(Parameters { list, end: i + 2 }));
        }
        let read = self.parameter_at(alloc, depth, context, i)?;
        list.push(read.parameter)?;
        let word = self.source.word(read.end);
        if is_comma(word) {
            return Ok(Next::More(list, read.end + 1));
        }
        if !is_close_paren(word) {
            return Err(TypeEnd::NoType);
        }
        Ok(Next::Done(Parameters {
            list,
            end: read.end + 1,
        }))
    }

    /// The parameters in the parentheses at the index, inside a declarator.
    #[cycle(reader)]
    #[tactic(auto, using(crate::proofs::NestingLemmas::parameters_steps))]
    pub(crate) fn nested_parameters(
        &self,
        alloc: Global,
        depth: u32,
        context: Context,
        paren: usize,
    ) -> Result<Parameters, TypeEnd>
        requires { paren < 4294967296 }
        ensures is { Gives result ((inner self.now.source.now self.now.scopes.now depth).parameters context paren) }
        ensures behind { IfOk result (λ found. paren < found.end) }
    {
        if depth == 0 {
            return Err(TypeEnd::NoType);
        }
        self.parameters_at(alloc, depth - 1, context, paren)
    }

    /// The parameters in the parentheses at the index.
    #[cycle(reader)]
    #[tactic(auto, unfolding(crate::specs::Declarators::parameters_at))]
    pub fn parameters_at(
        &self,
        alloc: Global,
        depth: u32,
        context: Context,
        paren: usize,
    ) -> Result<Parameters, TypeEnd>
        requires { paren < 4294967296 }
        ensures is { Gives result (parameters_at self.now.source.now self.now.scopes.now (inner self.now.source.now self.now.scopes.now depth) context paren) }
        ensures behind { IfOk result (λ found. paren < found.end) }
    {
        if is_close_paren(self.source.word(paren + 1)) {
            return Ok(Parameters {
                list: Items::new(alloc),
                end: paren + 2,
            });
        }
        if is_void(self.source.word(paren + 1)) && is_close_paren(self.source.word(paren + 2)) {
            return Ok(Parameters {
                list: Items::new(alloc),
                end: paren + 3,
            });
        }
        self.listed_parameters(alloc, depth, context, paren + 1)
    }

    /// Parameters from the index on, one at least.
    #[cycle(reader)]
    #[tactic(auto, using(crate::proofs::ParameterLemmas::listed_steps))]
    fn listed_parameters(
        &self,
        alloc: Global,
        depth: u32,
        context: Context,
        first: usize,
    ) -> Result<Parameters, TypeEnd>
        ensures is { Gives result (listed_parameters self.now.source.now self.now.scopes.now (inner self.now.source.now self.now.scopes.now depth) context first) }
        ensures behind { IfOk result (λ found. first < found.end) }
    {
        let mut list = Items::new(alloc);
        let mut i = first;
        while i < self.source.len() {
            match self.parameters_step(alloc, depth, context, i, list)? {
                Next::Done(parameters) => return Ok(parameters),
                Next::More(more, next) => {
                    list = more;
                    i = next;
                    continue;
                }
            }
        }
        Err(TypeEnd::NoType)
    }
}
