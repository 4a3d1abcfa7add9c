//! The parameters of a function in its body (C11 6.9.1).

ghost use Rattle.std.specs.Prelude.{◌≡◌, ◌<◌, IfOk};
ghost use Rattle.c_decls.specs.Declarations.{parameter_declared, parameter_hidden, parameters_declared, parameters_hidden, parameters_in, parameters_listed, with_hidden};

use crate::declaring::MOST_NESTING;
use crate::hiding::{declare, hide_name};
use asm_core::Memory;
use c_reader::{Context, Parameter, Parameters, Reader};
use c_scopes::{Entity, NameKind, Scopes};
use c_values::TypeEnd;
use c_words::Source;
use std::alloc::Global;

/// Declares a parameter in the body whose brace has the index.
fn declare_parameter(
    alloc: Global,
    source: &Source<'_>,
    scopes: &mut Scopes,
    brace: usize,
    parameter: &Parameter,
) -> Result<(), Memory>
    ensures { IfOk result (λ _. scopes.new ≡ parameter_declared source.now brace parameter.now scopes.old) }
{
    let Some(i) = parameter.name else {
        return Ok(());
    };
    let ctype = match &parameter.ctype {
        Some(ctype) => Some(ctype.copy(alloc)?),
        None => None,
    };
    let name = source.bytes(i);
    let from = source.start(brace);
    let to = source.end(source.past(brace).saturating_sub(1));
    declare(
        alloc,
        scopes,
        name,
        Entity::Name(NameKind::Other),
        ctype,
        from,
        to,
    )
}

/// Declares parameters in the body whose brace has the index.
#[tactic(auto, using(crate::proofs::ParameterLemmas::listed_steps))]
fn declare_listed(
    alloc: Global,
    source: &Source<'_>,
    scopes: &mut Scopes,
    brace: usize,
    parameters: &[Parameter],
) -> Result<(), Memory>
    ensures { IfOk result (λ _. scopes.new ≡ parameters_listed source.now brace parameters.now scopes.old) }
{
    for parameter in parameters {
        declare_parameter(alloc, source, scopes, brace, parameter)?;
    }
    Ok(())
}

/// Declares the parameters in the parentheses at one index in the body whose brace has another: they are seen in the body alone.
pub fn declare_parameters(
    alloc: Global,
    source: &Source<'_>,
    scopes: &mut Scopes,
    paren: usize,
    brace: usize,
) -> Result<(), Memory>
    ensures { IfOk result (λ _. scopes.new ≡ parameters_declared source.now paren brace scopes.old) }
{
    hide_in_list(alloc, source, scopes, paren)?;
    match parameters_in(alloc, source, scopes, paren)? {
        Some(parameters) => declare_listed(
            alloc,
            source,
            scopes,
            brace,
            parameters.list.as_slice(),
        ),
        None => Ok(()),
    }
}

/// Hides the parameter's name behind it in the list that opens at the index.
fn hide_parameter(
    alloc: Global,
    source: &Source<'_>,
    scopes: &mut Scopes,
    paren: usize,
    parameter: &Parameter,
) -> Result<(), Memory>
    ensures { IfOk result (λ _. scopes.new ≡ parameter_hidden source.now paren parameter.now scopes.old) }
{
    let Some(i) = parameter.name else {
        return Ok(());
    };
    let to = source.end(source.past(paren).saturating_sub(1));
    hide_name(alloc, scopes, source.bytes(i), source.end(i), to)
}

/// Hides the names of parameters behind them in the list that opens at the index.
#[tactic(auto, using(crate::proofs::ParameterLemmas::hidden_steps))]
fn hide_listed(
    alloc: Global,
    source: &Source<'_>,
    scopes: &mut Scopes,
    paren: usize,
    parameters: &[Parameter],
) -> Result<(), Memory>
    ensures { IfOk result (λ _. scopes.new ≡ parameters_hidden source.now paren parameters.now scopes.old) }
{
    for parameter in parameters {
        hide_parameter(alloc, source, scopes, paren, parameter)?;
    }
    Ok(())
}

/// Hides the names of the parameters in the parentheses at the index behind them in the list.
fn hide_in_list(
    alloc: Global,
    source: &Source<'_>,
    scopes: &mut Scopes,
    paren: usize,
) -> Result<(), Memory>
    ensures { IfOk result (λ _. scopes.new ≡ with_hidden source.now paren scopes.old) }
{
    match parameters_in(alloc, source, scopes, paren)? {
        Some(parameters) => hide_listed(alloc, source, scopes, paren, parameters.list.as_slice()),
        None => Ok(()),
    }
}

/// The parameters in the parentheses at the index.
#[tactic(auto, using(crate::proofs::ParameterLemmas::parameter_rules))]
fn parameters_in(
    alloc: Global,
    source: &Source<'_>,
    scopes: &Scopes,
    paren: usize,
) -> Result<Option<Parameters>, Memory>
    ensures { IfOk result (λ ps. ps ≡ parameters_in source.now paren scopes.now) }
{
    if paren >= source.len() {
        return Ok(None);
    }
    let reader = Reader { source, scopes };
    match reader.parameters_at(alloc, MOST_NESTING, Context::Declaration, paren) {
        Ok(parameters) => Ok(Some(parameters)),
        Err(TypeEnd::NoType) => Ok(None),
        Err(TypeEnd::Memory) => Err(Memory),
    }
}
