//! The verdicts on the asm statements of a file.

ghost use Rattle.std.specs.Prelude.{◌≡◌, ◌++◌, map, length, IfOk, OnOk, All};
ghost use Rattle.std.specs.List.{list_any};
ghost use Rattle.asm_core.specs.Parts.{IsParts, IsBody};
ghost use Rattle.asm_core.specs.declared.statement.Body.{Body};
ghost use Rattle.c_tokens.specs.Cut.{IsOrdered};
ghost use Rattle.c_exprs.specs.Operands.{operand_of};
ghost use Rattle.ck_app.specs.Answer.{status_of};
ghost use Rattle.ck_app.specs.Judgement.{operands_of, interface_in, IsJudgement, IsVerdictBy, AreJudged, is_broken, is_outside};

use crate::Status;
use asm_constraints::interface;
use asm_core::{Body, IfaceEnd, Items, Memory, Operand, Part, Parts, Statement};
use blk_check::{Verdict, check};
use c_exprs::operand_in;
use c_scopes::Scopes;
use c_words::Source;
use ck_report::Judged;
use std::alloc::Global;

/// Each statement with its verdict, in their order. Where `strict`, flags that change without `cc` break a rule.
#[tactic(auto, using(crate::proofs::JudgementLaws::judged_steps))]
pub fn judge_statements(
    alloc: Global,
    source: &Source<'_>,
    scopes: &Scopes,
    statements: &[Statement],
    strict: bool,
) -> Result<Items<Judged>, Memory>
    requires ordered { IsOrdered 0 source.now.tokens (length source.now.text) }
    requires parts { All (λ (s : Statement). IsBody s.body) statements.now }
    ensures { IfOk result (AreJudged strict source.now scopes.now statements.now) }
{
    let mut judged = Items::new(alloc);
    for statement in statements {
        judged.push(Judged {
            offset: statement.span.from,
            verdict: judge_statement(alloc, source, scopes, statement, strict)?,
        })?;
    }
    Ok(judged)
}

fn judge_statement(
    alloc: Global,
    source: &Source<'_>,
    scopes: &Scopes,
    statement: &Statement,
    strict: bool,
) -> Result<Verdict, Memory>
    requires ordered { IsOrdered 0 source.now.tokens (length source.now.text) }
    requires parts { IsBody statement.now.body }
    ensures { IfOk result (IsJudgement strict source.now scopes.now statement.now) }
{
    match &statement.body {
        Body::Parts(parts) => judge_parts(alloc, source, scopes, statement, parts, strict),
        Body::Outside(mark) => Ok(Verdict::Outside(*mark)),
    }
}

/// The verdict on a statement that has these parts.
#[tactic(auto, using(crate::proofs::JudgementLaws::stated))]
fn judge_parts(
    alloc: Global,
    source: &Source<'_>,
    scopes: &Scopes,
    statement: &Statement,
    parts: &Parts,
    strict: bool,
) -> Result<Verdict, Memory>
    requires ordered { IsOrdered 0 source.now.tokens (length source.now.text) }
    requires parts { IsParts parts.now }
    requires body { statement.now.body ≡ Body.Parts parts.now }
    ensures { IfOk result (IsVerdictBy statement.now (interface_in strict source.now scopes.now parts.now)) }
{
    let operands = operands(alloc, source, scopes, parts)?;
    match interface(alloc, parts, operands.as_slice(), strict) {
        Ok(interface) => check(alloc, statement, &interface),
        Err(IfaceEnd::Outside(mark)) => Ok(Verdict::Outside(mark)),
        Err(IfaceEnd::Broken(findings)) => Ok(Verdict::Broken(findings)),
        Err(IfaceEnd::Memory) => Err(Memory),
    }
}

/// What the expressions of the operands are, outputs first; none of one without a type.
fn operands(
    alloc: Global,
    source: &Source<'_>,
    scopes: &Scopes,
    parts: &Parts,
) -> Result<Items<Option<Operand>>, Memory>
    requires { IsOrdered 0 source.now.tokens (length source.now.text) }
    ensures { IfOk result (λ operands. operands ≡ operands_of source.now scopes.now parts.now) }
{
    let mut operands = Items::new(alloc);
    append_operands(
        alloc,
        source,
        scopes,
        &mut operands,
        parts.outputs.as_slice(),
    )?;
    append_operands(
        alloc,
        source,
        scopes,
        &mut operands,
        parts.inputs.as_slice(),
    )?;
    Ok(operands)
}

fn append_operands(
    alloc: Global,
    source: &Source<'_>,
    scopes: &Scopes,
    operands: &mut Items<Option<Operand>>,
    parts: &[Part],
) -> Result<(), Memory>
    requires { IsOrdered 0 source.now.tokens (length source.now.text) }
    ensures { OnOk result (operands.new ≡ operands.old ++ map (λ (p : Part). operand_of source.now scopes.now p.expr) parts.now) }
{
    for part in parts {
        operands.push(operand_in(alloc, source, scopes, part.expr)?)?;
    }
    Ok(())
}

/// How a run ends that says this of the statements of a file.
pub fn status(judged: &[Judged]) -> Status
    ensures { result ≡ status_of judged.now }
{
    if any_broken(judged) {
        return Status::Rejected;
    }
    if any_outside(judged) {
        return Status::Undecided;
    }
    Status::Done
}

fn any_broken(judged: &[Judged]) -> bool
    ensures { result ≡ list_any (λ (j : Judged). is_broken j.verdict) judged.now }
{
    judged.iter().any(|statement| is_broken(&statement.verdict))
}

fn any_outside(judged: &[Judged]) -> bool
    ensures { result ≡ list_any (λ (j : Judged). is_outside j.verdict) judged.now }
{
    judged
        .iter()
        .any(|statement| is_outside(&statement.verdict))
}

fn is_broken(verdict: &Verdict) -> bool
    ensures { result ≡ is_broken verdict.now }
{
    matches!(verdict, Verdict::Broken(_))
}

fn is_outside(verdict: &Verdict) -> bool
    ensures { result ≡ is_outside verdict.now }
{
    matches!(verdict, Verdict::Outside(_))
}
