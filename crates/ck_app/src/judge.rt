//! What is printed of a file, by its bytes.

ghost use Rattle.std.specs.Prelude.{◌≡◌, ◌<◌, ◌≤◌, Ok, length, IfOk, All};
ghost use Rattle.asm_core.specs.Parts.{IsBody};
ghost use Rattle.c_tokens.specs.Cut.{IsOrdered};
ghost use Rattle.c_tokens.specs.Tokens.{tokens_of};
ghost use Rattle.c_words.specs.File.{file_of};
ghost use Rattle.c_decls.specs.Walk.{declarations_of};
ghost use Rattle.ck_ports.specs.declared.transfer.TheConstants.{MAX_FILE_BYTES};
ghost use Rattle.ck_app.specs.Answer.{IsFileAnswer, answer_in, judged_answer};
ghost use Rattle.ck_app.specs.Judgement.{AreJudged};

use crate::Status;
use crate::judgement::{judge_statements, status};
use crate::lines::bad_text_line;
use asm_core::{Items, Memory, Statement};
use asm_statement::statements;
use c_decls::scopes;
use c_tokens::{TokenEnd, Tokens, tokens};
use c_words::Source;
use ck_report::{Judged, report};
use std::alloc::Global;

/// What is printed of a file, and how a run that ends with it ends.
#[derive(Debug, Drop)]
pub struct Page {
    pub text: String,
    pub status: Status,
}

/// The page of a file that holds these bytes. Where `strict`, flags that change without `cc` break a rule.
#[tactic(auto, using(crate::proofs::PageLaws::page_laws))]
pub fn judge(alloc: Global, name: &str, text: &[u8], strict: bool) -> Result<Page, Memory>
    requires { length text.now ≤ MAX_FILE_BYTES }
    ensures { IfOk result (λ page. IsFileAnswer strict name.now text.now (answer_in page)) }
{
    match tokens(alloc, text) {
        Ok(tokens) => judge_tokens(alloc, name, text, &tokens, strict),
        Err(TokenEnd::Memory) => Err(Memory),
        Err(end) => Ok(Page {
            text: bad_text_line(alloc, name, text, end)?,
            status: Status::BadText,
        }),
    }
}

#[tactic(auto, using(crate::proofs::PageLaws::page_laws))]
fn judge_tokens(
    alloc: Global,
    name: &str,
    text: &[u8],
    tokens: &Tokens,
    strict: bool,
) -> Result<Page, Memory>
    requires small { length text.now ≤ MAX_FILE_BYTES }
    requires few { length tokens.now.list ≤ length text.now }
    requires ordered { IsOrdered 0 tokens.now.list (length text.now) }
    requires of_text { tokens_of text.now ≡ Ok tokens.now.list }
    ensures { IfOk result (λ page. IsFileAnswer strict name.now text.now (answer_in page)) }
{
    let statements = statements(alloc, tokens, text)?;
    let judged = verdicts(alloc, text, tokens, statements.as_slice(), strict)?;
    page_of(alloc, name, text, judged.as_slice())
}

/// The statements with their verdicts. The declarations of a file without statements aren't read.
#[tactic(auto, using(crate::proofs::JudgementLaws::judged_steps))]
fn verdicts(
    alloc: Global,
    text: &[u8],
    tokens: &Tokens,
    statements: &[Statement],
    strict: bool,
) -> Result<Items<Judged>, Memory>
    requires small { length text.now ≤ MAX_FILE_BYTES }
    requires few { length tokens.now.list ≤ length text.now }
    requires ordered { IsOrdered 0 tokens.now.list (length text.now) }
    requires parts { All (λ (s : Statement). IsBody s.body) statements.now }
    ensures { IfOk result (AreJudged strict (file_of text.now tokens.now.list)
        (declarations_of (file_of text.now tokens.now.list)) statements.now) }
{
    match statements {
        [] => Ok(Items::new(alloc)),
        some => {
            let source = Source::new(alloc, text, tokens)?;
            let scopes = scopes(alloc, tokens, text)?;
            judge_statements(alloc, &source, &scopes, some, strict)
        }
    }
}

/// The page of a file whose statements have these verdicts.
fn page_of(alloc: Global, name: &str, text: &[u8], judged: &[Judged]) -> Result<Page, Memory>
    requires { length text.now ≤ MAX_FILE_BYTES }
    ensures { IfOk result (λ page. answer_in page ≡ judged_answer name.now text.now judged.now) }
{
    Ok(Page {
        text: report(alloc, name, text, judged)?,
        status: status(judged),
    })
}
