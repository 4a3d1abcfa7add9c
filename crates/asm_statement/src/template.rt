//! The bytes that a template's literals stand for.

ghost use Rattle.std.specs.Prelude.{◌≡◌};
ghost use Rattle.c_literals.specs.Literals.{GivesBytes};
ghost use Rattle.asm_statement.specs.Templates.{is_prefixed, literal_of, template_of};

use crate::class::Class;
use crate::source::class_of;
use c_literals::{LiteralEnd, Plain, Raw, raws_in, read_all};
use c_tokens::Token;
use std::alloc::Global;

/// The bytes that one literal of a template stands for.
fn literal(alloc: Global, text: &[u8], token: &Token) -> Result<Vec<Raw>, LiteralEnd>
    ensures { GivesBytes (λ v. v.items) result (literal_of text.now token.now) }
{
    match class_of(text, token) {
        Class::Prefixed => Err(LiteralEnd::Bad(token.span.from)),
        _ => {
            let raws = raws_in(alloc, text, token)?;
            read_all(alloc, &raws, Plain::Printable)
        }
    }
}

/// The bytes that the literals of a template stand for.
#[tactic(auto, using(crate::proofs::TemplateLemmas::template_steps))]
pub fn template(alloc: Global, text: &[u8], tokens: &[Token]) -> Result<Vec<Raw>, LiteralEnd>
    ensures { GivesBytes (λ v. v.items) result (template_of text.now tokens.now) }
{
    let mut list = Vec::new(alloc);
    for token in tokens {
        let mut more = literal(alloc, text, token)?;
        list.append(&mut more)?;
    }
    Ok(list)
}
