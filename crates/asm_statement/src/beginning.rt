//! Which tokens begin an asm statement.

ghost use Rattle.std.specs.Prelude.{◌≡◌, ◌<◌, length, IfOk, OnOk};
ghost use Rattle.asm_statement.specs.Beginnings.{attributed, beginning_at, beginnings_of, begins, behind, in_block, innermost, is_attribute, is_covered, is_head, is_ready, nothing_before, opened_behind, parenthesis, ready_behind, ready_behind_bracket};

use crate::class::Class;
use crate::foreign::{begins_digraph, is_foreign};
use crate::source::class_of;
use asm_core::Memory;
use c_tokens::Token;
use std::alloc::{AllocError, Global};

/// An open bracket.
#[derive(Clone, Copy)]
pub struct Opened {
    /// Whether it is a parenthesis directly behind `if`, `while`, `for` or `switch`.
    pub head: bool,
    /// Whether it holds attributes that stand where a statement may begin.
    pub attributes: bool,
    /// Whether it or one around it is a brace.
    pub block: bool,
}

/// Whether a statement may begin.
#[derive(Clone, Copy)]
pub enum Ready {
    /// It may not.
    Unready,
    /// It may.
    Plain,
    /// It may, behind attributes or a digraph, and is outside.
    Attributed,
}

/// What stands before a token.
#[derive(Clone, Copy)]
pub struct Before {
    /// The class of the token directly before it.
    pub class: Class,
    pub ready: Ready,
    /// Whether that token is the first byte of a digraph.
    pub split: bool,
    /// Whether the compiler cuts some token before it otherwise.
    pub foreign: bool,
}

/// A keyword that begins a statement.
#[derive(Clone, Copy)]
pub struct Beginning {
    /// The index of its token.
    pub at: u32,
    /// Whether it stands between braces.
    pub in_block: bool,
    /// Whether neither attributes stand before it nor, anywhere, a token that the compiler cuts otherwise.
    pub covered: bool,
}

fn in_block(opened: &[Opened]) -> bool
    ensures { result ≡ in_block opened.now }
{
    match opened.last() {
        Some(o) => o.block,
        None => false,
    }
}

impl Ready {
    /// Whether a statement may begin.
    fn is_ready(self) -> bool
        ensures { result ≡ is_ready self }
    {
        match self {
            Ready::Unready => false,
            Ready::Plain | Ready::Attributed => true,
        }
    }

    /// Behind attributes.
    fn attributed(self) -> Ready
        ensures { result ≡ attributed self }
    {
        match self {
            Ready::Unready => Ready::Unready,
            Ready::Plain | Ready::Attributed => Ready::Attributed,
        }
    }

    /// Behind the closing bracket of the innermost that is open.
    fn behind_bracket(opened: &[Opened]) -> Ready
        ensures { result ≡ ready_behind_bracket (innermost opened.now) }
    {
        match opened.last() {
            Some(o) if o.head => Ready::Plain,
            Some(o) if o.attributes => Ready::Attributed,
            _ => Ready::Unready,
        }
    }

    /// Behind a token of this class.
    fn behind(self, opened: &[Opened], class: Class) -> Ready
        ensures { result ≡ ready_behind opened.now self class }
    {
        match class {
            Class::Semicolon | Class::OpenBrace | Class::CloseBrace | Class::Colon | Class::Lead =>
                Ready::Plain,
            Class::Extension | Class::Attribute => self.attributed(),
            Class::CloseParen | Class::CloseBracket => Ready::behind_bracket(opened),
            _ => Ready::Unready,
        }
    }
}

impl Before {
    /// Before the first token.
    fn new() -> Before
        ensures { result ≡ nothing_before }
    {
        Before {
            class: Class::Missing,
            ready: Ready::Plain,
            split: false,
            foreign: false,
        }
    }

    /// Behind the token.
    fn behind(self, text: &[u8], opened: &[Opened], token: &Token) -> Before
        ensures { result ≡ behind text.now opened.now self token.now }
    {
        let class = class_of(text, token);
        let ready = if self.split {
            Ready::Attributed
        } else {
            self.ready.behind(opened, class)
        };
        Before {
            class,
            ready,
            split: begins_digraph(text, token),
            foreign: self.foreign || is_foreign(text, token),
        }
    }

    /// Whether a statement that begins here is of this profile.
    fn is_covered(self) -> bool
        ensures { result ≡ is_covered self }
    {
        match self.ready {
            Ready::Plain => !self.foreign,
            Ready::Unready | Ready::Attributed => false,
        }
    }

    /// The statement that begins with the token of this index.
    fn beginning(self, opened: &[Opened], i: usize) -> Beginning
        requires { i < 4294967296 }
        ensures { result ≡ beginning_at i opened.now self }
    {
        Beginning {
            at: i as u32,
            in_block: in_block(opened),
            covered: self.is_covered(),
        }
    }

    /// The bracket that opens behind it with a parenthesis.
    fn parenthesis(self, opened: &[Opened]) -> Opened
        ensures { result ≡ parenthesis opened.now self }
    {
        Opened {
            head: matches!(self.class, Class::Head),
            attributes: matches!(self.class, Class::Attribute) && self.ready.is_ready(),
            block: in_block(opened),
        }
    }
}

/// Goes past a token of this class: keeps which brackets are open.
fn pass(opened: &mut Vec<Opened>, before: Before, class: Class) -> Result<(), AllocError>
    ensures { OnOk result (opened.new.items ≡ opened_behind opened.old.items before class) }
{
    let block = in_block(opened);
    match class {
        Class::OpenParen => {
            let o = before.parenthesis(opened);
            opened.push(o)?;
            Ok(())
        }
        Class::OpenBracket => {
            opened.push(Opened {
                head: false,
                attributes: before.ready.is_ready(),
                block,
            })?;
            Ok(())
        }
        Class::OpenBrace => {
            opened.push(Opened {
                head: false,
                attributes: false,
                block: true,
            })?;
            Ok(())
        }
        Class::CloseParen | Class::CloseBracket | Class::CloseBrace => {
            opened.pop();
            Ok(())
        }
        _ => Ok(()),
    }
}

fn begins(class: Class, ready: Ready) -> bool
    ensures { result ≡ begins class ready }
{
    match class {
        Class::Keyword => ready.is_ready(),
        _ => false,
    }
}

/// The keywords that begin a statement, in one pass.
#[tactic(auto, using(crate::proofs::BeginningLemmas::beginning_steps))]
pub fn beginnings(alloc: Global, text: &[u8], tokens: &[Token]) -> Result<Vec<Beginning>, Memory>
    requires { length tokens.now < 4294967296 }
    ensures { IfOk result (λ list. list.items ≡ beginnings_of text.now tokens.now) }
{
    let mut list = Vec::new(alloc);
    let mut opened = Vec::new(alloc);
    let mut before = Before::new();
    for (i, token) in tokens.iter().enumerate() {
        let class = class_of(text, token);
        let found = begins(class, before.ready);
        let beginning = before.beginning(&opened, i);
        let behind = before.behind(text, &opened, token);
        pass(&mut opened, before, class)?;
        before = behind;
        if !found {
            continue;
        }
        list.push(beginning)?;
    }
    Ok(list)
}
