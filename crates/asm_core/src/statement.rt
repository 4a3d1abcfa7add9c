ghost use Rattle.std.specs.Prelude.{◌≡◌, IfOk};

use crate::{Duplicate, Items, Mark, Memory, Span, duplicate_items};
use std::alloc::Global;

/// The bytes that one or more adjacent string literals stand for, or the bytes of a name.
#[derive(Debug, Drop)]
pub struct Quoted {
    pub bytes: Items<u8>,
    /// For each byte the offset in the file at which its source begins.
    pub at: Items<u32>,
    /// From the first literal's first byte to past the last one's closing quote.
    pub span: Span,
}

/// One operand of an asm statement: `[name] "constraint" (expression)`.
#[derive(Debug, Drop)]
pub struct Part {
    pub name: Option<Quoted>,
    pub constraint: Quoted,
    /// From the expression's first token to past its last one.
    pub expr: Span,
}

/// What stands between the parentheses of an asm statement (GCC manual, "Extended Asm").
#[derive(Debug, Drop)]
pub struct Parts {
    pub template: Quoted,
    pub outputs: Items<Part>,
    pub inputs: Items<Part>,
    pub clobbers: Items<Quoted>,
    /// How many colons there are, from 1 to 3.
    pub colons: u8,
    /// The offset just past the last token before the closing parenthesis.
    pub last: u32,
    /// The offset of the leftmost thing in the template that makes it one outside the tables.
    pub bad_template: Option<u32>,
}

#[derive(Debug, Drop)]
pub enum Body {
    Parts(Parts),
    Outside(Mark),
}

/// An asm statement, from its keyword to past its closing parenthesis.
#[derive(Debug, Drop)]
pub struct Statement {
    pub span: Span,
    pub body: Body,
}

impl Duplicate for Quoted {
    fn duplicate(&self, alloc: Global) -> Result<Self, Memory> {
        Ok(Quoted {
            bytes: Items::from_slice(alloc, self.bytes.as_slice())?,
            at: Items::from_slice(alloc, self.at.as_slice())?,
            span: self.span,
        })
    }
}

impl Duplicate for Part {
    fn duplicate(&self, alloc: Global) -> Result<Self, Memory> {
        let name = match &self.name {
            Some(name) => Some(name.duplicate(alloc)?),
            None => None,
        };
        Ok(Part {
            name,
            constraint: self.constraint.duplicate(alloc)?,
            expr: self.expr,
        })
    }
}

impl Duplicate for Parts {
    fn duplicate(&self, alloc: Global) -> Result<Self, Memory> {
        Ok(Parts {
            template: self.template.duplicate(alloc)?,
            outputs: duplicate_items(alloc, self.outputs.as_slice())?,
            inputs: duplicate_items(alloc, self.inputs.as_slice())?,
            clobbers: duplicate_items(alloc, self.clobbers.as_slice())?,
            colons: self.colons,
            last: self.last,
            bad_template: self.bad_template,
        })
    }
}

impl Duplicate for Statement {
    fn duplicate(&self, alloc: Global) -> Result<Self, Memory> {
        let body = match &self.body {
            Body::Parts(parts) => Body::Parts(parts.duplicate(alloc)?),
            Body::Outside(mark) => Body::Outside(*mark),
        };
        Ok(Statement {
            span: self.span,
            body,
        })
    }
}
