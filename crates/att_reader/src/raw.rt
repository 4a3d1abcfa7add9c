ghost use Rattle.att_reader.specs.Text.{IsText};

use crate::text::Text;
use asm_core::Prefix;

/// What the statements of a template are, one behind the other.
#[derive(Drop)]
pub enum Raw<'a> {
    Label(&'a [u8]),
    /// An instruction without a reading: a prefix that no instruction follows, or the second of two equal `.L` labels.
    Dead(Text<'a>),
    Live(Instruction<'a>),
}

/// An instruction as it is written.
#[derive(Drop)]
pub struct Instruction<'a> {
    pub before: Vec<Prefix>,
    /// What stands from its first prefix on.
    pub from: Text<'a>,
    /// What stands behind its prefixes.
    pub body: Text<'a>,
    ghost same: { IsText body },
}
