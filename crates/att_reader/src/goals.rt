//! Where the operands of an instruction may jump.

ghost use Rattle.std.specs.Prelude.{◌≡◌, map};
ghost use Rattle.asm_core.specs.Reading.Line.{goal_of};
ghost use Rattle.att_reader.specs.Text.{defined};

use crate::label::goal_of;
use asm_core::Label;

/// The labels of a template, and the number of the instruction that is read.
#[derive(Clone, Copy)]
pub struct Goals<'a> {
    pub labels: &'a [Label],
    pub inst: u32,
}

impl<'a> Goals<'a> {
    /// Where an operand of the instruction jumps; `None` where the text is no label.
    pub fn of(&self, text: &[u8]) -> Option<Option<u32>>
        ensures { result ≡ goal_of (map defined self.now.labels.now) self.now.inst text.now }
    {
        goal_of(self.labels, self.inst, text)
    }
}
