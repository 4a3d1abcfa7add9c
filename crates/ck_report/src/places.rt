//! The places of one file.

ghost use Rattle.std.specs.Prelude.{◌≡◌, ◌<◌, length, IfOk};
ghost use Rattle.c_tokens.specs.Lines.{line_col_of};

use crate::Place;
use asm_core::Memory;
use c_tokens::LineStarts;
use std::alloc::Global;
use std::marker::Model;

/// The places of a file, found without counting from its beginning each time.
#[derive(Drop)]
pub struct Places<'a> {
    name: &'a str,
    starts: LineStarts<'a>,
    end: u32,
}

impl<'a> Model for Places<'a> {
    ghost use Rattle.std.specs.Prelude.{List, ℕ, ◌≡◌, length};

    // The file's name and its text.
    ghost Value = { List ℕ × List ℕ };

    ghost view = { λ p. (p.name.now, p.starts) };

    ghost invariant = { λ p. p.end ≡ length p.starts };
}

impl<'a> Places<'a> {
    ghost use Rattle.ck_report.specs.Place.{IsPlaceOf};

    pub fn new(alloc: Global, name: &'a str, text: &'a [u8]) -> Result<Self, Memory>
        requires { length text.now < 4294967295 }
        ensures { IfOk result (λ places. places ≡ (name.now, text.now)) }
    {
        Ok(Places {
            name,
            starts: LineStarts::new(alloc, text)?,
            end: text.len() as u32,
        })
    }

    /// The place of an offset; one past the end counts as the end.
    pub fn place(&self, offset: u32) -> Place<'a>
        ensures { IsPlaceOf result self.now.0 (line_col_of self.now.1 offset) }
    {
        let (line, column) = self.starts.line_col(offset.min(self.end));
        Place {
            name: self.name,
            line,
            column,
        }
    }
}
