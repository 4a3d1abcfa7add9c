//! Places in a file, as reports print them.

ghost use Rattle.std.specs.Prelude.{◌≡◌, ◌<◌, Some, length};
ghost use Rattle.c_tokens.specs.Lines.{line_col_of};

use c_tokens::line_col;
use std::fmt;

/// A place in a file, with which each line of a report begins. Lines and columns count from 1, columns in bytes.
#[derive(Clone, Copy, Debug)]
pub struct Place<'a> {
    pub name: &'a str,
    pub line: u32,
    pub column: u32,
}

impl fmt::Display for Place<'_> {
    ghost use Rattle.ck_report.specs.Place.{beginning};

    ghost output = { λ p. Some (beginning p) };

    fn fmt<W: fmt::Write>(&self, f: &mut fmt::Formatter<W>) -> fmt::Result {
        write!(f, "{}:{}:{}: ", self.name, self.line, self.column)
    }
}

impl<'a> Place<'a> {
    ghost use Rattle.ck_report.specs.Place.{IsPlaceOf};

    /// The place of an offset of the text; one past the end counts as the end.
    pub fn of_offset(name: &'a str, text: &[u8], offset: u32) -> Self
        requires { length text.now < 4294967295 }
        ensures { IsPlaceOf result name.now (line_col_of text.now offset) }
    {
        let (line, column) = line_col(text, offset.min(text.len() as u32));
        Place { name, line, column }
    }
}
