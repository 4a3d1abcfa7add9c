//! The lines of the statements of a file.

ghost use Rattle.std.specs.Prelude.{◌≡◌, ◌<◌, ◌++◌, Some, length, IfOk, OnOk};
ghost use Rattle.std.specs.String.{string_bytes};
ghost use Rattle.ck_report.specs.Report.{report_of, verdict_lines, ok_line, finding_lines, finding_line, mark_line, kind_name, place_text, line_column_text};
ghost use Rattle.ck_report.specs.Place.{beginning};
ghost use Rattle.c_tokens.specs.Lines.{line_col_of};

use crate::Place;
use crate::places::Places;
use asm_core::{Finding, Mark, MarkKind, Memory};
use blk_check::Verdict;
use std::alloc::Global;
use std::fmt;
use std::fmt::Write;

/// A statement with its verdict.
#[derive(Debug, Drop)]
pub struct Judged {
    /// The offset of its keyword.
    pub offset: u32,
    pub verdict: Verdict,
}

/// A line and a column, both counted from 1.
#[derive(Clone, Copy)]
struct LineColumn {
    line: u32,
    column: u32,
}

impl fmt::Display for LineColumn {
    ghost output = { λ p. Some (line_column_text (p.line, p.column)) };

    fn fmt<W: fmt::Write>(&self, f: &mut fmt::Formatter<W>) -> fmt::Result {
        write!(f, "{}:{}", self.line, self.column)
    }
}

/// The lines of the statements of the named file, in their order. An offset past the end of the text counts as the
/// end.
pub fn report(alloc: Global, name: &str, text: &[u8], all: &[Judged]) -> Result<String, Memory>
    requires { length text.now < 4294967295 }
    ensures { IfOk result (λ lines. string_bytes lines ≡ report_of name.now text.now all.now) }
{
    let places = Places::new(alloc, name, text)?;
    let mut lines = String::new(alloc);
    for statement in all {
        append_verdict(&mut lines, &places, statement.offset, &statement.verdict)?;
    }
    Ok(lines)
}

/// Appends the lines of the statement whose keyword is at that offset.
fn append_verdict(
    lines: &mut String,
    places: &Places<'_>,
    offset: u32,
    verdict: &Verdict,
) -> Result<(), Memory>
    ensures { OnOk result (string_bytes lines.new ≡ string_bytes lines.old
        ++ verdict_lines places.now.0 places.now.1 offset verdict.now) }
{
    match verdict {
        Verdict::Ok(_) => append_ok(lines, places.place(offset)),
        Verdict::Broken(findings) => {
            append_findings(lines, places.place(offset), findings.as_slice())
        }
        Verdict::Outside(mark) => append_mark(lines, places, offset, *mark),
    }
}

/// Appends the line of a statement that is accepted as it stands.
pub fn append_ok(lines: &mut String, place: Place<'_>) -> Result<(), Memory>
    ensures { OnOk result (string_bytes lines.new ≡ string_bytes lines.old
        ++ ok_line (beginning place.entry)) }
{
    write!(lines, "{place}ok\n")?;
    Ok(())
}

fn append_findings(lines: &mut String, place: Place<'_>, findings: &[Finding]) -> Result<(), Memory>
    ensures { OnOk result (string_bytes lines.new ≡ string_bytes lines.old
        ++ finding_lines (beginning place.entry) findings.now) }
{
    for finding in findings {
        append_finding(lines, place, finding)?;
    }
    Ok(())
}

fn append_finding(lines: &mut String, place: Place<'_>, finding: &Finding) -> Result<(), Memory>
    ensures { OnOk result (string_bytes lines.new ≡ string_bytes lines.old
        ++ finding_line (beginning place.entry) finding.now) }
{
    write!(
        lines,
        "{place}broken {finding}: {}\n",
        finding.rule.phrase()
    )?;
    Ok(())
}

/// Appends the line of a statement at an offset that is outside the tables.
pub fn append_mark(
    lines: &mut String,
    places: &Places<'_>,
    offset: u32,
    mark: Mark,
) -> Result<(), Memory>
    ensures { OnOk result (string_bytes lines.new ≡ string_bytes lines.old
        ++ mark_line (place_text places.now.0 (line_col_of places.now.1 offset)) mark.kind
        (line_col_of places.now.1 mark.place)) }
{
    let Place { line, column, .. } = places.place(mark.place);
    append_mark_line(
        lines,
        places.place(offset),
        mark.kind,
        LineColumn { line, column },
    )
}

fn append_mark_line(
    lines: &mut String,
    place: Place<'_>,
    kind: MarkKind,
    at: LineColumn,
) -> Result<(), Memory>
    ensures { OnOk result (string_bytes lines.new ≡ string_bytes lines.old
        ++ mark_line (beginning place.entry) kind (at.line, at.column)) }
{
    write!(lines, "{place}undecided {} at {at}\n", kind_name(kind))?;
    Ok(())
}

fn kind_name(kind: MarkKind) -> &'static str
    ensures { result.now ≡ kind_name kind }
{
    match kind {
        MarkKind::Statement => "statement form",
        MarkKind::Clobber => "clobber name",
        MarkKind::Operand => "operand type",
        MarkKind::Constraint => "constraint",
        MarkKind::Template => "template form",
        MarkKind::Shapes => "shapes",
        MarkKind::Lines => "lines",
        MarkKind::Instruction => "instruction",
    }
}
