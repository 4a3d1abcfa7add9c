ghost use Rattle.std.specs.Prelude.{◌≡◌, Some};
ghost use Rattle.asm_core.specs.Finding.{rule_name, rule_phrase};

use crate::{Flag, Reg};
use std::fmt;

/// The rules that a statement may break, in their order in reports. All are this project's own.
#[derive(Clone, Copy, Debug, PartialEq, Eq)]
pub enum Rule {
    W1,
    W2,
    W3,
    W4,
    M1,
    M2,
    R1,
    R2,
    R3,
    U1,
    U2,
    U3,
    U4,
    S1,
    S2,
    S3,
    J1,
    K1,
    K2,
}

impl Rule {
    /// What is wrong where the rule is broken.
    pub fn phrase(self) -> &'static str
        ensures { result.now ≡ rule_phrase self }
    {
        match self {
            Rule::W1 => "a register is not as at entry",
            Rule::W2 => "an input is changed",
            Rule::W3 => "the flags are not as at entry",
            Rule::W4 => "the direction flag is set",
            Rule::M1 => "undeclared memory is reached",
            Rule::M2 => "an operand is passed at its end",
            Rule::R1 => "an undeclared register or flag is used",
            Rule::R2 => "the old value of an output is used",
            Rule::R3 => "undefined bits are used",
            Rule::U1 => "the shapes differ here",
            Rule::U2 => "a byte name may be missing",
            Rule::U3 => "a place is overwritten before it is used",
            Rule::U4 => "a memory operand is used while the stack is moved",
            Rule::S1 => "the stack is not level at the end",
            Rule::S2 => "the stack has two depths here",
            Rule::S3 => "the stack is too deep or empty",
            Rule::J1 => "a jump leaves the block",
            Rule::K1 => "no placement has room",
            Rule::K2 => "the interface is malformed",
        }
    }
}

impl fmt::Display for Rule {
    ghost output = { λ r. Some (rule_name r) };

    fn fmt<W: fmt::Write>(&self, f: &mut fmt::Formatter<W>) -> fmt::Result {
        f.write_str(match self {
            Rule::W1 => "W1",
            Rule::W2 => "W2",
            Rule::W3 => "W3",
            Rule::W4 => "W4",
            Rule::M1 => "M1",
            Rule::M2 => "M2",
            Rule::R1 => "R1",
            Rule::R2 => "R2",
            Rule::R3 => "R3",
            Rule::U1 => "U1",
            Rule::U2 => "U2",
            Rule::U3 => "U3",
            Rule::U4 => "U4",
            Rule::S1 => "S1",
            Rule::S2 => "S2",
            Rule::S3 => "S3",
            Rule::J1 => "J1",
            Rule::K1 => "K1",
            Rule::K2 => "K2",
        })
    }
}

/// What a finding is about, in the order of reports.
#[derive(Clone, Copy, Debug, PartialEq, Eq)]
pub enum Cell {
    Reg(Reg),
    Flag(Flag),
    /// The operand of that number.
    Operand(u8),
    Memory,
    Cc,
    Nothing,
}

impl fmt::Display for Cell {
    ghost use Rattle.asm_core.specs.Finding.{cell_name};

    ghost output = { λ c. Some (cell_name c) };

    fn fmt<W: fmt::Write>(&self, f: &mut fmt::Formatter<W>) -> fmt::Result {
        match self {
            Cell::Reg(reg) => write!(f, "{}", reg),
            Cell::Flag(flag) => write!(f, "{}", flag),
            Cell::Operand(number) => write!(f, "%{}", number),
            Cell::Memory => f.write_str("memory"),
            Cell::Cc => f.write_str("cc"),
            Cell::Nothing => f.write_str("-"),
        }
    }
}

/// The line of a finding that speaks of the end of a block.
pub const END_LINE: u32 = 513;

/// A rule that is broken.
#[derive(Clone, Copy, Debug, PartialEq, Eq)]
pub struct Finding {
    pub rule: Rule,
    /// The number of the instruction from 1, `END_LINE` for the end, 0 where the rule speaks of no instruction.
    pub line: u32,
    pub cell: Cell,
    /// The other cell of a pair, else `Nothing`.
    pub other: Cell,
}

/// The line of a finding, as reports print it.
#[derive(Clone, Copy)]
struct Line(u32);

impl fmt::Display for Line {
    ghost use Rattle.asm_core.specs.Finding.{line_name};

    ghost output = { λ l. Some (line_name l.0) };

    fn fmt<W: fmt::Write>(&self, f: &mut fmt::Formatter<W>) -> fmt::Result {
        match self.0 {
            0 => f.write_str("-"),
            END_LINE => f.write_str("end"),
            number => write!(f, "{}", number),
        }
    }
}

impl fmt::Display for Finding {
    ghost use Rattle.asm_core.specs.Finding.{finding_text};

    ghost output = { λ finding. Some (finding_text finding) };

    fn fmt<W: fmt::Write>(&self, f: &mut fmt::Formatter<W>) -> fmt::Result {
        write!(
            f,
            "{} at {}: {} {}",
            self.rule,
            Line(self.line),
            self.cell,
            self.other
        )
    }
}
