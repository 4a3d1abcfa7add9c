//! The least line at which each rule is broken, and the list of it.

ghost use Rattle.std.specs.Prelude.{◌≡◌, ◌<◌, ◌++◌, [], ◌∷◌, length, replicate, slice_index, IfOk, OnOk};
ghost use Rattle.blk_deps.specs.Findings.{finding_of};
ghost use Rattle.blk_deps.specs.Noting.{is_earlier, entered, line_of, with_finding, findings_at, listed_of};

use crate::Violation;
use asm_core::{Finding, Items, Memory};
use std::alloc::Global;

/// The least line at which each violation of a list was seen so far; 0 where none was.
#[derive(Drop)]
pub struct Least {
    lines: Vec<u32>,
}

impl Least {
    /// No line of so many violations.
    ///
    /// # Errors
    /// Want of memory.
    pub fn new(alloc: Global, count: usize) -> Result<Least, Memory>
        ensures { IfOk result (λ least. least.lines.items ≡ replicate count 0) }
    {
        let lines = vec![in alloc; 0; count]?;
        Ok(Least { lines })
    }

    /// Whether that line is less than the violation's, or the first.
    pub(crate) fn is_less(&self, t: usize, line: u32) -> bool
        requires { t < length self.now.lines.items }
        ensures { result ≡ is_earlier line (slice_index self.now.lines.items t) }
    {
        self.lines[t] == 0 || line < self.lines[t]
    }

    /// Makes that line the violation's, if it is broken there.
    pub(crate) fn enter(&mut self, t: usize, line: u32, broken: bool)
        requires { t < length self.old.lines.items }
        ensures { self.new.lines.items ≡ entered broken t line self.old.lines.items }
    {
        if broken {
            self.lines[t] = line;
        }
    }
}

/// The finding of the violation on that line.
fn finding(violation: &Violation, line: u32) -> Finding
    ensures { result ≡ finding_of violation.now line }
{
    Finding {
        rule: violation.rule,
        line,
        cell: violation.cell,
        other: violation.other,
    }
}

/// The line of an entry.
fn line_of(entry: u32) -> Option<u32>
    ensures { result ≡ line_of entry }
{
    if entry == 0 {
        return None;
    }
    Some(entry)
}

/// Puts the violation's finding behind the others, where it has a line.
fn push_finding(
    found: &mut Items<Finding>,
    violation: &Violation,
    line: Option<u32>,
) -> Result<(), Memory>
    ensures { OnOk result (found.new ≡ found.old ++ with_finding violation.now line []) }
{
    if let Some(line) = line {
        found.push(finding(violation, line))?;
    }
    Ok(())
}

/// The findings of these violations, each that was seen, at its least line.
///
/// # Errors
/// Want of memory.
pub fn listed(
    alloc: Global,
    violations: &[Violation],
    least: &Least,
) -> Result<Items<Finding>, Memory>
    requires { length least.now.lines.items ≡ length violations.now }
    ensures { IfOk result (λ found. found ≡ listed_of violations.now least.now.lines.items) }
{
    let mut found = Items::new(alloc);
    for t in 0..violations.len() {
        push_finding(&mut found, &violations[t], line_of(least.lines[t]))?;
    }
    Ok(found)
}

/// The findings of the rules on the stack, of the least line at which each is broken, if any.
///
/// # Errors
/// Want of memory.
pub fn listed_stack(
    alloc: Global,
    violations: &[Violation],
    lines: &[Option<u32>],
) -> Result<Items<Finding>, Memory>
    requires { length lines.now ≡ length violations.now }
    ensures { IfOk result (λ found. found ≡ findings_at violations.now lines.now) }
{
    let mut found = Items::new(alloc);
    for t in 0..violations.len() {
        push_finding(&mut found, &violations[t], lines[t])?;
    }
    Ok(found)
}
