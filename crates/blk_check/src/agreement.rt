//! What the shapes have to agree on (rules U1 and J1).

ghost use Rattle.std.specs.Prelude.{◌≡◌, ◌<◌, not, All, IfSome, find, fold, option_map, slice_get, ◌++◌, None, Some, IfOk, OnOk};
ghost use Rattle.std.specs.Borrow.{Bor};
ghost use Rattle.std.specs.List.{list_any};
ghost use Rattle.asm_core.specs.Lists.{count_from};
ghost use Rattle.asm_core.specs.WellFormed.{IsInterface};
ghost use Rattle.blk_check.specs.Readable.{IsShort, inst_at, read_alike, is_read_twofold, have_common, named_from, unasked_from, names_one, breaks_u1, instructions_in, or_end, end_if, u1_line, is_lost, first_lost, lesser, j1_line, finding_at, shape_findings, differing, some_output_differs};

use crate::differing::{differing, places_under, some_output_differs};
use crate::unread::inst_at;
use asm_core::{
    Cell, END_LINE, Finding, Interface, Items, JumpTarget, Lines, Memory, Named, Places, RegSet,
    Rule, Shape, Sym,
};
use att_reader::unasked;
use bitflags::Flags;
use std::alloc::Global;

/// Whether both are read with one operation and one width, or neither is read.
fn read_alike(one: Option<&Sym>, other: Option<&Sym>) -> bool
    ensures { result ≡ read_alike (option_map (λ (s : Bor Sym). s.now) one.entry) (option_map (λ (s : Bor Sym). s.now) other.entry) }
{
    match (one, other) {
        (Some(a), Some(b)) => a.op == b.op && a.width == b.width,
        (None, None) => true,
        _ => false,
    }
}

fn some_reads_otherwise(first: &Lines, others: &[Lines], n: usize) -> bool
    ensures { result ≡ list_any (λ (y : Lines). not (read_alike (inst_at n first.now) (inst_at n y))) others.now }
{
    others
        .iter()
        .any(|lines| !read_alike(inst_at(n, first), inst_at(n, lines)))
}

/// Whether two of the shapes read the instruction as different ones.
fn is_read_twofold(readings: &[Lines], n: usize) -> bool
    ensures { result ≡ is_read_twofold readings.now n }
{
    match readings {
        [] => false,
        [first, others @ ..] => some_reads_otherwise(first, others, n),
    }
}

/// Whether the instruction's text names one of those that differ.
fn named_from(differing: &Named, named: Option<Named>) -> bool
    ensures { result ≡ named_from differing.now named }
{
    match named {
        None => false,
        Some(named) => {
            differing.regs.bits() & named.regs.bits() != 0
                || differing.operands & named.operands != 0
        }
    }
}

/// Whether the instruction uses one of the registers unasked.
fn unasked_from(registers: RegSet, inst: Option<&Sym>) -> bool
    ensures { result ≡ unasked_from registers (option_map (λ (s : Bor Sym). s.now) inst.entry) }
{
    match inst {
        None => false,
        Some(inst) => registers.bits() & unasked(inst).bits() != 0,
    }
}

fn names_one(differing: &Named, n: usize, lines: &Lines) -> bool
    ensures { result ≡ names_one differing.now n lines.now }
{
    named_from(differing, lines.named.get(n).copied())
        || unasked_from(differing.regs, inst_at(n, lines))
}

fn some_names_one(differing: &Named, readings: &[Lines], n: usize) -> bool
    ensures { result ≡ list_any (names_one differing.now n) readings.now }
{
    readings.iter().any(|lines| names_one(differing, n, lines))
}

fn breaks_u1(differing: &Named, readings: &[Lines], n: usize) -> bool
    ensures { result ≡ breaks_u1 differing.now readings.now n }
{
    is_read_twofold(readings, n) || some_names_one(differing, readings, n)
}

#[tactic(auto, using(asm_core::proofs::CountLaws::counted_more, asm_core::proofs::CountLaws::counted_all))]
fn find_in(differing: &Named, readings: &[Lines], first: &Lines) -> Option<usize>
    requires { IsShort first.now }
    ensures is { result ≡ find (breaks_u1 differing.now readings.now) (count_from 0 first.now.insts) }
    ensures short { IfSome result (λ n. n < 512) }
{
    for (n, _inst) in first.insts.as_slice().iter().enumerate() {
        if breaks_u1(differing, readings, n) {
            return Some(n);
        }
    }
    None
}

/// The first instruction that breaks U1, from 0.
#[tactic(auto, using(crate::proofs::AgreementLaws::first_short))]
fn find_u1(differing: &Named, readings: &[Lines]) -> Option<usize>
    requires { All IsShort readings.now }
    ensures short { IfSome result (λ n. n < 512) }
    ensures is { result ≡ find (breaks_u1 differing.now readings.now) (instructions_in readings.now) }
{
    match readings {
        [] => None,
        [first, ..] => find_in(differing, readings, first),
    }
}

/// The least line of U1: an instruction's, or the end's where it is an output's.
#[tactic(auto, unfolding(crate::specs::Readable::u1_line))]
fn u1_line(interface: &Interface, places: &[Items<Places>], readings: &[Lines]) -> Option<u32>
    requires interface { IsInterface interface.now }
    requires short { All IsShort readings.now }
    ensures { result ≡ u1_line interface.now places.now readings.now }
{
    if let Some(n) = find_u1(&differing(interface, places), readings) {
        return Some(n as u32 + 1);
    }
    if some_output_differs(interface, places) {
        return Some(END_LINE);
    }
    None
}

fn is_lost(target: &JumpTarget) -> bool
    ensures { result ≡ is_lost target.now }
{
    target.goal.is_none()
}

fn lost_jump(targets: &[JumpTarget]) -> Option<&JumpTarget>
    requires { All (λ (t : JumpTarget). t.inst < 512) targets.now }
    ensures short { IfSome result (λ (t : Bor JumpTarget). t.now.inst < 512) }
    ensures is { option_map (λ (t : Bor JumpTarget). t.now) result ≡ find is_lost targets.now }
{
    targets.iter().find(|target| is_lost(target))
}

/// The line of the first jump to no label.
fn first_lost(lines: &Lines) -> Option<u32>
    requires { IsShort lines.now }
    ensures { result ≡ first_lost lines.now }
{
    match lost_jump(lines.targets.as_slice()) {
        Some(target) => Some(target.inst + 1),
        None => None,
    }
}

fn lesser(one: Option<u32>, other: Option<u32>) -> Option<u32>
    ensures { result ≡ lesser one other }
{
    match (one, other) {
        (Some(a), Some(b)) => Some(a.min(b)),
        (Some(a), None) => Some(a),
        (None, other) => other,
    }
}

/// The least line of J1.
#[tactic(auto, unfolding(crate::specs::Readable::j1_line))]
fn j1_line(readings: &[Lines]) -> Option<u32>
    requires { All IsShort readings.now }
    ensures { result ≡ j1_line readings.now }
{
    let mut least = None;
    for lines in readings {
        least = lesser(least, first_lost(lines));
    }
    least
}

fn push_at(findings: &mut Items<Finding>, rule: Rule, line: Option<u32>) -> Result<(), Memory>
    ensures { OnOk result (findings.new ≡ findings.old ++ finding_at rule line) }
{
    if let Some(line) = line {
        findings.push(Finding {
            rule,
            line,
            cell: Cell::Nothing,
            other: Cell::Nothing,
        })?;
    }
    Ok(())
}

/// The findings of U1 and J1 under these shapes.
#[tactic(auto, unfolding(crate::specs::Readable::shape_findings))]
pub fn shape_findings(
    alloc: Global,
    interface: &Interface,
    shapes: &[Shape],
    readings: &[Lines],
) -> Result<Items<Finding>, Memory>
    requires interface { IsInterface interface.now }
    requires short { All IsShort readings.now }
    ensures { IfOk result (λ findings. findings ≡ shape_findings interface.now shapes.now readings.now) }
{
    let places = places_under(alloc, interface, shapes)?;
    let mut findings = Items::new(alloc);
    push_at(
        &mut findings,
        Rule::U1,
        u1_line(interface, places.as_slice(), readings),
    )?;
    push_at(&mut findings, Rule::J1, j1_line(readings))?;
    Ok(findings)
}
