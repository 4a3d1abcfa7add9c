//! All that a line writes, names, uses and accesses, each as a list, in one walk of its row.

ghost use Rattle.std.specs.Prelude.{◌≡◌, ◌≤◌, ◌++◌, length, IfOk, OnOk};
ghost use Rattle.std.specs.List.{filter_map, list_any};
ghost use Rattle.asm_core.specs.Entries.{origins, sources_of, by_of, if_named, writes_of, access_at, accesses_of};
ghost use Rattle.x86_rows.specs.Entered.{AreEntries, all_named, is_pointed, input_points, named_by, points};

use crate::accesses::access_at;
use crate::entries::{Purpose, all_origins, by, is_write, names_where, source, write};
use crate::fact::{fact_at, facts};
use asm_core::{
    Access, By, Fact, Input, Items, Memory, MicroOp, Origin, Site, Source, Sym, Target, Write,
};
use std::alloc::Global;

/// What a line writes, names, uses and accesses, whatever the state.
#[derive(Debug, Drop)]
pub struct LineEntries {
    /// The writes, in the row's order.
    pub writes: Items<Write>,
    /// What each of the writes names; nothing where it is a copy or sets a flag.
    pub named: Items<Items<Source>>,
    /// What a jump, a division or a repeated instruction depends on.
    pub uses: Items<Source>,
    /// What is copied, named or used.
    pub reads: Items<Source>,
    /// The accesses to memory, loads before stores.
    pub accesses: Items<Access>,
}

/// The sources of these names.
#[tactic(auto, using(crate::proofs::Halving::by_no_bits))]
fn sources(alloc: Global, s: &Sym, names: u64) -> Result<Items<Source>, Memory>
    ensures { IfOk result (λ found. found ≡ sources_of s.now names) }
{
    let mut found = Items::new(alloc);
    let mut bits = names;
    for origin in all_origins() {
        if bits == 0 {
            return Ok(found);
        }
        let is_named = bits % 2 == 1;
        bits /= 2;
        if !is_named {
            continue;
        }
        found.push(source(s, *origin))?;
    }
    Ok(found)
}

fn writes(alloc: Global, row: &[MicroOp], s: &Sym) -> Result<Items<Write>, Memory>
    ensures { IfOk result (λ found. found ≡ writes_of row.now s.now) }
{
    let mut found = Items::new(alloc);
    for op in row {
        if let Some(write) = write(s, op) {
            found.push(write)?;
        }
    }
    Ok(found)
}

/// What a micro-operation that writes names, given the fact of its value.
fn named(alloc: Global, s: &Sym, op: &MicroOp, fact: Fact) -> Result<Items<Source>, Memory>
    ensures { IfOk result (λ found. found ≡ named_by s.now op.now fact) }
{
    match by(s, op) {
        By::Named => sources(alloc, s, fact.names),
        _ => Ok(Items::new(alloc)),
    }
}

/// What each of the writes names.
fn all_named(
    alloc: Global,
    row: &[MicroOp],
    s: &Sym,
    facts: &[Fact],
) -> Result<Items<Items<Source>>, Memory>
    ensures { IfOk result (λ found. found ≡ all_named s.now facts.now row.now 0) }
{
    let mut found = Items::new(alloc);
    for (n, op) in row.iter().enumerate() {
        if is_write(op.target) {
            found.push(named(alloc, s, op, fact_at(facts, n))?)?;
        }
    }
    Ok(found)
}

fn is_pointed(origin: Origin) -> bool
    ensures { result ≡ is_pointed origin }
{
    matches!(origin, Origin::Pointed(_))
}

fn input_points(x: Input) -> bool
    ensures { result ≡ input_points x }
{
    matches!(x, Input::Read(Site::Pointed(_)))
}

/// Whether the micro-operation reads or writes the memory at an address in a register.
fn points(op: &MicroOp) -> bool
    ensures { result ≡ points op.now }
{
    matches!(op.target, Target::Site(Site::Pointed(_)))
        || (input_points(op.x) || (input_points(op.y) || input_points(op.z)))
}

fn any_points(row: &[MicroOp]) -> bool
    ensures { result ≡ list_any points row.now }
{
    row.iter().any(|op| points(op))
}

/// Appends the stores, or else the loads, of a row.
fn push_accesses(
    store: bool,
    row: &[MicroOp],
    s: &Sym,
    found: &mut Items<Access>,
) -> Result<(), Memory>
    ensures { OnOk result (found.new ≡ found.old ++ filter_map (access_at store row.now s.now) origins) }
{
    let no_pointer = !any_points(row);
    for origin in all_origins() {
        if no_pointer && is_pointed(*origin) {
            continue;
        }
        if let Some(access) = access_at(store, row, s, *origin) {
            found.push(access)?;
        }
    }
    Ok(())
}

fn accesses(alloc: Global, row: &[MicroOp], s: &Sym) -> Result<Items<Access>, Memory>
    ensures { IfOk result (λ found. found ≡ accesses_of row.now s.now) }
{
    let mut found = Items::new(alloc);
    push_accesses(false, row, s, &mut found)?;
    push_accesses(true, row, s, &mut found)?;
    Ok(found)
}

/// All that a line with this row writes, names, uses and accesses.
///
/// # Errors
/// Want of memory.
pub fn row_entries(alloc: Global, row: &[MicroOp], s: &Sym) -> Result<LineEntries, Memory>
    requires { length row.now ≤ 40 }
    ensures { IfOk result (AreEntries row.now s.now) }
{
    let facts = facts(row, s);
    let facts = facts.as_slice();
    Ok(LineEntries {
        writes: writes(alloc, row, s)?,
        named: all_named(alloc, row, s, facts)?,
        uses: sources(alloc, s, names_where(Purpose::Control, row, facts))?,
        reads: sources(alloc, s, names_where(Purpose::Use, row, facts))?,
        accesses: accesses(alloc, row, s)?,
    })
}
