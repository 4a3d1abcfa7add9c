ghost use Rattle.std.specs.Prelude.{◌≡◌, ◌↔◌, ℕ, ◌<◌, ◌≤◌, min, length, slice_get, map, [], ◌∷◌, ◌++◌, IfOk, OnOk, option_to_list, if◌then◌else◌};
ghost use Rattle.std.specs.List.{flat_map};
ghost use Rattle.asm_core.specs.Shape.{letter_kinds, kind_lists, alternative_of, alternatives_of, shapes_of};
ghost use Rattle.asm_core.specs.WellFormed.{IsInterface};
ghost use Rattle.asm_places.specs.Counts.{kind_count, list_count, allows, one_longer, all_longer, count_with, lists_with, of_alternative};
ghost use Rattle.asm_places.specs.declared.listing.ShapesEnd.{ShapesEnd};

use asm_core::{AltIface, Duplicate, Interface, Items, Kind, Kinds, Memory, OperandIface, Shape};
use bitflags::Flags;
use std::alloc::Global;
use thiserror::Error;

/// How many shapes an interface may have.
const MAX_SHAPES: usize = 64;

/// Why the shapes of an interface are not listed.
#[derive(Debug, Drop, Error)]
pub enum ShapesEnd {
    /// There are more than 64.
    #[error("more than 64 shapes")]
    TooMany,
    #[error("out of memory")]
    Memory,
}

impl From<Memory> for ShapesEnd {
    ghost from_gives = { λ _ end. end ≡ ShapesEnd.Memory };

    fn from(_: Memory) -> Self {
        ShapesEnd::Memory
    }
}

/// All shapes: by alternative, then by kinds in the order Register, Memory, Number, the last operand changing fastest.
///
/// # Errors
/// `TooMany` exactly where there are more than 64, and no list is begun then; `Memory`.
pub fn shapes(alloc: Global, i: &Interface) -> Result<Items<Shape>, ShapesEnd>
    requires { IsInterface i.now }
    ensures all { IfOk result (λ list. list ≡ shapes_of i.now) }
    ensures too_many { (result ≡ Err ShapesEnd.TooMany) ↔ (64 < length (shapes_of i.now)) }
{
    if shape_count(i) > MAX_SHAPES {
        return Err(ShapesEnd::TooMany);
    }
    Ok(listed(alloc, i)?)
}

/// How many alternatives the operands have; a statement without operands has one.
fn alternative_count(i: &Interface) -> usize
    ensures { result ≡ length (alternatives_of i.now) }
{
    match i.operands.get(0) {
        Some(operand) => operand.alts.len(),
        None => 1,
    }
}

/// The count of shapes, 65 where there are more than 64.
fn shape_count(i: &Interface) -> usize
    requires { IsInterface i.now }
    ensures { result ≡ min 65 (length (shapes_of i.now)) }
{
    let mut count = 0;
    for a in 0..alternative_count(i) {
        count = (count + list_count(i, a)).min(MAX_SHAPES + 1);
    }
    count
}

/// The count of shapes of one alternative, 65 where there are more than 64.
fn list_count(i: &Interface, a: usize) -> usize
    ensures { result ≡ min 65 (list_count (alternative_of i.now a)) }
{
    let mut count = 1;
    for operand in i.operands.as_slice() {
        count = count_with(count, allowed_in(operand, a));
    }
    count
}

fn allowed_in(operand: &OperandIface, a: usize) -> Option<AltIface>
    ensures { result ≡ slice_get operand.now.alts a }
{
    operand.alts.get(a).copied()
}

/// The count with one more operand, 65 where it is more than 64.
fn count_with(count: usize, allowed: Option<AltIface>) -> usize
    requires { count ≤ 65 }
    ensures { result ≡ count_with allowed count }
{
    match allowed {
        Some(allowed) => (count * kind_count(&allowed)).min(MAX_SHAPES + 1),
        None => count,
    }
}

/// How many kinds an operand may have; a tied one has its output's alone.
fn kind_count(allowed: &AltIface) -> usize
    ensures is { result ≡ kind_count allowed.now }
    ensures few { result ≤ 3 }
{
    if allowed.tied.is_some() {
        return 1;
    }
    count_if(allows(allowed, Kind::Register))
        + count_if(allows(allowed, Kind::Memory))
        + count_if(allows(allowed, Kind::Number))
}

fn count_if(there: bool) -> usize
    ensures { result ≡ (if there then 1 else 0) }
{
    if there { 1 } else { 0 }
}

/// Whether the letters allow the kind.
fn allows(allowed: &AltIface, kind: Kind) -> bool
    ensures { result ≡ allows allowed.now kind }
{
    match kind {
        Kind::Register => allowed.pair || allowed.regs.bits() != 0,
        Kind::Memory => allowed.mem,
        Kind::Number => allowed.numbers.is_some(),
    }
}

fn listed(alloc: Global, i: &Interface) -> Result<Items<Shape>, Memory>
    requires { IsInterface i.now }
    ensures { IfOk result (λ list. list ≡ shapes_of i.now) }
{
    let mut list = Items::new(alloc);
    for a in 0..alternative_count(i) {
        push_alternative(alloc, &mut list, i, a)?;
    }
    Ok(list)
}

/// Adds the shapes of one alternative. Where it has none, no list is begun.
fn push_alternative(
    alloc: Global,
    list: &mut Items<Shape>,
    i: &Interface,
    a: usize,
) -> Result<(), Memory>
    requires interface { IsInterface i.now }
    requires there { a < length (alternatives_of i.now) }
    ensures { OnOk result (list.new ≡ list.old ++ of_alternative i.now a) }
{
    if list_count(i, a) == 0 {
        return Ok(());
    }
    // A list of so many alternatives can't be had: their numbers count as want of memory.
    if a > 4_294_967_295 {
        return Err(Memory);
    }
    let lists = kind_lists(alloc, i, a)?;
    push_shapes(alloc, list, a as u32, lists.as_slice())
}

fn push_shapes(
    alloc: Global,
    list: &mut Items<Shape>,
    alternative: u32,
    lists: &[Kinds],
) -> Result<(), Memory>
    ensures { OnOk result (list.new ≡ list.old ++ map (λ kinds. record { alternative = alternative; kinds = kinds }) lists.now) }
{
    for kinds in lists {
        list.push(Shape {
            alternative,
            kinds: kinds.duplicate(alloc)?,
        })?;
    }
    Ok(())
}

/// The lists of kinds of one alternative.
fn kind_lists(alloc: Global, i: &Interface, a: usize) -> Result<Items<Kinds>, Memory>
    ensures { IfOk result (λ lists. lists ≡ kind_lists [] (alternative_of i.now a)) }
{
    let mut lists = Items::new(alloc);
    lists.push(Kinds::new(alloc))?;
    for operand in i.operands.as_slice() {
        lists = lists_with(alloc, lists, allowed_in(operand, a))?;
    }
    Ok(lists)
}

/// The lists with one more operand.
fn lists_with(
    alloc: Global,
    lists: Items<Kinds>,
    allowed: Option<AltIface>,
) -> Result<Items<Kinds>, Memory>
    ensures { IfOk result (λ longer. longer ≡ lists_with allowed lists) }
{
    match allowed {
        Some(allowed) => all_longer(alloc, &allowed, lists.as_slice()),
        None => Ok(lists),
    }
}

fn all_longer(alloc: Global, allowed: &AltIface, lists: &[Kinds]) -> Result<Items<Kinds>, Memory>
    ensures { IfOk result (λ longer. longer ≡ all_longer allowed.now lists.now) }
{
    let mut longer = Items::new(alloc);
    for begun in lists {
        push_longer(alloc, &mut longer, allowed, begun)?;
    }
    Ok(longer)
}

/// Adds the list with each kind that may follow.
fn push_longer(
    alloc: Global,
    lists: &mut Items<Kinds>,
    allowed: &AltIface,
    begun: &Kinds,
) -> Result<(), Memory>
    ensures { OnOk result (lists.new ≡ lists.old ++ one_longer allowed.now begun.now) }
{
    match allowed.tied {
        Some(output) => {
            let kind = begun.as_slice().get(output as usize).copied();
            push_kind(alloc, lists, begun, kind)
        }
        None => {
            push_allowed(alloc, lists, allowed, begun, Kind::Register)?;
            push_allowed(alloc, lists, allowed, begun, Kind::Memory)?;
            push_allowed(alloc, lists, allowed, begun, Kind::Number)
        }
    }
}

fn push_allowed(
    alloc: Global,
    lists: &mut Items<Kinds>,
    allowed: &AltIface,
    begun: &Kinds,
    kind: Kind,
) -> Result<(), Memory>
    ensures { OnOk result (lists.new ≡ lists.old ++ (if allows allowed.now kind then (begun.now ++ kind ∷ []) ∷ [] else [])) }
{
    let kind = if allows(allowed, kind) {
        Some(kind)
    } else {
        None
    };
    push_kind(alloc, lists, begun, kind)
}

/// Adds the list with the kind, if there is one.
fn push_kind(
    alloc: Global,
    lists: &mut Items<Kinds>,
    begun: &Kinds,
    kind: Option<Kind>,
) -> Result<(), Memory>
    ensures { OnOk result (lists.new ≡ lists.old ++ map (λ k. begun.now ++ k ∷ []) (option_to_list kind)) }
{
    if let Some(kind) = kind {
        let mut longer = begun.duplicate(alloc)?;
        longer.push(kind)?;
        lists.push(longer)?;
    }
    Ok(())
}
