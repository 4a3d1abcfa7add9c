//! Addresses, and the displacements, registers and scales in them.

ghost use Rattle.std.specs.Prelude.{◌≡◌, ◌≤◌, length, map};
ghost use Rattle.asm_core.specs.Reading.Operands.{address, address_at, address_of, atom_code, base_in, before, between, disp_in, enclosed, front_disp, hole_of, index_in, indexed, place_in, register_place, scale_in, scale_of};
ghost use Rattle.att_reader.specs.Text.{IsText};

use crate::number::number_of;
use crate::register::{register_named, whole_register};
use crate::text::Text;
use asm_core::{Disp, Leaf, LineOperand, Place, Slice};

/// What a text that is one hole stands for.
pub fn hole_of(text: Text<'_>) -> Leaf
    ensures { result ≡ hole_of text.entry.atoms.now }
{
    match text.atoms {
        [atom] => atom.leaf,
        _ => Leaf::Nothing,
    }
}

/// A number, or a hole that stands for one.
#[tactic(auto, unfolding(asm_core::specs::Reading::Operands::disp_in))]
pub fn disp_in(text: Text<'_>) -> Option<Disp>
    requires { IsText text }
    ensures { result ≡ disp_in text.entry.atoms.now }
{
    match hole_of(text) {
        Leaf::Bare(disp, _) => Some(disp),
        _ => number_of(text.codes).map(Disp::Number),
    }
}

/// `%` and the name of a 32-bit register.
fn register_place(text: &[u8]) -> Option<Place>
    ensures { result ≡ register_place text.now }
{
    match text {
        [b'%', name @ ..] => whole_register(register_named(name)),
        _ => None,
    }
}

/// A 32-bit register, or a hole that stands for one.
#[tactic(auto, unfolding(asm_core::specs::Reading::Operands::place_in))]
fn place_in(text: Text<'_>) -> Option<Place>
    requires { IsText text }
    ensures { result ≡ place_in text.entry.atoms.now }
{
    match hole_of(text) {
        Leaf::Register(place, Slice::All, _) => Some(place),
        _ => register_place(text.codes),
    }
}

/// 1, 2, 4 or 8.
fn scale_of(number: Option<i64>) -> Option<u8>
    ensures { result ≡ scale_of number }
{
    match number {
        Some(1) => Some(1),
        Some(2) => Some(2),
        Some(4) => Some(4),
        Some(8) => Some(8),
        _ => None,
    }
}

/// The scale of an index; a hole counts by its known value.
#[tactic(auto, unfolding(asm_core::specs::Reading::Operands::scale_in))]
fn scale_in(text: Text<'_>) -> Option<u8>
    requires { IsText text }
    ensures { result ≡ scale_in text.entry.atoms.now }
{
    match hole_of(text) {
        Leaf::Bare(_, known) => scale_of(known),
        _ => scale_of(number_of(text.codes)),
    }
}

/// How many codes stand before the next one that is `mark`.
pub fn before(mark: u8, codes: &[u8]) -> usize
    ensures is { result ≡ before mark codes.now }
    ensures within { result ≤ length codes.now }
{
    codes.iter().take_while(|code| **code != mark).count()
}

/// An address, where its parts are there.
fn address(
    disp: Option<Disp>,
    base: Option<Option<Place>>,
    index: Option<Option<(Place, u8)>>,
) -> Option<LineOperand>
    ensures { result ≡ address disp base index }
{
    Some(LineOperand::Address(disp?, base?, index?))
}

/// An index with its scale, where both are there.
fn indexed(place: Option<Place>, scale: Option<u8>) -> Option<Option<(Place, u8)>>
    ensures { result ≡ indexed place scale }
{
    Some(Some((place?, scale?)))
}

/// The base, which may be missing before an index.
#[tactic(auto, unfolding(asm_core::specs::Reading::Operands::base_in))]
fn base_in(text: Text<'_>) -> Option<Option<Place>>
    requires { IsText text }
    ensures { result ≡ base_in text.entry.atoms.now }
{
    if text.is_empty() {
        return Some(None);
    }
    place_in(text).map(Some)
}

/// `index` or `index,scale`.
#[tactic(auto, unfolding(asm_core::specs::Reading::Operands::index_in))]
fn index_in(text: Text<'_>) -> Option<Option<(Place, u8)>>
    requires { IsText text }
    ensures { result ≡ index_in text.entry.atoms.now (before 44 (map atom_code text.entry.atoms.now)) }
{
    let comma = before(b',', text.codes);
    if comma < text.len() {
        let scale = scale_in(text.rest(comma + 1).trimmed());
        indexed(place_in(text.front(comma).trimmed()), scale)
    } else {
        indexed(place_in(text.trimmed()), Some(1))
    }
}

/// What stands between the parentheses.
#[tactic(auto, unfolding(asm_core::specs::Reading::Operands::between))]
fn between(disp: Option<Disp>, text: Text<'_>) -> Option<LineOperand>
    requires { IsText text }
    ensures { result ≡ between disp text.entry.atoms.now (before 44 (map atom_code text.entry.atoms.now)) }
{
    let comma = before(b',', text.codes);
    if comma < text.len() {
        let base = base_in(text.front(comma).trimmed());
        address(disp, base, index_in(text.rest(comma + 1)))
    } else {
        address(disp, place_in(text.trimmed()).map(Some), Some(None))
    }
}

/// What stands behind `(`, with `)` as the last element.
#[tactic(auto, using(crate::proofs::AddressLemmas::closed), unfolding(asm_core::specs::Reading::Operands::enclosed),)]
fn enclosed(disp: Option<Disp>, text: Text<'_>) -> Option<LineOperand>
    requires { IsText text }
    ensures { result ≡ enclosed disp text.entry.atoms.now (length text.entry.atoms.now) }
{
    let len = text.len();
    if len == 0 || text.codes[len - 1] != b')' {
        return None;
    }
    between(disp, text.front(len - 1))
}

/// The displacement before `(`, which may be missing.
#[tactic(auto, unfolding(asm_core::specs::Reading::Operands::front_disp))]
fn front_disp(text: Text<'_>) -> Option<Disp>
    requires { IsText text }
    ensures { result ≡ front_disp text.entry.atoms.now }
{
    if text.is_empty() {
        return Some(Disp::Number(0));
    }
    disp_in(text)
}

/// An address; `(` stands behind `paren` elements.
#[tactic(auto, unfolding(asm_core::specs::Reading::Operands::address_at))]
fn address_at(text: Text<'_>, paren: usize) -> Option<LineOperand>
    requires { IsText text }
    ensures { result ≡ address_at text.entry.atoms.now paren }
{
    if paren < text.len() {
        let disp = front_disp(text.front(paren).ended());
        enclosed(disp, text.rest(paren + 1))
    } else {
        address(disp_in(text), Some(None), Some(None))
    }
}

/// An address: a displacement, or parentheses behind one.
#[tactic(auto, unfolding(asm_core::specs::Reading::Operands::address_of))]
pub fn address_of(text: Text<'_>) -> Option<LineOperand>
    requires { IsText text }
    ensures { result ≡ address_of text.entry.atoms.now }
{
    address_at(text, before(b'(', text.codes))
}
