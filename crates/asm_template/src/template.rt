//! The pieces of a template.

ghost use Rattle.std.specs.Prelude.{◌≡◌, ◌≤◌, false, [], map, length, IfOk};
ghost use Rattle.std.specs.List.{list_any};
ghost use Rattle.asm_core.specs.Pieces.{ArePieces, first_outside, form_code, is_missing, pieces_in, pieces_of, scan_of};
ghost use Rattle.asm_template.specs.Answers.{GivesPieces, GivesScan};

use crate::ScanEnd;
use crate::comments::comments;
use crate::cut::forms;
use crate::form::{form_code, is_missing, piece_of, place_of};
use crate::neighbours::may_stand;
use asm_core::{Items, Mark, MarkKind, Piece, Pieces, PiecesEnd, Quoted, TemplateForm};
use std::alloc::{AllocError, Global};

/// The pieces of a template all of whose forms are in the grammar.
#[derive(Debug, Drop)]
pub struct Scanned {
    pub pieces: Pieces,
    /// Whether some hole, in comments too, names an operand that is not there; such a hole gives no piece.
    pub missing: bool,
}

fn codes(alloc: Global, forms: &[TemplateForm]) -> Result<Vec<u8>, AllocError>
    ensures { IfOk result (λ codes. codes.items ≡ map form_code forms.now) }
{
    forms.iter().map(form_code).collect(alloc)
}

/// The place of the leftmost form that may not stand where it does; the marks say which stand in comments.
#[tactic(auto, using(crate::proofs::OutsideLemmas::outside_steps))]
fn first_outside(forms: &[TemplateForm], codes: &[u8], marks: &[bool]) -> Option<u32>
    requires codes { codes.now ≡ map form_code forms.now }
    requires marks { length marks.now ≡ length forms.now }
    ensures { result ≡ first_outside [] forms.now marks.now }
{
    for (k, form) in forms.iter().enumerate() {
        if !may_stand(marks[k], codes, k, *form) {
            return Some(place_of(form));
        }
    }
    None
}

/// The pieces that the forms give.
fn pieces_in(alloc: Global, forms: &[TemplateForm]) -> Result<Vec<Piece>, AllocError>
    ensures { IfOk result (λ list. list.items ≡ pieces_in forms.now) }
{
    forms
        .iter()
        .filter_map(|form| piece_of(form))
        .collect(alloc)
}

/// Whether some hole names an operand that is not there.
fn names_missing(forms: &[TemplateForm]) -> bool
    ensures { result ≡ list_any is_missing forms.now }
{
    forms.iter().any(is_missing)
}

/// The pieces of a template, and whether some operand that it names is missing; the operands have these names.
///
/// # Errors
/// The leftmost form outside the grammar of templates, at its offset in the file; or want of memory.
pub fn scan(
    alloc: Global,
    template: &Quoted,
    names: &[Option<Items<u8>>],
) -> Result<Scanned, ScanEnd>
    requires placed { length template.now.at ≡ length template.now.bytes }
    requires few { length names.now ≤ 30 }
    ensures is { GivesScan result (scan_of template.now names.now) }
    ensures kept { IfOk result (λ s. s.missing ≡ false → ArePieces (length names.now) s.pieces.list) }
{
    let forms = forms(alloc, template, names)?;
    let codes = codes(alloc, &forms)?;
    let marks = comments(alloc, &codes)?;
    match first_outside(&forms, &codes, &marks) {
        Some(place) => Err(ScanEnd::Outside(Mark {
            kind: MarkKind::Template,
            place,
        })),
        None => {
            let list = pieces_in(alloc, &forms)?;
            Ok(Scanned {
                pieces: Pieces {
                    list: Items::from_vec(list),
                },
                missing: names_missing(&forms),
            })
        }
    }
}

/// The pieces of a template whose operands have these names.
///
/// # Errors
/// The leftmost form outside the grammar of templates, at its offset in the file; an operand that is named and not there;
/// or want of memory.
pub fn pieces(
    alloc: Global,
    template: &Quoted,
    names: &[Option<Items<u8>>],
) -> Result<Pieces, PiecesEnd>
    requires placed { length template.now.at ≡ length template.now.bytes }
    requires few { length names.now ≤ 30 }
    ensures is { GivesPieces result (pieces_of template.now names.now) }
    ensures kept { IfOk result (λ p. ArePieces (length names.now) p.list) }
{
    let scanned = scan(alloc, template, names)?;
    if scanned.missing {
        return Err(PiecesEnd::NoOperand);
    }
    Ok(scanned.pieces)
}
