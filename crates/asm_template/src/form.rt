//! What a form of a template is among bytes, and the piece that it gives.

ghost use Rattle.std.specs.Prelude.{◌≡◌};
ghost use Rattle.asm_core.specs.Pieces.{form_code, is_missing, piece_of, place_of};

use asm_core::{Piece, TemplateForm};

/// The byte of a form, 0 for an operand, 1 for `%=`. What is outside, and the bytes below 2, which mean nothing, count as 2.
pub fn form_code(form: &TemplateForm) -> u8
    ensures { result ≡ form_code form.now }
{
    match form {
        TemplateForm::Byte(byte, _) => (*byte).max(2),
        TemplateForm::Hole(_, _, _) => 0,
        TemplateForm::Unique(_) => 1,
        TemplateForm::Outside(_) => 2,
    }
}

/// The offset in the file at which a form begins.
pub fn place_of(form: &TemplateForm) -> u32
    ensures { result ≡ place_of form.now }
{
    match form {
        TemplateForm::Byte(_, at)
        | TemplateForm::Hole(_, _, at)
        | TemplateForm::Unique(at)
        | TemplateForm::Outside(at) => *at,
    }
}

/// The piece that a form gives, if it gives one.
pub fn piece_of(form: &TemplateForm) -> Option<Piece>
    ensures { result ≡ piece_of form.now }
{
    match form {
        TemplateForm::Byte(byte, at) => Some(Piece::Byte(*byte, *at)),
        TemplateForm::Hole(Some(number), modifier, at) => {
            Some(Piece::Hole(*number, *modifier, *at))
        }
        TemplateForm::Unique(at) => Some(Piece::Unique(*at)),
        TemplateForm::Hole(None, _, _) | TemplateForm::Outside(_) => None,
    }
}

/// Whether a form names an operand that is not there.
pub fn is_missing(form: &TemplateForm) -> bool
    ensures { result ≡ is_missing form.now }
{
    matches!(form, TemplateForm::Hole(None, _, _))
}
