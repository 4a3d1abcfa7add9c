//! What a symbol is.

ghost use Rattle.std.specs.Prelude.{◌≡◌};
ghost use Rattle.asm_core.specs.Size.{is_register_kind, is_memory_kind, is_number_kind, letter_allows, is_letter_for, is_pair_letter, is_word_letter, ties_to};
ghost use Rattle.asm_core.specs.Malformed.{is_letter, is_early, is_tie, is_sign, is_other, is_output_mark, is_stray_tie, is_letter_of};

use asm_core::{Kind, Letter, Reg, Symbol};

/// Whether the letter allows the kind.
fn letter_allows(kind: Kind, letter: Letter) -> bool
    ensures { result ≡ letter_allows kind letter }
{
    match letter {
        Letter::One(_) | Letter::Pair | Letter::ByteRegister | Letter::AnyRegister => {
            matches!(kind, Kind::Register)
        }
        Letter::Memory => matches!(kind, Kind::Memory),
        Letter::Number
        | Letter::WordShift
        | Letter::LongShift
        | Letter::SignedByte
        | Letter::AddressShift
        | Letter::UnsignedByte => matches!(kind, Kind::Number),
        Letter::General => true,
    }
}

/// Whether the symbol is a letter that allows the kind. In an output none allows a number.
pub fn is_letter_for(output: bool, kind: Kind, symbol: Symbol) -> bool
    ensures { result ≡ is_letter_for output kind symbol }
{
    match symbol {
        Symbol::Letter(letter) => letter_allows(kind, letter)
            && !(output && matches!(kind, Kind::Number)),
        _ => false,
    }
}

pub fn is_pair_letter(symbol: Symbol) -> bool
    ensures { result ≡ is_pair_letter symbol }
{
    matches!(symbol, Symbol::Letter(Letter::Pair))
}

/// Whether the symbol is a letter other than `A` that allows a register or a number.
pub fn is_word_letter(output: bool, symbol: Symbol) -> bool
    ensures { result ≡ is_word_letter output symbol }
{
    !is_pair_letter(symbol)
        && (is_letter_for(output, Kind::Register, symbol)
            || is_letter_for(output, Kind::Number, symbol))
}

/// Whether the symbol ties to the operand of that number.
pub fn ties_to(number: u8, symbol: Symbol) -> bool
    ensures { result ≡ ties_to number symbol }
{
    match symbol {
        Symbol::Tie(Some(output)) => output == number,
        _ => false,
    }
}

pub fn is_letter(symbol: Symbol) -> bool
    ensures { result ≡ is_letter symbol }
{
    matches!(symbol, Symbol::Letter(_))
}

pub fn is_early(symbol: Symbol) -> bool
    ensures { result ≡ is_early symbol }
{
    matches!(symbol, Symbol::Early)
}

pub fn is_tie(symbol: Symbol) -> bool
    ensures { result ≡ is_tie symbol }
{
    matches!(symbol, Symbol::Tie(_))
}

pub fn is_sign(symbol: Symbol) -> bool
    ensures { result ≡ is_sign symbol }
{
    matches!(symbol, Symbol::Sign)
}

pub fn is_other(symbol: Symbol) -> bool
    ensures { result ≡ is_other symbol }
{
    matches!(symbol, Symbol::Other)
}

/// Whether the symbol is `=`, `+` or `&`.
pub fn is_output_mark(symbol: Symbol) -> bool
    ensures { result ≡ is_output_mark symbol }
{
    is_sign(symbol) || is_early(symbol)
}

/// Whether the symbol is a tie that names no output, or any tie where it stands in an output.
pub fn is_stray_tie(output: bool, symbol: Symbol) -> bool
    ensures { result ≡ is_stray_tie output symbol }
{
    match symbol {
        Symbol::Tie(Some(_)) => output,
        Symbol::Tie(None) => true,
        _ => false,
    }
}

/// Whether the symbol is the letter of that register alone.
pub fn is_letter_of(register: Reg, symbol: Symbol) -> bool
    ensures { result ≡ is_letter_of register symbol }
{
    match symbol {
        Symbol::Letter(Letter::One(named)) => register.number() == named.number(),
        _ => false,
    }
}
