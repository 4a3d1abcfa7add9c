//! The letters of a constraint.

ghost use Rattle.std.specs.Prelude.{◌≡◌, ◌&&◌, not};
ghost use Rattle.blk_patch.specs.Suggested.{is_high_letter, is_inside_after, has_high_letter};

fn is_high_letter(byte: u8) -> bool
    ensures { result ≡ is_high_letter byte }
{
    matches!(byte, b'S' | b'D' | b'g')
}

/// Whether the byte is such a letter, given whether a bracket is open.
fn is_high_outside(inside: bool, byte: u8) -> bool
    ensures { result ≡ (not inside && is_high_letter byte) }
{
    !inside && is_high_letter(byte)
}

/// Whether a bracket is open behind the byte, given whether one is before it.
pub fn is_inside_after(inside: bool, byte: u8) -> bool
    ensures { result ≡ is_inside_after inside byte }
{
    if inside { byte != b']' } else { byte == b'[' }
}

/// Whether some letter but `r` allows a register without byte names. What stands in brackets is a name and no letter.
#[tactic(auto, using(crate::proofs::LetterLaws::high_done))]
pub fn has_high_letter(constraint: &[u8]) -> bool
    ensures { result ≡ has_high_letter constraint.now }
{
    let mut inside = false;
    for byte in constraint {
        if is_high_outside(inside, *byte) {
            return true;
        }
        inside = is_inside_after(inside, *byte);
    }
    false
}
