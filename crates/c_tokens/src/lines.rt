//! Lines and columns.

ghost use Rattle.std.specs.Prelude.{◌≡◌, ℕ, ◌==◌, ◌<◌, ◌≤◌, not, length, count_by};
ghost use Rattle.std.specs.List.{suffix_len};
ghost use Rattle.c_tokens.specs.Lines.{line_col_of};

fn newlines(bytes: &[u8]) -> usize
    ensures { result ≡ count_by (λ b. b == 10) bytes.now }
{
    bytes.iter().filter(|b| **b == b'\n').count()
}

/// How many bytes stand behind the last newline.
#[tactic(auto, using(crate::proofs::PlaceLemmas::place_bounds))]
fn last_line_len(bytes: &[u8]) -> usize
    ensures is { result ≡ suffix_len (λ b. not (b == 10)) bytes.now }
    ensures within { result ≤ length bytes.now }
{
    bytes.iter().rev().take_while(|b| **b != b'\n').count()
}

/// The line and the column of an offset, both counted from 1, the column in bytes. Counts from the beginning of the text:
/// for many places of one text take `LineStarts`.
pub fn line_col(text: &[u8], offset: u32) -> (u32, u32)
    requires text { length text.now < 4294967295 }
    requires within { offset ≤ length text.now }
    ensures { result ≡ line_col_of text.now offset }
{
    let before = &text[..offset as usize];
    let line = newlines(before) + 1;
    let column = last_line_len(before) + 1;
    (line as u32, column as u32)
}
