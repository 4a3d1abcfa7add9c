//! Where the lines of a text begin.

ghost use Rattle.std.specs.Prelude.{◌≡◌, ℕ, ◌<◌, ◌≤◌, true, false, nat_le, length, IfOk};
ghost use Rattle.std.specs.List.Sorted.{IsPartitionedBy, IsPartitionPoint};
ghost use Rattle.c_tokens.specs.Lines.{line_col_of, starts_of};

use asm_core::Memory;
use std::alloc::{AllocError, Global};
use std::marker::Model;

/// Where the lines of a text begin, found once in one pass. Contracts see the text.
#[derive(Debug, Drop)]
pub struct LineStarts<'a> {
    text: &'a [u8],
    starts: Vec<u32>,
}

impl<'a> Model for LineStarts<'a> {
    ghost use Rattle.std.specs.Prelude.{List, ℕ, ◌<◌, ◌≡◌, length};
    ghost use Rattle.c_tokens.specs.Lines.{starts_of};

    ghost Value = { List ℕ };

    ghost view = { λ s. s.text.now };

    ghost invariant = { λ s. (length s.text.now < 4294967295) × (s.starts.items ≡ starts_of s.text.now) };
}

/// The offset 0, and those behind the newlines.
#[tactic(auto, using(crate::proofs::StartLemmas::start_steps))]
fn starts_of(alloc: Global, text: &[u8]) -> Result<Vec<u32>, AllocError>
    requires { length text.now < 4294967295 }
    ensures { IfOk result (λ starts. starts.items ≡ starts_of text.now) }
{
    let mut starts = Vec::new(alloc);
    starts.push(0)?;
    for (i, b) in text.iter().enumerate() {
        if *b != b'\n' {
            continue;
        }
        starts.push(i as u32 + 1)?;
    }
    Ok(starts)
}

/// How many lines begin at the offset or before it.
fn lines_begun(starts: &[u32], offset: u32) -> usize
    ensures within { result ≤ length starts.now }
    ensures point { IsPartitionedBy (λ s. nat_le s offset) starts.now → IsPartitionPoint (λ s. nat_le s offset ≡ true) (λ s. nat_le s offset ≡ false) starts.now result }
{
    starts.partition_point(|s| *s <= offset)
}

impl<'a> LineStarts<'a> {
    pub fn new(alloc: Global, text: &'a [u8]) -> Result<LineStarts<'a>, Memory>
        requires { length text.now < 4294967295 }
        ensures { IfOk result (λ starts. starts ≡ text.now) }
    {
        let starts = starts_of(alloc, text)?;
        Ok(LineStarts { text, starts })
    }

    /// What `line_col` answers on the text, by a binary search.
    pub fn line_col(&self, offset: u32) -> (u32, u32)
        requires { offset ≤ length self.now }
        ensures { result ≡ line_col_of self.now offset }
    {
        let line = lines_begun(&self.starts, offset);
        let start = self.starts[line - 1];
        (line as u32, offset - start + 1)
    }
}
