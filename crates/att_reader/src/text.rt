//! Elements of a template beside their codes.

ghost use Rattle.std.specs.Prelude.{◌≡◌, ◌≤◌, ◌==◌, length, take, drop};
ghost use Rattle.std.specs.List.{prefix_len};
ghost use Rattle.asm_core.specs.Reading.Cut.{begun, is_blank};
ghost use Rattle.asm_core.specs.Reading.Operands.{atom_code, content_len, ended, trimmed};
ghost use Rattle.att_reader.specs.Text.{IsText};

use crate::code::is_blank;
use asm_core::Atom;

/// Elements of a template, each with its code.
#[derive(Clone, Copy)]
pub struct Text<'a> {
    pub atoms: &'a [Atom],
    pub codes: &'a [u8],
}

/// How many codes stand before the first that is no blank.
fn blanks_before(codes: &[u8]) -> usize
    ensures is { result ≡ prefix_len is_blank codes.now }
    ensures within { result ≤ length codes.now }
{
    codes.iter().take_while(|code| is_blank(**code)).count()
}

/// How many codes stand before the blanks at the end.
#[tactic(auto, using(crate::proofs::TextLemmas::content_steps))]
fn content_len(codes: &[u8]) -> usize
    ensures is { result ≡ content_len codes.now }
    ensures within { result ≤ length codes.now }
{
    let mut end = codes.len();
    while end > 0 && is_blank(codes[end - 1]) {
        end -= 1;
    }
    end
}

impl<'a> Text<'a> {
    /// How many elements there are.
    pub fn len(self) -> usize
        requires { IsText self }
        ensures { result ≡ length self.entry.atoms.now }
    {
        self.codes.len()
    }

    pub fn is_empty(self) -> bool
        requires { IsText self }
        ensures { result ≡ (length self.entry.atoms.now == 0) }
    {
        self.codes.is_empty()
    }

    /// The elements from that one on.
    #[tactic(auto, using(crate::proofs::TextLemmas::text_steps))]
    pub fn rest(self, from: usize) -> Text<'a>
        requires same { IsText self }
        requires within { from ≤ length self.codes.now }
        ensures is { result.atoms.now ≡ drop from self.entry.atoms.now }
        ensures same { IsText result }
    {
        Text {
            atoms: &self.atoms[from..],
            codes: &self.codes[from..],
        }
    }

    /// The first `n` elements.
    #[tactic(auto, using(crate::proofs::TextLemmas::text_steps))]
    pub fn front(self, n: usize) -> Text<'a>
        requires same { IsText self }
        requires within { n ≤ length self.codes.now }
        ensures is { result.atoms.now ≡ take n self.entry.atoms.now }
        ensures same { IsText result }
    {
        Text {
            atoms: &self.atoms[..n],
            codes: &self.codes[..n],
        }
    }

    /// Without the blanks at the beginning.
    #[tactic(auto, unfolding(asm_core::specs::Reading::Cut::begun))]
    pub fn begun(self) -> Text<'a>
        requires { IsText self }
        ensures is { result.atoms.now ≡ begun atom_code self.entry.atoms.now }
        ensures same { IsText result }
    {
        self.rest(blanks_before(self.codes))
    }

    /// Without the blanks at the end.
    #[tactic(auto, unfolding(asm_core::specs::Reading::Operands::ended))]
    pub fn ended(self) -> Text<'a>
        requires { IsText self }
        ensures is { result.atoms.now ≡ ended self.entry.atoms.now }
        ensures same { IsText result }
    {
        self.front(content_len(self.codes))
    }

    /// Without the blanks around it.
    #[tactic(auto, unfolding(asm_core::specs::Reading::Operands::trimmed))]
    pub fn trimmed(self) -> Text<'a>
        requires { IsText self }
        ensures is { result.atoms.now ≡ trimmed self.entry.atoms.now }
        ensures same { IsText result }
    {
        self.begun().ended()
    }
}
