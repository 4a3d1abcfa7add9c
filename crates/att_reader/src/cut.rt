//! The cut of a template into labels and instructions.

ghost use Rattle.std.specs.Prelude.{◌≡◌, ◌≤◌, ◌<◌, ◌==◌, ◌&&◌, ◌++◌, not, IsTrue, [], ◌∷◌, length, take, map, slice_index, IfOk, OnOk};
ghost use Rattle.std.specs.List.{prefix_len};
ghost use Rattle.asm_core.specs.Reading.Cut.{Item, ends_statement, first_or, is_label, is_unique_label, items_of, raws_of};
ghost use Rattle.asm_core.specs.Reading.Operands.{atom_code};
ghost use Rattle.att_reader.specs.Seen.{has_seen};
ghost use Rattle.att_reader.specs.Text.{IsText};
ghost use Rattle.att_reader.specs.Raws.{atoms_of, dead_from, raws_as, Adds, EndsWaiting, IsEmpty};

use crate::code::code_at;
use crate::raw::{Instruction, Raw};
use crate::seen::Seen;
use crate::text::Text;
use crate::words::{is_label, is_unique_label, prefix_named, word_len};
use asm_core::{Memory, Prefix};
use std::alloc::Global;
use std::mem;

/// What is cut so far, with the prefixes that wait for their instruction.
#[derive(Drop)]
pub struct Cut<'a> {
    pub alloc: Global,
    pub waiting: Vec<Prefix>,
    /// What stands from each of them on.
    pub froms: Vec<Text<'a>>,
    pub seen: Seen,
    pub raws: Vec<Raw<'a>>,
}

impl<'a> Cut<'a> {
    fn new(alloc: Global) -> Cut<'a>
        ensures { IsEmpty result }
    {
        Cut {
            alloc,
            waiting: Vec::new(alloc),
            froms: Vec::new(alloc),
            seen: Seen::new(alloc),
            raws: Vec::new(alloc),
        }
    }

    /// No instruction follows the prefixes that wait.
    fn end_waiting(&mut self) -> Result<(), Memory>
        ensures { OnOk result (EndsWaiting self.old self.new) }
    {
        push_dead(&mut self.raws, &self.froms)?;
        self.froms.clear();
        self.waiting.clear();
        Ok(())
    }

    /// Whether it is the second of two equal `.L` labels.
    fn has_again(&self, name: &[u8]) -> bool
        ensures { result ≡ (is_unique_label name.now && has_seen self.now.seen name.now) }
    {
        is_unique_label(name) && self.seen.has(name)
    }

    fn add_label(&mut self, name: &'a [u8], from: Text<'a>) -> Result<(), Memory>
        ensures { OnOk result (Adds self.old self.new (Item.Labelled name.now from.entry.atoms.now ∷ [])) }
    {
        self.end_waiting()?;
        if self.has_again(name) {
            self.raws.push(Raw::Dead(from))?;
            return Ok(());
        }
        self.seen.add(name)?;
        self.raws.push(Raw::Label(name))?;
        Ok(())
    }

    #[tactic(auto, using(crate::proofs::CutLemmas::prefix_added))]
    fn add_prefix(&mut self, prefix: Prefix, from: Text<'a>) -> Result<(), Memory>
        ensures { OnOk result (Adds self.old self.new (Item.Prefixed prefix from.entry.atoms.now ∷ [])) }
    {
        self.waiting.push(prefix)?;
        self.froms.push(from)?;
        Ok(())
    }

    /// What stands from the first prefix that waits on; the body where none does.
    fn first_from(&self, body: Text<'a>) -> Text<'a>
        ensures { result.atoms.now ≡ first_or (atoms_of self.now.froms.items) body.entry.atoms.now }
    {
        match self.froms.first() {
            Some(from) => *from,
            None => body,
        }
    }

    fn add_body(&mut self, body: Text<'a>) -> Result<(), Memory>
        requires { IsText body }
        ensures { OnOk result (Adds self.old self.new (Item.Body body.entry.atoms.now ∷ [])) }
    {
        let from = self.first_from(body);
        let before = mem::replace(&mut self.waiting, Vec::new(self.alloc));
        self.froms.clear();
        self.raws
            .push(Raw::Live(Instruction { before, from, body }))?;
        Ok(())
    }

    /// Adds labels, then prefixes, then an instruction.
    fn add_statement(&mut self, statement: Text<'a>) -> Result<(), Memory>
        requires { IsText statement }
        ensures { OnOk result (Adds self.old self.new (items_of atom_code statement.entry.atoms.now)) }
    {
        let mut rest = statement;
        let mut labels = true;
        let mut left = statement.len() + 1;
        while left > 0 {
            left -= 1;
            let text = rest.begun();
            if text.is_empty() {
                return Ok(());
            }
            let n = word_len(text.codes);
            let word = &text.codes[..n];
            if begins_label(labels, text.codes, n) {
                self.add_label(word, text)?;
                rest = text.rest(n + 1);
                continue;
            }
            let Some(prefix) = prefix_named(word) else {
                self.add_body(text)?;
                return Ok(());
            };
            self.add_prefix(prefix, text)?;
            rest = text.rest(n);
            labels = false;
        }
        Ok(())
    }
}

fn push_dead<'a>(raws: &mut Vec<Raw<'a>>, froms: &[Text<'a>]) -> Result<(), Memory>
    ensures { OnOk result (raws_as raws.new.items ≡ raws_as raws.old.items ++ dead_from froms.now) }
{
    for from in froms {
        raws.push(Raw::Dead(*from))?;
    }
    Ok(())
}

/// Whether the word of `n` codes at the beginning is a label with its colon, where labels may still stand.
fn begins_label(labels: bool, codes: &[u8], n: usize) -> bool
    requires { n ≤ length codes.now }
    ensures is { result ≡ (labels && (is_label (take n codes.now) && (slice_index codes.now n == 58))) }
    ensures within { IsTrue result → n < length codes.now }
{
    labels && is_label(&codes[..n]) && code_at(codes, n) == b':'
}

/// Whether it is a newline or `;`.
fn ends_statement(code: u8) -> bool
    ensures { result ≡ ends_statement code }
{
    code == b'\n' || code == b';'
}

/// How many codes stand before the end of the statement.
fn statement_len(codes: &[u8]) -> usize
    ensures is { result ≡ prefix_len (λ c. not (ends_statement c)) codes.now }
    ensures within { result ≤ length codes.now }
{
    codes
        .iter()
        .take_while(|code| !ends_statement(**code))
        .count()
}

/// The labels and instructions of the statements.
pub fn raws<'a>(alloc: Global, text: Text<'a>) -> Result<Vec<Raw<'a>>, Memory>
    requires { IsText text }
    ensures { IfOk result (λ raws. raws_as raws.items ≡ raws_of atom_code text.entry.atoms.now) }
{
    let mut cut = Cut::new(alloc);
    let mut start = 0;
    while start <= text.len() {
        let rest = text.rest(start);
        let n = statement_len(rest.codes);
        cut.add_statement(rest.front(n))?;
        start += n + 1;
    }
    cut.end_waiting()?;
    Ok(cut.raws)
}
