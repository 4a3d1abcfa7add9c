//! The tokens of a file by their index.

ghost use Rattle.std.specs.Prelude.{◌≡◌, ◌≢◌, ◌<◌, ◌≤◌, length, slice_get, IfOk, IfSome};
ghost use Rattle.c_words.specs.declared.word.Word.TheVariants.{Missing};
ghost use Rattle.c_words.specs.File.{file_of};
ghost use Rattle.c_words.specs.Pragma.{is_packed};
ghost use Rattle.c_words.specs.Words.{word_at, is_name_at, is_name_word, bytes_at, start_at, end_at, closer_of, past_group, behind_asm_label};

use crate::pragma::pack_of;
use crate::token_word::{bytes_of, words_of};
use crate::{Punct, Word};
use asm_core::{Items, Memory};
use c_tokens::{Token, Tokens, closers};
use std::alloc::Global;
use std::marker::Model;

/// A file's tokens by their index, with what each is to the grammar, what closes each bracket, and where layouts
/// begin to be unknown, found once.
/// Contracts see the text and its tokens. Past the last token there is none, which every call answers in its way.
#[derive(Debug, Drop)]
pub struct Source<'a> {
    text: &'a [u8],
    tokens: &'a Tokens,
    words: Items<Word>,
    closers: Items<Option<u32>>,
    pack: Option<u32>,
}

impl<'a> Model for Source<'a> {
    ghost use Rattle.c_words.specs.File.{File};
    ghost use Rattle.c_words.specs.Words.{IsRead};

    ghost Value = { File };

    ghost view = { λ s. record { text = s.text.now; tokens = s.tokens.now.list } };

    ghost invariant = { λ s. IsRead s.text.now s.tokens.now.list s.words s.closers s.pack };
}

impl<'a> Source<'a> {
    /// Reads the tokens of the text in one pass.
    pub fn new(alloc: Global, text: &'a [u8], tokens: &'a Tokens) -> Result<Source<'a>, Memory>
        requires short { length text.now < 4294967295 }
        requires few { length tokens.now.list < 4294967296 }
        ensures { IfOk result (λ source. source ≡ file_of text.now tokens.now.list) }
    {
        let words = Items::from_vec(words_of(alloc, text, tokens.list.as_slice())?);
        let closers = closers(alloc, text, tokens)?;
        Ok(Source {
            text,
            tokens,
            words,
            closers,
            pack: pack_of(text),
        })
    }

    /// The text that the tokens stand in.
    pub fn text(&self) -> &'a [u8]
        ensures { result.now ≡ self.now.text }
    {
        self.text
    }

    /// Whether a `#pragma pack` stands before the offset, so that how structs lie isn't known there.
    pub fn is_packed(&self, place: u32) -> bool
        ensures { result ≡ is_packed self.now place }
    {
        match self.pack {
            Some(pack) => pack < place,
            None => false,
        }
    }

    /// The tokens, from left to right.
    pub fn tokens(&self) -> &'a [Token]
        ensures { result.now ≡ self.now.tokens }
    {
        self.tokens.list.as_slice()
    }

    /// How many tokens there are.
    pub fn len(&self) -> usize
        ensures is { result ≡ length self.now.tokens }
        ensures few { result < 4294967296 }
    {
        self.tokens.list.len()
    }

    /// The token with this index.
    pub fn token(&self, i: usize) -> Option<Token>
        ensures { result ≡ slice_get self.now.tokens i }
    {
        self.tokens.list.get(i).copied()
    }

    /// What the token with this index is to the grammar.
    #[tactic(auto, using(crate::proofs::NameLemmas::name_rules), unfolding(crate::specs::Words::word_at))]
    pub fn word(&self, i: usize) -> Word
        ensures is { result ≡ word_at self.now i }
        ensures inside { result ≢ Missing → i < length self.now.tokens }
        ensures there { i < length self.now.tokens → result ≢ Missing }
        ensures few { length self.now.tokens < 4294967296 }
    {
        self.words.get(i).copied().unwrap_or(Word::Missing)
    }

    /// Whether the token with this index is a name, an identifier or any of the words that are spelt as one.
    #[tactic(auto, using(crate::proofs::NameLemmas::name_rules), unfolding(crate::specs::Words::is_name_at))]
    pub fn is_name_token(&self, i: usize) -> bool
        ensures is { result ≡ is_name_at self.now i }
        ensures word { result ≡ is_name_word (word_at self.now i) }
    {
        self.word(i).is_name_token()
    }

    /// The bytes of the token with this index as they stand in the text, none past the last token.
    #[tactic(auto, unfolding(crate::specs::Words::bytes_at))]
    pub fn bytes(&self, i: usize) -> &'a [u8]
        ensures { result.now ≡ bytes_at self.now i }
    {
        match self.tokens.list.get(i) {
            Some(token) => bytes_of(self.text, token),
            None => &[],
        }
    }

    /// The offset of the token's first byte in the text, whose length it is past the last token.
    #[tactic(auto, unfolding(crate::specs::Words::start_at))]
    pub fn start(&self, i: usize) -> u32
        ensures { result ≡ start_at self.now i }
    {
        match self.tokens.list.get(i) {
            Some(token) => token.span.from,
            None => self.text.len() as u32,
        }
    }

    /// The offset behind the token's last byte in the text, whose length it is past the last token.
    #[tactic(auto, unfolding(crate::specs::Words::end_at))]
    pub fn end(&self, i: usize) -> u32
        ensures { result ≡ end_at self.now i }
    {
        match self.tokens.list.get(i) {
            Some(token) => token.span.to,
            None => self.text.len() as u32,
        }
    }

    /// The index of the token that closes the bracket with this index, `None` for every other token.
    #[tactic(auto, using(crate::proofs::CloserLemmas::closer_rules), unfolding(crate::specs::Words::closer_of))]
    pub fn closer(&self, i: usize) -> Option<usize>
        ensures is { result ≡ closer_of self.now i }
        ensures within { IfSome result (λ c. (i < c) × (c < length self.now.tokens)) }
        ensures few { length self.now.tokens < 4294967296 }
    {
        let closer = self.closers.get(i).copied().flatten()?;
        Some(closer as usize)
    }

    /// The index behind the bracket group that opens at the token with this index, else behind the token; past the last
    /// token the index itself.
    #[tactic(auto, unfolding(crate::specs::Words::past_group))]
    pub fn past(&self, i: usize) -> usize
        ensures is { result ≡ past_group self.now i }
        ensures behind { i < length self.now.tokens → i < result }
        ensures within { i < length self.now.tokens → result ≤ length self.now.tokens }
    {
        if i < self.len() {
            self.closer(i).unwrap_or(i) + 1
        } else {
            i
        }
    }

    /// Where `asm` and a parenthesis stand, the index behind the parenthesis that closes it; else the index itself.
    #[tactic(auto, unfolding(crate::specs::Words::behind_asm_label))]
    pub fn behind_asm_label(&self, i: usize) -> usize
        ensures is { result ≡ behind_asm_label self.now i }
        ensures behind { i ≤ result }
        ensures within { i ≤ length self.now.tokens → result ≤ length self.now.tokens }
    {
        if !matches!(self.word(i), Word::Asm) {
            return i;
        }
        match self.word(i + 1) {
            Word::Punct(Punct::OpenParen) => self.past(i + 1),
            _ => i,
        }
    }
}
