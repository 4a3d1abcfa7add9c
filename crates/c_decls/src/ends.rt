//! Where the parts of declarations and statements end.

ghost use Rattle.std.specs.Prelude.{◌≡◌, ◌≢◌, ◌+◌, ◌<◌, ◌≤◌, IsTrue, false, length};
ghost use Rattle.c_words.specs.Words.{word_at};
ghost use Rattle.c_words.specs.declared.word.Word.TheVariants.{Missing};
ghost use Rattle.c_reader.specs.Specifiers.{behind_tag, tag_index};
ghost use Rattle.c_decls.specs.Ends.{IsBehindCase, IsCaseWithin, behind_case, behind_colon, behind_semicolon, behind_tag_word, behind_type, behind_word, body_index, case_step, closes, has_body, has_colon, level_end, opens_block, stops_at};

use c_reader::marks::{
    is_assign, is_colon, is_comma, is_name, is_open_brace, is_open_paren, is_question, is_semicolon,
};
use c_reader::{Next, attributes_at};
use c_words::{Punct, Source, Word};

/// The tokens at which a part of a declaration or a statement ends.
#[derive(Clone, Copy)]
pub enum Stop {
    /// A semicolon.
    Semicolon,
    /// A comma or a semicolon.
    Comma,
    /// A `=` or a semicolon.
    Assign,
}

/// Whether the word is a closing bracket.
pub fn closes(word: Word) -> bool
    ensures is { result ≡ closes word }
    ensures there { IsTrue result → word ≢ Missing }
{
    matches!(
        word,
        Word::Punct(Punct::CloseParen | Punct::CloseBracket | Punct::CloseBrace)
    )
}

impl Stop {
    /// Whether a part ends at the word.
    fn is_at(self, word: Word) -> bool
        ensures { result ≡ stops_at self word }
    {
        match self {
            Stop::Semicolon => is_semicolon(word),
            Stop::Comma => is_comma(word) || is_semicolon(word),
            Stop::Assign => is_assign(word) || is_semicolon(word),
        }
    }
}

/// The index of the first token from `first` on, outside the brackets that open behind it, at which the part ends, or of the
/// bracket that closes around it; the count of tokens where there is none.
#[tactic(auto, using(crate::proofs::EndLemmas::level_steps))]
pub fn level_end(source: &Source<'_>, stop: Stop, first: usize) -> usize
    ensures is { result ≡ level_end source.now stop first }
    ensures behind { first ≤ result }
    ensures further { first < length source.now.tokens → stops_at stop (word_at source.now first) ≡ false → closes (word_at source.now first) ≡ false → first < result }
    ensures within { first ≤ length source.now.tokens → result ≤ length source.now.tokens }
{
    let mut i = first;
    while i < source.len() {
        let word = source.word(i);
        if stop.is_at(word) || closes(word) {
            return i;
        }
        i = source.past(i);
    }
    i
}

/// The index behind the part that ends at the first semicolon at its level, or of the bracket that closes around it.
#[tactic(auto, using(crate::proofs::EndLemmas::level_steps))]
pub fn behind_semicolon(source: &Source<'_>, i: usize) -> usize
    ensures is { result ≡ behind_semicolon source.now i }
    ensures behind { i ≤ result }
    ensures within { i ≤ length source.now.tokens → result ≤ length source.now.tokens }
    ensures further { i < length source.now.tokens → closes (word_at source.now i) ≡ false → i < result }
{
    if is_semicolon(source.word(i)) {
        return i + 1;
    }
    let end = level_end(source, Stop::Semicolon, i);
    if is_semicolon(source.word(end)) {
        return end + 1;
    }
    end
}

/// One token of a `case` behind its keyword, where `waiting` question marks wait for their colons.
#[tactic(auto, unfolding(crate::specs::Ends::case_step))]
fn case_step(source: &Source<'_>, i: usize, waiting: u32) -> Next<u32, usize>
    requires few { waiting ≤ i }
    requires inside { i < length source.now.tokens }
    ensures is { result ≡ case_step source.now i waiting }
    ensures further { IsBehindCase i result }
    ensures within { IsCaseWithin (length source.now.tokens) result }
{
    let word = source.word(i);
    if is_question(word) {
        return Next::More(waiting + 1, i + 1);
    }
    if is_colon(word) {
        if waiting == 0 {
            return Next::Done(i + 1);
        }
        return Next::More(waiting - 1, i + 1);
    }
    if is_semicolon(word) || matches!(word, Word::Case | Word::Default) || closes(word) {
        return Next::Done(i);
    }
    Next::More(waiting, source.past(i))
}

/// The index behind the colon of the `case` or `default` with this index (C11 6.8.1).
#[tactic(auto, using(crate::proofs::EndLemmas::case_steps))]
pub fn behind_case(source: &Source<'_>, keyword: usize) -> usize
    requires { keyword < 4294967296 }
    ensures is { result ≡ behind_case source.now keyword }
    ensures behind { keyword < result }
    ensures within { keyword < length source.now.tokens → result ≤ length source.now.tokens }
{
    let mut waiting = 0;
    let mut i = keyword + 1;
    while i < source.len() {
        match case_step(source, i, waiting) {
            Next::Done(end) => return end,
            Next::More(more, next) => {
                waiting = more;
                i = next;
                continue;
            }
        }
    }
    i
}

/// Whether a parenthesis with a block inside opens at the index (GCC manual, "Statement Exprs").
pub fn opens_block(source: &Source<'_>, i: usize) -> bool
    ensures is { result ≡ opens_block source.now i }
    ensures inside { IsTrue result → i + 1 < length source.now.tokens }
{
    is_open_paren(source.word(i)) && is_open_brace(source.word(i + 1))
}

/// The index behind the word at the index and the parentheses that may follow it.
pub fn behind_word(source: &Source<'_>, i: usize) -> usize
    requires { i < 4294967296 }
    ensures is { result ≡ behind_word source.now i }
    ensures further { i < result }
{
    if is_open_paren(source.word(i + 1)) {
        return source.past(i + 1);
    }
    i + 1
}

/// The index behind the words of a type from the index on.
#[tactic(auto, using(crate::proofs::EndLemmas::type_steps))]
fn behind_type(source: &Source<'_>, first: usize) -> usize
    ensures is { result ≡ behind_type source.now first }
    ensures behind { first ≤ result }
{
    let mut i = first;
    while i < source.len() {
        if !source.word(i).is_name_token() {
            return i;
        }
        i = behind_word(source, i);
    }
    i
}

/// The index behind the tag that `struct`, `union` or `enum` at the index may have.
fn behind_tag(source: &Source<'_>, i: usize) -> usize
    requires { i < 4294967296 }
    ensures is { result ≡ behind_tag source.now (tag_index source.now i) }
    ensures behind { i < result }
{
    let tag = attributes_at(source, i + 1).end;
    if is_name(source.word(tag)) {
        tag + 1
    } else {
        tag
    }
}

/// Whether a colon stands behind the tag, as before the type of an enumeration of C23 (6.7.2.2 there).
pub fn has_colon(source: &Source<'_>, i: usize) -> bool
    requires { i < 4294967296 }
    ensures { result ≡ has_colon source.now i }
{
    is_colon(source.word(behind_tag(source, i)))
}

/// The index of a brace behind the colon at the index and a type, or the index itself.
fn behind_colon(source: &Source<'_>, colon: usize) -> usize
    requires { colon < 4294967296 }
    ensures is { result ≡ behind_colon source.now colon }
    ensures behind { colon ≤ result }
{
    let end = behind_type(source, colon + 1);
    if is_open_brace(source.word(end)) {
        end
    } else {
        colon
    }
}

/// The index behind the tag that `struct`, `union` or `enum` at the index has, and behind a type, where its body may begin.
pub fn body_index(source: &Source<'_>, i: usize) -> usize
    requires { i < 4294967296 }
    ensures is { result ≡ body_index source.now i }
    ensures behind { i < result }
{
    let end = behind_tag(source, i);
    if !is_colon(source.word(end)) {
        return end;
    }
    behind_colon(source, end)
}

/// Whether `struct`, `union` or `enum` at the index has a body.
pub fn has_body(source: &Source<'_>, i: usize) -> bool
    requires { i < 4294967296 }
    ensures is { result ≡ has_body source.now i }
    ensures inside { IsTrue result → body_index source.now i < length source.now.tokens }
{
    is_open_brace(source.word(body_index(source, i)))
}

/// The index behind the body of `struct`, `union` or `enum` at the index, or behind the keyword where it has none.
pub fn behind_tag_word(source: &Source<'_>, i: usize) -> usize
    requires { i < 4294967296 }
    ensures is { result ≡ behind_tag_word source.now i }
    ensures behind { i < result }
{
    if has_body(source, i) {
        return source.past(body_index(source, i));
    }
    i + 1
}
