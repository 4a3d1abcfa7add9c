//! Where a declaration that isn't covered ends.

ghost use Rattle.std.specs.Prelude.{◌≡◌, ◌<◌, ◌≤◌, length};
ghost use Rattle.c_words.specs.Words.{word_at};
ghost use Rattle.c_reader.specs.declared.next.Next.TheVariants.{Done};
ghost use Rattle.c_decls.specs.Recovery.{IsBehindEnding, at_semicolon, begins_parameter, behind_comma, behind_list, is_initialiser, is_parameters, listed_by, listed_in, uncovered_at, uncovered_by, uncovered_step, with_list};

use crate::ends::{behind_tag_word, closes};
use crate::identifier_list::{body_behind, has_list};
use c_reader::Next;
use c_reader::marks::{
    is_assign, is_comma, is_open_brace, is_open_bracket, is_open_paren, is_semicolon,
};
use c_words::{Source, Word};

/// In which part of a declaration that isn't covered a token stands.
#[derive(Clone, Copy)]
pub enum Within {
    /// Among its specifiers and declarators.
    Declarators,
    /// There, behind a list of identifiers of so many tokens.
    Listed(usize),
    /// Among the declarations of parameters that follow a list of identifiers of so many tokens (C11 6.9.1, 6).
    Parameters(usize),
    /// Behind a `=`.
    Initialiser,
}

/// Where a declaration that isn't covered ends.
#[derive(Clone, Copy)]
pub struct Uncovered {
    /// The index behind it.
    pub end: usize,
    /// The index of the opening brace, where it ends at braces.
    pub braces: Option<usize>,
}

/// Whether the word begins the declaration of a parameter behind a list of identifiers: it is no asm label and no attribute.
fn begins_parameter(word: Word) -> bool
    ensures { result ≡ begins_parameter word }
{
    match word {
        Word::Asm | Word::Attribute => false,
        _ => word.is_name_token(),
    }
}

/// Behind a list of identifiers of so many tokens, if there is one, and whether parameters are declared behind it.
fn with_list(listed: usize, followed: bool) -> Within
    ensures { result ≡ with_list listed followed }
{
    if listed == 0 {
        Within::Declarators
    } else if followed {
        Within::Parameters(listed)
    } else {
        Within::Listed(listed)
    }
}

impl Within {
    fn is_initialiser(self) -> bool
        ensures { result ≡ is_initialiser self }
    {
        matches!(self, Within::Initialiser)
    }

    fn is_parameters(self) -> bool
        ensures { result ≡ is_parameters self }
    {
        matches!(self, Within::Parameters(_))
    }

    /// How many tokens the last list of identifiers has, none without one.
    fn listed(self) -> usize
        ensures { result ≡ listed_by self }
    {
        match self {
            Within::Listed(listed) | Within::Parameters(listed) => listed,
            Within::Declarators | Within::Initialiser => 0,
        }
    }

    /// The same behind the group at the index, which may be such a list.
    fn listed_in(self, source: &Source<'_>, i: usize) -> usize
        requires { i < length source.now.tokens }
        ensures { result ≡ listed_in source.now i self }
    {
        if has_list(source, i) {
            source.past(i) - i
        } else {
            self.listed()
        }
    }

    /// Behind the group at the index.
    fn behind_list(self, source: &Source<'_>, i: usize) -> Within
        requires { i < length source.now.tokens }
        ensures { result ≡ behind_list source.now i self }
    {
        if self.is_initialiser() {
            return self;
        }
        let followed = self.is_parameters() || begins_parameter(source.word(source.past(i)));
        with_list(self.listed_in(source, i), followed)
    }

    fn behind_comma(self) -> Within
        ensures { result ≡ behind_comma self }
    {
        match self {
            Within::Initialiser => Within::Declarators,
            _ => self,
        }
    }

    /// Where the declaration ends whose first semicolon at its level has the index.
    fn at_semicolon(self, source: &Source<'_>, i: usize) -> Uncovered
        requires inside { i < length source.now.tokens }
        requires few { length source.now.tokens < 4294967296 }
        ensures is { result ≡ at_semicolon source.now i self }
        ensures behind { i ≤ result.end }
    {
        let brace = match self {
            Within::Parameters(listed) => body_behind(source, listed, i),
            _ => None,
        };
        match brace {
            Some(brace) => Uncovered {
                end: source.past(brace),
                braces: Some(brace),
            },
            None => Uncovered {
                end: i + 1,
                braces: None,
            },
        }
    }
}

/// One token of a declaration that isn't covered.
#[tactic(auto, unfolding(crate::specs::Recovery::uncovered_step))]
fn uncovered_step(source: &Source<'_>, i: usize, within: Within) -> Next<Within, Uncovered>
    requires { i < length source.now.tokens }
    ensures is { result ≡ uncovered_step source.now i within }
    ensures further { IsBehindEnding i result }
{
    match source.word(i) {
        Word::Tag(_) => Next::More(within, behind_tag_word(source, i)),
        _ => uncovered_by(source, i, within),
    }
}

/// One token of a declaration that isn't covered, which is no `struct`, `union` or `enum`.
fn uncovered_by(source: &Source<'_>, i: usize, within: Within) -> Next<Within, Uncovered>
    requires { i < length source.now.tokens }
    ensures is { result ≡ uncovered_by source.now i within (word_at source.now i) }
    ensures further { IsBehindEnding i result }
{
    let word = source.word(i);
    if is_semicolon(word) {
        return Next::Done(within.at_semicolon(source, i));
    }
    if closes(word) {
        return ended(i, None);
    }
    if is_assign(word) {
        return Next::More(Within::Initialiser, i + 1);
    }
    if is_comma(word) {
        return Next::More(within.behind_comma(), i + 1);
    }
    let past = source.past(i);
    if is_open_paren(word) || is_open_bracket(word) {
        return Next::More(within.behind_list(source, i), past);
    }
    if is_open_brace(word) && !within.is_initialiser() {
        return ended(past, Some(i));
    }
    Next::More(within, past)
}

fn ended(end: usize, braces: Option<usize>) -> Next<Within, Uncovered>
    ensures { result ≡ Done (record { end = end; braces = braces }) }
{
    Next::Done(Uncovered { end, braces })
}

/// Where a declaration that isn't covered ends: behind the first semicolon at its level, or behind the first braces there that are neither a body
/// nor part of an initialiser (this project's own).
///
/// With a list of identifiers the declarations of parameters and the body that follow it belong to it.
#[tactic(auto, using(crate::proofs::RecoveryLemmas::uncovered_steps))]
pub fn uncovered_at(source: &Source<'_>, first: usize) -> Uncovered
    ensures is { result ≡ uncovered_at source.now first }
    ensures behind { first ≤ result.end }
{
    let mut within = Within::Declarators;
    let mut i = first;
    while i < source.len() {
        match uncovered_step(source, i, within) {
            Next::Done(uncovered) => return uncovered,
            Next::More(more, next) => {
                within = more;
                i = next;
                continue;
            }
        }
    }
    Uncovered {
        end: i,
        braces: None,
    }
}
