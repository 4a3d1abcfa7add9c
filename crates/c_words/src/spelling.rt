//! How words are spelt.

ghost use Rattle.std.specs.Prelude.{◌≡◌, find, map, nat_eq};
ghost use Rattle.std.specs.Cmp.Lexicographic.{pointwise};
ghost use Rattle.std.specs.Option.{option_copied};
ghost use Rattle.c_words.specs.Spellings.{found, listed_word, is_uncovered, name_word, punct_of};

use crate::punct::{PUNCTUATORS, Punct};
use crate::{Basic, TagWord, Word};

/// The names that aren't plain ones to the grammar. Spellings with underscores around are GNU C's (GCC manual, "Alternate Keywords").
pub const NAMES: [(&[u8], Word); 76] = [
    (b"typedef", Word::Typedef),
    (b"register", Word::Register),
    (b"__extension__", Word::Extension),
    (b"extern", Word::Specifier),
    (b"static", Word::Specifier),
    (b"auto", Word::Specifier),
    (b"inline", Word::Specifier),
    (b"__inline", Word::Specifier),
    (b"__inline__", Word::Specifier),
    (b"_Noreturn", Word::Specifier),
    (b"const", Word::Qualifier),
    (b"__const", Word::Qualifier),
    (b"__const__", Word::Qualifier),
    (b"volatile", Word::Qualifier),
    (b"__volatile", Word::Qualifier),
    (b"__volatile__", Word::Qualifier),
    (b"restrict", Word::Qualifier),
    (b"__restrict", Word::Qualifier),
    (b"__restrict__", Word::Qualifier),
    (b"void", Word::Basic(Basic::Void)),
    (b"char", Word::Basic(Basic::Char)),
    (b"short", Word::Basic(Basic::Short)),
    (b"int", Word::Basic(Basic::Int)),
    (b"long", Word::Basic(Basic::Long)),
    (b"float", Word::Basic(Basic::Float)),
    (b"double", Word::Basic(Basic::Double)),
    (b"signed", Word::Basic(Basic::Signed)),
    (b"__signed", Word::Basic(Basic::Signed)),
    (b"__signed__", Word::Basic(Basic::Signed)),
    (b"unsigned", Word::Basic(Basic::Unsigned)),
    (b"_Bool", Word::Basic(Basic::Bool)),
    (b"__builtin_va_list", Word::VaList),
    (b"struct", Word::Tag(TagWord::Struct)),
    (b"union", Word::Tag(TagWord::Union)),
    (b"enum", Word::Tag(TagWord::Enum)),
    (b"typeof", Word::Typeof),
    (b"__typeof", Word::Typeof),
    (b"__typeof__", Word::Typeof),
    (b"__attribute", Word::Attribute),
    (b"__attribute__", Word::Attribute),
    (b"asm", Word::Asm),
    (b"__asm", Word::Asm),
    (b"__asm__", Word::Asm),
    (b"sizeof", Word::Sizeof),
    (b"_Static_assert", Word::StaticAssert),
    (b"for", Word::For),
    (b"if", Word::Head),
    (b"while", Word::Head),
    (b"switch", Word::Head),
    (b"else", Word::Lead),
    (b"do", Word::Lead),
    (b"case", Word::Case),
    (b"default", Word::Default),
    (b"goto", Word::Jump),
    (b"return", Word::Jump),
    (b"break", Word::Jump),
    (b"continue", Word::Jump),
    (b"_Atomic", Word::Uncovered),
    (b"_Thread_local", Word::Uncovered),
    (b"__thread", Word::Uncovered),
    (b"_Alignas", Word::Uncovered),
    (b"_Complex", Word::Uncovered),
    (b"__complex", Word::Uncovered),
    (b"__complex__", Word::Uncovered),
    (b"_Imaginary", Word::Uncovered),
    (b"__int128", Word::Uncovered),
    (b"__int128_t", Word::Uncovered),
    (b"__uint128_t", Word::Uncovered),
    (b"__auto_type", Word::Uncovered),
    (b"__label__", Word::Uncovered),
    (b"_BitInt", Word::Uncovered),
    (b"typeof_unqual", Word::Uncovered),
    (b"__typeof_unqual", Word::Uncovered),
    (b"__typeof_unqual__", Word::Uncovered),
    (b"_Alignof", Word::Keyword),
    (b"_Generic", Word::Keyword),
];

/// The first row of the table with the spelling.
fn row_of<'a, T>(table: &'a [(&'static [u8], T)], spelling: &[u8]) -> Option<&'a (&'static [u8], T)>
    ensures { option_copied result ≡ find (λ row. pointwise nat_eq row.0.now spelling.now) table.now }
{
    table.iter().find(|row| row.0 == spelling)
}

/// What the table has for the spelling.
#[tactic(auto, using(crate::proofs::FoundLemmas::found_rows))]
fn found<T: Copy>(table: &[(&'static [u8], T)], spelling: &[u8]) -> Option<T>
    ensures { result ≡ found (map (λ row. (row.0.now, row.1)) table.now) spelling.now }
{
    let row = row_of(table, spelling)?;
    Some(row.1)
}

/// The word of a name that the table has.
#[tactic(auto, unfolding(crate::specs::Spellings::listed_word))]
fn listed_word(name: &[u8]) -> Option<Word>
    ensures { result ≡ listed_word name.now }
{
    found(&NAMES, name)
}

/// Whether the name begins one of GCC's other types, as `_Float128`.
fn is_uncovered(name: &[u8]) -> bool
    ensures { result ≡ is_uncovered name.now }
{
    name.starts_with(b"_Float") || name.starts_with(b"__float") || name.starts_with(b"_Decimal")
}

/// What a name is to the grammar.
#[tactic(auto, unfolding(crate::specs::Spellings::name_word))]
pub fn name_word(name: &[u8]) -> Word
    ensures { result ≡ name_word name.now }
{
    match listed_word(name) {
        Some(word) => word,
        None if is_uncovered(name) => Word::Uncovered,
        None => Word::Name,
    }
}

/// The punctuator with these bytes.
#[tactic(auto, unfolding(crate::specs::Spellings::punct_of))]
pub fn punct_of(spelling: &[u8]) -> Punct
    ensures { result ≡ punct_of spelling.now }
{
    found(&PUNCTUATORS, spelling).unwrap_or(Punct::Hash)
}
