//! Reads a file's tokens under the declarations that are seen.

ghost use Rattle.std.specs.Prelude.{◌≡◌};
ghost use Rattle.c_reader.specs.Specifiers.{begins_specifier, begins_specifier_word, begins_type, begins_type_word, names_type};

use c_scopes::{NameKind, Scopes, name_kind};
use c_words::{Source, Word};

/// The tokens of a file, and what names mean at its places.
#[derive(Clone, Copy)]
pub struct Reader<'a> {
    pub source: &'a Source<'a>,
    pub scopes: &'a Scopes,
}

/// Whether a type name begins with the word, which is a typedef name where `named` holds.
fn begins_type_word(named: bool, word: Word) -> bool
    ensures { result ≡ begins_type_word named word }
{
    match word {
        Word::Name => named,
        Word::Qualifier
        | Word::Basic(_)
        | Word::VaList
        | Word::Tag(_)
        | Word::Typeof
        | Word::Attribute => true,
        _ => false,
    }
}

/// Whether a declaration begins with the word.
fn begins_specifier_word(named: bool, word: Word) -> bool
    ensures { result ≡ begins_specifier_word named word }
{
    match word {
        Word::Typedef | Word::Register | Word::Specifier | Word::Extension => true,
        _ => begins_type_word(named, word),
    }
}

impl Reader<'_> {
    /// Whether the name with this index is a typedef name there.
    pub fn names_type(&self, i: usize) -> bool
        ensures { result ≡ names_type self.now.source.now self.now.scopes.now i }
    {
        matches!(
            name_kind(self.scopes, self.source.bytes(i), self.source.start(i)),
            Some(NameKind::Typedef)
        )
    }

    /// Whether a type name begins at the index.
    pub fn begins_type(&self, i: usize) -> bool
        ensures { result ≡ begins_type self.now.source.now self.now.scopes.now i }
    {
        begins_type_word(self.names_type(i), self.source.word(i))
    }

    /// Whether a specifier of a declaration stands at the index.
    pub fn begins_specifier(&self, i: usize) -> bool
        ensures { result ≡ begins_specifier self.now.source.now self.now.scopes.now i }
    {
        begins_specifier_word(self.names_type(i), self.source.word(i))
    }
}
