//! Words of C.

ghost use Rattle.std.specs.Prelude.{◌≡◌};

use crate::Punct;

/// A word of an arithmetic type, or `void` (C11 6.7.2).
#[derive(Clone, Copy, Debug, PartialEq, Eq)]
pub enum Basic {
    Void,
    Char,
    Short,
    Int,
    Long,
    Float,
    Double,
    Signed,
    Unsigned,
    Bool,
}

/// What a tag names (C11 6.7.2.1, 6.7.2.2).
#[derive(Clone, Copy, Debug, PartialEq, Eq)]
pub enum TagWord {
    Struct,
    Union,
    Enum,
}

/// What a token is to the grammar of declarations, statements and expressions.
#[derive(Clone, Copy, Debug, PartialEq, Eq)]
pub enum Word {
    /// No token: past the last.
    Missing,
    /// A name that is none of the words below.
    Name,
    Typedef,
    Register,
    /// `__extension__`.
    Extension,
    /// Another storage class, or a function specifier: `extern static auto inline _Noreturn`.
    Specifier,
    /// `const volatile restrict`.
    Qualifier,
    Basic(Basic),
    /// `__builtin_va_list`.
    VaList,
    Tag(TagWord),
    Typeof,
    /// `__attribute__`, `__attribute`.
    Attribute,
    Asm,
    Sizeof,
    /// `_Static_assert`.
    StaticAssert,
    For,
    /// What has parentheses that a statement follows: `if while switch`.
    Head,
    /// What a statement directly follows: `else do`.
    Lead,
    Case,
    Default,
    /// `goto return break continue`.
    Jump,
    /// What begins a declaration that this project's profile doesn't cover.
    Uncovered,
    /// Another keyword of C11: `_Alignof _Generic`.
    Keyword,
    Number,
    /// A character constant.
    Char,
    /// A string literal with no prefix.
    Text,
    /// A string literal with a prefix.
    PrefixedText,
    Punct(Punct),
}

impl Word {
    ghost use Rattle.c_words.specs.Words.{is_name_word};

    /// Whether the token is a name, an identifier or any of the words that are spelt as one.
    pub fn is_name_token(self) -> bool
        ensures { result ≡ is_name_word self }
    {
        !matches!(
            self,
            Word::Missing
                | Word::Number
                | Word::Char
                | Word::Text
                | Word::PrefixedText
                | Word::Punct(_)
        )
    }
}
