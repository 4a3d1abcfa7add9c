//! Which mark of the grammar a word is.

ghost use Rattle.std.specs.Prelude.{◌≡◌, ◌≢◌, IsTrue};
ghost use Rattle.c_words.specs.declared.word.Word.TheVariants.{Missing};
ghost use Rattle.c_reader.specs.Marks.{is_name, is_void, is_open_paren, is_close_paren, is_open_bracket, is_close_bracket, is_open_brace, is_close_brace, is_comma, is_colon, is_semicolon, is_question, is_star, is_assign, is_ellipsis};

use c_words::{Basic, Punct, Word};

/// Whether it is a name that is none of the grammar's words.
pub fn is_name(word: Word) -> bool
    ensures is { result ≡ is_name word }
    ensures there { IsTrue result → word ≢ Missing }
{
    matches!(word, Word::Name)
}

/// Whether it is `(`.
pub fn is_open_paren(word: Word) -> bool
    ensures is { result ≡ is_open_paren word }
    ensures there { IsTrue result → word ≢ Missing }
{
    matches!(word, Word::Punct(Punct::OpenParen))
}

/// Whether it is `)`.
pub fn is_close_paren(word: Word) -> bool
    ensures is { result ≡ is_close_paren word }
    ensures there { IsTrue result → word ≢ Missing }
{
    matches!(word, Word::Punct(Punct::CloseParen))
}

/// Whether it is `[`.
pub fn is_open_bracket(word: Word) -> bool
    ensures is { result ≡ is_open_bracket word }
    ensures there { IsTrue result → word ≢ Missing }
{
    matches!(word, Word::Punct(Punct::OpenBracket))
}

/// Whether it is `]`.
pub fn is_close_bracket(word: Word) -> bool
    ensures is { result ≡ is_close_bracket word }
    ensures there { IsTrue result → word ≢ Missing }
{
    matches!(word, Word::Punct(Punct::CloseBracket))
}

/// Whether it is `{`.
pub fn is_open_brace(word: Word) -> bool
    ensures is { result ≡ is_open_brace word }
    ensures there { IsTrue result → word ≢ Missing }
{
    matches!(word, Word::Punct(Punct::OpenBrace))
}

/// Whether it is `}`.
pub fn is_close_brace(word: Word) -> bool
    ensures is { result ≡ is_close_brace word }
    ensures there { IsTrue result → word ≢ Missing }
{
    matches!(word, Word::Punct(Punct::CloseBrace))
}

/// Whether it is `,`.
pub fn is_comma(word: Word) -> bool
    ensures is { result ≡ is_comma word }
    ensures there { IsTrue result → word ≢ Missing }
{
    matches!(word, Word::Punct(Punct::Comma))
}

/// Whether it is `:`.
pub fn is_colon(word: Word) -> bool
    ensures is { result ≡ is_colon word }
    ensures there { IsTrue result → word ≢ Missing }
{
    matches!(word, Word::Punct(Punct::Colon))
}

/// Whether it is `;`.
pub fn is_semicolon(word: Word) -> bool
    ensures is { result ≡ is_semicolon word }
    ensures there { IsTrue result → word ≢ Missing }
{
    matches!(word, Word::Punct(Punct::Semicolon))
}

/// Whether it is `?`.
pub fn is_question(word: Word) -> bool
    ensures is { result ≡ is_question word }
    ensures there { IsTrue result → word ≢ Missing }
{
    matches!(word, Word::Punct(Punct::Question))
}

/// Whether it is `*`.
pub fn is_star(word: Word) -> bool
    ensures is { result ≡ is_star word }
    ensures there { IsTrue result → word ≢ Missing }
{
    matches!(word, Word::Punct(Punct::Star))
}

/// Whether it is `=`.
pub fn is_assign(word: Word) -> bool
    ensures is { result ≡ is_assign word }
    ensures there { IsTrue result → word ≢ Missing }
{
    matches!(word, Word::Punct(Punct::Assign))
}

/// Whether it is `...`.
pub fn is_ellipsis(word: Word) -> bool
    ensures is { result ≡ is_ellipsis word }
    ensures there { IsTrue result → word ≢ Missing }
{
    matches!(word, Word::Punct(Punct::Ellipsis))
}

/// Whether it is `void`.
pub fn is_void(word: Word) -> bool
    ensures is { result ≡ is_void word }
    ensures there { IsTrue result → word ≢ Missing }
{
    matches!(word, Word::Basic(Basic::Void))
}
