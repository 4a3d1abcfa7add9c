//! What a token is to the grammar of asm statements.

ghost use Rattle.std.specs.Prelude.{◌≡◌};
ghost use Rattle.asm_statement.specs.Classes.{same, is_keyword, is_qualifier, is_goto, is_lead, is_head, is_extension, is_attribute, name_class, mark_class, literal_class, is_name, is_open_paren, is_close_paren, is_open_bracket, is_close_bracket, is_colon, is_comma, is_literal, ends_list, is_word};

/// What a token is to the grammar of asm statements.
#[derive(Clone, Copy)]
pub enum Class {
    /// No token: before the first and behind the last.
    Missing,
    /// `asm`, `__asm__`, `__asm`.
    Keyword,
    /// `volatile` and `inline`, also with underscores.
    Qualifier,
    Goto,
    /// `else` and `do`, directly behind which a statement may begin.
    Lead,
    /// `if`, `while`, `for`, `switch`, whose parentheses a statement may follow.
    Head,
    /// `__extension__`.
    Extension,
    /// `__attribute__`, `__attribute` and `_Pragma`, whose parentheses may stand before a statement.
    Attribute,
    /// Any other name.
    Name,
    /// A string literal with no prefix.
    Literal,
    /// A string literal with a prefix.
    Prefixed,
    OpenParen,
    CloseParen,
    OpenBracket,
    CloseBracket,
    OpenBrace,
    CloseBrace,
    Semicolon,
    Colon,
    Comma,
    Other,
}

/// Whether the name is spelt so.
pub fn is(name: &[u8], word: &[u8]) -> bool
    ensures { result ≡ same name.now word.now }
{
    name == word
}

fn is_keyword(name: &[u8]) -> bool
    ensures { result ≡ is_keyword name.now }
{
    is(name, b"asm") || is(name, b"__asm__") || is(name, b"__asm")
}

fn is_qualifier(name: &[u8]) -> bool
    ensures { result ≡ is_qualifier name.now }
{
    is(name, b"volatile")
        || is(name, b"__volatile__")
        || is(name, b"__volatile")
        || is(name, b"inline")
        || is(name, b"__inline__")
        || is(name, b"__inline")
}

fn is_lead(name: &[u8]) -> bool
    ensures { result ≡ is_lead name.now }
{
    is(name, b"else") || is(name, b"do")
}

fn is_head(name: &[u8]) -> bool
    ensures { result ≡ is_head name.now }
{
    is(name, b"if") || is(name, b"while") || is(name, b"for") || is(name, b"switch")
}

fn is_extension(name: &[u8]) -> bool
    ensures { result ≡ is_extension name.now }
{
    is(name, b"__extension__")
}

fn is_attribute(name: &[u8]) -> bool
    ensures { result ≡ is_attribute name.now }
{
    is(name, b"__attribute__") || is(name, b"__attribute") || is(name, b"_Pragma")
}

/// The class of a name with these bytes.
#[tactic(auto, unfolding(crate::specs::Classes::name_class))]
pub fn name_class(name: &[u8]) -> Class
    ensures { result ≡ name_class name.now }
{
    if is_keyword(name) {
        return Class::Keyword;
    }
    if is_qualifier(name) {
        return Class::Qualifier;
    }
    if is(name, b"goto") {
        return Class::Goto;
    }
    if is_lead(name) {
        return Class::Lead;
    }
    if is_head(name) {
        return Class::Head;
    }
    if is_extension(name) {
        return Class::Extension;
    }
    if is_attribute(name) {
        return Class::Attribute;
    }
    Class::Name
}

/// The class of a punctuator that begins with this byte.
#[tactic(auto, unfolding(crate::specs::Classes::mark_class))]
pub fn mark_class(b: u8) -> Class
    ensures { result ≡ mark_class b }
{
    match b {
        b'(' => Class::OpenParen,
        b')' => Class::CloseParen,
        b'[' => Class::OpenBracket,
        b']' => Class::CloseBracket,
        b'{' => Class::OpenBrace,
        b'}' => Class::CloseBrace,
        b';' => Class::Semicolon,
        b':' => Class::Colon,
        b',' => Class::Comma,
        _ => Class::Other,
    }
}

/// The class of a string literal that begins with this byte, its quote or a prefix.
pub fn literal_class(b: u8) -> Class
    ensures { result ≡ literal_class b }
{
    if b == b'"' {
        Class::Literal
    } else {
        Class::Prefixed
    }
}

impl Class {
    /// Whether the token is a name; keywords are names too.
    pub fn is_name(self) -> bool
        ensures { result ≡ is_name self }
    {
        matches!(
            self,
            Class::Keyword
                | Class::Qualifier
                | Class::Goto
                | Class::Lead
                | Class::Head
                | Class::Extension
                | Class::Attribute
                | Class::Name
        )
    }

    pub fn is_open_paren(self) -> bool
        ensures { result ≡ is_open_paren self }
    {
        matches!(self, Class::OpenParen)
    }

    pub fn is_close_paren(self) -> bool
        ensures { result ≡ is_close_paren self }
    {
        matches!(self, Class::CloseParen)
    }

    pub fn is_open_bracket(self) -> bool
        ensures { result ≡ is_open_bracket self }
    {
        matches!(self, Class::OpenBracket)
    }

    pub fn is_close_bracket(self) -> bool
        ensures { result ≡ is_close_bracket self }
    {
        matches!(self, Class::CloseBracket)
    }

    pub fn is_colon(self) -> bool
        ensures { result ≡ is_colon self }
    {
        matches!(self, Class::Colon)
    }

    pub fn is_comma(self) -> bool
        ensures { result ≡ is_comma self }
    {
        matches!(self, Class::Comma)
    }

    /// Whether the token is a string literal; one with a prefix only where that is asked for.
    pub fn is_literal(self, prefixed: bool) -> bool
        ensures { result ≡ is_literal prefixed self }
    {
        match self {
            Class::Literal => true,
            Class::Prefixed => prefixed,
            _ => false,
        }
    }

    /// Whether a list of operands or clobbers ends before the token: at a colon or the closing parenthesis.
    pub fn ends_list(self) -> bool
        ensures { result ≡ ends_list self }
    {
        matches!(self, Class::Colon | Class::CloseParen)
    }

    /// Whether the token is a word that may follow the keyword, `goto` only where that is asked for.
    pub fn is_word(self, goto: bool) -> bool
        ensures { result ≡ is_word goto self }
    {
        match self {
            Class::Qualifier => true,
            Class::Goto => goto,
            _ => false,
        }
    }
}
