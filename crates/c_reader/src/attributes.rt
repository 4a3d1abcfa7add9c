//! GNU attributes, as far as they change types (GCC manual, "Attribute Syntax").

ghost use Rattle.std.specs.Prelude.{◌≡◌, ◌+◌, ◌<◌, ◌≤◌, length, IsTrue, true};
ghost use Rattle.c_reader.specs.Attributes.{is, asked_between, asked_by, asked_named, attributes_at, attributes_from, attributes_step, begins_attribute, both, both_modes, known, mode_behind, mode_named, no_attributes, opens_attribute, typed_with, with_mode, with_unknown_mode, EndsAt, GoesOn};
ghost use Rattle.c_reader.specs.Reads.{IsBehind};

use crate::marks::{is_close_paren, is_open_bracket, is_open_paren};
use crate::next::Next;
use c_types::CType;
use c_words::{Source, Word};

/// The machine mode that attributes ask for.
#[derive(Clone, Copy, Debug, PartialEq, Eq)]
pub enum Mode {
    /// None.
    Unasked,
    /// That of an integer of so many bytes: 1, 2, 4 or 8.
    Bytes(u32),
    /// Another one, or several.
    Other,
}

/// What attributes ask for that changes sizes.
#[derive(Clone, Copy, Debug, PartialEq, Eq)]
pub struct Attributes {
    /// `vector_size`.
    pub vector: bool,
    /// `packed` or `aligned`.
    pub aligned: bool,
    pub mode: Mode,
}

/// What attributes ask for, and the index behind them.
#[derive(Clone, Copy, Debug)]
pub struct Asked {
    pub attributes: Attributes,
    pub end: usize,
}

/// Whether the name is spelt so.
fn is(name: &[u8], word: &[u8]) -> bool
    ensures { result ≡ is name.now word.now }
{
    name == word
}

impl Mode {
    /// What both ask for together.
    fn both(self, other: Mode) -> Mode
        ensures { result ≡ both_modes self other }
    {
        match self {
            Mode::Unasked => other,
            _ => match other {
                Mode::Unasked => self,
                _ => Mode::Other,
            },
        }
    }

    /// The mode of that name: `QI`, `HI`, `SI` and `DI` are those of the integers of 1, 2, 4 and 8 bytes.
    #[tactic(auto, unfolding(crate::specs::Attributes::mode_named))]
    fn named(name: &[u8]) -> Mode
        ensures { result ≡ mode_named name.now }
    {
        if is(name, b"QI") || is(name, b"__QI__") {
            Mode::Bytes(1)
        } else if is(name, b"HI") || is(name, b"__HI__") {
            Mode::Bytes(2)
        } else if is(name, b"SI") || is(name, b"__SI__") {
            Mode::Bytes(4)
        } else if is(name, b"DI") || is(name, b"__DI__") {
            Mode::Bytes(8)
        } else {
            Mode::Other
        }
    }
}

impl Attributes {
    /// Nothing is asked.
    pub fn new() -> Attributes
        ensures { result ≡ no_attributes }
    {
        Attributes {
            vector: false,
            aligned: false,
            mode: Mode::Unasked,
        }
    }

    /// What these and the others ask for.
    pub fn both(self, other: Attributes) -> Attributes
        ensures { result ≡ both self other }
    {
        Attributes {
            vector: self.vector || other.vector,
            aligned: self.aligned || other.aligned,
            mode: self.mode.both(other.mode),
        }
    }

    /// The same of attributes of C23, in which a mode isn't known.
    fn with_unknown_mode(self) -> Attributes
        ensures { result ≡ with_unknown_mode self }
    {
        let mode = match self.mode {
            Mode::Unasked => Mode::Unasked,
            _ => Mode::Other,
        };
        Attributes { mode, ..self }
    }

    /// The type of a name declared with these attributes. `None` where it isn't known.
    #[tactic(auto, unfolding(crate::specs::Attributes::typed_with))]
    pub fn typed(self, is_typedef: bool, ctype: CType) -> Option<CType>
        ensures { result ≡ typed_with self is_typedef ctype }
    {
        if self.vector || (is_typedef && self.aligned) {
            return None;
        }
        known(with_mode(self.mode, ctype)?)
    }
}

/// The type, unless nothing is known of it.
fn known(ctype: CType) -> Option<CType>
    ensures { result ≡ known ctype }
{
    match ctype {
        CType::Unknown => None,
        _ => Some(ctype),
    }
}

/// The type in that mode, which is one of integers.
fn with_mode(mode: Mode, ctype: CType) -> Option<CType>
    ensures { result ≡ with_mode mode ctype }
{
    match mode {
        Mode::Unasked => Some(ctype),
        Mode::Bytes(size) => match ctype {
            CType::Int { signed, .. } => Some(CType::Int { size, signed }),
            _ => None,
        },
        Mode::Other => None,
    }
}

/// The mode in the parentheses at the index, in which its name stands alone.
fn mode_behind(source: &Source<'_>, i: usize) -> Mode
    ensures { result ≡ mode_behind source.now i }
{
    if is_open_paren(source.word(i)) && is_close_paren(source.word(i + 2)) {
        Mode::named(source.bytes(i + 1))
    } else {
        Mode::Other
    }
}

/// What the token with this index asks for, if it is the name of an attribute.
fn asked_by(source: &Source<'_>, i: usize) -> Attributes
    ensures { result ≡ asked_by source.now i }
{
    match source.word(i) {
        Word::Name => asked_named(source, i),
        _ => Attributes::new(),
    }
}

/// What the attribute with its name at the index asks for.
#[tactic(auto, unfolding(crate::specs::Attributes::asked_named))]
fn asked_named(source: &Source<'_>, i: usize) -> Attributes
    requires { i < 4294967296 }
    ensures { result ≡ asked_named source.now i }
{
    let name = source.bytes(i);
    let nothing = Attributes::new();
    if is(name, b"vector_size") || is(name, b"__vector_size__") {
        return Attributes {
            vector: true,
            ..nothing
        };
    }
    if is(name, b"packed") || is(name, b"__packed__") {
        return Attributes {
            aligned: true,
            ..nothing
        };
    }
    if is(name, b"aligned") || is(name, b"__aligned__") {
        return Attributes {
            aligned: true,
            ..nothing
        };
    }
    if is(name, b"mode") || is(name, b"__mode__") {
        return Attributes {
            mode: mode_behind(source, i + 1),
            ..nothing
        };
    }
    nothing
}

/// What the list of attributes from one index up to another asks for. In brackets stand arguments, which ask for nothing.
#[tactic(auto, using(crate::proofs::AttributeLemmas::asked_steps))]
fn asked_between(source: &Source<'_>, first: usize, end: usize) -> Attributes
    requires { end ≤ length source.now.tokens }
    ensures { result ≡ asked_between source.now first end }
{
    let mut asked = Attributes::new();
    let mut i = first;
    while i < end {
        asked = asked.both(asked_by(source, i));
        i = source.past(i);
    }
    asked
}

/// Whether a group of attributes begins at the index.
pub fn begins_attribute(source: &Source<'_>, i: usize) -> bool
    ensures is { result ≡ begins_attribute source.now i }
    ensures inside { IsTrue result → i + 1 < length source.now.tokens }
{
    matches!(source.word(i), Word::Attribute) && is_open_paren(source.word(i + 1))
}

/// Whether attributes of C23 begin at the index: two brackets open (6.7.12.1 there).
pub fn opens_attribute(source: &Source<'_>, i: usize) -> bool
    ensures is { result ≡ opens_attribute source.now i }
    ensures inside { IsTrue result → i + 1 < length source.now.tokens }
{
    is_open_bracket(source.word(i)) && is_open_bracket(source.word(i + 1))
}

/// One group of attributes, in any of their spellings.
fn attributes_step(source: &Source<'_>, i: usize, asked: Attributes) -> Next<Attributes, Asked>
    requires inside { i < length source.now.tokens }
    requires few { length source.now.tokens < 4294967296 }
    ensures is { result ≡ attributes_step source.now i asked }
    ensures further { IsBehind i result }
    ensures ended { EndsAt i result }
    ensures group { begins_attribute source.now i ≡ true → GoesOn result }
{
    if begins_attribute(source, i) {
        let end = source.past(i + 1);
        return Next::More(asked.both(asked_between(source, i + 3, end)), end);
    }
    if opens_attribute(source, i) {
        let end = source.past(i);
        let more = asked_between(source, i + 2, end).with_unknown_mode();
        return Next::More(asked.both(more), end);
    }
    Next::Done(Asked {
        attributes: asked,
        end: i,
    })
}

/// What the attributes from the index on ask for, beside what is asked already.
#[tactic(auto, using(crate::proofs::AttributeLemmas::attribute_steps))]
pub fn attributes_from(source: &Source<'_>, already: Attributes, first: usize) -> Asked
    ensures is { result ≡ attributes_from source.now already first }
    ensures behind { first ≤ result.end }
    ensures further { first < length source.now.tokens → begins_attribute source.now first ≡ true → first < result.end }
{
    let mut asked = already;
    let mut i = first;
    while i < source.len() {
        match attributes_step(source, i, asked) {
            Next::Done(found) => return found,
            Next::More(more, next) => {
                asked = more;
                i = next;
                continue;
            }
        }
    }
    Asked {
        attributes: asked,
        end: i,
    }
}

/// What the attributes from the index on ask for.
pub fn attributes_at(source: &Source<'_>, first: usize) -> Asked
    ensures is { result ≡ attributes_at source.now first }
    ensures behind { first ≤ result.end }
    ensures further { first < length source.now.tokens → begins_attribute source.now first ≡ true → first < result.end }
{
    attributes_from(source, Attributes::new(), first)
}
