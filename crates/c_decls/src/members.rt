//! The members of structs and unions (C11 6.7.2.1).

ghost use Rattle.std.specs.Prelude.{◌≡◌, ◌≤◌, IfOk, IfSome};
ghost use Rattle.c_decls.specs.Members.{appended, declarator_in, is_plain, is_unasked, member_type, name_of, no_members, specifiers_in, uncovered, with_member, without_size};

use asm_core::{Items, Memory};
use c_reader::{Attributes, Context, Declarator, Mode, Reader, Shape, Specifiers};
use c_scopes::Scopes;
use c_types::CType;
use c_values::TypeEnd;
use c_words::Source;
use std::alloc::Global;

/// Members that were read.
#[derive(Drop)]
pub struct Members {
    /// Their names in their order, empty for one without a name.
    pub names: Items<Items<u8>>,
    /// Their types, `Unknown` for one of which nothing is known.
    pub types: Items<CType>,
    /// Whether they leave the struct or union with a size, as far as attributes, bit-fields and coverage go.
    pub sized: bool,
    /// Whether the declaration is covered.
    pub covered: bool,
}

impl Members {
    /// None.
    pub fn new(alloc: Global) -> Members
        ensures { result ≡ no_members }
    {
        Members {
            names: Items::new(alloc),
            types: Items::new(alloc),
            sized: true,
            covered: true,
        }
    }

    /// With one member more, which leaves the whole with a size where `sized` holds.
    pub fn with(
        self,
        alloc: Global,
        name: &[u8],
        ctype: CType,
        sized: bool,
    ) -> Result<Members, Memory>
        ensures { IfOk result (λ m. m ≡ with_member name.now ctype sized self) }
    {
        let Members {
            mut names,
            mut types,
            sized: before,
            covered,
        } = self;
        names.push(Items::from_slice(alloc, name)?)?;
        types.push(ctype)?;
        Ok(Members {
            names,
            types,
            sized: before && sized,
            covered,
        })
    }

    /// With the members of a further declaration behind these.
    pub fn append(self, more: Members) -> Result<Members, Memory>
        ensures { IfOk result (λ m. m ≡ appended self more) }
    {
        let Members {
            mut names,
            mut types,
            sized,
            covered,
        } = self;
        names.append(more.names)?;
        types.append(more.types)?;
        Ok(Members {
            names,
            types,
            sized: sized && more.sized,
            covered,
        })
    }

    pub fn without_size(self) -> Members
        ensures { result ≡ without_size self }
    {
        Members {
            sized: false,
            ..self
        }
    }

    pub fn uncovered(self) -> Members
        ensures { result ≡ uncovered self }
    {
        Members {
            covered: false,
            ..self
        }
    }
}

// ---- one member

fn is_unasked(mode: Mode) -> bool
    ensures { result ≡ is_unasked mode }
{
    matches!(mode, Mode::Unasked)
}

/// Whether the attributes leave it as it is where members lie.
pub fn is_plain(attributes: Attributes) -> bool
    ensures { result ≡ is_plain attributes }
{
    !attributes.vector && !attributes.aligned && is_unasked(attributes.mode)
}

/// The type of a member with these attributes.
pub fn member_type(attributes: Attributes, ctype: CType) -> CType
    ensures { result ≡ member_type attributes ctype }
{
    if attributes.vector || !is_unasked(attributes.mode) {
        CType::Unknown
    } else {
        ctype
    }
}

/// The name at the index, if there is one.
pub fn name_of<'a>(source: &Source<'a>, name: Option<usize>) -> &'a [u8]
    ensures { result.now ≡ name_of source.now name }
{
    match name {
        Some(i) => source.bytes(i),
        None => &[],
    }
}

// ---- what is read of a declaration

/// The specifiers from the index on, if they are covered.
pub fn specifiers_in(
    alloc: Global,
    source: &Source<'_>,
    scopes: &Scopes,
    depth: u32,
    first: usize,
) -> Result<Option<Specifiers>, Memory>
    ensures is { IfOk result (λ s. s ≡ specifiers_in source.now depth first scopes.now) }
    ensures behind { IfOk result (λ s. IfSome s (λ found. first ≤ found.end)) }
{
    let reader = Reader { source, scopes };
    match reader.specifiers_at(alloc, depth, Context::Declaration, first) {
        Ok(specifiers) => Ok(Some(specifiers)),
        Err(TypeEnd::NoType) => Ok(None),
        Err(TypeEnd::Memory) => Err(Memory),
    }
}

/// The declarator at the index, if it is covered.
pub fn declarator_in(
    alloc: Global,
    source: &Source<'_>,
    scopes: &Scopes,
    depth: u32,
    specifiers: &Specifiers,
    i: usize,
) -> Result<Option<Declarator>, Memory>
    ensures is { IfOk result (λ d. d ≡ declarator_in source.now depth specifiers.now i scopes.now) }
    ensures behind { IfOk result (λ d. IfSome d (λ found. i ≤ found.end)) }
{
    let reader = Reader { source, scopes };
    let base = specifiers.ctype.copy(alloc)?;
    match reader.declarator_at(alloc, depth, Context::Declaration, Shape::Named, base, i) {
        Ok(declarator) => Ok(Some(declarator)),
        Err(TypeEnd::NoType) => Ok(None),
        Err(TypeEnd::Memory) => Err(Memory),
    }
}
