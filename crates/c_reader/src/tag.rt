//! The tags of structs, unions and enumerations among specifiers (C11 6.7.2.3).

ghost use Rattle.std.specs.Prelude.{◌≡◌, ◌≤◌, ◌<◌, IfOk};
ghost use Rattle.c_types.specs.declared.ctype.CType.{out-CType};
ghost use Rattle.c_reader.specs.Specifiers.{allows_body, behind_tag, is_joined_as, tag_at, tag_bytes, tag_fits, tag_place, tagged_type};
ghost use Rattle.c_reader.specs.Nesting.{inner};
ghost use Rattle.c_values.specs.Ends.{Gives};

use crate::attributes::attributes_at;
use crate::grammar::{Context, TypeName};
use crate::marks::{is_name, is_open_brace};
use crate::reader::Reader;
use asm_core::Memory;
use c_scopes::tagged;
use c_types::CType;
use c_values::TypeEnd;
use c_words::TagWord;
use std::alloc::Global;

impl Reader<'_> {
    /// What `struct`, `union` or `enum` with a tag names at an offset of the file.
    fn tagged_type(
        &self,
        alloc: Global,
        kind: TagWord,
        tag: &[u8],
        place: u32,
    ) -> Result<CType, Memory>
        ensures { IfOk result (λ t. t ≡ tagged_type self.now.scopes.now kind tag.now place) }
    {
        match tagged(self.scopes, tag, place) {
            Some(ctype) if self.tag_fits(kind, ctype) => Ok(ctype.copy(alloc)?),
            _ => Ok(CType::Unknown),
        }
    }

    /// Whether the type is a struct where a struct is asked, a union where a union is, and an enumeration where one is.
    fn tag_fits(&self, kind: TagWord, ctype: &CType) -> bool
        ensures { result ≡ tag_fits self.now.scopes.now kind (out-CType ctype.now) }
    {
        match kind {
            TagWord::Struct => self.is_joined_as(ctype, false),
            TagWord::Union => self.is_joined_as(ctype, true),
            TagWord::Enum => matches!(ctype, CType::Enumeration),
        }
    }

    /// Whether the type is a union where `joined` holds, and else a struct.
    fn is_joined_as(&self, ctype: &CType, joined: bool) -> bool
        ensures { result ≡ is_joined_as self.now.scopes.now joined (out-CType ctype.now) }
    {
        match ctype {
            CType::Tagged(number) => match self.scopes.tags().list.get(*number as usize) {
                Some(tag) => tag.joined == joined,
                None => false,
            },
            _ => false,
        }
    }

    /// The bytes of the tag at the index, none where none stands there.
    pub fn tag_bytes(&self, i: usize) -> &[u8]
        ensures { result.now ≡ tag_bytes self.now.source.now i }
    {
        if is_name(self.source.word(i)) {
            self.source.bytes(i)
        } else {
            &[]
        }
    }

    /// The offset in the file from which on the tag at the index is seen, or what stands in its place.
    pub fn tag_place(&self, i: usize) -> u32
        ensures { result ≡ tag_place self.now.source.now i }
    {
        if is_name(self.source.word(i)) {
            self.source.end(i)
        } else {
            self.source.start(i)
        }
    }

    /// The index behind the tag, if one stands at the index.
    pub fn behind_tag(&self, i: usize) -> usize
        ensures is { result ≡ behind_tag self.now.source.now i }
        ensures behind { i ≤ result }
    {
        if is_name(self.source.word(i)) {
            i + 1
        } else {
            i
        }
    }

    /// Whether a body may stand where so many levels of nesting may still come.
    #[tactic(auto, using(crate::proofs::NestingLemmas::body_steps))]
    fn allows_body(&self, depth: u32, context: Context) -> bool
        ensures { result ≡ allows_body (inner self.now.source.now self.now.scopes.now depth) context }
    {
        match context {
            Context::Declaration => depth > 0,
            Context::Expression => false,
        }
    }

    /// The type that `struct`, `union` or `enum` at the index names; its body is passed over.
    #[tactic(auto, unfolding(crate::specs::Specifiers::tag_at))]
    pub(crate) fn tag_at(
        &self,
        alloc: Global,
        depth: u32,
        context: Context,
        kind: TagWord,
        i: usize,
    ) -> Result<TypeName, TypeEnd>
        requires { i < 4294967296 }
        ensures is { Gives result (tag_at self.now.source.now self.now.scopes.now (inner self.now.source.now self.now.scopes.now depth) context kind i) }
        ensures behind { IfOk result (λ t. i < t.end) }
    {
        let tag = attributes_at(self.source, i + 1).end;
        let end = self.behind_tag(tag);
        if is_open_brace(self.source.word(end)) {
            if !self.allows_body(depth, context) {
                return Err(TypeEnd::NoType);
            }
            let ctype = self.tagged_type(alloc, kind, self.tag_bytes(tag), self.tag_place(tag))?;
            let end = attributes_at(self.source, self.source.past(end)).end;
            return Ok(TypeName { ctype, end });
        }
        if !is_name(self.source.word(tag)) {
            return Err(TypeEnd::NoType);
        }
        let ctype = self.tagged_type(alloc, kind, self.tag_bytes(tag), self.tag_place(tag))?;
        Ok(TypeName { ctype, end })
    }
}
