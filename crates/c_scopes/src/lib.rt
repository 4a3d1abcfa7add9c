//! The symbol table of a C file: which names and tags are declared, with what, and in which part of the file each is seen; and the file's structs and unions.
//!
//! Places are offsets in the file, in bytes.
#![tactic(auto)]

mod chain;
mod declaration;
mod heads;
mod index;
mod lookup;
mod scopes;

pub use declaration::{Declaration, Entity, NameKind, NameSpace};
pub use lookup::{name_kind, tagged, visible};
pub use scopes::Scopes;
