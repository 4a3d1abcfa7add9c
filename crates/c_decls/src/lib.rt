//! What each name means at each place of a preprocessed C file: its declarations, with their scopes, and its structs and unions (C11 6.2.1, 6.7 in this project's profile).
#![tactic(auto)]

mod block_items;
mod bodies;
mod declarators;
mod declaring;
mod ends;
mod enumerated;
mod enumerators;
mod for_head;
mod hiding;
mod identifier_list;
mod items;
mod member_declarations;
mod member_declarators;
mod members;
mod parameters;
mod place;
mod recovery;
mod redeclared;
mod sealed;
mod statements;
mod tag_declarations;
mod tag_names;
mod uncovered;
mod unknown_members;
mod walk;

pub use c_scopes::{Declaration, Entity, NameKind, NameSpace, Scopes, name_kind, tagged, visible};
pub use walk::{scopes, tags};
