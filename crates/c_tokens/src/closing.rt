//! The bracket that closes another.

ghost use Rattle.std.specs.Prelude.{◌≡◌, ℕ, ◌<◌, length, IfOk};
ghost use Rattle.c_tokens.specs.Closers.{AreClosers};

use crate::brackets::{closes, mark_of, opens};
use crate::token::Tokens;
use asm_core::{Items, Memory};
use std::alloc::Global;

/// For each token that is an opening bracket, the index of the token that closes it, in one pass; `None` for every other token.
pub fn closers(alloc: Global, text: &[u8], tokens: &Tokens) -> Result<Items<Option<u32>>, Memory>
    requires { length tokens.now.list < 4294967296 }
    ensures { IfOk result (λ closers. AreClosers text.now tokens.now.list closers) }
{
    let mut closers = Vec::new(alloc);
    let mut opened: Vec<u32> = Vec::new(alloc);
    for (i, token) in tokens.list.as_slice().iter().enumerate() {
        closers.push(None)?;
        let b = mark_of(text, token);
        if opens(b) {
            opened.push(i as u32)?;
            continue;
        }
        if !closes(b) {
            continue;
        }
        if let Some(o) = opened.pop() {
            closers[o as usize] = Some(i as u32);
            continue;
        }
    }
    Ok(Items::from_vec(closers))
}
