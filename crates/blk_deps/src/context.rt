//! What a block is judged by under one of its live shapes.

use crate::Ground;
use asm_core::{Interface, Shape};

/// A live shape of an interface, with what is known of it before any path.
#[derive(Clone, Copy)]
pub struct Context<'a> {
    pub interface: &'a Interface,
    pub live: &'a [Shape],
    pub shape: &'a Shape,
    pub ground: &'a Ground,
}
