ghost use Rattle.std.specs.Prelude.{◌≡◌, IfOk};

use crate::{Items, Memory};
use std::alloc::Global;

/// A value of which an equal one can be made where there is memory.
pub trait Duplicate: Sized {
    fn duplicate(&self, alloc: Global) -> Result<Self, Memory>
        ensures { IfOk result (λ copy. copy ≡ self.now) };
}

/// Equal items in the same order.
pub fn duplicate_items<T: Duplicate + Drop>(alloc: Global, items: &[T]) -> Result<Items<T>, Memory>
    ensures { IfOk result (λ copy. copy ≡ items.now) }
{
    let mut copies = Items::new(alloc);
    for item in items {
        copies.push(item.duplicate(alloc)?)?;
    }
    Ok(copies)
}
