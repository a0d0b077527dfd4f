//! The forms in memory, for tests and for commands that use neither network nor files.
ghost use Rattle.std.specs.Prelude.{◌≡◌, IfOk};

pub mod asked;
mod kept;
pub mod link;
pub mod listener;
pub mod net;
pub mod sink;
pub mod source;

use std::alloc::{AllocError, Global};

// Returns a copy of plain numbers.
fn copied<T: Copy>(alloc: Global, items: &[T]) -> Result<Vec<T>, AllocError>
    ensures { IfOk result (λ copy. copy.items ≡ items.now) }
{
    let mut copy = Vec::with_capacity(alloc, items.len())?;
    copy.extend_from_slice(items)?;
    Ok(copy)
}
