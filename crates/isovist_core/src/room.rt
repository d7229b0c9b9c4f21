//! Lists that grow.

ghost use Rattle.std.specs.Prelude.{◌≡◌, [], IfOk};

use std::alloc::Global;
use text_spec::NoMemory;

/// An empty list with room for so many elements, so that they are appended without a further allocation.
pub(crate) fn with_room<T: Drop>(alloc: Global, count: usize) -> Result<Vec<T>, NoMemory>
    ensures { IfOk result (λ list. list.items ≡ []) }
{
    match Vec::with_capacity(alloc, count) {
        Ok(list) => Ok(list),
        Err(_refused) => Err(NoMemory),
    }
}
