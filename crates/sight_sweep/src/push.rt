//! Lists that grow, for elements of any type.

ghost use Rattle.std.specs.Prelude.{◌≡◌, ◌++◌, ◌∷◌, [], IfOk, OnOk, OnErr};

use std::alloc::Global;
use text_spec::NoMemory;

/// An empty list with room for so many elements, so that they are appended without a further allocation.
pub(crate) fn with_room<T: Drop>(alloc: Global, count: usize) -> Result<Vec<T>, NoMemory>
    ensures { IfOk result (λ list. list.items ≡ []) }
{
    match Vec::with_capacity(alloc, count) {
        Ok(list) => Ok(list),
        Err(_refused) => Err(NoMemory),
    }
}

/// Appends an element. Without memory the elements are as before.
pub(crate) fn push<T: Drop>(list: &mut Vec<T>, x: T) -> Result<(), NoMemory>
    ensures pushed { OnOk result (list.new.items ≡ list.old.items ++ x ∷ []) }
    ensures unchanged { OnErr result (list.new.items ≡ list.old.items) }
{
    match list.push(x) {
        Ok(()) => Ok(()),
        Err(_refused) => Err(NoMemory),
    }
}
