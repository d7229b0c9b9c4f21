//! What may be moved to another thread, and shared between threads.

use crate::plan::Plan;
use plan_spec::Changed;

fn is_shared<T: Send + Sync>() {}

/// A plan may be moved to another thread and shared between threads, and so may the boxes in which it changes.
pub fn types_are_shared() {
    is_shared::<Plan>();
    is_shared::<Changed>();
}
