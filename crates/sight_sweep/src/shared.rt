//! What threads may share.

use crate::answers::Answer;
use crate::count::Steps;
use crate::table::SceneTable;
use view_laws::View;

fn is_shared<T: Send + Sync>() {}

/// A table, a view, answers and a count may be moved to another thread and shared between threads.
pub fn types_are_shared() {
    is_shared::<SceneTable>();
    is_shared::<View>();
    is_shared::<Answer>();
    is_shared::<Steps>();
}
