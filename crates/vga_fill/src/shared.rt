//! What threads may share.

use crate::claim::Claim;
use crate::fill::Fill;
use crate::seat::FillSeat;

fn is_shared<T: Send + Sync>() {}

fn is_sent<T: Send>() {}

/// A fill may be moved to another thread and shared between threads, and a seat may be moved.
pub fn types_are_shared() {
    is_shared::<Fill>();
    is_shared::<Claim>();
    is_sent::<FillSeat>();
}
