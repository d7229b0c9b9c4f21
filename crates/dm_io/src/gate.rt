//! A gate: what is told each row that one of several workers claims, so that a test can hold a worker until another has
//! come.

/// Is told each row that a worker claims. It answers nothing and changes nothing that a contract sees.
pub trait Gate: Sync {
    /// The worker claimed the row.
    fn row(&self, worker: u32, row: u32);
}

/// The gate of every caller that holds no worker: it does nothing.
#[derive(Clone, Copy, Debug)]
pub struct NoGate;

impl Gate for NoGate {
    fn row(&self, _worker: u32, _row: u32) {}
}
