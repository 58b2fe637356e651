//! How much a server has to do.

/// How much a server has to do.
#[derive(Clone, Copy)]
pub struct Load {
    /// The number of its open transfers.
    pub open: usize,
    /// The most that may be open: no more than there are ports for them.
    pub cap: usize,
}
