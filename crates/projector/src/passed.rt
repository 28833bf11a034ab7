//! Open elements that have no row yet.

/// An open element that is given no role and has no row yet: its name is the part from one place to another of the bytes
/// that are lent with the tokens.
#[derive(Clone, Copy)]
pub(crate) struct PassedName {
    pub(crate) from: usize,
    pub(crate) to: usize,
    /// The number of the node in document order.
    pub(crate) serial: u64,
}
