//! Addresses that are taken or free.

/// The addresses from one up to and not including another.
#[derive(Clone, Copy)]
pub(crate) struct Span {
    pub(crate) start: u64,
    pub(crate) stop: u64,
}
