//! What is noted of the choices of a claim.

/// A buffer of a claim, and the number of a line that covers the child by it.
#[derive(Clone, Copy, Debug)]
pub struct Refuted {
    /// The buffer.
    pub buffer: u32,
    /// The number of the line in the log.
    pub line: u64,
}

/// The lines by which the first choices of a claim are refuted. Below the number `asked` no line of
/// the log covers the claim.
#[derive(Drop)]
pub struct Notes {
    /// The first choices in order, each with its line.
    pub refuted: Vec<Refuted>,
    /// How many lines were asked whether they cover the claim.
    pub asked: u64,
}
