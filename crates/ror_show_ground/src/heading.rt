//! What stands above a page.

/// What stands above the page of a relation.
#[derive(Clone, Copy, Debug)]
pub struct Heading<'a> {
    /// The number of the session's line that asks for it.
    pub line: u32,
    /// The name of the desk, empty where it has none.
    pub desk: &'a str,
    /// The numbers of the statements that stand there.
    pub numbers: &'a [u32],
    /// How many answers have a proof that was accepted.
    pub proved: usize,
    /// Of how many.
    pub answers: usize,
}
