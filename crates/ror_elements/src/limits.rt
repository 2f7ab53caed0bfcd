//! The limits of a text.

/// The greatest depth of an element, the root being 1.
pub const MOST_DEPTH: usize = 64;
