//! How far a search goes.

/// How many nodes a tree has at most. Where a search would need more, it says between which two ranks the extreme rank lies.
pub const MOST_NODES: usize = 1_000;
