//! Certificates.

use ror_reason::Reduct;

/// A reduct of an answer of a report, and where that answer stands.
#[derive(Debug, Drop)]
pub struct Certificate {
    /// The number of the session's line in its file.
    pub line: u32,
    /// Which of the line's answers it is, from 1.
    pub place: u32,
    /// The part of the statements that stood at the line, and the answers that show that it is a reduct.
    pub reduct: Reduct,
}
