//! What is claimed of a question.

use ror_statement::{Conclusion, Question};

/// That a question is answered so.
#[derive(Clone, Copy, Debug, PartialEq, Eq)]
pub struct Claim {
    pub question: Question,
    pub conclusion: Conclusion,
}
