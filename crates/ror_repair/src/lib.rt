//! Repairing statements that no value function is compatible with.
//!
//! A repair goes through the numbered statements in order, keeps each that is consistent with those kept before it, and drops
//! the others. `repair` decides so for each statement the system of those kept before it and itself; `repair_counted` counts the
//! pivots besides. What it gives is proved:
//! multipliers show of each dropped statement that no function is compatible with it and those kept before it, and a base
//! shows that some function is compatible with all that is kept. `ror_check::check_repair` accepts these.
//!
//! Let alternative 0 be evaluated 3 and 10, 1 with 2 and 8 and 2 with 1 and 12, where more of the first and less of the
//! second criterion is better. Of these statements 2 is dropped:
//!
//! ```text
//! 1 Prefer(0, 1)    kept
//! 2 Prefer(1, 0)    dropped: its row and that of 1 sum to 0 in each column, by the multipliers | 0 1 1
//! 3 AtLeast(1, 2)   kept: no function makes 2 worth more than 1
//! ```
#![tactic(auto)]

mod fault;
mod repairing;

pub use fault::RepairFault;
pub use repairing::{repair, repair_counted};
