#![tactic(auto)]
//! Deciding many systems that have most of their rows in common.
//!
//! An [`Engine`] answers as `ror_pivot::solve_bits` does, by outcomes that `ror_system` accepts and that fit the width, and
//! names a number that is too wide only where the system has that note. The *present system* is the one that was asked of last:
//! its weak rows and its strict rows, in order, over its columns. To save pivots the engine keeps, besides these rows, up to 100
//! solutions and 100 lists of multipliers, of which the first that seems to hold at the rows is put to acceptance before any
//! pivot is made; and a tableau of the last system, whose numbers are rounded. Where these settle nothing the system is decided
//! anew by `ror_pivot`. That pivots are saved is no part of any contract.
//!
//! Over two columns let `s` have the strict rows (1, 1) and (1, -1), and `t` have (-1, 1) behind them.
//! [`Engine::solve_warm`] gives
//!
//! ```text
//! engine.solve_warm(&s, Bits::B127)   Ok(Feasible(_)), and engine.holds(&s) is true
//! engine.solve_warm(&t, Bits::B127)   Ok(Infeasible(_)), and engine.holds(&s) is false
//! ```

mod certificates;
mod engine;
mod entering;
mod exact;
mod fault;
mod fitting;
mod line;
mod near;
mod outcomes;
mod pivoting;
mod present;
mod rebuilding;
mod rounding;
mod rows;
mod solved;
mod store;
mod tableau;
mod ties;
mod warm;

pub use engine::Engine;
