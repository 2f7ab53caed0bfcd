//! Words: signed whole numbers of four widths, with arithmetic that is exact or says that it can't be.
//!
//! [`Word`] is the trait, and `i16`, `i32`, `i64` and `i128` are its types. Its values go from `-MOST` to `MOST`, and
//! [`Word::mul`], `add`, `sub` and `from_i128` give `None` exactly where the result passes that; [`signs`] compares with 0
//! and 1.
//!
//! ```text
//! Word::mul(150_i16, 200)      Some(30_000)
//! Word::mul(200_i16, 200)      None: `i16::MOST` is 32,767
//! Word::gcd(12_i16, -18)       6
//! Word::quot_rem(-7_i16, 2)    (-4, 1)
//! ```
#![tactic(auto)]

mod divisors;
pub mod signs;
mod word;
mod word_128;
mod word_16;
mod word_32;
mod word_64;

pub use word::Word;
