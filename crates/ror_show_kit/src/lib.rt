//! What all pages of the companion are made of: columns and lines that wrap, the words of statements and of answers, heads of lines,
//! amounts, ids, and values with commas between them.
//!
//! [`layout`] sets words in columns and lines; columns that don't fit beside one another stand in parts ([`part_at`]). [`words`], [`rows`]
//! and [`write_claim`] say what statements and answers say, in a table's ids. [`write_amount`] writes an amount of a table, 5/2 as `2.5` and
//! -2/3 as `-2/3`: a decimal may have more digits than the readers of tables take, 36 at most, 18 of them behind the point. [`write_field`]
//! writes a value between commas. Each call adds to the text that it is given. Of the alternatives `a` and `b` and the question
//! `Necessary(a, b)` the sentences are
//!
//! ```text
//! a is at least as good as b       what statements carry where the answer is yes
//! b is better than a               what one function says where it isn't
//! necessary a b yes                the question and its verdict
//! ```
#![tactic(auto)]

mod amounts;
mod claims;
mod fields;
mod heads;
mod ids;
pub mod layout;
mod part;
pub mod rows;
mod spoken;
pub mod words;
mod write;

pub use amounts::write_amount;
pub use claims::{is_every, turned, write_asked, write_claim, write_counter};
pub use fields::{write_field, write_next_field};
pub use heads::{write_count, write_line, write_statements};
pub use ids::id_bytes;
pub use layout::{columns, room_behind, write_left, write_number, write_spaces, write_word};
pub use part::{Part, part_at, widest, write_part_numbers};
pub use spoken::{
    Spoken, SpokenPair, scope_id, spoken_ids, spoken_in, spoken_names, spoken_of, spoken_pairs,
};
pub use write::{write_named, write_on, write_spoken, write_statement};
