//! Tests of calls of the crates that read what a user writes, which no command makes: files and streams in memory, of ror_io,
//! and drafts of tables, of ror_table.
#![tactic(auto)]

#[cfg(test)]
mod io;
#[cfg(test)]
mod table;
