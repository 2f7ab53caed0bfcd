//! Tests of the crates of numbers and systems, by calls that no command makes or of which none shows what comes of them:
//! ror_word, ror_fraction, ror_statement, ror_system, ror_pivot and ror_warm; and of ror_reason, at a width that no command gives it.
#![tactic(auto)]

#[cfg(test)]
mod fraction;
#[cfg(test)]
mod made;
#[cfg(test)]
mod numbers;
#[cfg(test)]
mod pivot;
#[cfg(test)]
mod reason;
#[cfg(test)]
mod statement;
#[cfg(test)]
mod warm;
#[cfg(test)]
mod word;
