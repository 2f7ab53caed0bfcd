//! Tests of public calls that no command of the programs makes. What the commands reach is shown by the cases, which go through the built
//! programs.
#![tactic(auto)]

#[cfg(test)]
mod check;
#[cfg(test)]
mod decide;
#[cfg(test)]
mod group;
#[cfg(test)]
mod optimal;
#[cfg(test)]
mod print;
#[cfg(test)]
mod span;
