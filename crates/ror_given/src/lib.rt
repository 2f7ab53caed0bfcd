#![tactic(auto)]
//! Which answers may be given at a width, for whatever decides them.
//!
//! A decider answers with a proof of which no number passes the width, or names the first number that does on the path of one of
//! the question's systems, before which nothing is decided (`IsGiven`, in `specs/Answers`). The note of an answer is that of the
//! path, in an answer's own words (`HasNoteAt`, in `specs/Notes`). The crate has definitions alone.
