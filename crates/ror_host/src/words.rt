//! The words of the command line.

use std::alloc::AllocFailed;
use std::env;
use std::io::ErrorKind;
use std::rt::Env;
use thiserror::Error;

/// Why the words are not there.
#[derive(Debug, Drop, Error)]
pub enum WordsFault {
    /// The system does not give them, or one is no text.
    #[error("the words could not be read")]
    Unread,
    /// There was no memory for them.
    #[error("out of memory")]
    Memory,
}

/// The words after the program's name.
///
/// # Errors
///
/// That the system does not give them as texts, and want of memory.
pub fn given_words<R: Env + AllocGlobal>(rt: &R) -> Result<Vec<String>, WordsFault> {
    let args = match env::args(rt) {
        Ok(args) => args,
        Err(error) if error.kind() == ErrorKind::OutOfMemory => return Err(WordsFault::Memory),
        Err(_) => return Err(WordsFault::Unread),
    };
    let mut words = Vec::new(rt.alloc());
    for word in args.skip(1) {
        words
            .push(word)
            .map_err(|_: AllocFailed<String>| WordsFault::Memory)?;
    }
    Ok(words)
}
