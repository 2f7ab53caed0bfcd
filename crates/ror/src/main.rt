//! The program: writes the report of a session over a table, and checks one.
#![tactic(auto)]

use ror_host::{FileShelf, StreamSink, WordsFault, given_words};
use ror_run::{Status, run};
use std::process::ExitCode;

fn main(rt: HostRuntime) -> ExitCode {
    let status = match given_words(&rt) {
        Ok(words) => {
            let mut shelf = FileShelf::new(&rt);
            let mut out = StreamSink::new(rt.stdout());
            let mut err = StreamSink::new(rt.stderr());
            run(rt.alloc(), words.as_slice(), &mut shelf, &mut out, &mut err)
        }
        Err(WordsFault::Memory) => Status::Memory,
        Err(WordsFault::Unread) => Status::Usage,
    };
    ExitCode::from(status.code())
}
