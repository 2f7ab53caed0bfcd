//! The program: shows people what holds after a session.
#![tactic(auto)]

use ror_host::{FileShelf, StreamSink, WordsFault, given_words};
use ror_show_run::{KeepingShelf, Status, run};
use std::process::ExitCode;

fn main(rt: HostRuntime) -> ExitCode {
    let status = match given_words(&rt) {
        Ok(words) => {
            let mut shelf = KeepingShelf::new(FileShelf::new(&rt));
            let mut out = StreamSink::new(rt.stdout());
            let mut err = StreamSink::new(rt.stderr());
            run(rt.alloc(), words.as_slice(), &mut shelf, &mut out, &mut err)
        }
        Err(WordsFault::Memory) => Status::Memory,
        Err(WordsFault::Unread) => Status::Usage,
    };
    ExitCode::from(status.code())
}
