//! A watch on this machine: real words, files and streams.

use crate::runs::watch;
use hy_base::{DiskShelf, Memory, StdSink, command_words, write_all};
use std::process::ExitCode;
use std::rt::Runtime;

/// Runs a watch with the words, files and streams of the process, and gives its exit status.
pub fn watch_here(rt: &HostRuntime) -> ExitCode {
    let mut out = StdSink::new(rt.stdout());
    let mut err = StdSink::new(rt.stderr());
    match command_words(rt) {
        Ok(words) => {
            let mut shelf = DiskShelf::new(rt);
            let done = watch(rt.alloc(), words.as_slice(), &mut shelf, &mut out, &mut err);
            ExitCode::from(done.status)
        }
        Err(Memory) => {
            let _ = write_all(&mut err, b"error: memory\n");
            ExitCode::from(6)
        }
    }
}
