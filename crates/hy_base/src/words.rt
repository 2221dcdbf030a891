//! The words of the process.

use crate::memory::{M, Memory};
use std::env;
use std::io::ErrorKind;

/// The words behind the program's name, in time linear in them. Where some word is no UTF-8 text
/// there is no word, and no tool takes that. Memory is the only refusal.
///
/// It is not proved what the words of a process are: these are trusted.
pub fn command_words(rt: &HostRuntime) -> M<Vec<String>> {
    let mut words = Vec::new(rt.alloc());
    match env::args(rt) {
        Ok(args) => {
            for word in args.skip(1) {
                words.push(word)?;
            }
            Ok(words)
        }
        Err(error) if error.kind() == ErrorKind::OutOfMemory => Err(Memory),
        Err(_) => Ok(words),
    }
}
