//! The ground that every crate stands on: one list, want of memory, limits, and the outside as
//! files that are read (`Shelf`) and bytes that are written (`Sink`).
#![tactic(auto)]

mod calls;
mod disk_shelf;
mod laws;
mod limit;
mod list;
mod log;
mod mem_shelf;
mod mem_sink;
mod memory;
mod reading;
mod recorded_shelf;
mod recorded_sink;
mod shelf;
mod shelf_call;
mod sink;
mod sink_call;
mod std_sink;
mod steps;
mod words;
mod writing;

pub use disk_shelf::DiskShelf;
pub use laws::{files_keep, logged_reads, logged_writes, one_reading};
pub use limit::{Kind, Limit};
pub use list::{List, NumList, Remake, Text};
pub use mem_shelf::{File, FileList, MemShelf};
pub use mem_sink::MemSink;
pub use memory::{M, Memory};
pub use reading::{BYTES_LIMIT, FileError, read_all};
pub use recorded_shelf::{RecordedShelf, ShelfLog};
pub use recorded_sink::{RecordedSink, SinkLog};
pub use shelf::{Shelf, ShelfFailed};
pub use shelf_call::ShelfCall;
pub use sink::{Sink, SinkFailed};
pub use sink_call::SinkCall;
pub use std_sink::StdSink;
pub use steps::Steps;
pub use words::command_words;
pub use writing::{write_all, write_pieces};
