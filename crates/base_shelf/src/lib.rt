//! Named files and a sink as values: what a program reads, writes and prints, with a count of the faults on the way.
//! Start at `Shelf`, `Sink` and `read_all`; `MemShelf` and `MemSink` keep all in memory, and `PlainShelf` and
//! `PlainSink` do so without a fault.
#![tactic(auto)]

mod fault;
mod fault_count;
mod in_hand;
mod mem_shelf;
mod mem_sink;
mod named_files;
mod plain_shelf;
mod plain_sink;
mod plan;
mod reader;
mod shelf;
mod sink;

pub use fault::{IoErr, ReadErr, WriteErr};
pub use fault_count::FaultCount;
pub use mem_shelf::MemShelf;
pub use mem_sink::MemSink;
pub use named_files::NamedFiles;
pub use plain_shelf::PlainShelf;
pub use plain_sink::PlainSink;
pub use shelf::{Shelf, read_all, write_all};
pub use sink::{Sink, print_all};
