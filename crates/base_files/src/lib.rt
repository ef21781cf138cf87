//! Real files as a shelf, and a writer as a sink, which report their bytes: those that calls of the system gave and
//! took; and the words of the command line. Start at `Fetched`, `FileShelf` and `OutSink`.
//!
//! What calls gave and took is a `Record`. Four bodies make a call and note it: `read_noted`, `create_noted`,
//! `write_noted` and `put_noted` (`noted.rt`). No contract of the system's calls says what they move, so these are to
//! be read; all else here is proved from their contracts.
#![tactic(auto)]

mod fetched;
mod file_shelf;
mod noted;
mod out_sink;
mod parts;
mod progress;
mod stage;
mod target;
mod words;

pub use fetched::Fetched;
pub use file_shelf::FileShelf;
pub use out_sink::OutSink;
pub use progress::Progress;
pub use words::{NoWords, refuse, words_of};
