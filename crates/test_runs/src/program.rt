//! A program as one call.

use base_shelf::{Shelf, Sink};
use std::alloc::Global;

/// A program as one call.
pub trait Program {
    /// Runs the words on the shelf, prints to the sink, and answers the exit status.
    fn run<S: Shelf, O: Sink>(alloc: Global, words: &[String], shelf: &mut S, out: &mut O) -> u8;
}
