//! Lines of options, of a program or of one of its commands, read by `clap`. Start at `read_line`, at
//! `specs/Line.antt` for the set of lines over a list of options, and at `specs/Read.antt` for what a line that was
//! read names.
//!
//! `option.rt` says what an option is, and `specs/Tables.antt` has a list of options as a table to read. A new kind of
//! value is a case in `Kind`, in `fits` (`values.rt`), and in `Fits`, `parser_for` and `PlainKind`. `told.rt` has what
//! `clap` is told, `line.rt` what it answers, and `outputs.rt` whether files that are written have names of their own.
#![tactic(auto)]

mod line;
mod option;
mod outputs;
mod told;
mod usage;
mod values;

pub use line::{Line, files_in, read_line};
pub use option::{Kind, Opt};
pub use outputs::are_apart;
pub use usage::usage_of_line;
pub use values::number_in;
