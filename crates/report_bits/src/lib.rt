//! The report of a repair: what became of each recorded bit that is x or z, and how many places have which end.
//! Start at `write_report`, and at specs/Report.antt.
#![tactic(auto)]

mod bits;
mod counts;
mod ends;
mod head;
mod lines;
mod marked;
mod names;
mod nets;
mod places;
mod puts;
mod report;
mod rounds;
mod row;
mod rows;
mod told;

pub use bits::bit_lines;
pub use counts::{Counts, counts_of};
pub use head::head_lines;
pub use lines::ReportLines;
pub use places::bit_place;
pub use report::{write_head, write_report};
pub use row::bring;
