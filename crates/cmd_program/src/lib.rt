//! The program as one call. Start at `run`. Its clauses say of the set of commands (`specs/Commands.antt`) what cmd_set
//! says of any set, and what the answer of each says is in the command's own file, that of `repair` in
//! `specs/Headline.antt`.
//!
//! A command is `commands/audit.rt` (its words, and what it does), `specs/Audit.antt` (what it means and promises) and
//! `proofs/Audit.antt` (that it is lawful), with a row in `commands.rt`, `names.rt`, `program.rt` and
//! `specs/Commands.antt`.
//!
//! What a command does goes by these files: `repaired.rt` and `texts.rt` (the walk over all places, and its texts),
//! `report.rt` and `lines.rt` (the report, with the lines of conditions, and which lines of bits it has), `replayed.rt`
//! (the replay under forces), `checked.rt` (the check of a certificate), `upgraded.rt` (its upgrade to form 2),
//! `made.rt`, `made_texts.rt` and `gates.rt` (a made job and its walk), `exported.rt` and `proved.rt` (what goes to
//! other solvers, and what comes back), `audited.rt` (the places that a replay knows otherwise), `blamed.rt` (what is
//! to blame for unknown bits), `fixed.rt` and `restarted.rt` (what set starts make known). The phases that commands
//! share, from files to a job and its walk, are cmd_phases'; how files are read and written, and how a run ends, is
//! base_run's.
#![tactic(auto)]

mod audited;
mod blamed;
mod checked;
mod commands;
mod exported;
mod fixed;
mod gates;
mod laws;
mod limits;
mod lines;
mod made;
mod made_texts;
mod names;
mod program;
mod proved;
mod repaired;
mod replayed;
mod report;
mod restarted;
mod texts;
mod upgraded;
mod usages;

pub use laws::{answers_say_what_is_promised, own_certificate_is_checkable, words_mean_one};
pub use program::{inputs_of, run};
pub use usages::usage_of;
