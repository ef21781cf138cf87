//! A search for bits that give one node of a circuit a bit: conflict-driven clause learning on the nodes themselves. A
//! node is read when it gets a bit, by its minimal choices (`Implication`), and what forces a bit is the node's own
//! table: no clause of it is made. Decisions only justify: the first node with a bit that its arguments don't force
//! takes a bit of an argument. Where none is left, the bits of the sources that have one give the node its bit,
//! whatever the others have.
//!
//! What it finds isn't promised: a caller tests a filling or a log before it counts, so a wrong one costs time alone.
//! Promised is that each call ends and stays in its lists (what is past the end of one reads as nothing, and isn't
//! written), and that a log has no more clauses than conflicts were allowed. A search is a function of the calls alone.
//! Takes 5 bytes for each node of the circuit up to the highest that it met, and while it goes on some 100 for each
//! node that it met and 16 for each argument that it read, and 4 for each literal that it learned.
//!
//! Start at `Search`. It asks for a node by `Step::Wanted`, and the caller reads that in. What it knows is a `Solver`:
//! the nodes that it met, as variables (`variables`), what those that were read read and by which table (`gates`,
//! `readers`,
//! `tables`), and the bits that they have, in the order in which they got them, each with its reason (`trail`). `propagate`
//! finds what follows, `analyze` learns a clause from a conflict (the first unique implication point, with local
//! minimisation), `decide` takes the next decision. The bits that nodes had last (`phases`) stay between searches. A
//! node that has no bit yet isn't read, so what follows by its table is learned as a clause first; such a clause is
//! left out of the log.
#![tactic(auto)]

mod analyze;
mod clauses;
mod decide;
mod gates;
mod implication;
mod node_bit;
mod phases;
mod propagate;
mod readers;
mod reason;
mod restarts;
mod scores;
mod search;
mod solver;
mod span;
mod step;
mod tables;
mod trail;
mod variables;

pub use implication::Implication;
pub use node_bit::NodeBit;
pub use search::Search;
pub use step::Step;
pub use tables::Table;
