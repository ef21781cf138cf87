//! What no contract says and no case of the programs test_* shows, of texts, cells, elaboration and files: each public
//! call that takes memory comes to its answer where there is memory, generic calls do at a concrete type, files are
//! written and read, and gates, symbols and primitives have the tables of IEEE 1364-2005. `test_waves` goes on with
//! designs and what is done with them.
#![tactic(auto)]

#[cfg(test)]
mod cells;
#[cfg(test)]
mod elaboration;
#[cfg(test)]
mod files;
#[cfg(test)]
mod lists;
#[cfg(test)]
mod recordings;
