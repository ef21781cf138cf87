//! Lanes that collect what searches find: 512 fillings beside a graph of nodes, laid anew with each filling that a
//! search found for one of its nodes, so that neighbours of that node are decided without a search.
//!
//! A node has a bit in each lane, from its table and the bits of the nodes that it reads; a source has given bits,
//! drawn at first. A node is evaluated when it is asked for, after the nodes that it rests on. A filling that a search
//! found is laid over one lane, and with variations over 64 others: for the sources that the node rests on, where the
//! rest keep what they had. From then on no node counts as evaluated, so each lane stays one filling. If a node has a
//! bit in some lane, a walk down from it by minimal choices lists the few sources that this rests on.
//!
//! Entries are kept of nodes alone that were asked for, and of those that they rest on, and found by a map. Where they
//! reach a limit, all are forgotten, and what is asked for then is made anew.
//!
//! That a filling is right isn't promised, so a caller tests it before it counts: promised is that it lists sources of
//! the graph, and that each call ends and stays in its lists. Start at `Pool`.
#![tactic(auto)]

mod choices;
mod draws;
mod entry;
mod evaluate;
mod justify;
mod lay;
mod limit;
mod pool;
mod pool_bits;
mod reads;

pub use pool::Pool;
