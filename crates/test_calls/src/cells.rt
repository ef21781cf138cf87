//! Gates, symbols and primitives by their tables.

mod gates;
mod primitives;
mod symbols;
pub mod tables;
