//! What the items of a module make.

mod definitions;
mod drivers;
mod expressions;
mod items;
