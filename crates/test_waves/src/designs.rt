//! Designs, their orders and histories, and texts of them.

mod history;
mod names;
mod nets;
mod order;
mod texts;
mod values;
mod wiring;
