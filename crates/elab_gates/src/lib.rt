//! Gates, assignments and instances of primitives, which give nets their drivers. Start at `add_gate`.
#![tactic(auto)]

mod assigns;
mod gates;
mod primitives;
mod terminals;

pub use assigns::{add_assign, add_value};
pub use gates::add_gate;
pub use primitives::add_udp;
