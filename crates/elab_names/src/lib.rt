//! The names of a module under way: its declarations, its ports and its instances. Start at `Here` and `Declarations`.
#![tactic(auto)]

mod declarations;
mod declare;
mod here;
mod name_map;
mod name_set;
mod outline;
mod ports;
mod scope;

pub use declarations::Declarations;
pub use declare::introduce;
pub use here::Here;
pub use name_set::NameSet;
pub use ports::PortNames;
pub use scope::{Entry, Scope};
