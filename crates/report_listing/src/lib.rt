//! What is printed of a finished wave: for each unknown bit a source to blame, and how many bits each source is behind;
//! what set starts make known; the places that a replay knows otherwise, and what gave them; which certain places the
//! values of others need.
//!
//! Start at specs/Blame.antt, which says the text, and at `blame_text`; for what set starts make known at
//! specs/Fixed.antt and `fix_text`; for an audit at specs/Audit.antt and `audit_text`; for what values need at
//! specs/Conditions.antt and `put_conditions`.
#![tactic(auto)]

mod audit;
mod blame;
mod conditions;
mod fixed;
mod found;
mod head;
mod places;
mod rows;

pub use audit::audit_text;
pub use blame::blame_text;
pub use cert_condition::Condition;
pub use conditions::put_conditions;
pub use fixed::fix_text;
