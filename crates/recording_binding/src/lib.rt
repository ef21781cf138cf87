//! Variables of a recording, bound to the nets of a design, and the stimulus that a recording gives; nets without a
//! driver as inputs where they are recorded. Start at `bind`, `holders_by`, `with_inputs` and `stim_of`.
#![tactic(auto)]

mod binder;
mod binding;
mod bits;
mod bound_bits;
mod holders;
mod inputs;
mod job_design;
mod laws;
mod matcher;
mod naming;
mod net_numbers;
mod originals;
mod refusal;
mod rule;
mod scopes;
mod stimulus;
mod variables;

pub use binder::bind;
pub use binding::{Binding, Bound};
pub use bound_bits::{BoundBit, BoundBits};
pub use holders::holders_by;
pub use inputs::Holder;
pub use job_design::with_inputs;
pub use laws::{
    bits_are_there, bits_stand_in_order, job_designs_fit, one_stimulus, originals_are_copied,
};
pub use naming::{Names, put_text};
pub use net_numbers::NetNumbers;
pub use refusal::BindErr;
pub use rule::UndrivenRule;
pub use stimulus::stim_of;
