//! Saved phases: each variable is decided to the value that it had last, so that a restart comes back to where it was.

use crate::reads::{flag_at, number_at, set_flag};
use sat_proof::trail::Trail;
use std::alloc::{AllocError, Global};

/// For each variable the value that it had last, false at first.
#[derive(Drop)]
pub(crate) struct Phases {
    values: Vec<bool>,
}

impl Phases {
    pub(crate) fn new(alloc: Global, vars: usize) -> Result<Phases, AllocError> {
        let values = vec![in alloc; false; vars]?;
        Ok(Phases { values })
    }

    /// Notes the value of each variable on the trail, whose codes are those of false literals.
    pub(crate) fn note(&mut self, trail: &Trail) {
        for j in 0..trail.len {
            let code = number_at(&trail.codes, j);
            set_flag(
                &mut self.values,
                (code / 2).saturating_sub(1),
                code % 2 == 1,
            );
        }
    }

    /// Whether variable n + 1 was true last.
    pub(crate) fn is_true(&self, n: usize) -> bool {
        flag_at(&self.values, n)
    }
}
