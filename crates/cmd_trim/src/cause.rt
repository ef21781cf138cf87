//! Why a text is refused.

use crate::line::line_of;
use base_lists::Memory;
use base_run::Cause;
use netlist_stub::StubFault;
use netlist_trim::TrimFault;
use std::alloc::Global;

/// Why a text is refused.
#[derive(Debug, Drop)]
pub enum Refused {
    /// The joined text has more than 1,073,741,824 bytes.
    Long,
    /// The text has no stubs of the modules that are named.
    Stub(StubFault),
    /// The text can't be trimmed.
    Text(TrimFault),
}

impl Cause for Refused {
    ghost use Rattle.cmd_trim.specs.Cause as spec;

    ghost status_of = { spec.status_of };

    ghost text_of = { spec.text_of };

    fn status(&self) -> u8 {
        match self {
            Refused::Long => 11,
            Refused::Stub(_) => 5,
            Refused::Text(_) => 5,
        }
    }

    fn line(&self, alloc: Global) -> Result<Vec<u8>, Memory> {
        line_of(alloc, self)
    }
}
