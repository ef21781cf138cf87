//! Why a log's text doesn't refute a formula's text.

ghost use Rattle.std.specs.Prelude.{◌≡◌};
ghost use Rattle.sat_prove.specs.Proof.{proof_status};

use sat_dimacs::DimacsFault;

/// Why a log's text doesn't refute a formula's text.
#[derive(Clone, Copy, Debug, PartialEq, Eq)]
pub enum ProofFault {
    /// The formula's text stands for none; or it stands for one, and the log's text for no log over its variables.
    Text(DimacsFault),
    /// The log doesn't refute the formula. `clause` is the first that doesn't follow, counted from 1, or the number of
    /// clauses plus 1 where the last isn't empty.
    Log { clause: usize },
}

impl ProofFault {
    /// The exit status of a run that ends so.
    pub fn status(&self) -> u8
        ensures { result ≡ proof_status self.now }
    {
        match self {
            ProofFault::Text(_) => 16,
            ProofFault::Log { .. } => 13,
        }
    }
}
