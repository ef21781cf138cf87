//! The law of waves that went along lines. The function does nothing: what it ensures is a law, proved here once.

ghost use Rattle.law_along.specs.Along as spec;

/// The logs of a wave that went along lines from nothing name variables of their queries alone.
pub fn logs_along_lines_fit()
    ensures { spec.LogsAlongFit }
{}
