//! The laws of bound bits, of copies, of the designs of jobs and of stimuli, each the contract of a function that does
//! nothing.

ghost use Rattle.recording_binding.specs.Laws as spec;

/// The bits of a variable that is bound are a part of the nets of a name that it tells, in their order.
pub fn bits_stand_in_order()
    ensures { spec.BitsStandInOrder }
{}

/// A recording whose variables are bound has one stimulus.
pub fn one_stimulus()
    ensures { spec.OneStimulus }
{}

/// Each bit that a walk gives is of one of the moments, and of a net of the design.
pub fn bits_are_there()
    ensures { spec.BitsAreThere }
{}

/// A net without a driver is the original of itself and of the nets that copy it.
pub fn originals_are_copied()
    ensures { spec.OriginalsAreCopied }
{}

/// The design of a job fits where the netlist's does.
pub fn job_designs_fit()
    ensures { spec.JobDesignsFit }
{}
