//! The laws of rules, worlds and exact waveforms, each the contract of a function that does nothing.

ghost use Rattle.design_circuit.specs.Laws as spec;

/// A design, its order and a stimulus that fit make a job that fits.
pub fn jobs_fit()
    ensures { spec.JobsFit }
{}

/// The rule of a place reads the bits of its argument places alone.
pub fn rule_reads_arguments()
    ensures { spec.RuleReadsArguments }
{}

/// The argument places of a place stand before it.
pub fn arguments_stand_before()
    ensures { spec.ArgumentsStandBefore }
{}

/// The rule of a place reads what earlier places have alone.
pub fn rule_reads_earlier()
    ensures { spec.RuleReadsEarlier }
{}

/// Each filling has a world.
pub fn worlds_exist()
    ensures { spec.WorldsExist }
{}

/// No filling has two worlds.
pub fn worlds_are_unique()
    ensures { spec.WorldsAreUnique }
{}

/// A driver keeps what it gives where it is a register, and else nothing.
pub fn keeps_what_it_gives()
    ensures { spec.KeepsWhatItGives }
{}

/// There is at most one waveform that is exact at each place and shows a history.
pub fn exact_is_unique()
    ensures { spec.ExactIsUnique }
{}
