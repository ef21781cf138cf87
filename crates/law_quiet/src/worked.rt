//! The words of the laws worked by hand: what this function ensures, the definitions compute.

ghost use Rattle.law_quiet.specs.WorkedQuiet as worked;

/// Which places of small jobs are quiet: each of the reasons to be due is the only one at some place of theirs, whose
/// class says otherwise than that it has what its net's place a step before has.
pub fn quiet_by_hand()
    ensures edge { worked.EdgeIsDue }
    ensures unclocked { worked.UnclockedIsDue }
    ensures certain { worked.CertainRests }
    ensures restless { worked.RestlessIsDue }
    ensures moments { worked.MomentsAreDue }
    ensures second { worked.SecondIsDue }
    ensures held { worked.HeldIsDue }
{}
