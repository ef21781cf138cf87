//! The laws of quiet places. None of these functions does anything: what each ensures is a law, proved here once.

ghost use Rattle.law_quiet.specs.Ahead as ahead;
ghost use Rattle.law_quiet.specs.Copies as copies;
ghost use Rattle.law_quiet.specs.Laws as spec;
ghost use Rattle.law_quiet.specs.Runs as runs;
ghost use Rattle.law_quiet.specs.Sweep as sweep;

/// A test tells which places are quiet.
pub fn quiet_is_tested()
    ensures { spec.TestLaw }
{}

/// The class of a quiet place says that it has what its net's place a step before has; so its net keeps.
pub fn quiet_places_keep()
    ensures quiet { spec.QuietLaw }
    ensures keeps { spec.KeepsLaw }
{}

/// It has the root of its net's place a step before, where that isn't certain, and its bit in every world.
pub fn quiet_places_follow()
    ensures roots { spec.RootsLaw }
    ensures worlds { spec.WorldsLaw }
{}

/// The next place of a sound waveform, where it is quiet, is written as its net's place a step before, without a line,
/// and isn't optimistic where the history shows the same at both.
pub fn quiet_places_repeat()
    ensures said { spec.SaidLaw }
    ensures holds { spec.RepeatLaw }
{}

/// A run of quiet places within a step can be written behind a waveform, each as its net's place a step before, without
/// a line: they are a stretch of the waveform, written again. What was quiet ahead stays so, as it does where one place
/// is written whose net keeps, or that isn't read there.
pub fn quiet_runs_repeat()
    ensures run { runs.RunLaw }
    ensures next { runs.NextLaw }
    ensures stretch { runs.StretchLaw }
{}

/// What is due is known from what isn't stirred: a place is quiet, as far as some places tell, where its net's place a
/// step before is calm and it isn't stirred; a quiet place is calm; and it stays quiet as more places are known, those
/// of them that its driver reads keeping.
pub fn quiet_places_stay()
    ensures here { ahead.HereLaw }
    ensures stays { ahead.StaysLaw }
    ensures calm { ahead.CalmLaw }
    ensures cell { ahead.CellLaw }
    ensures told { ahead.ToldLaw }
    ensures along { ahead.AlongLaw }
{}

/// A step is gone over by two sets of positions, those that are due in it and those that are due one step later: with
/// what they are to hold as it begins, as the place at a position is written, and as positions of which none is due are
/// passed over.
pub fn steps_are_swept()
    ensures start { sweep.StartLaw }
    ensures begins { sweep.BeginsLaw }
    ensures visit { sweep.VisitLaw }
    ensures none_due { sweep.NoneDueLaw }
    ensures skip { sweep.SkipLaw }
{}

/// A copy has the certain value of its argument, and keeps where that does; what is handed in as a history shows at a
/// copy what it shows at its argument; and so a copy has in a waveform what its argument has.
pub fn copies_agree()
    ensures copied { copies.CopyLaw }
    ensures handed { copies.HandedCopiesLaw }
    ensures written { copies.CopiesLaw }
{}
