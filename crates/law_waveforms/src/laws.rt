//! Laws that compare waveforms. None of these functions does anything: what each ensures is a law, proved here once.

ghost use Rattle.law_waveforms.specs.Alike as alike;
ghost use Rattle.law_waveforms.specs.Audit as audit;
ghost use Rattle.law_waveforms.specs.Objection as objection;
ghost use Rattle.law_waveforms.specs.Prefix as prefix;
ghost use Rattle.law_waveforms.specs.Reshown as reshown;
ghost use Rattle.law_waveforms.specs.Roots as roots;
ghost use Rattle.law_waveforms.specs.Starts as starts;

/// The first places of a waveform that is sound are sound, and those of one that lines yield are yielded by the lines
/// of the places among them.
pub fn prefixes_stay()
    ensures yields { prefix.YieldsPrefixLaw }
    ensures sound { prefix.SoundPrefixLaw }
    ensures holds { prefix.PrefixLaw }
{}

/// What the class of the next place of a sound waveform says, or a line whose body holds, is so; where it contradicts
/// the history, every filling gives it, or two give 0 and 1.
pub fn objections_are_exact()
    ensures said { objection.SaidLaw }
    ensures exact { objection.ObjectionLaw }
{}

/// Lists of lines without an undecided body that object for one history do so at one place, and find the same.
pub fn objections_are_one()
    ensures decided { objection.DecidedLaw }
    ensures one { objection.OneObjection }
{}

/// Lines that yield a waveform for one history yield, for another, the waveform with the same marks and certain values.
pub fn lines_yield_again()
    ensures yields { reshown.ReshownLaw }
    ensures there { reshown.ReshownThere }
    ensures decide { objection.AllDecideLaw }
{}

/// Two sound waveforms of a job without undecided places have the same marks and certain values, whatever their
/// histories, limits and lengths are; for one history they are equal.
pub fn sound_waveforms_are_alike()
    ensures histories { alike.AlikeLaw }
    ensures one { alike.OneLaw }
{}

/// Over a waveform of the whole job that is sound for some history and has no undecided place: lists of lines without
/// an undecided body meet their first optimistic place for another history at the first place that it lists, and there
/// are some exactly where it lists one.
pub fn audits_list_the_first()
    ensures first { audit.FirstListed }
    ensures objection { audit.ObjectionListed }
    ensures some { audit.SomeListed }
    ensures once { audit.MeetOnce }
    ensures met { audit.ObjectionMet }
{}

/// Where registers that start at x are set to 0 or 1, under recorded starts and with every clock pin certain: each
/// world of the job with the set starts is one that there was, so what was certain stays so where nothing is undecided.
pub fn set_starts_choose()
    ensures jobs { starts.JobsWithStarts }
    ensures fits { starts.StartsFit }
    ensures worlds { starts.WorldsOfFirst }
    ensures certain { starts.CertainStays }
{}

/// In every world a place has the bit of its root, or its complement where the way to it inverts.
pub fn roots_lead()
    ensures { roots.RootLaw }
{}
