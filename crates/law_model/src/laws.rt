//! The laws of waveforms. None of these functions does anything: what each ensures is a law, proved here once.

ghost use Rattle.law_model.specs.Laws as spec;

/// The argument places of a place are those whose bits its rule reads, in place order and without doubles.
pub fn arguments_are_read()
    ensures { spec.ArgumentsLaw }
{}

/// The class of a place is the first that applies, by the classes of the places before it.
pub fn class_is_first()
    ensures { spec.ClassLaw }
{}

/// A place is carried from one argument place at most, as it is or inverted.
pub fn carriers_are_one()
    ensures { spec.CarrierLaw }
{}

/// In every world a carried place has the bit of the place that it is carried from, or its complement.
pub fn carried_places_follow()
    ensures { spec.CarryLaw }
{}

/// The cone of a place is what supports reach from it.
pub fn cones_are_reached()
    ensures { spec.ReachLaw }
{}

/// At the places of a cone the worlds are its consistent valuations, each the world of the filling that gives the
/// sources their bits in it; so a place's bit rests on the bits of the sources alone.
pub fn worlds_are_consistent()
    ensures consistent { spec.WorldsAreConsistent }
    ensures worlds { spec.ConsistentAreWorlds }
    ensures sources { spec.SourcesDecide }
{}

/// The models of a cone's clauses are its consistent valuations, read at the places that aren't carried.
pub fn models_are_consistent()
    ensures models { spec.ConsistentAreModels }
    ensures consistent { spec.ModelsAreConsistent }
{}

/// Where a log refutes the query of a place, every filling gives the value that the query denies.
pub fn refuted_queries_settle()
    ensures { spec.RefutedLaw }
{}

/// What a line says of its place is so where its body holds, which rests on the places before it alone.
pub fn bodies_give()
    ensures gives { spec.BodyLaw }
    ensures before { spec.BodyBeforeLaw }
{}

/// A waveform that is built place by place is sound and is what its lines yield, from nothing on and after each place
/// that is written as its class and its line say and isn't optimistic. Where it is, its lines yield it all the same.
pub fn waveforms_stay_sound()
    ensures start { spec.StartLaw }
    ensures growth { spec.GrowthLaw }
    ensures yields { spec.YieldsGrowthLaw }
{}

/// Lines yield at most one waveform, and it is sound exactly where no place of it is optimistic.
pub fn lines_yield_one()
    ensures one { spec.YieldsLaw }
    ensures honest { spec.HonestLaw }
{}

/// Two sound waveforms of a job without undecided places are equal; for two histories, in every mark and certain value.
pub fn sound_waveforms_are_one()
    ensures one { spec.OneSound }
    ensures histories { spec.OneForHistories }
{}

/// A place with so few sources that all their fillings are tried is never undecided.
pub fn few_sources_are_decided()
    ensures { spec.FewSourcesLaw }
{}
