//! The laws of sources. None of these functions does anything: what each ensures is a law, proved here once.

ghost use Rattle.law_waveforms.specs.Sources as spec;

/// The bit of a place where each place is given some bit is that in the world of the filling that lists those of its
/// sources that are given 1.
pub fn worlds_rest_on_sources()
    ensures { spec.CutLaw }
{}

/// The sources of a place that isn't carried are those of its essential arguments, and itself where its rule leaves its
/// bit open; those of a carried place are those of the place that it is carried from, and so those of its root.
pub fn sources_are_unions()
    ensures union { spec.UnionLaw }
    ensures carried { spec.CarriedLaw }
    ensures root { spec.RootLaw }
{}
