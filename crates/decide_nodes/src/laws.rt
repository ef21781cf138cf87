//! The laws of the nodes of a cone. These functions do nothing: what each ensures is a law, proved here once.

ghost use Rattle.decide_nodes.specs.Traced as spec;

/// The sources among the nodes of a cone are the sources of the cone.
pub fn sources_are_of_the_cone()
    ensures { spec.SourcesLaw }
{}

/// Bits for the sources are a filling, in whose world the root has the bit that they make.
pub fn bits_make_fillings()
    ensures { spec.ChosenLaw }
{}

/// What a filling lists of the sources makes the bit of the root in its world.
pub fn fillings_make_bits()
    ensures listed { spec.ListedLaw }
    ensures base { spec.BaseLaw }
{}

/// The numbers below 2 to the number of sources stand for all fillings of them.
pub fn numbers_make_fillings()
    ensures { spec.EnumeratedLaw }
{}

/// The nodes of a whole cone are a cone.
pub fn whole_cones_are_cones()
    ensures { spec.WholeLaw }
{}
