//! The laws of elaboration, each the contract of a function that does nothing.

ghost use Rattle.elab_tree.specs.Laws as spec;

/// The design of a text's tree fits.
pub fn designs_fit()
    ensures { spec.DesignsFit }
{}

/// Items leave elaboration well, and keep what was there.
pub fn items_stand_well()
    ensures { spec.ItemsStandWell }
{}

/// The relation by cases and the definition by functions say the same of a module's items.
pub fn items_are_exact()
    ensures { spec.ItemsAreExact }
{}

/// The relation and the definition say the same of the top.
pub fn tops_are_exact()
    ensures { spec.TopsAreExact }
{}

/// A tree comes to one outcome at most.
pub fn one_outcome()
    ensures { spec.OneOutcome }
{}

/// A tree comes to an outcome where its primitives do.
pub fn some_outcome()
    ensures { spec.SomeOutcome }
{}

/// The items of a module take no driver from a net.
pub fn drivers_are_kept()
    ensures { spec.DriversAreKept }
{}
