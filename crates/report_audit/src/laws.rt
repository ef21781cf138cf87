//! A law of audits. The function does nothing: what it ensures is a law.

ghost use Rattle.report_audit.specs.First.{ListedLaw};

/// The test of a listed place passes exactly where the place is listed.
pub fn listed_by_test()
    ensures { ListedLaw }
{}
