//! The law of texts. This function does nothing: what it ensures is a law, proved here once.

ghost use Rattle.recording_writer.specs.Laws as spec;

/// Two histories that show the same of each net at the last round of each moment have one text.
pub fn texts_are_one()
    ensures { spec.TextsAreOne }
{}
