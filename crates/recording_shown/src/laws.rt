//! The law of the history that shows a wave. This function does nothing: what it ensures is a law, proved here once.

ghost use Rattle.recording_shown.specs.History.{HistoryShowsWave};

/// Each wave has a history that shows it.
pub fn history_shows_wave()
    ensures { HistoryShowsWave }
{}
