//! The laws of forces, each the contract of a function that does nothing.

ghost use Rattle.replay_forces.specs.Laws as spec;
ghost use Rattle.replay_forces.specs.Waves.{ForcesShowTheText, ForcesShowTheWave};

/// The changes of a forcing are events of the job, and force each place as it says.
pub fn changes_force()
    ensures { spec.ChangesForce }
{}

/// The replay under the changes of a forcing is the replay under the forcing.
pub fn changes_replay()
    ensures { spec.ChangesReplay }
{}

/// Any values have forces.
pub fn forces_exist()
    ensures { spec.ForcesExist }
{}

/// Values have no other forces.
pub fn forces_are_one()
    ensures { spec.ForcesAreOne }
{}

/// The forces of values are events of the job.
pub fn forces_are_events()
    ensures { spec.ForcesAreEvents }
{}

/// The replay under the forces of values shows them.
pub fn forces_show()
    ensures { spec.ForcesShow }
{}

/// The replay under the forces of values has the text of any history that shows them. So under the forces of a finished
/// wave it has the text of the history that shows the wave.
pub fn forces_show_the_text()
    ensures values { ForcesShowTheText }
    ensures wave { ForcesShowTheWave }
{}
