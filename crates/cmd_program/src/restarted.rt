//! A job beside the stimulus with set starts.

use crate::commands::fix::Fix;
use cmd_phases::Agreed;
use design_circuit::Stim;

/// A job that agrees, its replay, and its stimulus with the starts that the words set.
#[derive(Drop)]
pub struct Restarted<'a> {
    pub words: Fix<'a>,
    pub agreed: &'a Agreed,
    pub stim: &'a Stim,
    /// How many registers are set.
    pub registers: usize,
}
