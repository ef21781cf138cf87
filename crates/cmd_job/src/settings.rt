//! What a recording is read for.

ghost use Rattle.std.specs.Prelude.{◌<◌, ◌≤◌, ◌^◌, length};

use crate::rules::Rules;
use design_circuit::Bytes;

/// The scope path of a design in a recording, how many rounds a moment has in its replay, the most places of that (nets
/// by moments by rounds), and the rules of the job.
#[derive(Clone, Copy)]
pub struct Settings<'a> {
    pub scope: &'a [Bytes],
    pub rounds: u32,
    pub most: u64,
    pub rules: Rules,
    pub ghost some_scope: { 0 < length scope.now },
    pub ghost some_round: { 1 ≤ rounds },
    pub ghost few_rounds: { rounds ≤ 16 },
    pub ghost few_places: { most ≤ 2 ^ 40 },
}
