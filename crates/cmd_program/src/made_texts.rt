//! The texts of a made job.

ghost use Rattle.std.specs.Prelude.{◌≡◌, ◌≤◌, ◌^◌, length};
ghost use Rattle.cmd_program.specs.Make.{make_values, made_netlist};

use crate::commands::make::Make;

/// The made netlist, a recording of at most 2^28 bytes, and the words that name their files.
#[derive(Drop)]
pub struct MadeTexts<'a> {
    pub words: Make<'a>,
    pub netlist: Vec<u8>,
    pub recording: Vec<u8>,
    ghost netlist_is: { netlist.items ≡ made_netlist (make_values words) },
    ghost short: { length recording.items ≤ 2 ^ 28 },
}
