//! The law of the files that a command reads.

ghost use Rattle.cmd_program.specs.Commands.{command_of};
ghost use Rattle.cmd_set.specs.Set.{Values};
ghost use Rattle.xrepair.specs.Reads.{ReadsAsListed};

/// The phases of a command read the files that are listed for it, each before anything is found, and no others. Does
/// nothing.
pub fn reads_as_listed()
    ensures { (w : Values command_of) → ReadsAsListed w }
{}
