//! The netlist and the recording that the words of a command name.

ghost use Rattle.std.specs.Prelude.{◌≡◌, IfOk};
ghost use Rattle.cmd_job.specs.Netlist.{FitsNetlist};
ghost use Rattle.cmd_job.specs.Recorded.{FitsRecorded, job_netlist};
ghost use Rattle.base_run.specs.Prepared.{Prepared};
ghost use Rattle.cmd_words.specs.Words.{job_values};
ghost use Rattle.cmd_phases.specs.Phases.{agreed_job, agreed_phases, fitted_job, itself, job_phases};
ghost use Rattle.cmd_phases.specs.Phases.{netlist_phases, recording_phases};
ghost use Rattle.cmd_phases.specs.Repair.{levels_of, register_rules_of, rule_of, rules_of};
ghost use Rattle.cmd_phases.specs.Repair.{undriven_rule_of};

use crate::cause::Refused;
use crate::judged::{compared, netlist_in, recorded_in};
use crate::parts::{Agreed, Fitted, Parts};
use crate::pieces::names_of;
use base_run::{Refusal, read_input, read_inputs};
use base_shelf::Shelf;
use cmd_job::{Netlist, Recorded, Rules};
use cmd_words::{JobWords, Start, Undriven};
use design_circuit::{Levels, RegisterRules, StartRule};
use recording_binding::UndrivenRule;
use std::alloc::Global;

/// The most bytes of a netlist.
pub const NETLIST_BYTES: usize = 67_108_864;

/// The most bytes of a recording.
pub const RECORDING_BYTES: usize = 268_435_456;

/// The job that the words name, whose recording has to agree with its replay; and that replay.
pub fn agreed_of<S: Shelf>(
    alloc: Global,
    shelf: &mut S,
    words: &JobWords<'_>,
) -> Result<Agreed, Refusal<Refused>>
    ensures { Prepared S.told (agreed_phases (job_values words.now)) agreed_job
        (S.view shelf.old) (S.view shelf.new) result }
{
    let job = job_of(alloc, shelf, words)?;
    match compared(alloc, &job) {
        Ok(history) => Ok(Agreed {
            parts: job.parts,
            history,
        }),
        Err(refusal) => Err(refusal),
    }
}

/// The job that the words name.
pub fn job_of<S: Shelf>(
    alloc: Global,
    shelf: &mut S,
    words: &JobWords<'_>,
) -> Result<Fitted, Refusal<Refused>>
    ensures { Prepared S.told (job_phases (job_values words.now)) fitted_job
        (S.view shelf.old) (S.view shelf.new) result }
{
    let mut netlist = netlist_of(alloc, shelf, words)?;
    let recorded = recorded_of(alloc, shelf, words, &mut netlist)?;
    Ok(Fitted {
        parts: Parts { netlist, recorded },
    })
}

/// The netlist that the words name.
fn netlist_of<S: Shelf>(
    alloc: Global,
    shelf: &mut S,
    words: &JobWords<'_>,
) -> Result<Netlist, Refusal<Refused>>
    ensures prepared { Prepared S.told (netlist_phases (job_values words.now)) itself
        (S.view shelf.old) (S.view shelf.new) result }
    ensures fits { IfOk result FitsNetlist }
{
    let text = read_inputs(
        alloc,
        shelf,
        words.netlists,
        NETLIST_BYTES,
        Refused::LongNetlist,
    )?;
    netlist_in(alloc, text.as_slice(), words.top)
}

/// The recording that the words name, of a netlist, which becomes the job's.
fn recorded_of<S: Shelf>(
    alloc: Global,
    shelf: &mut S,
    words: &JobWords<'_>,
    netlist: &mut Netlist,
) -> Result<Recorded, Refusal<Refused>>
    requires { FitsNetlist netlist.old }
    ensures prepared { Prepared S.told (recording_phases (job_values words.now) netlist.old) itself
        (S.view shelf.old) (S.view shelf.new) result }
    ensures netlist { let rule = undriven_rule_of words.now.undriven in
        IfOk result (λ r. netlist.new ≡ job_netlist rule netlist.old r.binding.bound) }
    ensures fits { IfOk result (FitsRecorded netlist.new.design) }
    ensures fits_netlist { IfOk result (λ _. FitsNetlist netlist.new) }
{
    let scope = names_of(alloc, words.scope)?;
    let text = read_input(
        alloc,
        shelf,
        words.recording,
        RECORDING_BYTES,
        Refused::LongRecording,
    )?;
    recorded_in(
        alloc,
        netlist,
        text.as_slice(),
        scope.as_slice(),
        words.rounds,
        words.places,
        rules_of(words),
    )
}

/// The rules that the words name.
fn rules_of(words: &JobWords<'_>) -> Rules
    ensures { result ≡ rules_of (job_values words.now) }
{
    Rules {
        registers: register_rules(words),
        undriven: undriven_rule(words.undriven),
    }
}

fn register_rules(words: &JobWords<'_>) -> RegisterRules
    ensures { result ≡ register_rules_of (job_values words.now) }
{
    RegisterRules {
        start: start_rule(words.start),
        levels: level_rule(words.levels),
    }
}

fn level_rule(levels: cmd_words::Levels) -> Levels
    ensures { result ≡ levels_of levels }
{
    match levels {
        cmd_words::Levels::Change => Levels::Change,
        cmd_words::Levels::Hold => Levels::Hold,
    }
}

fn start_rule(start: Start) -> StartRule
    ensures { result ≡ rule_of start }
{
    match start {
        Start::Cold => StartRule::Cold,
        Start::Recorded => StartRule::Recorded,
    }
}

fn undriven_rule(undriven: Undriven) -> UndrivenRule
    ensures { result ≡ undriven_rule_of undriven }
{
    match undriven {
        Undriven::Released => UndrivenRule::Released,
        Undriven::Recorded => UndrivenRule::Recorded,
    }
}
