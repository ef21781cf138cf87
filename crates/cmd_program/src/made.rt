//! A made job, repaired: its texts, and how many of its places have which end.

ghost use Rattle.std.specs.Prelude.{◌≡◌, ◌≤◌, ◌^◌, IfOk, length};
ghost use Rattle.cmd_job.specs.Netlist.{FitsNetlist};
ghost use Rattle.cmd_job.specs.Recorded.{FitsRecorded, RecordingComes};
ghost use Rattle.base_run.specs.Prepared.{Judged, PreparedAlone, answer_of};
ghost use Rattle.wave_proved.specs.Contents.{IsFinished};
ghost use Rattle.cmd_program.specs.Make.{make_values, made_job, made_netlist, bytes_in, make_answer, make_phases};
ghost use Rattle.cmd_program.specs.Make.{make_with};
ghost use Rattle.cmd_program.specs.Make.{netlist_made, recorded_made, recording_made, repaired_made, walk_made};
ghost use Rattle.cmd_program.specs.Make.{with_recording};
ghost use Rattle.cmd_phases.specs.Phases.{itself, recording_cause, scope_of};
ghost use Rattle.cmd_phases.specs.Repair.{rules_of};

use crate::commands::make::Make;
use crate::made_texts::MadeTexts;
use base_lists::Memory;
use base_run::{Output, Ready, Refusal, Report};
use base_shelf::Sink;
use cmd_job::{Netlist, PLACES, Recorded, Rules};
use cmd_make::{made_netlist, made_recording};
use cmd_phases::{
    Agreed, Fitted, NETLIST_BYTES, Parts, RECORDING_BYTES, Refused, compared, names_of, netlist_in,
    recorded_in, short_in, wave_of,
};
use design_circuit::{Levels, RegisterRules, StartRule};
use law_model::Limits;
use recording_binding::UndrivenRule;
use replay_forces::forces_of;
use report_bits::write_head;
use std::alloc::Global;
use wave_proved::Wave;

/// The module of a made netlist, and the scope of its recording.
const NAME: &str = "made";

/// The rounds of a moment.
const ROUNDS: u32 = 4;

/// What the words ask. The sink is told how far the walk has come.
pub fn made<'a, O: Sink>(
    alloc: Global,
    words: &Make<'a>,
    out: &mut O,
) -> Result<Ready<'a>, Refusal<Refused>>
    ensures prepared { PreparedAlone (make_phases (make_values words.now)) answer_of result }
    ensures out { O.view out.new ≡ O.view out.old }
{
    let text = made_netlist(alloc, words.number, words.gates)?;
    let netlist = netlist_of(alloc, text.as_slice())?;
    with_netlist(alloc, words, text, netlist, out)
}

/// The netlist of a text that isn't too long.
fn netlist_of(alloc: Global, text: &[u8]) -> Result<Netlist, Refusal<Refused>>
    ensures prepared { PreparedAlone (netlist_made text.now) itself result }
    ensures fits { IfOk result FitsNetlist }
{
    short_in(text, NETLIST_BYTES, Refused::LongNetlist)?;
    netlist_in(alloc, text, NAME)
}

/// The recording of a netlist, and what the words ask of both.
fn with_netlist<'a, O: Sink>(
    alloc: Global,
    words: &Make<'a>,
    text: Vec<u8>,
    netlist: Netlist,
    out: &mut O,
) -> Result<Ready<'a>, Refusal<Refused>>
    requires text { text.items ≡ made_netlist (make_values words.now) }
    requires fits { FitsNetlist netlist }
    ensures prepared { PreparedAlone (with_recording (make_values words.now) netlist) answer_of result }
    ensures out { O.view out.new ≡ O.view out.old }
{
    let recording = recording_of(alloc, words, &netlist)?;
    let texts = MadeTexts {
        words: *words,
        netlist: text,
        recording,
    };
    recorded(alloc, texts, netlist, out)
}

/// The recording of a netlist, where it isn't too long.
fn recording_of(
    alloc: Global,
    words: &Make<'_>,
    netlist: &Netlist,
) -> Result<Vec<u8>, Refusal<Refused>>
    requires { FitsNetlist netlist.now }
    ensures prepared { PreparedAlone (recording_made (make_values words.now) netlist.now) bytes_in result }
    ensures short { IfOk result (λ text. length text.items ≤ 2 ^ 28) }
{
    let text = made_recording(
        alloc,
        &netlist.design,
        &netlist.order,
        words.number,
        words.gates,
    )?;
    short_in(text.as_slice(), RECORDING_BYTES, Refused::LongRecording)?;
    Ok(text)
}

/// What the words ask of a netlist and of the text of its recording.
fn recorded<'a, O: Sink>(
    alloc: Global,
    texts: MadeTexts<'a>,
    netlist: Netlist,
    out: &mut O,
) -> Result<Ready<'a>, Refusal<Refused>>
    requires fits { FitsNetlist netlist }
    ensures prepared { PreparedAlone (recorded_made (make_values texts.entry.words) netlist texts.entry.recording.items)
        answer_of result }
    ensures out { O.view out.new ≡ O.view out.old }
{
    let mut netlist = netlist;
    let recorded = recorded_of(alloc, texts.recording.as_slice(), &mut netlist)?;
    let job = Fitted {
        parts: Parts { netlist, recorded },
    };
    repaired(alloc, texts, job, out)
}

/// What a text records of a netlist, which stays as it is.
fn recorded_of(
    alloc: Global,
    text: &[u8],
    netlist: &mut Netlist,
) -> Result<Recorded, Refusal<Refused>>
    requires short { length text.now ≤ 2 ^ 28 }
    requires fits { FitsNetlist netlist.old }
    ensures judged { Judged (RecordingComes text.now netlist.old.design (scope_of made_job) made_job.rounds
        made_job.places (rules_of made_job)) recording_cause itself result }
    ensures same { IfOk result (λ _. netlist.new ≡ netlist.old) }
    ensures fits { IfOk result (FitsRecorded netlist.new.design) }
    ensures fits_netlist { IfOk result (λ _. FitsNetlist netlist.new) }
{
    let scope = names_of(alloc, NAME)?;
    recorded_in(
        alloc,
        netlist,
        text,
        scope.as_slice(),
        ROUNDS,
        PLACES,
        Rules {
            registers: RegisterRules {
                start: StartRule::Cold,
                levels: Levels::Change,
            },
            undriven: UndrivenRule::Released,
        },
    )
}

/// What the words ask of a job.
fn repaired<'a, O: Sink>(
    alloc: Global,
    texts: MadeTexts<'a>,
    job: Fitted,
    out: &mut O,
) -> Result<Ready<'a>, Refusal<Refused>>
    ensures prepared { PreparedAlone (repaired_made (make_values texts.entry.words) texts.entry.recording.items
        job.parts.netlist job.parts.recorded) answer_of result }
    ensures out { O.view out.new ≡ O.view out.old }
{
    let history = compared(alloc, &job)?;
    let agreed = Agreed {
        parts: job.parts,
        history,
    };
    walked(alloc, texts, &agreed, out)
}

/// The walk over the places of a job that agrees, and what it comes to.
fn walked<'a, O: Sink>(
    alloc: Global,
    texts: MadeTexts<'a>,
    agreed: &Agreed,
    out: &mut O,
) -> Result<Ready<'a>, Refusal<Refused>>
    ensures prepared { PreparedAlone (walk_made (make_values texts.entry.words) texts.entry.recording.items
        agreed.now.parts.netlist agreed.now.parts.recorded) answer_of result }
    ensures out { O.view out.new ≡ O.view out.old }
{
    let limits = Limits {
        conflicts: 1_000,
        enumerated: 12,
    };
    let wave = wave_of(alloc, agreed, limits, out)?;
    Ok(answered(alloc, texts, &wave)?)
}

/// The texts, and the first lines of the report of a finished wave.
fn answered<'a>(alloc: Global, texts: MadeTexts<'a>, wave: &Wave<'_>) -> Result<Ready<'a>, Memory>
    requires { IsFinished wave.now }
    ensures { IfOk result (λ ready. answer_of ready
        ≡ make_answer (make_values texts.entry.words) texts.entry.recording.items wave.now) }
{
    let forces = forces_of(alloc, wave)?;
    let head = write_head(alloc, wave, &forces)?;
    ready_with(alloc, texts, head)
}

/// The texts and what is printed, ready to be delivered.
fn ready_with<'a>(alloc: Global, texts: MadeTexts<'a>, head: Vec<u8>) -> Result<Ready<'a>, Memory>
    ensures { IfOk result (λ ready. answer_of ready
        ≡ make_with (make_values texts.entry.words) texts.entry.netlist.items texts.entry.recording.items head.items) }
{
    let words = texts.words;
    let mut outputs = Vec::new(alloc);
    outputs.push(Output::new(alloc, words.netlist, texts.netlist)?)?;
    outputs.push(Output::new(alloc, words.recording, texts.recording)?)?;
    Ok(Ready {
        outputs,
        report: Report::new(alloc, head)?,
    })
}
