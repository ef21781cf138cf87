//! The job of a case: its netlist, its recording, and the replay.

ghost use Rattle.std.specs.Prelude.{IfOk, IfSome};
ghost use Rattle.cmd_job.specs.Netlist.{FitsNetlist};
ghost use Rattle.cmd_job.specs.Recorded.{FitsRecorded};
ghost use Rattle.test_cert.specs.Job.{FitsJob};

use crate::case::Texts;
use crate::checked::{put_checked, put_own};
use base_lists::{Memory, put};
use cert_check::{Cert, CheckErr, Checked, Form, check_cert};
use cmd_job::{
    Netlist, PLACES, Recorded, Rules, Settings, circuit_of, read_netlist, read_recording,
    replay_and_compare,
};
use decide_repair::{RepairErr, repair};
use design_circuit::{Bytes, History, Levels, RegisterRules, StartRule};
use law_model::Limits;
use recording_binding::UndrivenRule;
use std::alloc::Global;
use std::slice;
use wave_proved::Wave;

/// A job with its replay, and the limits of its decisions.
#[derive(Clone, Copy)]
pub struct Job<'j> {
    pub alloc: Global,
    pub netlist: &'j Netlist,
    pub recorded: &'j Recorded,
    history: &'j History,
    limits: Limits,
}

impl<'j> Job<'j> {
    /// The wave of its repair.
    pub fn repaired(&self) -> Result<Wave<'j>, RepairErr>
        requires { FitsJob self.now }
    {
        let circuit = circuit_of(self.netlist, self.recorded);
        repair(self.alloc, circuit, self.history, self.limits)
    }

    /// The wave and the conditions of a certificate.
    pub fn checked(&self, cert: Cert) -> Result<Checked<'j>, CheckErr>
        requires { FitsJob self.now }
    {
        let circuit = circuit_of(self.netlist, self.recorded);
        check_cert(self.alloc, cert, circuit, self.history, self.limits)
    }
}

/// What is asked of a job.
#[derive(Clone, Copy)]
pub enum Task {
    Own(Form),
    Check,
}

/// Puts what is asked of the job of a case.
pub fn put_job(alloc: Global, out: &mut Vec<u8>, texts: &Texts, task: Task) -> Result<(), Memory> {
    match netlist_of(alloc, texts) {
        Some(netlist) => put_netlist(alloc, out, texts, task, netlist),
        None => put(out, b"no design\n"),
    }
}

fn netlist_of(alloc: Global, texts: &Texts) -> Option<Netlist>
    ensures { IfSome result FitsNetlist }
{
    read_netlist(alloc, texts.netlist.as_slice(), "top").ok()
}

fn put_netlist(
    alloc: Global,
    out: &mut Vec<u8>,
    texts: &Texts,
    task: Task,
    netlist: Netlist,
) -> Result<(), Memory>
    requires { FitsNetlist netlist }
{
    let mut netlist = netlist;
    put_recording(alloc, out, texts, task, &mut netlist)
}

fn put_recording(
    alloc: Global,
    out: &mut Vec<u8>,
    texts: &Texts,
    task: Task,
    netlist: &mut Netlist,
) -> Result<(), Memory>
    requires { FitsNetlist netlist.old }
{
    match recorded_of(alloc, netlist, texts)? {
        Some(recorded) => put_recorded(alloc, out, texts, task, netlist, &recorded),
        None => put(out, b"no recording\n"),
    }
}

/// The recording of a case.
fn recorded_of(
    alloc: Global,
    netlist: &mut Netlist,
    texts: &Texts,
) -> Result<Option<Recorded>, Memory>
    requires { FitsNetlist netlist.old }
    ensures netlist { IfOk result (λ found. IfSome found (λ _. FitsNetlist netlist.new)) }
    ensures recorded { IfOk result (λ found. IfSome found (FitsRecorded netlist.new.design)) }
{
    let text = texts.recording.as_slice();
    if text.len() > 1 << 28 {
        return Ok(None);
    }
    let scope = Bytes::from_vec(Vec::from_slice(alloc, b"dut")?);
    let rounds = texts.rounds.clamp(1, 16);
    let rules = Rules {
        registers: RegisterRules {
            start: StartRule::Cold,
            levels: Levels::Change,
        },
        undriven: UndrivenRule::Released,
    };
    let scope = slice::from_ref(&scope);
    let settings = Settings {
        scope,
        rounds,
        most: PLACES,
        rules,
    };
    Ok(read_recording(alloc, netlist, text, settings).ok())
}

fn put_recorded(
    alloc: Global,
    out: &mut Vec<u8>,
    texts: &Texts,
    task: Task,
    netlist: &Netlist,
    recorded: &Recorded,
) -> Result<(), Memory>
    requires netlist { FitsNetlist netlist.now }
    requires recorded { FitsRecorded netlist.now.design recorded.now }
{
    match replay_and_compare(alloc, netlist, recorded).ok() {
        Some(history) => {
            let job = Job {
                alloc,
                netlist,
                recorded,
                history: &history,
                limits: Limits {
                    conflicts: texts.conflicts.clamp(1, 100_000),
                    enumerated: 12,
                },
            };
            put_task(out, &job, texts, task)
        }
        None => put(out, b"no replay\n"),
    }
}

fn put_task(out: &mut Vec<u8>, job: &Job<'_>, texts: &Texts, task: Task) -> Result<(), Memory>
    requires { FitsJob job.now }
{
    match task {
        Task::Own(form) => put_own(out, job, form),
        Task::Check => put_checked(out, job, texts),
    }
}
