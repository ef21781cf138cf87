//! The texts of a made job.

use base_lists::Memory;
use cmd_job::read_netlist;
use cmd_make::{made_netlist, made_recording};
use std::alloc::Global;

/// The most gates of a made netlist.
const MOST_GATES: u32 = 100_000;

/// What is made, and the netlist whose design is recorded, where it is another one.
#[derive(Drop)]
pub struct Task {
    pub number: u64,
    pub gates: u32,
    pub netlist: Option<Vec<u8>>,
}

impl Task {
    /// The job of number 0 without gates.
    pub fn new() -> Task {
        Task {
            number: 0,
            gates: 0,
            netlist: None,
        }
    }
}

/// The netlist of a task, or its recording.
pub fn made_text(alloc: Global, task: &Task, kind: &str) -> Result<Vec<u8>, Memory> {
    let netlist = netlist_of(alloc, task)?;
    if kind == "netlist" {
        return Ok(netlist);
    }
    recording_of(alloc, task, netlist.as_slice())
}

fn netlist_of(alloc: Global, task: &Task) -> Result<Vec<u8>, Memory> {
    match &task.netlist {
        Some(text) => Ok(Vec::from_slice(alloc, text.as_slice())?),
        None => made_netlist(alloc, task.number, task.gates.min(MOST_GATES)),
    }
}

fn recording_of(alloc: Global, task: &Task, text: &[u8]) -> Result<Vec<u8>, Memory> {
    match read_netlist(alloc, text, "made") {
        Ok(netlist) => made_recording(
            alloc,
            &netlist.design,
            &netlist.order,
            task.number,
            task.gates,
        ),
        Err(_) => Ok(Vec::from_slice(alloc, b"no design\n")?),
    }
}
