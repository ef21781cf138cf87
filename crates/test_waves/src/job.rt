//! Jobs from their texts, with their replays.

ghost use Rattle.std.specs.Prelude.{◌≡◌, ◌≤◌, ◌^◌, IfOk, length};
ghost use Rattle.test_waves.specs.Replayed.{IsReplayed};
ghost use Rattle.cmd_job.specs.Netlist.{FitsNetlist};
ghost use Rattle.cmd_job.specs.Recorded.{FitsRecorded};
ghost use Rattle.wave_proved.specs.Contents.{IsFinished};

use crate::asserted::same_items;
use base_lists::Items;
use cmd_job::{
    CompareRefusal, Netlist, PLACES, Recorded, Rules, Settings, circuit_of, put_compare_line,
    read_netlist, read_recording, replay_and_compare,
};
use decide_repair::repair;
use design_cell::Value;
use design_circuit::{Bytes, Forces, History, Levels, RegisterRules, StartRule};
use law_model::Limits;
use recording_binding::UndrivenRule;
use replay_history::replay;
use std::alloc::Global;
use std::test::Fail;
use wave_proved::Wave;

/// An input `a`.
pub const ONE_INPUT: &[u8] = b"module m(a); input a; endmodule";

/// It is x.
pub const UNKNOWN: &[u8] = b"$scope module t $end $var wire 1 ! a $end $enddefinitions $end #0 x!";

/// A netlist, a recording of it, and the replay, which agree.
#[derive(Drop)]
pub struct Job {
    pub netlist: Netlist,
    pub recorded: Recorded,
    pub history: History,
}

impl Job {
    /// The netlist with the top `m`, recorded in the scope `t`, with one round a moment.
    pub fn read(alloc: Global, netlist: &[u8], recording: &[u8]) -> Result<Job, Fail>
        requires { length recording.now ≤ 2 ^ 28 }
        ensures { IfOk result (λ job. IsReplayed job.netlist job.recorded job.history) }
    {
        let mut netlist = read_netlist(alloc, netlist, "m")?;
        let recorded = recorded_in(alloc, &mut netlist, recording)?;
        let history = replay_and_compare(alloc, &netlist, &recorded)?;
        Ok(Job {
            netlist,
            recorded,
            history,
        })
    }

    /// Its wave of which nothing is written.
    pub fn unwritten(&self, alloc: Global) -> Result<Wave<'_>, Fail>
        requires { IsReplayed self.now.netlist self.now.recorded self.now.history }
    {
        let wave = Wave::new(
            alloc,
            circuit_of(&self.netlist, &self.recorded),
            &self.history,
            Limits {
                conflicts: 1,
                enumerated: 12,
            },
        )?;
        Ok(wave)
    }

    /// Its finished wave.
    pub fn repaired(&self, alloc: Global) -> Result<Wave<'_>, Fail>
        requires { IsReplayed self.now.netlist self.now.recorded self.now.history }
        ensures design { IfOk result (λ wave. wave.design ≡ self.now.netlist.design) }
        ensures finished { IfOk result IsFinished }
    {
        let wave = repair(
            alloc,
            circuit_of(&self.netlist, &self.recorded),
            &self.history,
            Limits {
                conflicts: 1,
                enumerated: 12,
            },
        )?;
        Ok(wave)
    }

    fn replayed_again(&self, alloc: Global) -> Result<History, Fail>
        requires { IsReplayed self.now.netlist self.now.recorded self.now.history }
    {
        let forces = Forces::empty(alloc);
        let circuit = circuit_of(&self.netlist, &self.recorded);
        let history = replay(alloc, &circuit, &forces)?;
        Ok(history)
    }

    fn check_replay(&self, alloc: Global) -> Result<(), Fail>
        requires { IsReplayed self.now.netlist self.now.recorded self.now.history }
    {
        let _history = self.replayed_again(alloc)?;
        Ok(())
    }
}

/// What the recording has in the scope `t`.
fn recorded_in(alloc: Global, netlist: &mut Netlist, recording: &[u8]) -> Result<Recorded, Fail>
    requires size { length recording.now ≤ 2 ^ 28 }
    requires fits { FitsNetlist netlist.old }
    ensures netlist { IfOk result (λ _. FitsNetlist netlist.new) }
    ensures recorded { IfOk result (FitsRecorded netlist.new.design) }
{
    let scope = [Bytes::from_vec(b"t".to_vec(alloc)?)];
    let settings = Settings {
        scope: &scope,
        rounds: 1,
        most: PLACES,
        rules: Rules {
            registers: RegisterRules {
                start: StartRule::Cold,
                levels: Levels::Change,
            },
            undriven: UndrivenRule::Released,
        },
    };
    let recorded = read_recording(alloc, netlist, recording, settings)?;
    Ok(recorded)
}

#[test]
fn an_inverter_is_replayed(rt: HostRuntime) -> Result<(), Fail> {
    let netlist = b"module m(a, y); input a; output y; not (y, a); endmodule";
    let recording =
        b"$scope module t $end $var wire 1 ! a $end $var wire 1 # y $end $enddefinitions $end #0 1! 0#";
    let job = Job::read(rt.alloc(), netlist, recording)?;
    job.check_replay(rt.alloc())
}

#[test]
fn a_disagreement_has_its_line(rt: HostRuntime) -> Result<(), Fail> {
    let alloc = rt.alloc();
    let refusal = CompareRefusal::Disagrees {
        time: 10,
        name: Items::from_vec(b"z".to_vec(alloc)?),
        recorded: Value::One,
        replayed: Value::Zero,
    };
    let mut line = Vec::new(alloc);
    put_compare_line(alloc, &mut line, &refusal)?;
    let want = b"refused: disagrees #10 z recorded 1 replayed 0";
    same_items(&rt, "the line", line.as_slice(), want);
    Ok(())
}
