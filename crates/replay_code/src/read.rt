//! Reading code: the forces that a text says, or its first fault.

ghost use Rattle.std.specs.Prelude.{◌≡◌, IfErr, IfOk, IfSome};
ghost use Rattle.design_circuit.specs.Circuit.{job_in};
ghost use Rattle.design_circuit.specs.Design.{FitsDesign};
ghost use Rattle.design_circuit.specs.Force.{AreEvents};
ghost use Rattle.replay_code.specs.Code.{code_in};
ghost use Rattle.replay_code.specs.Fault.{fault_in};
ghost use Rattle.replay_code.specs.Laws.{OwnIsRead};
ghost use Rattle.replay_code.specs.Says.{CodeSays, FirstFault, IsRead};

use crate::code::Code;
use crate::refusal::CodeErr;
use crate::tokens::read_statements;
use design_circuit::{Bytes, Circuit, Forces};
use replay_forces::changes_of;
use std::alloc::Global;

/// The forces that a code text says, by the names of a circuit's nets in a scope and the times of its stimulus, or the
/// text's first fault.
///
/// Time is linear in the text, in the nets and in the steps. Memory is 12 to 16 bytes for each statement, those of the
/// forces, and the names of the nets.
pub fn read_code(
    alloc: Global,
    bytes: &[u8],
    circuit: &Circuit<'_>,
    scope: &[Bytes],
) -> Result<Forces, CodeErr>
    requires { FitsDesign circuit.now.design.now }

    // What is read is what the text says, and events of the job, which can be replayed.
    ensures found { IfOk result (CodeSays (code_in bytes.now circuit.now scope.now)) }
    ensures events { IfOk result (AreEvents (job_in circuit.now)) }

    // What a text says is read, unless memory runs out, and as one list.
    ensures only { IsRead (code_in bytes.now circuit.now scope.now) result }

    // What `write_code` writes of forces is read as these.
    ensures own { OwnIsRead (code_in bytes.now circuit.now scope.now) result }

    // A refusal is the text's first fault.
    ensures first { IfErr result (λ e. IfSome (fault_in e) (FirstFault (code_in bytes.now circuit.now scope.now))) }
{
    let code = Code {
        text: bytes,
        design: circuit.design,
        order: circuit.order,
        stim: circuit.stim,
        scope,
    };
    let statements = read_statements(alloc, code)?;
    Ok(changes_of(alloc, circuit, statements.as_slice())?)
}
