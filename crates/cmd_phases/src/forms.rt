//! The forms of a certificate, and the conditions that it goes with.

ghost use Rattle.std.specs.Prelude.{◌≡◌, IfOk};
ghost use Rattle.cert_check.specs.Entries.{AreConditionsFor};
ghost use Rattle.base_run.specs.Prepared.{Judged};
ghost use Rattle.cmd_phases.specs.Certificate.{FormComes, form_of};
ghost use Rattle.cmd_phases.specs.Phases.{nothing_in, uncertified_cause};

use crate::cause::{Refused, Uncertified};
use base_lists::Memory;
use base_run::Refusal;
use cert_check::{Cert, CertFault, Condition, Form, conditions_of};
use cmd_words::Form as FormWord;
use std::alloc::Global;
use wave_proved::Wave;

/// The form that the words name.
pub fn form_of(form: FormWord) -> Form
    ensures { result ≡ form_of form }
{
    match form {
        FormWord::Lines => Form::Lines,
        FormWord::Turns => Form::Turns,
    }
}

/// A certificate of form 1 stands; one of form 2 is refused for its first line.
pub fn without_turns(cert: &Cert) -> Result<(), Refusal<Refused>>
    ensures { Judged (FormComes cert.now) uncertified_cause nothing_in result }
{
    match cert.form {
        Form::Lines => Ok(()),
        Form::Turns => Err(Refusal::Text {
            cause: Refused::Certificate(Uncertified::Line(CertFault::Header { line: 1 })),
        }),
    }
}

/// The conditions that a certificate of a form of a wave goes with: none in form 1, in form 2 those of all certain Line
/// places, whose turns take the memory of one search at a time.
pub fn conditions_for(alloc: Global, form: Form, wave: &Wave<'_>) -> Result<Vec<Condition>, Memory>
    ensures { IfOk result (λ conditions. AreConditionsFor form wave.now conditions.items) }
{
    match form {
        Form::Lines => Ok(Vec::new(alloc)),
        Form::Turns => conditions_of(alloc, wave),
    }
}
