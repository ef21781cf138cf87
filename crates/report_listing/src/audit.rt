//! The text of the places that a replay knows otherwise, and of what gave them.

ghost use Rattle.std.specs.Prelude.{◌≡◌, IfOk};
ghost use Rattle.std.specs.List.{AllByRecursion};
ghost use Rattle.report_audit.specs.Found.{HasPlace};
ghost use Rattle.report_audit.specs.Listed.{IsAudit};
ghost use Rattle.report_listing.specs.Audit as spec;
ghost use Rattle.wave_proved.specs.Contents.{job};

use crate::found::{put_audit_head, put_found, put_groups};
use base_lists::Memory;
use design_circuit::History;
use report_audit::{Audit, audit_of};
use std::alloc::Global;
use wave_proved::Wave;

/// A line of numbers, a line for each place that the replay knows and a finished wave of the blank history has
/// otherwise, and a line for each row of a primitive that gave origins among them.
///
/// Takes what `audit_of` takes, and the text's bytes.
pub fn audit_text(alloc: Global, wave: &Wave<'_>, replayed: &History) -> Result<Vec<u8>, Memory>
    requires { IsAudit wave.now replayed.now }
    ensures { IfOk result (λ text. spec.TellsAudit wave.now replayed.now text.items) }
{
    let audit = audit_of(alloc, wave, replayed)?;
    told_text(alloc, wave, &audit)
}

#[tactic(auto, unfolding(crate::specs::Audit::audit_text))]
fn told_text(alloc: Global, wave: &Wave<'_>, audit: &Audit) -> Result<Vec<u8>, Memory>
    requires { AllByRecursion (HasPlace (job wave.now)) audit.now.listed.items }
    ensures { IfOk result (λ text. text.items
        ≡ spec.audit_text wave.now audit.now.listed.items audit.now.groups.items audit.now.unsure) }
{
    let listed = audit.listed.as_slice();
    let mut text = Vec::new(alloc);
    put_audit_head(alloc, &mut text, wave, listed.len(), audit.unsure)?;
    put_found(alloc, &mut text, wave, listed)?;
    put_groups(&mut text, audit.groups.as_slice())?;
    Ok(text)
}
