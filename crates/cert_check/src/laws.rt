//! The laws of certificates. None of these functions does anything: what each ensures is a law, proved here once.

ghost use Rattle.cert_check.specs.Laws as spec;

/// Beside want of memory, the lines of a certificate have one first fault, or they have none and the certificate is
/// checked.
pub fn faults_are_one()
    ensures one { spec.OneFault }
    ensures none { spec.CheckedHasNone }
{}

/// A certificate that is accepted is refused for nothing: its check gives its waveform, or there is no memory.
pub fn accepted_is_not_refused()
    ensures { spec.AcceptedHasNone }
{}

/// A text stands for at most one certificate.
pub fn texts_stand_for_one()
    ensures { spec.TextsStandForOne }
{}

/// The certificate of a finished wave that went along lines, as a repair's does, is accepted, and yields the wave.
pub fn own_certificate_is_accepted()
    ensures { spec.OwnAccepted }
{}

/// The text of a wave that went along lines, as a repair's does, stands for its certificate, and so is read as that.
pub fn own_text_reads_back()
    ensures { spec.OwnTextStands }
{}

/// The places that a check of a certificate names are those of the job: one that lacks its line, and one that the
/// history knows otherwise.
pub fn refusals_name_places()
    ensures missing { spec.MissingIsPlace }
    ensures objection { spec.ObjectionIsPlace }
{}
