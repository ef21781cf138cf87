//! Laws of words and of answers. None of these functions does anything: what each ensures is a law, proved here once.

ghost use Rattle.cmd_program.specs.Laws as spec;

/// Words have at most one meaning.
pub fn words_mean_one()
    ensures { spec.WordsMeanOne }
{}

/// Where the shelf reports the files that it reads, what a command of the set finds says what is promised.
pub fn answers_say_what_is_promised()
    ensures { spec.AnswersSay }
{}

/// The certificate that `repair` writes at status 0 is in order for a `check` of the same job: so it is refused neither
/// with status 13 nor with status 10.
pub fn own_certificate_is_checkable()
    ensures { spec.OwnIsCheckable }
{}
