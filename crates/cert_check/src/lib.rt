//! Certificates of both forms: written from a finished wave and its conditions, read, and checked by themselves. A
//! certificate that is checked gives a finished wave, sound and yielded by exactly its lines, and in form 2 the
//! conditions that its turns make; any other is refused with its first fault.
//!
//! Start at `check_cert` and specs/Checked.antt, then at specs/Walk.antt and specs/Entries.antt; specs/Standing.antt
//! says where the walk of the code stands between two lines.
#![tactic(auto)]

mod bodies;
mod check;
mod due;
mod laws;
mod lines;
mod logs;
mod pairs;
mod refusal;
mod text;
mod told;
mod turned;
mod walk;
mod walked;
mod written;

pub use cert_turns::{Condition, conditions_of};
pub use cert_writer::{Cert, Entry, Form, Head};
pub use check::{Checked, check_cert};
pub use laws::{
    accepted_is_not_refused, faults_are_one, own_certificate_is_accepted, own_text_reads_back,
    refusals_name_places, texts_stand_for_one,
};
pub use refusal::{CertErr, CertFault, CheckErr};
pub use text::{read_cert, write_cert};
