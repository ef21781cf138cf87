//! Laws of waveforms beside those of law_model: of the sources of cones, and laws that compare waveforms, of other
//! lengths, of other histories, and of jobs with other starts. It has no code.
//!
//! The laws of sources let the sources of a place be kept beside it and shared, without its cone: where they come from,
//! and that the world of any choice of bits, seen from a place, is the one in which its sources alone have theirs.
//!
//! Start at specs/Sources.antt and specs/Prefix.antt, the latter worked by hand with the others in WorkedLaws.antt,
//! then Objection.antt, Reshown.antt, Alike.antt, Audit.antt, Starts.antt and Roots.antt.
#![tactic(auto)]

mod laws;
mod sources;
mod worked;

pub use laws::{
    audits_list_the_first, lines_yield_again, objections_are_exact, objections_are_one,
    prefixes_stay, roots_lead, set_starts_choose, sound_waveforms_are_alike,
};
pub use sources::{sources_are_unions, worlds_rest_on_sources};
pub use worked::laws_by_hand;
