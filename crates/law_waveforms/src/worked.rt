//! The words of the laws worked by hand: what this function ensures, the definitions compute.

ghost use Rattle.law_waveforms.specs.WorkedLaws as worked;

/// A root, the lines of a prefix, a waveform shown for another history, and fillings with a start that is set.
pub fn laws_by_hand()
    ensures root { worked.MuxRoot }
    ensures none_before { worked.MuxLinesBefore }
    ensures all_before { worked.MuxLinesOfAll }
    ensures reshown { worked.MuxReshown }
    ensures set_to_one { worked.SetToOne }
    ensures set_to_zero { worked.SetToZero }
{}
