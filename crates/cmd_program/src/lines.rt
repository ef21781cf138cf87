//! Which lines of bits a report has, as an option says.

ghost use Rattle.std.specs.Prelude.{◌≡◌, Some, IfSome, IfNone, option_map};
ghost use Rattle.cmd_program.specs.Lines.{IsLines};
ghost use Rattle.report_bits.specs.declared.lines.ReportLines.{ReportLines};

use report_bits::ReportLines;

/// The lines that an option names, those of all moments where it is absent.
pub fn lines_of(text: Option<&str>) -> Option<ReportLines>
    ensures lines { IfSome result (IsLines (option_map (λ s. s.now) text.entry)) }
    ensures none { IfNone result ((lines : ReportLines) → IsLines (option_map (λ s. s.now) text.entry) lines → ⊥) }
{
    match text {
        Some(text) => lines_in(text),
        None => Some(ReportLines::All),
    }
}

fn lines_in(text: &str) -> Option<ReportLines>
    ensures lines { IfSome result (IsLines (Some text.now)) }
    ensures none { IfNone result ((lines : ReportLines) → IsLines (Some text.now) lines → ⊥) }
{
    match text {
        "all" => Some(ReportLines::All),
        "changes" => Some(ReportLines::Changes),
        _ => None,
    }
}
