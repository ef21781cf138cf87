//! The commands by their words, and the form of each.

ghost use Rattle.std.specs.Prelude.{◌≡◌, ◌∷◌, IfSome, IfNone, map, string_bytes};
ghost use Rattle.cmd_set.specs.Set.{AreOutside};
ghost use Rattle.cmd_program.specs.Commands.{command_of, word_of};

use crate::commands::Name;
use crate::commands::audit::Audit;
use crate::commands::blame::Blame;
use crate::commands::check::Check;
use crate::commands::export::Export;
use crate::commands::fix::Fix;
use crate::commands::make::Make;
use crate::commands::prove::Prove;
use crate::commands::repair::Repair;
use crate::commands::replay::Replay;
use crate::commands::upgrade::Upgrade;
use cmd_set::{Form, Run};

/// The form of a command's line.
pub fn form_of<'a>(name: Name) -> Form<'a>
    ensures { result.word.now ≡ word_of name }
{
    match name {
        Name::Repair => Repair::form(),
        Name::Replay => Replay::form(),
        Name::Check => Check::form(),
        Name::Make => Make::form(),
        Name::Export => Export::form(),
        Name::Prove => Prove::form(),
        Name::Audit => Audit::form(),
        Name::Blame => Blame::form(),
        Name::Fix => Fix::form(),
        Name::Upgrade => Upgrade::form(),
    }
}

/// The command that words begin with, if any, and the words after it.
pub fn command_in(words: &[String]) -> Option<(Name, &[String])>
    ensures begins { IfSome result (λ found. map string_bytes words.now
        ≡ word_of found.0 ∷ map string_bytes found.1.now) }
    ensures none { IfNone result (AreOutside command_of (map string_bytes words.now)) }
{
    let (first, rest) = words.split_first()?;
    let name = name_of(first.as_str())?;
    Some((name, rest))
}

/// The command that a word names, if any.
fn name_of(word: &str) -> Option<Name>
    ensures named { IfSome result (λ name. word.now ≡ word_of name) }
    ensures none { IfNone result ((name : Name) → word.now ≡ word_of name → ⊥) }
{
    match word {
        "repair" => Some(Name::Repair),
        "replay" => Some(Name::Replay),
        "check" => Some(Name::Check),
        "make" => Some(Name::Make),
        "export" => Some(Name::Export),
        "prove" => Some(Name::Prove),
        "audit" => Some(Name::Audit),
        "blame" => Some(Name::Blame),
        "fix" => Some(Name::Fix),
        "upgrade" => Some(Name::Upgrade),
        _ => None,
    }
}
