//! The options that commands share, each declared once, and how a command lists its own. docs/USAGE.md has an entry for
//! each, under its name.

use base_line::{Kind, Opt};

/// An option that has to be there.
#[macro_export]
macro_rules! needs {
    ($name:expr, $kind:expr) => {
        Opt {
            name: $name,
            required: true,
            kind: $kind,
        }
    };
}

/// One that may be absent.
#[macro_export]
macro_rules! takes {
    ($name:expr, $kind:expr) => {
        Opt {
            name: $name,
            required: false,
            kind: $kind,
        }
    };
}

/// The options of a command with a job: those of every job, and its own between them.
#[macro_export]
macro_rules! job_options {
    ($($own:expr),*) => {
        &[
            $crate::RECORD,
            $crate::SCOPE,
            $crate::TOP,
            $($own,)*
            $crate::ROUNDS,
            $crate::PLACES,
            $crate::START,
            $crate::LEVELS,
            $crate::UNDRIVEN,
        ]
    };
}

/// The file of the recording.
pub const RECORD: Opt<'static> = needs!("record", Kind::Reads);

/// The scope of the top's instance.
pub const SCOPE: Opt<'static> = needs!("scope", Kind::Scope);

/// The top module.
pub const TOP: Opt<'static> = needs!("top", Kind::Name);

/// The rounds of a moment, 4 where it is absent.
pub const ROUNDS: Opt<'static> = takes!("rounds", Kind::Number(1, 16));

/// The most places, 2^27 where it is absent.
pub const PLACES: Opt<'static> = takes!("places", Kind::Number(1, 1_099_511_627_776));

/// What registers hold before the first step, `cold` where it is absent.
pub const START: Opt<'static> = takes!("start", Kind::Either("cold", "recorded"));

/// When levels decide registers, `change` where it is absent.
pub const LEVELS: Opt<'static> = takes!("levels", Kind::Either("change", "hold"));

/// What nets without a driver have, `released` where it is absent.
pub const UNDRIVEN: Opt<'static> = takes!("undriven", Kind::Either("released", "recorded"));

/// The clauses of a search, 1,000 where it is absent.
pub const CONFLICTS: Opt<'static> = takes!("conflicts", Kind::Number(1, 100_000));

/// The sources of a place at most of which all fillings are tried, 12 where it is absent.
pub const ENUMERATE: Opt<'static> = takes!("enumerate", Kind::Number(12, 16));

/// Which moments of a bit have a line in a report, `all` where it is absent.
pub const REPORT: Opt<'static> = takes!("report", Kind::Either("all", "changes"));
