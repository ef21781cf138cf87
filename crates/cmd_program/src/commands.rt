//! The commands, a file each.

pub mod audit;
pub mod blame;
pub mod check;
pub mod export;
pub mod fix;
pub mod make;
pub mod prove;
pub mod repair;
pub mod replay;
pub mod upgrade;

/// A command.
#[derive(Clone, Copy, Debug, PartialEq, Eq)]
pub enum Name {
    Repair,
    Replay,
    Check,
    Make,
    Export,
    Prove,
    Audit,
    Blame,
    Fix,
    Upgrade,
}

/// Every command.
pub const NAMES: [Name; 10] = [
    Name::Repair,
    Name::Replay,
    Name::Check,
    Name::Make,
    Name::Export,
    Name::Prove,
    Name::Audit,
    Name::Blame,
    Name::Fix,
    Name::Upgrade,
];
