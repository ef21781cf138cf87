//! Why a tree has no design.

ghost use Rattle.std.specs.Prelude.{◌≡◌, Some, None, MatchOption};
ghost use Rattle.elab_nets.specs.Fault.{fault_in, fault_at, fault_name, fault_words, udp_words};
ghost use Rattle.elab_nets.specs.declared.fault.ElabErr.TheVariants.{Memory as OutOfMemory};

use design_cell::UdpErr;
use design_circuit::Bytes;
use std::alloc::{AllocError, AllocFailed};
use std::fmt;

/// Why a tree has no design: the first cause that is met. `at` is the first byte of a token, and a name is without its
/// backslash.
#[derive(Debug, Drop)]
pub enum ElabErr {
    /// The top, or the definition of an instance, isn't there.
    NoModule { name: Bytes },
    /// Two definitions have the name.
    TwoModules { name: Bytes },
    /// The definition stands on the path already.
    SelfInstance { name: Bytes },
    /// The path would have more than 32 modules.
    TooDeep { name: Bytes },
    /// A port, a direction, a connection or a terminal that doesn't match.
    PortMismatch { at: usize },
    /// The two sides of a connection or an assignment differ in width.
    Width { at: usize },
    /// A name or a literal that may not stand here.
    BadName { at: usize },
    /// The net has a driver.
    TwoDrivers { net: u32, at: usize },
    /// The net would be number 2^20.
    TooManyNets { at: usize },
    /// An instance of a sequential primitive with more than 6 live pins.
    TooManyLive { at: usize },
    /// The table of the primitive is refused; `fault` is never want of memory.
    Udp { at: usize, fault: UdpErr },
    Memory,
}

/// What is wrong with a tree: an `ElabErr` that isn't want of memory.
#[derive(Debug, Drop)]
pub enum ElabFault {
    NoModule { name: Bytes },
    TwoModules { name: Bytes },
    SelfInstance { name: Bytes },
    TooDeep { name: Bytes },
    PortMismatch { at: usize },
    Width { at: usize },
    BadName { at: usize },
    TwoDrivers { net: u32, at: usize },
    TooManyNets { at: usize },
    TooManyLive { at: usize },
    Udp { at: usize, fault: UdpErr },
}

impl ElabErr {
    /// What is wrong with the tree, `None` exactly for want of memory.
    pub fn fault(self) -> Option<ElabFault>
        ensures { result ≡ fault_in self }
    {
        match self {
            ElabErr::NoModule { name } => Some(ElabFault::NoModule { name }),
            ElabErr::TwoModules { name } => Some(ElabFault::TwoModules { name }),
            ElabErr::SelfInstance { name } => Some(ElabFault::SelfInstance { name }),
            ElabErr::TooDeep { name } => Some(ElabFault::TooDeep { name }),
            ElabErr::PortMismatch { at } => Some(ElabFault::PortMismatch { at }),
            ElabErr::Width { at } => Some(ElabFault::Width { at }),
            ElabErr::BadName { at } => Some(ElabFault::BadName { at }),
            ElabErr::TwoDrivers { net, at } => Some(ElabFault::TwoDrivers { net, at }),
            ElabErr::TooManyNets { at } => Some(ElabFault::TooManyNets { at }),
            ElabErr::TooManyLive { at } => Some(ElabFault::TooManyLive { at }),
            ElabErr::Udp { at, fault } => Some(ElabFault::Udp { at, fault }),
            ElabErr::Memory => None,
        }
    }
}

impl ElabFault {
    /// The byte that is at fault, counted from 0, where a byte is.
    pub fn at(&self) -> Option<usize>
        ensures { result ≡ fault_at self.now }
    {
        match self {
            ElabFault::PortMismatch { at } => Some(*at),
            ElabFault::Width { at } => Some(*at),
            ElabFault::BadName { at } => Some(*at),
            ElabFault::TwoDrivers { at, .. } => Some(*at),
            ElabFault::TooManyNets { at } => Some(*at),
            ElabFault::TooManyLive { at } => Some(*at),
            ElabFault::Udp { at, .. } => Some(*at),
            _ => None,
        }
    }

    /// The name of the definition that is at fault, where a definition is.
    pub fn name(&self) -> Option<&[u8]>
        ensures { MatchOption result (fault_name self.now ≡ None) (λ name. fault_name self.now ≡ Some name.now) }
    {
        match self {
            ElabFault::NoModule { name } => Some(name.as_slice()),
            ElabFault::TwoModules { name } => Some(name.as_slice()),
            ElabFault::SelfInstance { name } => Some(name.as_slice()),
            ElabFault::TooDeep { name } => Some(name.as_slice()),
            _ => None,
        }
    }
}

/// The words of a refusal, without the byte or the name.
impl fmt::Display for ElabFault {
    ghost output = { λ fault. Some (fault_words fault) };

    fn fmt<W: fmt::Write>(&self, f: &mut fmt::Formatter<W>) -> fmt::Result {
        match self {
            ElabFault::NoModule { .. } => write!(f, "no module"),
            ElabFault::TwoModules { .. } => write!(f, "two modules"),
            ElabFault::SelfInstance { .. } => write!(f, "instance of itself"),
            ElabFault::TooDeep { .. } => write!(f, "too deep"),
            ElabFault::PortMismatch { .. } => write!(f, "port mismatch"),
            ElabFault::Width { .. } => write!(f, "width"),
            ElabFault::BadName { .. } => write!(f, "bad name"),
            ElabFault::TwoDrivers { .. } => write!(f, "two drivers"),
            ElabFault::TooManyNets { .. } => write!(f, "too many nets"),
            ElabFault::TooManyLive { .. } => write!(f, "too many live pins"),
            ElabFault::Udp { fault, .. } => write!(f, "{}", UdpWords(*fault)),
        }
    }
}

/// The words of what is wrong with a primitive's table. Rows are counted from 1.
#[derive(Clone, Copy)]
struct UdpWords(UdpErr);

impl fmt::Display for UdpWords {
    ghost output = { λ words. Some (udp_words words.0) };

    fn fmt<W: fmt::Write>(&self, f: &mut fmt::Formatter<W>) -> fmt::Result {
        match self.0 {
            UdpErr::TooManyInputs => write!(f, "too many inputs"),
            UdpErr::RowLength { row } => write!(f, "row {row} length"),
            UdpErr::BadSymbol { row } => write!(f, "row {row} symbol"),
            UdpErr::TwoEdges { row } => write!(f, "row {row} two edges"),
            UdpErr::Conflict { first, second } => write!(f, "rows {first} and {second} conflict"),
            UdpErr::Memory => write!(f, "memory"),
        }
    }
}

impl From<AllocError> for ElabErr {
    ghost from_gives = { λ _ refusal. refusal ≡ OutOfMemory };

    fn from(_: AllocError) -> ElabErr {
        ElabErr::Memory
    }
}

impl<T: Drop> From<AllocFailed<T>> for ElabErr {
    ghost from_gives = { λ _ refusal. refusal ≡ OutOfMemory };

    fn from(_: AllocFailed<T>) -> ElabErr {
        ElabErr::Memory
    }
}
