//! What a table says of a node: minimal choices of bits for its arguments, and the bits that they force.

/// Where the arguments that are chosen have their bits, the node has a bit. Bit k of `care` says whether argument k is
/// chosen, bit k of `bits` is its bit.
#[derive(Clone, Copy, Debug)]
pub struct Implication {
    pub care: u16,
    pub bits: u16,
    pub forced: bool,
}

/// What an implication makes of known bits.
#[derive(Clone, Copy, Debug)]
pub(crate) enum Force {
    /// Nothing.
    Nothing,
    /// The node has its bit.
    Node,
    /// The argument whose mark is this hasn't its bit.
    Argument(u16),
}

/// The bits of a node's arguments that are known, by marks: argument k has the mark 2^k.
#[derive(Clone, Copy, Debug)]
pub(crate) struct Known {
    pub(crate) care: u16,
    pub(crate) bits: u16,
    pub(crate) all: u16,
}

impl Known {
    /// No argument.
    pub(crate) fn none() -> Known {
        Known {
            care: 0,
            bits: 0,
            all: 0,
        }
    }

    /// With one more argument, by its mark and its bit, if that is known.
    pub(crate) fn with(self, mark: u16, value: Option<bool>) -> Known {
        let all = self.all | mark;
        match value {
            None => Known { all, ..self },
            Some(false) => Known {
                care: self.care | mark,
                bits: self.bits,
                all,
            },
            Some(true) => Known {
                care: self.care | mark,
                bits: self.bits | mark,
                all,
            },
        }
    }

    /// Whether the bit of each argument is known.
    pub(crate) fn is_full(self) -> bool {
        self.care == self.all
    }
}

impl Implication {
    /// One that is never used: it chooses 16 arguments.
    pub(crate) fn none() -> Implication {
        Implication {
            care: 0xffff,
            bits: 0,
            forced: false,
        }
    }

    /// Whether an argument that is chosen has another bit.
    pub(crate) fn is_off(self, known: Known) -> bool {
        (self.bits ^ known.bits) & self.care & known.care != 0
    }

    /// The marks of the arguments that are chosen and not known.
    pub(crate) fn open(self, known: Known) -> u16 {
        self.care & !known.care
    }

    /// Whether the argument of a mark is chosen, and its bit.
    pub(crate) fn chosen(self, mark: u16) -> Option<bool> {
        if self.care & mark == 0 {
            None
        } else {
            Some(self.bits & mark != 0)
        }
    }

    /// What follows from the known bits of the arguments and from the node's own.
    pub(crate) fn force(self, known: Known, own: Option<bool>) -> Force {
        if self.is_off(known) {
            return Force::Nothing;
        }
        let open = self.open(known);
        if open == 0 {
            return Force::Node;
        }
        if is_single(open) && is_other(own, self.forced) {
            Force::Argument(open)
        } else {
            Force::Nothing
        }
    }
}

/// Whether at most one bit is set.
fn is_single(marks: u16) -> bool {
    marks & marks.wrapping_sub(1) == 0
}

/// Whether a value is known and another bit.
fn is_other(value: Option<bool>, bit: bool) -> bool {
    match value {
        None => false,
        Some(known) => known != bit,
    }
}
