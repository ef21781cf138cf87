//! When to restart: after 100 conflicts times the numbers of Luby, Sinclair and Zuckerman: 1, 1, 2, 1, 1, 2, 4, ..

const UNIT: u64 = 100;

/// The pair that gives the numbers one by one, in constant time each (Knuth), and the conflicts up to the next restart.
#[derive(Clone, Copy, Debug)]
pub(crate) struct Restarts {
    upper: u64,
    lower: u64,
    left: u64,
}

impl Restarts {
    pub(crate) fn new() -> Restarts {
        Restarts {
            upper: 1,
            lower: 1,
            left: UNIT,
        }
    }

    /// One more conflict; whether to restart.
    pub(crate) fn is_due(&mut self) -> bool {
        if self.left > 1 {
            self.left -= 1;
            return false;
        }
        self.step();
        self.left = UNIT.saturating_mul(self.lower);
        true
    }

    fn step(&mut self) {
        if self.upper & self.upper.wrapping_neg() == self.lower {
            self.upper = self.upper.wrapping_add(1);
            self.lower = 1;
        } else {
            self.lower = self.lower.wrapping_mul(2);
        }
    }
}
