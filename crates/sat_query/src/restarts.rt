//! When a search begins anew with what it learned: after 100 conflicts, then each time after half as many more.

const FIRST: u32 = 100;

/// So many conflicts are allowed, and so many more come before the next restart.
#[derive(Clone, Copy, Debug)]
pub(crate) struct Restarts {
    allowed: u32,
    wait: u32,
    left: u32,
}

impl Restarts {
    pub(crate) fn new(allowed: u32) -> Restarts {
        Restarts {
            allowed,
            wait: FIRST,
            left: FIRST,
        }
    }

    /// One more conflict; whether it is one too many.
    pub(crate) fn is_over(&mut self) -> bool {
        if self.allowed == 0 {
            return true;
        }
        self.allowed -= 1;
        false
    }

    /// The conflict is dealt with; whether to restart.
    pub(crate) fn is_due(&mut self) -> bool {
        if self.left > 1 {
            self.left -= 1;
            return false;
        }
        self.wait = self.wait.saturating_add(self.wait / 2);
        self.left = self.wait;
        true
    }
}
