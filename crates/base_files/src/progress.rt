//! How far a long run has come, shown to a person.

ghost use Rattle.std.specs.Prelude.{◌≡◌, false, None};
ghost use Rattle.base_files.specs.Progress.{IsSpaced};

use std::fmt;
use std::io::Eprint;
use std::time::{Clock, Instant};

/// How long a line stands at least before the next one, in milliseconds.
const PAUSE: u128 = 500;

/// Shows how far a long run has come: one line on standard error, written over itself at most twice a second. Where
/// standard error is no terminal, it shows nothing.
#[derive(Drop)]
pub struct Progress<'a, R: Clock + Eprint> {
    rt: &'a R,
    is_terminal: bool,
    begun: Option<Instant>,
    shown: Option<Instant>,
}

impl<'a, R: Clock + Eprint> Progress<'a, R> {
    /// Nothing shown yet.
    pub fn new(rt: &'a R, is_terminal: bool) -> Progress<'a, R>
        ensures terminal { result.is_terminal ≡ is_terminal }
        ensures nothing { result.shown ≡ None }
    {
        Progress {
            rt,
            is_terminal,
            begun: None,
            shown: None,
        }
    }

    /// Shows so many places done of all, unless the last line is too new.
    pub fn show(&mut self, done: usize, all: usize)
        ensures terminal { self.new.is_terminal ≡ self.old.is_terminal }
        ensures quiet { self.old.is_terminal ≡ false → self.new ≡ self.old }
        ensures spaced { IsSpaced self.old.shown self.new.shown }
    {
        if !self.is_terminal {
            return;
        }
        if let Ok(now) = Instant::now(self.rt) {
            self.show_at(now, done, all);
        }
    }

    fn show_at(&mut self, now: Instant, done: usize, all: usize)
        ensures terminal { self.new.is_terminal ≡ self.old.is_terminal }
        ensures spaced { IsSpaced self.old.shown self.new.shown }
    {
        let begun = self.begun.unwrap_or(now);
        self.begun = Some(begun);
        let last = self.shown.unwrap_or(begun);
        if now.duration_since(last).as_millis() < PAUSE {
            return;
        }
        self.shown = Some(now);
        let seconds = now.duration_since(begun).as_secs();
        let _ = self.rt.eprint(Walked { done, all, seconds });
    }

    /// Ends the line, where one is shown.
    pub fn end(&self) {
        if self.shown.is_some() {
            let _ = self.rt.eprintln("");
        }
    }
}

/// So many places done of all, in so many seconds.
#[derive(Drop)]
struct Walked {
    done: usize,
    all: usize,
    seconds: u64,
}

impl fmt::Display for Walked {
    fn fmt<W: fmt::Write>(&self, f: &mut fmt::Formatter<W>) -> fmt::Result {
        write!(
            f,
            "\r{} of {} places, {} s",
            self.done, self.all, self.seconds
        )
    }
}
