//! Draws: a linear congruential generator of 64 bits (Knuth, MMIX).

ghost use Rattle.std.specs.Prelude.{◌≡◌, ◌<◌};
ghost use Rattle.cmd_make.specs.Draw as spec;

const MULTIPLIER: u64 = 6364136223846793005;

const INCREMENT: u64 = 1442695040888963407;

/// What the next draws follow from.
#[derive(Clone, Copy)]
pub struct Draws {
    pub state: u64,
}

impl Draws {
    /// The next draw below a limit.
    #[tactic(auto, unfolding(crate::specs::Draw::draw))]
    pub fn draw(&mut self, limit: u64) -> u64
        requires { 0 < limit }
        ensures drawn { result ≡ spec.draw limit self.old.state }
        ensures after { self.new.state ≡ spec.after_draw self.old.state }
        ensures within { result < limit }
    {
        self.pass();
        (self.state >> 33) % limit
    }

    /// Passes over a draw.
    pub fn pass(&mut self)
        ensures { self.new.state ≡ spec.after_draw self.old.state }
    {
        self.state = after_draw(self.state);
    }
}

/// The state after a draw.
#[tactic(auto, unfolding(crate::specs::Draw::after_draw))]
fn after_draw(state: u64) -> u64
    ensures { result ≡ spec.after_draw state }
{
    state.wrapping_mul(MULTIPLIER).wrapping_add(INCREMENT)
}
