//! Drawn bits: a function of how many were drawn before alone (splitmix64).

use crate::pool_bits::PoolBits;

/// What is drawn next.
#[derive(Clone, Copy)]
pub(crate) struct Draws {
    state: u64,
}

impl Draws {
    pub(crate) fn new() -> Draws {
        Draws { state: 0 }
    }

    /// 64 bits, each as likely 0 as 1.
    pub(crate) fn draw(&mut self) -> u64 {
        self.state = self.state.wrapping_add(0x9e37_79b9_7f4a_7c15);
        let a = self.state;
        let b = (a ^ (a >> 30)).wrapping_mul(0xbf58_476d_1ce4_e5b9);
        let c = (b ^ (b >> 27)).wrapping_mul(0x94d0_49bb_1331_11eb);
        c ^ (c >> 31)
    }

    /// 64 bits, a sixteenth of them 1.
    fn draw_few(&mut self) -> u64 {
        self.draw() & self.draw() & self.draw() & self.draw()
    }

    /// 64 bits, three eighths of them 1.
    fn draw_some(&mut self) -> u64 {
        self.draw() & (self.draw() | self.draw())
    }

    /// The bits of a source: in a quarter of the parts a sixteenth of them 1, in a quarter all but as many, in a
    /// quarter three eighths, and in the last five eighths.
    pub(crate) fn draw_given(&mut self) -> PoolBits {
        PoolBits::new([
            self.draw_few(),
            !self.draw_few(),
            self.draw_some(),
            !self.draw_some(),
            self.draw_few(),
            !self.draw_few(),
            self.draw_some(),
            !self.draw_some(),
        ])
    }

    /// A bit in 64 variations: in half of them an eighth of the bits are drawn anew, in the others a half.
    pub(crate) fn draw_varied(&mut self, equal: u64) -> u64 {
        let eighth = self.draw() & self.draw() & self.draw() & 0xffff_ffff;
        let half = self.draw() & 0xffff_ffff_0000_0000;
        let anew = eighth | half;
        (equal & !anew) | (self.draw() & anew)
    }
}
