//! The cases of a sweep that a row takes, by their digits: the first three columns pick a bit of a word, the next three
//! and the last four pick the word. Each word stands three times, once for each output.

ghost use Rattle.std.specs.Prelude.{◌≡◌, ◌<◌, ◌≤◌, ◌==◌, length};
ghost use Rattle.design_cell.specs.Digits.{digit, triple, four, has, IsTriple, middle_end, high_end, word_count, place};
ghost use Rattle.design_cell.specs.Digits.{Marks};

use crate::index::with_bit;

/// The digits that each column of a row takes, the middle and the low parts of its cases, and the code of its output.
#[derive(Clone, Copy)]
pub struct Taken {
    pub inputs: usize,
    pub digits: [bool; 30],
    pub middle: u64,
    pub low: u64,
    pub output: usize,
    pub ghost small_output: { output < 3 },
}

impl Taken {
    ghost use Rattle.design_cell.specs.Marks.{meets_output, meets_word, meets_middle, meets_middles, meets_high};
    ghost use Rattle.design_cell.specs.Marks.{meets};
    ghost use Rattle.design_cell.specs.Marks.{covers_middle, covers_middles, covers_high, covers};

    /// Whether one of its cases is marked for another output.
    #[tactic(auto, unfolding(crate::specs::Marks::meets))]
    pub fn meets(&self, seen: &[u64]) -> bool
        requires { length seen.now ≡ 6561 }
        ensures { result ≡ meets self.now seen.now }
    {
        let mut any = false;
        for high in 0..high_end(self.inputs) {
            any = any || self.meets_high(seen, high);
        }
        any
    }

    #[tactic(auto, unfolding(crate::specs::Marks::meets_high))]
    fn meets_high(&self, seen: &[u64], high: usize) -> bool
        requires room { length seen.now ≡ 6561 }
        requires high { high < 81 }
        ensures { result ≡ meets_high self.now seen.now high }
    {
        four(&self.digits, high) && self.meets_middles(seen, high)
    }

    fn meets_middles(&self, seen: &[u64], high: usize) -> bool
        requires room { length seen.now ≡ 6561 }
        requires high { high < 81 }
        ensures { result ≡ meets_middles self.now seen.now high }
    {
        let mut any = false;
        for middle in 0..middle_end(self.inputs) {
            any = any || self.meets_middle(seen, high, middle);
        }
        any
    }

    #[tactic(auto, unfolding(crate::specs::Marks::meets_middle))]
    fn meets_middle(&self, seen: &[u64], high: usize, middle: usize) -> bool
        requires room { length seen.now ≡ 6561 }
        requires high { high < 81 }
        requires middle { middle < 27 }
        ensures { result ≡ meets_middle self.now seen.now high middle }
    {
        has(self.middle, middle) && self.meets_word(seen, high, middle)
    }

    #[tactic(auto, unfolding(crate::specs::Marks::meets_word))]
    fn meets_word(&self, seen: &[u64], high: usize, middle: usize) -> bool
        requires room { length seen.now ≡ 6561 }
        requires high { high < 81 }
        requires middle { middle < 27 }
        ensures { result ≡ meets_word self.now seen.now high middle }
    {
        let next = place(high, middle, (self.output + 1) % 3);
        let last = place(high, middle, (self.output + 2) % 3);
        self.meets_output(seen, next) || self.meets_output(seen, last)
    }

    #[tactic(auto, unfolding(crate::specs::Marks::meets_output))]
    fn meets_output(&self, seen: &[u64], place: usize) -> bool
        requires room { place < length seen.now }
        ensures { result ≡ meets_output self.now seen.now place }
    {
        seen[place] & self.low != 0
    }

    /// Marks its cases for its output.
    #[tactic(auto, unfolding(crate::specs::Marks::covers))]
    pub fn mark(&self, seen: &mut [u64])
        requires { length seen.old ≡ 6561 }
        ensures room { length seen.new ≡ 6561 }
        ensures marks { Marks seen.old seen.new (covers self.now) self.now.low }
    {
        for high in 0..high_end(self.inputs) {
            self.mark_high(seen, high);
        }
    }

    #[tactic(auto, unfolding(crate::specs::Marks::covers_high))]
    fn mark_high(&self, seen: &mut [u64], high: usize)
        requires room { length seen.old ≡ 6561 }
        requires high { high < 81 }
        ensures room { length seen.new ≡ 6561 }
        ensures marks { Marks seen.old seen.new (λ p. covers_high self.now p high) self.now.low }
    {
        if four(&self.digits, high) {
            self.mark_middles(seen, high);
        }
    }

    fn mark_middles(&self, seen: &mut [u64], high: usize)
        requires room { length seen.old ≡ 6561 }
        requires high { high < 81 }
        ensures room { length seen.new ≡ 6561 }
        ensures marks { Marks seen.old seen.new (λ p. covers_middles self.now p high) self.now.low }
    {
        for middle in 0..middle_end(self.inputs) {
            self.mark_middle(seen, high, middle);
        }
    }

    #[tactic(auto, unfolding(crate::specs::Marks::covers_middle))]
    fn mark_middle(&self, seen: &mut [u64], high: usize, middle: usize)
        requires room { length seen.old ≡ 6561 }
        requires high { high < 81 }
        requires middle { middle < 27 }
        ensures room { length seen.new ≡ 6561 }
        ensures marks { Marks seen.old seen.new (λ p. covers_middle self.now p high middle) self.now.low }
    {
        if has(self.middle, middle) {
            mark_word(seen, place(high, middle, self.output), self.low);
        }
    }
}

fn mark_word(seen: &mut [u64], place: usize, low: u64)
    requires { place < length seen.old }
    ensures room { length seen.new ≡ length seen.old }
    ensures marks { Marks seen.old seen.new (λ p. p == place) low }
{
    seen[place] |= low;
}

/// The place of a word.
fn place(high: usize, middle: usize, output: usize) -> usize
    requires high { high < 81 }
    requires middle { middle < 27 }
    requires output { output < 3 }
    ensures place { result ≡ place high middle output }
    ensures within { result < 6561 }
{
    3 * (27 * high + middle) + output
}

/// Whether three columns take the digits of a number, the lowest digit first.
#[tactic(auto, unfolding(crate::specs::Digits::triple))]
fn triple(digits: &[bool; 30], c: usize, number: usize) -> bool
    requires columns { c < 7 }
    requires number { number < 27 }
    ensures { result ≡ triple (digit digits.now) c number }
{
    digits[3 * c + number % 3]
        && digits[3 * (c + 1) + number / 3 % 3]
        && digits[3 * (c + 2) + number / 9]
}

/// Whether the last four columns take the digits of a number.
#[tactic(auto, unfolding(crate::specs::Digits::four))]
fn four(digits: &[bool; 30], number: usize) -> bool
    requires { number < 81 }
    ensures { result ≡ four (digit digits.now) number }
{
    triple(digits, 6, number % 27) && digits[27 + number / 27]
}

/// The numbers whose digits three columns take.
pub fn triples(digits: &[bool; 30], c: usize) -> u64
    requires { c < 7 }
    ensures { IsTriple (digit digits.now) c result }
{
    let mut word = 0;
    for number in 0..27 {
        if triple(digits, c, number) {
            word = with_bit(word, number);
        }
    }
    word
}

fn has(word: u64, place: usize) -> bool
    requires { place < 64 }
    ensures { result ≡ has word place }
{
    word >> place & 1 == 1
}

/// How many middle parts of a case there are.
#[tactic(auto, unfolding(crate::specs::Digits::middle_end))]
fn middle_end(inputs: usize) -> usize
    ensures end { result ≡ middle_end inputs }
    ensures few { result ≤ 27 }
{
    if inputs <= 3 { 1 } else { 27 }
}

/// How many high parts of a case there are.
#[tactic(auto, unfolding(crate::specs::Digits::high_end))]
fn high_end(inputs: usize) -> usize
    ensures end { result ≡ high_end inputs }
    ensures few { result ≤ 81 }
{
    if inputs <= 6 { 1 } else { 81 }
}

/// How many words there are for each output.
#[tactic(auto, unfolding(crate::specs::Digits::word_count))]
pub fn word_count(inputs: usize) -> usize
    ensures count { result ≡ word_count inputs }
    ensures few { result ≤ 2187 }
{
    middle_end(inputs) * high_end(inputs)
}
