//! The packet numbers that were received in one packet number space, and their ranges for an ACK frame (RFC 9000 section 12.3).

ghost use Rattle.std.specs.Prelude.{◌≡◌, ℕ, ◌+◌, ◌-◌, ◌*◌, ◌/◌, ◌%◌, ◌<◌, ◌≤◌, ◌↔◌, if◌then◌else◌, length, IsTrue, MatchOption};
ghost use Rattle.quic_packets.specs.Numbers.{expected};
ghost use Rattle.quic_packets.specs.Packet.{IsNumber};
ghost use Rattle.quic_packets.specs.Space.{IsNew, IsReceived, Marks, ShareBit, bit_of, new_space};

use std::marker::Model;
use std::ops::Range;

/// How many packet numbers one word of the window has.
const WORD: u64 = u64::BITS as u64;

/// The largest packet number that was received in one space, and which of the `64 * W` numbers up to it were. `W` is from 2 to
/// 64.
///
/// 0-RTT and 1-RTT packets share one space. Initial and Handshake packets have one each (RFC 9000 section 12.3).
#[derive(Drop)]
pub struct Space<const W: usize> {
    /// The number after the largest that was received, or 0.
    next: u64,
    /// The bits of the numbers in the window: bit `n % 64` of word `n / 64 % W` is 1 if `n` was received.
    seen: [u64; W],
}

impl<const W: usize> Model for Space<W> {
    ghost use Rattle.std.specs.Prelude.{◌^◌, ◌≤◌};
    ghost use Rattle.quic_packets.specs.Space.{Space};

    ghost Value = { Space };

    ghost view = { λ space. record { next = space.next; seen = space.seen } };

    ghost invariant = { λ space. (space.next ≤ 2 ^ 62) × (2 ≤ W) × (W ≤ 64) };
}

impl<const W: usize> Space<W> {
    /// Creates a space in which no number was received.
    pub fn new() -> Self
        requires some { 2 ≤ W }
        requires few { W ≤ 64 }
        ensures { result ≡ new_space W }
    {
        Space {
            next: 0,
            seen: [0; W],
        }
    }

    /// Returns the largest number that was received, or `None` if there is none.
    pub fn largest(&self) -> Option<u64>
        ensures { expected result ≡ self.now.next }
    {
        self.next.checked_sub(1)
    }

    /// Returns whether a number was not received yet. A number that is `64 * W` or more below the largest counts as received,
    /// because the window does not reach it (RFC 9000 section 12.3).
    pub fn is_new(&self, number: u64) -> bool
        ensures { IsTrue result ↔ IsNew self.now number }
    {
        if number >= self.next {
            return true;
        }
        self.next - number <= WORD * W as u64 && !is_seen(&self.seen, number)
    }

    /// Returns the ranges of the numbers that were received, among those that the window reaches, from the highest down: the
    /// ranges of an ACK frame (RFC 9000 section 19.3.1). Each is as long as it can be, so a number that was not received lies
    /// between two of them. A range excludes its end: Largest Acknowledged is `end - 1` of the first.
    pub fn ranges(&self) -> Ranges<'_, W>
        ensures { result ≡ record { space = self.now; below = self.now.next } }
    {
        Ranges {
            space: self,
            below: self.next,
        }
    }

    /// Counts a new number as received.
    pub(crate) fn mark(&mut self, number: u64)
        requires number { IsNumber number }
        requires unseen { IsNew self.old number }
        ensures { Marks self.old number self.new }
    {
        if number < self.next {
            set_seen(&mut self.seen, number, true);
            return;
        }
        let lowest = (number + 1).saturating_sub(WORD * W as u64);
        clear_range(&mut self.seen, self.next.max(lowest), number + 1);
        set_seen(&mut self.seen, number, true);
        self.next = number + 1;
    }

    /// Returns the lowest number that the window reaches.
    fn lowest(&self) -> u64
        ensures { result ≡ self.now.next - 64 * length self.now.seen }
    {
        self.next.saturating_sub(WORD * W as u64)
    }

    /// Returns the highest number below `below` that was received, or `None` if the window has none.
    fn last_received_below(&self, below: u64) -> Option<u64>
        ensures { MatchOption result ((n : ℕ) → n < below → ¬ IsReceived self.now n)
            (λ last. (last < below) × IsReceived self.now last × ((n : ℕ) → last < n → n < below
            → ¬ IsReceived self.now n)) }
    {
        let lowest = self.lowest();
        let mut end = below.min(self.next);
        while end > lowest {
            end -= 1;
            if !self.is_new(end) {
                return Some(end);
            }
        }
        None
    }

    /// Returns the first number of the range of received numbers to which `last` belongs.
    fn first_of_range(&self, last: u64) -> u64
        requires { IsReceived self.now last }
        ensures within { result ≤ last }
        ensures received { (n : ℕ) → result ≤ n → n ≤ last → IsReceived self.now n }
        ensures whole { (n : ℕ) → n + 1 ≡ result → ¬ IsReceived self.now n }
    {
        let lowest = self.lowest();
        let mut first = last;
        while first > lowest && !self.is_new(first - 1) {
            first -= 1;
        }
        first
    }
}

/// An iterator over the ranges of received numbers, from the highest down. `Space::ranges` creates it.
#[derive(Drop)]
pub struct Ranges<'a, const W: usize> {
    space: &'a Space<W>,
    /// The ranges still to be returned lie below this number.
    below: u64,
}

impl<'a, const W: usize> Model for Ranges<'a, W> {
    ghost use Rattle.std.specs.Prelude.{◌≤◌};
    ghost use Rattle.quic_packets.specs.Space.{RangesBelow};

    ghost Value = { RangesBelow };

    ghost view = { λ ranges. record { space = ranges.space.now; below = ranges.below } };

    ghost invariant = { λ ranges. W ≤ 64 };
}

impl<'a, const W: usize> Iterator for Ranges<'a, W> {
    type Item = Range<u64>;

    ghost use Rattle.std.specs.Iterator.{at_most};
    ghost use Rattle.quic_packets.specs.Space.{GivesRange};

    ghost next_gives = { GivesRange };

    ghost remaining = { λ ranges. at_most ranges.below };

    fn next(&mut self) -> Option<Range<u64>> {
        let last = self.space.last_received_below(self.below)?;
        let first = self.space.first_of_range(last);
        self.below = first;
        Some(first..last + 1)
    }
}

/// Returns the index of the word that has the bit of a number.
fn word_of(words: usize, number: u64) -> usize
    requires { 0 < words }
    ensures is { result ≡ number / 64 % words }
    ensures within { result < words }
{
    (number / WORD) as usize % words
}

/// Returns whether the bit of a number is 1.
fn is_seen(seen: &[u64], number: u64) -> bool
    requires { 0 < length seen.now }
    ensures { IsTrue result ↔ (bit_of seen.now number ≡ 1) }
{
    (seen[word_of(seen.len(), number)] >> (number % WORD)) & 1 == 1
}

/// Sets the bit of a number to 1 if `value` is true, and to 0 otherwise.
fn set_seen(seen: &mut [u64], number: u64, value: bool)
    requires { 0 < length seen.old }
    ensures here { bit_of seen.new number ≡ (if value then 1 else 0) }
    ensures others { (n : ℕ) → ¬ ShareBit (length seen.old) n number → bit_of seen.new n ≡ bit_of seen.old n }
{
    let word = word_of(seen.len(), number);
    let bit = 1 << (number % WORD);
    if value {
        seen[word] |= bit;
    } else {
        seen[word] &= !bit;
    }
}

/// Sets the bits of the numbers from `from` up to `to` to 0.
fn clear_range(seen: &mut [u64], from: u64, to: u64)
    requires some { 0 < length seen.old }
    requires ordered { from ≤ to }
    ensures cleared { (n : ℕ) → from ≤ n → n < to → bit_of seen.new n ≡ 0 }
    ensures others { (n : ℕ) → ((m : ℕ) → from ≤ m → m < to → ¬ ShareBit (length seen.old) n m)
        → bit_of seen.new n ≡ bit_of seen.old n }
{
    for number in from..to {
        set_seen(seen, number, false);
    }
}
