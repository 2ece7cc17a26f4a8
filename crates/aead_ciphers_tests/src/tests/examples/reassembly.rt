//! Packets of one buffer, each opened in place so that the plaintexts follow each other at the front.

ghost use Rattle.std.specs.Prelude.{◌≡◌, ◌+◌, ◌-◌, ◌<◌, ◌≤◌, ◌++◌, ℕ, length, drop, take, IsOk, IfOk, OnOk, OnErr};
ghost use Rattle.aead_ciphers_tests.specs.BoundKey.{advanced, next_text};

use aead_ciphers::aead::{Aad, CounterSequence, OpeningKey, Unspecified};
use std::ops::Range;

/// Opens the next packet, whose ciphertext and tag are `buffer[start..end]`. Its plaintext comes right after the first `done`
/// bytes, which are those of earlier packets. Returns where it ends.
pub fn open_after(
    key: &mut OpeningKey<CounterSequence>,
    aad: &[u8],
    buffer: &mut [u8],
    done: usize,
    start: usize,
    end: usize,
) -> Result<usize, Unspecified>
    requires after { done ≤ start }
    requires within { (start + 16 ≤ end) × (end ≤ length buffer.old) }
    ensures nonces_left { IsOk result → key.old.sequence.used < key.old.sequence.count }
    ensures counted { OnOk result (key.new ≡ advanced key.old) }
    ensures count { IfOk result (λ n. n ≡ done + (end - 16 - start)) }
    ensures plaintext { IfOk result (λ n.
        take n buffer.new ≡ take done buffer.old ++ next_text key.old start end buffer.old) }
    ensures rest { (place : ℕ) → end ≤ place → drop place buffer.new ≡ drop place buffer.old }
    ensures refused { OnErr result (buffer.new ≡ buffer.old) }
{
    let packet = &mut buffer[done..end];
    let count = key.open_within_to_front(Aad::from(aad), packet, start - done..)?;
    Ok(done + count)
}

/// Opens three packets in order: their ciphertexts and tags are these ranges of the buffer. Their plaintexts follow each other
/// at the front. Returns where they end.
pub fn reassemble(
    key: &mut OpeningKey<CounterSequence>,
    aad: &[u8],
    buffer: &mut [u8],
    first: Range<usize>,
    second: Range<usize>,
    third: Range<usize>,
) -> Result<usize, Unspecified>
    requires first { first.start + 16 ≤ first.end }
    requires second { (first.end ≤ second.start) × (second.start + 16 ≤ second.end) }
    requires third { (second.end ≤ third.start) × (third.start + 16 ≤ third.end) }
    requires within { third.end ≤ length buffer.old }
    ensures counted { OnOk result (key.new ≡ advanced (advanced (advanced key.old))) }
    ensures message { IfOk result (λ n. take n buffer.new
        ≡ next_text key.old first.start first.end buffer.old
        ++ next_text (advanced key.old) second.start second.end buffer.old
        ++ next_text (advanced (advanced key.old)) third.start third.end buffer.old) }
    ensures rest { drop third.end buffer.new ≡ drop third.end buffer.old }
{
    let done = open_after(key, aad, buffer, 0, first.start, first.end)?;
    let done = open_after(key, aad, buffer, done, second.start, second.end)?;
    open_after(key, aad, buffer, done, third.start, third.end)
}
