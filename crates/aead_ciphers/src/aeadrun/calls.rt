//! The calls of the library that the commands of `aeadrun` ask for.
ghost use Rattle.std.specs.Prelude.{◌≡◌, ◌-◌, ◌+◌, ◌^◌, ◌<◌, ◌≤◌, ◌↔◌, ⊤, true, false, length, vec_len, vec_capacity, is_ok, IsOk, IsErr, IfOk, OnOk, OnErr};
ghost use Rattle.aead_ciphers_base.specs.Aes.{aes};
ghost use Rattle.aead_ciphers.specs.Algorithm.{key_len};
ghost use Rattle.aead_ciphers.specs.Gcm.{Fits, gcm_encrypted, gcm_tag, tag_len, OpenedAttached};
ghost use Rattle.aead_ciphers.specs.HeaderProtection.{key_len as mask_key_len, header_protection};

use crate::aead::{
    Aad, Algorithm, BoundKey, CounterSequence, LessSafeKey, NONCE_LEN, Nonce, OpeningKey,
    SealingKey, Tag, UnboundKey, Unspecified, quic,
};
use crate::session::{self, Job, Operation, Outcome};
use std::slice;

/// Creates a key and a nonce for one call. Fails if either has the wrong length.
fn key_and_nonce(
    algorithm: &'static Algorithm,
    key: &[u8],
    nonce: &[u8],
) -> Result<(LessSafeKey, Nonce), Unspecified>
    ensures accepted { IsOk result
        ↔ ((length key.now ≡ key_len algorithm.now) × (length nonce.now ≡ NONCE_LEN)) }
    ensures made { IfOk result (λ made. (made.0.bytes ≡ key.now) × (made.1 ≡ nonce.now)) }
{
    let key = LessSafeKey::new(UnboundKey::new(algorithm, key)?);
    Ok((key, Nonce::try_assume_unique_for_key(nonce)?))
}

/// Encrypts `in_out` in place, and returns its tag.
pub(super) fn seal(
    algorithm: &'static Algorithm,
    key: &[u8],
    nonce: &[u8],
    aad: &[u8],
    in_out: &mut [u8],
) -> Result<Tag, Unspecified>
    ensures accepted { IsOk result ↔ ((length key.now ≡ key_len algorithm.now)
        × (length nonce.now ≡ NONCE_LEN) × Fits (length aad.now) (length in_out.old)) }
    ensures ciphertext { OnOk result (in_out.new ≡ gcm_encrypted (aes key.now) nonce.now in_out.old) }
    ensures tag { IfOk result (λ tag. tag ≡ gcm_tag (aes key.now) nonce.now aad.now in_out.new) }
    ensures refused { OnErr result (in_out.new ≡ in_out.old) }
{
    let (key, nonce) = key_and_nonce(algorithm, key, nonce)?;
    key.seal_in_place_separate_tag(nonce, Aad::from(aad), in_out)
}

/// Opens `in_out` from byte `start` on, with the tag attached, and returns the length of the plaintext, which is at the
/// front of `in_out`.
pub(super) fn open(
    algorithm: &'static Algorithm,
    key: &[u8],
    nonce: &[u8],
    aad: &[u8],
    start: usize,
    in_out: &mut [u8],
) -> Result<usize, Unspecified>
    ensures within { IfOk result (λ count. count ≤ length in_out.new) }
    ensures count { IfOk result (λ count. count ≡ length in_out.old - tag_len - start) }
    ensures opened { length key.now ≡ key_len algorithm.now → length nonce.now ≡ NONCE_LEN
        → OpenedAttached (aes key.now) nonce.now aad.now start in_out.old (is_ok result) in_out.new }
    ensures key_length { (length key.now ≡ key_len algorithm.now → ⊥)
        → IsErr result × (in_out.new ≡ in_out.old) }
    ensures nonce_length { (length nonce.now ≡ NONCE_LEN → ⊥)
        → IsErr result × (in_out.new ≡ in_out.old) }
{
    let (key, nonce) = key_and_nonce(algorithm, key, nonce)?;
    key.open_within_to_front(nonce, Aad::from(aad), in_out, start..)
}

pub(super) fn mask(
    algorithm: &quic::Algorithm,
    key: &[u8],
    sample: &[u8],
) -> Result<[u8; 5], Unspecified>
    ensures accepted { IsOk result
        ↔ ((length key.now ≡ mask_key_len algorithm.now) × (length sample.now ≡ 16)) }
    ensures mask { IfOk result (λ mask. mask ≡ header_protection algorithm.now key.now sample.now) }
{
    quic::HeaderProtectionKey::new(algorithm, key)?.new_mask(sample)
}

/// A sealing and an opening key with the same bytes, each with its own nonce sequence.
#[derive(Drop)]
pub(super) struct Keys {
    sealing: SealingKey<CounterSequence>,
    opening: OpeningKey<CounterSequence>,
}

impl Keys {
    ghost use Rattle.aead_ciphers.specs.Counting.{prefixed_nonce, spent_nonces, is_used_up, origin_of};
    ghost use Rattle.aead_ciphers.specs.Program.{first_state};
    ghost use Rattle.aead_ciphers.specs.Runs.{JobStep};
    ghost use Rattle.aead_ciphers.specs.Steps.{OpenStep, SealStep};

    /// Creates the keys, and sequences of `count` nonces whose numbers count up from `first`. Fails if `key` does not
    /// have the length of the algorithm's keys, or if `first + count` is greater than 2^64.
    pub(super) fn new(
        algorithm: &'static Algorithm,
        key: &[u8],
        prefix: [u8; 4],
        first: u64,
        count: u64,
    ) -> Result<Keys, Unspecified>
        ensures accepted { IsOk result
            ↔ ((length key.now ≡ key_len algorithm.now) × (first + count ≤ 2 ^ 64)) }
        ensures sealing { IfOk result (λ keys. keys.sealing
            ≡ first_state algorithm.now key.now prefix first count) }
        ensures opening { IfOk result (λ keys. keys.opening ≡ keys.sealing) }
    {
        let sealing = UnboundKey::new(algorithm, key)?;
        let opening = UnboundKey::new(algorithm, key)?;
        Ok(Keys {
            sealing: SealingKey::new(sealing, CounterSequence::new(prefix, first, count)?),
            opening: OpeningKey::new(opening, CounterSequence::new(prefix, first, count)?),
        })
    }

    /// Encrypts `message` under the next nonce, and returns the ciphertext followed by its tag. If `message` cannot
    /// grow by the tag, fails without consuming a nonce.
    pub(super) fn seal_under_next_nonce(
        &mut self,
        aad: Vec<u8>,
        message: Vec<u8>,
    ) -> Result<Vec<u8>, Unspecified>
        ensures sealed { IfOk result (λ buffer. SealStep (spent_nonces prefixed_nonce) is_used_up
            (vec_capacity message < vec_len message + tag_len) ⊤ self.old.sealing self.new.sealing
            aad.items message.items buffer.items true) }
        ensures refused { OnErr result (SealStep (spent_nonces prefixed_nonce) is_used_up
            (vec_capacity message < vec_len message + tag_len) ⊤ self.old.sealing self.new.sealing
            aad.items message.items message.items false) }
        ensures kept { self.new.opening ≡ self.old.opening }
    {
        let job = self.run(Job::new(Operation::Seal, aad, message));
        match job.outcome {
            Outcome::Sealed => Ok(job.buffer),
            _ => Err(Unspecified),
        }
    }

    /// Opens `buffer` from byte `start` on under the next nonce, with the tag attached. Returns the buffer and, if it
    /// was opened, the length of the plaintext, which is at the front of the buffer.
    #[tactic(auto, using(crate::proofs::KeysLemmas::opened_within))]
    pub(super) fn open_under_next_nonce(
        &mut self,
        aad: Vec<u8>,
        start: usize,
        buffer: Vec<u8>,
    ) -> (Vec<u8>, Result<usize, Unspecified>)
        ensures within { IfOk result.1 (λ count. count ≤ vec_len result.0) }
        ensures count { IfOk result.1 (λ count. count ≡ vec_len buffer - tag_len - start) }
        ensures opened { OpenStep (spent_nonces prefixed_nonce) is_used_up self.old.opening self.new.opening aad.items start
            buffer.items result.0.items (is_ok result.1) }
        ensures kept { self.new.sealing ≡ self.old.sealing }
    {
        let job = self.run(Job::new(Operation::Open(start), aad, buffer));
        let opened = match job.outcome {
            Outcome::Opened(count) => Ok(count),
            _ => Err(Unspecified),
        };
        (job.buffer, opened)
    }

    /// Runs one job.
    fn run(&mut self, mut job: Job) -> Job
        ensures { JobStep (spent_nonces prefixed_nonce) is_used_up origin_of (spent_nonces prefixed_nonce) is_used_up origin_of
            (self.old.sealing, self.old.opening) (self.new.sealing, self.new.opening) job result }
    {
        session::run(
            &mut self.sealing,
            &mut self.opening,
            slice::from_mut(&mut job),
        );
        job
    }
}
