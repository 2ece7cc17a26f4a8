//! The sentence about lists of calls for the keys of `aead_ciphers_wide`: the functions of `plain`, over these types. They are
//! written again, since a function over any expanded key doesn't show which function the name of a call finds at these types.

ghost use Rattle.std.specs.Prelude.{◌≡◌, ◌↔◌, length, IsOk, IfOk, OnErr};
ghost use Rattle.aead_ciphers.specs.Algorithm.{key_len};
ghost use Rattle.aead_ciphers.specs.Counting.{is_used_up, prefixed_nonce, spent_nonces};
ghost use Rattle.aead_ciphers.specs.FreshNonces.{GrewFresh};
ghost use Rattle.aead_ciphers.specs.Runs.{Runs};
ghost use Rattle.sentence.specs.Sentence.{CallStep};

use crate::calls;
use crate::keys::{Jobs, takes};
use aead_ciphers::aead::{
    Algorithm, BoundKey, CounterSequence, NonceSequence, UnboundKey, Unspecified,
};
use aead_ciphers::session::Job;
use aead_ciphers_wide::aead::{LessSafeKey, OpeningKey, SealingKey};
use std::alloc::AllocError;

/// Makes a key of these bytes, for calls that take the nonce. What these calls do is the sentence of `one_key`.
pub fn new_key(algorithm: &'static Algorithm, key: &[u8]) -> Result<LessSafeKey, Unspecified>
    ensures accepted { IsOk result ↔ (length key.now ≡ key_len algorithm.now) }
    ensures bytes { IfOk result (λ made. made.bytes ≡ key.now) }
{
    Ok(LessSafeKey::new(UnboundKey::new(algorithm, key)?))
}

/// Clones a key. Fails if there is no memory.
pub fn clone_key(key: &LessSafeKey) -> Result<LessSafeKey, AllocError>
    ensures { IfOk result (λ clone. clone ≡ key.now) }
{
    key.clone()
}

/// Makes a sealing key of these bytes over a sequence. What its calls do is the sentence of `bound`.
pub fn new_sealing_key<N: NonceSequence + Drop>(
    algorithm: &'static Algorithm,
    key: &[u8],
    nonces: N,
) -> Result<SealingKey<N>, Unspecified>
    ensures accepted { IsOk result ↔ (length key.now ≡ key_len algorithm.now) }
    ensures bytes { IfOk result (λ made. made.key.bytes ≡ key.now) }
    ensures sequence { IfOk result (λ made. made.sequence ≡ nonces) }
{
    Ok(SealingKey::new(UnboundKey::new(algorithm, key)?, nonces))
}

/// Makes an opening key of these bytes over a sequence. What its calls do is the sentence of `bound`.
pub fn new_opening_key<N: NonceSequence + Drop>(
    algorithm: &'static Algorithm,
    key: &[u8],
    nonces: N,
) -> Result<OpeningKey<N>, Unspecified>
    ensures accepted { IsOk result ↔ (length key.now ≡ key_len algorithm.now) }
    ensures bytes { IfOk result (λ made. made.key.bytes ≡ key.now) }
    ensures sequence { IfOk result (λ made. made.sequence ≡ nonces) }
{
    Ok(OpeningKey::new(UnboundKey::new(algorithm, key)?, nonces))
}

/// Makes a sealing key and an opening key of these bytes, which count their nonces, and runs a list of calls with them.
pub fn every_list_of_calls(
    algorithm: &'static Algorithm,
    key: &[u8],
    sealing_nonces: CounterSequence,
    opening_nonces: CounterSequence,
    jobs: &mut [Job],
) -> Result<(SealingKey<CounterSequence>, OpeningKey<CounterSequence>), Unspecified>
    ensures accepted { IsOk result ↔ (length key.now ≡ key_len algorithm.now) }
    ensures sealing_bytes { IfOk result (λ keys. keys.0.key.bytes ≡ key.now) }
    ensures opening_bytes { IfOk result (λ keys. keys.1.key.bytes ≡ key.now) }
    ensures calls { let spent = spent_nonces prefixed_nonce in
        IfOk result (λ keys. Runs (CallStep spent is_used_up spent is_used_up key.now key.now)
        (sealing_nonces, opening_nonces) (keys.0.sequence, keys.1.sequence) jobs.old jobs.new) }
    ensures no_nonce_twice { let spent = spent_nonces prefixed_nonce in
        IfOk result (λ keys. GrewFresh (spent sealing_nonces) (spent keys.0.sequence)) }
    ensures refused { OnErr result (jobs.new ≡ jobs.old) }
{
    calls::every_list_of_calls::<
        UnboundKey,
        CounterSequence,
        CounterSequence,
        SealingKey<CounterSequence>,
        OpeningKey<CounterSequence>,
        Jobs,
    >(algorithm, key, sealing_nonces, opening_nonces, jobs)
}

/// Does nothing. It compiles since the keys, as callers import them, are types that the functions of `one_key`, `bound` and
/// `calls` take.
pub fn are_taken<S: NonceSequence + Drop, O: NonceSequence + Drop>() {
    takes::<UnboundKey, S, O, LessSafeKey, SealingKey<S>, OpeningKey<O>, Jobs>();
}
