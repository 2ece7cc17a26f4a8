//! The sentence about lists of calls of keys that are bound to nonce sequences: of keys that a function makes, and of keys that
//! its caller has.

ghost use Rattle.std.specs.Prelude.{◌≡◌, ◌↔◌, length, IsOk, IfOk, OnErr};
ghost use Rattle.aead_ciphers.specs.Algorithm.{key_len};
ghost use Rattle.aead_ciphers.specs.FreshNonces.{GrewFresh};
ghost use Rattle.aead_ciphers.specs.Runs.{Runs};
ghost use Rattle.sentence.specs.Sentence.{CallStep};

use crate::library::{OpeningKey, SealingKey, Session, UnboundKey};
use aead_ciphers::aead::{Algorithm, NonceSequence, Unspecified};
use aead_ciphers::session::Job;

/// Makes a sealing key and an opening key of these bytes, and runs a list of calls with them, in order. Fails if the key has
/// another length than the algorithm's.
#[tactic(auto, using(crate::proofs::SentenceLemmas::sentence, crate::proofs::SentenceLemmas::keys_kept, aead_ciphers::proofs::FreshLemmas::fresh_run))]
pub fn every_list_of_calls<
    U: UnboundKey,
    S: NonceSequence + Drop,
    O: NonceSequence + Drop,
    SK: SealingKey<U, S>,
    OK: OpeningKey<U, O>,
    L: Session<U, S, O, SK, OK>,
>(
    algorithm: &'static Algorithm,
    key: &[u8],
    sealing_nonces: S,
    opening_nonces: O,
    jobs: &mut [Job],
) -> Result<(SK, OK), Unspecified>
    ensures accepted { IsOk result ↔ (length key.now ≡ key_len algorithm.now) }
    ensures sealing_bytes { IfOk result (λ keys. (SK.state keys.0).key.bytes ≡ key.now) }
    ensures opening_bytes { IfOk result (λ keys. (OK.state keys.1).key.bytes ≡ key.now) }
    ensures calls { IfOk result (λ keys. Runs (CallStep S.spent S.is_closed O.spent O.is_closed key.now key.now)
        (sealing_nonces, opening_nonces) ((SK.state keys.0).sequence, (OK.state keys.1).sequence) jobs.old jobs.new) }
    ensures no_nonce_twice { IfOk result (λ keys. GrewFresh (S.spent sealing_nonces) (S.spent (SK.state keys.0).sequence)) }
    ensures refused { OnErr result (jobs.new ≡ jobs.old) }
{
    let sealing = U::new(algorithm, key)?;
    let opening = U::new(algorithm, key)?;
    let mut sealing = SK::new(sealing, sealing_nonces);
    let mut opening = OK::new(opening, opening_nonces);
    L::run(&mut sealing, &mut opening, jobs);
    Ok((sealing, opening))
}

/// Runs a list of calls with a sealing key and an opening key, in order, under the bytes that they hold.
#[tactic(auto, using(crate::proofs::SentenceLemmas::run_sentence, crate::proofs::SentenceLemmas::keys_kept, aead_ciphers::proofs::FreshLemmas::fresh_run))]
pub fn run<
    U: UnboundKey,
    S: NonceSequence,
    O: NonceSequence,
    SK: SealingKey<U, S>,
    OK: OpeningKey<U, O>,
    L: Session<U, S, O, SK, OK>,
>(sealing: &mut SK, opening: &mut OK, jobs: &mut [Job])
    ensures sealing_kept { (SK.state sealing.new).key ≡ (SK.state sealing.old).key }
    ensures opening_kept { (OK.state opening.new).key ≡ (OK.state opening.old).key }
    ensures calls { let was = SK.state sealing.old in let now = SK.state sealing.new in
        Runs (CallStep S.spent S.is_closed O.spent O.is_closed was.key.bytes (OK.state opening.old).key.bytes)
        (was.sequence, (OK.state opening.old).sequence) (now.sequence, (OK.state opening.new).sequence) jobs.old jobs.new }
    ensures no_nonce_twice { GrewFresh (S.spent (SK.state sealing.old).sequence) (S.spent (SK.state sealing.new).sequence) }
{
    L::run(sealing, opening, jobs);
}
