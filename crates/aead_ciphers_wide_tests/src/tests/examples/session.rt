//! Lists of calls under keys over any expanded key.

ghost use Rattle.aead_ciphers.specs.FreshNonces.{GrewFresh};

use aead_ciphers::aead::NonceSequence;
use aead_ciphers::aead::generic::{OpeningKey, SealingKey};
use aead_ciphers::aes_gcm::GcmKey;
use aead_ciphers::session::{Job, run};

/// Runs two lists of jobs, one after the other, under the same keys. The nonces that both lists spend differ from each other
/// and from those that were spent before.
#[tactic(auto, using(aead_ciphers::proofs::FreshLemmas::fresh_more))]
pub fn run_both<K: GcmKey, L: GcmKey, S: NonceSequence, O: NonceSequence>(
    sealing: &mut SealingKey<K, S>,
    opening: &mut OpeningKey<L, O>,
    first: &mut [Job],
    second: &mut [Job],
)
    ensures no_nonce_twice { GrewFresh (S.spent sealing.old.sequence) (S.spent sealing.new.sequence) }
{
    run(sealing, opening, first);
    run(sealing, opening, second);
}
