//! `aead_ciphers::session`, which runs lists of calls of a sealing key and an opening key, has the trait `library::Session`. The
//! two keys may be over different expanded keys.

use crate::library;
use aead_ciphers::aead::generic::{OpeningKey, SealingKey};
use aead_ciphers::aead::{NonceSequence, UnboundKey};
use aead_ciphers::aes_gcm::GcmKey;
use aead_ciphers::session::{Job, run};

/// The calls of `aead_ciphers::session`.
pub struct Jobs;

impl<K: GcmKey, L: GcmKey, S: NonceSequence + Drop, O: NonceSequence + Drop> library::Session<
    UnboundKey,
    S,
    O,
    SealingKey<K, S>,
    OpeningKey<L, O>,
> for Jobs {
    fn run(sealing: &mut SealingKey<K, S>, opening: &mut OpeningKey<L, O>, jobs: &mut [Job]) {
        run(sealing, opening, jobs);
    }
}
