//! The keys of `aead_ciphers` have the traits of `library`, over any expanded AES-GCM key and any nonce sequence. Each function
//! of an impl makes the call of its name. An impl has no clause of its own, so what is proved of a call is what the trait says.

mod less_safe_key;
mod opening_key;
mod sealing_key;
mod session;
mod unbound_key;

use crate::library;
use aead_ciphers::aead::generic::{LessSafeKey, OpeningKey, SealingKey};
use aead_ciphers::aead::{NonceSequence, UnboundKey};
use aead_ciphers::aes_gcm::GcmKey;
pub use session::Jobs;

/// Does nothing. It takes the types that the functions of `one_key`, `bound` and `calls` take.
pub(crate) fn takes<
    U: library::UnboundKey,
    S: NonceSequence,
    O: NonceSequence,
    K: library::LessSafeKey<U>,
    SK: library::SealingKey<U, S>,
    OK: library::OpeningKey<U, O>,
    L: library::Session<U, S, O, SK, OK>,
>() {}

/// Does nothing. It compiles since the keys are types that the functions of `one_key`, `bound` and `calls` take.
pub fn are_taken<K: GcmKey, L: GcmKey, S: NonceSequence + Drop, O: NonceSequence + Drop>() {
    takes::<UnboundKey, S, O, LessSafeKey<K>, SealingKey<K, S>, OpeningKey<L, O>, Jobs>();
}
