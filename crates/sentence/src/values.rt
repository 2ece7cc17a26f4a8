//! What nonces, AAD, tags and jobs hold, which the calls of the other modules take and return, and how long the keys of the
//! algorithms are. Each function makes one call of the library, as callers write it.

ghost use Rattle.std.specs.Prelude.{◌≡◌, ◌↔◌, [], length, IsOk, IfOk};
ghost use Rattle.aead_ciphers_base.specs.Values.{aad_bytes};
ghost use Rattle.aead_ciphers.specs.Gcm.{tag_len};

use aead_ciphers::aead::{
    AES_128_GCM, AES_256_GCM, Aad, MAX_TAG_LEN, NONCE_LEN, Nonce, Tag, Unspecified,
};
use aead_ciphers::session::{Job, Operation};

/// Returns the length of a key of `AES_128_GCM` in bytes.
pub fn aes_128_gcm_key_len() -> usize
    ensures { result ≡ 16 }
{
    AES_128_GCM.key_len()
}

/// Returns the length of a key of `AES_256_GCM` in bytes.
pub fn aes_256_gcm_key_len() -> usize
    ensures { result ≡ 32 }
{
    AES_256_GCM.key_len()
}

/// Makes a nonce of 12 bytes.
pub fn nonce(bytes: [u8; NONCE_LEN]) -> Nonce
    ensures { result ≡ bytes }
{
    Nonce::assume_unique_for_key(bytes)
}

/// Makes a nonce of a slice. Fails if it has another length than 12.
pub fn nonce_of_slice(bytes: &[u8]) -> Result<Nonce, Unspecified>
    ensures accepted { IsOk result ↔ (length bytes.now ≡ 12) }
    ensures bytes { IfOk result (λ nonce. nonce ≡ bytes.now) }
{
    Nonce::try_assume_unique_for_key(bytes)
}

/// Borrows bytes as AAD.
pub fn aad(bytes: &[u8]) -> Aad<'_>
    ensures { aad_bytes result ≡ bytes.now }
{
    Aad::from(bytes)
}

/// Makes AAD of no bytes.
pub fn no_aad<'a>() -> Aad<'a>
    ensures { aad_bytes result ≡ [] }
{
    Aad::empty()
}

/// Makes a tag of 16 bytes.
pub fn tag(bytes: [u8; MAX_TAG_LEN]) -> Tag
    ensures { result ≡ bytes }
{
    Tag::from(bytes)
}

/// Makes a tag of a slice. Fails if it has another length than 16.
pub fn tag_of_slice(bytes: &[u8]) -> Result<Tag, Unspecified>
    ensures accepted { IsOk result ↔ (length bytes.now ≡ tag_len) }
    ensures bytes { IfOk result (λ tag. tag ≡ bytes.now) }
{
    Tag::try_from(bytes)
}

/// Returns the bytes of a tag.
pub fn tag_bytes(tag: &Tag) -> &[u8]
    ensures { result.now ≡ tag.now }
{
    tag.as_ref()
}

/// Makes a job that has not been run yet.
pub fn job(operation: Operation, aad: Vec<u8>, buffer: Vec<u8>) -> Job
    ensures operation { result.operation ≡ operation }
    ensures aad { result.aad ≡ aad }
    ensures buffer { result.buffer ≡ buffer }
{
    Job::new(operation, aad, buffer)
}
