//! Sealing and opening under a `deerlapse_key` from one buffer to another. The buffers do not overlap. An inline function of the
//! header calls each of these calls with the length of `out`, which its own caller does not pass.

ghost use Rattle.std.specs.Prelude.{◌≡◌, ◌+◌, ◌↔◌, length, take, drop, IsTrue, IsFalse};
ghost use Rattle.aead_ciphers_base.specs.Aes.{aes};
ghost use Rattle.aead_ciphers_wide.specs.ExpandedKey.{bytes_of};
ghost use Rattle.aead_ciphers.specs.Gcm.{Fits, gcm_decrypted, gcm_encrypted, gcm_sealed, gcm_tag, tag_len};
ghost use Rattle.deerlapse.specs.AesKey.{HasRounds, IsKeyOrNone};

use crate::key::{deerlapse_key_seal, has_rounds};
use aead_ciphers::aead::{Aad, MAX_TAG_LEN, NONCE_LEN, Nonce, Tag};
use aead_ciphers::aes_gcm::GcmKey;
use aead_ciphers::gcm::fits;
use aead_ciphers_base::aes::Work;
use aead_ciphers_wide::aes_gcm::ExpandedKey;

/// Does the same as `deerlapse_key_seal`, but leaves the message unchanged and writes the ciphertext to `out`.
///
/// Also returns false if `out` does not have as many bytes as the message.
#[unsafe(no_mangle)]
pub extern "C" fn deerlapse_key_seal_to_sized(
    key: &ExpandedKey,
    nonce: &[u8; NONCE_LEN],
    aad: &[u8],
    message: &[u8],
    out: &mut [u8],
    tag: &mut [u8; MAX_TAG_LEN],
) -> bool
    requires { IsKeyOrNone key.now }
    ensures accepted { IsTrue result ↔ (HasRounds key.now × (length out.old ≡ length message.now)
        × Fits (length aad.now) (length message.now)) }
    ensures ciphertext { IsTrue result
        → out.new ≡ gcm_encrypted (aes (bytes_of key.now)) nonce.now message.now }
    ensures tag { IsTrue result
        → tag.new ≡ gcm_tag (aes (bytes_of key.now)) nonce.now aad.now out.new }
    ensures refused { IsFalse result → (out.new ≡ out.old) × (tag.new ≡ tag.old) }
{
    if !has_rounds(key) || out.len() != message.len() || !fits(aad.len(), message.len()) {
        return false;
    }
    out.copy_from_slice(message);
    deerlapse_key_seal(key, nonce, aad, out, tag)
}

/// Does the same as `deerlapse_key_open_separate_tag`, but leaves the ciphertext unchanged and writes the plaintext to `out`,
/// after the tag is verified. The tag may come right after the ciphertext, so it is not read before the lengths are checked.
///
/// Also returns false if `out` does not have as many bytes as the ciphertext.
#[unsafe(no_mangle)]
pub extern "C" fn deerlapse_key_open_to_sized(
    key: &ExpandedKey,
    nonce: &[u8; NONCE_LEN],
    aad: &[u8],
    ciphertext: &[u8],
    out: &mut [u8],
    tag: &[u8; MAX_TAG_LEN],
) -> bool
    requires { IsKeyOrNone key.now }
    ensures accepted { IsTrue result ↔ (HasRounds key.now × (length out.old ≡ length ciphertext.now)
        × Fits (length aad.now) (length ciphertext.now)
        × (tag.now ≡ gcm_tag (aes (bytes_of key.now)) nonce.now aad.now ciphertext.now)) }
    ensures plaintext { IsTrue result
        → out.new ≡ gcm_decrypted (aes (bytes_of key.now)) nonce.now ciphertext.now }
    ensures refused { IsFalse result → out.new ≡ out.old }
{
    if !has_rounds(key) || out.len() != ciphertext.len() || !fits(aad.len(), ciphertext.len()) {
        return false;
    }
    let nonce = Nonce::assume_unique_for_key(*nonce);
    key.open_to(
        nonce,
        Aad::from(aad),
        Tag::from(*tag),
        ciphertext,
        out,
        &mut Work::new(),
    )
    .is_ok()
}

/// Does the same as `deerlapse_key_seal`, but leaves the message unchanged and writes the ciphertext and the tag after it to
/// `out`: n bytes become n + 16.
///
/// Also returns false if `out` does not have 16 bytes more than the message.
#[unsafe(no_mangle)]
pub extern "C" fn deerlapse_key_seal_append_tag_sized(
    key: &ExpandedKey,
    nonce: &[u8; NONCE_LEN],
    aad: &[u8],
    message: &[u8],
    out: &mut [u8],
) -> bool
    requires { IsKeyOrNone key.now }
    ensures accepted { IsTrue result
        ↔ (HasRounds key.now × (length out.old ≡ length message.now + tag_len)
        × Fits (length aad.now) (length message.now)) }
    ensures sealed { IsTrue result
        → out.new ≡ gcm_sealed (aes (bytes_of key.now)) nonce.now aad.now message.now }
    ensures refused { IsFalse result → out.new ≡ out.old }
{
    match out.split_last_chunk_mut::<MAX_TAG_LEN>() {
        Some((ciphertext, tag)) => {
            deerlapse_key_seal_to_sized(key, nonce, aad, message, ciphertext, tag)
        }
        None => false,
    }
}

/// Does the same as `deerlapse_key_open` with the start 0, but leaves the ciphertext and its tag unchanged and writes the
/// plaintext to `out`, after the tag is verified: n bytes become n - 16.
///
/// Also returns false if `out` does not have 16 bytes less than `ciphertext_and_tag`.
#[unsafe(no_mangle)]
pub extern "C" fn deerlapse_key_open_appended_tag_sized(
    key: &ExpandedKey,
    nonce: &[u8; NONCE_LEN],
    aad: &[u8],
    ciphertext_and_tag: &[u8],
    out: &mut [u8],
) -> bool
    requires { IsKeyOrNone key.now }
    ensures accepted { let n = length out.old in let ciphertext = take n ciphertext_and_tag.now in
        IsTrue result
        ↔ (HasRounds key.now × (length ciphertext_and_tag.now ≡ n + tag_len) × Fits (length aad.now) n
        × (drop n ciphertext_and_tag.now ≡ gcm_tag (aes (bytes_of key.now)) nonce.now aad.now
        ciphertext)) }
    ensures plaintext { IsTrue result → out.new ≡ gcm_decrypted (aes (bytes_of key.now)) nonce.now
        (take (length out.old) ciphertext_and_tag.now) }
    ensures refused { IsFalse result → out.new ≡ out.old }
{
    match ciphertext_and_tag.split_last_chunk::<MAX_TAG_LEN>() {
        Some((ciphertext, tag)) => {
            deerlapse_key_open_to_sized(key, nonce, aad, ciphertext, out, tag)
        }
        None => false,
    }
}
