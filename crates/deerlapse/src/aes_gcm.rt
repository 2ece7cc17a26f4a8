//! Sealing and opening one message by AES-GCM (SP 800-38D), under key bytes that each call expands for itself.

ghost use Rattle.std.specs.Prelude.{◌≡◌, ◌-◌, ◌↔◌, length, IsTrue, IsFalse};
ghost use Rattle.aead_ciphers_base.specs.Aes.{aes};
ghost use Rattle.aead_ciphers.specs.Gcm.{Fits, gcm_encrypted, gcm_tag, tag_len, OpenedAttached};
ghost use Rattle.deerlapse.specs.AesKey.{IsAesKeyLen};

use crate::key::{deerlapse_key_open, deerlapse_key_seal, expand, width};
use aead_ciphers::aead::{MAX_TAG_LEN, NONCE_LEN};
use aead_ciphers::aes_gcm::GcmKey;
use aead_ciphers_wide::aes::Width;
use aead_ciphers_wide::aes_gcm::ExpandedKey;

/// Encrypts the message in `in_out` in place, and writes its tag of 16 bytes (SP 800-38D algorithm 4).
///
/// Returns false if `key` does not have 16 or 32 bytes, if the message is longer than 2^36 - 32 bytes, or if the AAD has 2^61
/// bytes or more.
#[unsafe(no_mangle)]
pub extern "C" fn deerlapse_seal(
    key: &[u8],
    nonce: &[u8; NONCE_LEN],
    aad: &[u8],
    in_out: &mut [u8],
    tag: &mut [u8; MAX_TAG_LEN],
) -> bool
    ensures accepted { IsTrue result
        ↔ (IsAesKeyLen (length key.now) × Fits (length aad.now) (length in_out.old)) }
    ensures ciphertext { IsTrue result → in_out.new ≡ gcm_encrypted (aes key.now) nonce.now in_out.old }
    ensures tag { IsTrue result → tag.new ≡ gcm_tag (aes key.now) nonce.now aad.now in_out.new }
    ensures refused { IsFalse result → (in_out.new ≡ in_out.old) × (tag.new ≡ tag.old) }
{
    seal_with_width(key, nonce, aad, in_out, tag, width())
}

/// Does the same as `deerlapse_seal`, with planes of this width.
pub(crate) fn seal_with_width(
    key: &[u8],
    nonce: &[u8; NONCE_LEN],
    aad: &[u8],
    in_out: &mut [u8],
    tag: &mut [u8; MAX_TAG_LEN],
    width: Width,
) -> bool
    ensures accepted { IsTrue result
        ↔ (IsAesKeyLen (length key.now) × Fits (length aad.now) (length in_out.old)) }
    ensures ciphertext { IsTrue result → in_out.new ≡ gcm_encrypted (aes key.now) nonce.now in_out.old }
    ensures tag { IsTrue result → tag.new ≡ gcm_tag (aes key.now) nonce.now aad.now in_out.new }
    ensures refused { IsFalse result → (in_out.new ≡ in_out.old) × (tag.new ≡ tag.old) }
{
    let mut expanded = ExpandedKey::zeros();
    expand(&mut expanded, key, width) && deerlapse_key_seal(&expanded, nonce, aad, in_out, tag)
}

/// Opens in place the ciphertext that `in_out` holds from `start` on, and writes the length of the plaintext in bytes (SP 800-38D
/// algorithm 5).
///
/// The tag is the last 16 bytes of `in_out`. On success the plaintext is at the front of `in_out`, and the bytes after it are
/// unchanged.
///
/// Returns false if `key` does not have 16 or 32 bytes, if there are fewer than 16 bytes from `start` on, if a length is not one
/// that `deerlapse_seal` takes, or if the tag is wrong.
#[unsafe(no_mangle)]
pub extern "C" fn deerlapse_open(
    key: &[u8],
    nonce: &[u8; NONCE_LEN],
    aad: &[u8],
    in_out: &mut [u8],
    start: usize,
    plaintext_len: &mut usize,
) -> bool
    ensures key_len { IsTrue result → IsAesKeyLen (length key.now) }
    ensures opened { IsAesKeyLen (length key.now)
        → OpenedAttached (aes key.now) nonce.now aad.now start in_out.old result in_out.new }
    ensures count { IsTrue result → plaintext_len.new ≡ length in_out.old - tag_len - start }
    ensures refused { IsFalse result
        → (in_out.new ≡ in_out.old) × (plaintext_len.new ≡ plaintext_len.old) }
{
    open_with_width(key, nonce, aad, in_out, start, plaintext_len, width())
}

/// Does the same as `deerlapse_open`, with planes of this width.
pub(crate) fn open_with_width(
    key: &[u8],
    nonce: &[u8; NONCE_LEN],
    aad: &[u8],
    in_out: &mut [u8],
    start: usize,
    plaintext_len: &mut usize,
    width: Width,
) -> bool
    ensures key_len { IsTrue result → IsAesKeyLen (length key.now) }
    ensures opened { IsAesKeyLen (length key.now)
        → OpenedAttached (aes key.now) nonce.now aad.now start in_out.old result in_out.new }
    ensures count { IsTrue result → plaintext_len.new ≡ length in_out.old - tag_len - start }
    ensures refused { IsFalse result
        → (in_out.new ≡ in_out.old) × (plaintext_len.new ≡ plaintext_len.old) }
{
    let mut expanded = ExpandedKey::zeros();
    expand(&mut expanded, key, width)
        && deerlapse_key_open(&expanded, nonce, aad, in_out, start, plaintext_len)
}
