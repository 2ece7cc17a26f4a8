//! A `deerlapse_key`: an AES-GCM key (SP 800-38D) that is expanded once, and then seals and opens messages in place, under nonces
//! of the caller's choice.

ghost use Rattle.std.specs.Prelude.{◌≡◌, ◌-◌, ◌↔◌, length, IsTrue, IsFalse};
ghost use Rattle.aead_ciphers_base.specs.Aes.{aes};
ghost use Rattle.aead_ciphers_wide.specs.ExpandedKey.{bytes_of, zero_key};
ghost use Rattle.aead_ciphers.specs.Gcm.{Fits, gcm_encrypted, gcm_tag, tag_len, Opened, OpenedAttached};
ghost use Rattle.aead_ciphers_wide.specs.Width.{width_bits};
ghost use Rattle.deerlapse.specs.AesKey.{ExpandsKey, HasRounds, IsKeyOrNone};

use aead_ciphers::aead::{Aad, MAX_TAG_LEN, NONCE_LEN, Nonce, Tag, Unspecified};
use aead_ciphers::aes_gcm::GcmKey;
use aead_ciphers::gcm::fits;
use aead_ciphers_base::aes::{KeyBytes, Work};
use aead_ciphers_wide::aes::Width;
use aead_ciphers_wide::aes_gcm::ExpandedKey;
use std::mem::size_of;

// This is also the size of `deerlapse_key` in the header.
const _: () = prove!(size_of::<ExpandedKey>() == 3192);

/// Returns whether the key has 10 to 14 rounds, as every AES key has. A key of zeros has 0 rounds.
pub(crate) fn has_rounds(key: &ExpandedKey) -> bool
    ensures { IsTrue result ↔ HasRounds key.now }
{
    key.rounds >= 10 && key.rounds <= 14
}

/// Returns the width of the planes of each key that a call expands. It has no contract, since no result depends on the width: the
/// contracts of the calls are proved for either. The source has the width for processors whose vectors have 128 bits. In the
/// assembly for processors with wider vectors, `tools/dist` replaces it by the other one.
#[inline(never)]
pub(crate) fn width() -> Width {
    Width::Bits128
}

/// Expands a key once, for all calls under a `deerlapse_key`. The previous bytes of `key` are not read.
///
/// Returns false if `bytes` does not have 16 or 32 bytes. Every byte of `key` is then zero.
#[unsafe(no_mangle)]
pub extern "C" fn deerlapse_key_init(key: &mut ExpandedKey, bytes: &[u8]) -> bool
    ensures { ExpandsKey bytes.now result key.new }
{
    expand(key, bytes, width())
}

/// Does the same as `deerlapse_key_init`, for planes of this width.
pub(crate) fn expand(key: &mut ExpandedKey, bytes: &[u8], width: Width) -> bool
    ensures expands { ExpandsKey bytes.now result key.new }
    ensures width { IsTrue result → key.new.width ≡ width_bits width }
{
    match KeyBytes::from_slice(bytes) {
        Ok(bytes) => {
            key.expand_with_width(bytes, width, &mut Work::new());
            true
        }
        Err(_) => {
            deerlapse_key_wipe(key);
            false
        }
    }
}

/// Overwrites a key with zeros. Every call under it then returns false.
#[unsafe(no_mangle)]
pub extern "C" fn deerlapse_key_wipe(key: &mut ExpandedKey)
    ensures { key.new ≡ zero_key }
{
    *key = ExpandedKey::zeros();
}

/// Does the same as `deerlapse_seal`, under an expanded key.
///
/// Returns false if the key is all zeros, or if a length is not one that `deerlapse_seal` takes.
#[unsafe(no_mangle)]
pub extern "C" fn deerlapse_key_seal(
    key: &ExpandedKey,
    nonce: &[u8; NONCE_LEN],
    aad: &[u8],
    in_out: &mut [u8],
    tag: &mut [u8; MAX_TAG_LEN],
) -> bool
    requires { IsKeyOrNone key.now }
    ensures accepted { IsTrue result
        ↔ (HasRounds key.now × Fits (length aad.now) (length in_out.old)) }
    ensures ciphertext { IsTrue result
        → in_out.new ≡ gcm_encrypted (aes (bytes_of key.now)) nonce.now in_out.old }
    ensures tag { IsTrue result
        → tag.new ≡ gcm_tag (aes (bytes_of key.now)) nonce.now aad.now in_out.new }
    ensures refused { IsFalse result → (in_out.new ≡ in_out.old) × (tag.new ≡ tag.old) }
{
    if !has_rounds(key) {
        return false;
    }
    let nonce = Nonce::assume_unique_for_key(*nonce);
    match key.seal(nonce, Aad::from(aad), in_out, &mut Work::new()) {
        Ok(made) => {
            tag.copy_from_slice(made.as_ref());
            true
        }
        Err(Unspecified) => false,
    }
}

/// Does the same as `deerlapse_open`, under an expanded key.
///
/// Returns false if the key is all zeros, if there are fewer than 16 bytes from `start` on, if a length is not one that
/// `deerlapse_seal` takes, or if the tag is wrong.
#[unsafe(no_mangle)]
pub extern "C" fn deerlapse_key_open(
    key: &ExpandedKey,
    nonce: &[u8; NONCE_LEN],
    aad: &[u8],
    in_out: &mut [u8],
    start: usize,
    plaintext_len: &mut usize,
) -> bool
    requires { IsKeyOrNone key.now }
    ensures filled { IsTrue result → HasRounds key.now }
    ensures opened { HasRounds key.now
        → OpenedAttached (aes (bytes_of key.now)) nonce.now aad.now start in_out.old
        result in_out.new }
    ensures count { IsTrue result → plaintext_len.new ≡ length in_out.old - tag_len - start }
    ensures refused { IsFalse result
        → (in_out.new ≡ in_out.old) × (plaintext_len.new ≡ plaintext_len.old) }
{
    if !has_rounds(key) {
        return false;
    }
    let nonce = Nonce::assume_unique_for_key(*nonce);
    match key.open_within_to_front(nonce, Aad::from(aad), in_out, start..) {
        Ok(len) => {
            *plaintext_len = len;
            true
        }
        Err(Unspecified) => false,
    }
}

/// Does the same as `deerlapse_key_open` for a ciphertext whose tag is not in `in_out`. The tag may come right after `in_out`, so
/// it is not read before the lengths are checked.
///
/// Returns false if the key is all zeros, if `start` is beyond the end of `in_out`, if a length is not one that `deerlapse_seal`
/// takes, or if the tag is wrong.
#[unsafe(no_mangle)]
pub extern "C" fn deerlapse_key_open_separate_tag(
    key: &ExpandedKey,
    nonce: &[u8; NONCE_LEN],
    aad: &[u8],
    in_out: &mut [u8],
    start: usize,
    tag: &[u8; MAX_TAG_LEN],
) -> bool
    requires { IsKeyOrNone key.now }
    ensures filled { IsTrue result → HasRounds key.now }
    ensures opened { HasRounds key.now → Opened (aes (bytes_of key.now)) nonce.now aad.now tag.now
        start in_out.old result in_out.new }
    ensures refused { IsFalse result → in_out.new ≡ in_out.old }
{
    match in_out.len().checked_sub(start) {
        Some(len) if has_rounds(key) && fits(aad.len(), len) => {
            let nonce = Nonce::assume_unique_for_key(*nonce);
            let tag = Tag::from(*tag);
            key.open(
                nonce,
                Aad::from(aad),
                tag,
                in_out,
                start..,
                &mut Work::new(),
            )
            .is_ok()
        }
        _ => false,
    }
}
