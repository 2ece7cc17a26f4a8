//! A `deerlapse_xaes`: a key of XAES-256-GCM (c2sp.org/XAES-256-GCM), which seals each message with AES-256-GCM (SP 800-38D)
//! under a key that is derived for the message.

ghost use Rattle.std.specs.Prelude.{◌≡◌, ◌+◌, ◌-◌, ◌↔◌, length, take, drop, IsTrue, IsFalse, IsSome, IfSome};
ghost use Rattle.aead_ciphers.specs.Gcm.{Fits, tag_len};
ghost use Rattle.aead_ciphers_wide.specs.ExpandedKey.{IsExpanded as IsMessageKey, bytes_of as message_key_bytes};
ghost use Rattle.xaes.specs.Expanded.{IsExpanded, bytes_of, zero_key};
ghost use Rattle.xaes.specs.Xaes.{XaesOpened, XaesOpenedAttached, message_key, message_nonce, xaes_decrypted, xaes_encrypted, xaes_sealed, xaes_tag};
ghost use Rattle.deerlapse.specs.XaesKey.{HasXaesRounds, IsXaesKeyOrNone};

use crate::key::{deerlapse_key_open, deerlapse_key_open_separate_tag, deerlapse_key_seal, width};
use crate::out_of_place::{
    deerlapse_key_open_appended_tag_sized, deerlapse_key_open_to_sized,
    deerlapse_key_seal_append_tag_sized, deerlapse_key_seal_to_sized,
};
use aead_ciphers::aead::{MAX_TAG_LEN, NONCE_LEN};
use aead_ciphers::aes_gcm::GcmKey;
use aead_ciphers_base::aes::AES_256_KEY_LEN;
use aead_ciphers_wide::aes_gcm;
use std::mem::size_of;
use xaes::{ExpandedKey, XAES_NONCE_LEN, XNonce};

// This is also the size of `deerlapse_xaes` in the header.
const _: () = prove!(size_of::<ExpandedKey>() == 264);

/// Returns whether the key has 14 rounds, as every AES-256 key has. A key of zeros has 0 rounds.
fn has_rounds(key: &ExpandedKey) -> bool
    ensures { IsTrue result ↔ HasXaesRounds key.now }
{
    key.rounds == 14
}

/// Expands the key of the message with this nonce, and returns the nonce that AES-256-GCM takes for it. Returns `None` if the key
/// is all zeros.
fn expand_message_key(
    key: &ExpandedKey,
    nonce: &[u8; XAES_NONCE_LEN],
    expanded: &mut aes_gcm::ExpandedKey,
) -> Option<[u8; NONCE_LEN]>
    requires { IsXaesKeyOrNone key.now }
    ensures filled { IsSome result ↔ HasXaesRounds key.now }
    ensures expanded { IfSome result (λ _. IsMessageKey expanded.new) }
    ensures bytes { IfSome result (λ _. message_key_bytes expanded.new ≡ message_key (bytes_of key.now) nonce.now) }
    ensures nonce { IfSome result (λ made. made ≡ message_nonce nonce.now) }
{
    if !has_rounds(key) {
        return None;
    }
    let nonce = XNonce::assume_unique_for_key(*nonce);
    Some(*key.expand_message_key(nonce, expanded).as_ref())
}

/// Expands a key of 32 bytes once, for all calls under a `deerlapse_xaes`. The previous bytes of `key` are not read. The call
/// never fails.
#[unsafe(no_mangle)]
pub extern "C" fn deerlapse_xaes_init(key: &mut ExpandedKey, bytes: &[u8; AES_256_KEY_LEN])
    ensures expanded { IsExpanded key.new }
    ensures bytes { bytes_of key.new ≡ bytes.now }
{
    key.expand(bytes, width());
}

/// Overwrites a key with zeros. Every call under it then returns false.
#[unsafe(no_mangle)]
pub extern "C" fn deerlapse_xaes_wipe(key: &mut ExpandedKey)
    ensures { key.new ≡ zero_key }
{
    *key = ExpandedKey::zeros();
}

/// Does the same as `deerlapse_key_seal` with XAES-256-GCM, whose nonce has 24 bytes. It returns false if that call does.
#[unsafe(no_mangle)]
pub extern "C" fn deerlapse_xaes_seal(
    key: &ExpandedKey,
    nonce: &[u8; XAES_NONCE_LEN],
    aad: &[u8],
    in_out: &mut [u8],
    tag: &mut [u8; MAX_TAG_LEN],
) -> bool
    requires { IsXaesKeyOrNone key.now }
    ensures accepted { IsTrue result
        ↔ (HasXaesRounds key.now × Fits (length aad.now) (length in_out.old)) }
    ensures ciphertext { IsTrue result → in_out.new ≡ xaes_encrypted (bytes_of key.now) nonce.now in_out.old }
    ensures tag { IsTrue result → tag.new ≡ xaes_tag (bytes_of key.now) nonce.now aad.now in_out.new }
    ensures refused { IsFalse result → (in_out.new ≡ in_out.old) × (tag.new ≡ tag.old) }
{
    let mut expanded = aes_gcm::ExpandedKey::zeros();
    match expand_message_key(key, nonce, &mut expanded) {
        Some(nonce) => deerlapse_key_seal(&expanded, &nonce, aad, in_out, tag),
        None => false,
    }
}

/// Does the same as `deerlapse_key_open` with XAES-256-GCM, whose nonce has 24 bytes. It returns false if that call does.
#[unsafe(no_mangle)]
pub extern "C" fn deerlapse_xaes_open(
    key: &ExpandedKey,
    nonce: &[u8; XAES_NONCE_LEN],
    aad: &[u8],
    in_out: &mut [u8],
    start: usize,
    plaintext_len: &mut usize,
) -> bool
    requires { IsXaesKeyOrNone key.now }
    ensures filled { IsTrue result → HasXaesRounds key.now }
    ensures opened { HasXaesRounds key.now
        → XaesOpenedAttached (bytes_of key.now) nonce.now aad.now start in_out.old result in_out.new }
    ensures count { IsTrue result → plaintext_len.new ≡ length in_out.old - tag_len - start }
    ensures refused { IsFalse result
        → (in_out.new ≡ in_out.old) × (plaintext_len.new ≡ plaintext_len.old) }
{
    let mut expanded = aes_gcm::ExpandedKey::zeros();
    match expand_message_key(key, nonce, &mut expanded) {
        Some(nonce) => deerlapse_key_open(&expanded, &nonce, aad, in_out, start, plaintext_len),
        None => false,
    }
}

/// Does the same as `deerlapse_key_open_separate_tag` with XAES-256-GCM, whose nonce has 24 bytes. It returns false if that call
/// does.
#[unsafe(no_mangle)]
pub extern "C" fn deerlapse_xaes_open_separate_tag(
    key: &ExpandedKey,
    nonce: &[u8; XAES_NONCE_LEN],
    aad: &[u8],
    in_out: &mut [u8],
    start: usize,
    tag: &[u8; MAX_TAG_LEN],
) -> bool
    requires { IsXaesKeyOrNone key.now }
    ensures filled { IsTrue result → HasXaesRounds key.now }
    ensures opened { HasXaesRounds key.now → XaesOpened (bytes_of key.now) nonce.now aad.now tag.now
        start in_out.old result in_out.new }
    ensures refused { IsFalse result → in_out.new ≡ in_out.old }
{
    let mut expanded = aes_gcm::ExpandedKey::zeros();
    match expand_message_key(key, nonce, &mut expanded) {
        Some(nonce) => {
            deerlapse_key_open_separate_tag(&expanded, &nonce, aad, in_out, start, tag)
        }
        None => false,
    }
}

/// Does the same as `deerlapse_key_seal_to_sized` with XAES-256-GCM, whose nonce has 24 bytes. It returns false if that call
/// does.
#[unsafe(no_mangle)]
pub extern "C" fn deerlapse_xaes_seal_to_sized(
    key: &ExpandedKey,
    nonce: &[u8; XAES_NONCE_LEN],
    aad: &[u8],
    message: &[u8],
    out: &mut [u8],
    tag: &mut [u8; MAX_TAG_LEN],
) -> bool
    requires { IsXaesKeyOrNone key.now }
    ensures accepted { IsTrue result ↔ (HasXaesRounds key.now × (length out.old ≡ length message.now)
        × Fits (length aad.now) (length message.now)) }
    ensures ciphertext { IsTrue result → out.new ≡ xaes_encrypted (bytes_of key.now) nonce.now message.now }
    ensures tag { IsTrue result → tag.new ≡ xaes_tag (bytes_of key.now) nonce.now aad.now out.new }
    ensures refused { IsFalse result → (out.new ≡ out.old) × (tag.new ≡ tag.old) }
{
    let mut expanded = aes_gcm::ExpandedKey::zeros();
    match expand_message_key(key, nonce, &mut expanded) {
        Some(nonce) => deerlapse_key_seal_to_sized(&expanded, &nonce, aad, message, out, tag),
        None => false,
    }
}

/// Does the same as `deerlapse_key_open_to_sized` with XAES-256-GCM, whose nonce has 24 bytes. It returns false if that call
/// does.
#[unsafe(no_mangle)]
pub extern "C" fn deerlapse_xaes_open_to_sized(
    key: &ExpandedKey,
    nonce: &[u8; XAES_NONCE_LEN],
    aad: &[u8],
    ciphertext: &[u8],
    out: &mut [u8],
    tag: &[u8; MAX_TAG_LEN],
) -> bool
    requires { IsXaesKeyOrNone key.now }
    ensures accepted { IsTrue result ↔ (HasXaesRounds key.now × (length out.old ≡ length ciphertext.now)
        × Fits (length aad.now) (length ciphertext.now)
        × (tag.now ≡ xaes_tag (bytes_of key.now) nonce.now aad.now ciphertext.now)) }
    ensures plaintext { IsTrue result → out.new ≡ xaes_decrypted (bytes_of key.now) nonce.now ciphertext.now }
    ensures refused { IsFalse result → out.new ≡ out.old }
{
    let mut expanded = aes_gcm::ExpandedKey::zeros();
    match expand_message_key(key, nonce, &mut expanded) {
        Some(nonce) => deerlapse_key_open_to_sized(&expanded, &nonce, aad, ciphertext, out, tag),
        None => false,
    }
}

/// Does the same as `deerlapse_key_seal_append_tag_sized` with XAES-256-GCM, whose nonce has 24 bytes. It returns false if that
/// call does.
#[unsafe(no_mangle)]
pub extern "C" fn deerlapse_xaes_seal_append_tag_sized(
    key: &ExpandedKey,
    nonce: &[u8; XAES_NONCE_LEN],
    aad: &[u8],
    message: &[u8],
    out: &mut [u8],
) -> bool
    requires { IsXaesKeyOrNone key.now }
    ensures accepted { IsTrue result
        ↔ (HasXaesRounds key.now × (length out.old ≡ length message.now + tag_len)
        × Fits (length aad.now) (length message.now)) }
    ensures sealed { IsTrue result → out.new ≡ xaes_sealed (bytes_of key.now) nonce.now aad.now message.now }
    ensures refused { IsFalse result → out.new ≡ out.old }
{
    let mut expanded = aes_gcm::ExpandedKey::zeros();
    match expand_message_key(key, nonce, &mut expanded) {
        Some(nonce) => { deerlapse_key_seal_append_tag_sized(&expanded, &nonce, aad, message, out) }
        None => false,
    }
}

/// Does the same as `deerlapse_key_open_appended_tag_sized` with XAES-256-GCM, whose nonce has 24 bytes. It returns false if that
/// call does.
#[unsafe(no_mangle)]
pub extern "C" fn deerlapse_xaes_open_appended_tag_sized(
    key: &ExpandedKey,
    nonce: &[u8; XAES_NONCE_LEN],
    aad: &[u8],
    ciphertext_and_tag: &[u8],
    out: &mut [u8],
) -> bool
    requires { IsXaesKeyOrNone key.now }
    ensures accepted { let n = length out.old in let ciphertext = take n ciphertext_and_tag.now in
        IsTrue result
        ↔ (HasXaesRounds key.now × (length ciphertext_and_tag.now ≡ n + tag_len) × Fits (length aad.now) n
        × (drop n ciphertext_and_tag.now ≡ xaes_tag (bytes_of key.now) nonce.now aad.now ciphertext)) }
    ensures plaintext { IsTrue result → out.new ≡ xaes_decrypted (bytes_of key.now) nonce.now
        (take (length out.old) ciphertext_and_tag.now) }
    ensures refused { IsFalse result → out.new ≡ out.old }
{
    let mut expanded = aes_gcm::ExpandedKey::zeros();
    match expand_message_key(key, nonce, &mut expanded) {
        Some(nonce) => {
            deerlapse_key_open_appended_tag_sized(&expanded, &nonce, aad, ciphertext_and_tag, out)
        }
        None => false,
    }
}
