//! A `deerlapse_sealer`: an AES-GCM key that numbers the messages that it seals, and seals each under the nonce of its number.

ghost use Rattle.std.specs.Prelude.{◌≡◌, ◌+◌, ◌<◌, ◌↔◌, length, IsTrue, IsFalse};
ghost use Rattle.aead_ciphers_base.specs.Aes.{aes};
ghost use Rattle.aead_ciphers.specs.Gcm.{Fits, gcm_encrypted, gcm_tag};
ghost use Rattle.deerlapse.specs.AesKey.{HasRounds, IsKeyOrNone};
ghost use Rattle.deerlapse.specs.NumberedKey.{InitializesNumberedKey, key_of, next_nonce, zero_numbered_key};

use crate::key::{deerlapse_key_seal, width};
use crate::numbered_key::NumberedKey;
use aead_ciphers::aead::{MAX_TAG_LEN, NONCE_LEN, nonce_of};

/// Initializes a sealer whose messages get the numbers from `first` up to `limit`, exclusive. Its previous bytes are not read. A
/// copy of it would use its nonces again.
///
/// Returns false if the key does not have 16 or 32 bytes, or if `first` is above `limit`.
#[unsafe(no_mangle)]
pub extern "C" fn deerlapse_sealer_init(
    sealer: &mut NumberedKey,
    key: &[u8],
    iv: &[u8; NONCE_LEN],
    first: u64,
    limit: u64,
) -> bool
    ensures { InitializesNumberedKey key.now iv.now first limit sealer.old result sealer.new }
{
    sealer.init(key, iv, first, limit, width())
}

/// Returns the number of the next message.
#[unsafe(no_mangle)]
pub extern "C" fn deerlapse_sealer_next(sealer: &NumberedKey) -> u64
    ensures { result ≡ sealer.now.next }
{
    sealer.next
}

/// Encrypts `in_out` in place under the nonce of the next number, writes its tag of 16 bytes, and counts the number up by one.
///
/// Returns false if no number is left, if the sealer is all zeros, or if a length is not one that `deerlapse_seal` takes. No
/// number is used then.
#[unsafe(no_mangle)]
pub extern "C" fn deerlapse_sealer_seal(
    sealer: &mut NumberedKey,
    aad: &[u8],
    in_out: &mut [u8],
    tag: &mut [u8; MAX_TAG_LEN],
) -> bool
    requires { IsKeyOrNone sealer.old.key }
    ensures accepted { IsTrue result ↔ ((sealer.old.next < sealer.old.limit)
        × HasRounds sealer.old.key × Fits (length aad.now) (length in_out.old)) }
    ensures ciphertext { IsTrue result → in_out.new
        ≡ gcm_encrypted (aes (key_of sealer.old)) (next_nonce sealer.old) in_out.old }
    ensures tag { IsTrue result → tag.new
        ≡ gcm_tag (aes (key_of sealer.old)) (next_nonce sealer.old) aad.now in_out.new }
    ensures counted { IsTrue result
        → sealer.new ≡ record sealer.old { next = sealer.old.next + 1 } }
    ensures refused { IsFalse result
        → (in_out.new ≡ in_out.old) × (tag.new ≡ tag.old) × (sealer.new ≡ sealer.old) }
{
    if sealer.next >= sealer.limit {
        return false;
    }
    let nonce = nonce_of(&sealer.iv, sealer.next);
    if !deerlapse_key_seal(&sealer.key, nonce.as_ref(), aad, in_out, tag) {
        return false;
    }
    sealer.next += 1;
    true
}

/// Overwrites a sealer with zeros. It then seals nothing.
#[unsafe(no_mangle)]
pub extern "C" fn deerlapse_sealer_wipe(sealer: &mut NumberedKey)
    ensures { sealer.new ≡ zero_numbered_key }
{
    sealer.wipe();
}
