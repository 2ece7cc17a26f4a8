//! A `deerlapse_message`: a message that is sealed in pieces, under a `deerlapse_key`.

ghost use Rattle.std.specs.Prelude.{◌≡◌, ◌↔◌, ◌+◌, ◌<◌, ℕ, List, [], length, replicate, IsTrue, IsFalse};
ghost use Rattle.aead_ciphers_base.specs.Aes.{aes};
ghost use Rattle.aead_ciphers.specs.Gcm.{Fits, gcm_tag};
ghost use Rattle.aead_ciphers_wide.specs.ExpandedKey.{bytes_of};
ghost use Rattle.aead_ciphers_wide.specs.Pieces.{HasSealed, SealsPiece, zero_state};
ghost use Rattle.deerlapse.specs.AesKey.{HasRounds, IsBegunOrNone, IsKeyOrNone};

use crate::key::has_rounds;
use aead_ciphers::aead::{Aad, MAX_TAG_LEN, NONCE_LEN, Nonce, Unspecified};
use aead_ciphers_wide::aes_gcm::{ExpandedKey, SealState};
use std::mem::{replace, size_of};

// This is also the size of `deerlapse_message` in the header.
const _: () = prove!(size_of::<SealState>() == 176);

/// Begins a message under this key and nonce, with this AAD. The previous bytes of `message` are not read.
///
/// Returns false if the key is zeros, or if the AAD has 2^61 bytes or more.
#[unsafe(no_mangle)]
pub extern "C" fn deerlapse_key_begin(
    key: &ExpandedKey,
    nonce: &[u8; NONCE_LEN],
    aad: &[u8],
    message: &mut SealState,
) -> bool
    requires { IsKeyOrNone key.now }
    ensures accepted { IsTrue result ↔ (HasRounds key.now × Fits (length aad.now) 0) }
    ensures begun { IsTrue result
        → HasSealed (aes (bytes_of key.now)) nonce.now aad.now [] [] message.new }
    ensures cleared { IsTrue result → message.new.batch ≡ replicate 128 0 }
    ensures refused { IsFalse result → message.new ≡ message.old }
{
    if !has_rounds(key) {
        return false;
    }
    match key.begin(Nonce::assume_unique_for_key(*nonce), Aad::from(aad)) {
        Ok(state) => {
            *message = state;
            true
        }
        Err(Unspecified) => false,
    }
}

/// Encrypts the next piece in place, under the key that the message began with.
///
/// Returns false if the message has not begun, if it would be longer than 2^36 - 32 bytes, or if the key is zeros.
#[unsafe(no_mangle)]
pub extern "C" fn deerlapse_key_update(
    key: &ExpandedKey,
    message: &mut SealState,
    in_out: &mut [u8],
) -> bool
    requires key { IsKeyOrNone key.now }
    requires message { IsBegunOrNone message.old }
    ensures accepted { IsTrue result ↔ (HasRounds key.now × (0 < message.old.begun)
        × Fits message.old.aad_len (message.old.len + length in_out.old)) }
    ensures sealed { IsTrue result → SealsPiece (aes (bytes_of key.now)) message.old
        in_out.old in_out.new message.new }
    ensures refused { IsFalse result → (message.new ≡ message.old) × (in_out.new ≡ in_out.old) }
{
    has_rounds(key) && message.begun != 0 && key.update(message, in_out).is_ok()
}

/// Ends the message, and writes the tag of its AAD and of the ciphertexts of its pieces, one after another. `message` is then all
/// zeros.
///
/// Returns false if the message has not begun, or if the key is zeros.
#[unsafe(no_mangle)]
pub extern "C" fn deerlapse_key_finish(
    key: &ExpandedKey,
    message: &mut SealState,
    tag: &mut [u8; MAX_TAG_LEN],
) -> bool
    requires key { IsKeyOrNone key.now }
    requires message { IsBegunOrNone message.old }
    ensures accepted { IsTrue result ↔ (HasRounds key.now × (0 < message.old.begun)) }
    ensures tag { (nonce aad text ciphertext : List ℕ)
        → HasSealed (aes (bytes_of key.now)) nonce aad text ciphertext message.old
        → IsTrue result → tag.new ≡ gcm_tag (aes (bytes_of key.now)) nonce aad ciphertext }
    ensures ended { IsTrue result → message.new ≡ zero_state }
    ensures refused { IsFalse result → (message.new ≡ message.old) × (tag.new ≡ tag.old) }
{
    if !has_rounds(key) || message.begun == 0 {
        return false;
    }
    let state = replace(message, SealState::zeros());
    tag.copy_from_slice(key.finish(state).as_ref());
    true
}
