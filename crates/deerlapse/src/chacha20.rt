//! Encryption and decryption with the ChaCha20 stream (RFC 8439), from any block on and without a tag.

ghost use Rattle.std.specs.Prelude.{◌≡◌, ◌+◌, ◌^◌, ◌≤◌, ◌↔◌, length, IsTrue, IsFalse};
ghost use Rattle.std.specs.Int.{div_ceil};
ghost use Rattle.aead_ciphers_base.specs.ChaCha20.{chacha20_encrypted};

use aead_ciphers::aead::{NONCE_LEN, Nonce};
use aead_ciphers_base::chacha::{BLOCK_LEN, Counter, KEY_LEN, Key, Overlapping};

/// XORs `in_out` with the key stream from block `counter` on, which both encrypts and decrypts (RFC 8439 section 2.4).
///
/// Returns false if `in_out` would need a block after the last one, whose counter is 2^32 - 1.
#[unsafe(no_mangle)]
pub extern "C" fn deerlapse_chacha20(
    key: &[u8; KEY_LEN],
    nonce: &[u8; NONCE_LEN],
    counter: u32,
    in_out: &mut [u8],
) -> bool
    ensures accepted { IsTrue result ↔ (counter + div_ceil (length in_out.old) 64 ≤ 2 ^ 32) }
    ensures output { IsTrue result
        → in_out.new ≡ chacha20_encrypted key.now counter nonce.now in_out.old }
    ensures refused { IsFalse result → in_out.new ≡ in_out.old }
{
    let blocks_left = (1 << 32) - counter as usize;
    if in_out.len().div_ceil(BLOCK_LEN) > blocks_left {
        return false;
    }
    let nonce = Nonce::assume_unique_for_key(*nonce);
    let counter = Counter::from_nonce_and_ctr(nonce, counter);
    Key::new(*key).encrypt(counter, Overlapping::from(in_out));
    true
}
