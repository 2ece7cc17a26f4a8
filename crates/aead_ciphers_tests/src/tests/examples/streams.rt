//! The ChaCha20 keystream, and QUIC header protection masks.

ghost use Rattle.std.specs.Prelude.{◌≡◌, ◌+◌, ◌^◌, ◌≤◌, length, IsOk, IfOk};
ghost use Rattle.std.specs.Int.{div_ceil};
ghost use Rattle.aead_ciphers.specs.ChaCha20.{chacha20_encrypted};
ghost use Rattle.aead_ciphers.specs.Mask.{aes_mask};

use aead_ciphers::aead::quic::{self, HeaderProtectionKey, Sample};
use aead_ciphers::aead::{NONCE_LEN, Nonce, Unspecified};
use aead_ciphers_base::chacha;
use aead_ciphers_base::overlapping::Overlapping;

/// XORs a message with the keystream, starting at block 1 (RFC 8439 section 2.4).
pub fn xor_stream(key: [u8; chacha::KEY_LEN], nonce: [u8; NONCE_LEN], message: &mut [u8])
    requires { 1 + div_ceil (length message.old) 64 ≤ 2 ^ 32 }
    ensures { message.new ≡ chacha20_encrypted key 1 nonce message.old }
{
    let nonce = Nonce::assume_unique_for_key(nonce);
    let counter = chacha::Counter::from_nonce_and_ctr(nonce, 1);
    chacha::Key::new(key).encrypt(counter, Overlapping::from(message));
}

/// Returns the mask for a packet's sample with an AES-128 key (RFC 9001 section 5.4.3).
pub fn mask(key_bytes: &[u8; 16], sample: &Sample) -> Result<[u8; 5], Unspecified>
    ensures accepted { IsOk result }
    ensures mask { IfOk result (λ mask. mask ≡ aes_mask key_bytes.now sample.now) }
{
    HeaderProtectionKey::new(&quic::AES_128, key_bytes)?.new_mask(sample)
}
