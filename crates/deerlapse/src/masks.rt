//! Header protection masks of QUIC (RFC 9001 section 5.4), with AES or ChaCha20, under key bytes that each call expands for
//! itself.

ghost use Rattle.std.specs.Prelude.{◌≡◌, ◌↔◌, length, IsTrue, IsFalse};
ghost use Rattle.aead_ciphers_base.specs.Mask.{aes_mask, chacha_mask};
ghost use Rattle.deerlapse.specs.AesKey.{IsAesKeyLen};

use aead_ciphers::aead::quic::Sample;
use aead_ciphers_base::aes::KeyBytes;
use aead_ciphers_base::chacha;
use aead_ciphers_wide::aes::BlockKey;

/// Writes the header protection mask for a sample of 16 bytes, with AES-128 for a key of 16 bytes and with AES-256 for one of
/// 32 (RFC 9001 section 5.4.3).
///
/// Returns false if the key has another length.
#[unsafe(no_mangle)]
pub extern "C" fn deerlapse_mask_aes(key: &[u8], sample: &Sample, mask: &mut [u8; 5]) -> bool
    ensures accepted { IsTrue result ↔ IsAesKeyLen (length key.now) }
    ensures mask { IsTrue result → mask.new ≡ aes_mask key.now sample.now }
    ensures refused { IsFalse result → mask.new ≡ mask.old }
{
    let Ok(key) = KeyBytes::from_slice(key) else {
        return false
    };
    *mask = BlockKey::new(key).new_mask(*sample);
    true
}

/// Writes the header protection mask for a sample of 16 bytes, with ChaCha20 (RFC 9001 section 5.4.4). It never fails.
#[unsafe(no_mangle)]
pub extern "C" fn deerlapse_mask_chacha20(
    key: &[u8; chacha::KEY_LEN],
    sample: &Sample,
    mask: &mut [u8; 5],
)
    ensures { mask.new ≡ chacha_mask key.now sample.now }
{
    *mask = chacha::Key::new(*key).new_mask(*sample);
}
