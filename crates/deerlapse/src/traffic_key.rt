//! The key and the IV of a `deerlapse_quic_key` or a `deerlapse_record_key`, and the suite of a secret, which its length tells.

ghost use Rattle.std.specs.Prelude.{◌≡◌, ◌↔◌, length, IsTrue, IsSome, IfSome};
ghost use Rattle.aead_ciphers_wide.specs.Width.{width_bits};
ghost use Rattle.deerlapse.specs.TrafficKey.{InitializesTrafficKey, IsDigestLen, secret_of, zero_traffic_key};

use crate::key::deerlapse_key_wipe;
use aead_ciphers::aead::NONCE_LEN;
use aead_ciphers_base::aes::{KeyBytes, Work};
use aead_ciphers_wide::aes::Width;
use aead_ciphers_wide::aes_gcm::ExpandedKey;
use key_derivation::Secret;
use std::mem::size_of;

/// A key of QUIC or of TLS 1.3: an AES-GCM key, and the IV that is XORed with the number of each packet or record. The struct is
/// in the caller's memory.
#[repr(C)]
#[derive(Drop)]
pub struct TrafficKey {
    /// The expanded key.
    pub key: ExpandedKey,
    /// The IV, which is XORed with each number.
    pub iv: [u8; NONCE_LEN],
    /// Zeros, so that the struct has no padding.
    pub room: [u8; ROOM_LEN],
}

const ROOM_LEN: usize = 4;

// This is also the size of `deerlapse_quic_key` and `deerlapse_record_key` in the header.
const _: () = prove!(size_of::<TrafficKey>() == 3208);

/// The length in bytes of a secret of TLS_AES_256_GCM_SHA384, and of a digest of SHA-384.
pub(crate) const SHA_384_LEN: usize = 48;

/// The length in bytes of a secret of TLS_AES_128_GCM_SHA256, and of a digest of SHA-256.
pub(crate) const SHA_256_LEN: usize = 32;

impl TrafficKey {
    /// Overwrites this value with an expanded key, for planes of this width, and its IV.
    ///
    /// Returns false if the key does not have 16 or 32 bytes. Nothing is overwritten then.
    pub(crate) fn init(&mut self, key: &[u8], iv: &[u8; NONCE_LEN], width: Width) -> bool
        ensures initializes { InitializesTrafficKey key.now iv.now self.old result self.new }
        ensures width { IsTrue result → self.new.key.width ≡ width_bits width }
    {
        let Ok(key) = KeyBytes::from_slice(key) else {
            return false
        };
        self.key.expand_with_width(key, width, &mut Work::new());
        self.iv = *iv;
        self.room = [0; ROOM_LEN];
        true
    }

    /// Overwrites this value with zeros. Every call under it then returns false.
    pub(crate) fn wipe(&mut self)
        ensures { self.new ≡ zero_traffic_key }
    {
        deerlapse_key_wipe(&mut self.key);
        self.iv = [0; NONCE_LEN];
        self.room = [0; ROOM_LEN];
    }
}

/// Returns the secret with these bytes: 32 for TLS_AES_128_GCM_SHA256, or 48 for TLS_AES_256_GCM_SHA384. Returns `None` for any
/// other length.
pub(crate) fn secret_of(bytes: &[u8]) -> Option<Secret>
    ensures accepted { IsSome result ↔ IsDigestLen (length bytes.now) }
    ensures made { IfSome result (λ secret. secret ≡ secret_of bytes.now) }
{
    match bytes.len() {
        SHA_384_LEN => Some(Secret::aes_256_gcm(*bytes.as_array()?)),
        _ => Some(Secret::aes_128_gcm(*bytes.as_array()?)),
    }
}
