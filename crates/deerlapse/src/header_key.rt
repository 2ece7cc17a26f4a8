//! A `deerlapse_quic_header_key`: an AES key that is expanded once, and computes the masks of the headers of QUIC's packets (RFC
//! 9001 section 5.4.3).

ghost use Rattle.std.specs.Prelude.{◌≡◌, ◌↔◌, IsTrue, IsFalse};
ghost use Rattle.aead_ciphers_base.specs.KeyBytes.{key_bytes};
ghost use Rattle.aead_ciphers_base.specs.Mask.{aes_mask};
ghost use Rattle.deerlapse.specs.HeaderKey.{HasHeaderRounds, InitializesHeaderKey, IsHeaderKeyOf, IsHeaderKeyOrNone, IsQuicHeaderKey, bytes_of, zero_header_key};
ghost use Rattle.deerlapse.specs.TrafficKey.{DerivesQuicKey};

use crate::traffic_key::secret_of;
use aead_ciphers::aead::quic::Sample;
use aead_ciphers_base::aes::{BLOCK_LEN, KeyBytes};
use aead_ciphers_wide::aes::{BlockKeyRef, RoundKeys, expand};
use key_derivation::quic::{QuicSecret, Version};
use std::mem::size_of;

/// An expanded AES key for single blocks. The struct is in the caller's memory.
#[repr(C)]
#[derive(Drop)]
pub struct HeaderKey {
    /// The number of rounds: 10 for AES-128, 14 for AES-256. It has 8 bytes, so that the struct has no padding.
    pub rounds: u64,
    /// The round keys (FIPS 197 section 5.2).
    pub round_keys: RoundKeys,
}

// This is also the size of `deerlapse_quic_header_key` in the header.
const _: () = prove!(size_of::<HeaderKey>() == 248);

impl HeaderKey {
    /// Overwrites this value with the expansion of a key. No byte stays of a key that it held before.
    fn expand(&mut self, bytes: KeyBytes<'_>)
        ensures { IsHeaderKeyOf self.new (key_bytes bytes.entry) }
    {
        self.rounds = expand(&mut self.round_keys, bytes) as u64;
    }

    /// Returns whether the key has 10 to 14 rounds, as every AES key has. A key of zeros has 0 rounds.
    fn has_rounds(&self) -> bool
        ensures { IsTrue result ↔ HasHeaderRounds self.now }
    {
        self.rounds >= 10 && self.rounds <= 14
    }
}

/// Expands a header protection key. The previous bytes of `key` are not read.
///
/// Returns false if the key does not have 16 or 32 bytes.
#[unsafe(no_mangle)]
pub extern "C" fn deerlapse_quic_header_key_init(key: &mut HeaderKey, bytes: &[u8]) -> bool
    ensures { InitializesHeaderKey bytes.now key.old result key.new }
{
    let Ok(bytes) = KeyBytes::from_slice(bytes) else {
        return false
    };
    key.expand(bytes);
    true
}

/// Expands the header protection key of a secret, in the version with this number (RFC 9001 section 5.1, RFC 9369 section 3.3.2).
/// The previous bytes of `key` are not read.
///
/// Returns false if the version is neither 1 nor 2, or if the secret does not have 32 or 48 bytes.
#[unsafe(no_mangle)]
pub extern "C" fn deerlapse_quic_header_key_from_secret(
    key: &mut HeaderKey,
    version: u32,
    secret: &[u8],
) -> bool
    ensures { DerivesQuicKey IsQuicHeaderKey version secret.now key.old result key.new }
{
    let Some(version) = Version::from_number(version) else {
        return false
    };
    let Some(secret) = secret_of(secret) else {
        return false
    };
    let bytes = QuicSecret::new(version, secret).header_key();
    deerlapse_quic_header_key_init(key, bytes.as_slice())
}

/// Writes the header protection mask for a sample of 16 bytes (RFC 9001 section 5.4.3).
///
/// Returns false if the key is all zeros.
#[unsafe(no_mangle)]
pub extern "C" fn deerlapse_quic_header_key_mask(
    key: &HeaderKey,
    sample: &Sample,
    mask: &mut [u8; 5],
) -> bool
    requires { IsHeaderKeyOrNone key.now }
    ensures accepted { IsTrue result ↔ HasHeaderRounds key.now }
    ensures mask { IsTrue result → mask.new ≡ aes_mask (bytes_of key.now) sample.now }
    ensures refused { IsFalse result → mask.new ≡ mask.old }
{
    if !key.has_rounds() {
        return false;
    }
    *mask = BlockKeyRef::new(&key.round_keys, key.rounds as usize).new_mask(*sample);
    true
}

/// Overwrites a key with zeros. Every call under it then returns false.
#[unsafe(no_mangle)]
pub extern "C" fn deerlapse_quic_header_key_wipe(key: &mut HeaderKey)
    ensures { key.new ≡ zero_header_key }
{
    key.rounds = 0;
    key.round_keys = [[0; BLOCK_LEN]; 15];
}
