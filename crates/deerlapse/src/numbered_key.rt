//! The key, the IV and the numbers of a `deerlapse_sealer` or a `deerlapse_opener`, and the nonce of a number (RFC 8446 section
//! 5.3, RFC 9001 section 5.3).

ghost use Rattle.std.specs.Prelude.{◌≡◌, IsTrue};
ghost use Rattle.aead_ciphers.specs.Counting.{xored_nonce};
ghost use Rattle.aead_ciphers_wide.specs.Width.{width_bits};
ghost use Rattle.deerlapse.specs.NumberedKey.{InitializesNumberedKey, zero_numbered_key};

use crate::key::deerlapse_key_wipe;
use aead_ciphers::aead::{NONCE_LEN, nonce_of};
use aead_ciphers_base::aes::{KeyBytes, Work};
use aead_ciphers_wide::aes::Width;
use aead_ciphers_wide::aes_gcm::ExpandedKey;
use std::mem::size_of;

/// A sealer or an opener: an AES-GCM key, an IV, and the numbers from `next` up to `limit`, exclusive, that messages get. The IV
/// and a number give the nonce of a message. The struct is in the caller's memory.
#[repr(C)]
#[derive(Drop)]
pub struct NumberedKey {
    /// The expanded key.
    pub key: ExpandedKey,
    /// The number of the next message.
    pub next: u64,
    /// The end of the numbers, which no message gets.
    pub limit: u64,
    /// The IV, which is XORed with each number.
    pub iv: [u8; NONCE_LEN],
    /// Zeros, in the place of a later version's fields.
    pub room: [u8; ROOM_LEN],
}

const ROOM_LEN: usize = 220;

// This is also the size of `deerlapse_sealer` and `deerlapse_opener` in the header.
const _: () = prove!(size_of::<NumberedKey>() == 3440);

impl NumberedKey {
    /// Overwrites this value with an expanded key, for planes of this width, its IV, and the numbers from `first` up to `limit`,
    /// exclusive.
    ///
    /// Returns false if the key does not have 16 or 32 bytes, or if `first` is above `limit`. Nothing is overwritten then.
    pub(crate) fn init(
        &mut self,
        key: &[u8],
        iv: &[u8; NONCE_LEN],
        first: u64,
        limit: u64,
        width: Width,
    ) -> bool
        ensures initializes { InitializesNumberedKey key.now iv.now first limit self.old result self.new }
        ensures width { IsTrue result → self.new.key.width ≡ width_bits width }
    {
        let Ok(key) = KeyBytes::from_slice(key) else {
            return false
        };
        if first > limit {
            return false;
        }
        self.key.expand_with_width(key, width, &mut Work::new());
        self.next = first;
        self.limit = limit;
        self.iv = *iv;
        self.room = [0; ROOM_LEN];
        true
    }

    /// Overwrites this value with zeros. It then has no number left, and no key.
    pub(crate) fn wipe(&mut self)
        ensures { self.new ≡ zero_numbered_key }
    {
        deerlapse_key_wipe(&mut self.key);
        self.next = 0;
        self.limit = 0;
        self.iv = [0; NONCE_LEN];
        self.room = [0; ROOM_LEN];
    }
}

/// Writes the nonce of 12 bytes that a sealer with this IV uses for a number (RFC 8446 section 5.3).
#[unsafe(no_mangle)]
pub extern "C" fn deerlapse_nonce(iv: &[u8; NONCE_LEN], number: u64, nonce: &mut [u8; NONCE_LEN])
    ensures { nonce.new ≡ xored_nonce iv.now number }
{
    *nonce = *nonce_of(iv, number).as_ref();
}
