//! `OpeningKey` of `aead_ciphers`, which opens under the nonces of a sequence, has the trait `library::OpeningKey`.

use crate::library;
use aead_ciphers::aead::generic::OpeningKey;
use aead_ciphers::aead::{Aad, BoundKey, NonceSequence, UnboundKey, Unspecified};
use aead_ciphers::aes_gcm::GcmKey;
use std::ops::RangeFrom;

impl<K: GcmKey, N: NonceSequence + Drop> library::OpeningKey<UnboundKey, N> for OpeningKey<K, N> {
    ghost state = { λ bound. bound };

    fn new(unbound: UnboundKey, nonces: N) -> Self {
        BoundKey::new(unbound, nonces)
    }

    fn open_within<'a>(
        &mut self,
        aad: Aad<'_>,
        in_out: &'a mut [u8],
        ciphertext_and_tag: RangeFrom<usize>,
    ) -> Result<&'a mut [u8], Unspecified> {
        OpeningKey::open_within(self, aad, in_out, ciphertext_and_tag)
    }

    fn open_within_to_front(
        &mut self,
        aad: Aad<'_>,
        in_out: &mut [u8],
        ciphertext_and_tag: RangeFrom<usize>,
    ) -> Result<usize, Unspecified> {
        OpeningKey::open_within_to_front(self, aad, in_out, ciphertext_and_tag)
    }

    fn open_in_place<'a>(
        &mut self,
        aad: Aad<'_>,
        in_out: &'a mut [u8],
    ) -> Result<&'a mut [u8], Unspecified> {
        OpeningKey::open_in_place(self, aad, in_out)
    }

    fn open_in_place_to_front(
        &mut self,
        aad: Aad<'_>,
        in_out: &mut [u8],
    ) -> Result<usize, Unspecified> {
        OpeningKey::open_in_place_to_front(self, aad, in_out)
    }
}
