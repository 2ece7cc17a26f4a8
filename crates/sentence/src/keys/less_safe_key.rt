//! `LessSafeKey` of `aead_ciphers`, whose calls take the nonce, has the trait `library::LessSafeKey`.

use crate::library;
use aead_ciphers::aead::generic::LessSafeKey;
use aead_ciphers::aead::{Aad, InOut, Nonce, Tag, UnboundKey, Unspecified};
use aead_ciphers::aes_gcm::GcmKey;
use std::ops::RangeFrom;

impl<K: GcmKey> library::LessSafeKey<UnboundKey> for LessSafeKey<K> {
    ghost key = { λ key. key };

    fn new(unbound: UnboundKey) -> Self {
        LessSafeKey::new(unbound)
    }

    fn seal_in_place_separate_tag(
        &self,
        nonce: Nonce,
        aad: Aad<'_>,
        in_out: &mut [u8],
    ) -> Result<Tag, Unspecified> {
        LessSafeKey::seal_in_place_separate_tag(self, nonce, aad, in_out)
    }

    fn seal_in_place_append_tag<B: InOut>(
        &self,
        nonce: Nonce,
        aad: Aad<'_>,
        in_out: &mut B,
    ) -> Result<(), Unspecified> {
        LessSafeKey::seal_in_place_append_tag(self, nonce, aad, in_out)
    }

    fn open_in_place_separate_tag<'a>(
        &self,
        nonce: Nonce,
        aad: Aad<'_>,
        tag: Tag,
        in_out: &'a mut [u8],
        ciphertext: RangeFrom<usize>,
    ) -> Result<&'a mut [u8], Unspecified> {
        LessSafeKey::open_in_place_separate_tag(self, nonce, aad, tag, in_out, ciphertext)
    }

    fn open_in_place_separate_tag_to_front(
        &self,
        nonce: Nonce,
        aad: Aad<'_>,
        tag: Tag,
        in_out: &mut [u8],
        ciphertext: RangeFrom<usize>,
    ) -> Result<usize, Unspecified> {
        LessSafeKey::open_in_place_separate_tag_to_front(self, nonce, aad, tag, in_out, ciphertext)
    }

    fn open_within<'a>(
        &self,
        nonce: Nonce,
        aad: Aad<'_>,
        in_out: &'a mut [u8],
        ciphertext_and_tag: RangeFrom<usize>,
    ) -> Result<&'a mut [u8], Unspecified> {
        LessSafeKey::open_within(self, nonce, aad, in_out, ciphertext_and_tag)
    }

    fn open_within_to_front(
        &self,
        nonce: Nonce,
        aad: Aad<'_>,
        in_out: &mut [u8],
        ciphertext_and_tag: RangeFrom<usize>,
    ) -> Result<usize, Unspecified> {
        LessSafeKey::open_within_to_front(self, nonce, aad, in_out, ciphertext_and_tag)
    }

    fn open_in_place<'a>(
        &self,
        nonce: Nonce,
        aad: Aad<'_>,
        in_out: &'a mut [u8],
    ) -> Result<&'a mut [u8], Unspecified> {
        LessSafeKey::open_in_place(self, nonce, aad, in_out)
    }

    fn open_in_place_to_front(
        &self,
        nonce: Nonce,
        aad: Aad<'_>,
        in_out: &mut [u8],
    ) -> Result<usize, Unspecified> {
        LessSafeKey::open_in_place_to_front(self, nonce, aad, in_out)
    }

    fn open_to(
        &self,
        nonce: Nonce,
        aad: Aad<'_>,
        tag: Tag,
        ciphertext: &[u8],
        out: &mut [u8],
    ) -> Result<(), Unspecified> {
        LessSafeKey::open_to(self, nonce, aad, tag, ciphertext, out)
    }
}
