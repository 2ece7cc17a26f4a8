//! `SealingKey` of `aead_ciphers`, which seals under the nonces of a sequence, has the trait `library::SealingKey`.

use crate::library;
use aead_ciphers::aead::generic::SealingKey;
use aead_ciphers::aead::{Aad, BoundKey, InOut, NonceSequence, Tag, UnboundKey, Unspecified};
use aead_ciphers::aes_gcm::GcmKey;

impl<K: GcmKey, N: NonceSequence + Drop> library::SealingKey<UnboundKey, N> for SealingKey<K, N> {
    ghost state = { λ bound. bound };

    fn new(unbound: UnboundKey, nonces: N) -> Self {
        BoundKey::new(unbound, nonces)
    }

    fn seal_in_place_append_tag<B: InOut>(
        &mut self,
        aad: Aad<'_>,
        in_out: &mut B,
    ) -> Result<(), Unspecified> {
        SealingKey::seal_in_place_append_tag(self, aad, in_out)
    }

    fn seal_in_place_separate_tag(
        &mut self,
        aad: Aad<'_>,
        in_out: &mut [u8],
    ) -> Result<Tag, Unspecified> {
        SealingKey::seal_in_place_separate_tag(self, aad, in_out)
    }
}
