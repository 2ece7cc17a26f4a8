//! A user-defined nonce sequence.

ghost use Rattle.std.specs.Prelude.{◌≡◌, false};

use aead_ciphers::aead::{NONCE_LEN, Nonce, NonceSequence, Unspecified};

/// A sequence that returns one nonce, once.
#[derive(Drop)]
pub struct OneNonce {
    nonce: [u8; NONCE_LEN],
    is_spent: bool,
}

impl OneNonce {
    /// Creates the sequence of this nonce alone.
    pub fn new(nonce: [u8; NONCE_LEN]) -> Self
        ensures { result ≡ record { nonce = nonce; is_spent = false } }
    {
        OneNonce {
            nonce,
            is_spent: false,
        }
    }
}

impl NonceSequence for OneNonce {
    ghost use Rattle.std.specs.Prelude.{◌≡◌, if◌then◌else◌, [], ◌∷◌, true};

    ghost spent = { λ s. (if s.is_spent then s.nonce ∷ [] else []) };

    ghost is_closed = { λ s. s.is_spent };

    ghost origin = { λ s. s.nonce };

    ghost gives = { λ s t. t ≡ record s { is_spent = true } };

    ghost refuses = { λ s t. (s.is_spent ≡ true) × (t ≡ s) };

    ghost is_next = { λ s nonce. nonce ≡ s.nonce };

    fn advance(&mut self) -> Result<Nonce, Unspecified> {
        if self.is_spent {
            return Err(Unspecified);
        }
        self.is_spent = true;
        Ok(Nonce::assume_unique_for_key(self.nonce))
    }
}
