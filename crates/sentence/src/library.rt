//! What the sentence needs of a library: traits of its keys, which have for each call the clauses from which the sentence
//! follows, and no others.
//!
//! Each is a clause of the call of this name in `aead_ciphers`, or a field of such a clause. The traits of nonce sequences and of
//! buffers that grow are those of `aead_ciphers::aead`, since a caller brings both. The values that calls take and return are
//! also those of `aead_ciphers`.

ghost use Rattle.std.specs.Prelude.{◌≡◌, ◌↔◌, ◌-◌, ⊤, length, drop, take, IsOk, IfOk, OnOk, OnErr, is_ok};
ghost use Rattle.aead_ciphers_base.specs.Aes.{aes};
ghost use Rattle.aead_ciphers_base.specs.Values.{aad_bytes};
ghost use Rattle.aead_ciphers.specs.AeadKey.{AeadKey};
ghost use Rattle.aead_ciphers.specs.Algorithm.{key_len};
ghost use Rattle.aead_ciphers.specs.BoundState.{BoundState};
ghost use Rattle.aead_ciphers.specs.Gcm.{Fits, Opened, OpenedAttached, gcm_decrypted, gcm_encrypted, gcm_sealed, gcm_tag, tag_len};
ghost use Rattle.aead_ciphers.specs.Lending.{lent_buffer};
ghost use Rattle.aead_ciphers.specs.Runs.{JobStep, Runs};
ghost use Rattle.aead_ciphers.specs.Steps.{OpenStep, SealStep, with_tag};

use aead_ciphers::aead::{Aad, Algorithm, InOut, Nonce, NonceSequence, Tag, Unspecified};
use aead_ciphers::session::Job;
use std::ops::RangeFrom;

/// A key without a role, from which the other keys are made.
pub trait UnboundKey: Drop {
    // The algorithm and the bytes of the key.
    ghost key: { Self → AeadKey };

    /// Creates a key from its bytes.
    fn new(algorithm: &'static Algorithm, key_bytes: &[u8]) -> Result<Self, Unspecified>
    where
        Self: Sized,
        ensures accepted { IsOk result ↔ (length key_bytes.now ≡ key_len algorithm.now) }
        ensures made { IfOk result (λ made. key made ≡ record { algorithm = algorithm.now; bytes = key_bytes.now }) };
}

/// A key whose calls take the nonce.
pub trait LessSafeKey<U: UnboundKey>: Drop {
    // The algorithm and the bytes of the key.
    ghost key: { Self → AeadKey };

    /// Creates a key from one without a role.
    fn new(unbound: U) -> Self
    where
        Self: Sized,
        ensures key_kept { key result ≡ U.key unbound };

    /// Seals in place, and returns the tag.
    fn seal_in_place_separate_tag(
        &self,
        nonce: Nonce,
        aad: Aad<'_>,
        in_out: &mut [u8],
    ) -> Result<Tag, Unspecified>
        ensures accepted { IsOk result ↔ Fits (length (aad_bytes aad.entry)) (length in_out.old) }
        ensures ciphertext { OnOk result (in_out.new ≡ gcm_encrypted (aes (key self.now).bytes) nonce in_out.old) }
        ensures tag { IfOk result (λ tag. tag ≡ gcm_tag (aes (key self.now).bytes) nonce (aad_bytes aad.entry) in_out.new) }
        ensures refused { OnErr result (in_out.new ≡ in_out.old) };

    /// Seals in place, and appends the tag.
    fn seal_in_place_append_tag<B: InOut>(
        &self,
        nonce: Nonce,
        aad: Aad<'_>,
        in_out: &mut B,
    ) -> Result<(), Unspecified>
        ensures sealed { OnOk result (B.bytes in_out.new
            ≡ gcm_sealed (aes (key self.now).bytes) nonce (aad_bytes aad.entry) (B.bytes in_out.old)) }
        ensures refused { OnErr result (B.bytes in_out.new ≡ B.bytes in_out.old) }
        ensures granted { IsOk result → B.may_grant in_out.old }
        ensures fits { IsOk result → Fits (length (aad_bytes aad.entry)) (length (B.bytes in_out.old)) }
        ensures refuses { OnErr result (Fits (length (aad_bytes aad.entry)) (length (B.bytes in_out.old))
            → B.may_refuse in_out.old) };

    /// Opens in place with a separate tag, and lends the plaintext.
    fn open_in_place_separate_tag<'a>(
        &self,
        nonce: Nonce,
        aad: Aad<'_>,
        tag: Tag,
        in_out: &'a mut [u8],
        ciphertext: RangeFrom<usize>,
    ) -> Result<&'a mut [u8], Unspecified>
        ensures opened { Opened (aes (key self.now).bytes) nonce (aad_bytes aad.entry) tag ciphertext.start
            in_out.old (is_ok result) (lent_buffer result in_out.old) }
        ensures plaintext { IfOk result (λ plaintext. plaintext.now
            ≡ gcm_decrypted (aes (key self.now).bytes) nonce (drop ciphertext.start in_out.old)) };

    /// Opens in place with a separate tag, and returns the length of the plaintext.
    fn open_in_place_separate_tag_to_front(
        &self,
        nonce: Nonce,
        aad: Aad<'_>,
        tag: Tag,
        in_out: &mut [u8],
        ciphertext: RangeFrom<usize>,
    ) -> Result<usize, Unspecified>
        ensures opened { Opened (aes (key self.now).bytes) nonce (aad_bytes aad.entry) tag ciphertext.start
            in_out.old (is_ok result) in_out.new }
        ensures count { IfOk result (λ n. n ≡ length in_out.old - ciphertext.start) };

    /// Opens in place with the tag attached, and lends the plaintext.
    fn open_within<'a>(
        &self,
        nonce: Nonce,
        aad: Aad<'_>,
        in_out: &'a mut [u8],
        ciphertext_and_tag: RangeFrom<usize>,
    ) -> Result<&'a mut [u8], Unspecified>
        ensures opened { OpenedAttached (aes (key self.now).bytes) nonce (aad_bytes aad.entry) ciphertext_and_tag.start
            in_out.old (is_ok result) (lent_buffer result in_out.old) }
        ensures plaintext { IfOk result (λ plaintext. plaintext.now
            ≡ gcm_decrypted (aes (key self.now).bytes) nonce
            (drop ciphertext_and_tag.start (take (length in_out.old - tag_len) in_out.old))) };

    /// Opens in place with the tag attached, and returns the length of the plaintext.
    fn open_within_to_front(
        &self,
        nonce: Nonce,
        aad: Aad<'_>,
        in_out: &mut [u8],
        ciphertext_and_tag: RangeFrom<usize>,
    ) -> Result<usize, Unspecified>
        ensures opened { OpenedAttached (aes (key self.now).bytes) nonce (aad_bytes aad.entry) ciphertext_and_tag.start
            in_out.old (is_ok result) in_out.new }
        ensures count { IfOk result (λ n. n ≡ length in_out.old - tag_len - ciphertext_and_tag.start) };

    /// Opens the whole buffer with the tag attached, and lends the plaintext.
    fn open_in_place<'a>(
        &self,
        nonce: Nonce,
        aad: Aad<'_>,
        in_out: &'a mut [u8],
    ) -> Result<&'a mut [u8], Unspecified>
        ensures opened { OpenedAttached (aes (key self.now).bytes) nonce (aad_bytes aad.entry) 0
            in_out.old (is_ok result) (lent_buffer result in_out.old) }
        ensures plaintext { IfOk result (λ plaintext. plaintext.now
            ≡ gcm_decrypted (aes (key self.now).bytes) nonce (take (length in_out.old - tag_len) in_out.old)) };

    /// Opens the whole buffer with the tag attached, and returns the length of the plaintext.
    fn open_in_place_to_front(
        &self,
        nonce: Nonce,
        aad: Aad<'_>,
        in_out: &mut [u8],
    ) -> Result<usize, Unspecified>
        ensures opened { OpenedAttached (aes (key self.now).bytes) nonce (aad_bytes aad.entry) 0
            in_out.old (is_ok result) in_out.new }
        ensures count { IfOk result (λ n. n ≡ length in_out.old - tag_len) };

    /// Opens from one buffer to another.
    fn open_to(
        &self,
        nonce: Nonce,
        aad: Aad<'_>,
        tag: Tag,
        ciphertext: &[u8],
        out: &mut [u8],
    ) -> Result<(), Unspecified>
        requires { length out.old ≡ length ciphertext.now }
        ensures accepted { IsOk result ↔ (Fits (length (aad_bytes aad.entry)) (length ciphertext.now)
            × (tag ≡ gcm_tag (aes (key self.now).bytes) nonce (aad_bytes aad.entry) ciphertext.now)) }
        ensures plaintext { OnOk result (out.new ≡ gcm_decrypted (aes (key self.now).bytes) nonce ciphertext.now) }
        ensures refused { OnErr result (out.new ≡ out.old) };
}

/// A key that seals under the nonces of a sequence.
pub trait SealingKey<U: UnboundKey, N: NonceSequence>: Drop {
    // The key and its sequence.
    ghost state: { Self → BoundState N };

    /// Binds a key without a role to a sequence.
    fn new(unbound: U, nonces: N) -> Self
    where
        Self: Sized,
        ensures key_kept { (state result).key ≡ U.key unbound }
        ensures sequence_kept { (state result).sequence ≡ nonces };

    /// Seals in place, and appends the tag.
    fn seal_in_place_append_tag<B: InOut>(
        &mut self,
        aad: Aad<'_>,
        in_out: &mut B,
    ) -> Result<(), Unspecified>
        ensures key_kept { (state self.new).key ≡ (state self.old).key }
        ensures step { SealStep N.spent N.is_closed (B.may_refuse in_out.old) (B.may_grant in_out.old)
            (state self.old) (state self.new) (aad_bytes aad.entry) (B.bytes in_out.old) (B.bytes in_out.new) (is_ok result) };

    /// Seals in place, and returns the tag.
    fn seal_in_place_separate_tag(
        &mut self,
        aad: Aad<'_>,
        in_out: &mut [u8],
    ) -> Result<Tag, Unspecified>
        ensures key_kept { (state self.new).key ≡ (state self.old).key }
        ensures step { SealStep N.spent N.is_closed ⊥ ⊤
            (state self.old) (state self.new) (aad_bytes aad.entry) in_out.old (with_tag in_out.new result) (is_ok result) };
}

/// A key that opens under the nonces of a sequence.
pub trait OpeningKey<U: UnboundKey, N: NonceSequence>: Drop {
    // The key and its sequence.
    ghost state: { Self → BoundState N };

    /// Binds a key without a role to a sequence.
    fn new(unbound: U, nonces: N) -> Self
    where
        Self: Sized,
        ensures key_kept { (state result).key ≡ U.key unbound }
        ensures sequence_kept { (state result).sequence ≡ nonces };

    /// Opens in place with the tag attached, and lends the plaintext.
    fn open_within<'a>(
        &mut self,
        aad: Aad<'_>,
        in_out: &'a mut [u8],
        ciphertext_and_tag: RangeFrom<usize>,
    ) -> Result<&'a mut [u8], Unspecified>
        ensures key_kept { (state self.new).key ≡ (state self.old).key }
        ensures step { OpenStep N.spent N.is_closed (state self.old) (state self.new) (aad_bytes aad.entry)
            ciphertext_and_tag.start in_out.old (lent_buffer result in_out.old) (is_ok result) }
        ensures count { IfOk result (λ plaintext.
            length plaintext.now ≡ length in_out.old - tag_len - ciphertext_and_tag.start) };

    /// Opens in place with the tag attached, and returns the length of the plaintext.
    fn open_within_to_front(
        &mut self,
        aad: Aad<'_>,
        in_out: &mut [u8],
        ciphertext_and_tag: RangeFrom<usize>,
    ) -> Result<usize, Unspecified>
        ensures key_kept { (state self.new).key ≡ (state self.old).key }
        ensures step { OpenStep N.spent N.is_closed (state self.old) (state self.new) (aad_bytes aad.entry)
            ciphertext_and_tag.start in_out.old in_out.new (is_ok result) }
        ensures count { IfOk result (λ n. n ≡ length in_out.old - tag_len - ciphertext_and_tag.start) };

    /// Opens the whole buffer with the tag attached, and lends the plaintext.
    fn open_in_place<'a>(
        &mut self,
        aad: Aad<'_>,
        in_out: &'a mut [u8],
    ) -> Result<&'a mut [u8], Unspecified>
        ensures key_kept { (state self.new).key ≡ (state self.old).key }
        ensures step { OpenStep N.spent N.is_closed (state self.old) (state self.new) (aad_bytes aad.entry)
            0 in_out.old (lent_buffer result in_out.old) (is_ok result) }
        ensures count { IfOk result (λ plaintext. length plaintext.now ≡ length in_out.old - tag_len) };

    /// Opens the whole buffer with the tag attached, and returns the length of the plaintext.
    fn open_in_place_to_front(
        &mut self,
        aad: Aad<'_>,
        in_out: &mut [u8],
    ) -> Result<usize, Unspecified>
        ensures key_kept { (state self.new).key ≡ (state self.old).key }
        ensures step { OpenStep N.spent N.is_closed (state self.old) (state self.new) (aad_bytes aad.entry)
            0 in_out.old in_out.new (is_ok result) }
        ensures count { IfOk result (λ n. n ≡ length in_out.old - tag_len) };
}

/// Lists of calls of a sealing key and an opening key.
pub trait Session<
    U: UnboundKey,
    S: NonceSequence,
    O: NonceSequence,
    SK: SealingKey<U, S>,
    OK: OpeningKey<U, O>,
> {
    /// Runs the jobs in order, `Seal` jobs with the sealing key and `Open` jobs with the opening key.
    fn run(sealing: &mut SK, opening: &mut OK, jobs: &mut [Job])
        ensures ran { Runs (JobStep S.spent S.is_closed S.origin O.spent O.is_closed O.origin)
            (SK.state sealing.old, OK.state opening.old) (SK.state sealing.new, OK.state opening.new) jobs.old jobs.new };
}
