//! The sentence about one call under a nonce of the caller's choice, under the bytes that the key holds. After the function that
//! makes a key, each makes the call of its name.

ghost use Rattle.std.specs.Prelude.{◌≡◌, ◌↔◌, ◌++◌, ◌-◌, length, drop, take, IsOk, IfOk, OnOk, OnErr, is_ok};
ghost use Rattle.aead_ciphers_base.specs.Aes.{aes};
ghost use Rattle.aead_ciphers_base.specs.Values.{aad_bytes};
ghost use Rattle.aead_ciphers.specs.Algorithm.{key_len};
ghost use Rattle.aead_ciphers.specs.Gcm.{Fits, Opened, OpenedAttached, gcm_decrypted, gcm_sealed, gcm_tag, tag_len};
ghost use Rattle.aead_ciphers.specs.Lending.{lent_buffer};

use crate::library::{LessSafeKey, UnboundKey};
use aead_ciphers::aead::{Aad, Algorithm, InOut, Nonce, Tag, Unspecified};

/// Makes a key of these bytes. Fails if the key has another length than the algorithm's.
pub fn new_key<U: UnboundKey, K: LessSafeKey<U>>(
    algorithm: &'static Algorithm,
    key: &[u8],
) -> Result<K, Unspecified>
    ensures accepted { IsOk result ↔ (length key.now ≡ key_len algorithm.now) }
    ensures bytes { IfOk result (λ made. (K.key made).bytes ≡ key.now) }
{
    Ok(K::new(U::new(algorithm, key)?))
}

/// Seals in place, and returns the tag. Fails if a length exceeds its limit.
pub fn seal_in_place_separate_tag<U: UnboundKey, K: LessSafeKey<U>>(
    key: &K,
    nonce: Nonce,
    aad: Aad<'_>,
    in_out: &mut [u8],
) -> Result<Tag, Unspecified>
    ensures accepted { IsOk result ↔ Fits (length (aad_bytes aad.entry)) (length in_out.old) }
    ensures sealed { IfOk result (λ tag. in_out.new ++ tag
        ≡ gcm_sealed (aes (K.key key.now).bytes) nonce (aad_bytes aad.entry) in_out.old) }
    ensures refused { OnErr result (in_out.new ≡ in_out.old) }
{
    key.seal_in_place_separate_tag(nonce, aad, in_out)
}

/// Seals in place, and appends the tag. Fails if a length exceeds its limit, or if there is no room for the tag.
pub fn seal_in_place_append_tag<U: UnboundKey, K: LessSafeKey<U>, B: InOut>(
    key: &K,
    nonce: Nonce,
    aad: Aad<'_>,
    in_out: &mut B,
) -> Result<(), Unspecified>
    ensures sealed { OnOk result (B.bytes in_out.new
        ≡ gcm_sealed (aes (K.key key.now).bytes) nonce (aad_bytes aad.entry) (B.bytes in_out.old)) }
    ensures refused { OnErr result (B.bytes in_out.new ≡ B.bytes in_out.old) }
    ensures refuses { OnErr result (Fits (length (aad_bytes aad.entry)) (length (B.bytes in_out.old)) → B.may_refuse in_out.old) }
    ensures accepted { IsOk result → Fits (length (aad_bytes aad.entry)) (length (B.bytes in_out.old)) × B.may_grant in_out.old }
{
    key.seal_in_place_append_tag(nonce, aad, in_out)
}

/// Opens with a separate tag a ciphertext from `start` on, and lends the plaintext.
pub fn open_in_place_separate_tag<'a, U: UnboundKey, K: LessSafeKey<U>>(
    key: &K,
    nonce: Nonce,
    aad: Aad<'_>,
    tag: Tag,
    in_out: &'a mut [u8],
    start: usize,
) -> Result<&'a mut [u8], Unspecified>
    ensures opened { Opened (aes (K.key key.now).bytes) nonce (aad_bytes aad.entry) tag start
        in_out.old (is_ok result) (lent_buffer result in_out.old) }
    ensures plaintext { IfOk result (λ plaintext. plaintext.now
        ≡ gcm_decrypted (aes (K.key key.now).bytes) nonce (drop start in_out.old)) }
{
    key.open_in_place_separate_tag(nonce, aad, tag, in_out, start..)
}

/// Does the same as `open_in_place_separate_tag`, but lends nothing, and returns the length of the plaintext at the front of the
/// buffer.
pub fn open_in_place_separate_tag_to_front<U: UnboundKey, K: LessSafeKey<U>>(
    key: &K,
    nonce: Nonce,
    aad: Aad<'_>,
    tag: Tag,
    in_out: &mut [u8],
    start: usize,
) -> Result<usize, Unspecified>
    ensures opened { Opened (aes (K.key key.now).bytes) nonce (aad_bytes aad.entry) tag start
        in_out.old (is_ok result) in_out.new }
    ensures count { IfOk result (λ n. n ≡ length in_out.old - start) }
{
    key.open_in_place_separate_tag_to_front(nonce, aad, tag, in_out, start..)
}

/// Opens a ciphertext from `start` on whose tag is the last 16 bytes, and lends the plaintext.
pub fn open_within<'a, U: UnboundKey, K: LessSafeKey<U>>(
    key: &K,
    nonce: Nonce,
    aad: Aad<'_>,
    in_out: &'a mut [u8],
    start: usize,
) -> Result<&'a mut [u8], Unspecified>
    ensures opened { OpenedAttached (aes (K.key key.now).bytes) nonce (aad_bytes aad.entry) start
        in_out.old (is_ok result) (lent_buffer result in_out.old) }
    ensures plaintext { IfOk result (λ plaintext. plaintext.now
        ≡ gcm_decrypted (aes (K.key key.now).bytes) nonce (drop start (take (length in_out.old - tag_len) in_out.old))) }
{
    key.open_within(nonce, aad, in_out, start..)
}

/// Does the same as `open_within`, but lends nothing, and returns the length of the plaintext at the front of the buffer.
pub fn open_within_to_front<U: UnboundKey, K: LessSafeKey<U>>(
    key: &K,
    nonce: Nonce,
    aad: Aad<'_>,
    in_out: &mut [u8],
    start: usize,
) -> Result<usize, Unspecified>
    ensures opened { OpenedAttached (aes (K.key key.now).bytes) nonce (aad_bytes aad.entry) start
        in_out.old (is_ok result) in_out.new }
    ensures count { IfOk result (λ n. n ≡ length in_out.old - tag_len - start) }
{
    key.open_within_to_front(nonce, aad, in_out, start..)
}

/// Opens the whole buffer, whose last 16 bytes are the tag, and lends the plaintext.
pub fn open_in_place<'a, U: UnboundKey, K: LessSafeKey<U>>(
    key: &K,
    nonce: Nonce,
    aad: Aad<'_>,
    in_out: &'a mut [u8],
) -> Result<&'a mut [u8], Unspecified>
    ensures opened { OpenedAttached (aes (K.key key.now).bytes) nonce (aad_bytes aad.entry) 0
        in_out.old (is_ok result) (lent_buffer result in_out.old) }
    ensures plaintext { IfOk result (λ plaintext. plaintext.now
        ≡ gcm_decrypted (aes (K.key key.now).bytes) nonce (take (length in_out.old - tag_len) in_out.old)) }
{
    key.open_in_place(nonce, aad, in_out)
}

/// Does the same as `open_in_place`, but lends nothing, and returns the length of the plaintext at the front of the buffer.
pub fn open_in_place_to_front<U: UnboundKey, K: LessSafeKey<U>>(
    key: &K,
    nonce: Nonce,
    aad: Aad<'_>,
    in_out: &mut [u8],
) -> Result<usize, Unspecified>
    ensures opened { OpenedAttached (aes (K.key key.now).bytes) nonce (aad_bytes aad.entry) 0
        in_out.old (is_ok result) in_out.new }
    ensures count { IfOk result (λ n. n ≡ length in_out.old - tag_len) }
{
    key.open_in_place_to_front(nonce, aad, in_out)
}

/// Opens with a separate tag from one buffer to another, which must be equally long.
pub fn open_to<U: UnboundKey, K: LessSafeKey<U>>(
    key: &K,
    nonce: Nonce,
    aad: Aad<'_>,
    tag: Tag,
    ciphertext: &[u8],
    out: &mut [u8],
) -> Result<(), Unspecified>
    requires { length out.old ≡ length ciphertext.now }
    ensures accepted { IsOk result ↔ (Fits (length (aad_bytes aad.entry)) (length ciphertext.now)
        × (tag ≡ gcm_tag (aes (K.key key.now).bytes) nonce (aad_bytes aad.entry) ciphertext.now)) }
    ensures plaintext { OnOk result (out.new ≡ gcm_decrypted (aes (K.key key.now).bytes) nonce ciphertext.now) }
    ensures refused { OnErr result (out.new ≡ out.old) }
{
    key.open_to(nonce, aad, tag, ciphertext, out)
}
