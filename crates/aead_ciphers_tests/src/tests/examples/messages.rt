//! Single messages, each with a nonce that the caller chooses.

ghost use Rattle.std.specs.Prelude.{◌≡◌, ◌+◌, ◌-◌, ◌<◌, ◌≤◌, ◌↔◌, length, take, slice_set, vec_capacity, vec_len, is_ok, IsOk, IfOk, OnOk, OnErr};
ghost use Rattle.arrayvec.specs.ArrayVec.{array_vec_len};
ghost use Rattle.aead_ciphers.specs.Aes.{aes};
ghost use Rattle.aead_ciphers.specs.Gcm.{Fits, gcm_decrypted, gcm_sealed, gcm_tag, OpenedAttached};
ghost use Rattle.aead_ciphers.specs.Values.{aad_bytes};

use aead_ciphers::aead::lend::lend_plaintext_and_rest;
use aead_ciphers::aead::{Aad, LessSafeKey, NONCE_LEN, Nonce, Tag, Unspecified};
use arrayvec::ArrayVec;

/// Opens a message that consists of its nonce, the ciphertext and the tag. Returns the length of the plaintext, which is
/// then at the front of the buffer.
pub fn open_after_nonce(
    key: &LessSafeKey,
    aad: &[u8],
    message: &mut [u8],
) -> Result<usize, Unspecified>
    ensures nonce { IsOk result → 12 ≤ length message.old }
    ensures opened { 12 ≤ length message.old → OpenedAttached (aes key.now.bytes) (take 12 message.old) aad.now 12
        message.old (is_ok result) message.new }
    ensures count { IfOk result (λ n. n ≡ length message.old - 28) }
    ensures refused { OnErr result (message.new ≡ message.old) }
{
    let Some(nonce) = message.first_chunk::<NONCE_LEN>() else {
        return Err(Unspecified);
    };
    let nonce = Nonce::assume_unique_for_key(*nonce);
    key.open_within_to_front(nonce, Aad::from(aad), message, NONCE_LEN..)
}

/// Opens a message and overwrites the first byte of the plaintext with 7. The contract describes the whole buffer.
pub fn open_and_mark(
    key: &LessSafeKey,
    nonce: Nonce,
    aad: Aad<'_>,
    tag: Tag,
    in_out: &mut [u8],
) -> Result<(), Unspecified>
    requires { 0 < length in_out.old }
    ensures accepted { IsOk result ↔ (Fits (length (aad_bytes aad.entry)) (length in_out.old)
        × (tag ≡ gcm_tag (aes key.now.bytes) nonce (aad_bytes aad.entry) in_out.old)) }
    ensures marked { OnOk result (in_out.new
        ≡ slice_set (gcm_decrypted (aes key.now.bytes) nonce in_out.old) 0 7) }
    ensures kept { OnErr result (in_out.new ≡ in_out.old) }
{
    let opened = key.open_in_place_separate_tag_to_front(nonce, aad, tag, in_out, 0..);
    match lend_plaintext_and_rest(in_out, opened) {
        Some((plaintext, _rest)) => {
            plaintext[0] = 7;
            Ok(())
        }
        None => Err(Unspecified),
    }
}

/// Seals the contents of a `Vec` and appends the tag.
pub fn append(
    key: &LessSafeKey,
    nonce: Nonce,
    aad: &[u8],
    in_out: &mut Vec<u8>,
) -> Result<(), Unspecified>
    ensures fits { IsOk result → Fits (length aad.now) (vec_len in_out.old) }
    ensures accepted { Fits (length aad.now) (vec_len in_out.old)
        → vec_len in_out.old + 16 ≤ vec_capacity in_out.old → IsOk result }
    ensures sealed { OnOk result (in_out.new.items ≡ gcm_sealed (aes key.now.bytes) nonce aad.now in_out.old.items) }
    ensures grown { OnOk result (length in_out.new.items ≡ length in_out.old.items + 16) }
    ensures refused { OnErr result (in_out.new.items ≡ in_out.old.items) }
{
    key.seal_in_place_append_tag(nonce, Aad::from(aad), in_out)
}

/// Like `append`, but without allocation. Succeeds if and only if the lengths fit and 16 bytes of the array are free.
pub fn append_to_array<const CAP: usize>(
    key: &LessSafeKey,
    nonce: Nonce,
    aad: Aad<'_>,
    in_out: &mut ArrayVec<u8, CAP>,
) -> Result<(), Unspecified>
    ensures accepted { IsOk result ↔ (Fits (length (aad_bytes aad.entry)) (array_vec_len in_out.old)
        × (array_vec_len in_out.old + 16 ≤ CAP)) }
    ensures sealed { OnOk result (in_out.new.items
        ≡ gcm_sealed (aes key.now.bytes) nonce (aad_bytes aad.entry) in_out.old.items) }
    ensures refused { OnErr result (in_out.new.items ≡ in_out.old.items) }
{
    key.seal_in_place_append_tag(nonce, aad, in_out)
}
