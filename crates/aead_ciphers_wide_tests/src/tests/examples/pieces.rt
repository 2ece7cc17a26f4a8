//! A message that is sealed in pieces of one length, as a stream of chunks is.

ghost use Rattle.std.specs.Prelude.{◌≡◌, ◌↔◌, ◌<◌, length, OnOk, OnErr, IfOk, IsOk};
ghost use Rattle.aead_ciphers.specs.Aes.{aes};
ghost use Rattle.aead_ciphers.specs.Gcm.{Fits, gcm_encrypted, gcm_tag};
ghost use Rattle.aead_ciphers_base.specs.Values.{aad_bytes};
ghost use Rattle.aead_ciphers_wide.specs.ExpandedKey.{IsExpanded, bytes_of};

use aead_ciphers::aead::{Aad, Nonce, Tag, Unspecified};
use aead_ciphers::gcm::fits;
use aead_ciphers_wide::aes_gcm::ExpandedKey;

/// Seals `in_out` in pieces of `piece_len` bytes, the last of which may be shorter. The ciphertext and the tag are those of
/// one call. If the lengths exceed the limits, nothing is sealed.
pub fn seal_in_pieces(
    key: &ExpandedKey,
    nonce: Nonce,
    aad: Aad<'_>,
    in_out: &mut [u8],
    piece_len: usize,
) -> Result<Tag, Unspecified>
    requires key { IsExpanded key.now }
    requires piece { 0 < piece_len }
    ensures accepted { IsOk result ↔ Fits (length (aad_bytes aad.entry)) (length in_out.old) }
    ensures ciphertext { OnOk result
        (in_out.new ≡ gcm_encrypted (aes (bytes_of key.now)) nonce in_out.old) }
    ensures tag { IfOk result (λ tag. tag
        ≡ gcm_tag (aes (bytes_of key.now)) nonce (aad_bytes aad.entry) in_out.new) }
    ensures refused { OnErr result (in_out.new ≡ in_out.old) }
{
    if !fits(aad.as_ref().len(), in_out.len()) {
        return Err(Unspecified);
    }
    let mut state = key.begin(nonce, aad)?;
    let mut done = 0;
    while done < in_out.len() {
        let count = (in_out.len() - done).min(piece_len);
        key.update(&mut state, &mut in_out[done..done + count])?;
        done += count;
    }
    Ok(key.finish(state))
}
