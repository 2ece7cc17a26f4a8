//! One message, sealed and opened with a nonce that the caller chooses.

ghost use Rattle.std.specs.Prelude.{◌≡◌, ◌↔◌, length, IsOk, IfOk, OnOk, OnErr};
ghost use Rattle.aead_ciphers.specs.Aes.{aes};
ghost use Rattle.aead_ciphers.specs.Gcm.{Fits, gcm_decrypted, gcm_encrypted, gcm_tag};

use aead_ciphers::aead::{
    AES_256_GCM, Aad, LessSafeKey, NONCE_LEN, Nonce, Tag, UnboundKey, Unspecified,
};

/// Encrypts a message in place with AES-256-GCM and returns its tag.
pub fn seal(
    key_bytes: &[u8; 32],
    nonce: [u8; NONCE_LEN],
    aad: &[u8],
    in_out: &mut [u8],
) -> Result<Tag, Unspecified>
    ensures accepted { IsOk result ↔ Fits (length aad.now) (length in_out.old) }
    ensures ciphertext { OnOk result (in_out.new ≡ gcm_encrypted (aes key_bytes.now) nonce in_out.old) }
    ensures tag { IfOk result (λ tag. tag ≡ gcm_tag (aes key_bytes.now) nonce aad.now in_out.new) }
    ensures refused { OnErr result (in_out.new ≡ in_out.old) }
{
    let key = LessSafeKey::new(UnboundKey::new(&AES_256_GCM, key_bytes)?);
    let nonce = Nonce::assume_unique_for_key(nonce);
    key.seal_in_place_separate_tag(nonce, Aad::from(aad), in_out)
}

/// Verifies the tag of a ciphertext from `seal`, and decrypts the ciphertext in place.
pub fn open(
    key_bytes: &[u8; 32],
    nonce: [u8; NONCE_LEN],
    aad: &[u8],
    tag: Tag,
    in_out: &mut [u8],
) -> Result<(), Unspecified>
    ensures accepted { IsOk result ↔ (Fits (length aad.now) (length in_out.old)
        × (tag ≡ gcm_tag (aes key_bytes.now) nonce aad.now in_out.old)) }
    ensures plaintext { OnOk result (in_out.new ≡ gcm_decrypted (aes key_bytes.now) nonce in_out.old) }
    ensures refused { OnErr result (in_out.new ≡ in_out.old) }
{
    let key = LessSafeKey::new(UnboundKey::new(&AES_256_GCM, key_bytes)?);
    let nonce = Nonce::assume_unique_for_key(nonce);
    key.open_in_place_separate_tag_to_front(nonce, Aad::from(aad), tag, in_out, 0..)?;
    Ok(())
}
