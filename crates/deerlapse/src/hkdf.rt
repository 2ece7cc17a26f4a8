//! HMAC (RFC 2104), HKDF (RFC 5869) and HKDF-Expand-Label (RFC 8446 section 7.1), with SHA-256 or SHA-384, which the length of an
//! argument selects.

ghost use Rattle.std.specs.Prelude.{◌≡◌, ◌≤◌, ◌*◌, ◌↔◌, length, IsTrue, IsFalse};
ghost use Rattle.key_derivation.specs.Hkdf.{IsLabel, hkdf_expand, hkdf_expand_label, hkdf_extract};
ghost use Rattle.key_derivation.specs.Hmac.{hmac};
ghost use Rattle.deerlapse.specs.TrafficKey.{IsDigestLen, hash_of};

use crate::traffic_key::{SHA_256_LEN, SHA_384_LEN, secret_of};
use key_derivation::hmac::{hmac_sha_256, hmac_sha_384};

/// Writes the authentication code of a message under a key of any length (RFC 2104): 32 bytes with SHA-256, or 48 bytes with
/// SHA-384.
///
/// Returns false if `code` has another length.
#[unsafe(no_mangle)]
pub extern "C" fn deerlapse_hmac(key: &[u8], message: &[u8], code: &mut [u8]) -> bool
    ensures accepted { IsTrue result ↔ IsDigestLen (length code.old) }
    ensures code { IsTrue result → code.new ≡ hmac (hash_of (length code.old)) key.now message.now }
    ensures refused { IsFalse result → code.new ≡ code.old }
{
    match code.len() {
        SHA_256_LEN => code.copy_from_slice(&hmac_sha_256(key, message)),
        SHA_384_LEN => code.copy_from_slice(&hmac_sha_384(key, message)),
        _ => return false,
    }
    true
}

/// Writes the pseudorandom key of a salt and input keying material (RFC 5869 section 2.2): 32 bytes with SHA-256, or 48 bytes
/// with SHA-384.
///
/// Returns false if `prk` has another length.
#[unsafe(no_mangle)]
pub extern "C" fn deerlapse_hkdf_extract(salt: &[u8], ikm: &[u8], prk: &mut [u8]) -> bool
    ensures accepted { IsTrue result ↔ IsDigestLen (length prk.old) }
    ensures extracted { IsTrue result
        → prk.new ≡ hkdf_extract (hash_of (length prk.old)) salt.now ikm.now }
    ensures refused { IsFalse result → prk.new ≡ prk.old }
{
    deerlapse_hmac(salt, ikm, prk)
}

/// Fills `out` with output keying material (RFC 5869 section 2.3), under a pseudorandom key of 32 bytes for SHA-256, or of 48
/// bytes for SHA-384.
///
/// Returns false if `prk` has another length, or if `out` is more than 255 times as long as `prk`.
#[unsafe(no_mangle)]
pub extern "C" fn deerlapse_hkdf_expand(prk: &[u8], info: &[u8], out: &mut [u8]) -> bool
    ensures accepted { IsTrue result
        ↔ (IsDigestLen (length prk.now) × (length out.old ≤ 255 * length prk.now)) }
    ensures expanded { IsTrue result
        → out.new ≡ hkdf_expand (hash_of (length prk.now)) prk.now info.now (length out.old) }
    ensures refused { IsFalse result → out.new ≡ out.old }
{
    match secret_of(prk) {
        Some(secret) => secret.expand(info, out).is_ok(),
        None => false,
    }
}

/// Fills `out` by HKDF-Expand-Label (RFC 8446 section 7.1), from a secret of 32 bytes for SHA-256, or of 48 bytes for SHA-384.
/// The call puts the prefix `tls13 ` before the label.
///
/// Returns false if `secret` has another length, if `label` is empty or has more than 249 bytes, if `context` has more than 255
/// bytes, or if `out` is more than 255 times as long as `secret`.
#[unsafe(no_mangle)]
pub extern "C" fn deerlapse_hkdf_expand_label(
    secret: &[u8],
    label: &[u8],
    context: &[u8],
    out: &mut [u8],
) -> bool
    ensures accepted { IsTrue result ↔ (IsDigestLen (length secret.now) × IsLabel label.now
        × (length context.now ≤ 255) × (length out.old ≤ 255 * length secret.now)) }
    ensures expanded { IsTrue result → out.new ≡ hkdf_expand_label
        (hash_of (length secret.now)) secret.now label.now context.now (length out.old) }
    ensures refused { IsFalse result → out.new ≡ out.old }
{
    match secret_of(secret) {
        Some(secret) => secret.expand_label(label, context, out).is_ok(),
        None => false,
    }
}
