//! Callers whose contracts are proved from the contracts of the libraries alone.

ghost use Rattle.std.specs.Prelude.{◌≡◌, ◌↔◌, length, IsTrue, IsOk};
ghost use Rattle.aead_ciphers.specs.Algorithm.{id};
ghost use Rattle.aead_ciphers.specs.Gcm.{Fits};
ghost use Rattle.aead_ciphers.specs.Values.{aad_bytes};
ghost use Rattle.aead_ciphers.specs.Work.{HasRoom};

use aead_ciphers::aead::{AES_128_GCM, AES_256_GCM, Aad, Algorithm, Nonce, Tag, Unspecified, quic};
use aead_ciphers::aes_gcm;
use aead_ciphers_base::aes::Work;

/// Returns `true` if and only if the IDs are equal.
fn same_algorithm(a: &Algorithm, b: &Algorithm) -> bool
    ensures { IsTrue result ↔ (id a.now ≡ id b.now) }
{
    a == b
}

/// Returns `true` if and only if the bytes are equal.
fn same_aad(a: &Aad<'_>, b: &Aad<'_>) -> bool
    ensures { IsTrue result ↔ (aad_bytes a.now ≡ aad_bytes b.now) }
{
    a == b
}

/// Returns `true` if and only if the algorithms are equal: a caller's proof learns this from `==`.
pub(crate) fn same_quic_algorithm(a: &quic::Algorithm, b: &quic::Algorithm) -> bool
    ensures { IsTrue result ↔ (a.now ≡ b.now) }
{
    *a == *b
}

#[test]
fn equality(rt: HostRuntime) {
    assert!(rt; same_algorithm(&AES_128_GCM, &AES_128_GCM));
    assert!(rt; !same_algorithm(&AES_128_GCM, &AES_256_GCM));
    assert!(rt; same_aad(&Aad::from(b"".as_slice()), &Aad::empty()));
    assert!(rt; !same_aad(&Aad::from(b"a".as_slice()), &Aad::from(b"b".as_slice())));
}

/// Seals if the tallies have room, which is enough for one call with any lengths.
pub(crate) fn seal_where_room(
    key: &aes_gcm::Key,
    nonce: Nonce,
    aad: Aad<'_>,
    in_out: &mut [u8],
    work: &mut Work,
) -> Result<Tag, Unspecified>
    ensures { IsOk result ↔ (HasRoom work.old
        × Fits (length (aad_bytes aad.entry)) (length in_out.old)) }
{
    if !work.has_room() {
        return Err(Unspecified);
    }
    aes_gcm::seal(key, nonce, aad, in_out, work)
}
