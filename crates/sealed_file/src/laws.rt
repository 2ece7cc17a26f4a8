//! Laws of the format: functions that do nothing, each of whose contracts states a law for its arguments.

ghost use Rattle.std.specs.Prelude.{ℕ, ◌≡◌, ◌≢◌, ◌-◌, ◌^◌, ◌<◌, length, take};
ghost use Rattle.sealed_file.specs.Derivation.{commitment};
ghost use Rattle.sealed_file.specs.Format.{chunk_len, last_piece, sealed_file, secret, fresh_key};
ghost use Rattle.sealed_file.specs.Opening.{IsForged, IsSealed, context_of, header_of, opened_file};
ghost use Rattle.sealed_file.specs.Passphrase.{AreAllowed, OpensBy, core_of, fresh_passphrase_key, locked, opened_by, unlocked};

use crate::header::RANDOM_LEN;

/// Opening a sealed file restores the file: it is accepted, whatever its length.
pub fn opens_again(key: &[u8], aad: &[u8], random: &[u8; RANDOM_LEN], file: &[u8])
    requires { last_piece chunk_len (length file.now) < 2 ^ 32 - 1 }
    ensures accepted { IsSealed (secret key.now aad.now) (sealed_file (fresh_key (secret key.now aad.now) random.now) file.now) }
    ensures comes_back { let s = secret key.now aad.now in
        opened_file s (sealed_file (fresh_key s random.now) file.now) ≡ file.now }
{}

/// Another file under the header of a sealed one is accepted only with a forged chunk: a chunk with the tag for its number and
/// for whether it is the last, where sealing made another chunk or none.
pub fn another_file(key: &[u8], aad: &[u8], random: &[u8; RANDOM_LEN], file: &[u8], other: &[u8])
    requires header { header_of other.now ≡ (fresh_key (secret key.now aad.now) random.now).header }
    requires another { other.now ≢ sealed_file (fresh_key (secret key.now aad.now) random.now) file.now }
    requires accepted { IsSealed (secret key.now aad.now) other.now }
    ensures { (i : ℕ) × IsForged (fresh_key (secret key.now aad.now) random.now) file.now other.now i }
{}

/// A file that opens under two keys, whatever it is bound to, holds a context for which both have the same commitment.
pub fn two_keys(key: &[u8], aad: &[u8], other_key: &[u8], other_aad: &[u8], file: &[u8])
    requires first { IsSealed (secret key.now aad.now) file.now }
    requires second { IsSealed (secret other_key.now other_aad.now) file.now }
    ensures { commitment key.now (context_of file.now)
        ≡ commitment other_key.now (context_of file.now) }
{}

/// Opening a file that was sealed under a passphrase restores the file: `opens_again` in version 3.
pub fn opens_again_by_passphrase(
    passphrase: &[u8],
    aad: &[u8],
    random: &[u8; RANDOM_LEN],
    iterations: u32,
    file: &[u8],
)
    requires iterations { AreAllowed iterations }
    requires few { last_piece chunk_len (length file.now) < 2 ^ 32 - 1 }
    ensures accepted { let k = fresh_passphrase_key passphrase.now aad.now random.now iterations in
        OpensBy passphrase.now aad.now (sealed_file k file.now) }
    ensures comes_back { let k = fresh_passphrase_key passphrase.now aad.now random.now iterations in
        opened_by passphrase.now aad.now (sealed_file k file.now) ≡ file.now }
{}

/// `another_file` in version 3: another file under the header of a sealed one is accepted only with a forged chunk.
pub fn another_file_by_passphrase(
    passphrase: &[u8],
    aad: &[u8],
    random: &[u8; RANDOM_LEN],
    iterations: u32,
    file: &[u8],
    other: &[u8],
)
    requires header { let k = fresh_passphrase_key passphrase.now aad.now random.now iterations in
        take 64 other.now ≡ k.header }
    requires another { let k = fresh_passphrase_key passphrase.now aad.now random.now iterations in
        other.now ≢ sealed_file k file.now }
    requires accepted { OpensBy passphrase.now aad.now other.now }
    ensures { let k = fresh_key (locked passphrase.now aad.now random.now iterations) random.now in
        (i : ℕ) × IsForged k file.now (core_of other.now) i }
{}

/// `two_keys` in version 3: a file that opens under two passphrases, whatever it is bound to, holds random bytes and iterations
/// for which both have keys with the same commitment.
pub fn two_passphrases(
    passphrase: &[u8],
    aad: &[u8],
    other_passphrase: &[u8],
    other_aad: &[u8],
    file: &[u8],
)
    requires first { OpensBy passphrase.now aad.now file.now }
    requires second { OpensBy other_passphrase.now other_aad.now file.now }
    ensures { commitment (unlocked passphrase.now aad.now file.now).key (context_of file.now)
        ≡ commitment (unlocked other_passphrase.now other_aad.now file.now).key (context_of file.now) }
{}

/// No file opens under a key and under a passphrase.
pub fn one_version(key: &[u8], aad: &[u8], passphrase: &[u8], other_aad: &[u8], file: &[u8])
    ensures { IsSealed (secret key.now aad.now) file.now
        → ¬ OpensBy passphrase.now other_aad.now file.now }
{}
