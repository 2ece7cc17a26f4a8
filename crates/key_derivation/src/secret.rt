//! Traffic secrets of TLS 1.3, and the record keys that are derived from them (RFC 8446 sections 7.2 and 7.3).

ghost use Rattle.std.specs.Prelude.{◌≡◌, ◌*◌, ◌<◌, ◌≤◌, ◌↔◌, [], codes, length, IsOk, IfOk, IsErrOf, IsOkUnless, OnErr, OnOk};
ghost use Rattle.key_derivation.specs.Hkdf.{IsLabel, hkdf_expand, hkdf_expand_label};
ghost use Rattle.key_derivation.specs.Secret.{next_secret, suite_hash, suite_key_len, suite_secret_len};
ghost use Rattle.key_derivation.specs.Tls.{next_traffic_secret, record_iv, record_key};

use crate::error::DerivationError;
use crate::hash::Hash;
use crate::hkdf::{self, Expander};
use crate::keys::{AeadKeyBytes, RecordKeys};
use crate::suite::Suite;
use sha2::{Sha256, Sha384};
use std::fmt;
use std::marker::Model;

/// The bytes of a secret, as many as a digest of its hash function has.
#[derive(Drop)]
pub(crate) enum SecretBytes {
    Sha256([u8; 32]),
    Sha384([u8; 48]),
}

/// A traffic secret of one direction of a TLS 1.3 connection, from which the record keys of this direction and the next secret
/// are derived. `QuicSecret` derives the keys of QUIC.
#[derive(Drop)]
pub struct Secret {
    pub(crate) inner: SecretBytes,
}

impl Model for Secret {
    ghost use Rattle.key_derivation.specs.Secret.{SecretState, secret_state};

    ghost Value = { SecretState };

    ghost view = { λ s. secret_state s.inner };
}

impl fmt::Debug for Secret {
    ghost use Rattle.std.specs.Prelude.{Some, codes};

    ghost debug_output = { λ s. Some (codes "Secret { .. }") };

    fn fmt<W: fmt::Write>(&self, f: &mut fmt::Formatter<W>) -> fmt::Result {
        f.write_str("Secret { .. }")
    }
}

impl Secret {
    /// Creates a secret of a suite from its 32 or 48 bytes.
    ///
    /// Fails with `SecretLength` if `bytes` is not as long as a digest of the suite's hash function.
    pub fn new(suite: Suite, bytes: &[u8]) -> Result<Self, DerivationError>
        ensures accepted { IsOk result ↔ (length bytes.now ≡ suite_secret_len suite) }
        ensures refused { IsOkUnless result DerivationError.SecretLength }
        ensures made { IfOk result (λ s. s ≡ record { suite = suite; bytes = bytes.now }) }
    {
        let secret = match suite {
            Suite::Aes128Gcm => bytes.as_array().map(|bytes| Secret::aes_128_gcm(*bytes)),
            Suite::Aes256Gcm => bytes.as_array().map(|bytes| Secret::aes_256_gcm(*bytes)),
        };
        secret.ok_or(DerivationError::SecretLength)
    }

    /// Creates a secret of TLS_AES_128_GCM_SHA256.
    pub fn aes_128_gcm(bytes: [u8; 32]) -> Self
        ensures { result ≡ record { suite = Suite.Aes128Gcm; bytes = bytes } }
    {
        Secret {
            inner: SecretBytes::Sha256(bytes),
        }
    }

    /// Creates a secret of TLS_AES_256_GCM_SHA384.
    pub fn aes_256_gcm(bytes: [u8; 48]) -> Self
        ensures { result ≡ record { suite = Suite.Aes256Gcm; bytes = bytes } }
    {
        Secret {
            inner: SecretBytes::Sha384(bytes),
        }
    }

    /// Returns the secret's suite.
    pub fn suite(&self) -> Suite
        ensures { result ≡ self.now.suite }
    {
        match self.inner {
            SecretBytes::Sha256(_) => Suite::Aes128Gcm,
            SecretBytes::Sha384(_) => Suite::Aes256Gcm,
        }
    }

    /// Returns the secret's bytes.
    pub fn as_slice(&self) -> &[u8]
        ensures bytes { result.now ≡ self.now.bytes }
        ensures len { length result.now ≡ suite_secret_len self.now.suite }
    {
        match &self.inner {
            SecretBytes::Sha256(bytes) => bytes,
            SecretBytes::Sha384(bytes) => bytes,
        }
    }

    /// HKDF-Expand with the suite's hash function and the secret as the pseudorandom key (RFC 5869 section 2.3): fills `out`.
    ///
    /// Fails with `TooLong` if `out` is longer than 255 secrets. It is then unchanged.
    pub fn expand(&self, info: &[u8], out: &mut [u8]) -> Result<(), DerivationError>
        ensures accepted { IsOk result ↔ (length out.old ≤ 255 * suite_secret_len self.now.suite) }
        ensures refused { IsOkUnless result DerivationError.TooLong }
        ensures expanded { OnOk result (out.new
            ≡ hkdf_expand (suite_hash self.now.suite) self.now.bytes info.now (length out.old)) }
        ensures kept { OnErr result (out.new ≡ out.old) }
    {
        match &self.inner {
            SecretBytes::Sha256(bytes) => hkdf::expand::<Sha256>(bytes, info, out),
            SecretBytes::Sha384(bytes) => hkdf::expand::<Sha384>(bytes, info, out),
        }
    }

    /// HKDF-Expand-Label with the suite's hash function (RFC 8446 section 7.1): fills `out`. `label` is without its prefix
    /// `tls13 `.
    ///
    /// Fails as `hkdf::expand_label` does. `out` is then unchanged.
    pub fn expand_label(
        &self,
        label: &[u8],
        context: &[u8],
        out: &mut [u8],
    ) -> Result<(), DerivationError>
        ensures accepted { IsOk result ↔ (IsLabel label.now × (length context.now ≤ 255)
            × (length out.old ≤ 255 * suite_secret_len self.now.suite)) }
        ensures label { IsErrOf result DerivationError.LabelLength ↔ ¬ IsLabel label.now }
        ensures context { IsErrOf result DerivationError.ContextLength
            ↔ (IsLabel label.now × (255 < length context.now)) }
        ensures too_long { IsErrOf result DerivationError.TooLong ↔ (IsLabel label.now
            × (length context.now ≤ 255)
            × (255 * suite_secret_len self.now.suite < length out.old)) }
        ensures expanded { OnOk result (out.new ≡ hkdf_expand_label
            (suite_hash self.now.suite) self.now.bytes label.now context.now (length out.old)) }
        ensures kept { OnErr result (out.new ≡ out.old) }
    {
        match &self.inner {
            SecretBytes::Sha256(bytes) => hkdf::expand_label::<Sha256>(bytes, label, context, out),
            SecretBytes::Sha384(bytes) => hkdf::expand_label::<Sha384>(bytes, label, context, out),
        }
    }

    /// Returns the key and the IV for records of TLS 1.3, by the labels `key` and `iv` (RFC 8446 section 7.3).
    pub fn record_keys(&self) -> RecordKeys
        ensures key { result.key ≡ record_key self.now }
        ensures iv { result.iv ≡ record_iv self.now }
        ensures key_len { length result.key ≡ suite_key_len self.now.suite }
    {
        match &self.inner {
            SecretBytes::Sha256(bytes) => derive_record_keys::<Sha256>(bytes, Suite::Aes128Gcm),
            SecretBytes::Sha384(bytes) => derive_record_keys::<Sha384>(bytes, Suite::Aes256Gcm),
        }
    }

    /// Returns the traffic secret after a KeyUpdate of TLS 1.3, by the label `traffic upd` (RFC 8446 section 7.2).
    pub fn next_traffic(&self) -> Self
        ensures { result ≡ next_traffic_secret self.now }
    {
        self.next(b"traffic upd")
    }

    /// Returns the next secret, by the label of TLS or of a QUIC version.
    pub(crate) fn next(&self, label: &[u8]) -> Self
        requires { length label.now ≤ 249 }
        ensures { result ≡ next_secret self.now label.now }
    {
        match &self.inner {
            SecretBytes::Sha256(bytes) => {
                Secret::aes_128_gcm(Expander::<Sha256>::new(bytes).labeled(label))
            }
            SecretBytes::Sha384(bytes) => {
                Secret::aes_256_gcm(Expander::<Sha384>::new(bytes).labeled(label))
            }
        }
    }
}

/// Returns the key and the IV for records, from one HMAC key. The key is as long as the suite's keys.
fn derive_record_keys<H: Hash>(secret: &[u8], suite: Suite) -> RecordKeys
    ensures key { result.key ≡ hkdf_expand_label H.function secret.now (codes "key") [] (suite_key_len suite) }
    ensures iv { result.iv ≡ hkdf_expand_label H.function secret.now (codes "iv") [] 12 }
    ensures key_len { length result.key ≡ suite_key_len suite }
{
    let from = Expander::<H>::new(secret);
    RecordKeys {
        key: AeadKeyBytes {
            bytes: from.suite_key(b"key", suite),
        },
        iv: from.labeled(b"iv"),
    }
}
