//! Secrets of QUIC, and the keys that they give in each version (RFC 9001 sections 5.1, 5.2 and 6.1, RFC 9369 section 3).

ghost use Rattle.std.specs.Prelude.{◌≡◌, ◌≤◌, ◌↔◌, ℕ, List, [], length, IsOk, IfOk, IsOkUnless};
ghost use Rattle.key_derivation.specs.Hkdf.{hkdf_expand_label};
ghost use Rattle.key_derivation.specs.HmacState.{IsExpander};
ghost use Rattle.key_derivation.specs.Quic.{client_initial_secret, endpoint_secret, header_key_label, initial_salt, iv_label, key_label, next_quic_secret, numbered_version, quic_header_key, quic_iv, quic_key, server_initial_secret, update_label, version_number};
ghost use Rattle.key_derivation.specs.Secret.{suite_key_len, suite_secret_len};

use crate::error::DerivationError;
use crate::hash::Hash;
use crate::hkdf::{Expander, extract};
use crate::keys::{AeadKeyBytes, HeaderKeyBytes, PacketKeys, QuicKeys};
use crate::secret::{Secret, SecretBytes};
use crate::suite::Suite;
use sha2::{Sha256, Sha384};
use std::fmt;
use std::marker::Model;

/// The length of the longest connection ID in bytes (RFC 9000 section 17.2).
pub const MAX_CONNECTION_ID_LEN: usize = 20;

/// The number of version 2 (RFC 9369 section 3.1).
const VERSION_2: u32 = 0x6b3343cf;

/// The salt of the Initial secrets in version 1 (RFC 9001 section 5.2).
const INITIAL_SALT_1: [u8; 20] = [
    0x38, 0x76, 0x2c, 0xf7, 0xf5, 0x59, 0x34, 0xb3, 0x4d, 0x17, 0x9a, 0xe6, 0xa4, 0xc8, 0x0c, 0xad,
    0xcc, 0xbb, 0x7f, 0x0a,
];

/// The salt of the Initial secrets in version 2 (RFC 9369 section 3.3.1).
const INITIAL_SALT_2: [u8; 20] = [
    0x0d, 0xed, 0xe3, 0xde, 0xf7, 0x00, 0xa6, 0xdb, 0x81, 0x93, 0x81, 0xbe, 0x6e, 0x26, 0x9d, 0xcb,
    0xf9, 0xbd, 0x2e, 0xd9,
];

/// A version of QUIC. It determines the salt of the Initial secrets and the labels of all keys.
#[derive(Clone, Copy, PartialEq, Eq, Debug)]
pub enum Version {
    /// QUIC version 1 (RFC 9000, RFC 9001).
    One,
    /// QUIC version 2 (RFC 9369).
    Two,
}

impl Version {
    /// Returns the number of the version in a long header: 1 (RFC 9000 section 15), or 0x6b3343cf (RFC 9369 section 3.1).
    pub fn number(self) -> u32
        ensures { result ≡ version_number self }
    {
        match self {
            Version::One => 1,
            Version::Two => VERSION_2,
        }
    }

    /// Returns the version with a number, or `None` if it is neither version 1 nor version 2.
    pub fn from_number(number: u32) -> Option<Self>
        ensures { result ≡ numbered_version number }
    {
        match number {
            1 => Some(Version::One),
            VERSION_2 => Some(Version::Two),
            _ => None,
        }
    }

    fn initial_salt(self) -> [u8; 20]
        ensures { result ≡ initial_salt self }
    {
        match self {
            Version::One => INITIAL_SALT_1,
            Version::Two => INITIAL_SALT_2,
        }
    }

    fn key_label(self) -> &'static [u8]
        ensures label { result.now ≡ key_label self }
        ensures len { length result.now ≤ 249 }
    {
        match self {
            Version::One => b"quic key",
            Version::Two => b"quicv2 key",
        }
    }

    fn iv_label(self) -> &'static [u8]
        ensures label { result.now ≡ iv_label self }
        ensures len { length result.now ≤ 249 }
    {
        match self {
            Version::One => b"quic iv",
            Version::Two => b"quicv2 iv",
        }
    }

    fn header_key_label(self) -> &'static [u8]
        ensures label { result.now ≡ header_key_label self }
        ensures len { length result.now ≤ 249 }
    {
        match self {
            Version::One => b"quic hp",
            Version::Two => b"quicv2 hp",
        }
    }

    fn update_label(self) -> &'static [u8]
        ensures label { result.now ≡ update_label self }
        ensures len { length result.now ≤ 249 }
    {
        match self {
            Version::One => b"quic ku",
            Version::Two => b"quicv2 ku",
        }
    }
}

/// A secret of one direction of a connection of QUIC, with its version, which gives the keys of this direction and the next
/// secret.
///
/// # Examples
///
/// The keys of a client's Initial packets. From `crates/quic_packets_tests/src/tests/examples/initial_keys.rt`:
///
/// ```
/// Ok(QuicSecret::client_initial(version, id)?.keys())
/// ```
#[derive(Drop)]
pub struct QuicSecret {
    version: Version,
    secret: Secret,
}

impl Model for QuicSecret {
    ghost use Rattle.key_derivation.specs.Quic.{QuicSecretState};

    ghost Value = { QuicSecretState };

    ghost view = { λ s. record { version = s.version; secret = s.secret } };
}

impl fmt::Debug for QuicSecret {
    ghost use Rattle.std.specs.Prelude.{Some, codes};

    ghost debug_output = { λ s. Some (codes "QuicSecret { .. }") };

    fn fmt<W: fmt::Write>(&self, f: &mut fmt::Formatter<W>) -> fmt::Result {
        f.write_str("QuicSecret { .. }")
    }
}

impl QuicSecret {
    /// Creates a QUIC secret from a version and a traffic secret of TLS.
    pub fn new(version: Version, secret: Secret) -> Self
        ensures { result ≡ record { version = version; secret = secret } }
    {
        QuicSecret { version, secret }
    }

    /// Creates the secret of the Initial packets that a client sends, from the Destination Connection ID of its first one
    /// (RFC 9001 section 5.2).
    ///
    /// Fails with `ConnectionIdLength` if `id` has more than 20 bytes.
    pub fn client_initial(version: Version, id: &[u8]) -> Result<Self, DerivationError>
        ensures accepted { IsOk result ↔ (length id.now ≤ 20) }
        ensures refused { IsOkUnless result DerivationError.ConnectionIdLength }
        ensures made { IfOk result (λ s. s ≡ client_initial_secret version id.now) }
    {
        endpoint_secret(version, id, b"client in")
    }

    /// Creates the secret of the Initial packets that a server sends, from the Destination Connection ID of the client's
    /// first Initial packet (RFC 9001 section 5.2).
    ///
    /// Fails with `ConnectionIdLength` if `id` has more than 20 bytes.
    pub fn server_initial(version: Version, id: &[u8]) -> Result<Self, DerivationError>
        ensures accepted { IsOk result ↔ (length id.now ≤ 20) }
        ensures refused { IsOkUnless result DerivationError.ConnectionIdLength }
        ensures made { IfOk result (λ s. s ≡ server_initial_secret version id.now) }
    {
        endpoint_secret(version, id, b"server in")
    }

    /// Returns the secret's version.
    pub fn version(&self) -> Version
        ensures { result ≡ self.now.version }
    {
        self.version
    }

    /// Returns the secret's suite.
    pub fn suite(&self) -> Suite
        ensures { result ≡ self.now.secret.suite }
    {
        self.secret.suite()
    }

    /// Returns the secret's bytes.
    pub fn as_slice(&self) -> &[u8]
        ensures bytes { result.now ≡ self.now.secret.bytes }
        ensures len { length result.now ≡ suite_secret_len self.now.secret.suite }
    {
        self.secret.as_slice()
    }

    /// Returns all keys of the secret, by the labels `quic key`, `quic iv` and `quic hp` of version 1 (RFC 9001 section 5.1), or
    /// `quicv2 key`, `quicv2 iv` and `quicv2 hp` of version 2 (RFC 9369 section 3.3.2).
    pub fn keys(&self) -> QuicKeys
        ensures key { result.key ≡ quic_key self.now }
        ensures iv { result.iv ≡ quic_iv self.now }
        ensures header_key { result.header_key ≡ quic_header_key self.now }
        ensures key_len { length result.key ≡ suite_key_len self.now.secret.suite }
        ensures header_key_len { length result.header_key ≡ suite_key_len self.now.secret.suite }
    {
        let version = self.version;
        match &self.secret.inner {
            SecretBytes::Sha256(bytes) => derive_keys::<Sha256>(version, bytes, Suite::Aes128Gcm),
            SecretBytes::Sha384(bytes) => derive_keys::<Sha384>(version, bytes, Suite::Aes256Gcm),
        }
    }

    /// Returns the key and the IV for payloads, by the labels `quic key` and `quic iv`, or `quicv2 key` and `quicv2 iv`. A key
    /// update changes these two and no other key (RFC 9001 section 6.1).
    pub fn packet_keys(&self) -> PacketKeys
        ensures key { result.key ≡ quic_key self.now }
        ensures iv { result.iv ≡ quic_iv self.now }
        ensures key_len { length result.key ≡ suite_key_len self.now.secret.suite }
    {
        let version = self.version;
        match &self.secret.inner {
            SecretBytes::Sha256(bytes) => {
                derive_packet_keys(&Expander::<Sha256>::new(bytes), version, Suite::Aes128Gcm)
            }
            SecretBytes::Sha384(bytes) => {
                derive_packet_keys(&Expander::<Sha384>::new(bytes), version, Suite::Aes256Gcm)
            }
        }
    }

    /// Returns the key that masks headers, by the label `quic hp` or `quicv2 hp`.
    pub fn header_key(&self) -> HeaderKeyBytes
        ensures key { result ≡ quic_header_key self.now }
        ensures len { length result ≡ suite_key_len self.now.secret.suite }
    {
        let version = self.version;
        match &self.secret.inner {
            SecretBytes::Sha256(bytes) => {
                derive_header_key(&Expander::<Sha256>::new(bytes), version, Suite::Aes128Gcm)
            }
            SecretBytes::Sha384(bytes) => {
                derive_header_key(&Expander::<Sha384>::new(bytes), version, Suite::Aes256Gcm)
            }
        }
    }

    /// Returns the secret after a key update, by the label `quic ku` of version 1 (RFC 9001 section 6.1), or `quicv2 ku` of
    /// version 2 (RFC 9369 section 3.3.2). The header key does not change at an update: it stays that of the first secret.
    pub fn next(&self) -> Self
        ensures { result ≡ next_quic_secret self.now }
    {
        QuicSecret {
            version: self.version,
            secret: self.secret.next(self.version.update_label()),
        }
    }
}

/// Returns all keys of a secret, as long as the suite's keys, from one HMAC key.
fn derive_keys<H: Hash>(version: Version, secret: &[u8], suite: Suite) -> QuicKeys
    ensures key { result.key ≡ hkdf_expand_label H.function secret.now (key_label version) [] (suite_key_len suite) }
    ensures iv { result.iv ≡ hkdf_expand_label H.function secret.now (iv_label version) [] 12 }
    ensures header_key { result.header_key
        ≡ hkdf_expand_label H.function secret.now (header_key_label version) [] (suite_key_len suite) }
    ensures key_len { length result.key ≡ suite_key_len suite }
    ensures header_key_len { length result.header_key ≡ suite_key_len suite }
{
    let from = Expander::<H>::new(secret);
    let PacketKeys { key, iv } = derive_packet_keys(&from, version, suite);
    let header_key = derive_header_key(&from, version, suite);
    QuicKeys {
        key,
        iv,
        header_key,
    }
}

/// Returns the key and the IV for payloads of the expander's secret. The key is as long as the suite's keys.
fn derive_packet_keys<H: Hash>(from: &Expander<H>, version: Version, suite: Suite) -> PacketKeys
    ensures key { (secret : List ℕ) → IsExpander H.function H.holds secret from.now
        → result.key ≡ hkdf_expand_label H.function secret (key_label version) [] (suite_key_len suite) }
    ensures iv { (secret : List ℕ) → IsExpander H.function H.holds secret from.now
        → result.iv ≡ hkdf_expand_label H.function secret (iv_label version) [] 12 }
    ensures key_len { length result.key ≡ suite_key_len suite }
{
    PacketKeys {
        key: AeadKeyBytes {
            bytes: from.suite_key(version.key_label(), suite),
        },
        iv: from.labeled(version.iv_label()),
    }
}

/// Returns the key that masks headers of the expander's secret, as long as the suite's keys.
fn derive_header_key<H: Hash>(from: &Expander<H>, version: Version, suite: Suite) -> HeaderKeyBytes
    ensures key { (secret : List ℕ) → IsExpander H.function H.holds secret from.now
        → result ≡ hkdf_expand_label H.function secret (header_key_label version) [] (suite_key_len suite) }
    ensures len { length result ≡ suite_key_len suite }
{
    HeaderKeyBytes {
        bytes: from.suite_key(version.header_key_label(), suite),
    }
}

/// Returns the Initial secret of an endpoint, whose label is `client in` or `server in` (RFC 9001 section 5.2).
fn endpoint_secret(version: Version, id: &[u8], label: &[u8]) -> Result<QuicSecret, DerivationError>
    requires { length label.now ≤ 249 }
    ensures accepted { IsOk result ↔ (length id.now ≤ 20) }
    ensures refused { IsOkUnless result DerivationError.ConnectionIdLength }
    ensures made { IfOk result (λ s. s ≡ endpoint_secret version id.now label.now) }
{
    if id.len() > MAX_CONNECTION_ID_LEN {
        return Err(DerivationError::ConnectionIdLength);
    }
    let secret = extract::<Sha256>(&version.initial_salt(), id);
    let bytes = Expander::<Sha256>::new(&secret).labeled(label);
    Ok(QuicSecret::new(version, Secret::aes_128_gcm(bytes)))
}
