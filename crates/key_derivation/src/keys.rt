//! The keys that are derived from a secret: a type for each kind of key.

ghost use Rattle.std.specs.Prelude.{◌≡◌};

use aead_ciphers_base::aes::AES_256_KEY_LEN;
use arrayvec::ArrayVec;
use std::fmt;
use std::marker::Model;

/// The length of an IV in bytes.
pub const IV_LEN: usize = 12;

/// The keys of one direction of QUIC (RFC 9001 section 5.1).
#[derive(Drop)]
pub struct QuicKeys {
    /// The key for payloads.
    pub key: AeadKeyBytes,
    /// The IV of the nonces.
    pub iv: [u8; IV_LEN],
    /// The key that masks headers.
    pub header_key: HeaderKeyBytes,
}

impl fmt::Debug for QuicKeys {
    ghost use Rattle.std.specs.Prelude.{Some, codes};

    ghost debug_output = { λ keys. Some (codes "QuicKeys { .. }") };

    fn fmt<W: fmt::Write>(&self, f: &mut fmt::Formatter<W>) -> fmt::Result {
        f.write_str("QuicKeys { .. }")
    }
}

/// The key and the IV for payloads in one direction of QUIC. A key update replaces these two, and keeps the key that masks
/// headers (RFC 9001 section 6.1).
#[derive(Drop)]
pub struct PacketKeys {
    /// The key for payloads.
    pub key: AeadKeyBytes,
    /// The IV of the nonces.
    pub iv: [u8; IV_LEN],
}

impl fmt::Debug for PacketKeys {
    ghost use Rattle.std.specs.Prelude.{Some, codes};

    ghost debug_output = { λ keys. Some (codes "PacketKeys { .. }") };

    fn fmt<W: fmt::Write>(&self, f: &mut fmt::Formatter<W>) -> fmt::Result {
        f.write_str("PacketKeys { .. }")
    }
}

/// The key and the IV for the records in one direction of TLS 1.3 (RFC 8446 section 7.3).
#[derive(Drop)]
pub struct RecordKeys {
    /// The key for contents.
    pub key: AeadKeyBytes,
    /// The IV of the nonces.
    pub iv: [u8; IV_LEN],
}

impl fmt::Debug for RecordKeys {
    ghost use Rattle.std.specs.Prelude.{Some, codes};

    ghost debug_output = { λ keys. Some (codes "RecordKeys { .. }") };

    fn fmt<W: fmt::Write>(&self, f: &mut fmt::Formatter<W>) -> fmt::Result {
        f.write_str("RecordKeys { .. }")
    }
}

/// The 16 or 32 bytes of an AEAD key, which seals or opens payloads. Its label is `quic key` or `quicv2 key`, or `key` in TLS
/// 1.3.
#[derive(Drop)]
pub struct AeadKeyBytes {
    pub(crate) bytes: ArrayVec<u8, AES_256_KEY_LEN>,
}

impl Model for AeadKeyBytes {
    ghost use Rattle.std.specs.Prelude.{ℕ, List};

    ghost Value = { List ℕ };

    ghost view = { λ key. key.bytes.items };
}

impl fmt::Debug for AeadKeyBytes {
    ghost use Rattle.std.specs.Prelude.{Some, codes};

    ghost debug_output = { λ key. Some (codes "AeadKeyBytes { .. }") };

    fn fmt<W: fmt::Write>(&self, f: &mut fmt::Formatter<W>) -> fmt::Result {
        f.write_str("AeadKeyBytes { .. }")
    }
}

impl AeadKeyBytes {
    /// Returns the bytes of the key.
    pub fn as_slice(&self) -> &[u8]
        ensures { result.now ≡ self.now }
    {
        &self.bytes
    }
}

/// The 16 or 32 bytes of a key that masks headers. Its label is `quic hp` or `quicv2 hp`.
#[derive(Drop)]
pub struct HeaderKeyBytes {
    pub(crate) bytes: ArrayVec<u8, AES_256_KEY_LEN>,
}

impl Model for HeaderKeyBytes {
    ghost use Rattle.std.specs.Prelude.{ℕ, List};

    ghost Value = { List ℕ };

    ghost view = { λ key. key.bytes.items };
}

impl fmt::Debug for HeaderKeyBytes {
    ghost use Rattle.std.specs.Prelude.{Some, codes};

    ghost debug_output = { λ key. Some (codes "HeaderKeyBytes { .. }") };

    fn fmt<W: fmt::Write>(&self, f: &mut fmt::Formatter<W>) -> fmt::Result {
        f.write_str("HeaderKeyBytes { .. }")
    }
}

impl HeaderKeyBytes {
    /// Returns the bytes of the key.
    pub fn as_slice(&self) -> &[u8]
        ensures { result.now ≡ self.now }
    {
        &self.bytes
    }
}
