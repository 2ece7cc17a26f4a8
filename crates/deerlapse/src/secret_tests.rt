//! Tests of the calls on secrets, packets and records, with the vectors of RFC 9001 and RFC 9369 appendix A, RFC 8448 section 3,
//! RFC 5869 appendix A.1 and RFC 4231 section 4.3.

ghost use Rattle.deerlapse.specs.AesKey.{IsKeyOrNone};
ghost use Rattle.deerlapse.specs.HeaderKey.{IsHeaderKeyOrNone};

use crate::header_key::{
    HeaderKey, deerlapse_quic_header_key_from_secret, deerlapse_quic_header_key_init,
    deerlapse_quic_header_key_mask, deerlapse_quic_header_key_wipe,
};
use crate::hkdf::{
    deerlapse_hkdf_expand, deerlapse_hkdf_expand_label, deerlapse_hkdf_extract, deerlapse_hmac,
};
use crate::quic_key::{
    self, deerlapse_quic_initial_secrets, deerlapse_quic_key_from_secret, deerlapse_quic_key_init,
    deerlapse_quic_key_open, deerlapse_quic_key_seal, deerlapse_quic_key_wipe,
    deerlapse_quic_next_secret,
};
use crate::record_key::{
    self, deerlapse_record_key_from_secret, deerlapse_record_key_init, deerlapse_record_key_open,
    deerlapse_record_key_seal, deerlapse_record_key_wipe, deerlapse_tls_next_secret,
};
use crate::tests::{accepted, equal, is_zero, no_header_key, same};
use crate::traffic_key::TrafficKey;
use aead_ciphers::aes_gcm::GcmKey;
use aead_ciphers_wide::aes::Width;
use aead_ciphers_wide::aes_gcm::ExpandedKey;
use aead_vectors::rfc_8448::{RECORDS, Record};
use aead_vectors::rfc_9001::{self, CLIENT_ID, Packet};
use aead_vectors::rfc_9369;
use std::process::Abort;
use std::test::Fail;

const VERSION_1: u32 = 1;

const VERSION_2: u32 = 0x6b3343cf;

/// The first packets of a client and of a server, in each version.
const PACKETS: [(u32, &str, &str); 2] = [
    (VERSION_1, rfc_9001::A_2_PACKET, rfc_9001::A_3_PACKET),
    (VERSION_2, rfc_9369::A_2_PACKET, rfc_9369::A_3_PACKET),
];

/// Returns a key of zeros.
fn no_key() -> TrafficKey {
    TrafficKey {
        key: ExpandedKey::zeros(),
        iv: [0; 12],
        room: [0; 4],
    }
}

/// Asserts that a key and its IV are all zeros.
fn is_no_key(rt: &impl Abort, traffic: &TrafficKey, what: &str) {
    is_zero(rt, &traffic.key, what);
    same(rt, &traffic.iv, &[0; 12], what);
    same(rt, &traffic.room, &[0; 4], what);
}

/// Seals the payload of a packet, and opens it again.
fn seals_packet(rt: &impl Abort, key: &TrafficKey, row: &Packet) -> Result<(), Fail>
    requires { IsKeyOrNone key.now.key }
{
    let mut payload = row.frames.clone()?;
    payload.resize(row.payload_len, 0)?;
    let mut tag = [0; 16];
    let sealed = deerlapse_quic_key_seal(key, row.number, &row.header, &mut payload, &mut tag);
    accepted(rt, sealed, row.name);
    payload.extend_from_slice(&tag)?;
    let protected = row.protected.get(row.header.len()..).ok_or("a payload")?;
    same(rt, &payload, protected, row.name);
    let mut len = 0;
    let opened = deerlapse_quic_key_open(key, row.number, &row.header, &mut payload, &mut len);
    accepted(rt, opened, row.name);
    equal(rt, &len, &row.payload_len, row.name);
    let frames = payload.get(..row.frames.len()).ok_or("the frames")?;
    same(rt, frames, &row.frames, row.name);
    Ok(())
}

/// XORs the bytes from an index on with as many of a mask.
fn xor(bytes: &mut [u8], at: usize, mask: &[u8]) {
    let Some(bytes) = bytes.get_mut(at..) else {
        return
    };
    for (i, masked) in mask.iter().enumerate() {
        if let Some(byte) = bytes.get_mut(i) {
            *byte ^= masked;
        }
    }
}

/// Masks the header of a packet.
fn masks_header(rt: &impl Abort, key: &HeaderKey, row: &Packet) -> Result<(), Fail>
    requires { IsHeaderKeyOrNone key.now }
{
    let sample = row.protected.get(row.number_at..).ok_or("a sample")?;
    let sample = sample.get(4..20).ok_or("a sample")?;
    let sample = sample.first_chunk::<16>().ok_or("a sample")?;
    let mut mask = [0; 5];
    accepted(
        rt,
        deerlapse_quic_header_key_mask(key, sample, &mut mask),
        row.name,
    );
    let mut masked = row.header.clone()?;
    xor(&mut masked, 0, &[mask[0] & 0x0f]);
    xor(&mut masked, row.number_at, &mask[1..]);
    let header = row.protected.get(..masked.len()).ok_or("a header")?;
    same(rt, &masked, header, row.name);
    Ok(())
}

/// Protects a packet under the keys of a secret, with planes of each width, and under the key's bytes.
fn protects(rt: &impl Abort, version: u32, secret: &[u8], row: &Packet) -> Result<(), Fail> {
    let (mut key, mut wider, mut of_bytes) = (no_key(), no_key(), no_key());
    if !deerlapse_quic_key_from_secret(&mut key, version, secret)
        || !quic_key::init_from_secret(&mut wider, version, secret, Width::Bits256)
        || !deerlapse_quic_key_init(&mut of_bytes, &row.key, &row.iv)
    {
        return Err("a key".into());
    }
    equal(rt, &(key.key.width, wider.key.width), &(128, 256), row.name);
    seals_packet(rt, &key, row)?;
    seals_packet(rt, &wider, row)?;
    seals_packet(rt, &of_bytes, row)?;
    if !of_bytes.init(&row.key, &row.iv, Width::Bits256) {
        return Err("a key".into());
    }
    seals_packet(rt, &of_bytes, row)?;
    deerlapse_quic_key_wipe(&mut of_bytes);
    is_no_key(rt, &of_bytes, row.name);
    Ok(())
}

/// Masks a packet's header under the header key of a secret, and under the key's bytes, which are then wiped.
fn masks(rt: &impl Abort, version: u32, secret: &[u8], row: &Packet) -> Result<(), Fail> {
    let (mut key, mut of_bytes) = (no_header_key(), no_header_key());
    if !deerlapse_quic_header_key_from_secret(&mut key, version, secret)
        || !deerlapse_quic_header_key_init(&mut of_bytes, &row.header_key)
    {
        return Err("a header key".into());
    }
    masks_header(rt, &key, row)?;
    masks_header(rt, &of_bytes, row)?;
    deerlapse_quic_header_key_wipe(&mut of_bytes);
    equal(rt, &of_bytes.rounds, &0, row.name);
    for round_key in &of_bytes.round_keys {
        same(rt, round_key, &[0; 16], row.name);
    }
    Ok(())
}

#[test]
fn rfc_9001_and_rfc_9369(rt: HostRuntime) -> Result<(), Fail> {
    for (version, of_client, of_server) in PACKETS {
        let (mut client, mut server) = ([0; 32], [0; 32]);
        let made = deerlapse_quic_initial_secrets(version, &CLIENT_ID, &mut client, &mut server);
        accepted(&rt, made, "the Initial secrets");
        for (secret, line) in [(client, of_client), (server, of_server)] {
            let row = Packet::parse(rt.alloc(), line)?;
            protects(&rt, version, &secret, &row)?;
            masks(&rt, version, &secret, &row)?;
        }
    }
    Ok(())
}

/// The secret of RFC 9001 appendix A.5 and of RFC 9369 appendix A.5.
const SECRET: [u8; 32] = [
    0x9a, 0xc3, 0x12, 0xa7, 0xf8, 0x77, 0x46, 0x8e, 0xbe, 0x69, 0x42, 0x27, 0x48, 0xad, 0x00, 0xa1,
    0x54, 0x43, 0xf1, 0x82, 0x03, 0xa0, 0x7d, 0x60, 0x60, 0xf6, 0x88, 0xf3, 0x0f, 0x21, 0x63, 0x2b,
];

/// For each version, the label of the secret after a key update, and that secret.
const NEXT: [(u32, &[u8], [u8; 32]); 2] = [
    (
        VERSION_1,
        b"quic ku",
        [
            0x12, 0x23, 0x50, 0x47, 0x55, 0x03, 0x6d, 0x55, 0x63, 0x42, 0xee, 0x93, 0x61, 0xd2,
            0x53, 0x42, 0x1a, 0x82, 0x6c, 0x9e, 0xcd, 0xf3, 0xc7, 0x14, 0x86, 0x84, 0xb3, 0x6b,
            0x71, 0x48, 0x81, 0xf9,
        ],
    ),
    (
        VERSION_2,
        b"quicv2 ku",
        [
            0xc6, 0x93, 0x74, 0xc4, 0x9e, 0x3d, 0x2a, 0x94, 0x66, 0xfa, 0x68, 0x9e, 0x49, 0xd4,
            0x76, 0xdb, 0x5d, 0x0d, 0xfb, 0xc8, 0x7d, 0x32, 0xce, 0xea, 0xa6, 0x34, 0x3f, 0xd0,
            0xae, 0x4c, 0x7d, 0x88,
        ],
    ),
];

#[test]
fn rfc_9001_and_rfc_9369_a_5(rt: HostRuntime) {
    for (version, label, wanted) in NEXT {
        let (mut next, mut labeled) = (SECRET, [0; 32]);
        accepted(
            &rt,
            deerlapse_quic_next_secret(version, &mut next),
            "a secret",
        );
        same(&rt, &next, &wanted, "the next secret");
        let expanded = deerlapse_hkdf_expand_label(&SECRET, label, b"", &mut labeled);
        accepted(&rt, expanded, "a label");
        same(&rt, &labeled, &wanted, "by its label");
    }
}

/// Opens a record, and returns the type and the length of its content.
fn opens_record(
    rt: &impl Abort,
    key: &TrafficKey,
    number: u64,
    payload: &mut [u8],
    what: &str,
) -> (u8, usize)
    requires { IsKeyOrNone key.now.key }
{
    let (mut content_type, mut len) = (u8::MAX, usize::MAX);
    let opened = deerlapse_record_key_open(key, number, payload, &mut content_type, &mut len);
    accepted(rt, opened, what);
    (content_type, len)
}

/// Opens a record, and seals it again.
fn seals_record(rt: &impl Abort, key: &TrafficKey, row: &Record) -> Result<(), Fail>
    requires { IsKeyOrNone key.now.key }
{
    let number = u64::from(row.number);
    let mut payload = row.encrypted.clone()?;
    let (content_type, len) = opens_record(rt, key, number, &mut payload, row.name);
    equal(rt, &u32::from(content_type), &row.content_type, row.name);
    let content = payload.get(..len).ok_or("a content")?;
    same(rt, content, &row.content, row.name);
    let sealed = deerlapse_record_key_seal(key, number, content_type, &mut payload, len);
    accepted(rt, sealed, row.name);
    same(rt, &payload, &row.encrypted, row.name);
    Ok(())
}

/// Seals and opens a record under the key of its secret, with planes of each width.
fn protects_record(rt: &impl Abort, row: &Record) -> Result<(), Fail> {
    let (mut key, mut wider) = (no_key(), no_key());
    if !deerlapse_record_key_from_secret(&mut key, &row.secret)
        || !record_key::init_from_secret(&mut wider, &row.secret, Width::Bits256)
    {
        return Err("a key".into());
    }
    seals_record(rt, &key, row)?;
    seals_record(rt, &wider, row)?;
    deerlapse_record_key_wipe(&mut key);
    is_no_key(rt, &key, row.name);
    Ok(())
}

#[test]
fn rfc_8448(rt: HostRuntime) -> Result<(), Fail> {
    for line in RECORDS {
        protects_record(&rt, &Record::parse(rt.alloc(), line)?)?;
    }
    Ok(())
}

/// Seals and opens a record of application data with padding. The key's width is that of its call.
fn opens_by(rt: &impl Abort, key: &TrafficKey, width: u32)
    requires { IsKeyOrNone key.now.key }
{
    equal(rt, &key.key.width, &width, "the width");
    let mut payload = [7; 30];
    accepted(
        rt,
        deerlapse_record_key_seal(key, 1, 23, &mut payload, 9),
        "sealed",
    );
    let opened = opens_record(rt, key, 1, &mut payload, "opened");
    equal(rt, &opened, &(23, 9), "the content");
    same(
        rt,
        &payload[..14],
        &[7, 7, 7, 7, 7, 7, 7, 7, 7, 23, 0, 0, 0, 0],
        "padded",
    );
}

#[test]
fn padded(rt: HostRuntime) -> Result<(), Fail> {
    let (mut key, mut wider) = (no_key(), no_key());
    if !deerlapse_record_key_init(&mut key, &[3; 32], &[5; 12])
        || !wider.init(&[3; 32], &[5; 12], Width::Bits256)
    {
        return Err("a key".into());
    }
    opens_by(&rt, &key, 128);
    opens_by(&rt, &wider, 256);
    Ok(())
}

/// RFC 5869 appendix A.1.
#[test]
fn rfc_5869(rt: HostRuntime) {
    let salt = [0, 1, 2, 3, 4, 5, 6, 7, 8, 9, 10, 11, 12];
    let info = [0xf0, 0xf1, 0xf2, 0xf3, 0xf4, 0xf5, 0xf6, 0xf7, 0xf8, 0xf9];
    let (mut prk, mut okm) = ([0; 32], [0; 42]);
    accepted(
        &rt,
        deerlapse_hkdf_extract(&salt, &[0x0b; 22], &mut prk),
        "extract",
    );
    accepted(&rt, deerlapse_hkdf_expand(&prk, &info, &mut okm), "expand");
    let wanted = [
        0x3c, 0xb2, 0x5f, 0x25, 0xfa, 0xac, 0xd5, 0x7a, 0x90, 0x43, 0x4f, 0x64, 0xd0, 0x36, 0x2f,
        0x2a, 0x2d, 0x2d, 0x0a, 0x90, 0xcf, 0x1a, 0x5a, 0x4c, 0x5d, 0xb0, 0x2d, 0x56, 0xec, 0xc4,
        0xc5, 0xbf, 0x34, 0x00, 0x72, 0x08, 0xd5, 0xb8, 0x87, 0x18, 0x58, 0x65,
    ];
    same(&rt, &okm, &wanted, "the output");
}

/// RFC 4231 section 4.3, with SHA-384.
#[test]
fn rfc_4231(rt: HostRuntime) {
    let mut code = [0; 48];
    let message = b"what do ya want for nothing?";
    accepted(&rt, deerlapse_hmac(b"Jefe", message, &mut code), "a code");
    let wanted = [
        0xaf, 0x45, 0xd2, 0xe3, 0x76, 0x48, 0x40, 0x31, 0x61, 0x7f, 0x78, 0xd2, 0xb5, 0x8a, 0x6b,
        0x1b, 0x9c, 0x7e, 0xf4, 0x64, 0xf5, 0xa0, 0x1b, 0x47, 0xe4, 0x2e, 0xc3, 0x73, 0x63, 0x22,
        0x44, 0x5e, 0x8e, 0x22, 0x40, 0xca, 0x5e, 0x69, 0xe2, 0xc7, 0x8b, 0x32, 0x39, 0xec, 0xfa,
        0xb2, 0x16, 0x49,
    ];
    same(&rt, &code, &wanted, "the code");
}

/// The client's traffic secrets of a connection of OpenSSL 3.0.19 under TLS_AES_256_GCM_SHA384, before and after its KeyUpdate.
#[test]
fn next_traffic_secret(rt: HostRuntime) {
    let mut secret = [
        0x96, 0xc7, 0x96, 0x61, 0xf3, 0x6a, 0x8a, 0x25, 0xc7, 0x5c, 0x8c, 0xfe, 0x81, 0xa7, 0x2c,
        0xa9, 0x27, 0x5b, 0x99, 0xe4, 0xac, 0x45, 0x72, 0xab, 0xe8, 0xc7, 0x04, 0x85, 0xed, 0x9c,
        0xc7, 0xbb, 0x1f, 0xf8, 0x74, 0x1a, 0x37, 0x7c, 0x3e, 0x90, 0xad, 0x0e, 0x06, 0x57, 0x51,
        0x20, 0x1c, 0x94,
    ];
    let next = [
        0x6a, 0xa2, 0xfd, 0xca, 0xaa, 0xe8, 0x46, 0xa7, 0xe6, 0x97, 0x80, 0xc6, 0x99, 0x50, 0xee,
        0x74, 0x3a, 0xfd, 0x5c, 0x37, 0xbe, 0x7d, 0x44, 0xaa, 0x63, 0xeb, 0x0c, 0x93, 0x0d, 0x82,
        0x41, 0x82, 0x02, 0xef, 0x77, 0xc1, 0xdb, 0x22, 0x74, 0xde, 0x43, 0xfc, 0xeb, 0xdb, 0x74,
        0xdf, 0x0f, 0xef,
    ];
    accepted(&rt, deerlapse_tls_next_secret(&mut secret), "a secret");
    same(&rt, &secret, &next, "the next secret");
}

/// The record of four zeros that `tools/read-records make` prints is authentic, and has no type.
#[test]
fn zeros_alone(rt: HostRuntime) -> Result<(), Fail> {
    let bytes = [0, 1, 2, 3, 4, 5, 6, 7, 8, 9, 10, 11, 12, 13, 14, 15];
    let iv = [0, 1, 2, 3, 4, 5, 6, 7, 8, 9, 10, 11];
    let mut payload = [
        0x93, 0x6c, 0xa7, 0xce, 0x19, 0x2e, 0xa8, 0xe2, 0x15, 0x27, 0x10, 0x8e, 0x19, 0xc3, 0x56,
        0x65, 0x97, 0x90, 0xe9, 0xef,
    ];
    let mut key = no_key();
    if !deerlapse_record_key_init(&mut key, &bytes, &iv) {
        return Err("a key".into());
    }
    let opened = opens_record(&rt, &key, 0, &mut payload, "opened");
    equal(&rt, &opened, &(0, 0), "no type");
    same(&rt, &payload[..4], &[0; 4], "zeros");
    Ok(())
}
