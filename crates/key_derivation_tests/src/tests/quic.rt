//! The keys of QUIC of secrets: RFC 9001 appendix A, RFC 9369 appendix A, and values by python's `hmac`.

use crate::tests::checks::{bytes_of, equal, prints, same};
use key_derivation::quic::{QuicSecret, Version};
use key_derivation::{DerivationError, Secret};
use std::process::Abort;
use std::test::Fail;

/// The bytes of a secret, its keys, and the bytes of the secret after a key update, in hex.
struct Row {
    name: &'static str,
    secret: &'static str,
    key: &'static str,
    iv: &'static str,
    header_key: &'static str,
    next: Option<&'static str>,
}

/// Asserts the bytes of a secret, its keys and the secret after it.
fn is_row(rt: &(impl Abort + AllocGlobal), secret: &QuicSecret, row: &Row) {
    same(rt, secret.as_slice(), row.secret, row.name);
    let keys = secret.keys();
    same(rt, keys.key.as_slice(), row.key, row.name);
    same(rt, &keys.iv, row.iv, row.name);
    same(rt, keys.header_key.as_slice(), row.header_key, row.name);
    let packet_keys = secret.packet_keys();
    same(rt, packet_keys.key.as_slice(), row.key, row.name);
    same(rt, &packet_keys.iv, row.iv, row.name);
    same(rt, secret.header_key().as_slice(), row.header_key, row.name);
    if let Some(next) = row.next {
        same(rt, secret.next().as_slice(), next, row.name);
    }
}

/// RFC 9001 A.1.
const RFC_9001_A_1: [Row; 2] = [
    Row {
        name: "client_initial_secret",
        secret: "c00cf151ca5be075ed0ebfb5c80323c42d6b7db67881289af4008f1f6c357aea",
        key: "1f369613dd76d5467730efcbe3b1a22d",
        iv: "fa044b2f42a3fd3b46fb255c",
        header_key: "9f50449e04a0e810283a1e9933adedd2",
        next: None,
    },
    Row {
        name: "server_initial_secret",
        secret: "3c199828fd139efd216c155ad844cc81fb82fa8d7446fa7d78be803acdda951b",
        key: "cf3a5331653c364c88f0f379b6067e37",
        iv: "0ac1493ca1905853b0bba03e",
        header_key: "c206b8d9b9f0f37644430b490eeaa314",
        next: None,
    },
];

/// RFC 9369 A.1.
const RFC_9369_A_1: [Row; 2] = [
    Row {
        name: "client_initial_secret",
        secret: "14ec9d6eb9fd7af83bf5a668bc17a7e283766aade7ecd0891f70f9ff7f4bf47b",
        key: "8b1a0bc121284290a29e0971b5cd045d",
        iv: "91f73e2351d8fa91660e909f",
        header_key: "45b95e15235d6f45a6b19cbcb0294ba9",
        next: None,
    },
    Row {
        name: "server_initial_secret",
        secret: "0263db1782731bf4588e7e4d93b7463907cb8cd8200b5da55a8bd488eafc37c1",
        key: "82db637861d55e1d011f19ea71d5d2a7",
        iv: "dd13c276499c0249d3310652",
        header_key: "edf6d05c83121201b436e16877593c3a",
        next: None,
    },
];

/// Asserts the Initial secrets of both appendices' connection ID.
fn are_initial(
    rt: &(impl Abort + AllocGlobal),
    version: Version,
    rows: &[Row; 2],
) -> Result<(), Fail> {
    let id = bytes_of(rt, "8394c8f03e515708");
    is_row(rt, &QuicSecret::client_initial(version, &id)?, &rows[0]);
    is_row(rt, &QuicSecret::server_initial(version, &id)?, &rows[1]);
    Ok(())
}

#[test]
fn rfc_9001_a_1(rt: HostRuntime) -> Result<(), Fail> {
    are_initial(&rt, Version::One, &RFC_9001_A_1)
}

#[test]
fn rfc_9369_a_1(rt: HostRuntime) -> Result<(), Fail> {
    are_initial(&rt, Version::Two, &RFC_9369_A_1)
}

/// By python's `hmac`: the connection ID of no bytes, and of 20, whose byte i is i.
#[test]
fn connection_ids(rt: HostRuntime) -> Result<(), Fail> {
    let id = bytes_of(&rt, "000102030405060708090a0b0c0d0e0f10111213");
    same(
        &rt,
        QuicSecret::client_initial(Version::One, b"")?.as_slice(),
        "594cb3b06a53f6d6e1c3af415ec6b91a5b97c13c4f38d3008cd4c50c224a8288",
        "of no bytes",
    );
    same(
        &rt,
        QuicSecret::server_initial(Version::One, &id)?.as_slice(),
        "a53a124c1b622b0fa517738d49dc215caf01fd3c5731202b39116346a97c37cb",
        "of 20 bytes",
    );
    let refused = Some(DerivationError::ConnectionIdLength);
    equal(
        &rt,
        &QuicSecret::client_initial(Version::One, &[0; 21]).err(),
        &refused,
    );
    equal(
        &rt,
        &QuicSecret::server_initial(Version::Two, &[0; 21]).err(),
        &refused,
    );
    Ok(())
}

/// The IV and the secret after a key update of one secret, in hex.
struct Update {
    version: Version,
    iv: &'static str,
    next: &'static str,
}

/// `quic iv` and `quic ku` of RFC 9001 A.5, and `quicv2 iv` and `quicv2 ku` of RFC 9369 A.5, both of one secret.
const UPDATES: [Update; 2] = [
    Update {
        version: Version::One,
        iv: "e0459b3474bdd0e44a41c144",
        next: "1223504755036d556342ee9361d253421a826c9ecdf3c7148684b36b714881f9",
    },
    Update {
        version: Version::Two,
        iv: "a6b5bc6ab7dafce30ffff5dd",
        next: "c69374c49e3d2a9466fa689e49d476db5d0dfbc87d32ceeaa6343fd0ae4c7d88",
    },
];

/// Asserts the IV and the secret after a key update of a secret.
fn is_update(rt: &(impl Abort + AllocGlobal), secret: &QuicSecret, row: &Update) {
    same(rt, &secret.keys().iv, row.iv, "the IV");
    same(rt, secret.next().as_slice(), row.next, "the next secret");
}

#[test]
fn updates(rt: HostRuntime) {
    let bytes = [
        0x9a, 0xc3, 0x12, 0xa7, 0xf8, 0x77, 0x46, 0x8e, 0xbe, 0x69, 0x42, 0x27, 0x48, 0xad, 0x00,
        0xa1, 0x54, 0x43, 0xf1, 0x82, 0x03, 0xa0, 0x7d, 0x60, 0x60, 0xf6, 0x88, 0xf3, 0x0f, 0x21,
        0x63, 0x2b,
    ];
    for row in &UPDATES {
        let secret = QuicSecret::new(row.version, Secret::aes_128_gcm(bytes));
        is_update(&rt, &secret, row);
    }
}

/// By python's `hmac`: a secret of 48 bytes, whose byte i is i, in each version.
const BY_SHA_384: [(Version, Row); 2] = [
    (
        Version::One,
        Row {
            name: "version 1",
            secret: "000102030405060708090a0b0c0d0e0f101112131415161718191a1b1c1d1e1f202122232425262728292a2b2c2d2e2f",
            key: "95c517eea81b6469ff8f27a065fd04c1a27b3023591b93e273a9df5f921d1f68",
            iv: "a8d8316bf5bb0bbfa74cbf17",
            header_key: "307135de335efef95873468a03d3dfa1e38050df7cc6ab7f22fd7aced73b66e5",
            next: Some(
                "d21f524277390ba96b86484d9c687f850f1e4d1f997033bba06051129179a762a94067d065f3f715e83d65a7bf8c79b9",
            ),
        },
    ),
    (
        Version::Two,
        Row {
            name: "version 2",
            secret: "000102030405060708090a0b0c0d0e0f101112131415161718191a1b1c1d1e1f202122232425262728292a2b2c2d2e2f",
            key: "14e4a47ecdc8b1251dc9b79bc1a7e2d1ca02ed74bb2681f2ed84b86917dfa814",
            iv: "ae59bef75ac7aeb9ab58ef0f",
            header_key: "d2b9adbe4cceb2b521e5f06c660c6619a99b5fad02c1e5af86b56e8e0190ec91",
            next: Some(
                "5d745f2979be4db8e0cee23c76e261c7dd642f4181be807cef5b222c3d249eea8aef3941a4bb072775e4cf0bf1eae44c",
            ),
        },
    ),
];

#[test]
fn keys_by_sha_384(rt: HostRuntime) {
    let mut bytes = [0; 48];
    for i in 0..48 {
        bytes[i] = i as u8;
    }
    for (version, row) in &BY_SHA_384 {
        is_row(
            &rt,
            &QuicSecret::new(*version, Secret::aes_256_gcm(bytes)),
            row,
        );
    }
}

/// The numbers of the versions (RFC 9000 section 15, RFC 9369 section 3.1), and others.
#[test]
fn version_numbers(rt: HostRuntime) {
    for (number, version) in [
        (0, None),
        (1, Some(Version::One)),
        (2, None),
        (0x6b3343cf, Some(Version::Two)),
        (0xff00001d, None),
    ] {
        equal(&rt, &Version::from_number(number), &version);
        if let Some(version) = version {
            equal(&rt, &version.number(), &number);
        }
    }
}

#[test]
fn no_byte_is_printed(rt: HostRuntime) {
    let secret = QuicSecret::new(Version::One, Secret::aes_128_gcm([7; 32]));
    prints(&rt, &secret, "QuicSecret { .. }");
    let keys = secret.keys();
    prints(&rt, &keys, "QuicKeys { .. }");
    prints(&rt, &keys.header_key, "HeaderKeyBytes { .. }");
    prints(&rt, &secret.packet_keys(), "PacketKeys { .. }");
}
