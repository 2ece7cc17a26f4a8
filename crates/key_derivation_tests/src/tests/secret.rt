//! The keys of records of secrets: RFC 8448 section 3, and a connection of OpenSSL.

use crate::tests::checks::{bytes_of, equal, prints, same};
use key_derivation::{DerivationError, Secret, Suite};
use std::process::Abort;
use std::test::Fail;

/// A traffic secret, its record key and IV, and the traffic secret after a KeyUpdate, in hex.
struct Traffic {
    name: &'static str,
    suite: Suite,
    secret: &'static str,
    key: &'static str,
    iv: &'static str,
    next: Option<&'static str>,
}

/// RFC 8448 section 3, which has no KeyUpdate.
const RFC_8448: [Traffic; 4] = [
    Traffic {
        name: "client, handshake",
        suite: Suite::Aes128Gcm,
        secret: "b3eddb126e067f35a780b3abf45e2d8f3b1a950738f52e9600746a0e27a55a21",
        key: "dbfaa693d1762c5b666af5d950258d01",
        iv: "5bd3c71b836e0b76bb73265f",
        next: None,
    },
    Traffic {
        name: "server, handshake",
        suite: Suite::Aes128Gcm,
        secret: "b67b7d690cc16c4e75e54213cb2d37b4e9c912bcded9105d42befd59d391ad38",
        key: "3fce516009c21727d0f2e4e86ee403bc",
        iv: "5d313eb2671276ee13000b30",
        next: None,
    },
    Traffic {
        name: "client, application data",
        suite: Suite::Aes128Gcm,
        secret: "9e40646ce79a7f9dc05af8889bce6552875afa0b06df0087f792ebb7c17504a5",
        key: "17422dda596ed5d9acd890e3c63f5051",
        iv: "5b78923dee08579033e523d9",
        next: None,
    },
    Traffic {
        name: "server, application data",
        suite: Suite::Aes128Gcm,
        secret: "a11af9f05531f856ad47116b45a950328204b4f44bfb6b3a4b4f1f3fcb631643",
        key: "9f02283b6c9c07efc26bb9f2ac92e356",
        iv: "cf782b88dd83549aadf1e984",
        next: None,
    },
];

/// A connection of OpenSSL 3.0.19 under TLS_AES_256_GCM_SHA384, from its keylog file. The keys are by `openssl kdf`, and open the
/// connection's records in python's `cryptography`.
const CAPTURED: [Traffic; 4] = [
    Traffic {
        name: "client, handshake",
        suite: Suite::Aes256Gcm,
        secret: "cd6ead29316a8491e074a6d5d86e53b847a2a85cd060d4812b8d90cf1f9ad39f6efe1f217876e5a0eef2eef639f7967f",
        key: "6443c908cfb1a7e86e280d149c11d5d5bd6b4a14f07f356ad1787b5593fbe4b0",
        iv: "9624447cf308bf699752638e",
        next: None,
    },
    Traffic {
        name: "client, application data",
        suite: Suite::Aes256Gcm,
        secret: "96c79661f36a8a25c75c8cfe81a72ca9275b99e4ac4572abe8c70485ed9cc7bb1ff8741a377c3e90ad0e065751201c94",
        key: "9706aae9e421bcdd4b2b85ee5f35736b2f1a1493c68bafbcf185408a65a1af49",
        iv: "3ba8627e2c9169908c6be0fd",
        next: Some(
            "6aa2fdcaaae846a7e69780c69950ee743afd5c37be7d44aa63eb0c930d82418202ef77c1db2274de43fcebdb74df0fef",
        ),
    },
    Traffic {
        name: "client, after its KeyUpdate",
        suite: Suite::Aes256Gcm,
        secret: "6aa2fdcaaae846a7e69780c69950ee743afd5c37be7d44aa63eb0c930d82418202ef77c1db2274de43fcebdb74df0fef",
        key: "6fce02c414ad1cbf1c8324a13b2358dd592028543dfd5717922636295c0ae448",
        iv: "5046d704971d29a631ed2e3a",
        next: Some(
            "5d8a83a8fe93e27d203abe28d79ec77411f862f8106de0026295af323b2daa5cc6d7b7ad4d49a217308fe3e449426890",
        ),
    },
    Traffic {
        name: "server, application data",
        suite: Suite::Aes256Gcm,
        secret: "00eabd504442dbf20e62a7e3c046be2ad74593d8735dae7183b06834aaafcb39bc2531d5b95939eb98fd3bb2a0b1ca97",
        key: "fb4649dd5a1ad4052a4db7cabecd0082728767ae7218a636260baab038fb7a2f",
        iv: "05f8813ff9a25254b1c989bb",
        next: Some(
            "e5c261327eb972ce00863fd5f11c69260ffc510822457445d3c1984472e86979f58927b67f3742a59e3f565844376e7c",
        ),
    },
];

/// Asserts the record keys of a secret, and the secret after it.
fn has_record_keys(rt: &(impl Abort + AllocGlobal), secret: &Secret, row: &Traffic) {
    let keys = secret.record_keys();
    same(rt, keys.key.as_slice(), row.key, row.name);
    same(rt, &keys.iv, row.iv, row.name);
    if let Some(next) = row.next {
        same(rt, secret.next_traffic().as_slice(), next, row.name);
    }
}

/// Asserts the record keys of the secrets.
fn have_record_keys(rt: &(impl Abort + AllocGlobal), rows: &[Traffic]) -> Result<(), Fail> {
    for row in rows {
        let secret = Secret::new(row.suite, &bytes_of(rt, row.secret))?;
        has_record_keys(rt, &secret, row);
    }
    Ok(())
}

#[test]
fn rfc_8448(rt: HostRuntime) -> Result<(), Fail> {
    have_record_keys(&rt, &RFC_8448)
}

#[test]
fn captured(rt: HostRuntime) -> Result<(), Fail> {
    have_record_keys(&rt, &CAPTURED)
}

#[test]
fn secret_lengths(rt: HostRuntime) {
    let refused = Some(DerivationError::SecretLength);
    equal(
        &rt,
        &Secret::new(Suite::Aes128Gcm, &[0; 48]).err(),
        &refused,
    );
    equal(
        &rt,
        &Secret::new(Suite::Aes256Gcm, &[0; 32]).err(),
        &refused,
    );
    equal(&rt, &Secret::new(Suite::Aes128Gcm, &[0; 32]).err(), &None);
}

#[test]
fn no_byte_is_printed(rt: HostRuntime) {
    let secret = Secret::aes_128_gcm([7; 32]);
    prints(&rt, &secret, "Secret { .. }");
    let keys = secret.record_keys();
    prints(&rt, &keys, "RecordKeys { .. }");
    prints(&rt, &keys.key, "AeadKeyBytes { .. }");
}
