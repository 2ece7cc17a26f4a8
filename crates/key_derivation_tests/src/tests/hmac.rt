//! HMAC by the vectors of RFC 4231, and at many lengths beside python's `hmac`.

use crate::tests::checks::{bytes_of, equal, same};
use crate::tests::rfc_4231::{ROWS, Row};
use key_derivation::hmac::{HmacKey, hmac};
use sha2::{Digest, Sha256, Sha384};
use std::process::Abort;

/// The SHA-256 of the HMACs, one after the other, of the texts of 0 to 200 bytes under a key of so many bytes, in hex. Byte i of
/// the key is 7 i + 1, and of the texts 7 i + 2, modulo 256. By python's `hmac` and `hashlib`.
struct Digests {
    key_len: usize,
    sha256: &'static str,
    sha384: &'static str,
}

const DIGESTS: [Digests; 7] = [
    Digests {
        key_len: 0,
        sha256: "0eda3d23902faf0abbc1fa3f3325db2fd0d4d68a065bf8bca3f1714b5192d28b",
        sha384: "cefd68b22bbccacc2568c7017e126e817f7495a363748494e0f0fb9436f2c92e",
    },
    Digests {
        key_len: 63,
        sha256: "f8a7176b943c45ae8b4374f3f7dd02fd159059bbf71c1dd74b10614b153921b5",
        sha384: "f755c26e509c0070141965a30138a8438612fc31daa9430b108048b544c2dfc5",
    },
    Digests {
        key_len: 64,
        sha256: "7aca51eadafbf678e8cce1160d7ee896c833fe32d04162874eca66c2659e5a78",
        sha384: "43b980ac17c6f5b8d1ac8ff45ad09422efbf6bc72b0a9e02157f5a5983d423a8",
    },
    Digests {
        key_len: 65,
        sha256: "3942300aef13bee46852f16997ed905a8173000033fd722ac5c13ac66375efa4",
        sha384: "f1617750f18dc6d5682bf23ea49fdd80fe09c4e61f2126a19982b43d41b7af52",
    },
    Digests {
        key_len: 127,
        sha256: "51e1668e84100fc559bed84a7ab99880923fa820a798762622ef30ef376b846b",
        sha384: "bd87346361464b898e10d67f5ed1314ea3f03983f7b537a35c1bdf06dbe301d4",
    },
    Digests {
        key_len: 128,
        sha256: "f4a7112bc56f63f98ab717189c10867f61f689e9b9ed908caf8f9806e819909c",
        sha384: "29ae9fb1376d602f077c25c866f0aa904053272a88bc511bb1228889958b0a07",
    },
    Digests {
        key_len: 129,
        sha256: "d829e7eec3a1dbce85b8c075b952e0cf6d11f657525d232f8e03cd824e0f646d",
        sha384: "2b31741fccdb43e35d85154434c7c46caf2542e62f93994e59fb55336b93e53b",
    },
];

/// The first bytes of an HMAC, as many as a row has digits for.
pub(crate) fn cut<'a>(code: &'a [u8], wanted: &str) -> &'a [u8] {
    &code[..usize::min(wanted.len() / 2, code.len())]
}

/// Asserts the HMACs of a row under both hash functions.
fn has_codes(rt: &(impl Abort + AllocGlobal), row: &Row) {
    let key = bytes_of(rt, row.key);
    let text = bytes_of(rt, row.text);
    let code = hmac::<Sha256>(&key, &text);
    same(rt, cut(&code, row.sha256), row.sha256, row.name);
    let code = hmac::<Sha384>(&key, &text);
    same(rt, cut(&code, row.sha384), row.sha384, row.name);
}

#[test]
fn rfc_4231(rt: HostRuntime) {
    for row in &ROWS {
        has_codes(&rt, row);
    }
}

/// 200 bytes, of which byte i is 7 i + `start`, modulo 256.
fn bytes_from(start: u8) -> [u8; 200] {
    let mut bytes = [0; 200];
    for i in 0..200 {
        bytes[i] = (i as u8).wrapping_mul(7).wrapping_add(start);
    }
    bytes
}

/// The digests of a row of `DIGESTS`.
fn digests_of_lengths(key_len: usize) -> ([u8; 32], [u8; 32]) {
    let key = bytes_from(1);
    let key = &key[..usize::min(key_len, 200)];
    let text = bytes_from(2);
    let mut sha256 = Sha256::new();
    let mut sha384 = Sha256::new();
    for len in 0..201 {
        sha256.update(hmac::<Sha256>(key, &text[..len]));
        sha384.update(hmac::<Sha384>(key, &text[..len]));
    }
    (sha256.finalize(), sha384.finalize())
}

#[test]
fn lengths(rt: HostRuntime) {
    for row in &DIGESTS {
        let (sha256, sha384) = digests_of_lengths(row.key_len);
        same(&rt, &sha256, row.sha256, "SHA-256");
        same(&rt, &sha384, row.sha384, "SHA-384");
    }
}

/// The HMAC of a text in two pieces, cut after `at` bytes.
fn of_pieces(key: &HmacKey<Sha256>, text: &[u8], at: usize) -> [u8; 32] {
    let at = usize::min(at, text.len());
    let mut hasher = key.start();
    hasher.update(&text[..at]);
    hasher.update(&text[at..]);
    key.finish(hasher)
}

/// Whether a key takes `code` for that of a text.
fn verifies(key: &HmacKey<Sha256>, text: &[u8], code: &[u8]) -> bool {
    let mut hasher = key.start();
    hasher.update(text);
    key.verify(hasher, code)
}

/// RFC 4231 section 4.3: its code, the code with a bit changed in each of its bytes, and codes of other lengths.
#[test]
fn verified(rt: HostRuntime) {
    let key = HmacKey::<Sha256>::new(b"Jefe");
    let text = b"what do ya want for nothing?";
    let code = bytes_of(&rt, ROWS[1].sha256);
    equal(&rt, &verifies(&key, text, &code), &true);
    equal(&rt, &verifies(&key, b"what", &code), &false);
    for i in 0..code.len() {
        let mut changed = bytes_of(&rt, ROWS[1].sha256);
        if let Some(byte) = changed.get_mut(i) {
            *byte ^= 1;
        }
        equal(&rt, &verifies(&key, text, &changed), &false);
        equal(&rt, &verifies(&key, text, &code[..i]), &false);
    }
    equal(&rt, &verifies(&key, text, &[0; 33]), &false);
}

/// RFC 4231 section 4.3, under one key that is kept, in pieces.
#[test]
fn kept_key(rt: HostRuntime) {
    let key = HmacKey::<Sha256>::new(b"Jefe");
    for at in 0..28 {
        let code = of_pieces(&key, b"what do ya want for nothing?", at);
        same(&rt, &code, ROWS[1].sha256, "in pieces");
    }
}
