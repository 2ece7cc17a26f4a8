//! HKDF by the vectors of RFC 5869, the key schedule of RFC 8448, and limits.

use crate::tests::checks::{bytes_of, equal, same};
use crate::tests::hmac::cut;
use key_derivation::DerivationError;
use key_derivation::hash::Hash;
use key_derivation::hkdf::{Expander, derive_secret, expand, expand_label, extract};
use sha2::{Digest, Sha256, Sha384};
use std::process::Abort;
use std::test::Fail;

/// A test case of RFC 5869, in hex.
struct Row {
    name: &'static str,
    ikm: &'static str,
    salt: &'static str,
    info: &'static str,
    prk: &'static str,
    okm: &'static str,
}

const RFC_5869: [Row; 3] = [
    Row {
        name: "A.1",
        ikm: "0b0b0b0b0b0b0b0b0b0b0b0b0b0b0b0b0b0b0b0b0b0b",
        salt: "000102030405060708090a0b0c",
        info: "f0f1f2f3f4f5f6f7f8f9",
        prk: "077709362c2e32df0ddc3f0dc47bba6390b6c73bb50f9c3122ec844ad7c2b3e5",
        okm: "3cb25f25faacd57a90434f64d0362f2a2d2d0a90cf1a5a4c5db02d56ecc4c5bf34007208d5b887185865",
    },
    Row {
        name: "A.2",
        ikm: "000102030405060708090a0b0c0d0e0f101112131415161718191a1b1c1d1e1f202122232425262728292a2b2c2d2e2f303132333435363738393a3b3c3d3e3f404142434445464748494a4b4c4d4e4f",
        salt: "606162636465666768696a6b6c6d6e6f707172737475767778797a7b7c7d7e7f808182838485868788898a8b8c8d8e8f909192939495969798999a9b9c9d9e9fa0a1a2a3a4a5a6a7a8a9aaabacadaeaf",
        info: "b0b1b2b3b4b5b6b7b8b9babbbcbdbebfc0c1c2c3c4c5c6c7c8c9cacbcccdcecfd0d1d2d3d4d5d6d7d8d9dadbdcdddedfe0e1e2e3e4e5e6e7e8e9eaebecedeeeff0f1f2f3f4f5f6f7f8f9fafbfcfdfeff",
        prk: "06a6b88c5853361a06104c9ceb35b45cef760014904671014a193f40c15fc244",
        okm: "b11e398dc80327a1c8e7f78c596a49344f012eda2d4efad8a050cc4c19afa97c59045a99cac7827271cb41c65e590e09da3275600c2f09b8367793a9aca3db71cc30c58179ec3e87c14c01d5c1f3434f1d87",
    },
    Row {
        name: "A.3",
        ikm: "0b0b0b0b0b0b0b0b0b0b0b0b0b0b0b0b0b0b0b0b0b0b",
        salt: "",
        info: "",
        prk: "19ef24a32c717b167f33a91d6f648bdf96596776afdb6377ac434c1c293ccb04",
        okm: "8da4e775a563c18f715f802a063c5a31b8a11f5c5ee1879ec3454e5f3c738d2d9d201395faa4b61a96c8",
    },
];

/// The output keying material of so many bytes, at most 82.
fn okm_of(prk: &[u8], info: &[u8], len: usize) -> Result<[u8; 82], DerivationError> {
    let mut okm = [0; 82];
    expand::<Sha256>(prk, info, &mut okm[..usize::min(len, 82)])?;
    Ok(okm)
}

#[test]
fn rfc_5869(rt: HostRuntime) -> Result<(), Fail> {
    for row in &RFC_5869 {
        let prk = extract::<Sha256>(&bytes_of(&rt, row.salt), &bytes_of(&rt, row.ikm));
        same(&rt, &prk, row.prk, row.name);
        let okm = okm_of(&prk, &bytes_of(&rt, row.info), row.okm.len() / 2)?;
        same(&rt, cut(&okm, row.okm), row.okm, row.name);
    }
    Ok(())
}

/// The output keying material of a kept key, of so many bytes, at most 82, from an info in two pieces that is cut after `at`.
fn okm_of_pieces(
    from: &Expander<Sha256>,
    info: &[u8],
    at: usize,
    len: usize,
) -> Result<[u8; 82], DerivationError> {
    let (front, rest) = info.split_at(usize::min(at, info.len()));
    let mut okm = [0; 82];
    from.expand(&[front, rest], &mut okm[..usize::min(len, 82)])?;
    Ok(okm)
}

/// Asserts the outputs of a row from one key that is kept, and the output that is as long as a digest.
fn has_outputs(rt: &(impl Abort + AllocGlobal), row: &Row) -> Result<(), Fail> {
    let from = Expander::<Sha256>::new(&bytes_of(rt, row.prk));
    let info = bytes_of(rt, row.info);
    for at in [0, 1, 5, info.len()] {
        let okm = okm_of_pieces(&from, &info, at, row.okm.len() / 2)?;
        same(rt, cut(&okm, row.okm), row.okm, row.name);
    }
    let block = from.expand_block(&[&info]);
    equal(rt, &bytes_of(rt, row.okm).starts_with(&block), &true);
    Ok(())
}

#[test]
fn kept_key(rt: HostRuntime) -> Result<(), Fail> {
    for row in &RFC_5869 {
        has_outputs(&rt, row)?;
    }
    Ok(())
}

/// The secret that a label gives, over SHA-256.
fn derived(secret: &[u8], label: &[u8], messages: &[u8]) -> Result<[u8; 32], DerivationError> {
    derive_secret::<Sha256>(secret, label, messages)
}

/// The secrets of RFC 8448 section 3, each derived from the one before it.
#[test]
fn rfc_8448(rt: HostRuntime) -> Result<(), Fail> {
    let no_messages = Sha256::digest(b"");
    let early = extract::<Sha256>(&[0; 32], &[0; 32]);
    same(
        &rt,
        &early,
        "33ad0a1c607ec03b09e6cd9893680ce210adf300aa1f2660e1b22e10f170f92a",
        "the early secret",
    );
    let salt = derived(&early, b"derived", &no_messages)?;
    let shared = bytes_of(
        &rt,
        "8bd4054fb55b9d63fdfbacf9f04b9f0d35e6d63f537563efd46272900f89492d",
    );
    let handshake = extract::<Sha256>(&salt, &shared);
    same(
        &rt,
        &handshake,
        "1dc826e93606aa6fdc0aadc12f741b01046aa6b99f691ed221a9f0ca043fbeac",
        "the handshake secret",
    );
    let salt = derived(&handshake, b"derived", &no_messages)?;
    same(
        &rt,
        &extract::<Sha256>(&salt, &[0; 32]),
        "18df06843d13a08bf2a449844c5f8a478001bc4d4c627984d5a41da8d0402919",
        "the master secret",
    );
    Ok(())
}

/// The traffic secrets and the exporter master secret of RFC 8448 section 3: the secret that each is derived from, its label, the
/// hash of the messages, and the result, in hex.
const TRAFFIC: [(&str, &str, &str, &str); 5] = [
    (
        "1dc826e93606aa6fdc0aadc12f741b01046aa6b99f691ed221a9f0ca043fbeac",
        "c hs traffic",
        "860c06edc07858ee8e78f0e7428c58edd6b43f2ca3e6e95f02ed063cf0e1cad8",
        "b3eddb126e067f35a780b3abf45e2d8f3b1a950738f52e9600746a0e27a55a21",
    ),
    (
        "1dc826e93606aa6fdc0aadc12f741b01046aa6b99f691ed221a9f0ca043fbeac",
        "s hs traffic",
        "860c06edc07858ee8e78f0e7428c58edd6b43f2ca3e6e95f02ed063cf0e1cad8",
        "b67b7d690cc16c4e75e54213cb2d37b4e9c912bcded9105d42befd59d391ad38",
    ),
    (
        "18df06843d13a08bf2a449844c5f8a478001bc4d4c627984d5a41da8d0402919",
        "c ap traffic",
        "9608102a0f1ccc6db6250b7b7e417b1a000eaada3daae4777a7686c9ff83df13",
        "9e40646ce79a7f9dc05af8889bce6552875afa0b06df0087f792ebb7c17504a5",
    ),
    (
        "18df06843d13a08bf2a449844c5f8a478001bc4d4c627984d5a41da8d0402919",
        "s ap traffic",
        "9608102a0f1ccc6db6250b7b7e417b1a000eaada3daae4777a7686c9ff83df13",
        "a11af9f05531f856ad47116b45a950328204b4f44bfb6b3a4b4f1f3fcb631643",
    ),
    (
        "18df06843d13a08bf2a449844c5f8a478001bc4d4c627984d5a41da8d0402919",
        "exp master",
        "9608102a0f1ccc6db6250b7b7e417b1a000eaada3daae4777a7686c9ff83df13",
        "fe22f881176eda18eb8f44529e6792c50c9a3f89452f68d8ae311b4309d3cf50",
    ),
];

#[test]
fn rfc_8448_traffic(rt: HostRuntime) -> Result<(), Fail> {
    for (secret, label, messages, wanted) in &TRAFFIC {
        let (secret, messages) = (bytes_of(&rt, secret), bytes_of(&rt, messages));
        let found = derived(&secret, label.as_bytes(), &messages)?;
        same(&rt, &found, wanted, label);
    }
    Ok(())
}

/// By python's `hmac`: `derived` of no messages, from a secret whose byte i is i.
#[test]
fn derive_secret_by_sha_384(rt: HostRuntime) -> Result<(), Fail> {
    let mut secret = [0; 48];
    for i in 0..48 {
        secret[i] = i as u8;
    }
    let derived = derive_secret::<Sha384>(&secret, b"derived", &Sha384::digest(b""))?;
    same(
        &rt,
        &derived,
        "85672c80162b3076b4a14618cbbf66e53d55d61cdb683aba9f7c48d5b65a6a3b1c9d6c2638eed961d9f80878eca9fb56",
        "the secret",
    );
    Ok(())
}

/// The SHA-256 of an output of so many bytes.
fn digest_of_output<H: Hash>(len: usize) -> Result<[u8; 32], DerivationError> {
    let mut out = [0; 12241];
    let out = &mut out[..usize::min(len, 12241)];
    expand::<H>(b"prk", b"info", out)?;
    Ok(Sha256::digest(out))
}

/// By python's `hmac`: the longest outputs.
#[test]
fn longest_outputs(rt: HostRuntime) -> Result<(), Fail> {
    same(
        &rt,
        &digest_of_output::<Sha256>(8160)?,
        "cdbd0062e571637170aa4931c64fbe7f22f262c6ec21d36f42a9175ad1797681",
        "8160 bytes",
    );
    same(
        &rt,
        &digest_of_output::<Sha384>(12240)?,
        "ef4e9110aa9e2766dfb9a7b7326076c4c0c747a4635ce3b0daf8f89e448cf50c",
        "12240 bytes",
    );
    let refused = Err(DerivationError::TooLong);
    equal(&rt, &digest_of_output::<Sha256>(8161), &refused);
    equal(&rt, &digest_of_output::<Sha384>(12241), &refused);
    Ok(())
}

/// By python's `hmac`: the SHA-256 of the outputs of 0 to 100 bytes, one after the other.
#[test]
fn output_lengths(rt: HostRuntime) -> Result<(), Fail> {
    let mut digest = Sha256::new();
    for len in 0..101 {
        let mut out = [0; 100];
        expand::<Sha384>(b"prk", b"info", &mut out[..len])?;
        digest.update(&out[..len]);
    }
    same(
        &rt,
        &digest.finalize(),
        "32e69dd249b1158ddd8cb190654812f21b0660ada0b95c907c19071de502c040",
        "0 to 100 bytes",
    );
    Ok(())
}

/// By python's `hmac`: the longest label and the longest context.
#[test]
fn longest_label(rt: HostRuntime) -> Result<(), Fail> {
    let mut out = [0; 20];
    expand_label::<Sha384>(b"secret", &[1; 249], &[2; 255], &mut out)?;
    same(
        &rt,
        &out,
        "f8f9c2b03db94d073165f6f0d5d0d6a2fe8b4c7a",
        "the output",
    );
    Ok(())
}

/// Asserts that a label with a context and a length of the output is refused.
fn refuses(rt: &impl Abort, label: &[u8], context: &[u8], out: &mut [u8], error: DerivationError) {
    let expanded = expand_label::<Sha256>(b"secret", label, context, out);
    equal(rt, &expanded, &Err(error));
}

#[test]
fn refusals(rt: HostRuntime) {
    let mut out = [0; 8161];
    refuses(&rt, b"", &[2; 256], &mut out, DerivationError::LabelLength);
    refuses(&rt, &[1; 250], b"", &mut [], DerivationError::LabelLength);
    refuses(
        &rt,
        &[1; 249],
        &[2; 256],
        &mut out,
        DerivationError::ContextLength,
    );
    refuses(
        &rt,
        &[1; 249],
        &[2; 255],
        &mut out,
        DerivationError::TooLong,
    );
    let derived = derive_secret::<Sha256>(b"secret", &[1; 250], &[2; 33]);
    equal(&rt, &derived, &Err(DerivationError::LabelLength));
    let derived = derive_secret::<Sha256>(b"secret", b"derived", &[2; 48]);
    equal(&rt, &derived, &Err(DerivationError::TranscriptHashLength));
}
