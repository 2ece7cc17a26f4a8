//! PBKDF2 beside python's `hashlib.pbkdf2_hmac`.

use crate::tests::checks::{equal, same};
use key_derivation::DerivationError;
use key_derivation::pbkdf2::pbkdf2;
use sha2::{Sha256, Sha384};
use std::test::Fail;

/// The first 100 bytes of the key of the password `password` and the salt `salt`, by the count of iterations, in hex.
const SHA_256: [(u32, &str); 3] = [
    (
        1,
        "120fb6cffcf8b32c43e7225256c4f837a86548c92ccc35480805987cb70be17b4dbf3a2f3dad3377264bb7b8e8330d4efc7451418617dabef683735361cdc18c22cd7fe60fa40e91c65849e1f60c0d8b62a7b2dbd0d3dfd75fb8498a5c2131ab02b66de5",
    ),
    (
        2,
        "ae4d0c95af6b46d32d0adff928f06dd02a303f8ef3c251dfd6e2d85a95474c43830651afcb5c862f0b249bd031f7a67520d136470f5ec271ece91c07773253d93e676b079cae1219a000f8b4b1a0a3ba5ea65902f57c39e37264af9e6ce4a282b44cd732",
    ),
    (
        1000,
        "632c2812e46d4604102ba7618e9d6d7d2f8128f6266b4a03264d2a0460b7dcb388b3b1131f741bcbeb02541c8c2e97bd8bed62ab6425542e45512b7312f440ebc6e21f4356a5edf32cf0394e0d5be940e0e930cfe21e38a3ff94e28d26c23fac7701ac92",
    ),
];

const SHA_384_2: &str =
    "54f775c6d790f21930459162fc535dbf04a939185127016a04176a0730c6f1f4fb48832ad1261baadd2cedd50814b1c806ad1bbf43ebdc9d047904bf7ceafe1ebeeba01a91d12a600a7606046edeaaae8d02e87146e3fc7f2fda3596dbbe6112ad599912";

/// Fills `out` with the key of the password `password` and the salt `salt`.
fn derive(count: u32, out: &mut [u8]) -> Result<(), DerivationError> {
    pbkdf2::<Sha256>(b"password", b"salt", count, out)
}

#[test]
fn keys(rt: HostRuntime) {
    for (count, wanted) in &SHA_256 {
        for len in [1, 32, 33, 64, 100] {
            let mut out = [0; 100];
            equal(&rt, &derive(*count, &mut out[..len]), &Ok(()));
            let (wanted, _) = wanted.split_at_checked(2 * len).expect(&rt, "a long row");
            same(&rt, &out[..len], wanted, "the key");
        }
    }
}

#[test]
fn key_by_sha_384(rt: HostRuntime) -> Result<(), Fail> {
    let mut out = [0; 100];
    pbkdf2::<Sha384>(b"password", b"salt", 2, &mut out)?;
    same(&rt, &out, SHA_384_2, "the key");
    Ok(())
}

#[test]
fn no_iterations(rt: HostRuntime) {
    let mut out = [7; 2];
    let derived = pbkdf2::<Sha256>(b"password", b"salt", 0, &mut out);
    equal(&rt, &derived, &Err(DerivationError::NoIterations));
    equal(&rt, &out, &[7; 2]);
}
