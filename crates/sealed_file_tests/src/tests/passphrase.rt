//! Files that are sealed under a passphrase, as `tools/open-sealed-file --passphrase` makes them.

ghost use Rattle.std.specs.Prelude.{◌≤◌, length};

use crate::tests::checks::{displays, equal, holds, same};
use crate::tests::sealed_files::{ANOTHER_KEY, ENDS_EARLY, FIRST_REFUSED, KEY, RANDOM, file_of};
use md5::{Digest, Md5};
use sealed_file::{
    CHUNK_LEN, FileKey, FileRandom, iterations_in, open, open_with_passphrase, seal_bytes,
    seal_with_passphrase,
};
use std::process::Abort;
use std::test::Fail;

const PASSPHRASE: &[u8] = b"correct horse";

/// The file `hello`, sealed under `PASSPHRASE` and `RANDOM` with 3 iterations by python's `hashlib` and `cryptography`.
const HELLO: &[u8] =
    b"SEALFILE\x03\x01\x02\x03\x04\x05\x06\x07\x08\x09\x0a\x0b\x0c\x0d\x0e\x0f\x10\x11\x12\x13\
    \x1c\x86\x6f\x78\x48\xc4\xf0\x90\xd8\x87\x9b\x66\xb8\xd7\xf1\xe3\
    \x63\x67\xdb\x57\xc9\xb6\x2f\x74\xae\x99\x66\x33\x9b\xb7\x59\x07\
    \x00\x00\x00\x03\
    \x9e\x60\xdf\xb3\x29\x5f\x02\x4c\x98\x8f\x38\x63\x52\xcb\x5f\x96\x24\x05\x3b\x3e\x11";

/// The ciphertext and the tag of the same with the AAD `name`.
const BOUND: &[u8] =
    b"\x9e\x60\xdf\xb3\x29\x6b\x7a\x03\x7e\xf8\x5b\xb7\xc2\x2a\x9c\xfa\xe5\x13\x4d\xd9\xbb";

/// The MD5 of the test file of `CHUNK_LEN + 5` bytes, sealed with 2 iterations.
const TWO_CHUNKS: [u8; 16] = *b"\xc8\x6c\xd1\x26\x66\x5a\xc1\x12\x93\x37\xdb\x46\xc4\x3b\xf6\xe1";

/// Opening a sealed file with this passphrase and this AAD ends with this message. If it opens, it is `hello`.
fn opens(
    rt: &(impl Abort + AllocGlobal),
    sealed: &[u8],
    secret: (&[u8], &[u8]),
    text: &str,
) -> Result<(), Fail>
    requires { length secret.1.now ≤ 4096 }
{
    let (passphrase, aad) = secret;
    let mut opened = Vec::new(rt.alloc());
    let mut input = sealed;
    match open_with_passphrase(rt.alloc(), passphrase, aad, &mut input, &mut opened) {
        Ok(()) => {
            equal(rt, text, "opened", text);
            same(rt, &opened, b"hello", text);
        }
        Err(error) => {
            displays(rt, &error, text)?;
            holds(rt, opened.is_empty(), text);
        }
    }
    Ok(())
}

/// A byte of `HELLO` that is another, and the message.
const CHANGED: [(usize, u8, &str); 11] = [
    (7, b'F', "not a sealed file"),
    (8, 2, "a sealed file of version 2, which a key opens"),
    (8, 1, "a sealed file of version 1, which is neither 2 nor 3"),
    (9, 0, ANOTHER_KEY),
    (27, 0, ANOTHER_KEY),
    (59, 0, ANOTHER_KEY),
    (
        60,
        255,
        "the header says 4278190083 iterations, which must be from 1 to 10000000",
    ),
    (
        61,
        255,
        "the header says 16711683 iterations, which must be from 1 to 10000000",
    ),
    (
        63,
        0,
        "the header says 0 iterations, which must be from 1 to 10000000",
    ),
    (63, 4, ANOTHER_KEY),
    (84, 0, FIRST_REFUSED),
];

#[test]
fn changed_headers(rt: HostRuntime) -> Result<(), Fail> {
    for (at, byte, text) in &CHANGED {
        let mut file = HELLO.to_vec(rt.alloc())?;
        let place = file.get_mut(*at).ok_or("a place")?;
        *place = *byte;
        opens(&rt, &file, (PASSPHRASE, b""), text)?;
    }
    Ok(())
}

const CUT: [(usize, &str); 8] = [
    (0, ENDS_EARLY),
    (9, ENDS_EARLY),
    (60, ENDS_EARLY),
    (63, ENDS_EARLY),
    (64, ENDS_EARLY),
    (79, ENDS_EARLY),
    (80, FIRST_REFUSED),
    (84, FIRST_REFUSED),
];

#[test]
fn cut_files(rt: HostRuntime) -> Result<(), Fail> {
    for (len, text) in &CUT {
        let cut = HELLO.get(..*len).ok_or("a part")?;
        opens(&rt, cut, (PASSPHRASE, b""), text)?;
    }
    Ok(())
}

const NAME: &[u8] = b"name";

#[test]
fn one_passphrase_and_one_aad(rt: HostRuntime) -> Result<(), Fail> {
    let mut bound = HELLO.get(..64).ok_or("a header")?.to_vec(rt.alloc())?;
    bound.extend_from_slice(BOUND)?;
    opens(&rt, HELLO, (PASSPHRASE, b""), "opened")?;
    opens(&rt, HELLO, (b"correct horsf", b""), ANOTHER_KEY)?;
    opens(&rt, HELLO, (b"correct horse\n", b""), ANOTHER_KEY)?;
    opens(&rt, HELLO, (PASSPHRASE, NAME), FIRST_REFUSED)?;
    opens(&rt, &bound, (PASSPHRASE, NAME), "opened")?;
    opens(&rt, &bound, (PASSPHRASE, b""), FIRST_REFUSED)?;
    assert_eq!(rt; iterations_in(HELLO)?, 3);
    Ok(())
}

#[test]
fn sealed_by_another_program(rt: HostRuntime) -> Result<(), Fail> {
    let mut sealed = Vec::new(rt.alloc());
    let random = FileRandom::from_bytes_for_tests(RANDOM);
    let mut hello = b"hello".as_slice();
    seal_with_passphrase(
        rt.alloc(),
        PASSPHRASE,
        3,
        random,
        NAME,
        &mut hello,
        &mut sealed,
    )?;
    same(&rt, sealed.get(64..).ok_or("a body")?, BOUND, "bound");
    let file = file_of(rt.alloc(), CHUNK_LEN + 5)?;
    let random = FileRandom::from_bytes_for_tests(RANDOM);
    let mut sealed = Vec::new(rt.alloc());
    let mut input = file.as_slice();
    seal_with_passphrase(
        rt.alloc(),
        PASSPHRASE,
        2,
        random,
        b"",
        &mut input,
        &mut sealed,
    )?;
    same(&rt, &Md5::digest(&sealed), &TWO_CHUNKS, "two chunks");
    let mut opened = Vec::new(rt.alloc());
    let mut input = sealed.as_slice();
    open_with_passphrase(rt.alloc(), PASSPHRASE, b"", &mut input, &mut opened)?;
    same(&rt, &opened, &file, "opened");
    Ok(())
}

#[test]
fn a_key_opens_none(rt: HostRuntime) -> Result<(), Fail> {
    let mut opened = Vec::new(rt.alloc());
    let mut input = HELLO;
    let text = "a sealed file of version 3, which a passphrase opens";
    match open(rt.alloc(), &FileKey::new(&KEY)?, &mut input, &mut opened) {
        Ok(()) => holds(&rt, false, text),
        Err(error) => displays(&rt, &error, text)?,
    }
    holds(&rt, opened.is_empty(), "a key");
    let mut sealed = Vec::new(rt.alloc());
    let random = FileRandom::from_bytes_for_tests(RANDOM);
    seal_bytes(&FileKey::new(&KEY)?, random, b"hello", &mut sealed)?;
    opens(
        &rt,
        &sealed,
        (&KEY, b""),
        "a sealed file of version 2, which a key opens",
    )
}
