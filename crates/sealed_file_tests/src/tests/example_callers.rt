//! Tests of `examples` with a file that another program sealed.

use crate::tests::checks::{equal, same};
use crate::tests::examples::sealed_files;
use sealed_file::{FileKey, FileRandom};
use std::io::Cursor;
use std::test::Fail;

/// The sealed file of the byte `a` under a key of bytes 7, with random bytes 1, by python's `cryptography`.
const SEALED: [u8; 77] =
    *b"SEALFILE\x02\x01\x01\x01\x01\x01\x01\x01\x01\x01\x01\x01\x01\x01\x01\x01\x01\x01\x01\x01\
    \x3a\xc5\x04\x8d\x5c\x00\xf0\x55\x03\x63\x58\x2b\xaf\x61\xfb\xe8\x3c\xf4\xf4\x87\x0c\x46\x1b\x59\x28\
    \x75\x6a\xda\xe7\x3d\xf6\x22\x85\x95\x7c\x7b\xf0\xda\x74\xa6\xc0\x38\x9c\x0b\xa2\x6c\xea\x66\x30";

#[test]
fn sealed_file_of_one_byte(rt: HostRuntime) -> Result<(), Fail> {
    let key = FileKey::new(&[7; 32])?;
    let random = FileRandom::from_bytes_for_tests([1; 19]);
    let mut sealed = Vec::new(rt.alloc());
    sealed_files::seal(&key, random, b"a", &mut sealed)?;
    same(&rt, &sealed, &SEALED, "sealed");
    let mut opened = Vec::new(rt.alloc());
    sealed_files::open(&key, &sealed, &mut opened)?;
    same(&rt, &opened, b"a", "opened");
    let mut buf = [0; 2];
    let input = Cursor::new(sealed.as_slice());
    let count = sealed_files::read_part(rt.alloc(), &key, input, 0, 0, &mut buf)?;
    equal(&rt, count, 1, "a byte is read");
    same(&rt, &buf, b"a\0", "the byte");
    Ok(())
}
