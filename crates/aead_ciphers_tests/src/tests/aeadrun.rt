//! Tests of `aeadrun`: short inputs, each with its own status, and a long line.

use crate::tests::checks::{equal, holds, same};
use aead_ciphers::aeadrun::lines;
use std::alloc::{AllocError, Global};
use std::process::Abort;
use std::test::Fail;

/// Asserts that `lines` prints this output for the input, and returns this status.
fn answers(rt: &impl Abort, alloc: Global, input: &[u8], printed: &[u8], status: u8) {
    let mut rest = input;
    let mut output = Vec::new(alloc);
    equal(rt, lines(alloc, &mut rest, &mut output), status, "a status");
    same(rt, &output, printed, "what is printed");
}

/// Input, what is printed, and the status.
const RUNS: [(&[u8], &[u8], u8); 5] = [
    (b"", b"", 0),
    // Test case 2.
    (
        b"seal 128 00000000000000000000000000000000 000000000000000000000000 - 00000000000000000000000000000000\n",
        b"ok 0388dace60b6a392f328c2b971b2fe78 ab6e47d42cec13bdf53a67b21257bddf\n",
        0,
    ),
    // A key of 16 bytes for AES-256.
    (
        b"seal 256 00000000000000000000000000000000 000000000000000000000000 - -\n",
        b"refused\n",
        0,
    ),
    // Test case 4, sealed once, and opened after four bytes.
    (
        b"keys 128 feffe9928665731c6d6a8f9467308308 cafebabe facedbaddecaf888 1\n\
          next-seal feedfacedeadbeeffeedfacedeadbeefabaddad2 d9313225f88406e5a55909c5aff5269a86a7a9531534f7da2e4c303d8a318a721c3c0c95956809532fcf0e2449a6b525b16aedf5aa0de657ba637b39\n\
          next-seal - -\n\
          next-open feedfacedeadbeeffeedfacedeadbeefabaddad2 4 0000000042831ec2217774244b7221b784d0d49ce3aa212f2c02a4e035c17e2329aca12e21d514b25466931c7d8f6a5aac84aa051ba30b396a0aac973d58e0915bc94fbc3221a5db94fae95ae7121a47\n",
        b"ok\n\
          ok 42831ec2217774244b7221b784d0d49ce3aa212f2c02a4e035c17e2329aca12e21d514b25466931c7d8f6a5aac84aa051ba30b396a0aac973d58e0915bc94fbc3221a5db94fae95ae7121a47\n\
          refused\n\
          ok d9313225f88406e5a55909c5aff5269a86a7a9531534f7da2e4c303d8a318a721c3c0c95956809532fcf0e2449a6b525b16aedf5aa0de657ba637b39 d9313225f88406e5a55909c5aff5269a86a7a9531534f7da2e4c303d8a318a721c3c0c95956809532fcf0e2449a6b525b16aedf5aa0de657ba637b393d58e0915bc94fbc3221a5db94fae95ae7121a47\n",
        0,
    ),
    // Lines that are no commands, and two with a key of one byte.
    (
        b"\n\
          seal 128 00 -\n\
          mask aes128 abc -\n\
          seal 128 00 00 - -\n\
          open 128 00 00 - 0 ff\n",
        b"bad line\n\
          bad line\n\
          bad line\n\
          refused\n\
          refused ff\n",
        1,
    ),
];

#[test]
fn runs(rt: HostRuntime) {
    for (input, printed, status) in RUNS {
        answers(&rt, rt.alloc(), input, printed, status);
    }
}

const MEBIBYTE: usize = 1 << 20;

/// Returns a line that seals a mebibyte of zeros with a key and a nonce of zeros.
fn line_of_a_mebibyte(alloc: Global) -> Result<String, AllocError> {
    let zeros = vec![in alloc; 0; MEBIBYTE]?;
    let mut line = String::from_str(
        alloc,
        "seal 128 00000000000000000000000000000000 000000000000000000000000 - ",
    )?;
    line.push_str(hex::encode(alloc, &zeros)?.as_str())?;
    Ok(line)
}

#[test]
fn a_message_of_a_mebibyte(rt: HostRuntime) -> Result<(), Fail> {
    let input = line_of_a_mebibyte(rt.alloc())?;
    let mut rest = input.as_bytes();
    let mut output = Vec::new(rt.alloc());
    let status = lines(rt.alloc(), &mut rest, &mut output);
    equal(&rt, status, 0, "the status");
    equal(&rt, output.len(), 2 * MEBIBYTE + 37, "the length");
    // The ciphertext of `gcm_spec_case_2`.
    let front = b"ok 0388dace60b6a392f328c2b971b2fe78";
    holds(&rt, output.as_slice().starts_with(front), "the first block");
    // The last block and the tag, computed by OpenSSL.
    let end = b"590ec3d3cb8f2900dae97d47be155154 51d0dc1a2bffcab23b43f5d30b4f6c7c\n";
    holds(
        &rt,
        output.as_slice().ends_with(end),
        "the last block and the tag",
    );
    Ok(())
}
