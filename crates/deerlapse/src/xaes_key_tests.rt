//! Tests of the calls of XAES-256-GCM with the vectors of its specification (c2sp.org/XAES-256-GCM).

ghost use Rattle.deerlapse.specs.XaesKey.{IsXaesKeyOrNone};

use crate::tests::{accepted, equal, same};
use crate::xaes_key::{
    deerlapse_xaes_init, deerlapse_xaes_open, deerlapse_xaes_open_appended_tag_sized,
    deerlapse_xaes_open_separate_tag, deerlapse_xaes_open_to_sized, deerlapse_xaes_seal,
    deerlapse_xaes_seal_append_tag_sized, deerlapse_xaes_seal_to_sized, deerlapse_xaes_wipe,
};
use std::alloc::Global;
use std::process::Abort;
use std::test::Fail;
use xaes::ExpandedKey;

const NONCE: [u8; 24] = *b"ABCDEFGHIJKLMNOPQRSTUVWX";

const MESSAGE: [u8; 12] = *b"XAES-256-GCM";

/// The byte of which the key consists, the AAD, and the ciphertext with its tag.
struct Vector {
    key_byte: u8,
    aad: &'static [u8],
    sealed: [u8; 28],
}

const VECTORS: [Vector; 2] = [
    Vector {
        key_byte: 1,
        aad: b"",
        sealed: [
            0xce, 0x54, 0x6e, 0xf6, 0x3c, 0x9c, 0xc6, 0x07, 0x65, 0x92, 0x36, 0x09, 0xb3, 0x3a,
            0x9a, 0x19, 0x74, 0xe9, 0x6e, 0x52, 0xda, 0xf2, 0xfc, 0xf7, 0x07, 0x5e, 0x22, 0x71,
        ],
    },
    Vector {
        key_byte: 3,
        aad: b"c2sp.org/XAES-256-GCM",
        sealed: [
            0x98, 0x6e, 0xc1, 0x83, 0x25, 0x93, 0xdf, 0x54, 0x43, 0xa1, 0x79, 0x43, 0x7f, 0xd0,
            0x83, 0xbf, 0x3f, 0xdb, 0x41, 0xab, 0xd7, 0x40, 0xa2, 0x1f, 0x71, 0xeb, 0x76, 0x9d,
        ],
    },
];

/// Seals in place, and opens after three other bytes.
fn in_place(rt: &impl Abort, alloc: Global, key: &ExpandedKey, row: &Vector) -> Result<(), Fail>
    requires { IsXaesKeyOrNone key.now }
{
    let mut bytes = MESSAGE.to_vec(alloc)?;
    let mut tag = [0; 16];
    let sealed = deerlapse_xaes_seal(key, &NONCE, row.aad, &mut bytes, &mut tag);
    accepted(rt, sealed, "in place");
    same(rt, &bytes, &row.sealed[..12], "in place");
    same(rt, &tag, &row.sealed[12..], "in place");

    let mut bytes = [1, 2, 3].to_vec(alloc)?;
    bytes.extend_from_slice(&row.sealed)?;
    let mut len = 0;
    let opened = deerlapse_xaes_open(key, &NONCE, row.aad, &mut bytes, 3, &mut len);
    accepted(rt, opened, "in place");
    let plaintext = bytes.get(..len).ok_or("a plaintext's length")?;
    same(rt, plaintext, &MESSAGE, "in place");

    let mut bytes = [1, 2, 3].to_vec(alloc)?;
    bytes.extend_from_slice(&row.sealed[..12])?;
    let opened = deerlapse_xaes_open_separate_tag(key, &NONCE, row.aad, &mut bytes, 3, &tag);
    accepted(rt, opened, "a separate tag");
    let plaintext = bytes.get(..12).ok_or("a plaintext's length")?;
    same(rt, plaintext, &MESSAGE, "a separate tag");
    Ok(())
}

/// Seals and opens from one buffer to another.
fn out_of_place(rt: &impl Abort, key: &ExpandedKey, row: &Vector)
    requires { IsXaesKeyOrNone key.now }
{
    let (mut sealed, mut opened) = ([0; 28], [0; 12]);
    let answer = deerlapse_xaes_seal_append_tag_sized(key, &NONCE, row.aad, &MESSAGE, &mut sealed);
    accepted(rt, answer, "appended");
    same(rt, &sealed, &row.sealed, "appended");
    let answer = deerlapse_xaes_open_appended_tag_sized(key, &NONCE, row.aad, &sealed, &mut opened);
    accepted(rt, answer, "appended");
    same(rt, &opened, &MESSAGE, "appended");

    let (mut ciphertext, mut tag) = ([0; 12], [0; 16]);
    let answer = deerlapse_xaes_seal_to_sized(
        key,
        &NONCE,
        row.aad,
        &MESSAGE,
        &mut ciphertext,
        &mut tag,
    );
    accepted(rt, answer, "to");
    same(rt, &ciphertext, &row.sealed[..12], "to");
    let answer = deerlapse_xaes_open_to_sized(key, &NONCE, row.aad, &ciphertext, &mut opened, &tag);
    accepted(rt, answer, "to");
    same(rt, &opened, &MESSAGE, "to");
}

/// Asserts that the message opens neither under a nonce that differs in a bit of either half, nor under a wiped key.
fn refuses(rt: &impl Abort, key: &mut ExpandedKey, row: &Vector)
    requires { IsXaesKeyOrNone key.old }
{
    let mut len = 0;
    for at in [0, 11, 12, 23] {
        let mut nonce = NONCE;
        nonce[at] ^= 1;
        let mut buffer = row.sealed;
        let opened = deerlapse_xaes_open(key, &nonce, row.aad, &mut buffer, 0, &mut len);
        accepted(rt, !opened, "another nonce");
    }
    deerlapse_xaes_wipe(key);
    let mut buffer = row.sealed;
    let opened = deerlapse_xaes_open(key, &NONCE, row.aad, &mut buffer, 0, &mut len);
    accepted(rt, !opened, "a wiped key");
}

#[test]
fn xaes_256_gcm(rt: HostRuntime) -> Result<(), Fail> {
    for row in &VECTORS {
        let mut key = ExpandedKey::zeros();
        deerlapse_xaes_init(&mut key, &[row.key_byte; 32]);
        in_place(&rt, rt.alloc(), &key, row)?;
        out_of_place(&rt, &key, row);
        refuses(&rt, &mut key, row);
    }
    Ok(())
}
