//! Tests of the calls of AES-GCM, of the masks and of ChaCha20, with vectors of the standards.

ghost use Rattle.deerlapse.specs.AesKey.{IsKeyOrNone};

use crate::aes_gcm::{deerlapse_open, deerlapse_seal, open_with_width, seal_with_width};
use crate::chacha20::deerlapse_chacha20;
use crate::header_key::{
    HeaderKey, deerlapse_quic_header_key_init, deerlapse_quic_header_key_mask,
};
use crate::key::{
    deerlapse_key_init, deerlapse_key_open, deerlapse_key_open_separate_tag, deerlapse_key_seal,
    deerlapse_key_wipe, expand,
};
use crate::masks::{deerlapse_mask_aes, deerlapse_mask_chacha20};
use crate::numbered_key::{NumberedKey, deerlapse_nonce};
use crate::opener::{
    deerlapse_opener_init, deerlapse_opener_next, deerlapse_opener_open,
    deerlapse_opener_open_number, deerlapse_opener_wipe,
};
use crate::out_of_place::{
    deerlapse_key_open_appended_tag_sized, deerlapse_key_open_to_sized,
    deerlapse_key_seal_append_tag_sized, deerlapse_key_seal_to_sized,
};
use crate::pieces::{deerlapse_key_begin, deerlapse_key_finish, deerlapse_key_update};
use crate::sealer::{
    deerlapse_sealer_init, deerlapse_sealer_next, deerlapse_sealer_seal, deerlapse_sealer_wipe,
};
use aead_ciphers::aes_gcm::GcmKey;
use aead_ciphers_wide::aes::Width;
use aead_ciphers_wide::aes_gcm::{ExpandedKey, SealState};
use aead_vectors::gcm_spec::{CASES, Case};
use aead_vectors::{fips_197, rfc_8439, rfc_9001};
use std::alloc::Global;
use std::fmt::Debug;
use std::process::Abort;
use std::test::Fail;

/// Each width of planes, with the other one.
const WIDTHS: [(Width, Width); 2] = [
    (Width::Bits128, Width::Bits256),
    (Width::Bits256, Width::Bits128),
];

/// Asserts that two lists of bytes are equal.
pub(crate) fn same(rt: &impl Abort, found: &[u8], wanted: &[u8], what: &str) {
    assert_eq!(rt; found, wanted, "{what}");
}

/// Asserts that two values are equal.
pub(crate) fn equal<T: Debug + PartialEq>(rt: &impl Abort, found: &T, wanted: &T, what: &str) {
    assert_eq!(rt; found, wanted, "{what}");
}

/// Asserts that a condition is true, such as that a call succeeded.
pub(crate) fn accepted(rt: &impl Abort, answer: bool, what: &str) {
    assert!(rt; answer, "{what}");
}

/// Asserts that an expanded key is all zeros.
pub(crate) fn is_zero(rt: &impl Abort, key: &ExpandedKey, what: &str) {
    equal(rt, &key.planes, &[[0; 16]; 15], what);
    equal(rt, &(key.rounds, key.width), &(0, 0), what);
    equal(rt, &key.round_keys, &[[0; 16]; 15], what);
    same(rt, &key.products, &[0; 512], what);
    same(rt, &key.squares, &[0; 512], what);
}

/// Asserts that a sealer or an opener is all zeros.
fn has_no_numbers(rt: &impl Abort, numbered: &NumberedKey, what: &str) {
    is_zero(rt, &numbered.key, what);
    equal(rt, &(numbered.next, numbered.limit), &(0, 0), what);
    same(rt, &numbered.iv, &[0; 12], what);
    same(rt, &numbered.room, &[0; 220], what);
}

/// Asserts that a call sealed a case's message.
fn is_sealed(rt: &impl Abort, case: &Case, sealed: bool, bytes: &[u8], tag: &[u8]) {
    accepted(rt, sealed, case.name);
    same(rt, bytes, &case.ciphertext, case.name);
    same(rt, tag, &case.tag, case.name);
}

/// Asserts that a call opened a case's message, which is at the front.
fn is_opened(
    rt: &impl Abort,
    case: &Case,
    opened: bool,
    bytes: &[u8],
    len: usize,
) -> Result<(), Fail> {
    accepted(rt, opened, case.name);
    let plaintext = bytes.get(..len).ok_or("a plaintext's length")?;
    same(rt, plaintext, &case.message, case.name);
    Ok(())
}

/// Seals a case's message with planes of one width, and opens it after three other bytes with planes of another.
fn seals_and_opens(
    rt: &impl Abort,
    alloc: Global,
    case: &Case,
    sealing: Width,
    opening: Width,
) -> Result<(), Fail> {
    let (key, nonce, aad) = (case.key.as_slice(), &case.nonce, case.aad.as_slice());
    let mut bytes = case.message.clone()?;
    let mut tag = [0; 16];
    let sealed = match sealing {
        Width::Bits128 => deerlapse_seal(key, nonce, aad, &mut bytes, &mut tag),
        Width::Bits256 => seal_with_width(key, nonce, aad, &mut bytes, &mut tag, sealing),
    };
    is_sealed(rt, case, sealed, &bytes, &tag);

    let mut bytes = [1, 2, 3].to_vec(alloc)?;
    bytes.extend_from_slice(&sealed_bytes(case)?)?;
    let mut len = 0;
    let opened = match opening {
        Width::Bits128 => deerlapse_open(key, nonce, aad, &mut bytes, 3, &mut len),
        Width::Bits256 => open_with_width(key, nonce, aad, &mut bytes, 3, &mut len, opening),
    };
    is_opened(rt, case, opened, &bytes, len)
}

/// Tries a case under a key with planes of each width.
fn by_both_keys(rt: &impl Abort, alloc: Global, case: &Case) -> Result<(), Fail> {
    let mut key = ExpandedKey::zeros();
    let mut wider = ExpandedKey::zeros();
    if !deerlapse_key_init(&mut key, &case.key) || !expand(&mut wider, &case.key, Width::Bits256) {
        return Err("a key".into());
    }
    equal(rt, &(key.width, wider.width), &(128, 256), case.name);
    seals_and_opens_by_keys(rt, alloc, &key, &wider, case)?;
    seals_and_opens_by_keys(rt, alloc, &wider, &key, case)?;
    seals_nothing_when_wiped(rt, &mut key, case);
    seals_nothing_when_wiped(rt, &mut wider, case);
    Ok(())
}

/// Wipes a key, and asserts that it is all zeros then, and seals nothing.
fn seals_nothing_when_wiped(rt: &impl Abort, key: &mut ExpandedKey, case: &Case) {
    deerlapse_key_wipe(key);
    is_zero(rt, key, case.name);
    let sealed = deerlapse_key_seal(key, &case.nonce, &case.aad, &mut [0; 5], &mut [0; 16]);
    accepted(rt, !sealed, case.name);
}

/// Seals a case's message under an expanded key by each call, and opens it under another one of the same bytes.
fn seals_and_opens_by_keys(
    rt: &impl Abort,
    alloc: Global,
    sealing: &ExpandedKey,
    opening: &ExpandedKey,
    case: &Case,
) -> Result<(), Fail>
    requires sealing { IsKeyOrNone sealing.now }
    requires opening { IsKeyOrNone opening.now }
{
    let mut bytes = case.message.clone()?;
    let mut tag = [0; 16];
    let sealed = deerlapse_key_seal(sealing, &case.nonce, &case.aad, &mut bytes, &mut tag);
    is_sealed(rt, case, sealed, &bytes, &tag);

    bytes.extend_from_slice(&tag)?;
    let mut len = 0;
    let opened = deerlapse_key_open(opening, &case.nonce, &case.aad, &mut bytes, 0, &mut len);
    is_opened(rt, case, opened, &bytes, len)?;
    seals_and_opens_apart(rt, alloc, sealing, case)?;
    seals_in_pieces(rt, sealing, case, 17)
}

/// Seals a case's message with a separate tag, from one buffer to another and back, and opens it in place.
fn seals_and_opens_apart(
    rt: &impl Abort,
    alloc: Global,
    key: &ExpandedKey,
    case: &Case,
) -> Result<(), Fail>
    requires { IsKeyOrNone key.now }
{
    let (nonce, aad) = (&case.nonce, case.aad.as_slice());
    let mut sealed = vec![in alloc; 0; case.message.len()]?;
    let mut tag = [0; 16];
    let made = deerlapse_key_seal_to_sized(key, nonce, aad, &case.message, &mut sealed, &mut tag);
    is_sealed(rt, case, made, &sealed, &tag);

    let mut message = vec![in alloc; 0; case.message.len()]?;
    let false_tag = deerlapse_key_open_to_sized(key, nonce, aad, &sealed, &mut message, &[0; 16]);
    accepted(rt, !false_tag, case.name);
    let opened = deerlapse_key_open_to_sized(key, nonce, aad, &sealed, &mut message, &tag);
    accepted(rt, opened, case.name);
    same(rt, &message, &case.message, case.name);

    let opened = deerlapse_key_open_separate_tag(key, nonce, aad, &mut sealed, 0, &tag);
    accepted(rt, opened, case.name);
    same(rt, &sealed, &case.message, case.name);
    appends_and_opens(rt, alloc, key, case)
}

/// Seals a case's message with the tag after the ciphertext, from one buffer to another and back.
fn appends_and_opens(
    rt: &impl Abort,
    alloc: Global,
    key: &ExpandedKey,
    case: &Case,
) -> Result<(), Fail>
    requires { IsKeyOrNone key.now }
{
    let (nonce, aad) = (&case.nonce, case.aad.as_slice());
    let wanted = sealed_bytes(case)?;
    let mut sealed = vec![in alloc; 0; wanted.len()]?;
    let made = deerlapse_key_seal_append_tag_sized(key, nonce, aad, &case.message, &mut sealed);
    accepted(rt, made, case.name);
    same(rt, &sealed, &wanted, case.name);

    let mut message = vec![in alloc; 0; case.message.len()]?;
    let opened = deerlapse_key_open_appended_tag_sized(key, nonce, aad, &sealed, &mut message);
    accepted(rt, opened, case.name);
    same(rt, &message, &case.message, case.name);
    Ok(())
}

/// Seals a case's message in two pieces, the first of at most `len` bytes.
fn seals_in_pieces(rt: &impl Abort, key: &ExpandedKey, case: &Case, len: usize) -> Result<(), Fail>
    requires { IsKeyOrNone key.now }
{
    let mut message = SealState::zeros();
    let mut bytes = case.message.clone()?;
    let mut tag = [0; 16];
    if !deerlapse_key_begin(key, &case.nonce, &case.aad, &mut message) {
        return Err("a message".into());
    }
    let count = bytes.len().min(len);
    let (first, second) = bytes.split_at_mut(count);
    if !deerlapse_key_update(key, &mut message, first)
        || !deerlapse_key_update(key, &mut message, second)
    {
        return Err("a piece".into());
    }
    let sealed = deerlapse_key_finish(key, &mut message, &mut tag);
    is_sealed(rt, case, sealed, &bytes, &tag);
    let again = deerlapse_key_finish(key, &mut message, &mut tag);
    accepted(rt, !again, case.name);
    Ok(())
}

/// Returns a sealer or an opener of zeros.
fn no_numbers() -> NumberedKey {
    NumberedKey {
        key: ExpandedKey::zeros(),
        next: 0,
        limit: 0,
        iv: [0; 12],
        room: [0; 220],
    }
}

/// Tries a sealer with one number, 0, whose nonce is the IV: it seals a case's message, and then no other.
fn seals_once(rt: &impl Abort, case: &Case, width: Width) -> Result<(), Fail> {
    let mut sealer = no_numbers();
    let made = match width {
        Width::Bits128 => deerlapse_sealer_init(&mut sealer, &case.key, &case.nonce, 0, 1),
        Width::Bits256 => sealer.init(&case.key, &case.nonce, 0, 1, width),
    };
    if !made {
        return Err("a sealer".into());
    }
    let mut bytes = case.message.clone()?;
    let mut tag = [0; 16];
    let sealed = deerlapse_sealer_seal(&mut sealer, &case.aad, &mut bytes, &mut tag);
    is_sealed(rt, case, sealed, &bytes, &tag);
    let again = deerlapse_sealer_seal(&mut sealer, &case.aad, &mut bytes, &mut tag);
    accepted(rt, !again, case.name);
    equal(rt, &deerlapse_sealer_next(&sealer), &1, case.name);
    deerlapse_sealer_wipe(&mut sealer);
    has_no_numbers(rt, &sealer, case.name);
    Ok(())
}

/// Returns a case's ciphertext with the tag after it.
fn sealed_bytes(case: &Case) -> Result<Vec<u8, Global>, Fail> {
    let mut bytes = case.ciphertext.clone()?;
    bytes.extend_from_slice(&case.tag)?;
    Ok(bytes)
}

/// Asserts that an opener with one number, 0, opens a sealed message twice by that number, and not by another one.
fn opens_by_number(rt: &impl Abort, opener: &NumberedKey, case: &Case) -> Result<(), Fail>
    requires { IsKeyOrNone opener.now.key }
{
    let mut len = 0;
    for (number, answer) in [(0, true), (1, false), (0, true)] {
        let mut bytes = sealed_bytes(case)?;
        let opened = deerlapse_opener_open_number(
            opener, number, &case.aad, &mut bytes, 0, &mut len,
        );
        equal(rt, &opened, &answer, case.name);
    }
    Ok(())
}

/// Asserts that an opener with one number, 0, opens a sealed message twice by number and once in order, and then none in order.
fn opens_once(rt: &impl Abort, opener: &mut NumberedKey, case: &Case) -> Result<(), Fail>
    requires { IsKeyOrNone opener.old.key }
{
    opens_by_number(rt, opener, case)?;
    let mut len = 0;
    let mut bytes = sealed_bytes(case)?;
    let early = deerlapse_opener_open(opener, &[1, 2, 3], &mut bytes, 0, &mut len);
    accepted(rt, !early, case.name);
    let opened = deerlapse_opener_open(opener, &case.aad, &mut bytes, 0, &mut len);
    is_opened(rt, case, opened, &bytes, len)?;
    equal(rt, &deerlapse_opener_next(opener), &1, case.name);
    let mut bytes = sealed_bytes(case)?;
    let again = deerlapse_opener_open(opener, &case.aad, &mut bytes, 0, &mut len);
    accepted(rt, !again, case.name);
    Ok(())
}

/// Opens a sealed message by an opener of each width.
fn opens_under_each_width(rt: &impl Abort, case: &Case) -> Result<(), Fail> {
    let mut opener = no_numbers();
    let mut wider = no_numbers();
    if !deerlapse_opener_init(&mut opener, &case.key, &case.nonce, 0, 1)
        || !wider.init(&case.key, &case.nonce, 0, 1, Width::Bits256)
    {
        return Err("an opener".into());
    }
    opens_once(rt, &mut opener, case)?;
    opens_once(rt, &mut wider, case)?;
    deerlapse_opener_wipe(&mut opener);
    has_no_numbers(rt, &opener, case.name);
    Ok(())
}

#[test]
fn gcm_spec(rt: HostRuntime) -> Result<(), Fail> {
    for line in CASES {
        let case = Case::parse(rt.alloc(), line)?;
        by_both_keys(&rt, rt.alloc(), &case)?;
        for (width, other) in WIDTHS {
            seals_and_opens(&rt, rt.alloc(), &case, width, other)?;
            seals_once(&rt, &case, width)?;
        }
        opens_under_each_width(&rt, &case)?;
    }
    Ok(())
}

/// A message of two batches of sixteen blocks and a rest is sealed with planes of each width, and opened with planes of the
/// other.
#[test]
fn long(rt: HostRuntime) -> Result<(), Fail> {
    let (key, nonce, aad) = ([7; 32], [1; 12], [2; 20]);
    let mut sealed = vec![in rt.alloc(); 3; 600]?;
    let mut tag = [0; 16];
    accepted(
        &rt,
        deerlapse_seal(&key, &nonce, &aad, &mut sealed, &mut tag),
        "128 bits",
    );
    let mut wider = vec![in rt.alloc(); 3; 600]?;
    let mut other_tag = [0; 16];
    accepted(
        &rt,
        seal_with_width(
            &key,
            &nonce,
            &aad,
            &mut wider,
            &mut other_tag,
            Width::Bits256,
        ),
        "256 bits",
    );
    same(&rt, &wider, &sealed, "256 bits");
    same(&rt, &other_tag, &tag, "256 bits");
    sealed.extend_from_slice(&tag)?;
    wider.extend_from_slice(&tag)?;
    let mut len = 0;
    let opened = open_with_width(&key, &nonce, &aad, &mut sealed, 0, &mut len, Width::Bits256)
        && deerlapse_open(&key, &nonce, &aad, &mut wider, 0, &mut len);
    accepted(&rt, opened, "the other width");
    for bytes in [&sealed, &wider] {
        let plaintext = bytes.get(..600).ok_or("a plaintext's length")?;
        same(&rt, plaintext, &[3; 600], "the other width");
    }
    Ok(())
}

/// Returns a header key of zeros.
pub(crate) fn no_header_key() -> HeaderKey {
    HeaderKey {
        rounds: 0,
        round_keys: [[0; 16]; 15],
    }
}

/// Asserts that a call wrote the mask of a block: the first bytes of the encrypted block.
fn is_mask(rt: &impl Abort, case: &fips_197::Case, made: bool, mask: &[u8; 5]) {
    accepted(rt, made, case.name);
    same(rt, mask, &case.ciphertext[..5], case.name);
}

/// Writes the mask of a block under a key, and under an expanded key.
fn masks_a_block(rt: &impl Abort, case: &fips_197::Case) {
    let mut mask = [0; 5];
    let answer = deerlapse_mask_aes(&case.key, &case.plaintext, &mut mask);
    is_mask(rt, case, answer, &mask);

    let mut key = no_header_key();
    let mut mask = [0; 5];
    let answer = deerlapse_quic_header_key_init(&mut key, &case.key)
        && deerlapse_quic_header_key_mask(&key, &case.plaintext, &mut mask);
    is_mask(rt, case, answer, &mask);
}

#[test]
fn masks(rt: HostRuntime) -> Result<(), Fail> {
    let mut mask = [0; 5];
    let answer = deerlapse_mask_aes(&rfc_9001::A_2_KEY, &rfc_9001::A_2_SAMPLE, &mut mask);
    accepted(&rt, answer, "RFC 9001 appendix A.2");
    same(&rt, &mask, &rfc_9001::A_2_MASK, "RFC 9001 appendix A.2");
    deerlapse_mask_chacha20(&rfc_9001::A_5_KEY, &rfc_9001::A_5_SAMPLE, &mut mask);
    same(&rt, &mask, &rfc_9001::A_5_MASK, "RFC 9001 appendix A.5");
    for line in fips_197::CASES {
        masks_a_block(&rt, &fips_197::Case::parse(rt.alloc(), line)?);
    }
    Ok(())
}

/// Asserts that a case's plaintext is encrypted to its ciphertext.
fn encrypts(rt: &impl Abort, case: &rfc_8439::Case) -> Result<(), Fail> {
    let mut bytes = case.plaintext.clone()?;
    let answer = deerlapse_chacha20(&case.key, &case.nonce, case.counter, &mut bytes);
    accepted(rt, answer, case.name);
    same(rt, &bytes, &case.ciphertext, case.name);
    Ok(())
}

#[test]
fn chacha20(rt: HostRuntime) -> Result<(), Fail> {
    for line in rfc_8439::CASES {
        encrypts(&rt, &rfc_8439::Case::parse(rt.alloc(), line)?)?;
    }
    Ok(())
}

// RFC 9001 appendix A.5: the nonce of packet number 654360564.
#[test]
fn nonce(rt: HostRuntime) {
    let iv = [
        0xe0, 0x45, 0x9b, 0x34, 0x74, 0xbd, 0xd0, 0xe4, 0x4a, 0x41, 0xc1, 0x44,
    ];
    let mut nonce = [0; 12];
    deerlapse_nonce(&iv, 654_360_564, &mut nonce);
    let wanted = [
        0xe0, 0x45, 0x9b, 0x34, 0x74, 0xbd, 0xd0, 0xe4, 0x6d, 0x41, 0x7e, 0xb0,
    ];
    same(&rt, &nonce, &wanted, "RFC 9001 appendix A.5");
}
