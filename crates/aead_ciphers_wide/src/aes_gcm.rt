//! An expanded AES-GCM key as plain data, for memory that the library does not own: a C struct, or a table of keys.

ghost use Rattle.std.specs.Prelude.{◌≡◌, ◌+◌, ◌-◌, ◌↔◌, ℕ, List, [], length, replicate, is_ok, IsTrue, IsOk, IfOk, OnOk, OnErr};
ghost use Rattle.aead_ciphers_base.specs.Aes.{aes as aes_cipher};
ghost use Rattle.aead_ciphers_base.specs.Bytes.{zero_block};
ghost use Rattle.aead_ciphers_base.specs.KeyBytes.{key_bytes};
ghost use Rattle.aead_ciphers_base.specs.Mask.{aes_mask};
ghost use Rattle.aead_ciphers_base.specs.Values.{aad_bytes};
ghost use Rattle.aead_ciphers_base.specs.Work.{Adds, CanAdd};
ghost use Rattle.aead_ciphers_wide.specs.ExpandedKey.{HasZerosAfter, IsExpanded, bytes_of, zero_key};
ghost use Rattle.aead_ciphers_wide.specs.Pieces.{HasSealed, SealsPiece, joined};
ghost use Rattle.aead_ciphers_wide.specs.Width.{width_bits};
ghost use Rattle.aead_ciphers.specs.Gcm.{CanSeal, Fits, SealWork, Opened, OpenedAttached, gcm_decrypted, gcm_encrypted, gcm_tag};

mod pieces;

use crate::aes::Width;
use crate::{aes, gcm};
use aead_ciphers::aes_gcm::{GcmKey, open_fitting_with, open_to_with, open_with, seal_with};
use aead_ciphers::gcm::fits;
use aead_ciphers_base::aes::{EncryptBlock, KeyBytes, Work, ZERO_BLOCK};
use aead_ciphers_base::bb;
use aead_ciphers_base::error::Unspecified;
use aead_ciphers_base::values::{Aad, MAX_TAG_LEN, Nonce, Sample, Tag};
pub use pieces::SealState;
use std::ops::RangeFrom;

/// An expanded AES-GCM key as plain data.
///
/// Sealing and opening require the fields to be as `expand` left them. In Rust nothing checks this, and a call with other fields
/// may panic or return wrong results. The fields are only read, so many threads may use a key at once.
///
/// Calls that take a `work` add their cipher blocks and field products to it. A caller that doesn't need the numbers passes
/// `&mut Work::new()`.
///
/// # Examples
///
/// ```
/// use deerlapse::aead::{Aad, Nonce, Unspecified};
/// use deerlapse::aes_gcm::{ExpandedKey, GcmKey, KeyBytes, Work};
///
/// let bytes = [7; 16]; // not a real key
/// let mut key = ExpandedKey::zeros();
/// key.expand(KeyBytes::AES_128(&bytes), &mut Work::new());
/// assert!(key.is_of(&bytes));
///
/// let nonce = || Nonce::assume_unique_for_key([1; 12]); // another for each message
/// let mut message = *b"hello";
/// let tag = key.seal(nonce(), Aad::empty(), &mut message, &mut Work::new())?;
/// let len = key.open(nonce(), Aad::empty(), tag, &mut message, 0.., &mut Work::new())?;
/// assert_eq!(&message[..len], b"hello");
/// # Ok::<(), Unspecified>(())
/// ```
#[repr(C)]
#[derive(Clone, Drop)]
pub struct ExpandedKey {
    /// The round keys, as eight planes of 128 bits each.
    pub planes: [[u64; 16]; 15],
    // Between the arrays, as in `aes::Key`.
    /// The number of rounds: 10 for AES-128, 14 for AES-256.
    pub rounds: u32,
    /// The width of the planes on which batches are encrypted, in bits: 256, or 128 for any other number. It changes no result.
    pub width: u32,
    /// The round keys (FIPS 197 section 5.2).
    pub round_keys: [[u8; 16]; 15],
    /// The products of the hash subkey (SP 800-38D section 6.3).
    pub products: [u8; 512],
    /// The products of the square of the hash subkey.
    pub squares: [u8; 512],
}

impl ExpandedKey {
    /// Does the same as [`expand`](GcmKey::expand), for batches on planes of this width. Overwrites the whole of an earlier key.
    pub fn expand_with_width(&mut self, bytes: KeyBytes<'_>, width: Width, work: &mut Work)
        requires { CanAdd work.old 1 0 }
        ensures expanded { IsExpanded self.new }
        ensures bytes { bytes_of self.new ≡ key_bytes bytes.entry }
        ensures width { self.new.width ≡ width_bits width }
        ensures unused { HasZerosAfter self.new }
        ensures worked { Adds work.old work.new 1 0 }
    {
        let rounds = aes::expand(&mut self.round_keys, bytes);
        aes::write_planes(&mut self.planes, &self.round_keys, rounds);
        self.rounds = rounds as u32;
        self.width = width.bits();
        let aes = aes::BlockKeyRef::new(&self.round_keys, rounds);
        let subkey = aes.encrypt_block(ZERO_BLOCK, work);
        gcm::expand(&mut self.products, &mut self.squares, subkey);
    }

    /// Returns whether this is a key of these bytes.
    pub fn is_of(&self, bytes: &[u8]) -> bool
        requires { IsExpanded self.now }
        ensures { IsTrue result ↔ (bytes_of self.now ≡ bytes.now) }
    {
        let len = 4 * (self.rounds as usize - 6);
        let front = aes::joined(self.round_keys[0], self.round_keys[1]);
        bb::verify_slices_are_equal(&front[..len], bytes).is_ok()
    }

    /// Borrows the AES key.
    fn aes(&self) -> aes::KeyRef<'_>
        requires { IsExpanded self.now }
        ensures { result ≡ bytes_of self.now }
    {
        aes::KeyRef::new(
            &self.planes,
            &self.round_keys,
            self.rounds as usize,
            self.width,
        )
    }

    /// Borrows the key of GHASH, whose hash subkey is the encrypted zero block.
    fn gcm(&self) -> gcm::KeyRef<'_>
        requires { IsExpanded self.now }
        ensures { result ≡ aes_cipher (bytes_of self.now) zero_block }
    {
        gcm::KeyRef::new(&self.products, &self.squares)
    }

    /// Opens as [`open`](GcmKey::open) does, but the tag is the last 16 bytes of `in_out`, which are unchanged. Also fails if
    /// `in_out` is shorter than 16 bytes.
    pub fn open_within_to_front(
        &self,
        nonce: Nonce,
        aad: Aad<'_>,
        in_out: &mut [u8],
        ciphertext_and_tag: RangeFrom<usize>,
    ) -> Result<usize, Unspecified>
        requires { IsExpanded self.now }
        ensures opened { OpenedAttached (aes_cipher (bytes_of self.now)) nonce (aad_bytes aad.entry)
            ciphertext_and_tag.start in_out.old (is_ok result) in_out.new }
        ensures count { IfOk result (λ n. n ≡ length in_out.old - 16 - ciphertext_and_tag.start) }
        ensures refused { OnErr result (in_out.new ≡ in_out.old) }
    {
        let (before_tag, tag) = in_out
            .split_last_chunk_mut::<MAX_TAG_LEN>()
            .ok_or(Unspecified)?;
        match before_tag.len().checked_sub(ciphertext_and_tag.start) {
            Some(len) if fits(aad.as_ref().len(), len) => {
                // Read after the lengths are checked, since a caller in C may pass a false length.
                let tag = Tag::from(*tag);
                let aes = self.aes();
                let gcm = self.gcm();
                let start = ciphertext_and_tag.start;
                let mut work = Work::new();
                open_fitting_with(&aes, &gcm, nonce, aad, tag, before_tag, start, &mut work)
            }
            _ => Err(Unspecified),
        }
    }

    /// Begins a message that is sealed in pieces, of which none is sealed yet.
    ///
    /// # Errors
    ///
    /// Fails with `Unspecified` if `aad` is 2^61 bytes or longer (SP 800-38D section 5.2.1.1).
    pub fn begin(&self, nonce: Nonce, aad: Aad<'_>) -> Result<SealState, Unspecified>
        requires { IsExpanded self.now }
        ensures accepted { IsOk result ↔ Fits (length (aad_bytes aad.entry)) 0 }
        ensures begun { IfOk result (λ state. HasSealed (aes_cipher (bytes_of self.now)) nonce
            (aad_bytes aad.entry) [] [] state) }
        ensures cleared { IfOk result (λ state. state.batch ≡ replicate 128 0) }
    {
        let gcm = self.gcm();
        SealState::begin_with(&gcm, nonce, aad)
    }

    /// Begins a message as `begin` does, with AAD that is given in parts, one after another.
    ///
    /// # Errors
    ///
    /// Fails with `Unspecified` if the parts together have 2^61 bytes or more (SP 800-38D section 5.2.1.1).
    pub fn begin_with_parts(&self, nonce: Nonce, aad: &[&[u8]]) -> Result<SealState, Unspecified>
        requires { IsExpanded self.now }
        ensures accepted { IsOk result ↔ Fits (length (joined aad.now)) 0 }
        ensures begun { IfOk result (λ state. HasSealed (aes_cipher (bytes_of self.now)) nonce
            (joined aad.now) [] [] state) }
        ensures cleared { IfOk result (λ state. state.batch ≡ replicate 128 0) }
    {
        let gcm = self.gcm();
        SealState::begin_with_parts(&gcm, nonce, aad)
    }

    /// Encrypts the next piece of a message in place, under the key that the message began with.
    ///
    /// # Errors
    ///
    /// Fails with `Unspecified`, and changes nothing, if the message would be longer than 2^36 - 32 bytes.
    pub fn update(&self, state: &mut SealState, in_out: &mut [u8]) -> Result<(), Unspecified>
        requires key { IsExpanded self.now }
        requires fits { Fits state.old.aad_len state.old.len }
        ensures accepted { IsOk result ↔ Fits state.old.aad_len (state.old.len + length in_out.old) }
        ensures sealed { OnOk result (SealsPiece (aes_cipher (bytes_of self.now)) state.old
            in_out.old in_out.new state.new) }
        ensures refused { OnErr result ((state.new ≡ state.old) × (in_out.new ≡ in_out.old)) }
    {
        let aes = self.aes();
        let gcm = self.gcm();
        state.update_with(&aes, &gcm, in_out)
    }

    /// Ends a message, and returns the tag of its AAD and of the ciphertexts of all its pieces in a row, under the key that
    /// the message began with.
    pub fn finish(&self, state: SealState) -> Tag
        requires key { IsExpanded self.now }
        requires fits { Fits state.aad_len state.len }
        ensures { (nonce aad message ciphertext : List ℕ)
            → HasSealed (aes_cipher (bytes_of self.now)) nonce aad message ciphertext state
            → result ≡ gcm_tag (aes_cipher (bytes_of self.now)) nonce aad ciphertext }
    {
        let aes = self.aes();
        let gcm = self.gcm();
        state.finish_with(&aes, &gcm)
    }

    /// Computes the header protection mask of a sample (RFC 9001 section 5.4.3) with the AES key alone: 16 bytes in, 5
    /// bytes out.
    pub fn new_mask(&self, sample: Sample) -> [u8; 5]
        requires { IsExpanded self.now }
        ensures { result ≡ aes_mask (bytes_of self.now) sample }
    {
        aes::BlockKeyRef::new(&self.round_keys, self.rounds as usize).new_mask(sample)
    }
}

impl GcmKey for ExpandedKey {
    ghost use Rattle.std.specs.Prelude.{◌≡◌};
    ghost use Rattle.std.proofs.Common.{rules};
    ghost use Rattle.aead_ciphers_wide.specs.ExpandedKey as specs;

    ghost bytes_of = { specs.bytes_of };

    ghost is_expanded = { specs.IsExpanded };

    ghost zero_key = { specs.zero_key };

    ghost clones = { λ key clone is. Prim.search rules };

    ghost always_clones = { λ key. Prim.search rules };

    #[inline(always)]
    fn zeros() -> Self {
        ExpandedKey {
            planes: [[0; 16]; 15],
            rounds: 0,
            width: 0,
            round_keys: [[0; 16]; 15],
            products: [0; 512],
            squares: [0; 512],
        }
    }

    // The width isn't a part of the trait's contract.
    fn expand(&mut self, bytes: KeyBytes<'_>, work: &mut Work) {
        self.expand_with_width(bytes, Width::Bits128, work);
    }

    fn seal(
        &self,
        nonce: Nonce,
        aad: Aad<'_>,
        in_out: &mut [u8],
        work: &mut Work,
    ) -> Result<Tag, Unspecified> {
        let aes = self.aes();
        let gcm = self.gcm();
        seal_with(&aes, &gcm, nonce, aad, in_out, work)
    }

    fn open(
        &self,
        nonce: Nonce,
        aad: Aad<'_>,
        received_tag: Tag,
        in_out: &mut [u8],
        src: RangeFrom<usize>,
        work: &mut Work,
    ) -> Result<usize, Unspecified> {
        let aes = self.aes();
        let gcm = self.gcm();
        open_with(&aes, &gcm, nonce, aad, received_tag, in_out, src, work)
    }

    fn open_to(
        &self,
        nonce: Nonce,
        aad: Aad<'_>,
        received_tag: Tag,
        ciphertext: &[u8],
        out: &mut [u8],
        work: &mut Work,
    ) -> Result<(), Unspecified> {
        let aes = self.aes();
        let gcm = self.gcm();
        open_to_with(&aes, &gcm, nonce, aad, received_tag, ciphertext, out, work)
    }
}
