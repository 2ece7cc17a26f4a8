//! Building blocks of the ciphers: comparing two slices of bytes, and XORing blocks and slices.

ghost use Rattle.std.specs.Prelude.{◌≡◌, ◌↔◌, ◌++◌, IsOk, IsTrue, bit_xor, drop, length, map};
ghost use Rattle.aead_ciphers_base.specs.Bytes.{◌⊕◌};

use crate::error::Unspecified;

/// Verifies that two slices are equal. Fails with `Unspecified` if they differ.
///
/// For slices of one length the loop reads every byte, wherever they differ. No clause says so.
#[tactic(auto, using(crate::proofs::BytesLemmas::same_more))]
pub fn verify_slices_are_equal(a: &[u8], b: &[u8]) -> Result<(), Unspecified>
    ensures { IsOk result ↔ (a.now ≡ b.now) }
{
    if a.len() != b.len() {
        return Err(Unspecified);
    }
    let mut difference = 0u8;
    for i in 0..a.len() {
        difference |= a[i] ^ b[i];
    }
    if is_zero(difference) {
        Ok(())
    } else {
        Err(Unspecified)
    }
}

/// Returns whether `difference` is 0. Not inlined, so that the compiler computes `difference` from all bytes instead of
/// returning at the first that differs.
#[inline(never)]
fn is_zero(difference: u8) -> bool
    ensures { IsTrue result ↔ (difference ≡ 0) }
{
    difference == 0
}

/// Returns the XOR of two blocks of 16 bytes.
pub fn xor_16(a: [u8; 16], b: [u8; 16]) -> [u8; 16]
    ensures { result ≡ a ⊕ b }
{
    let mut r = a;
    xor_assign_at_start(&mut r, &b);
    r
}

/// XORs `b` into each byte of `a`.
pub fn xor_assign(a: &mut [u8], b: u8)
    ensures { a.new ≡ map (λ x. bit_xor x b) a.old }
{
    for i in 0..a.len() {
        a[i] ^= b;
    }
}

/// XORs the bytes of `b` into the first bytes of `a`, up to the end of the shorter slice. The other
/// bytes of `a` are unchanged.
#[tactic(auto, using(crate::proofs::BytesLemmas::xor_at_start_more, crate::proofs::BytesLemmas::xor_at_start_end))]
pub fn xor_assign_at_start(a: &mut [u8], b: &[u8])
    ensures { a.new ≡ (a.old ⊕ b.now) ++ drop (length b.now) a.old }
{
    let count = a.len().min(b.len());
    for i in 0..count {
        a[i] ^= b[i];
    }
}
