//! Overlapping buffers whose input has a fixed number of items.

ghost use Rattle.std.specs.Prelude.{◌≡◌, ◌↔◌, ◌-◌, ◌<◌, ◌≤◌, IsOk, IfOk, IfErr, length, take};
ghost use Rattle.std.specs.Borrow.{sem};
ghost use Rattle.aead_ciphers_base.specs.Overlapping.{KeptIfErr, LendsOutput, input_len, input_of};

use super::Overlapping;
use crate::error::LenMismatchError;

/// An overlapping buffer whose input has exactly `N` items. `N` is not zero.
#[derive(Drop)]
pub struct Array<'o, T, const N: usize> {
    /// The whole buffer.
    pub in_out: Overlapping<'o, T>,
    pub ghost some: { 0 < N },
    pub ghost exact: { input_len in_out ≡ N },
}

impl<'o, T, const N: usize> Array<'o, T, N> {
    /// Creates an `Array` from a buffer whose input has `N` items.
    ///
    /// Fails with a `LenMismatchError` of `N` if `N` is zero or the input has another length. The slice
    /// is then unchanged.
    pub fn new(in_out: Overlapping<'o, T>) -> Result<Self, LenMismatchError>
        ensures* kept { sem 𝓛 (KeptIfErr T.row in_out.entry.in_out
            (λ a. a.in_out.in_out.ghost_name) result) }
        ensures accepted { IsOk result ↔ ((0 < N) × (input_len in_out.entry ≡ N)) }
        ensures same_reference { IfOk result
            (λ a. a.in_out.in_out.ghost_name ≡ in_out.entry.in_out.ghost_name) }
        ensures items { IfOk result (λ a. a.in_out.in_out.now ≡ in_out.entry.in_out.now) }
        ensures start { IfOk result (λ a. a.in_out.start ≡ in_out.entry.start) }
        ensures refused { IfErr result (λ e. e ≡ N) }
    {
        let len = in_out.in_out.len() - in_out.start;
        if (N == 0) | (len != N) {
            return Err(LenMismatchError::new(N));
        }
        Ok(Array { in_out })
    }

    /// Returns the input: the slice from the start on.
    pub fn input(&self) -> &[T; N]
        ensures { result.now ≡ input_of self.now.in_out }
    {
        match self.in_out.input().as_array::<N>() {
            Some(input) => input,
            None => unreachable!(),
        }
    }

    /// Consumes the buffer, and returns the first `N` items of the slice, for writing.
    pub fn into_unwritten_output(self) -> &'o mut [T; N]
        ensures* writes_back { sem 𝓛 (LendsOutput T.row self.entry.in_out.in_out result N) }
        ensures items { result.now ≡ take N self.entry.in_out.in_out.now }
    {
        first_array::<T, N>(self.into_slice())
    }

    /// Consumes the buffer, and returns the whole slice.
    fn into_slice(self) -> &'o mut [T]
        ensures same_reference { result.ghost_name ≡ self.entry.in_out.in_out.ghost_name }
        ensures items { result.now ≡ self.entry.in_out.in_out.now }
    {
        let Overlapping { in_out, .. } = self.in_out;
        in_out
    }
}

/// Returns the first `N` items of a slice, for writing.
fn first_array<T, const N: usize>(items: &mut [T]) -> &mut [T; N]
    requires { N ≤ length items.old }
    ensures* writes_back { sem 𝓛 (LendsOutput T.row items.entry result N) }
    ensures value { result.now ≡ take N items.old }
{
    match items.first_chunk_mut::<N>() {
        Some(front) => front,
        None => unreachable!(),
    }
}
