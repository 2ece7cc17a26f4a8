//! Views of a slice as whole blocks, for reading.

ghost use Rattle.std.specs.Prelude.{◌≡◌, ⊤, ◌*◌, ◌/◌, ◌%◌, ◌<◌, ◌↔◌, [], ◌∷◌, IfSome, IsTrue, drop, length, slice_index_or, take};
ghost use Rattle.std.specs.Iterator.{UpTo, YieldsFirstRef, at_most, item_count};
ghost use Rattle.std.specs.Iterator.SizeHint.{IsWithinCount};
ghost use Rattle.aead_ciphers_base.specs.Blocks.{blocks, joined};

use std::ops::Index;

/// A view of a slice as whole blocks of `N` items.
pub struct AsChunks<'a, T, const N: usize> {
    /// The items of all blocks.
    pub items: &'a [T],
    pub ghost whole: { length items.now % N ≡ 0 },
}

impl<T, const N: usize> Clone for AsChunks<'_, T, N> {
    ghost is_clone = { λ s r. r.items.now ≡ s.items.now };

    ghost is_infallible = { λ _. ⊤ };

    fn clone(&self) -> Result<Self, std::alloc::AllocError> {
        Ok(*self)
    }
}

impl<T, const N: usize> Copy for AsChunks<'_, T, N> {}

/// Splits a slice into a view of as many whole blocks of `N` items as fit, and the fewer than `N` items
/// after them.
///
/// # Examples
///
/// ```
/// use aead_ciphers_base::polyfill::slice::as_chunks;
///
/// let (blocks, rest) = as_chunks::<_, 2>(&[1, 2, 3, 4, 5]);
/// assert_eq!(blocks.len(), 2);
/// assert_eq!(blocks[1], [3, 4]);
/// assert_eq!(rest, [5]);
/// ```
#[tactic(auto, using(crate::proofs::BlocksLemmas::blocks_take, crate::proofs::BlocksLemmas::whole_blocks))]
pub fn as_chunks<T, const N: usize>(items: &[T]) -> (AsChunks<'_, T, N>, &[T])
    requires { 0 < N }
    ensures view { blocks N result.0.items.now ≡ blocks N items.now }
    ensures whole { result.0.items.now ≡ take (length items.now / N * N) items.now }
    ensures rest { result.1.now ≡ drop (length items.now / N * N) items.now }
    ensures short { length result.1.now < N }
{
    let count = items.len() / N * N;
    (
        AsChunks {
            items: &items[..count],
        },
        &items[count..],
    )
}

impl<'a, T, const N: usize> AsChunks<'a, T, N> {
    /// Creates a view of one block, or of no block if `N` is zero.
    #[tactic(auto, using(crate::proofs::BlocksLemmas::blocks_one, crate::proofs::BlocksLemmas::whole_one))]
    pub fn from_ref(block: &'a [T; N]) -> Self
        ensures items { result.items.now ≡ block.now }
        ensures view { 0 < N → blocks N result.items.now ≡ block.now ∷ [] }
    {
        AsChunks {
            items: block.as_slice(),
        }
    }

    /// Returns the items of all blocks.
    #[tactic(auto, using(crate::proofs::BlocksLemmas::joined_blocks))]
    pub fn as_flattened(&self) -> &'a [T]
        ensures items { result.now ≡ self.now.items.now }
        ensures view { result.now ≡ joined (blocks N self.now.items.now) }
    {
        self.items
    }

    /// Returns `true` if the view has no items.
    pub fn is_empty(&self) -> bool
        ensures { IsTrue result ↔ (self.now.items.now ≡ []) }
    {
        self.items.is_empty()
    }

    /// Returns the number of blocks, which is 0 if `N` is zero.
    #[tactic(auto, using(crate::proofs::BlocksLemmas::length_blocks))]
    pub fn len(&self) -> usize
        ensures { result ≡ length (blocks N self.now.items.now) }
    {
        self.items.len().checked_div(N).unwrap_or(0)
    }
}

impl<T, const N: usize> Index<usize> for AsChunks<'_, T, N> {
    type Output = [T; N];

    ghost can_index = { λ v i. i < length (blocks N v.items.now) };

    ghost index_gives = { λ v i b. b ≡ slice_index_or (blocks N v.items.now) i b };

    #[tactic(auto, using(crate::proofs::BlocksLemmas::blocks_at, crate::proofs::BlocksLemmas::block_within, crate::proofs::BlocksLemmas::length_blocks))]
    fn index(&self, i: usize) -> &[T; N] {
        let start = i * N;
        let rest = &self.items[start..];
        match rest.first_chunk::<N>() {
            Some(block) => block,
            None => unreachable!(),
        }
    }
}

/// An iterator over the blocks of a view, in order.
#[derive(Drop)]
pub struct AsChunksIter<'a, T, const N: usize> {
    /// The items of the remaining blocks.
    pub items: &'a [T],
}

impl<'a, T, const N: usize> Iterator for AsChunksIter<'a, T, N> {
    type Item = &'a [T; N];

    ghost next_gives = { YieldsFirstRef (λ s. blocks N s.items.now) };

    ghost remaining = { item_count (λ s. blocks N s.items.now) };

    #[tactic(auto, using(crate::proofs::BlocksLemmas::length_blocks, crate::proofs::BlocksLemmas::blocks_none))]
    fn size_hint(&self) -> (usize, Option<usize>)
        ensures lower { IsWithinCount result.0 (at_most (length (blocks N self.now.items.now))) }
        ensures upper { IfSome result.1 (UpTo (at_most (length (blocks N self.now.items.now)))) }
        ensures exact { let count = length (blocks N self.now.items.now) in result ≡ (count, Some count) }
    {
        if N == 0 {
            return (0, Some(0));
        }
        let count = self.items.len() / N;
        (count, Some(count))
    }

    #[tactic(auto, using(crate::proofs::BlocksLemmas::blocks_cons, crate::proofs::BlocksLemmas::blocks_none, crate::proofs::BlocksLemmas::blocks_short, crate::proofs::BlocksLemmas::length_blocks))]
    fn next(&mut self) -> Option<&'a [T; N]> {
        if N == 0 {
            return None;
        }
        match self.items.split_first_chunk::<N>() {
            Some((block, rest)) => {
                self.items = rest;
                Some(block)
            }
            None => None,
        }
    }
}

impl<'a, T, const N: usize> IntoIterator for AsChunks<'a, T, N> {
    type Item = &'a [T; N];

    type IntoIter = AsChunksIter<'a, T, N>;

    ghost into_iter_gives = { λ v i. i.items.now ≡ v.items.now };

    fn into_iter(self) -> AsChunksIter<'a, T, N> {
        AsChunksIter { items: self.items }
    }
}

impl<'a, T, const N: usize> From<&'a [T; N]> for AsChunks<'a, T, N> {
    ghost from_gives = { λ b v. v.items.now ≡ b.now };

    fn from(block: &'a [T; N]) -> Self {
        AsChunks::from_ref(block)
    }
}

/// Views each block of 8 items as two blocks of 4.
impl<'a, T> From<AsChunks<'a, T, 8>> for AsChunks<'a, T, 4> {
    ghost from_gives = { λ b v. v.items.now ≡ b.items.now };

    fn from(view: AsChunks<'a, T, 8>) -> Self {
        AsChunks { items: view.items }
    }
}
