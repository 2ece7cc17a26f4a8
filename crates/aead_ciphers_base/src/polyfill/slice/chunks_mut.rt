//! Views of a slice as whole blocks, for writing.

ghost use Rattle.std.specs.Prelude.{◌≡◌, ◌*◌, ◌/◌, ◌%◌, ◌<◌, ◌≤◌, ◌^◌, IfSome, MatchOption, drop, length, take};
ghost use Rattle.std.specs.Borrow.{sem};
ghost use Rattle.std.specs.Iterator.{UpTo, at_most};
ghost use Rattle.std.specs.Iterator.SizeHint.{IsWithinCount};
ghost use Rattle.std.specs.Slice.Iter.{chunks_mut_rest, chunks_mut_size};
ghost use Rattle.aead_ciphers_base.specs.Blocks.{blocks, joined};
ghost use Rattle.aead_ciphers_base.specs.ChunksMut.{IsNextPart, LendsInTwo, parts_left};

use super::AsChunks;

/// Splits a slice after the first `count` blocks of `N` items.
fn split_after_blocks<T, const N: usize>(items: &mut [T], count: usize) -> (&mut [T], &mut [T])
    requires { count * N ≤ length items.old }
    ensures* writes_back { sem 𝓛 (LendsInTwo T.row items.entry result) }
    ensures front { result.0.now ≡ take (count * N) items.old }
    ensures back { result.1.now ≡ drop (count * N) items.old }
{
    items.split_at_mut(count * N)
}

/// Splits a slice after as many whole blocks of `N` items as fit.
fn split_after_whole_blocks<T, const N: usize>(items: &mut [T]) -> (&mut [T], &mut [T])
    requires { 0 < N }
    ensures* writes_back { sem 𝓛 (LendsInTwo T.row items.entry result) }
    ensures whole { result.0.now ≡ take (length items.old / N * N) items.old }
    ensures rest { result.1.now ≡ drop (length items.old / N * N) items.old }
{
    let count = items.len() / N;
    split_after_blocks::<T, N>(items, count)
}

/// Splits a slice into a view of as many whole blocks of `N` items as fit, and the fewer than `N` items
/// after them.
///
/// # Examples
///
/// ```
/// use aead_ciphers_base::polyfill::slice::as_chunks_mut;
///
/// let mut items = [1, 2, 3, 4, 5, 6, 7];
/// let (mut view, rest) = as_chunks_mut::<_, 2>(&mut items);
/// assert_eq!(rest, [7]);
///
/// let (mut before, after) = view.split_at_mut(2);
/// assert_eq!(after.as_flattened(), [5, 6]);
/// before.as_flattened_mut().fill(0);
/// assert_eq!(items, [0, 0, 0, 0, 5, 6, 7]);
/// ```
pub fn as_chunks_mut<T, const N: usize>(items: &mut [T]) -> (AsChunksMut<'_, T, N>, &mut [T])
    requires { 0 < N }
    ensures* writes_back { sem 𝓛 (LendsInTwo T.row items.entry (result.0.items, result.1)) }
    ensures view { blocks N result.0.items.now ≡ blocks N items.old }
    ensures whole { result.0.items.now ≡ take (length items.old / N * N) items.old }
    ensures rest { result.1.now ≡ drop (length items.old / N * N) items.old }
    ensures short { length result.1.now < N }
{
    let (whole, rest) = split_after_whole_blocks::<T, N>(items);
    (AsChunksMut { items: whole }, rest)
}

/// A mutable view of a slice as whole blocks of `N` items.
#[derive(Drop)]
pub struct AsChunksMut<'a, T, const N: usize> {
    /// The items of all blocks.
    pub items: &'a mut [T],
    pub ghost whole: { length items.now % N ≡ 0 },
}

/// Reborrows the blocks for reading.
impl<'a, 'b, T, const N: usize> From<&'a AsChunksMut<'b, T, N>> for AsChunks<'a, T, N> {
    ghost from_gives = { λ m v. v.items.now ≡ m.now.items.now };

    fn from(view: &'a AsChunksMut<'b, T, N>) -> Self {
        AsChunks { items: view.items }
    }
}

impl<'a, T, const N: usize> AsChunksMut<'a, T, N> {
    ghost use Rattle.aead_ciphers_base.specs.AsChunksMut.{KeepsCount, LendsItems, LendsParts};

    /// Returns the items of all blocks.
    #[tactic(auto, using(crate::proofs::BlocksLemmas::joined_blocks))]
    pub fn as_flattened(&self) -> &[T]
        ensures items { result.now ≡ self.now.items.now }
        ensures view { result.now ≡ joined (blocks N self.now.items.now) }
    {
        self.items
    }

    /// Returns the items of all blocks, for writing.
    pub fn as_flattened_mut(&mut self) -> &mut [T]
        ensures* writes_back { sem 𝓛 (LendsItems T.row N.row self.entry result) }
        ensures items { result.now ≡ self.old.items.now }
    {
        self.items
    }

    /// Reborrows the blocks for writing.
    pub fn as_mut(&mut self) -> AsChunksMut<'_, T, N>
        ensures* writes_back { sem 𝓛 (LendsItems T.row N.row self.entry result.items) }
        ensures items { result.items.now ≡ self.old.items.now }
    {
        AsChunksMut {
            items: self.as_flattened_mut(),
        }
    }

    /// Reborrows the blocks for reading.
    pub fn as_ref(&self) -> AsChunks<'_, T, N>
        ensures { result.items.now ≡ self.now.items.now }
    {
        AsChunks::from(self)
    }

    /// Divides the view in two: the first `mid` blocks, and the blocks after them.
    pub fn split_at_mut(&mut self, mid: usize) -> (AsChunksMut<'_, T, N>, AsChunksMut<'_, T, N>)
        requires { mid ≤ length (blocks N self.old.items.now) }
        ensures* writes_back { sem 𝓛 (LendsParts T.row N.row self.entry result.0.items result.1.items) }
        ensures before { blocks N result.0.items.now ≡ take mid (blocks N self.old.items.now) }
        ensures after { blocks N result.1.items.now ≡ drop mid (blocks N self.old.items.now) }
        ensures front { result.0.items.now ≡ take (mid * N) self.old.items.now }
        ensures back { result.1.items.now ≡ drop (mid * N) self.old.items.now }
    {
        let (before, after) = split_after_blocks::<T, N>(self.as_flattened_mut(), mid);
        (AsChunksMut { items: before }, AsChunksMut { items: after })
    }

    /// Returns an iterator over views of `CHUNK_LEN` blocks each, in order. The last may have fewer.
    pub fn chunks_mut<const CHUNK_LEN: usize>(&mut self) -> AsChunksMutChunksMutIter<'_, T, N>
        requires some { 0 < CHUNK_LEN }
        requires fits { CHUNK_LEN * N < 2 ^ 64 }
        ensures* kept { sem 𝓛 (KeepsCount T.row N.row self.entry) }
        ensures rest { chunks_mut_rest result.chunks ≡ self.old.items.now }
        ensures size { 0 < N → chunks_mut_size result.chunks ≡ CHUNK_LEN * N }
    {
        chunks_of_blocks::<T, N, CHUNK_LEN>(self.as_flattened_mut())
    }
}

/// Returns an iterator over views of `CHUNK_LEN` blocks each of a slice of whole blocks, in order.
#[tactic(auto, using(crate::proofs::BlocksLemmas::whole_size))]
fn chunks_of_blocks<T, const N: usize, const CHUNK_LEN: usize>(
    items: &mut [T],
) -> AsChunksMutChunksMutIter<'_, T, N>
    requires some { 0 < CHUNK_LEN }
    requires fits { CHUNK_LEN * N < 2 ^ 64 }
    requires whole { length items.old % N ≡ 0 }
    ensures rest { chunks_mut_rest result.chunks ≡ items.old }
    ensures size { 0 < N → chunks_mut_size result.chunks ≡ CHUNK_LEN * N }
{
    // At least 1, since std's `chunks_mut` takes no size of 0, and `N` may be zero.
    let size = (CHUNK_LEN * N).max(1);
    AsChunksMutChunksMutIter {
        chunks: items.chunks_mut(size),
    }
}

/// The iterator that `AsChunksMut::chunks_mut` returns.
#[derive(Drop)]
pub struct AsChunksMutChunksMutIter<'a, T, const N: usize> {
    /// The remaining items, in chunks of whole blocks.
    pub chunks: std::slice::ChunksMut<'a, T>,
    pub ghost some: { 0 < chunks_mut_size chunks },
    pub ghost whole_size: { 0 < N → chunks_mut_size chunks % N ≡ 0 },
    pub ghost whole_rest: { length (chunks_mut_rest chunks) % N ≡ 0 },
}

impl<'a, T, const N: usize> Iterator for AsChunksMutChunksMutIter<'a, T, N> {
    type Item = AsChunksMut<'a, T, N>;

    ghost next_gives = { λ s r t. (chunks_mut_size t.chunks ≡ chunks_mut_size s.chunks)
        × MatchOption r
        ((length (chunks_mut_rest s.chunks) ≡ 0) × (length (chunks_mut_rest t.chunks) ≡ 0))
        (λ v. IsNextPart (chunks_mut_size s.chunks)
        (chunks_mut_rest s.chunks) v.items.now (chunks_mut_rest t.chunks)) };

    ghost remaining = { λ s. at_most (parts_left s.chunks) };

    fn size_hint(&self) -> (usize, Option<usize>)
        ensures lower { IsWithinCount result.0 (at_most (parts_left self.now.chunks)) }
        ensures upper { IfSome result.1 (UpTo (at_most (parts_left self.now.chunks))) }
        ensures exact { let count = parts_left self.now.chunks in result ≡ (count, Some count) }
    {
        let count = self.chunks.len();
        (count, Some(count))
    }

    fn next(&mut self) -> Option<AsChunksMut<'a, T, N>> {
        match self.chunks.next() {
            Some(items) => Some(AsChunksMut { items }),
            None => None,
        }
    }
}
