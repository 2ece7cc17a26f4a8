//! The trait `Chunk`, of arrays that stand for a fixed number of items of a slice, and closures that map one of them.

ghost use Rattle.std.specs.Prelude.{◌≡◌, ◌↔◌, ℕ, ◌+◌, ◌≤◌, List, IsSome, IfSome, drop, length, take};
ghost use Rattle.aead_ciphers_base.specs.Overlapping.{MapsChunk, TakesChunk};

/// A chunk of a fixed number of items: `[T; N]`.
///
/// Calls that take a closure over chunks are generic over this trait, since a bound such as
/// `FnOnce(&[T; N]) -> [T; N]` may not name a const parameter.
pub trait Chunk<T>: Sized {
    ghost chunk_items: { Self → List T };

    ghost chunk_len: { ℕ };

    /// Returns the number of items in a chunk.
    fn chunk_len() -> usize
        ensures { result ≡ chunk_len };

    /// Returns the items as a chunk, or `None` if their number is not that of a chunk.
    fn of(items: &[T]) -> Option<&Self>
        ensures found { IsSome result ↔ (length items.now ≡ chunk_len) }
        ensures same { IfSome result (λ c. chunk_items c.now ≡ items.now) };

    /// Writes the items of the chunk to `to`, which is as long.
    fn put(self, to: &mut [T])
        requires { length to.old ≡ chunk_len }
        ensures { to.new ≡ chunk_items self };
}

impl<T: Drop, const N: usize> Chunk<T> for [T; N] {
    ghost chunk_items = { λ xs. xs };

    ghost chunk_len = { N };

    fn chunk_len() -> usize {
        N
    }

    fn of(items: &[T]) -> Option<&Self> {
        items.as_array::<N>()
    }

    fn put(self, to: &mut [T]) {
        match to.as_mut_array::<N>() {
            Some(place) => *place = self,
            None => unreachable!(),
        }
    }
}

/// Returns the chunk that starts at `start`.
pub(crate) fn chunk_at<T, C: Chunk<T>>(items: &[T], start: usize) -> &C
    requires { start + C.chunk_len ≤ length items.now }
    ensures { C.chunk_items result.now ≡ take C.chunk_len (drop start items.now) }
{
    let rest = &items[start..];
    match C::of(&rest[..C::chunk_len()]) {
        Some(chunk) => chunk,
        None => unreachable!(),
    }
}

/// Maps the chunk that starts at `start` with `f`, and writes the result to the front of the slice.
pub(crate) fn map_chunk<T, C: Chunk<T>, F: FnOnce(&C) -> C>(in_out: &mut [T], start: usize, f: F)
where
    T: Drop,
    requires callable { TakesChunk C.chunk_items F.FnOnce C.chunk_len f (drop start in_out.old) }
    requires room { start + C.chunk_len ≤ length in_out.old }
    ensures { MapsChunk C.chunk_items F.FnOnce C.chunk_len f in_out.old start in_out.new }
{
    let count = C::chunk_len();
    let output = f(chunk_at(in_out, start));
    let front = &mut in_out[..count];
    output.put(front);
}
