//! Laws of writing and reading: functions with empty bodies, whose contracts state what follows for their arguments.

ghost use Rattle.std.specs.Prelude.{◌≡◌, [], ◌∷◌, false, ℕ, ◌<◌, ◌≤◌, All, AllPairs, List, length, map};
ghost use Rattle.std.specs.List.{concat, range_with_len};
ghost use Rattle.aead_ciphers.specs.Runs.{Runs};
ghost use Rattle.records.specs.Content.{IsWritable, after_content, piece_room, pieces, record_count, records_of};
ghost use Rattle.records.specs.Joined.{Joins, Says, Token};
ghost use Rattle.records.specs.Keys.{Holds, ReaderState, WriterState, nth_secret, reader_of, writer_of};
ghost use Rattle.records.specs.Record.{Inner};
ghost use Rattle.records.specs.Runs.{Answer, Event, Follows, ReadStep, WriteStep, WriterRuns, as_asked, carries, updates_in};
ghost use Rattle.records.specs.declared.content_type.ContentType.{ContentType};
ghost use Rattle.tls_messages.specs.declared.stage.Stage.{Stage};

use crate::{Reader, Writer};
use key_derivation::Secret;

/// Reading restores what was written, for every list of contents and over key updates. Whatever calls of `write`, `seal` and
/// `update` made records of the contents, and whatever calls of `gather`, `read` and `update` read these records under the same
/// keys, each read returns its content and its type, and the reader ends in step with the writer.
#[tactic(auto, using(crate::proofs::RunLemmas::reading_undoes_writing))]
pub fn reading_undoes_writing(writer: &Writer, reader: &Reader)
    requires { Follows writer.now reader.now }
    ensures { (asked : List (Event Inner)) (sent : List (Event (List ℕ)))
        (read : List (Event Answer)) (written : WriterState) (stands : ReaderState)
        → Runs WriteStep writer.now written asked sent
        → Runs ReadStep reader.now stands sent read
        → (read ≡ map as_asked asked) × Follows written stands }
{}

/// Joined reading gives back what was written: application data as one stream of bytes, and each handshake message whole, in the
/// order between them, however records cut them. It rejects nothing that a writer is asked to write, where each message may come
/// (RFC 8446 section 4.6) and none is longer than the bound, and it knows from the messages when to continue with the next key.
#[tactic(auto, using(crate::proofs::JoinedLemmas::joining_undoes_writing))]
pub fn joining_undoes_writing(writer: &Writer, reader: &Reader)
    requires { Follows writer.now reader.now }
    ensures { (stage : Stage) (bound : ℕ) (asked : List (Event Inner)) (tokens : List Token)
        (sent : List (Event (List ℕ))) (read : List (Event Answer))
        (written : WriterState) (stands : ReaderState)
        → Says stage bound [] false asked tokens
        → Runs WriteStep writer.now written asked sent
        → Runs ReadStep reader.now stands sent read
        → Joins stage bound [] false read tokens }
{}

/// A content of any length that `write_content` or `seal_content` writes is written as by calls of `write`, one for each of its
/// pieces, which joined are the content. Their numbers are consecutive, so that `no_number_twice_under_a_key` holds of them.
#[tactic(auto, using(crate::proofs::ContentLemmas::runs, crate::proofs::ContentLemmas::joined, crate::proofs::ContentLemmas::numbers))]
pub fn content_is_written_in_pieces(writer: &Writer)
    ensures runs { (content_type : ContentType) (content : List ℕ) (padding : ℕ)
        → IsWritable writer.now content_type (length content) padding
        → Runs WriteStep writer.now (after_content writer.now padding (length content))
        (map carries (pieces content_type writer.now.key.size_limit padding content))
        (map carries (records_of writer.now content_type padding content)) }
    ensures joined { (content_type : ContentType) (content : List ℕ) (padding : ℕ)
        → IsWritable writer.now content_type (length content) padding
        → concat (map (λ inner. inner.content)
        (pieces content_type writer.now.key.size_limit padding content)) ≡ content }
    ensures numbers { (content_type : ContentType) (n padding : ℕ)
        → IsWritable writer.now content_type n padding
        → WriterRuns writer.now (after_content writer.now padding n)
        (range_with_len writer.now.number
        (record_count (piece_room writer.now.key.size_limit padding) n) ∷ []) }
{}

/// Reading gives back, in order, what was written of a content of any length: each of its pieces, under its type.
#[tactic(auto, using(crate::proofs::ContentLemmas::read_back))]
pub fn reading_undoes_writing_content(writer: &Writer, reader: &Reader)
    requires { Follows writer.now reader.now }
    ensures { (content_type : ContentType) (content : List ℕ) (padding : ℕ)
        (read : List (Event Answer)) (stands : ReaderState)
        → IsWritable writer.now content_type (length content) padding
        → Runs ReadStep reader.now stands
        (map carries (records_of writer.now content_type padding content)) read
        → (read ≡ map as_asked
        (map carries (pieces content_type writer.now.key.size_limit padding content)))
        × Follows (after_content writer.now padding (length content)) stands }
{}

/// Both ends of one secret agree after any number of updates. Whatever calls of `write`, `seal` and `update` followed
/// `Writer::from_secret`, and whatever calls of `gather`, `read` and `update` followed `Reader::from_secret`: after n updates
/// each holds the secret that is n updates after the first (RFC 8446 section 7.2), and its key and IV (section 7.3).
#[tactic(auto, using(crate::proofs::RunLemmas::writer_at_nth_secret, crate::proofs::RunLemmas::reader_at_nth_secret, crate::proofs::RunLemmas::ends_agree))]
pub fn ends_of_one_secret_agree(secret: &Secret)
    ensures writer { (asked : List (Event Inner)) (sent : List (Event (List ℕ)))
        (written : WriterState) → Runs WriteStep (writer_of secret.now) written asked sent
        → Holds (nth_secret secret.now (updates_in asked)) written.secret written.key }
    ensures reader { (sent : List (Event (List ℕ))) (read : List (Event Answer))
        (stands : ReaderState) → Runs ReadStep (reader_of secret.now) stands sent read
        → Holds (nth_secret secret.now (updates_in sent)) stands.secret stands.key }
    ensures agree { (asked : List (Event Inner)) (sent received : List (Event (List ℕ)))
        (read : List (Event Answer)) (written : WriterState) (stands : ReaderState)
        → Runs WriteStep (writer_of secret.now) written asked sent
        → Runs ReadStep (reader_of secret.now) stands received read
        → updates_in received ≡ updates_in asked
        → (stands.key.bytes ≡ written.key.bytes) × (stands.key.iv ≡ written.key.iv)
        × (stands.secret ≡ written.secret) }
{}

/// No pair of key and number is used twice, if all keys of the writer differ: over every run of its calls, the numbers that it
/// seals under increase from each update to the next, and are at most as many as its limit (RFC 8446 sections 5.3 and 5.5). An
/// `update_with` refuses the key and IV that the writer has, and knows none of those before.
pub fn no_number_twice_under_a_key(first: &Writer, last: &Writer)
    ensures fresh { (by_key : List (List ℕ)) → WriterRuns first.now last.now by_key
        → All (λ numbers. AllPairs (λ m n. m < n) numbers) by_key }
    ensures limited { (by_key : List (List ℕ)) → WriterRuns first.now last.now by_key
        → All (λ numbers. length numbers ≤ first.now.limit) by_key }
{}
