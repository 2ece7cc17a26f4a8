//! A client that reads handshake messages. After the server's Finished, it takes the messages that may come after the handshake
//! (RFC 8446 section 4.6).

ghost use Rattle.std.specs.Prelude.{◌≡◌, ◌↔◌, ◌⊎◌, ◌++◌, [], ◌∷◌, ℕ, List, cond, slice_index, Err, IsTrue, IsOk, IsErr, IfOk, IfErr};
ghost use Rattle.tls_messages.specs.Messages.{messages_of};
ghost use Rattle.tls_messages.specs.Steps.{Leaves};

use tls_messages::message_type::FINISHED;
use tls_messages::{MessageError, MessageReader, Stage};

/// Takes the next message of a server's handshake. If it is the Finished, the reader continues with the messages that may come
/// after the handshake, and the result is true. Returns false after any other message, and if the content ends before the message.
pub fn take_finished(
    messages: &mut MessageReader<'_>,
    content: &mut &[u8],
) -> Result<bool, MessageError>
    ensures finished { IfOk result (λ is_finished. IsTrue is_finished
        ↔ ((message : List ℕ) × (later : List (List ℕ)) × (slice_index message 0 ≡ 20)
        × (messages_of (messages.old.part ++ content.old.now) ≡ message ∷ later))) }
    ensures taken { IsOk result
        → ((content.new.now ≡ []) × (messages_of (messages.old.part ++ content.old.now) ≡ []))
        ⊎ ((message : List ℕ)
        × (messages_of (messages.old.part ++ content.old.now) ≡ message ∷ messages_of content.new.now)) }
    ensures allowed { IfOk result (λ is_finished. messages.new.stage
        ≡ cond is_finished Stage.Client messages.old.stage) }
    ensures refused { IfErr result (λ error.
        Leaves messages.old content.old.now (Err error) content.new.now messages.new) }
    ensures closes { IsErr result ↔ IsTrue messages.new.is_closed }
{
    let Some(message) = messages.next(content)? else {
        return Ok(false);
    };
    if message[0] != FINISHED {
        return Ok(false);
    }
    messages.set_stage(Stage::Client);
    Ok(true)
}
