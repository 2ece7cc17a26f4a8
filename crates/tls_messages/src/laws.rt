//! A law of joining messages: a function with an empty body, whose contract states the law.

ghost use Rattle.std.specs.Prelude.{◌≡◌, ℕ, List, []};
ghost use Rattle.std.specs.List.{All, concat};
ghost use Rattle.tls_messages.specs.Messages.{messages_of, messages_read, IsMessage};

/// Whatever whole messages a stream has, and however it is cut into the contents of records, reading the contents gives the
/// messages, in order. Reading them gives the same messages as reading the stream in one piece.
#[tactic(auto, using(crate::proofs::StreamLemmas::cut_anywhere, crate::proofs::StreamLemmas::cut_whole))]
pub fn any_cutting()
    ensures whole { (messages contents : List (List ℕ)) → All IsMessage messages
        → concat contents ≡ concat messages → messages_read [] contents ≡ messages }
    ensures same { (contents : List (List ℕ)) → messages_read [] contents ≡ messages_of (concat contents) }
{}
