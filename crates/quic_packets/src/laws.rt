//! Laws: functions with an empty body, whose contracts are theorems about the other contracts of this crate. Nobody needs to
//! call them.

ghost use Rattle.std.specs.Prelude.{◌≡◌, ◌≢◌, ℕ, ◌+◌, ◌*◌, ◌%◌, ◌^◌, ◌<◌, ◌≤◌, List, ◌++◌, length, slice_index, flat_map, All, AllPairs, Contains, IsFalse, IsTrue, Result, Some, ◌↔◌};
ghost use Rattle.std.specs.Int.Digits.{number_from_digits};
ghost use Rattle.aead_ciphers.specs.Counting.{xored_nonce};
ghost use Rattle.aead_ciphers.specs.Packet.{PacketFits, sealed_packet};
ghost use Rattle.key_derivation.specs.Quic.{QuicSecretState};
ghost use Rattle.quic_packets.specs.Datagram.{packet_of};
ghost use Rattle.quic_packets.specs.Header.{HasSample, Protected, Unprotected, number_len};
ghost use Rattle.quic_packets.specs.Exchange.{Counts, Follows, GivesBack, HasSent, Holds, Life, Sent, WasSentInPhase, updates_before};
ghost use Rattle.quic_packets.specs.HeaderBytes.{HasLongParts, HasShortParts, IsLongHeader, IsShortHeader, length_of, long_header, short_header};
ghost use Rattle.quic_packets.specs.Laws.{OpensTo};
ghost use Rattle.quic_packets.specs.Keys.{PacketKey as PacketKeyState, secret_key};
ghost use Rattle.quic_packets.specs.Numbers.{InWindow, IsAbove, IsDecoded, Represents, expected, unacknowledged};
ghost use Rattle.quic_packets.specs.Sending.{IsInTurn, IsSealable, Runs, SenderRefuses, after_acknowledgement, header_version, is_unsent};
ghost use Rattle.quic_packets.specs.Space.{Space as SpaceState};
ghost use Rattle.quic_packets.specs.Versions.{is_other_version};
ghost use Rattle.quic_packets.specs.Packet.{HasNumber, IsNumber, low_bytes};
ghost use Rattle.quic_packets.specs.Receiving.{EarlyRefuses, IsAcceptable, IsAuthentic, IsReadable, Outcome, ReadRefuses, Reads, Receiver as ReceiverState, of_packet};
ghost use Rattle.quic_packets.specs.Secrets.{ReceiverOf, SenderOf, secret_after};
ghost use Rattle.quic_packets.specs.declared.datagram.Packet.{Packet};
ghost use Rattle.quic_packets.specs.declared.receive_error.ReceiveError.{ReceiveError};
ghost use Rattle.quic_packets.specs.declared.receiver.Received.{Received};
ghost use Rattle.quic_packets.specs.declared.send_error.SendError.{SendError};

use crate::datagram::Packet;
use crate::failures::Failures;
use crate::fixed_bit::FixedBit;
use crate::header::HeaderKey;
use crate::header_writer::{LongHeader, ShortHeader};
use crate::key::PacketKey;
use crate::receiver::Receiver;
use crate::sender::Sender;
use crate::space::Space;
use std::ops::Range;

/// Unprotecting a protected header restores it, for every packet and key (RFC 9001 section 5.4).
#[tactic(auto, using(crate::proofs::HeaderLemmas::unprotected_back))]
pub fn unprotect_undoes_protect(key: &HeaderKey, packet: &[u8], number_at: usize)
    requires { HasSample number_at (length packet.now) }
    ensures { (wire back : List ℕ) → Protected key.now number_at packet.now wire
        → Unprotected key.now number_at wire back → back ≡ packet.now }
{}

/// Opening a sealed packet restores it, for every packet, number, key and IV (RFC 9001 section 5.3).
pub fn open_undoes_seal(
    sealing: &PacketKey,
    opening: &PacketKey,
    number: u64,
    packet: &[u8],
    header_len: usize,
)
    requires key { opening.now.bytes ≡ sealing.now.bytes }
    requires iv { opening.now.iv ≡ sealing.now.iv }
    ensures { PacketFits header_len (length packet.now)
        → OpensTo opening.now number header_len (sealed_packet sealing.now.bytes
        (xored_nonce sealing.now.iv number) header_len packet.now) packet.now }
{}

/// Sealing, protecting, unprotecting and opening a packet restores it, for every packet, number, key and IV: the unprotected
/// header gives its own end, and the packet then opens (RFC 9001 sections 5.3 and 5.4).
pub fn packet_comes_back(
    sealing: &PacketKey,
    opening: &PacketKey,
    header_key: &HeaderKey,
    number: u64,
    packet: &[u8],
    number_at: usize,
    header_len: usize,
)
    requires key { opening.now.bytes ≡ sealing.now.bytes }
    requires iv { opening.now.iv ≡ sealing.now.iv }
    ensures { PacketFits header_len (length packet.now)
        → HasNumber number_at header_len packet.now → HasSample number_at (length packet.now)
        → (wire back : List ℕ) → Protected header_key.now number_at (sealed_packet
        sealing.now.bytes (xored_nonce sealing.now.iv number) header_len packet.now) wire
        → Unprotected header_key.now number_at wire back → HasNumber number_at header_len back
        × OpensTo opening.now number header_len back packet.now }
{}

/// A packet number in the window of `len` bytes around the expected one is decoded correctly. Away from the first and the last
/// numbers, only a number in the window is (RFC 9000 appendix A.3).
#[tactic(auto, using(crate::proofs::NumberLemmas::back))]
pub fn decoded_in_window(number: u64, largest_received: Option<u64>, len: usize)
    requires { IsNumber number }
    ensures right { (decoded : ℕ) → IsDecoded (expected largest_received) (number % 2 ^ (8 * len)) len decoded
        → InWindow (expected largest_received) len number → decoded ≡ number }
    ensures wrong { (decoded : ℕ) → IsDecoded (expected largest_received) (number % 2 ^ (8 * len)) len decoded
        → 2 ^ (8 * len) ≤ number → IsNumber (number + 2 ^ (8 * len)) → decoded ≡ number
        → InWindow (expected largest_received) len number }
{}

/// A packet number whose encoding represents its range is in the window of every receiver that has received what it
/// acknowledged, and no number so far above this one that the window has moved past it. Such a receiver decodes it correctly
/// (RFC 9000 section 17.1).
pub fn decoded_as_sent(
    number: u64,
    largest_acknowledged: Option<u64>,
    largest_received: Option<u64>,
    len: usize,
)
    requires number { IsNumber number }
    requires above { IsAbove number largest_acknowledged }
    requires represents { Represents len (unacknowledged number largest_acknowledged) }
    requires received { expected largest_acknowledged ≤ expected largest_received }
    requires late { 2 * expected largest_received < 2 * number + 2 ^ (8 * len) }
    ensures window { InWindow (expected largest_received) len number }
    ensures right { (decoded : ℕ) → IsDecoded (expected largest_received) (number % 2 ^ (8 * len)) len decoded
        → decoded ≡ number }
{}

/// The bytes of a number that `Sender::send` writes to the header are its low bits in network byte order (RFC 9000 section
/// 17.1).
#[tactic(auto, using(crate::proofs::NumberBytes::number_low_bytes))]
pub fn low_bytes_are_low_bits(number: u64, len: usize)
    requires { (0 < len) × (len ≤ 4) }
    ensures { number_from_digits 256 (low_bytes len number) ≡ number % 2 ^ (8 * len) }
{}

/// A sender has one reason to refuse a packet, and none if it sends it: whichever error `Sender::send` returns, the reasons of
/// the others don't hold.
#[tactic(auto, using(crate::proofs::RefusalLemmas::one, crate::proofs::RefusalLemmas::none))]
pub fn one_reason_to_refuse(
    sender: &Sender,
    fixed_bit: FixedBit,
    packet: &[u8],
    number: Range<usize>,
)
    ensures one { (e f : SendError) → SenderRefuses sender.now fixed_bit number.start number.end packet.now e
        → SenderRefuses sender.now fixed_bit number.start number.end packet.now f → e ≡ f }
    ensures none { (e : SendError) → SenderRefuses sender.now fixed_bit number.start number.end packet.now e
        → ¬ (IsSealable sender.now.version fixed_bit number.start number.end packet.now
        × IsInTurn sender.now number.start number.end) }
{}

/// A receiver has one reason to reject a packet, and none if it receives it: whichever error `Receiver::receive` returns, the
/// reasons of the others don't hold.
#[tactic(auto, using(crate::proofs::RefusalLemmas::one_early, crate::proofs::RefusalLemmas::not_readable, crate::proofs::RefusalLemmas::one_late, crate::proofs::RefusalLemmas::not_received))]
pub fn one_reason_to_reject(receiver: &Receiver, failures: &Failures, parts: &Packet, len: usize)
    ensures early { (e f : ReceiveError) → EarlyRefuses receiver.now failures.now parts.now len e
        → EarlyRefuses receiver.now failures.now parts.now len f → e ≡ f }
    ensures read { (e : ReceiveError) → EarlyRefuses receiver.now failures.now parts.now len e
        → ¬ IsReadable receiver.now failures.now parts.now len }
    ensures late { (s : SpaceState) → (start number_at : ℕ) → (plain : List ℕ) → (number : ℕ) → (e f : ReceiveError)
        → ReadRefuses receiver.now s start number_at plain number e
        → ReadRefuses receiver.now s start number_at plain number f → e ≡ f }
    ensures received { (s : SpaceState) → (start number_at : ℕ) → (plain : List ℕ) → (number : ℕ) → (e : ReceiveError)
        → ReadRefuses receiver.now s start number_at plain number e
        → ¬ (IsAuthentic receiver.now number_at plain number
        × IsAcceptable receiver.now s (slice_index plain 0) (of_packet start number_at plain number)) }
{}

/// Over every run of calls of one sender, the packet numbers that it seals under increase over all of its keys together, so no
/// pair of key and number is used twice (RFC 9000 section 12.3, RFC 9001 section 5.3). Under each key there are at most as many
/// packets as its limit, if all of its keys differ (RFC 9001 section 6.6).
pub fn no_number_twice_over_keys(first: &Sender, last: &Sender)
    ensures fresh { (by_key : List (List ℕ)) → Runs first.now last.now by_key
        → AllPairs (λ m n. m < n) (flat_map (λ numbers. numbers) by_key) }
    ensures limited { (by_key : List (List ℕ)) → Runs first.now last.now by_key
        → All (λ numbers. length numbers ≤ first.now.limit) by_key }
{}

/// An acknowledgment allows the next key update only if the packet with its number was sent, and in the current key phase (RFC
/// 9001 section 6.1). This holds over every run of sends, skips and key updates of the sender.
pub fn acknowledged_was_sent(sender: &Sender)
    ensures { (life : Life) → (sent : List Sent) → (number : ℕ) → HasSent sender.now life sent
        → IsFalse sender.now.acknowledged → IsFalse (is_unsent sender.now number)
        → IsTrue (after_acknowledgement sender.now number).acknowledged
        → WasSentInPhase life sent number }
{}

/// An acknowledgment of a packet that was sent is not taken for one of a packet that was not sent (RFC 9000 section 13.1). This
/// holds over every run of sends, skips and key updates of the sender.
pub fn sent_is_acknowledged(sender: &Sender)
    ensures { (life : Life) → (sent : List Sent) → (packet : Sent) → HasSent sender.now life sent
        → Contains sent packet → IsFalse (is_unsent sender.now packet.number) }
{}

/// A packet that was sent is of the current key phase, after all key updates, exactly if its number is not below the first number
/// of the phase. This holds over every run of sends, skips and key updates of the sender.
pub fn sent_in_phase(sender: &Sender)
    ensures { (life : Life) → (sent : List Sent) → (packet : Sent) → HasSent sender.now life sent
        → Contains sent packet → (updates_before life.updates packet.number ≡ length life.updates)
        ↔ (sender.now.first_of_phase ≤ packet.number) }
{}

/// A packet that was sent isn't of another version for a receiver of the sender's version, where its number comes after the
/// version, as in each header of RFC 9000 section 17.2. This holds over every run of sends, skips and key updates of the sender.
pub fn sent_in_version(sender: &Sender)
    ensures { (life : Life) → (sent : List Sent) → (packet : Sent) → HasSent sender.now life sent
        → Contains sent packet → 5 ≤ packet.number_at
        → IsFalse (is_other_version sender.now.version (header_version packet.wire)) }
{}

/// A receiver returns every packet that a sender sent, as it was sent (RFC 9001 sections 5 and 6).
///
/// This holds over every run of sends, skips and key updates of the sender, for a receiver that is given its keys in their
/// order, as long as the receiver holds the packet's key and the number is in the window around the expected one. Packets may
/// arrive in any order and any number of times: the first time, the packet is received, with its number, its header and its
/// payload; after that, it is a duplicate. `plain`, `number`, `result`, `after` and `opened` are those of `Receiver::receive`.
pub fn received_as_sent<const W: usize>(sender: &Sender, receiver: &Receiver, space: &Space<W>)
    requires { receiver.now.header ≡ sender.now.header_key }
    ensures { (life : Life) → (sent : List Sent) → (updates : ℕ) → (packet : Sent) → (plain opened : List ℕ) → (number : ℕ)
        → (result : Result Received ReceiveError) → (after : ReceiverState)
        → HasSent sender.now life sent → Contains sent packet → Follows life sent receiver.now updates
        → Holds receiver.now updates life packet
        → InWindow space.now.next (number_len (slice_index packet.packet 0)) packet.number
        → Reads receiver.now.header space.now.next packet.number_at packet.wire plain number
        → (start : ℕ) → Outcome receiver.now space.now start packet.number_at plain number result after opened
        → GivesBack space.now start packet result opened }
{}

/// A long header that is written is parsed as it was given, with what follows it: its type, its connection IDs and its token, the
/// packet number after it, and the end of the packet by Length (RFC 9000 sections 17.2.2 to 17.2.4).
pub fn long_header_is_parsed(header: &LongHeader<'_>, connection_id_len: usize, fixed_bit: FixedBit)
    requires { IsLongHeader header.now }
    ensures { (rest : List ℕ) → length_of header.now ≤ length rest → (packet : Packet)
        × (packet_of fixed_bit connection_id_len (long_header header.now ++ rest) 0 ≡ Ok packet)
        × HasLongParts header.now (long_header header.now ++ rest) packet }
{}

/// A short header that is written is parsed as it was given, with what follows it. The packet is the rest of the datagram (RFC
/// 9000 section 17.3.1).
pub fn short_header_is_parsed(header: &ShortHeader<'_>, fixed_bit: FixedBit)
    requires { IsShortHeader header.now }
    ensures { (rest : List ℕ) → (packet : Packet)
        × (packet_of fixed_bit (length header.now.destination_id.now) (short_header header.now ++ rest) 0 ≡ Ok packet)
        × HasShortParts header.now (short_header header.now ++ rest) packet }
{}

/// A sender and a receiver that are made of one secret hold the same keys after the same number of key updates, those of the
/// secret after as many steps of `quic ku`, or of `quicv2 ku` in version 2, and keep its version. The receiver's next key, if it
/// is set, is that of one step more (RFC 9001 sections 5.1 and 6.1).
pub fn one_secret(sender: &Sender, receiver: &Receiver)
    ensures same { (secret : QuicSecretState) → (updates : ℕ) → SenderOf secret sender.now updates
        → ReceiverOf secret receiver.now updates → (sender.now.key ≡ secret_key (secret_after secret updates))
        × (receiver.now.current ≡ sender.now.key) × (receiver.now.header ≡ sender.now.header_key) }
    ensures version { (secret : QuicSecretState) → (updates : ℕ) → SenderOf secret sender.now updates
        → ReceiverOf secret receiver.now updates → (sender.now.version ≡ secret.version)
        × (receiver.now.version ≡ secret.version) }
    ensures next { (secret : QuicSecretState) → (updates : ℕ) → (key : PacketKeyState) → ReceiverOf secret receiver.now updates
        → receiver.now.next ≡ Some key → key ≡ secret_key (secret_after secret (updates + 1)) }
{}

/// The parts of a packet depend on the bytes from its first one on alone. So `Receiver::receive`, which changes no byte outside
/// its packet, leaves each later packet of the datagram as it came (RFC 9000 section 12.2).
pub fn parts_of_its_bytes(
    datagram: &[u8],
    changed: &[u8],
    start: usize,
    connection_id_len: usize,
    fixed_bit: FixedBit,
)
    requires len { length changed.now ≡ length datagram.now }
    requires same { (i : ℕ) → start ≤ i → slice_index changed.now i ≡ slice_index datagram.now i }
    ensures { packet_of fixed_bit connection_id_len changed.now start
        ≡ packet_of fixed_bit connection_id_len datagram.now start }
{}

/// Over every run of packets that are received in one space, no number is received twice (RFC 9000 section 12.3).
pub fn no_number_received_twice<const W: usize>(space: &Space<W>)
    ensures { (numbers : List ℕ) → Counts space.now numbers → AllPairs (λ m n. m ≢ n) numbers }
{}
