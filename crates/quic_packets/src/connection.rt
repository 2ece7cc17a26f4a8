//! One endpoint of a connection, client or server: it sends and receives the packets of each encryption level, updates the
//! keys, and counts the packets that fail authentication (RFC 9000 section 12, RFC 9001 sections 4.9, 5.7 and 6).
//!
//! The caller installs the secrets that TLS gives, writes headers and frames, and reports acknowledgments, the confirmation of
//! the handshake and the expiry of its timer.

ghost use Rattle.std.specs.Prelude.{◌≡◌, ◌-◌, ◌^◌, ◌<◌, ◌≤◌, ◌↔◌, ◌&&◌, false, true, min, length, if◌then◌else◌, Some, None, IsFalse, IsTrue, IsSome, IfSome, IsOk, IfOk, IfErr, IsErrOf, OnOk, OnErr};
ghost use Rattle.std.specs.Option.{option_copied};
ghost use Rattle.quic_packets.specs.Connection.{IsOwn, IsToOpen, IsUnopened, StepOutcome, after_sending, ends_of, is_discarded, is_one_rtt, kept_for_close_at, next_packet_at, receiver_of, sender_after, space_of, type_has_keys, update_after, updates_after, with_ends, with_receiver, with_sender};
ghost use Rattle.quic_packets.specs.Ends.{EndOutcome, Installs, after_discard, confirmed, forgotten, initiated, installed, is_confirmed, may_update, no_ends, prepared, sent};
ghost use Rattle.quic_packets.specs.Keys.{secret_header_key, secret_key};
ghost use Rattle.quic_packets.specs.Receiving.{ReceiveOutcome, new_receiver};
ghost use Rattle.quic_packets.specs.Sending.{IsUnanswered, after_acknowledgement, after_skip, is_unsent};
ghost use Rattle.quic_packets.specs.declared.fixed_bit.FixedBit.TheVariants.{Required};

mod ends;
mod incoming;

use crate::datagram::{DatagramError, Packet, PacketType, packet_at};
use crate::failures::Failures;
use crate::fixed_bit::FixedBit;
use crate::key_error::KeyError;
use crate::number_error::NumberError;
use crate::receive_error::ReceiveError;
use crate::receiver::{Received, Receiver};
use crate::send_error::SendError;
use crate::sender::{CONFIDENTIALITY_LIMIT, Sender};
use crate::space::Space;
use ends::Ends;
pub use ends::SentPacket;
pub use incoming::{Incoming, PeerUpdate, Step};
use incoming::{Attempt, step_or_close};
use key_derivation::quic::QuicSecret;
use std::marker::Model;
use std::ops::Range;

/// An encryption level with a packet number space of its own (RFC 9000 section 12.3). 0-RTT packets share the space of 1-RTT
/// packets.
#[derive(Clone, Copy, PartialEq, Eq, Debug)]
pub enum Level {
    /// Initial packets.
    Initial,
    /// Handshake packets.
    Handshake,
    /// 0-RTT and 1-RTT packets.
    OneRtt,
}

/// One endpoint of a connection. For each encryption level it has a sender and a receiver, once their keys are installed, and
/// the packet numbers that were received.
///
/// The window of each level has the `64 * W` numbers up to the largest that was received (see `Space`), where `W` is from 2 to
/// 64. A packet whose number is below the window is dropped as a duplicate, and the ranges of an ACK frame do not reach below
/// it.
///
/// After an error of `receive` or `acknowledged` with a code (`ReceiveError::code`, `NumberError::code`), the caller closes the
/// connection with that code.
#[derive(Drop)]
pub struct Connection<const W: usize> {
    initial: Ends<W>,
    handshake: Ends<W>,
    one_rtt: Ends<W>,
    zero_rtt: Option<Receiver>,
    /// Whether the keys of 0-RTT packets were discarded, or there never will be any, so that none can be installed.
    is_zero_rtt_discarded: bool,
    failures: Failures,
    limit: u64,
    /// What the fixed bit of a packet that arrives must be.
    fixed_bit: FixedBit,
    /// What the fixed bit of a packet that is sent must be.
    peer_fixed_bit: FixedBit,
}

impl<const W: usize> Model for Connection<W> {
    ghost use Rattle.quic_packets.specs.Connection.{Connection};

    ghost Value = { Connection };

    ghost view = { λ c. record {
      initial = c.initial;
      handshake = c.handshake;
      one_rtt = c.one_rtt;
      zero_rtt = c.zero_rtt;
      zero_rtt_discarded = c.is_zero_rtt_discarded;
      failures = c.failures;
      limit = c.limit;
      fixed_bit = c.fixed_bit;
      peer_fixed_bit = c.peer_fixed_bit;
    } };
}

impl<const W: usize> Connection<W> {
    /// Creates an endpoint without keys. Each key that is installed may seal 2^23 packets, and 2^52 packets may fail
    /// authentication (RFC 9001 section 6.6).
    ///
    /// `fixed_bit` is what the fixed bit of a packet that arrives must be: `Greased` if this endpoint sends the transport
    /// parameter `grease_quic_bit` (RFC 9287 section 3). The fixed bit of a packet that is sent must be 1 until
    /// `set_peer_fixed_bit` allows 0.
    pub fn new(fixed_bit: FixedBit) -> Self
        requires some { 2 ≤ W }
        requires few { W ≤ 64 }
        ensures { result ≡ record {
          initial = no_ends W;
          handshake = no_ends W;
          one_rtt = no_ends W;
          zero_rtt = None;
          zero_rtt_discarded = false;
          failures = record { count = 0; limit = 2 ^ 52 };
          limit = 2 ^ 23;
          fixed_bit = fixed_bit;
          peer_fixed_bit = Required;
        } }
    {
        Connection {
            initial: Ends::new(),
            handshake: Ends::new(),
            one_rtt: Ends::new(),
            zero_rtt: None,
            is_zero_rtt_discarded: false,
            failures: Failures::new(),
            limit: CONFIDENTIALITY_LIMIT,
            fixed_bit,
            peer_fixed_bit: FixedBit::Required,
        }
    }

    /// Lowers the number of packets that each key may seal to `limit`, for senders that are created after this call. A higher
    /// limit has no effect.
    pub fn with_limit(mut self, limit: u64) -> Self
        ensures { result ≡ record self.entry { limit = min self.entry.limit limit } }
    {
        self.limit = self.limit.min(limit);
        self
    }

    /// Lowers the limit on packets that fail authentication to `limit`. A higher limit has no effect.
    pub fn with_max_failures(mut self, limit: u64) -> Self
        ensures { result ≡ record self.entry {
          failures = record self.entry.failures { limit = min self.entry.failures.limit limit };
        } }
    {
        self.failures = self.failures.with_limit(limit);
        self
    }

    /// Sets what the fixed bit of a packet that is sent must be. It is `Required` at first. Set it to `Greased` once this
    /// endpoint has processed the peer's transport parameters and `grease_quic_bit` is one of them (RFC 9287 section 3.1). From
    /// then on the caller should choose the bit of each packet unpredictably, in the header that it passes to `send`:
    /// `LongHeader::write` and `ShortHeader::write` set the bit to 1.
    ///
    /// A client that has no transport parameters of the server yet may set `Greased` only if its Initial packets have the token
    /// of a NEW_TOKEN frame that it received within the last seven days, on a connection on which the server sent
    /// `grease_quic_bit`. A server may not rely on an earlier connection (section 3.1).
    pub fn set_peer_fixed_bit(&mut self, fixed_bit: FixedBit)
        ensures { self.new ≡ record self.old { peer_fixed_bit = fixed_bit } }
    {
        self.peer_fixed_bit = fixed_bit;
    }

    /// Returns what the fixed bit of a packet that is sent must be.
    pub fn peer_fixed_bit(&self) -> FixedBit
        ensures { result ≡ self.now.peer_fixed_bit }
    {
        self.peer_fixed_bit
    }

    /// Returns the number of packets that have failed authentication, over all levels and key updates.
    pub fn failures(&self) -> u64
        ensures { result ≡ self.now.failures.count }
    {
        self.failures.count()
    }

    /// Returns the sender of a level, or `None` if it has no keys. The sender tells the number of the next packet and its
    /// length (`Sender::next_number`, `next_number_len`).
    pub fn sender(&self, level: Level) -> Option<&Sender>
        ensures { option_copied result ≡ (ends_of self.now level).sender }
    {
        match level {
            Level::Initial => self.initial.sender(),
            Level::Handshake => self.handshake.sender(),
            Level::OneRtt => self.one_rtt.sender(),
        }
    }

    /// Returns the numbers that were received at a level, for an ACK frame (`Space::ranges`). They stay when the keys of the
    /// level are discarded.
    pub fn space(&self, level: Level) -> &Space<W>
        ensures { result.now ≡ (ends_of self.now level).space }
    {
        match level {
            Level::Initial => self.initial.space(),
            Level::Handshake => self.handshake.space(),
            Level::OneRtt => self.one_rtt.space(),
        }
    }

    /// Installs the keys with which a level sends. Its first packet has the number 0.
    ///
    /// If the level already has a sender, it continues with its numbers and its limit: a client's sender of 0-RTT packets
    /// becomes that of 1-RTT packets (RFC 9000 section 12.3), and its sender of Initial packets gets the keys of the connection
    /// ID that a Retry packet brings (section 17.2.5.3). The sender's version becomes that of the secret.
    ///
    /// Fails with `Discarded` if the keys of the level were discarded. The connection is then unchanged.
    pub fn install_sender(&mut self, level: Level, secret: QuicSecret) -> Result<(), KeyError>
        ensures installs { Installs (ends_of self.old level).discarded result self.old self.new
            (with_ends self.old level (record (ends_of self.old level) {
              sender = Some (installed (ends_of self.old level).sender secret self.old.limit);
            })) }
    {
        match level {
            Level::Initial => self.initial.install_sender(secret, self.limit),
            Level::Handshake => self.handshake.install_sender(secret, self.limit),
            Level::OneRtt => self.one_rtt.install_sender(secret, self.limit),
        }
    }

    /// Installs the keys that open the packets of a level, in place of those that it has. The numbers received stay. For 1-RTT
    /// packets the key after the next key update is set too, so that the peer may update once the handshake is confirmed (RFC
    /// 9001 section 6.1).
    ///
    /// Fails with `Discarded` if the keys of the level were discarded. The connection is then unchanged.
    pub fn install_receiver(&mut self, level: Level, secret: QuicSecret) -> Result<(), KeyError>
        ensures installs { let made = new_receiver secret.version (secret_header_key secret) (secret_key secret) (Some secret) in
            Installs (ends_of self.old level).discarded result self.old self.new
            (with_ends self.old level (record (ends_of self.old level) {
              receiver = if is_one_rtt level then prepared (Some made) else Some made;
            })) }
    {
        match level {
            Level::Initial => self.initial.install_receiver(secret),
            Level::Handshake => self.handshake.install_receiver(secret),
            Level::OneRtt => {
                self.one_rtt.install_receiver(secret)?;
                self.one_rtt.set_next_key();
                Ok(())
            }
        }
    }

    /// Installs the keys that open 0-RTT packets, which share the space of 1-RTT packets.
    ///
    /// Fails with `Discarded` after `discard_zero_rtt`. The connection is then unchanged.
    pub fn install_zero_rtt_receiver(&mut self, secret: QuicSecret) -> Result<(), KeyError>
        ensures installs { Installs self.old.zero_rtt_discarded result self.old self.new (record self.old {
          zero_rtt = Some (new_receiver secret.version (secret_header_key secret) (secret_key secret) (Some secret));
        }) }
    {
        if self.is_zero_rtt_discarded {
            return Err(KeyError::Discarded);
        }
        self.zero_rtt = Some(Receiver::from_secret(secret));
        Ok(())
    }

    /// Discards the keys of a level, for both directions (RFC 9001 sections 4.9.1 and 4.9.2). The numbers received stay.
    ///
    /// From then on the packets of the level are ignored, and no keys can be installed for it: a secret whose sender was
    /// discarded would begin its numbers anew. This is so even if the level never had keys.
    pub fn discard(&mut self, level: Level)
        ensures { self.new ≡ with_ends self.old level (after_discard (ends_of self.old level)) }
    {
        match level {
            Level::Initial => self.initial.discard(),
            Level::Handshake => self.handshake.discard(),
            Level::OneRtt => self.one_rtt.discard(),
        }
    }

    /// Discards the keys that open 0-RTT packets (RFC 9001 section 4.9.3). From then on these packets are ignored, and no keys
    /// can be installed for them. A server that accepts no 0-RTT packets calls this first of all, and so does a client, to
    /// which nobody sends any.
    pub fn discard_zero_rtt(&mut self)
        ensures { self.new ≡ record self.old { zero_rtt = None; zero_rtt_discarded = true } }
    {
        self.zero_rtt = None;
        self.is_zero_rtt_discarded = true;
    }

    /// Records that the handshake is confirmed: at a server when the handshake is complete, at a client when HANDSHAKE_DONE
    /// arrives (RFC 9001 section 4.1.2). It has no effect before the keys that send 1-RTT packets are installed.
    pub fn confirm_handshake(&mut self)
        ensures { self.new ≡ with_sender self.old (confirmed self.old.one_rtt.sender) }
    {
        self.one_rtt.confirm_handshake();
    }

    /// Drops the receiver's key of the previous phase, so that late packets of that phase are rejected. The caller's timer
    /// calls it three times the probe timeout after a packet of the current phase was received (RFC 9001 section 6.5).
    pub fn forget_previous(&mut self)
        ensures { self.new ≡ record self.old {
          one_rtt = record self.old.one_rtt { receiver = forgotten self.old.one_rtt.receiver };
        } }
    {
        self.one_rtt.forget_previous();
    }

    /// Initiates a key update, and drops the receiver's key of the previous phase (RFC 9001 sections 6.1 and 6.5). It keeps no
    /// time: the caller lets three times the probe timeout pass after an update is acknowledged before it initiates the next
    /// one, since late packets of the phase before would be rejected, and counted as failures (section 6.5).
    ///
    /// Fails with `HandshakeUnconfirmed` if the handshake is not confirmed or the keys of 1-RTT packets are not installed in
    /// both directions, and with `PhaseUnacknowledged` if there was an update and no packet of its phase is acknowledged yet.
    /// The connection is then unchanged.
    pub fn initiate_update(&mut self) -> Result<(), KeyError>
        ensures accepted { IsOk result ↔ IsTrue (may_update self.old.one_rtt) }
        ensures unconfirmed { IsErrOf result KeyError.HandshakeUnconfirmed
            ↔ ¬ IsTrue (is_confirmed self.old.one_rtt) }
        ensures unacknowledged { IsErrOf result KeyError.PhaseUnacknowledged
            ↔ (IsTrue (is_confirmed self.old.one_rtt) × ¬ IsTrue (may_update self.old.one_rtt)) }
        ensures initiated { OnOk result (self.new ≡ record self.old { one_rtt = initiated self.old.one_rtt }) }
        ensures kept { OnErr result (self.new ≡ self.old) }
    {
        self.one_rtt.initiate_update()
    }

    /// Leaves the numbers of a level below `number` unused, as `Sender::skip_to` does, so that `number` is that of its next
    /// packet. A peer that acknowledges one of them has not received it (RFC 9000 section 21.4), and `acknowledged` rejects that
    /// while the number is in one of the eight highest ranges of skipped numbers.
    ///
    /// Fails with `NoKeys` if the level has no sender, with `NumberUsed` if its next number is already above `number`, and with
    /// `NumbersEnded` if `number` is above 2^62. The connection is then unchanged.
    pub fn skip_to(&mut self, level: Level, number: u64) -> Result<(), NumberError>
        ensures no_keys { IsErrOf result NumberError.NoKeys ↔ ¬ IsSome (ends_of self.old level).sender }
        ensures used { IfSome (ends_of self.old level).sender (λ s. IsErrOf result NumberError.NumberUsed ↔ (number < s.next)) }
        ensures ended { IfSome (ends_of self.old level).sender (λ s. IsErrOf result NumberError.NumbersEnded
            ↔ (2 ^ 62 < number)) }
        ensures accepted { IfSome (ends_of self.old level).sender (λ s. IsOk result
            ↔ ((s.next ≤ number) × (number ≤ 2 ^ 62))) }
        ensures skipped { IfSome (ends_of self.old level).sender (λ s. OnOk result (self.new
            ≡ with_ends self.old level (record (ends_of self.old level) { sender = Some (after_skip s number) }))) }
        ensures kept { OnErr result (self.new ≡ self.old) }
    {
        match level {
            Level::Initial => self.initial.skip_to(number),
            Level::Handshake => self.handshake.skip_to(number),
            Level::OneRtt => self.one_rtt.skip_to(number),
        }
    }

    /// Records that the peer has acknowledged the packet of a level with this number, as `Sender::acknowledged_in` does.
    /// `phase` is the Key Phase bit of the packet that brought the acknowledgment (`Received::phase`).
    ///
    /// An ACK frame may name a range of 2^62 numbers. If the caller records the largest number first, a number that was never
    /// sent fails before the caller walks the range. A number that was recorded before need not be recorded again.
    ///
    /// Fails with `NoKeys` if the level has no sender, with `NeverSent` if the number was not sent, and with `UpdateUnanswered`
    /// if a packet of the current keys is acknowledged under older ones (RFC 9001 section 6.2). The connection is then
    /// unchanged, and has to be closed after the last two errors.
    pub fn acknowledged(
        &mut self,
        level: Level,
        number: u64,
        phase: bool,
    ) -> Result<(), NumberError>
        ensures no_keys { IsErrOf result NumberError.NoKeys ↔ ¬ IsSome (ends_of self.old level).sender }
        ensures never_sent { IfSome (ends_of self.old level).sender (λ s. IsErrOf result NumberError.NeverSent
            ↔ IsTrue (is_unsent s number)) }
        ensures unanswered { IfSome (ends_of self.old level).sender (λ s. IsErrOf result NumberError.UpdateUnanswered
            ↔ (IsFalse (is_unsent s number) × IsUnanswered s number phase)) }
        ensures accepted { IfSome (ends_of self.old level).sender (λ s. IsOk result
            ↔ (IsFalse (is_unsent s number) × ¬ IsUnanswered s number phase)) }
        ensures acknowledged { IfSome (ends_of self.old level).sender (λ s. OnOk result (self.new
            ≡ with_ends self.old level (record (ends_of self.old level) { sender = Some (after_acknowledgement s number) }))) }
        ensures kept { OnErr result (self.new ≡ self.old) }
    {
        match level {
            Level::Initial => self.initial.acknowledged(number, phase),
            Level::Handshake => self.handshake.acknowledged(number, phase),
            Level::OneRtt => self.one_rtt.acknowledged(number, phase),
        }
    }

    /// Sends a packet of a level, as `Sender::send` does, and returns its number and whether a key update followed it. The
    /// packet is the header, which ends with room for the number, the payload, and 16 bytes for the tag. The caller chooses its
    /// fixed bit if the peer allows 0, and sets it to 1 otherwise (see `set_peer_fixed_bit`). That the header's type is one of
    /// the level is the caller's responsibility.
    ///
    /// The number and the payload together have at least 4 bytes. The caller adds PADDING frames, which are zeros, to a shorter
    /// payload, such as that of a PING frame alone.
    ///
    /// After a 1-RTT packet, a key update is initiated, if `initiate_update` allows one, once the key may seal fewer than 2^16
    /// more packets and fewer than half of its limit. The receiver's next key is set as well, since the packet may bring the
    /// acknowledgment after which the peer may update (RFC 9001 section 6.1).
    ///
    /// Fails with `NoKeys` if the level has no sender, and with `KeyUsedUp` if the key may seal no more packets. While no key
    /// update may be initiated, it also fails with `KeyUsedUp` if the key may seal just one more packet, which is kept for
    /// `send_close`. Otherwise it fails as `Sender::send` does. The packet and the connection are then unchanged.
    pub fn send(
        &mut self,
        level: Level,
        packet: &mut [u8],
        number: Range<usize>,
    ) -> Result<SentPacket, SendError>
        ensures outcome { EndOutcome (ends_of self.old level).sender (kept_for_close_at self.old level) self.old.peer_fixed_bit
            number.start number.end packet.old packet.new result (updates_after level (ends_of self.old level))
            self.old self.new (λ s. with_ends self.old level (after_sending level (ends_of self.old level) s)) }
    {
        match level {
            Level::Initial => self.initial.send(packet, number, self.peer_fixed_bit, 1),
            Level::Handshake => self.handshake.send(packet, number, self.peer_fixed_bit, 1),
            Level::OneRtt => self
                .one_rtt
                .send_one_rtt(packet, number, self.peer_fixed_bit),
        }
    }

    /// Sends the packet that closes the connection, as `send` does, but up to the limit of the key and without a key update.
    /// The connection doesn't note that it is closed: the caller sends nothing else from then on (RFC 9000 section 10.2).
    ///
    /// Fails with `NoKeys` if the level has no sender, and with `KeyUsedUp` if the key may seal no more packets. Otherwise it
    /// fails as `Sender::send` does. The packet and the connection are then unchanged.
    pub fn send_close(
        &mut self,
        level: Level,
        packet: &mut [u8],
        number: Range<usize>,
    ) -> Result<SentPacket, SendError>
        ensures outcome { EndOutcome (ends_of self.old level).sender 0 self.old.peer_fixed_bit number.start number.end
            packet.old packet.new result (λ s. false) self.old self.new
            (λ s. with_ends self.old level (sent (ends_of self.old level) s)) }
    {
        match level {
            Level::Initial => self.initial.send(packet, number, self.peer_fixed_bit, 0),
            Level::Handshake => self.handshake.send(packet, number, self.peer_fixed_bit, 0),
            Level::OneRtt => self.one_rtt.send(packet, number, self.peer_fixed_bit, 0),
        }
    }

    /// Receives the packet that begins at byte `at` of a datagram, with the keys of its type. The caller passes each packet of
    /// the datagram in turn, so that keys from the payload of one packet can be installed before the next (RFC 9000 section
    /// 12.2). No byte outside the packet changes.
    ///
    /// `id_len` is the length in bytes of this endpoint's own connection IDs. `id` is the destination ID of the datagram's
    /// first packet, by which the caller found the connection: an ID of this endpoint or, at a server, the one that the client
    /// chose for its first packets. `packet_at` tells where it is, and the source ID and the token, which `Incoming` doesn't
    /// have. Its caller also sees the Retry and Version Negotiation packets, which this call ignores.
    ///
    /// A packet with a long header of another version than the receiver's is dropped (`ReceiveError::OtherVersion`), and so is
    /// each packet for which `Receiver::receive` fails with an error that has no code, such as `Refused` or `Duplicate`.
    ///
    /// The sender follows a key update of the peer before the call returns, and so before anything in the packet is
    /// acknowledged (RFC 9001 section 6.2). `Incoming::Packet` then tells the update.
    ///
    /// Fails with `TooManyFailures`, whatever the packet, once the limit on packets that fail authentication is reached
    /// (section 6.6). For an authentic packet it fails with `ReservedBits`, `KeyUpdate` and `NoFrames`, as `Receiver::receive`
    /// does. The connection is then unchanged, and has to be closed with the error's code.
    pub fn receive(
        &mut self,
        datagram: &mut [u8],
        at: usize,
        id_len: usize,
        id: &[u8],
    ) -> Result<Step, ReceiveError>
        ensures outcome { StepOutcome self.old self.new id_len id.now datagram.old datagram.new at result }
    {
        if self.failures.is_at_limit() {
            return Err(ReceiveError::TooManyFailures);
        }
        match self.parse_or_skip(datagram, at, id_len, id) {
            Ok(parts) => {
                let attempt = self.receive_parsed(datagram, &parts);
                step_or_close(parts.end, parts.packet_type, attempt)
            }
            Err(step) => Ok(step),
        }
    }

    /// Parses the packet that begins at byte `at`. Returns its parts if it belongs to the connection and the keys that open it
    /// are installed, and otherwise the step past it.
    fn parse_or_skip(
        &self,
        datagram: &[u8],
        at: usize,
        id_len: usize,
        id: &[u8],
    ) -> Result<Packet, Step>
        ensures to_open { IfOk result (IsToOpen self.now id_len id.now datagram.now at) }
        ensures unopened { IfErr result (IsUnopened self.now id_len id.now datagram.now at) }
    {
        let packet = packet_at(datagram, at, id_len, self.fixed_bit);
        let Ok(parts) = packet else {
            let next = next_packet_at(&packet, datagram.len());
            return Err(Step {
                next,
                incoming: Incoming::Ignored,
            });
        };
        let next = parts.end;
        if !self.is_own_not_discarded(datagram, &parts, id) {
            return Err(Step {
                next,
                incoming: Incoming::Ignored,
            });
        }
        let packet_type = parts.packet_type;
        if !self.has_receiver(packet_type) {
            return Err(Step {
                next,
                incoming: Incoming::NoKeys(packet_type),
            });
        }
        Ok(parts)
    }

    /// Returns whether a packet belongs to the connection, and the keys of its type are not discarded.
    fn is_own_not_discarded(&self, datagram: &[u8], parts: &Packet, id: &[u8]) -> bool
        requires { (parts.now.destination_id.start ≤ parts.now.destination_id.end)
            × (parts.now.destination_id.end ≤ length datagram.now) }
        ensures { IsTrue result ↔ (IsOwn id.now datagram.now parts.now
            × IsFalse (is_discarded self.now parts.now.packet_type)) }
    {
        is_own_packet(datagram, parts, id) && !self.is_discarded(parts.packet_type)
    }

    /// Returns whether the keys for packets of a type were discarded, or there never will be any.
    fn is_discarded(&self, packet_type: PacketType) -> bool
        ensures { result ≡ is_discarded self.now packet_type }
    {
        match packet_type {
            PacketType::Initial => self.initial.is_discarded(),
            PacketType::ZeroRtt => self.is_zero_rtt_discarded,
            PacketType::Handshake => self.handshake.is_discarded(),
            PacketType::OneRtt => self.one_rtt.is_discarded(),
            _ => false,
        }
    }

    /// Returns whether the keys that open packets of a type are installed.
    fn has_receiver(&self, packet_type: PacketType) -> bool
        ensures { IsTrue result ↔ IsSome (receiver_of self.now packet_type) }
    {
        match packet_type {
            PacketType::Initial => self.initial.has_receiver(),
            PacketType::ZeroRtt => self.zero_rtt.is_some(),
            PacketType::Handshake => self.handshake.has_receiver(),
            PacketType::OneRtt => self.one_rtt.has_receiver(),
            _ => false,
        }
    }

    /// Receives a packet, whose parts were parsed, with the receiver of its type, and follows a key update of the peer.
    fn receive_parsed(&mut self, datagram: &mut [u8], parts: &Packet) -> Attempt
        requires { IsSome (receiver_of self.old parts.now.packet_type) }
        ensures tried { IfSome (receiver_of self.old parts.now.packet_type) (λ r.
            IfSome (receiver_of self.new parts.now.packet_type) (λ r'. ReceiveOutcome r (space_of self.old parts.now.packet_type)
            self.old.failures parts.now datagram.old result.outcome r' (space_of self.new parts.now.packet_type)
            self.new.failures datagram.new)) }
        ensures some { IsSome (receiver_of self.new parts.now.packet_type) }
        ensures followed { self.new.one_rtt.sender
            ≡ sender_after parts.now.packet_type self.old.one_rtt self.new.one_rtt.receiver }
        ensures received { self.new ≡ record (with_sender (with_receiver self.old parts.now.packet_type
            (receiver_of self.new parts.now.packet_type) (space_of self.new parts.now.packet_type)) self.new.one_rtt.sender) {
              failures = self.new.failures;
            } }
        ensures update { result.update ≡ update_after parts.now.packet_type self.old.one_rtt self.new.one_rtt.receiver }
        ensures kept { OnErr result.outcome (self.new ≡ record self.old { failures = self.new.failures }) }
    {
        match parts.packet_type {
            PacketType::Initial => {
                let outcome = self.initial.receive(&mut self.failures, datagram, parts);
                Attempt::without_phase(outcome)
            }
            PacketType::Handshake => {
                let outcome = self.handshake.receive(&mut self.failures, datagram, parts);
                Attempt::without_phase(outcome)
            }
            PacketType::OneRtt => self
                .one_rtt
                .receive_one_rtt(&mut self.failures, datagram, parts),
            PacketType::ZeroRtt => Attempt::without_phase(self.receive_zero_rtt(datagram, parts)),
            _ => unreachable!(),
        }
    }

    /// Receives a 0-RTT packet. Its number is counted in the space of 1-RTT packets.
    fn receive_zero_rtt(
        &mut self,
        datagram: &mut [u8],
        parts: &Packet,
    ) -> Result<Received, ReceiveError>
        requires { IsSome self.old.zero_rtt }
        ensures tried { IfSome self.old.zero_rtt (λ r. IfSome self.new.zero_rtt (λ r'. ReceiveOutcome r self.old.one_rtt.space
            self.old.failures parts.now datagram.old result r' self.new.one_rtt.space self.new.failures datagram.new)) }
        ensures some { IsSome self.new.zero_rtt }
        ensures received { self.new ≡ record self.old {
          zero_rtt = self.new.zero_rtt;
          one_rtt = record self.old.one_rtt { space = self.new.one_rtt.space };
          failures = self.new.failures;
        } }
        ensures kept { OnErr result (self.new ≡ record self.old { failures = self.new.failures }) }
    {
        let Some(receiver) = &mut self.zero_rtt else {
            unreachable!();
        };
        let failures = &mut self.failures;
        self.one_rtt
            .receive_with(receiver, failures, datagram, parts)
    }
}

/// Returns the position after a packet, parsed or not, where the next one begins, in a datagram of this length.
fn next_packet_at(packet: &Result<Packet, DatagramError>, len: usize) -> usize
    ensures { result ≡ next_packet_at packet.now len }
{
    match packet {
        Ok(parts) => parts.end,
        Err(DatagramError::NoFixedBit { end }) => *end,
        Err(_) => len,
    }
}

/// Returns whether a packet has this destination ID, and is of a type that has keys.
fn is_own_packet(datagram: &[u8], parts: &Packet, id: &[u8]) -> bool
    requires { (parts.now.destination_id.start ≤ parts.now.destination_id.end)
        × (parts.now.destination_id.end ≤ length datagram.now) }
    ensures { IsTrue result ↔ IsOwn id.now datagram.now parts.now }
{
    let destination_id = &datagram[parts.destination_id.start..parts.destination_id.end];
    destination_id == id && type_has_keys(parts.packet_type)
}

/// Returns whether packets of a type are protected with keys: all but Retry, Version Negotiation and those of another version.
fn type_has_keys(packet_type: PacketType) -> bool
    ensures { result ≡ type_has_keys packet_type }
{
    match packet_type {
        PacketType::Initial | PacketType::ZeroRtt | PacketType::Handshake | PacketType::OneRtt =>
            true,
        _ => false,
    }
}
