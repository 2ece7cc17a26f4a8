//! Writing the bytes of a long or a short header of version 1 or 2, before header protection (RFC 9000 section 17, RFC 9369
//! section 3).

ghost use Rattle.std.specs.Prelude.{◌≡◌, ◌+◌, ◌-◌, ◌*◌, ◌^◌, ◌<◌, ◌≤◌, ◌↔◌, ◌∷◌, [], ◌++◌, length, drop, IsOk, IfOk, IsErrOf, OnOk, OnErr};
ghost use Rattle.quic_packets.specs.HeaderBytes.{HasShortFields, HasShortIds, IsLongHeader, IsNumberLen, IsShortHeader, fewest, header_bits, id_field, integer, length_log, length_of, long_first_byte, long_header, short_first_byte, short_header, token_field, token_of, version_field, with_field};
ghost use Rattle.quic_packets.specs.Datagram.{span};

use crate::datagram::MAX_ID_LEN;
use crate::first_byte::{FIXED_BIT, KEY_PHASE_BIT, LONG_HEADER_FORM, LONG_TYPE_SHIFT};
use crate::header::MAX_NUMBER_LEN;
use crate::key::TAG_LEN;
use crate::versions::type_bits;
use key_derivation::quic::Version;
use std::ops::Range;
use thiserror::Error;

/// The position after the version in a long header.
const VERSION_END: usize = 5;

/// The limit of a token's length and of the Length field: both are below it, so that four bytes encode them (RFC 9000 section
/// 16).
const LENGTHS_END: usize = 1 << 30;

/// The type of a packet with a long header and a packet number (RFC 9000 section 17.2).
#[derive(Clone, Copy, Drop)]
pub enum LongType<'a> {
    /// An Initial packet. It alone has a token (section 17.2.2).
    Initial {
        /// The token of a Retry packet or a NEW_TOKEN frame, or an empty one.
        token: &'a [u8],
    },
    /// A 0-RTT packet.
    ZeroRtt,
    /// A Handshake packet.
    Handshake,
}

/// A long header of version 1 or 2 (RFC 9000 sections 17.2.2 to 17.2.4, RFC 9369 section 3).
#[derive(Clone, Copy, Drop)]
pub struct LongHeader<'a> {
    /// The version, which determines the bits of the type.
    pub version: Version,
    /// The type of the packet. An Initial packet has a token.
    pub packet_type: LongType<'a>,
    /// The destination connection ID, of at most 20 bytes.
    pub destination_id: &'a [u8],
    /// The source connection ID, of at most 20 bytes.
    pub source_id: &'a [u8],
    /// The number of bytes of the packet number, from 1 to 4.
    pub number_len: usize,
    /// The number of bytes of the payload, without the tag.
    pub payload_len: usize,
}

/// A short header of version 1 or 2 (RFC 9000 section 17.3.1).
#[derive(Clone, Copy, Drop)]
pub struct ShortHeader<'a> {
    /// The destination connection ID, of at most 20 bytes.
    pub destination_id: &'a [u8],
    /// The Key Phase bit. `Sender::send` and `Connection::send` overwrite it with the phase of their key.
    pub phase: bool,
    /// The number of bytes of the packet number, from 1 to 4.
    pub number_len: usize,
}

/// The error of writing a header.
#[derive(Clone, Copy, PartialEq, Eq, Debug, Drop, Error)]
pub enum HeaderError {
    /// The packet number has no byte, or more than 4 (RFC 9000 section 17.1).
    #[error("a packet number has 1 to 4 bytes")]
    NumberLength,
    /// A connection ID has more than 20 bytes (RFC 9000 section 17.2).
    #[error("a connection ID of version 1 or 2 has at most 20 bytes")]
    IdTooLong,
    /// The token, or the packet number, the payload and the tag together, have 2^30 bytes or more.
    #[error("the token or the packet has 2^30 bytes or more")]
    TooLong,
    /// The buffer is shorter than the header.
    #[error("the buffer is shorter than the header")]
    NoRoom,
}

impl LongHeader<'_> {
    /// Writes the header to the front of a buffer, and returns the range of the packet number, which comes after it. The
    /// payload and 16 bytes for the tag follow the number. The fixed bit is 1, and the reserved bits are 0. The token's length
    /// has the fewest bytes, and Length has two, or four from 16,384 on. No other byte of the buffer changes, so the number
    /// isn't written yet.
    ///
    /// To fill a datagram of n bytes, write the header with a `payload_len` of 0, which returns the range of the number, and
    /// again with n bytes less the end of that range and the tag. The header is as long for any payload that makes a Length
    /// below 16,384.
    ///
    /// Fails, in this order, with `NumberLength` if `number_len` is 0 or above 4; with `IdTooLong` if a connection ID has more
    /// than 20 bytes; with `TooLong` if the token, or number, payload and tag together, have 2^30 bytes or more; and with
    /// `NoRoom` if the buffer ends before the packet number does. The buffer is then unchanged.
    pub fn write(&self, buffer: &mut [u8]) -> Result<Range<usize>, HeaderError>
        ensures accepted { IsOk result ↔ (IsLongHeader self.now
            × (length (long_header self.now) + self.now.number_len ≤ length buffer.old)) }
        ensures number_length { IsErrOf result HeaderError.NumberLength ↔ ¬ IsNumberLen self.now.number_len }
        ensures id_too_long { IsErrOf result HeaderError.IdTooLong ↔ (IsNumberLen self.now.number_len
            × ¬ HasShortIds self.now) }
        ensures too_long { IsErrOf result HeaderError.TooLong ↔ (IsNumberLen self.now.number_len
            × HasShortIds self.now × ¬ HasShortFields self.now) }
        ensures no_room { IsErrOf result HeaderError.NoRoom ↔ (IsLongHeader self.now
            × (length buffer.old < length (long_header self.now) + self.now.number_len)) }
        ensures written { OnOk result (buffer.new
            ≡ long_header self.now ++ drop (length (long_header self.now)) buffer.old) }
        ensures number { IfOk result (λ number. number ≡ span (length (long_header self.now))
            (length (long_header self.now) + self.now.number_len)) }
        ensures kept { OnErr result (buffer.new ≡ buffer.old) }
    {
        self.check()?;
        let number_at = self.number_at();
        if buffer.len() < number_at + self.number_len {
            return Err(HeaderError::NoRoom);
        }
        self.write_fields(buffer);
        Ok(number_at..number_at + self.number_len)
    }

    /// Checks that each field has a length that can be written.
    fn check(&self) -> Result<(), HeaderError>
        ensures accepted { IsOk result ↔ IsLongHeader self.now }
        ensures number_length { IsErrOf result HeaderError.NumberLength ↔ ¬ IsNumberLen self.now.number_len }
        ensures id_too_long { IsErrOf result HeaderError.IdTooLong ↔ (IsNumberLen self.now.number_len
            × ¬ HasShortIds self.now) }
        ensures too_long { IsErrOf result HeaderError.TooLong ↔ (IsNumberLen self.now.number_len
            × HasShortIds self.now × ¬ HasShortFields self.now) }
        ensures others { ¬ IsErrOf result HeaderError.NoRoom }
    {
        if !(1..=MAX_NUMBER_LEN).contains(&self.number_len) {
            return Err(HeaderError::NumberLength);
        }
        if self.destination_id.len() > MAX_ID_LEN || self.source_id.len() > MAX_ID_LEN {
            return Err(HeaderError::IdTooLong);
        }
        let most = LENGTHS_END - TAG_LEN - self.number_len;
        if token_of(self.packet_type).len() >= LENGTHS_END || self.payload_len >= most {
            return Err(HeaderError::TooLong);
        }
        Ok(())
    }

    /// Returns the position of the packet number, which is the length of the header before it.
    fn number_at(&self) -> usize
        requires { IsLongHeader self.now }
        ensures is { result ≡ length (long_header self.now) }
        ensures few { result ≤ 2 ^ 30 + 100 }
    {
        let ids_len = 1 + self.destination_id.len() + 1 + self.source_id.len();
        let length_len = integer_len(length_log(self.length_value()));
        VERSION_END + ids_len + token_field_len(self.packet_type) + length_len
    }

    /// Returns the value of the Length field: the bytes of the packet number, the payload and the tag.
    fn length_value(&self) -> usize
        requires { IsLongHeader self.now }
        ensures is { result ≡ length_of self.now }
        ensures few { result < 2 ^ 30 }
    {
        self.number_len + self.payload_len + TAG_LEN
    }

    /// Writes the header to the front of the buffer.
    fn write_fields(&self, buffer: &mut [u8])
        requires header { IsLongHeader self.now }
        requires room { length (long_header self.now) ≤ length buffer.old }
        ensures { buffer.new ≡ long_header self.now ++ drop (length (long_header self.now)) buffer.old }
    {
        let length_value = self.length_value();
        let at = put_first_byte_and_version(buffer, self.first_byte(), self.version);
        let at = put_id(buffer, at, self.destination_id);
        let at = put_id(buffer, at, self.source_id);
        let at = put_token(buffer, at, self.packet_type);
        put_integer(buffer, at, length_log(length_value), length_value);
    }

    fn first_byte(&self) -> u8
        requires { IsNumberLen self.now.number_len }
        ensures { result ≡ long_first_byte (header_bits self.now.version self.now.packet_type) self.now.number_len }
    {
        let types = type_bits(self.version);
        let bits = match self.packet_type {
            LongType::Initial { .. } => types.initial,
            LongType::ZeroRtt => types.zero_rtt,
            LongType::Handshake => types.handshake,
        };
        LONG_HEADER_FORM + FIXED_BIT + (bits << LONG_TYPE_SHIFT) + (self.number_len as u8 - 1)
    }
}

impl ShortHeader<'_> {
    /// Writes the header to the front of a buffer, and returns the range of the packet number, which comes after it. The
    /// payload and 16 bytes for the tag follow the number. The fixed bit is 1, and the spin bit and the reserved bits are 0. No
    /// other byte of the buffer changes, so the number isn't written yet.
    ///
    /// Fails, in this order, with `NumberLength` if `number_len` is 0 or above 4; with `IdTooLong` if the connection ID has more
    /// than 20 bytes; and with `NoRoom` if the buffer ends before the packet number does. The buffer is then unchanged.
    pub fn write(&self, buffer: &mut [u8]) -> Result<Range<usize>, HeaderError>
        ensures accepted { IsOk result ↔ (IsShortHeader self.now
            × (length (short_header self.now) + self.now.number_len ≤ length buffer.old)) }
        ensures number_length { IsErrOf result HeaderError.NumberLength ↔ ¬ IsNumberLen self.now.number_len }
        ensures id_too_long { IsErrOf result HeaderError.IdTooLong ↔ (IsNumberLen self.now.number_len
            × (20 < length self.now.destination_id.now)) }
        ensures no_room { IsErrOf result HeaderError.NoRoom ↔ (IsShortHeader self.now
            × (length buffer.old < length (short_header self.now) + self.now.number_len)) }
        ensures never { ¬ IsErrOf result HeaderError.TooLong }
        ensures written { OnOk result (buffer.new
            ≡ short_header self.now ++ drop (length (short_header self.now)) buffer.old) }
        ensures number { IfOk result (λ number. number ≡ span (length (short_header self.now))
            (length (short_header self.now) + self.now.number_len)) }
        ensures kept { OnErr result (buffer.new ≡ buffer.old) }
    {
        if !(1..=MAX_NUMBER_LEN).contains(&self.number_len) {
            return Err(HeaderError::NumberLength);
        }
        if self.destination_id.len() > MAX_ID_LEN {
            return Err(HeaderError::IdTooLong);
        }
        let number_at = 1 + self.destination_id.len();
        if buffer.len() < number_at + self.number_len {
            return Err(HeaderError::NoRoom);
        }
        self.write_fields(buffer);
        Ok(number_at..number_at + self.number_len)
    }

    /// Writes the header to the front of the buffer.
    fn write_fields(&self, buffer: &mut [u8])
        requires header { IsShortHeader self.now }
        requires room { length (short_header self.now) ≤ length buffer.old }
        ensures { buffer.new ≡ short_header self.now ++ drop (length (short_header self.now)) buffer.old }
    {
        let at = put_bytes(buffer, 0, &[self.first_byte()]);
        put_bytes(buffer, at, self.destination_id);
    }

    fn first_byte(&self) -> u8
        requires { IsNumberLen self.now.number_len }
        ensures { result ≡ short_first_byte self.now.phase self.now.number_len }
    {
        let key_phase = if self.phase { KEY_PHASE_BIT } else { 0 };
        FIXED_BIT + key_phase + (self.number_len as u8 - 1)
    }
}

/// Returns the token of an Initial packet, or an empty one for another type.
fn token_of(packet_type: LongType<'_>) -> &[u8]
    ensures { result.now ≡ token_of packet_type.entry }
{
    match packet_type {
        LongType::Initial { token } => token,
        _ => &[],
    }
}

/// Returns how many bytes the token of an Initial packet has together with its length, or 0 for another type.
fn token_field_len(packet_type: LongType<'_>) -> usize
    requires { length (token_of packet_type) < 2 ^ 30 }
    ensures is { result ≡ length (token_field packet_type.entry) }
    ensures few { result ≤ 2 ^ 30 + 3 }
{
    match packet_type {
        LongType::Initial { token } => integer_len(fewest_bytes_log(token.len())) + token.len(),
        _ => 0,
    }
}

/// Returns the base-2 logarithm of the fewest bytes that encode a value below 2^30 (RFC 9000 section 16).
fn fewest_bytes_log(value: usize) -> u8
    ensures { result ≡ fewest value }
{
    if value < 1 << 6 {
        0
    } else if value < 1 << 14 {
        1
    } else {
        2
    }
}

/// Returns the base-2 logarithm of the number of bytes that the Length field has for this value.
fn length_log(value: usize) -> u8
    ensures { result ≡ length_log value }
{
    if value < 1 << 14 { 1 } else { 2 }
}

/// Returns the length of a variable-length integer of `2^log` bytes.
fn integer_len(log: u8) -> usize
    requires { log ≤ 2 }
    ensures { result ≡ 2 ^ log }
{
    match log {
        0 => 1,
        1 => 2,
        _ => 4,
    }
}

/// Writes a field from byte `at` on, and returns its end.
fn put_bytes(buffer: &mut [u8], at: usize, field: &[u8]) -> usize
    requires { at + length field.now ≤ length buffer.old }
    ensures end { result ≡ at + length field.now }
    ensures written { buffer.new ≡ with_field at field.now buffer.old }
{
    let end = at + field.len();
    buffer[at..end].copy_from_slice(field);
    end
}

/// Writes the first byte and the version to the front of a buffer, and returns their end.
fn put_first_byte_and_version(buffer: &mut [u8], first: u8, version: Version) -> usize
    requires { 5 ≤ length buffer.old }
    ensures end { result ≡ 5 }
    ensures written { buffer.new ≡ with_field 0 (first ∷ version_field version) buffer.old }
{
    let number = version.number().to_be_bytes();
    let bytes = [first, number[0], number[1], number[2], number[3]];
    put_bytes(buffer, 0, &bytes)
}

/// Writes the length of a connection ID and the ID from byte `at` on, and returns their end.
fn put_id(buffer: &mut [u8], at: usize, id: &[u8]) -> usize
    requires short { length id.now ≤ 20 }
    requires room { at + length (id_field id.now) ≤ length buffer.old }
    ensures end { result ≡ at + length (id_field id.now) }
    ensures written { buffer.new ≡ with_field at (id_field id.now) buffer.old }
{
    let at = put_bytes(buffer, at, &[id.len() as u8]);
    put_bytes(buffer, at, id)
}

/// Writes the length of an Initial packet's token and the token from byte `at` on, and returns their end. Writes nothing for
/// another type.
fn put_token(buffer: &mut [u8], at: usize, packet_type: LongType<'_>) -> usize
    requires short { length (token_of packet_type) < 2 ^ 30 }
    requires room { at + length (token_field packet_type) ≤ length buffer.old }
    ensures end { result ≡ at + length (token_field packet_type.entry) }
    ensures written { buffer.new ≡ with_field at (token_field packet_type.entry) buffer.old }
{
    match packet_type {
        LongType::Initial { token } => {
            let at = put_integer(buffer, at, fewest_bytes_log(token.len()), token.len());
            put_bytes(buffer, at, token)
        }
        _ => at,
    }
}

/// Writes a variable-length integer of `2^log` bytes from byte `at` on, and returns its end (RFC 9000 section 16).
fn put_integer(buffer: &mut [u8], at: usize, log: u8, value: usize) -> usize
    requires few { log ≤ 2 }
    requires fits { value < 2 ^ (8 * 2 ^ log - 2) }
    requires room { at + 2 ^ log ≤ length buffer.old }
    ensures end { result ≡ at + 2 ^ log }
    ensures written { buffer.new ≡ with_field at (integer log value) buffer.old }
{
    match log {
        0 => put_bytes(buffer, at, &[value as u8]),
        1 => put_bytes(buffer, at, &(0x4000 + value as u16).to_be_bytes()),
        _ => put_bytes(buffer, at, &(0x8000_0000 + value as u32).to_be_bytes()),
    }
}
