//! Signs that the bytes of a file are not the key or the passphrase that its user means: a key that is written as text, and
//! oddities of a passphrase.

ghost use Rattle.std.specs.Prelude.{◌≡◌, ◌↔◌, ◌-◌, ◌≤◌, Contains, IsTrue, Some, None, count_by, length, slice_get};
ghost use Rattle.std.specs.Char.{is_ascii_hexdigit, is_ascii_whitespace};
ghost use Rattle.seal_file.specs.KeyText.{IsTextOf, is_in_base64};
ghost use Rattle.seal_file.specs.Oddity.{has_byte_order_mark};

use std::fmt;

/// The most bytes of a file that are searched for the text of a key.
pub const MAX_KEY_TEXT_LEN: usize = 128;

/// How many digits a key of 32 bytes has.
const HEX_LEN: usize = 64;

/// How many characters a key of 32 bytes has in Base64 (RFC 4648, section 4), the last of which is `=`.
const BASE64_LEN: usize = 44;

/// A key of 32 bytes that is written as text.
#[derive(Clone, Copy)]
pub enum KeyText {
    Hex,
    Base64,
}

impl KeyText {
    /// Returns how a key is written in these bytes, of which any may be white space.
    pub fn of(bytes: &[u8]) -> Option<KeyText>
        ensures hex { (result ≡ Some KeyText.Hex) ↔ IsTextOf is_ascii_hexdigit 64 bytes.now }
        ensures base64 { result ≡ Some KeyText.Base64 → IsTextOf is_in_base64 44 bytes.now }
        ensures none { result ≡ None → ¬ IsTextOf is_in_base64 44 bytes.now }
    {
        if is_hex(bytes) {
            Some(KeyText::Hex)
        } else if is_base64(bytes) {
            Some(KeyText::Base64)
        } else {
            None
        }
    }
}

/// Returns whether the bytes are the digits of a key.
fn is_hex(bytes: &[u8]) -> bool
    ensures { IsTrue result ↔ IsTextOf is_ascii_hexdigit 64 bytes.now }
{
    let digits = bytes.iter().filter(|it| it.is_ascii_hexdigit()).count();
    digits == HEX_LEN && digits == bytes.len() - white_len(bytes)
}

/// Returns whether the bytes are the characters of a key in Base64.
fn is_base64(bytes: &[u8]) -> bool
    ensures { IsTrue result ↔ IsTextOf is_in_base64 44 bytes.now }
{
    let characters = bytes.iter().filter(|it| is_in_base64(**it)).count();
    characters == BASE64_LEN && characters == bytes.len() - white_len(bytes)
}

/// Returns whether the byte is a character of Base64.
fn is_in_base64(byte: u8) -> bool
    ensures { result ≡ is_in_base64 byte }
{
    byte.is_ascii_alphanumeric() || byte == b'+' || byte == b'/' || byte == b'='
}

/// Returns how many of the bytes are white space.
fn white_len(bytes: &[u8]) -> usize
    ensures count { result ≡ count_by is_ascii_whitespace bytes.now }
    ensures most { result ≤ length bytes.now }
{
    bytes.iter().filter(|it| it.is_ascii_whitespace()).count()
}

impl fmt::Display for KeyText {
    fn fmt<W: fmt::Write>(&self, f: &mut fmt::Formatter<W>) -> fmt::Result {
        match self {
            KeyText::Hex => write!(f, "hexadecimal: convert it, as by xxd -r -p"),
            KeyText::Base64 => write!(f, "Base64: convert it, as by base64 -d"),
        }
    }
}

/// Something that a passphrase may contain although its owner doesn't know it.
#[derive(Clone, Copy)]
pub enum Oddity {
    ByteOrderMark,
    Nul,
    Lines,
    CarriageReturn,
}

impl Oddity {
    /// All oddities.
    pub const ALL: [Oddity; 4] = [
        Oddity::ByteOrderMark,
        Oddity::Nul,
        Oddity::Lines,
        Oddity::CarriageReturn,
    ];

    /// Returns whether a passphrase has this oddity. The byte order marks are those of UTF-8 and UTF-16.
    pub fn is_in(self, passphrase: &[u8]) -> bool
        ensures byte_order_mark { self ≡ Oddity.ByteOrderMark → result ≡ has_byte_order_mark passphrase.now }
        ensures nul { self ≡ Oddity.Nul → (IsTrue result ↔ Contains passphrase.now 0) }
        ensures lines { self ≡ Oddity.Lines → (IsTrue result ↔ Contains passphrase.now 10) }
        ensures carriage_return { self ≡ Oddity.CarriageReturn →
            (IsTrue result ↔ (slice_get passphrase.now (length passphrase.now - 1) ≡ Some 13)) }
    {
        match self {
            Oddity::ByteOrderMark => {
                passphrase.starts_with(b"\xef\xbb\xbf")
                    || passphrase.starts_with(b"\xff\xfe")
                    || passphrase.starts_with(b"\xfe\xff")
            }
            Oddity::Nul => passphrase.contains(&0),
            Oddity::Lines => passphrase.contains(&b'\n'),
            Oddity::CarriageReturn => passphrase.last() == Some(&b'\r'),
        }
    }
}

impl fmt::Display for Oddity {
    fn fmt<W: fmt::Write>(&self, f: &mut fmt::Formatter<W>) -> fmt::Result {
        match self {
            Oddity::ByteOrderMark => write!(f, "begins with a byte order mark"),
            Oddity::Nul => write!(f, "has a NUL byte"),
            Oddity::Lines => write!(f, "has more than one line"),
            Oddity::CarriageReturn => write!(f, "ends with a carriage return"),
        }
    }
}
