//! The commands of `aeadrun`, parsed from lines of input.

use super::words::{bytes, decimal_number, hex_array};
use crate::aead::{AES_128_GCM, AES_256_GCM, Algorithm, quic};
use std::alloc::{AllocError, Global};
use std::str;
use std::str::Split;

/// The command in a line.
#[derive(Drop)]
pub(super) enum Command {
    Call(Call),
    /// `keys 128|256 KEY PREFIX FIRST COUNT`
    Keys {
        algorithm: &'static Algorithm,
        key: Vec<u8>,
        prefix: [u8; 4],
        first: u64,
        count: u64,
    },
    Next(Next),
}

/// A call with the key that is in the line.
#[derive(Drop)]
pub(super) enum Call {
    /// `seal 128|256 KEY NONCE AAD MESSAGE`
    Seal {
        algorithm: &'static Algorithm,
        key: Vec<u8>,
        nonce: Vec<u8>,
        aad: Vec<u8>,
        message: Vec<u8>,
    },
    /// `open 128|256 KEY NONCE AAD START BUFFER`
    Open {
        algorithm: &'static Algorithm,
        key: Vec<u8>,
        nonce: Vec<u8>,
        aad: Vec<u8>,
        start: usize,
        buffer: Vec<u8>,
    },
    /// `mask aes128|aes256|chacha20 KEY SAMPLE`
    Mask {
        algorithm: &'static quic::Algorithm,
        key: Vec<u8>,
        sample: Vec<u8>,
    },
}

/// A call with the keys of the last `keys` line, under their next nonce.
#[derive(Drop)]
pub(super) enum Next {
    /// `next-seal AAD MESSAGE`
    Seal {
        aad: Vec<u8>,
        message: Vec<u8>,
    },
    /// `next-open AAD START BUFFER`
    Open {
        aad: Vec<u8>,
        start: usize,
        buffer: Vec<u8>,
    },
}

/// Why a line could not be parsed.
#[derive(Drop)]
pub(super) enum LineError {
    /// The line is not a command.
    BadLine,
    /// Memory for the command was refused.
    OutOfMemory,
}

impl From<AllocError> for LineError {
    fn from(_error: AllocError) -> LineError {
        LineError::OutOfMemory
    }
}

impl Command {
    /// Parses a line, which is passed without its LF.
    pub(super) fn parse(alloc: Global, line: &[u8]) -> Result<Command, LineError> {
        let Ok(line) = str::from_utf8(line) else {
            return Err(LineError::BadLine);
        };
        let mut words = Words {
            alloc,
            rest: line.split(' '),
        };
        let command = match words.next()? {
            "seal" => Command::Call(Call::parse_seal(&mut words)?),
            "open" => Command::Call(Call::parse_open(&mut words)?),
            "mask" => Command::Call(Call::parse_mask(&mut words)?),
            "keys" => Command::parse_keys(&mut words)?,
            "next-seal" => Command::Next(Next::parse_seal(&mut words)?),
            "next-open" => Command::Next(Next::parse_open(&mut words)?),
            _ => return Err(LineError::BadLine),
        };
        words.end()?;
        Ok(command)
    }

    fn parse_keys(words: &mut Words<'_>) -> Result<Command, LineError> {
        Ok(Command::Keys {
            algorithm: words.algorithm()?,
            key: words.bytes()?,
            prefix: words.array::<4>()?,
            first: u64::from_be_bytes(words.array::<8>()?),
            count: words.number()?,
        })
    }
}

impl Call {
    fn parse_seal(words: &mut Words<'_>) -> Result<Call, LineError> {
        Ok(Call::Seal {
            algorithm: words.algorithm()?,
            key: words.bytes()?,
            nonce: words.bytes()?,
            aad: words.bytes()?,
            message: words.bytes()?,
        })
    }

    fn parse_open(words: &mut Words<'_>) -> Result<Call, LineError> {
        Ok(Call::Open {
            algorithm: words.algorithm()?,
            key: words.bytes()?,
            nonce: words.bytes()?,
            aad: words.bytes()?,
            start: words.number()? as usize,
            buffer: words.bytes()?,
        })
    }

    fn parse_mask(words: &mut Words<'_>) -> Result<Call, LineError> {
        Ok(Call::Mask {
            algorithm: words.mask_algorithm()?,
            key: words.bytes()?,
            sample: words.bytes()?,
        })
    }
}

impl Next {
    fn parse_seal(words: &mut Words<'_>) -> Result<Next, LineError> {
        Ok(Next::Seal {
            aad: words.bytes()?,
            message: words.bytes()?,
        })
    }

    fn parse_open(words: &mut Words<'_>) -> Result<Next, LineError> {
        Ok(Next::Open {
            aad: words.bytes()?,
            start: words.number()? as usize,
            buffer: words.bytes()?,
        })
    }
}

/// The words of a line that have not been read yet.
#[derive(Drop)]
struct Words<'a> {
    alloc: Global,
    rest: Split<'a, char>,
}

impl<'a> Words<'a> {
    /// Returns the next word.
    fn next(&mut self) -> Result<&'a str, LineError> {
        self.rest.next().ok_or(LineError::BadLine)
    }

    /// Returns the next word as bytes.
    fn bytes(&mut self) -> Result<Vec<u8>, LineError> {
        bytes(self.alloc, self.next()?)?.ok_or(LineError::BadLine)
    }

    /// Returns the next word as `N` bytes.
    fn array<const N: usize>(&mut self) -> Result<[u8; N], LineError> {
        hex_array(self.next()?).ok_or(LineError::BadLine)
    }

    /// Returns the next word as a number.
    fn number(&mut self) -> Result<u64, LineError> {
        decimal_number(self.next()?).ok_or(LineError::BadLine)
    }

    /// Returns the next word as the name of an algorithm.
    fn algorithm(&mut self) -> Result<&'static Algorithm, LineError> {
        match self.next()? {
            "128" => Ok(&AES_128_GCM),
            "256" => Ok(&AES_256_GCM),
            _ => Err(LineError::BadLine),
        }
    }

    /// Returns the next word as the name of a header protection algorithm.
    fn mask_algorithm(&mut self) -> Result<&'static quic::Algorithm, LineError> {
        match self.next()? {
            "aes128" => Ok(&quic::AES_128),
            "aes256" => Ok(&quic::AES_256),
            "chacha20" => Ok(&quic::CHACHA20),
            _ => Err(LineError::BadLine),
        }
    }

    /// Fails unless every word has been read.
    fn end(&mut self) -> Result<(), LineError> {
        match self.rest.next() {
            None => Ok(()),
            Some(_) => Err(LineError::BadLine),
        }
    }
}
