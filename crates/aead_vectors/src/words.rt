//! Lines of text: a name, and then bytes as hex digits.

use hex::{FromHex, FromHexError};
use std::alloc::Global;
use std::num::ParseIntError;
use std::str::SplitWhitespace;

/// Why a line is refused.
#[derive(Debug, Drop)]
pub enum BadLine {
    MissingWord,
    WordLeft,
    Bytes(FromHexError),
    Number(ParseIntError),
}

impl From<FromHexError> for BadLine {
    fn from(error: FromHexError) -> BadLine {
        BadLine::Bytes(error)
    }
}

impl From<ParseIntError> for BadLine {
    fn from(error: ParseIntError) -> BadLine {
        BadLine::Number(error)
    }
}

/// The words of a line that are still to be read.
#[derive(Drop)]
pub struct Words<'a> {
    rest: SplitWhitespace<'a>,
}

impl<'a> Words<'a> {
    pub fn new(line: &'a str) -> Words<'a> {
        Words {
            rest: line.split_whitespace(),
        }
    }

    /// Reads a word.
    pub fn text(&mut self) -> Result<&'a str, BadLine> {
        self.rest.next().ok_or(BadLine::MissingWord)
    }

    /// Reads a number in decimal.
    pub fn number(&mut self) -> Result<u32, BadLine> {
        Ok(self.text()?.parse::<u32>()?)
    }

    /// Reads bytes in hex digits, or `-` for none.
    pub fn bytes(&mut self, alloc: Global) -> Result<Vec<u8>, BadLine> {
        let word = self.text()?;
        if word == "-" {
            return Ok(Vec::new(alloc));
        }
        Ok(hex::decode(alloc, word)?)
    }

    /// Reads `N` bytes in hex digits.
    pub fn array<const N: usize>(&mut self) -> Result<[u8; N], BadLine> {
        Ok(<[u8; N] as FromHex>::from_hex(self.text()?)?)
    }

    /// Fails where a word is left.
    pub fn end(mut self) -> Result<(), BadLine> {
        match self.rest.next() {
            Some(_) => Err(BadLine::WordLeft),
            None => Ok(()),
        }
    }
}
