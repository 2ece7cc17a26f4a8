//! The state that `aeadrun` keeps from line to line, and how it carries out a command.

use super::Fault;
use super::answers::{bytes_answer, keys_answer, open_answer, seal_answer};
use super::calls::{Keys, mask, open, seal};
use super::line::{Call, Command, LineError, Next};
use std::alloc::Global;
use std::io::Write;

/// The state of the program between two lines.
#[derive(Drop)]
pub(super) struct Program {
    alloc: Global,
    /// The keys of the last `keys` line with the response `ok`.
    keys: Option<Keys>,
}

impl Program {
    /// Returns the state before the first line.
    pub(super) fn new(alloc: Global) -> Program {
        Program { alloc, keys: None }
    }

    /// Writes the response to a line, and returns whether the line was a command. For a bad line, writes and changes
    /// nothing.
    pub(super) fn answer<W: Write>(&mut self, line: &[u8], output: &mut W) -> Result<bool, Fault> {
        match Command::parse(self.alloc, line) {
            Ok(command) => self.carry_out(command, output),
            Err(LineError::BadLine) => Ok(false),
            Err(LineError::OutOfMemory) => Err(Fault),
        }
    }

    /// Carries out a command, and writes its response. Returns `false` if it asks for keys and none were made before.
    fn carry_out<W: Write>(&mut self, command: Command, output: &mut W) -> Result<bool, Fault> {
        match command {
            Command::Call(call) => answer_call(self.alloc, output, call)?,
            Command::Keys {
                algorithm,
                key,
                prefix,
                first,
                count,
            } => {
                let made = Keys::new(algorithm, &key, prefix, first, count);
                keys_answer(output, made.is_ok())?;
                if let Ok(keys) = made {
                    self.keys = Some(keys);
                }
            }
            Command::Next(next) => match &mut self.keys {
                Some(keys) => answer_next(self.alloc, output, keys, next)?,
                None => return Ok(false),
            },
        }
        Ok(true)
    }
}

/// Makes a call with the key of its line, and writes the response.
fn answer_call<W: Write>(alloc: Global, output: &mut W, call: Call) -> Result<(), Fault> {
    match call {
        Call::Seal {
            algorithm,
            key,
            nonce,
            aad,
            mut message,
        } => {
            let sealed = seal(algorithm, &key, &nonce, &aad, &mut message);
            seal_answer(alloc, output, &message, sealed)
        }
        Call::Open {
            algorithm,
            key,
            nonce,
            aad,
            start,
            mut buffer,
        } => {
            let opened = open(algorithm, &key, &nonce, &aad, start, &mut buffer);
            open_answer(alloc, output, &buffer, opened)
        }
        Call::Mask {
            algorithm,
            key,
            sample,
        } => bytes_answer(alloc, output, mask(algorithm, &key, &sample)),
    }
}

/// Makes a call with the next nonce of the keys, and writes the response.
fn answer_next<W: Write>(
    alloc: Global,
    output: &mut W,
    keys: &mut Keys,
    next: Next,
) -> Result<(), Fault> {
    match next {
        Next::Seal { aad, message } => bytes_answer(
            alloc,
            output,
            keys.seal_under_next_nonce(aad, message),
        ),
        Next::Open { aad, start, buffer } => {
            let (buffer, opened) = keys.open_under_next_nonce(aad, start, buffer);
            open_answer(alloc, output, &buffer, opened)
        }
    }
}
