//! The reasons for which the program ends early, with their messages and exit statuses.

use crate::hints::KeyText;
use crate::name::Name;
use sealed_file::{FileError, MAX_AAD_LEN};
use std::{fmt, io};

/// A file or stream that the program reads or writes.
#[derive(Clone, Copy)]
pub enum Place {
    KeyFile,
    PassphraseFile,
    Input,
    Output,
    Random,
    Console,
}

/// Why the program ends early.
#[derive(Drop)]
pub enum Failure {
    /// The command line is not one that the program understands.
    Use(anyhow::Error),
    /// The key file does not have 32 bytes. It has the key as text, if that was recognized.
    KeyLength(Option<KeyText>),
    /// The passphrase is empty or too long.
    PassphraseLength,
    /// OUT or the key file to be created exists, and `--force` is not given.
    Exists,
    /// OUT is the same file as IN.
    SameFile,
    /// OUT is the file with the key or the passphrase.
    SecretFile,
    /// OUT exists, and it cannot be found out whether it is IN or the file with the key or the passphrase.
    Unidentified,
    /// OUT exists, and is a folder.
    Folder,
    /// OUT is a device, a pipe or a socket.
    NotRegular,
    /// OUT is in /proc, or is a link that leads there.
    InProc,
    /// The AAD has more than `MAX_AAD_LEN` bytes.
    AadTooLong,
    /// A sealed file would be written to a terminal.
    Terminal,
    /// A key would be written to a terminal.
    KeyTerminal,
    /// No passphrase can be asked for on a terminal.
    NotAsked,
    /// IN is a folder.
    InputFolder,
    /// The file cannot be sealed or opened.
    Refused(FileError),
    /// The first chunk to be opened, which has this number, was changed or cut, or the file was sealed with another AAD.
    FirstRefused(u32),
    /// Reading or writing failed, or allocating memory failed.
    Io(Place, io::Error),
    /// OUT or the key file is in place, but the file still has the other name too, under which it was written.
    NotRemoved(Name, io::Error),
    /// OUT or the key file is in place, but its folder may not have reached the device.
    NotSynced(io::Error),
}

impl Failure {
    /// Returns the exit status: 1 for a file that cannot be sealed or opened, 2 for wrong use, 3 for reading and writing.
    pub fn status(&self) -> u8 {
        match self {
            Failure::Refused(_) | Failure::FirstRefused(_) => 1,
            Failure::Io(_, _) | Failure::NotRemoved(_, _) | Failure::NotSynced(_) => 3,
            Failure::NotAsked | Failure::InputFolder => 3,
            _ => 2,
        }
    }

    /// Returns the file or stream that the message is about, unless it is about the command line.
    pub fn place(&self) -> Option<Place> {
        match self {
            Failure::Use(_) | Failure::AadTooLong | Failure::NotAsked => None,
            Failure::KeyLength(_) => Some(Place::KeyFile),
            Failure::PassphraseLength => Some(Place::PassphraseFile),
            Failure::Refused(_) | Failure::FirstRefused(_) | Failure::InputFolder => {
                Some(Place::Input)
            }
            Failure::Io(place, _) => Some(*place),
            _ => Some(Place::Output),
        }
    }
}

impl fmt::Display for Failure {
    fn fmt<W: fmt::Write>(&self, f: &mut fmt::Formatter<W>) -> fmt::Result {
        match self {
            Failure::Use(error) => write!(f, "{error}; see --help"),
            Failure::KeyLength(None) => write!(f, "the key is not 32 bytes long"),
            Failure::KeyLength(Some(text)) => {
                write!(f, "a key is 32 raw bytes, and this is {text}")
            }
            Failure::PassphraseLength => {
                write!(f, "the passphrase is empty, or longer than 4096 bytes")
            }
            Failure::Exists => write!(f, "the file exists"),
            Failure::SameFile => write!(f, "input and output are the same file"),
            Failure::SecretFile => write!(f, "the key or the passphrase is in this file"),
            Failure::Unidentified => {
                write!(
                    f,
                    "this may be the file on standard input, which cannot be identified"
                )
            }
            Failure::Folder => write!(f, "not a regular file, but a folder"),
            Failure::NotRegular => {
                write!(
                    f,
                    "not a regular file: give -o -, and redirect standard output to it"
                )
            }
            Failure::InProc => {
                write!(
                    f,
                    "in /proc, or a link that leads there: give -o -, and redirect standard output to it"
                )
            }
            Failure::AadTooLong => write!(f, "--aad takes at most {MAX_AAD_LEN} bytes"),
            Failure::Terminal => {
                write!(
                    f,
                    "a sealed file is not written to a terminal: give -o OUT, or -o -"
                )
            }
            Failure::KeyTerminal => write!(f, "a key is not written to a terminal"),
            Failure::NotAsked => {
                write!(
                    f,
                    "no passphrase can be asked for on a terminal: give --passphrase-file FILE"
                )
            }
            Failure::InputFolder => write!(f, "a folder: tar -c makes one file of it"),
            Failure::Refused(error) => write!(f, "{error}"),
            Failure::FirstRefused(number) => {
                write!(
                    f,
                    "chunk {number} was changed or cut, or the file was sealed with another --aad"
                )
            }
            Failure::Io(_, error) => write!(f, "{error}"),
            Failure::NotRemoved(name, error) => {
                write!(
                    f,
                    "the file is in place, but its other name {name} could not be removed: {error}"
                )
            }
            Failure::NotSynced(error) => {
                write!(
                    f,
                    "the file is in place, but its folder could not be synced: {error}"
                )
            }
        }
    }
}
