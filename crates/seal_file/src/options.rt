//! The command line: the text of `--help`, and the request that the arguments make.

use crate::failure::{Failure, Place};
use crate::name::Name;
use crate::range::Range;
use anyhow::anyhow;
use std::alloc::{AllocError, Global};
use std::env::{Env, FillError};
use std::{fmt, io, str};

/// The text that `--version` prints.
pub const VERSION: &str = "seal_file 0.1.0";

/// The text that `--help` prints.
pub const HELP: &str = "\
usage: seal_file seal KEY [-o OUT] [-f] [--aad TEXT] [--progress] [IN]
       seal_file open KEY [-o OUT] [-f] [--aad TEXT] [--progress]
                      [--range START LEN] [IN]
       seal_file inspect [-k KEYFILE] FILE
       seal_file keygen -o KEYFILE
KEY is --passphrase, -k KEYFILE or --passphrase-file FILE.

Seal a file with AES-256-GCM in chunks of 64 KiB, open or inspect a sealed file,
or generate a key. KEYFILE holds the 32 bytes of the key. Any file that is named -
is standard input or output, and so are IN and OUT if they are not given.

  -k, --key KEYFILE    the key
  --passphrase         ask for a passphrase on the terminal, twice to seal
  --passphrase-file FILE
                       the passphrase: the bytes of FILE without one newline at
                       their end, at most 4096
  -o, --output OUT     write OUT, whole or not at all; OUT must not exist
  -f, --force          replace OUT if it exists
  --aad TEXT           bind the file to TEXT: it opens with the same TEXT alone
  --range START LEN    write LEN bytes from byte START on, or as many as there are
  --progress           show progress on standard error if it is a terminal
  -h, --help           print this help
  -V, --version        print the version

exit status: 0 success; 1 the file does not open (another key, passphrase or TEXT,
or the file was changed or cut); 2 wrong usage; 3 reading or writing failed.
If opening fails, what was written to standard output is authentic, but may be
only a beginning of what was asked for: discard it.";

/// Whether a file is sealed or opened.
#[derive(Clone, Copy)]
pub enum Action {
    Seal,
    Open,
}

/// A file with a key.
#[derive(Drop)]
pub struct KeyFile {
    /// The name of the file, or `None` for standard input.
    pub name: Option<Name>,
}

/// Where the key or the passphrase is.
#[derive(Drop)]
pub enum SecretFile {
    /// A file with a key.
    Key(KeyFile),
    /// The name of a file with a passphrase, or `None` for standard input.
    Passphrase(Option<Name>),
    /// A passphrase is typed on the terminal.
    Typed,
}

/// A file to be sealed or opened.
#[derive(Drop)]
pub struct Conversion {
    /// Whether to seal or to open.
    pub action: Action,
    /// Where the key or the passphrase is.
    pub secret_file: SecretFile,
    /// IN, or `None` for standard input.
    pub input: Option<Name>,
    /// OUT, or `None` for standard output.
    pub output: Option<Name>,
    /// Whether standard output is named, so that a sealed file may be written to a terminal.
    pub has_named_stdout: bool,
    /// What the file is bound to.
    pub aad: Option<Name>,
    /// The bytes to be written, if not all.
    pub range: Option<Range>,
    /// Whether OUT may be replaced.
    pub has_force: bool,
    /// Whether to show progress on standard error.
    pub has_progress: bool,
}

impl Conversion {
    /// Returns what the file is bound to.
    pub fn aad_bytes(&self) -> &[u8] {
        match &self.aad {
            Some(text) => text.as_bytes(),
            None => &[],
        }
    }

    /// Returns whether a sealed file is written to standard output, which is not named.
    pub fn seals_to_unnamed_stdout(&self) -> bool {
        matches!(self.action, Action::Seal) && self.output.is_none() && !self.has_named_stdout
    }
}

/// What the command line requests.
#[derive(Drop)]
pub enum Request {
    Help,
    Version,
    /// The key file to be created, or `None` for standard output.
    Keygen(Option<Name>),
    /// The sealed file, or `None` for standard input, and the file with the key that it is compared with.
    Inspect {
        file: Option<Name>,
        key_file: Option<KeyFile>,
    },
    Convert(Conversion),
}

/// A command: `seal`, `open`, `inspect` or `keygen`.
#[derive(Clone, Copy)]
enum Verb {
    Seal,
    Open,
    Inspect,
    Keygen,
}

/// An option that takes a value.
#[derive(Clone, Copy)]
enum Valued {
    Key,
    Passphrase,
    Output,
    Aad,
    RangeStart,
    RangeLen,
}

impl fmt::Display for Valued {
    fn fmt<W: fmt::Write>(&self, f: &mut fmt::Formatter<W>) -> fmt::Result {
        let name = match self {
            Valued::Key => "-k",
            Valued::Passphrase => "--passphrase-file",
            Valued::Output => "-o",
            Valued::Aad => "--aad",
            Valued::RangeStart | Valued::RangeLen => "--range",
        };
        write!(f, "{name}")
    }
}

/// The arguments that were read so far.
#[derive(Drop)]
struct Arguments {
    verb: Option<Verb>,
    key_file: Option<Name>,
    passphrase_file: Option<Name>,
    input: Option<Name>,
    output: Option<Name>,
    aad: Option<Name>,
    start: Option<u64>,
    len: Option<u64>,
    is_typed: bool,
    has_force: bool,
    has_progress: bool,
    has_help: bool,
    has_version: bool,
}

/// Returns the arguments of the program, without its name.
pub fn all_arguments(rt: &HostRuntime) -> io::Result<Vec<Name>> {
    let mut all = Vec::new(rt.alloc());
    for i in 1..usize::MAX {
        match argument(rt, i)? {
            Some(word) => all
                .push(word)
                .map_err(|_| io::Error::from(io::ErrorKind::OutOfMemory))?,
            None => break,
        }
    }
    Ok(all)
}

/// Returns the argument with this number, if there is one.
fn argument(rt: &HostRuntime, i: usize) -> io::Result<Option<Name>> {
    let mut bytes = Vec::new(rt.alloc());
    let mut room = 256usize;
    for _ in 0..24 {
        bytes.resize(room, 0)?;
        match rt.arg(i, &mut bytes) {
            Ok(len) => {
                bytes.truncate(len);
                return Ok(Some(Name::new(bytes)));
            }
            Err(FillError::NotPresent) => return Ok(None),
            Err(FillError::TooLong) => room = room.saturating_mul(2),
        }
    }
    Err(io::Error::from(io::ErrorKind::OutOfMemory))
}

/// Returns the number that a word writes in decimal digits.
fn number_in(word: &Name) -> Result<u64, Failure> {
    let digits = word.as_bytes();
    let number = str::from_utf8(digits)
        .ok()
        .filter(|_| digits.iter().all(|byte| byte.is_ascii_digit()))
        .and_then(|text| text.parse::<u64>().ok());
    number.ok_or(Failure::Use(anyhow!("--range takes two numbers: '{word}' is none")))
}

/// Returns the failure to allocate memory for the copy of a word.
fn out_of_memory(_error: AllocError) -> Failure {
    Failure::Io(Place::Console, io::Error::from(io::ErrorKind::OutOfMemory))
}

/// Keeps the value of an option. Fails if the option already has one.
fn set<T: Drop>(place: &mut Option<T>, option: Valued, value: T) -> Result<(), Failure> {
    if place.is_some() {
        return Err(Failure::Use(anyhow!("{option} is given twice")));
    }
    *place = Some(value);
    Ok(())
}

/// Keeps the value of an option that is the name of a file. Fails if the option already has one, or if the name is empty.
fn set_name(place: &mut Option<Name>, option: Valued, name: Name) -> Result<(), Failure> {
    if name.is_empty() {
        return Err(Failure::Use(anyhow!("{option} is given an empty file name")));
    }
    set(place, option, name)
}

impl Arguments {
    fn new() -> Arguments {
        Arguments {
            verb: None,
            key_file: None,
            passphrase_file: None,
            input: None,
            output: None,
            aad: None,
            start: None,
            len: None,
            is_typed: false,
            has_force: false,
            has_progress: false,
            has_help: false,
            has_version: false,
        }
    }

    /// Takes a long option without a value.
    fn take_flag(&mut self, word: &Name) -> Result<(), Failure> {
        match word.as_bytes() {
            b"--passphrase" => self.is_typed = true,
            b"--force" => self.has_force = true,
            b"--progress" => self.has_progress = true,
            b"--help" => self.has_help = true,
            b"--version" => self.has_version = true,
            _ => return Err(unknown_option(word)),
        }
        Ok(())
    }

    /// Takes the value of an option. Returns the option whose value comes next, if there is one.
    fn take_value(&mut self, option: Valued, word: Name) -> Result<Option<Valued>, Failure> {
        match option {
            Valued::Key => set_name(&mut self.key_file, option, word)?,
            Valued::Passphrase => set_name(&mut self.passphrase_file, option, word)?,
            Valued::Output => set_name(&mut self.output, option, word)?,
            Valued::Aad => set(&mut self.aad, option, word)?,
            Valued::RangeStart => {
                set(&mut self.start, option, number_in(&word)?)?;
                return Ok(Some(Valued::RangeLen));
            }
            Valued::RangeLen => set(&mut self.len, option, number_in(&word)?)?,
        }
        Ok(None)
    }

    /// Takes the options of a word: a long one, or short ones that are joined. Returns the option whose value is the next word,
    /// if there is one.
    fn take_options(&mut self, alloc: Global, word: &Name) -> Result<Option<Valued>, Failure> {
        match word.as_bytes() {
            [b'-', b'-', ..] => self.take_long(alloc, word),
            [_, letters @ ..] => self.take_short(alloc, word, letters),
            [] => Ok(None),
        }
    }

    /// Takes a long option, whose value may be in the same word: `--output=OUT`.
    fn take_long(&mut self, alloc: Global, word: &Name) -> Result<Option<Valued>, Failure> {
        let bytes = word.as_bytes();
        let (name, value) = match bytes.iter().position(|byte| *byte == b'=') {
            Some(at) => (&bytes[..at], Some(&bytes[at + 1..])),
            None => (bytes, None),
        };
        let Some(option) = long_option(name) else {
            self.take_flag(word)?;
            return Ok(None);
        };
        match value {
            Some(value) => self.take_joined(alloc, option, value),
            None => Ok(Some(option)),
        }
    }

    /// Takes short options that are joined. The value of the last may follow: `-foOUT`.
    fn take_short(
        &mut self,
        alloc: Global,
        word: &Name,
        letters: &[u8],
    ) -> Result<Option<Valued>, Failure> {
        for (i, letter) in letters.iter().enumerate() {
            let option = match letter {
                b'k' => Valued::Key,
                b'o' => Valued::Output,
                _ => {
                    self.take_letter(*letter, word)?;
                    continue;
                }
            };
            return match &letters[i + 1..] {
                [] => Ok(Some(option)),
                [b'=', ..] => Err(Failure::Use(anyhow!(
                    "{word}: {option} takes its value without ="
                ))),
                value => self.take_joined(alloc, option, value),
            };
        }
        Ok(None)
    }

    /// Takes a short option without a value, which is in this word.
    fn take_letter(&mut self, letter: u8, word: &Name) -> Result<(), Failure> {
        match letter {
            b'f' => self.has_force = true,
            b'h' => self.has_help = true,
            b'V' => self.has_version = true,
            _ => return Err(unknown_option(word)),
        }
        Ok(())
    }

    /// Takes the value of an option that is in the same word as the option.
    fn take_joined(
        &mut self,
        alloc: Global,
        option: Valued,
        value: &[u8],
    ) -> Result<Option<Valued>, Failure> {
        let value = value.to_vec(alloc).map_err(out_of_memory)?;
        self.take_value(option, Name::new(value))
    }

    /// Takes an argument that is not an option: the command, and then IN.
    fn take_operand(&mut self, word: Name) -> Result<(), Failure> {
        if self.verb.is_some() {
            if self.input.is_some() {
                return Err(Failure::Use(anyhow!("unexpected argument '{word}'")));
            }
            if word.is_empty() {
                return Err(Failure::Use(anyhow!("an argument is an empty file name")));
            }
            self.input = Some(word);
            return Ok(());
        }
        self.verb = match word.as_bytes() {
            b"seal" => Some(Verb::Seal),
            b"open" => Some(Verb::Open),
            b"inspect" => Some(Verb::Inspect),
            b"keygen" => Some(Verb::Keygen),
            _ => {
                let text = anyhow!("unknown command '{word}': seal, open, inspect or keygen");
                return Err(Failure::Use(text));
            }
        };
        Ok(())
    }

    /// Returns the range, if both of its numbers are given.
    fn range(&self) -> Option<Range> {
        match (self.start, self.len) {
            (Some(start), Some(len)) => Some(Range { start, len }),
            _ => None,
        }
    }

    /// Returns whether an option is given that only sealing or opening takes.
    fn has_conversion_options(&self) -> bool {
        self.passphrase_file.is_some()
            || self.is_typed
            || self.aad.is_some()
            || self.range().is_some()
            || self.has_force
            || self.has_progress
    }

    /// Returns the request that the arguments make.
    fn request(self) -> Result<Request, Failure> {
        if self.has_help {
            return Ok(Request::Help);
        }
        if self.has_version {
            return Ok(Request::Version);
        }
        match self.verb {
            Some(Verb::Seal) => self.conversion(Action::Seal),
            Some(Verb::Open) => self.conversion(Action::Open),
            Some(Verb::Inspect) => self.inspection(),
            Some(Verb::Keygen) => self.generation(),
            None => Err(Failure::Use(anyhow!("missing command: seal, open, inspect or keygen"))),
        }
    }
}

impl Arguments {
    /// Returns the request to seal or to open.
    fn conversion(self, action: Action) -> Result<Request, Failure> {
        let range = self.range();
        if range.is_some() && !matches!(action, Action::Open) {
            return Err(Failure::Use(anyhow!("--range is an option of open alone")));
        }
        let Arguments {
            key_file,
            passphrase_file,
            input,
            output,
            aad,
            is_typed,
            has_force,
            has_progress,
            ..
        } = self;
        let secret_file = secret_file_of(key_file, passphrase_file, is_typed)?;
        let input = input.and_then(file_of);
        if input.is_none() && secret_file.is_stdin() {
            let what = secret_file.kind_name();
            return Err(Failure::Use(anyhow!("standard input is both IN and the {what}")));
        }
        let has_named_stdout = output.as_ref().is_some_and(is_stdout);
        let output = output.and_then(output_of);
        if has_force && output.is_none() {
            let text = anyhow!("--force needs -o OUT, which is not standard output");
            return Err(Failure::Use(text));
        }
        Ok(Request::Convert(Conversion {
            action,
            secret_file,
            input,
            output,
            has_named_stdout,
            aad,
            range,
            has_force,
            has_progress,
        }))
    }

    /// Returns the request to inspect a file.
    fn inspection(self) -> Result<Request, Failure> {
        if self.output.is_some() || self.has_conversion_options() {
            return Err(Failure::Use(anyhow!("inspect takes [-k KEYFILE] FILE alone")));
        }
        let Arguments {
            key_file,
            input,
            ..
        } = self;
        let Some(file) = input else {
            return Err(Failure::Use(anyhow!("missing FILE")));
        };
        let file = file_of(file);
        let key_file = key_file.map(key_file_named);
        if file.is_none() && key_file.as_ref().is_some_and(|key| key.name.is_none()) {
            return Err(Failure::Use(anyhow!("standard input is both FILE and the key")));
        }
        Ok(Request::Inspect { file, key_file })
    }

    /// Returns the request to generate a key.
    fn generation(self) -> Result<Request, Failure> {
        if self.input.is_some() || self.key_file.is_some() || self.has_conversion_options() {
            return Err(Failure::Use(anyhow!("keygen takes -o KEYFILE alone")));
        }
        let Arguments { output, .. } = self;
        let Some(output) = output else {
            return Err(Failure::Use(anyhow!("missing -o KEYFILE")));
        };
        Ok(Request::Keygen(output_of(output)))
    }
}

impl Request {
    /// Returns the request of these arguments. After `--`, no argument is an option.
    pub fn from_arguments(alloc: Global, all: Vec<Name>) -> Result<Request, Failure> {
        let mut words = Arguments::new();
        let mut option = None;
        let mut has_ended = false;
        for word in all {
            if let Some(valued) = option.take() {
                option = words.take_value(valued, word)?;
            } else if has_ended || !is_option(&word) {
                words.take_operand(word)?;
            } else if word.as_bytes() == b"--".as_slice() {
                has_ended = true;
            } else {
                option = words.take_options(alloc, &word)?;
            }
        }
        if let Some(option) = option {
            return Err(Failure::Use(anyhow!("{option} needs a value")));
        }
        words.request()
    }

    /// Returns the name of a file, if it is given.
    pub fn name_of(&self, place: Place) -> Option<&Name> {
        match (self, place) {
            (Request::Keygen(name), Place::Output) => name.as_ref(),
            (Request::Inspect { file, .. }, Place::Input) => file.as_ref(),
            (Request::Inspect { key_file, .. }, Place::KeyFile) => match key_file {
                Some(key_file) => key_file.name.as_ref(),
                None => None,
            },
            (Request::Convert(conversion), Place::KeyFile | Place::PassphraseFile) => {
                conversion.secret_file.name()
            }
            (Request::Convert(conversion), Place::Input) => conversion.input.as_ref(),
            (Request::Convert(conversion), Place::Output) => conversion.output.as_ref(),
            _ => None,
        }
    }
}

impl SecretFile {
    /// Returns the name of the file, if it has one.
    pub fn name(&self) -> Option<&Name> {
        match self {
            SecretFile::Key(key_file) => key_file.name.as_ref(),
            SecretFile::Passphrase(name) => name.as_ref(),
            SecretFile::Typed => None,
        }
    }

    /// Returns whether the key or the passphrase is read from standard input.
    fn is_stdin(&self) -> bool {
        self.name().is_none() && !matches!(self, SecretFile::Typed)
    }

    /// Returns the word for what the file contains.
    pub fn kind_name(&self) -> &'static str {
        match self {
            SecretFile::Key(_) => "key",
            SecretFile::Passphrase(_) | SecretFile::Typed => "passphrase",
        }
    }
}

/// Returns where the key or the passphrase is. Fails unless exactly one of the three options is given.
fn secret_file_of(
    key_file: Option<Name>,
    passphrase_file: Option<Name>,
    is_typed: bool,
) -> Result<SecretFile, Failure> {
    match (key_file, passphrase_file, is_typed) {
        (Some(name), None, false) => Ok(SecretFile::Key(key_file_named(name))),
        (None, Some(name), false) => Ok(SecretFile::Passphrase(file_of(name))),
        (None, None, true) => Ok(SecretFile::Typed),
        (None, None, false) => {
            let text = anyhow!("missing --passphrase, -k KEYFILE or --passphrase-file FILE");
            Err(Failure::Use(text))
        }
        (Some(_), _, true) => Err(two_secrets("-k", "--passphrase")),
        (Some(_), Some(_), false) => Err(two_secrets("-k", "--passphrase-file")),
        (None, Some(_), true) => Err(two_secrets("--passphrase", "--passphrase-file")),
    }
}

/// Returns the failure that two options are given, each of which names a key or a passphrase.
fn two_secrets(first: &str, second: &str) -> Failure {
    let text = anyhow!("{first} and {second} are given, of which a file takes one");
    Failure::Use(text)
}

/// Returns whether the argument is an option: it begins with `-`, and is not `-` alone.
fn is_option(word: &Name) -> bool {
    let bytes = word.as_bytes();
    bytes.len() > 1 && bytes[0] == b'-'
}

/// Returns whether this is a name of standard input.
fn is_stdin(name: &Name) -> bool {
    matches!(
        name.as_bytes(),
        b"-" | b"/dev/stdin" | b"/dev/fd/0" | b"/proc/self/fd/0"
    )
}

/// Returns the name of a file, or `None` for a name of standard input.
fn file_of(name: Name) -> Option<Name> {
    if is_stdin(&name) { None } else { Some(name) }
}

/// Returns whether this is a name of standard output.
fn is_stdout(name: &Name) -> bool {
    matches!(
        name.as_bytes(),
        b"-" | b"/dev/stdout" | b"/dev/fd/1" | b"/proc/self/fd/1"
    )
}

/// Returns the name of a file, or `None` for a name of standard output.
fn output_of(name: Name) -> Option<Name> {
    if is_stdout(&name) { None } else { Some(name) }
}

/// Returns the key file with this name.
fn key_file_named(name: Name) -> KeyFile {
    KeyFile {
        name: file_of(name),
    }
}

/// Returns the failure that a word is no option.
fn unknown_option(word: &Name) -> Failure {
    Failure::Use(anyhow!("unknown option {word}"))
}

/// Returns the option with this long name, if it takes a value.
fn long_option(name: &[u8]) -> Option<Valued> {
    match name {
        b"--key" => Some(Valued::Key),
        b"--passphrase-file" => Some(Valued::Passphrase),
        b"--output" => Some(Valued::Output),
        b"--aad" => Some(Valued::Aad),
        b"--range" => Some(Valued::RangeStart),
        _ => None,
    }
}
