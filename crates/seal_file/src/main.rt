//! The program `seal_file`: seals a file or opens a sealed one, under a key or a passphrase, and creates keys.
#![tactic(auto)]

mod failure;
mod files;
mod hints;
mod name;
mod options;
mod output;
mod progress;
mod range;

ghost use Rattle.std.specs.Prelude.{◌≤◌, length};

use anyhow::anyhow;
use failure::{Failure, Place};
use hints::{KeyText, MAX_KEY_TEXT_LEN, Oddity};
use name::Name;
use options::{Action, Conversion, HELP, KeyFile, Request, SecretFile, VERSION};
use output::{Access, Inputs, NUMBER_LEN, NewFile, check_key_target, check_target};
use progress::Source;
use range::{Range, RangeWriter};
use sealed_file::{
    CHUNK_LEN, FileError, FileKey, FileRandom, HEADER_LEN, ITERATIONS, MAX_AAD_LEN,
    PASSPHRASE_HEADER_LEN, PASSPHRASE_VERSION, SealedReader, check_header, iterations_in,
    open_with_aad, open_with_passphrase, plaintext_len, seal_with_aad, seal_with_passphrase,
};
use std::alloc::Global;
use std::fs::{File, Metadata};
use std::io::{self, Chain, Cursor, ErrorKind, IsTerminal, Read, Write};
use std::process::ExitCode;
use std::random::RandomSource;

/// The length of a key in bytes.
const KEY_LEN: usize = 32;

/// The most bytes that a passphrase may have.
const MAX_PASSPHRASE_LEN: usize = 4096;

fn main(rt: HostRuntime) -> ExitCode {
    let request = match read_request(&rt) {
        Ok(request) => request,
        Err(failure) => return report(&rt, &Request::Help, &failure),
    };
    match run(&rt, &request) {
        Ok(()) => ExitCode::SUCCESS,
        Err(failure) => report(&rt, &request, &failure),
    }
}

/// Returns the request that the command line makes.
fn read_request(rt: &HostRuntime) -> Result<Request, Failure> {
    let words = with_place(Place::Console, options::all_arguments(rt))?;
    Request::from_arguments(rt.alloc(), words)
}

/// Writes to standard error why the program ends early, and returns its exit status.
fn report(rt: &HostRuntime, request: &Request, failure: &Failure) -> ExitCode {
    let _ = match failure.place() {
        Some(place) => report_at(rt, request, place, failure),
        None => eprintln!(rt; "seal_file: {failure}"),
    };
    ExitCode::from(failure.status())
}

/// Writes a message about a file or a stream to standard error.
fn report_at(
    rt: &HostRuntime,
    request: &Request,
    place: Place,
    failure: &Failure,
) -> io::Result<()> {
    if let Some(name) = request.name_of(place) {
        return eprintln!(rt; "seal_file: {name}: {failure}");
    }
    match place {
        Place::Input | Place::KeyFile | Place::PassphraseFile => {
            eprintln!(rt; "seal_file: standard input: {failure}")
        }
        Place::Output => eprintln!(rt; "seal_file: standard output: {failure}"),
        Place::Random => eprintln!(rt; "seal_file: random bytes: {failure}"),
        Place::Console => eprintln!(rt; "seal_file: {failure}"),
    }
}

fn run(rt: &HostRuntime, request: &Request) -> Result<(), Failure> {
    match request {
        Request::Help => with_place(Place::Output, println!(rt; "{HELP}")),
        Request::Version => with_place(Place::Output, println!(rt; "{VERSION}")),
        Request::Inspect { file, key_file } => inspect(rt, file.as_ref(), key_file.as_ref()),
        Request::Keygen(name) => keygen(rt, name.as_ref()),
        Request::Convert(conversion) => convert(rt, conversion),
    }
}

/// Returns the outcome of a call. A failure gets the place where it happened.
fn with_place<T>(place: Place, outcome: io::Result<T>) -> Result<T, Failure> {
    outcome.map_err(|error| Failure::Io(place, error))
}

/// Creates a key in a new file, or writes it to standard output if that is no terminal.
fn keygen(rt: &HostRuntime, name: Option<&Name>) -> Result<(), Failure> {
    if name.is_none() && rt.stdout().is_terminal() {
        return Err(Failure::KeyTerminal);
    }
    let mut key = [0; KEY_LEN];
    with_place(Place::Random, rt.fill_bytes(&mut key))?;
    let Some(name) = name else {
        let mut output = io::writer(rt);
        with_place(Place::Output, output.write_all(&key))?;
        return with_place(Place::Output, output.flush());
    };
    check_key_target(rt, name)?;
    let mut file = new_file(rt, name, Access::Owner)?;
    let written = with_place(Place::Output, file.write_all(&key));
    file.finish(rt, name, written, false)
}

/// Creates the file that is to become the one with this name.
fn new_file(rt: &HostRuntime, target: &Name, access: Access) -> Result<NewFile, Failure> {
    let mut number = [0; NUMBER_LEN];
    with_place(Place::Random, rt.fill_bytes(&mut number))?;
    with_place(Place::Output, NewFile::create(rt, target, number, access))
}

/// Returns the first bytes of a file or of standard input, at most this many, and its metadata if it can be identified.
fn read_front(
    rt: &HostRuntime,
    name: Option<&Name>,
    most: usize,
) -> io::Result<(Vec<u8>, Option<Metadata>)> {
    if let Some(name) = name {
        return front_of(rt, files::open(rt, name)?, most);
    }
    let mut bytes = Vec::new(rt.alloc());
    rt.reader().take(most as u64).read_to_end(&mut bytes)?;
    Ok((bytes, files::stdin_metadata(rt).ok()))
}

/// Returns the first bytes of an open file, at most this many, and its metadata if it can be identified.
fn front_of(rt: &HostRuntime, file: File, most: usize) -> io::Result<(Vec<u8>, Option<Metadata>)> {
    let mut bytes = Vec::new(rt.alloc());
    let metadata = file.metadata().ok();
    file.take(most as u64).read_to_end(&mut bytes)?;
    Ok((bytes, metadata))
}

/// Prints what a header and the length of a file say, and whether the commitment is that of a key.
fn inspect(
    rt: &HostRuntime,
    name: Option<&Name>,
    key_file: Option<&KeyFile>,
) -> Result<(), Failure> {
    let front = read_front(rt, name, PASSPHRASE_HEADER_LEN);
    let (header, metadata) = with_place(Place::Input, front)?;
    let metadata = metadata.as_ref();
    match check_header(&header) {
        Ok(()) => with_place(Place::Output, print_len(rt, metadata, None))?,
        Err(FileError::AnotherVersion(PASSPHRASE_VERSION)) if key_file.is_none() => {
            let iterations = iterations_in(&header).map_err(Failure::Refused)?;
            with_place(Place::Output, print_len(rt, metadata, Some(iterations)))?;
        }
        Err(error) => return Err(Failure::Refused(error)),
    }
    if let Some(key_file) = key_file {
        let (key, of_key) = read_key(rt, key_file)?;
        let inputs = Inputs {
            input: metadata,
            secret: of_key.as_ref(),
        };
        if inputs.are_one_stream(name.is_some() && key_file.name.is_some()) {
            return Err(one_stream(name, "FILE", "key"));
        }
        if !key.is_of(&header) {
            return Err(Failure::Refused(FileError::WrongKey));
        }
        with_place(
            Place::Output,
            println!(rt; "the header commits to this key"),
        )?;
    }
    with_place(Place::Output, println!(rt; "nothing else was checked"))
}

/// Prints the version, the iterations if it is the version for passphrases, and the length that the sealed file opens to, by its
/// own length.
fn print_len(
    rt: &HostRuntime,
    metadata: Option<&Metadata>,
    iterations: Option<u32>,
) -> io::Result<()> {
    let more = match iterations {
        Some(count) => {
            println!(rt; "version {PASSPHRASE_VERSION}, a passphrase, {count} iterations")?;
            PASSPHRASE_HEADER_LEN - HEADER_LEN
        }
        None => {
            println!(rt; "version {}", sealed_file::VERSION)?;
            0
        }
    };
    let Some(metadata) = metadata else {
        return println!(rt; "length unknown: standard input cannot be identified");
    };
    if !metadata.is_file() {
        return println!(rt; "length unknown: not a regular file");
    }
    match plaintext_len(metadata.len().saturating_sub(more as u64)) {
        Some(len) => println!(rt; "length {len}, unless the file was cut or lengthened"),
        None => println!(rt; "no sealed file has this length: bytes were cut off or appended"),
    }
}

/// Seals a file or opens a sealed one.
fn convert<'r>(rt: &'r HostRuntime, conversion: &'r Conversion) -> Result<(), Failure> {
    if conversion.seals_to_unnamed_stdout() && rt.stdout().is_terminal() {
        return Err(Failure::Terminal);
    }
    let mut file = match &conversion.input {
        Some(name) => Some(with_place(Place::Input, files::open(rt, name))?),
        None => None,
    };
    let metadata = match &file {
        Some(file) => file.metadata().ok(),
        None => files::stdin_metadata(rt).ok(),
    };
    if metadata.as_ref().is_some_and(|it| it.is_dir()) {
        return Err(Failure::InputFolder);
    }
    let front = match &mut file {
        Some(file) => check_first(rt, conversion, metadata.as_ref(), file)?,
        None => check_first(rt, conversion, metadata.as_ref(), &mut rt.reader())?,
    };
    let (secret, of_secret) = read_secret(rt, conversion)?;
    let inputs = Inputs {
        input: metadata.as_ref(),
        secret: of_secret.as_ref(),
    };
    if inputs.are_one_stream(file.is_some() && conversion.secret_file.name().is_some()) {
        let what = conversion.secret_file.kind_name();
        return Err(one_stream(conversion.input.as_ref(), "IN", what));
    }
    let job = Job {
        rt,
        conversion,
        secret: &secret,
        inputs,
    };
    match file {
        Some(file) => job.write(job.input_of(front, file)),
        None => job.write(Input::Stream(job.source_of(front, rt.reader()))),
    }
}

/// Checks before a passphrase is typed what else would be found out later: that the AAD is not too long, that OUT may be written,
/// and that IN, if it is opened, begins as a file that is sealed under a passphrase. Returns the bytes of IN that it read.
fn check_first<R: Read>(
    rt: &HostRuntime,
    conversion: &Conversion,
    metadata: Option<&Metadata>,
    input: &mut R,
) -> Result<Vec<u8>, Failure> {
    let mut front = Vec::new(rt.alloc());
    if !matches!(conversion.secret_file, SecretFile::Typed) {
        return Ok(front);
    }
    if conversion.aad_bytes().len() > MAX_AAD_LEN {
        return Err(Failure::AadTooLong);
    }
    if let Some(name) = &conversion.output {
        // What is typed is in no file, and IN stands for one.
        let inputs = Inputs {
            input: metadata,
            secret: metadata,
        };
        check_target(rt, name, inputs, conversion.has_force)?;
    }
    if matches!(conversion.action, Action::Open) {
        let mut header = input.take(PASSPHRASE_HEADER_LEN as u64);
        with_place(Place::Input, header.read_to_end(&mut front))?;
        iterations_in(&front).map_err(Failure::Refused)?;
    }
    Ok(front)
}

/// Returns the failure that one stream is named for two files: for IN or FILE, and for that with the key or the passphrase.
fn one_stream(name: Option<&Name>, role: &str, what: &str) -> Failure {
    Failure::Use(match name {
        Some(name) => anyhow!("{name} is both {role} and the {what}"),
        None => anyhow!("standard input is both {role} and the {what}"),
    })
}

/// What a file is sealed under.
#[derive(Drop)]
enum Secret {
    Key(FileKey),
    Passphrase(Vec<u8>),
}

/// What is sealed or opened: the bytes of a stream, or a part of a sealed file that can be read at any position.
#[derive(Drop)]
enum Input<'r, 'a, R: Read + Drop> {
    Stream(Source<'r, Chain<Cursor<Vec<u8>>, R>>),
    Part(File, Range, &'a FileKey),
}

// `Job` has two lifetimes: with one, the borrow checker does not cover `convert`, whose locals are borrowed beside its
// parameters.
/// A conversion that is carried out, with the key or the passphrase and the metadata of the files that it reads.
#[derive(Clone, Copy)]
struct Job<'r, 'a> {
    rt: &'r HostRuntime,
    conversion: &'r Conversion,
    secret: &'a Secret,
    inputs: Inputs<'a>,
}

impl<'r, 'a> Job<'r, 'a> {
    /// Returns a reader of IN that can show how much of it was read, given the bytes that were read already and the rest.
    fn source_of<R: Read + Drop>(
        &self,
        front: Vec<u8>,
        rest: R,
    ) -> Source<'r, Chain<Cursor<Vec<u8>>, R>> {
        let len = match self.inputs.input {
            Some(metadata) if metadata.is_file() => Some(metadata.len()),
            _ => None,
        };
        let is_shown = self.conversion.has_progress && self.rt.stderr().is_terminal();
        Source::new(self.rt, Cursor::new(front).chain(rest), len, is_shown)
    }

    /// Returns what is read from an open file, given the bytes that were read already. A range of a regular file that is sealed
    /// under a key is read at its place, and all else as a stream.
    fn input_of(&self, front: Vec<u8>, file: File) -> Input<'r, 'a, File> {
        let is_file = self.inputs.input.is_some_and(|metadata| metadata.is_file());
        match (self.conversion.range, self.secret) {
            (Some(range), Secret::Key(key)) if is_file => Input::Part(file, range, key),
            _ => Input::Stream(self.source_of(front, file)),
        }
    }

    /// Writes OUT or standard output.
    fn write<R: Read + Drop>(&self, input: Input<'_, '_, R>) -> Result<(), Failure> {
        let Some(name) = &self.conversion.output else {
            let mut output = io::writer(self.rt);
            self.seal_or_open(input, &mut output)?;
            return with_place(Place::Output, output.flush());
        };
        let has_force = self.conversion.has_force;
        let access = check_target(self.rt, name, self.inputs, has_force)?;
        let mut file = new_file(self.rt, name, access)?;
        let written = self.seal_or_open(input, &mut file);
        file.finish(self.rt, name, written, has_force)
    }

    /// Seals or opens `input`, and writes the result to `output`.
    fn seal_or_open<R: Read + Drop, W: Write>(
        &self,
        input: Input<'_, '_, R>,
        output: &mut W,
    ) -> Result<(), Failure> {
        let aad = self.conversion.aad_bytes();
        if aad.len() > MAX_AAD_LEN {
            return Err(Failure::AadTooLong);
        }
        let mut source = match input {
            Input::Stream(source) => source,
            Input::Part(file, range, key) => {
                return write_range(self.rt, key, aad, file, range, output);
            }
        };
        let passed = match (self.conversion.action, self.conversion.range) {
            (Action::Seal, _) => {
                let random = with_place(Place::Random, FileRandom::draw(self.rt))?;
                self.seal(random, aad, &mut source, output)
            }
            (Action::Open, None) => self.open(aad, &mut source, output),
            (Action::Open, Some(range)) => {
                let mut part = RangeWriter::new(output, range);
                self.open(aad, &mut source, &mut part)
            }
        };
        source.end();
        passed.map_err(|error| stream_failure(error, source.has_failed()))
    }

    /// Seals the bytes of `input`, with the iterations that passphrases have.
    fn seal<R: Read, W: Write>(
        &self,
        random: FileRandom,
        aad: &[u8],
        input: &mut R,
        output: &mut W,
    ) -> Result<(), FileError>
        requires { length aad.now ≤ 4096 }
    {
        let alloc = self.rt.alloc();
        match self.secret {
            Secret::Key(key) => seal_with_aad(alloc, key, random, aad, input, output),
            Secret::Passphrase(text) => {
                seal_with_passphrase(alloc, text, ITERATIONS, random, aad, input, output)
            }
        }
    }

    /// Opens the sealed file in `input`.
    fn open<R: Read, W: Write>(
        &self,
        aad: &[u8],
        input: &mut R,
        output: &mut W,
    ) -> Result<(), FileError>
        requires { length aad.now ≤ 4096 }
    {
        let alloc = self.rt.alloc();
        match self.secret {
            Secret::Key(key) => open_with_aad(alloc, key, aad, input, output),
            Secret::Passphrase(text) => open_with_passphrase(alloc, text, aad, input, output),
        }
    }
}

/// Returns the failure of sealing or opening a stream, given whether reading it failed.
fn stream_failure(error: FileError, has_read_failed: bool) -> Failure {
    match error {
        FileError::Io(error) if has_read_failed => Failure::Io(Place::Input, error),
        FileError::Io(error) => Failure::Io(Place::Output, error),
        FileError::Refused(0) => Failure::FirstRefused(0),
        error => Failure::Refused(error),
    }
}

/// Returns a buffer that is as long as a chunk.
fn buffer(alloc: Global) -> io::Result<Vec<u8>> {
    let mut buf = Vec::new(alloc);
    buf.resize(CHUNK_LEN, 0)?;
    Ok(buf)
}

/// Writes the bytes of a range of a sealed file.
fn write_range<W: Write>(
    rt: &HostRuntime,
    key: &FileKey,
    aad: &[u8],
    file: File,
    range: Range,
    output: &mut W,
) -> Result<(), Failure>
    requires { length aad.now ≤ 4096 }
{
    let mut reader = match SealedReader::new(rt.alloc(), key, aad, file, 0) {
        Ok(reader) => reader,
        Err(FileError::Refused(last)) => return Err(Failure::FirstRefused(last)),
        Err(error) => return Err(read_failure(error)),
    };
    let mut buf = with_place(Place::Input, buffer(rt.alloc()))?;
    let mut range = range;
    for _ in 0..u64::MAX {
        let asked = range.len.min(buf.len() as u64) as usize;
        let count = reader
            .read_at(range.start, &mut buf[..asked])
            .map_err(read_failure)?;
        if count == 0 {
            break;
        }
        with_place(Place::Output, output.write_all(&buf[..count]))?;
        range = range.after(count);
    }
    Ok(())
}

/// Returns the failure of reading a sealed file.
fn read_failure(error: FileError) -> Failure {
    match error {
        FileError::Io(error) => Failure::Io(Place::Input, error),
        FileError::OutOfMemory => {
            Failure::Io(Place::Input, io::Error::from(ErrorKind::OutOfMemory))
        }
        error => Failure::Refused(error),
    }
}

/// Returns the key or the passphrase, and the metadata of its file.
fn read_secret(
    rt: &HostRuntime,
    conversion: &Conversion,
) -> Result<(Secret, Option<Metadata>), Failure> {
    match &conversion.secret_file {
        SecretFile::Key(key_file) => {
            let (key, metadata) = read_key(rt, key_file)?;
            Ok((Secret::Key(key), metadata))
        }
        SecretFile::Passphrase(name) => {
            let name = name.as_ref();
            let front = read_front(rt, name, MAX_PASSPHRASE_LEN + 2);
            let (bytes, metadata) = with_place(Place::PassphraseFile, front)?;
            warn_of_readable_secret(rt, name, metadata.as_ref(), "passphrase");
            Ok((passphrase_of(rt, bytes)?, metadata))
        }
        SecretFile::Typed => {
            let is_new = matches!(conversion.action, Action::Seal);
            let file = files::open_typed(rt, is_new).map_err(|_error| Failure::NotAsked)?;
            let front = front_of(rt, file, MAX_PASSPHRASE_LEN + 2);
            let (bytes, metadata) = with_place(Place::Console, front)?;
            Ok((passphrase_of(rt, bytes)?, metadata))
        }
    }
}

/// Warns if the key or the passphrase is in a regular file that others may read.
fn warn_of_readable_secret(
    rt: &HostRuntime,
    name: Option<&Name>,
    metadata: Option<&Metadata>,
    what: &str,
) {
    if !metadata.is_some_and(|it| it.is_file() && files::others_may_read(it)) {
        return;
    }
    let _ = match name {
        Some(name) => eprintln!(rt; "seal_file: {name}: warning: others may read this {what}"),
        None => eprintln!(rt; "seal_file: standard input: warning: others may read this {what}"),
    };
}

/// Returns the passphrase in a file with these bytes: all but one newline at their end. Warns if it is odd.
fn passphrase_of(rt: &HostRuntime, bytes: Vec<u8>) -> Result<Secret, Failure> {
    let mut bytes = bytes;
    if bytes.last() == Some(&b'\n') {
        bytes.pop();
    }
    for oddity in Oddity::ALL {
        if oddity.is_in(&bytes) {
            let _ = eprintln!(rt; "seal_file: warning: the passphrase {oddity}");
        }
    }
    if bytes.is_empty() || bytes.len() > MAX_PASSPHRASE_LEN {
        return Err(Failure::PassphraseLength);
    }
    Ok(Secret::Passphrase(bytes))
}

/// Returns the key in a file of 32 bytes, or on standard input, and the metadata of the file.
fn read_key(rt: &HostRuntime, key_file: &KeyFile) -> Result<(FileKey, Option<Metadata>), Failure> {
    let name = key_file.name.as_ref();
    let (bytes, metadata) = with_place(Place::KeyFile, read_front(rt, name, MAX_KEY_TEXT_LEN))?;
    warn_of_readable_secret(rt, name, metadata.as_ref(), "key");
    let key = FileKey::new(&bytes).map_err(|_| Failure::KeyLength(KeyText::of(&bytes)))?;
    Ok((key, metadata))
}
