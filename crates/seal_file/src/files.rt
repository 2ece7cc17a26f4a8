//! Calls on files by their names: opening, creating, renaming and removing them, and what their metadata say. The calls of std
//! take a name as text, so a name that is not UTF-8 is rejected.

use crate::name::Name;
use std::fs::{self, File, Metadata, Permissions};
use std::io::{self, ErrorKind};
use std::os::unix::fs::{MetadataExt, OpenOptionsExt, PermissionsExt};
use std::str;

/// The mode of a file that its owner alone reads and writes.
pub const OWNER_ALONE: u32 = 0o600;

/// The most links that Linux follows one after another.
const MAX_LINKS: usize = 40;

/// Returns whether the file's group or all users may read it.
pub fn others_may_read(metadata: &Metadata) -> bool {
    metadata.permissions().mode() & 0o044 != 0
}

/// Returns who may read, write and run the file: of its mode, the bits 0777.
pub fn mode_of(metadata: &Metadata) -> u32 {
    metadata.permissions().mode() & 0o777
}

/// Gives a file this mode, whatever the process's umask is.
pub fn set_mode(file: &File, mode: u32) -> io::Result<()> {
    if mode_of(&file.metadata()?) == mode {
        return Ok(());
    }
    file.set_permissions(Permissions::from_mode(mode))
}

/// Returns the group of the file.
pub fn group_of(metadata: &Metadata) -> u32 {
    metadata.gid()
}

/// Returns whether both metadata are of the same file.
pub fn are_same(first: &Metadata, second: &Metadata) -> bool {
    first.dev() == second.dev() && first.ino() == second.ino()
}

/// Returns the name as text. Fails if it is not UTF-8.
fn text_of(name: &Name) -> io::Result<&str> {
    match str::from_utf8(name.as_bytes()) {
        Ok(text) => Ok(text),
        Err(_) => {
            let text = "the file's name isn't UTF-8: redirect standard input or output";
            Err(io::Error::new(ErrorKind::InvalidInput, text))
        }
    }
}

/// Opens a file for reading.
pub fn open(rt: &HostRuntime, name: &Name) -> io::Result<File> {
    File::open(rt, text_of(name)?)
}

/// Asks for a passphrase on the terminal, twice for a new one. Returns a file of what is typed.
///
/// No file has these names, since /dev/tty is no folder. In the program of `dist`, its C code asks when one of them is opened.
pub fn open_typed(rt: &HostRuntime, is_new: bool) -> io::Result<File> {
    if is_new {
        File::open(rt, "/dev/tty/new-passphrase")
    } else {
        File::open(rt, "/dev/tty/passphrase")
    }
}

/// Creates a new file with this mode, for writing. Fails if the name exists.
pub fn create_new(rt: &HostRuntime, name: &Name, mode: u32) -> io::Result<File> {
    File::options()
        .write(true)
        .create_new(true)
        .mode(mode)
        .open(rt, text_of(name)?)
}

/// Returns the metadata of standard input, for which the kernel's /proc has a name.
pub fn stdin_metadata(rt: &HostRuntime) -> io::Result<Metadata> {
    fs::metadata(rt, "/proc/self/fd/0")
}

/// Returns the metadata of the file with this name.
pub fn metadata_of(rt: &HostRuntime, name: &Name) -> io::Result<Metadata> {
    fs::metadata(rt, text_of(name)?)
}

/// Returns whether a file or a link has this name. The link may lead to no file.
pub fn exists(rt: &HostRuntime, name: &Name) -> io::Result<bool> {
    match fs::symlink_metadata(rt, text_of(name)?) {
        Ok(_) => Ok(true),
        Err(error) if error.kind() == ErrorKind::NotFound => Ok(false),
        Err(error) => Err(error),
    }
}

/// Returns whether the name is that of a file in the kernel's /proc, mounted or not.
fn is_in_proc(rt: &HostRuntime, name: &Name) -> io::Result<bool> {
    if name.as_bytes().starts_with(b"/proc/") {
        return Ok(true);
    }
    let folder = name.folder(rt.alloc())?;
    match (fs::metadata(rt, "/proc/self"), metadata_of(rt, &folder)) {
        (Ok(proc), Ok(folder)) => Ok(proc.dev() == folder.dev()),
        _ => Ok(false),
    }
}

/// Returns whether the name is that of a file in /proc, or of a link that leads there, such as /dev/stderr.
pub fn leads_into_proc(rt: &HostRuntime, name: &Name) -> io::Result<bool> {
    let mut name = name.clone()?;
    for _ in 0..=MAX_LINKS {
        if is_in_proc(rt, &name)? {
            return Ok(true);
        }
        let Ok(text) = fs::read_link(rt, text_of(&name)?) else {
            break;
        };
        name = name.target(rt.alloc(), text.into_os_string().as_bytes())?;
    }
    Ok(false)
}

/// Renames a file, and replaces any file that has the new name.
pub fn rename(rt: &HostRuntime, from: &Name, to: &Name) -> io::Result<()> {
    fs::rename(rt, text_of(from)?, text_of(to)?)
}

/// Gives a file a second name, which must not exist.
pub fn link(rt: &HostRuntime, from: &Name, to: &Name) -> io::Result<()> {
    fs::hard_link(rt, text_of(from)?, text_of(to)?)
}

/// Removes a file's name.
pub fn remove(rt: &HostRuntime, name: &Name) -> io::Result<()> {
    fs::remove_file(rt, text_of(name)?)
}

/// Waits until the folder of a file has reached the device, with the file's name. Returns false if the process may not read the
/// folder, and so cannot.
pub fn sync_folder_of(rt: &HostRuntime, name: &Name) -> io::Result<bool> {
    let folder = name.folder(rt.alloc())?;
    match open(rt, &folder) {
        Ok(file) => file.sync_all()?,
        Err(error) if error.kind() == ErrorKind::PermissionDenied => return Ok(false),
        Err(error) => return Err(error),
    }
    Ok(true)
}
