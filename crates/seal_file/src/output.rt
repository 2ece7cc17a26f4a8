//! The files that the program creates: whether a name may be written, and files that are written whole or not at all.

ghost use Rattle.std.specs.Prelude.{IfSome, IsSome, IsTrue};
ghost use Rattle.std.specs.Fs.{IsFile, file_type};

use crate::failure::{Failure, Place};
use crate::files;
use crate::name::Name;
use std::fs::{File, Metadata};
use std::io::{self, ErrorKind, Write};

/// The length in bytes of the random number that makes a name unique.
pub const NUMBER_LEN: usize = 8;

/// A new file beside the one that it is to become.
pub struct NewFile {
    file: File,
    name: Name,
    /// The mode that it gets before it is renamed. Until then its owner alone may read it.
    mode: u32,
}

/// A new file that `NewFile::synced` returned. Only such a file can be given its name.
pub struct SyncedFile {
    name: Name,
}

/// The files that are read, from which OUT must differ. A file is `None` if it cannot be identified, as standard input cannot
/// where /proc is not mounted.
#[derive(Clone, Copy)]
pub struct Inputs<'a> {
    /// IN.
    pub input: Option<&'a Metadata>,
    /// The file with the key or the passphrase.
    pub secret: Option<&'a Metadata>,
}

impl Inputs<'_> {
    /// Checks that a file is neither IN nor that with the key or the passphrase.
    fn check_not_input(self, there: &Metadata) -> Result<(), Failure> {
        if self.input.is_some_and(|from| files::are_same(from, there)) {
            return Err(Failure::SameFile);
        }
        if self.secret.is_some_and(|from| files::are_same(from, there)) {
            return Err(Failure::SecretFile);
        }
        Ok(())
    }

    /// Returns whether IN and the secret come from one stream, so that neither could be read whole. A regular file that both name
    /// is opened twice, and then each is a stream of its own.
    pub fn are_one_stream(self, have_names: bool) -> bool
        ensures known { IsTrue result → IsSome self.entry.input × IsSome self.entry.secret }
        ensures stream { IsTrue result → IsTrue have_names → IfSome self.entry.input (λ it. ¬ IsFile (file_type it.now)) }
    {
        let (Some(input), Some(secret)) = (self.input, self.secret) else {
            return false;
        };
        let are_read_twice = have_names && input.is_file();
        !are_read_twice && files::are_same(input, secret)
    }

    /// Checks that both files can be identified.
    fn check_known(self) -> Result<(), Failure> {
        if self.input.is_none() || self.secret.is_none() {
            return Err(Failure::Unidentified);
        }
        Ok(())
    }
}

/// Who may read, write and run a new file.
#[derive(Clone, Copy)]
pub enum Access {
    /// Whoever the process's umask lets read and write it.
    New,
    /// Its owner alone, who reads and writes it.
    Owner,
    /// Whoever may do so with the file that it replaces, which has this mode and this group.
    Replaced { mode: u32, group: u32 },
}

impl Access {
    /// Returns the mode that the file is created with, from which the system takes the bits of the process's umask.
    fn first_mode(self) -> u32 {
        match self {
            Access::New => 0o666,
            Access::Owner | Access::Replaced { .. } => files::OWNER_ALONE,
        }
    }

    /// Returns the mode that a file gets in the end, which was created with `first_mode`.
    ///
    /// If the file has another group than the one that it replaces, a user of the old group may now be one of the others, and the
    /// reverse. So the group and the others get only the permissions that both had.
    fn last_mode(self, file: &File) -> io::Result<u32> {
        match self {
            Access::New => Ok(files::mode_of(&file.metadata()?)),
            Access::Owner => Ok(files::OWNER_ALONE),
            Access::Replaced { mode, group } if files::group_of(&file.metadata()?) == group => {
                Ok(mode)
            }
            Access::Replaced { mode, .. } => {
                let both = (mode >> 3) & mode & 0o7;
                Ok((mode & 0o700) | (both << 3) | both)
            }
        }
    }

    /// Lets only the owner of a new file read it, before a byte is written. Returns the mode that the file gets in the end.
    ///
    /// A file system without modes refuses that. There the file stays as readable as any other, but for a key it is an error.
    fn hide(self, file: &File) -> io::Result<u32> {
        let mode = self.last_mode(file)?;
        match files::set_mode(file, files::OWNER_ALONE) {
            Err(error) if !matches!(self, Access::Owner) && is_unsupported(&error) => Ok(mode),
            hidden => hidden.map(|()| mode),
        }
    }
}

/// Returns whether a file system doesn't have what was asked of it.
fn is_unsupported(error: &io::Error) -> bool {
    matches!(
        error.kind(),
        ErrorKind::PermissionDenied | ErrorKind::Unsupported
    )
}

/// Checks that OUT may be written: it is not a file that is read, a folder, or something that no file replaces, and unless
/// `has_force` is set it does not exist. Returns who may access the new file.
pub fn check_target(
    rt: &HostRuntime,
    target: &Name,
    inputs: Inputs<'_>,
    has_force: bool,
) -> Result<Access, Failure> {
    check_replaceable(rt, target)?;
    let there = match files::metadata_of(rt, target) {
        Ok(metadata) => metadata,
        Err(error) if error.kind() == ErrorKind::NotFound => {
            if !has_force {
                check_free(rt, target)?;
            }
            return Ok(Access::New);
        }
        Err(error) => return Err(at_output(error)),
    };
    inputs.check_not_input(&there)?;
    if !has_force {
        return Err(Failure::Exists);
    }
    inputs.check_known()?;
    if !there.is_file() {
        return Err(Failure::Folder);
    }
    Ok(Access::Replaced {
        mode: files::mode_of(&there),
        group: files::group_of(&there),
    })
}

/// Checks that a file may take this name: it is not the name of a device, a pipe or a socket, and does not lead into /proc, which
/// belongs to the system.
fn check_replaceable(rt: &HostRuntime, target: &Name) -> Result<(), Failure> {
    if let Ok(there) = files::metadata_of(rt, target)
        && !there.is_file()
        && !there.is_dir()
    {
        return Err(Failure::NotRegular);
    }
    if files::leads_into_proc(rt, target).map_err(at_output)? {
        return Err(Failure::InProc);
    }
    Ok(())
}

/// Checks that a new key file may have this name.
pub fn check_key_target(rt: &HostRuntime, target: &Name) -> Result<(), Failure> {
    check_replaceable(rt, target)?;
    check_free(rt, target)
}

/// Checks that neither a file nor a link has this name. The link may lead to no file.
fn check_free(rt: &HostRuntime, target: &Name) -> Result<(), Failure> {
    match files::exists(rt, target) {
        Ok(true) => Err(Failure::Exists),
        Ok(false) => Ok(()),
        Err(error) => Err(at_output(error)),
    }
}

/// Returns the failure of writing OUT or the key file.
fn at_output(error: io::Error) -> Failure {
    Failure::Io(Place::Output, error)
}

/// Removes a new file after another failure. If that fails too, the file is left, and the program warns of it.
fn remove_or_warn(rt: &HostRuntime, name: &Name) {
    if let Err(error) = files::remove(rt, name) {
        let _ = eprintln!(rt;
            "seal_file: {name}: warning: this file could not be removed: {error}"
        );
    }
}

impl NewFile {
    /// Creates the file, whose name is the target's followed by this number.
    pub fn create(
        rt: &HostRuntime,
        target: &Name,
        number: [u8; NUMBER_LEN],
        access: Access,
    ) -> io::Result<NewFile> {
        let number = u64::from_be_bytes(number);
        let end = format!(in rt.alloc(); ".part-{number:016x}")?;
        let name = target.with_end(rt.alloc(), end.as_bytes())?;
        let file = files::create_new(rt, &name, access.first_mode())?;
        match access.hide(&file) {
            Ok(mode) => Ok(NewFile { file, name, mode }),
            Err(error) => {
                remove_or_warn(rt, &name);
                Err(error)
            }
        }
    }

    /// Gives the file its name, as `SyncedFile::name_as` does, and waits until the name has reached the device. The program warns
    /// if it may not read the folder, and so cannot wait. If writing the file failed, it removes the file.
    pub fn finish(
        self,
        rt: &HostRuntime,
        target: &Name,
        written: Result<(), Failure>,
        has_force: bool,
    ) -> Result<(), Failure> {
        if let Err(failure) = written {
            self.discard(rt);
            return Err(failure);
        }
        let left = self.synced(rt)?.name_as(rt, target, has_force)?;
        let is_synced = files::sync_folder_of(rt, target);
        if let Some(left) = left {
            return Err(left);
        }
        if !is_synced.map_err(Failure::NotSynced)? {
            let _ = eprintln!(rt;
                "seal_file: {target}: warning: the file is in place, but its folder was not synced, since it may not be read"
            );
        }
        Ok(())
    }

    /// Waits until the file has reached the device, and gives it its mode. Removes it if that fails.
    fn synced(self, rt: &HostRuntime) -> Result<SyncedFile, Failure> {
        let NewFile { file, name, mode } = self;
        match file.sync_all().and_then(|()| files::set_mode(&file, mode)) {
            Ok(()) => Ok(SyncedFile { name }),
            Err(error) => {
                remove_or_warn(rt, &name);
                Err(at_output(error))
            }
        }
    }

    /// Removes the file.
    fn discard(self, rt: &HostRuntime) {
        let NewFile {
            file: _file,
            name,
            mode: _,
        } = self;
        remove_or_warn(rt, &name);
    }
}

impl Write for NewFile {
    fn write(&mut self, buf: &[u8]) -> io::Result<usize> {
        self.file.write(buf)
    }

    fn flush(&mut self) -> io::Result<()> {
        self.file.flush()
    }
}

impl SyncedFile {
    /// Gives the file its name. It replaces another file only if `has_force` is set. If this fails, the file is removed. Returns
    /// the failure to remove the name that the file had before, if it still has that name.
    fn name_as(
        self,
        rt: &HostRuntime,
        target: &Name,
        has_force: bool,
    ) -> Result<Option<Failure>, Failure> {
        let SyncedFile { name } = self;
        let named = if has_force {
            files::rename(rt, &name, target).map(|()| None)
        } else {
            rename_no_replace(rt, &name, target)
        };
        match named {
            Ok(left) => Ok(left.map(|error| Failure::NotRemoved(name, error))),
            Err(error) => {
                remove_or_warn(rt, &name);
                if !has_force && error.kind() == ErrorKind::AlreadyExists {
                    return Err(Failure::Exists);
                }
                Err(at_output(error))
            }
        }
    }
}

/// Renames a file. Fails if another file or a link has the new name.
///
/// The file first gets the new name as a second one, and then loses the old one. If the file system has no hard links, an empty
/// file takes the new name, and is then replaced. Returns the error of removing the old name, if the file keeps it.
fn rename_no_replace(rt: &HostRuntime, from: &Name, to: &Name) -> io::Result<Option<io::Error>> {
    match files::link(rt, from, to) {
        Ok(()) => Ok(files::remove(rt, from).err()),
        Err(error) if error.kind() == ErrorKind::AlreadyExists => Err(error),
        Err(_) => {
            let _empty = files::create_new(rt, to, files::OWNER_ALONE)?;
            let renamed = files::rename(rt, from, to);
            if renamed.is_err() {
                remove_or_warn(rt, to);
            }
            renamed.map(|()| None)
        }
    }
}
