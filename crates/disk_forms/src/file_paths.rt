//! Where a file stands, and how another is put in its place in one step (`docs/DURABLE.md`, 'The file of the system').

use crate::file_disks::write_all;
use std::alloc::Global;
use std::fs::{self, Files, OpenOptions};
use std::os::fd::AsRawFd;
use std::os::unix::fs::{MetadataExt, OpenOptionsExt, fchown};
use std::path::{Path, PathBuf};
use std::{fmt, io};

/// The path of a file, with what it takes to put another file there.
#[derive(Drop)]
pub(crate) struct FilePath<R> {
    files: R,
    alloc: Global,
    path: String,
}

/// A file with the bytes that another is to get, beside that one: synced and locked.
#[derive(Drop)]
pub(crate) struct Beside {
    file: fs::File,
    /// Where it stands.
    from: String,
    /// Where the other one stands, without a link.
    to: PathBuf,
}

impl<R: Files<File = fs::File> + Drop> FilePath<R> {
    pub(crate) fn new(files: R, alloc: Global, path: &str) -> io::Result<FilePath<R>> {
        let path = String::from_str(alloc, path)?;
        Ok(FilePath { files, alloc, path })
    }

    /// Removes what a crash left of a file that was to be put here.
    pub(crate) fn remove_left_over(&self) -> io::Result<()> {
        let (from, _) = self.names()?;
        remove_left_over(&self.files, from.as_str())
    }

    /// Writes the bytes to a file beside that one, which stands here and is held. It fails where none of them is there behind
    /// the call.
    pub(crate) fn write_beside(&self, held: &fs::File, bytes: &[u8]) -> io::Result<Beside> {
        let (from, to) = self.names()?;
        if !is_at(&self.files, to.as_str(), held)? {
            return Err(io::ErrorKind::NotFound.into());
        }
        remove_left_over(&self.files, from.as_str())?;
        let file = make_locked(&self.files, from.as_str())?;
        match fill(&file, held, bytes) {
            Ok(()) => Ok(Beside { file, from, to }),
            Err(error) => {
                let _ = fs::remove_file(&self.files, from.as_str());
                Err(error)
            }
        }
    }

    /// Gives the file beside it the name of the one that is held, or tells why it hasn't it: then it is removed again. It fails
    /// where the name is neither's.
    pub(crate) fn rename(
        &self,
        held: &fs::File,
        beside: &Beside,
    ) -> io::Result<Option<io::ErrorKind>> {
        let (from, to) = (beside.from.as_str(), beside.to.as_str());
        let Err(error) = fs::rename(&self.files, from, to) else {
            return Ok(None);
        };
        if is_at(&self.files, to, held)? {
            let _ = fs::remove_file(&self.files, from);
            Ok(Some(error.kind()))
        } else {
            Err(error)
        }
    }

    /// Syncs the folder, so that the file keeps its new name, and gives the file.
    pub(crate) fn settle(&self, beside: Beside) -> (fs::File, io::Result<()>) {
        let synced = sync_folder(&self.files, beside.to.as_str());
        let Beside { file, .. } = beside;
        (file, synced)
    }

    /// Where a file beside stands, and where this one does, without a link.
    fn names(&self) -> io::Result<(String, PathBuf)> {
        let to = self.files.canonicalize(self.alloc, self.path.as_str())?;
        let mut from = String::from_str(self.alloc, to.as_str())?;
        from.push_str(".new")?;
        Ok((from, to))
    }
}

impl<R: Eprint> FilePath<R> {
    /// Tells on standard error that no other file is put here, and why.
    pub(crate) fn tell(&self, kind: io::ErrorKind) {
        let path = self.path.as_str();
        let _ = self.files.eprintln(NotReplaced { path, kind });
    }

    /// Tells on standard error why the file can't be written.
    pub(crate) fn tell_fault(&self, kind: io::ErrorKind) {
        let path = self.path.as_str();
        let _ = self.files.eprintln(NotWritten { path, kind });
    }
}

/// The line that the file at a path can't be written.
#[derive(Clone, Copy)]
struct NotWritten<'a> {
    path: &'a str,
    kind: io::ErrorKind,
}

impl fmt::Display for NotWritten<'_> {
    fn fmt<W: fmt::Write>(&self, f: &mut fmt::Formatter<W>) -> fmt::Result {
        let NotWritten { path, kind } = *self;
        match kind {
            io::ErrorKind::StorageFull => write!(
                f,
                "{path}: no space left on the device: make room, and start again"
            ),
            kind => write!(f, "{path}: it can't be written: the system says {kind}"),
        }
    }
}

/// The line that no other file is put in the place of the one at a path.
#[derive(Clone, Copy)]
struct NotReplaced<'a> {
    path: &'a str,
    kind: io::ErrorKind,
}

impl fmt::Display for NotReplaced<'_> {
    fn fmt<W: fmt::Write>(&self, f: &mut fmt::Formatter<W>) -> fmt::Result {
        let NotReplaced { path, kind } = *self;
        write!(
            f,
            "{path}: no shorter file was put in its place: {kind}; it goes on as it is"
        )
    }
}

/// Removes what stands beside a file. What is no regular file stays, and so does what somebody holds.
fn remove_left_over<R: Files<File = fs::File>>(files: &R, path: &str) -> io::Result<()> {
    match fs::symlink_metadata(files, path) {
        Ok(found) if found.is_file() => {}
        Ok(_) => return Err(io::ErrorKind::AlreadyExists.into()),
        Err(error) if error.kind() == io::ErrorKind::NotFound => return Ok(()),
        Err(error) => return Err(error),
    }
    let file = OpenOptions::new().read(true).write(true).open(files, path)?;
    file.try_lock()?;
    fs::remove_file(files, path)
}

/// A new file, locked.
fn make_locked<R: Files<File = fs::File>>(files: &R, path: &str) -> io::Result<fs::File> {
    let file = OpenOptions::new()
        .read(true)
        .write(true)
        .create_new(true)
        .mode(0o600)
        .open(files, path)?;
    let file = above_streams(file)?;
    file.try_lock()?;
    Ok(file)
}

/// Writes bytes to a new file, which gets the owner and the permissions of another, and syncs it.
fn fill(file: &fs::File, other: &fs::File, bytes: &[u8]) -> io::Result<()> {
    write_all(file, 0, bytes)?;
    let (made, wanted) = (file.metadata()?, other.metadata()?);
    let (user, group) = (wanted.uid(), wanted.gid());
    if made.uid() != user || made.gid() != group {
        fchown(file, Some(user), Some(group))?;
    }
    file.set_permissions(wanted.permissions())?;
    file.sync_all()
}

/// The file under a number that no standard stream has: what is meant for one that was closed must not land in it.
pub(crate) fn above_streams(file: fs::File) -> io::Result<fs::File> {
    if file.as_raw_fd() <= 2 {
        file.try_clone()
    } else {
        Ok(file)
    }
}

/// Whether this open file is the one that stands at a path.
pub(crate) fn is_at<R: Files<File = fs::File>>(
    files: &R,
    path: &str,
    file: &fs::File,
) -> io::Result<bool> {
    let held = file.metadata()?;
    match fs::metadata(files, path) {
        Ok(found) => Ok(found.dev() == held.dev() && found.ino() == held.ino()),
        Err(error) if error.kind() == io::ErrorKind::NotFound => Ok(false),
        Err(error) => Err(error),
    }
}

/// Syncs the folder of a path.
pub(crate) fn sync_folder<R: Files<File = fs::File>>(files: &R, path: &str) -> io::Result<()> {
    let folder = match Path::new(path).parent() {
        Some(parent) if !parent.as_str().is_empty() => parent.as_str(),
        _ => ".",
    };
    fs::open(files, folder)?.sync_all()
}
