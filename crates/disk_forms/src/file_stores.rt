//! The store of the system's files. No contract can say what a file keeps, so it isn't told to be honest, and tells
//! nothing.

ghost use Rattle.std.specs.Prelude.{◌≡◌, false, None, IfOk};
ghost use Rattle.tardis_io.specs.Faults.{Rose};

use crate::file_disks::FileDisk;
use crate::file_paths::{FilePath, above_streams, is_at, sync_folder};
use disk_store::Store;
use std::alloc::Global;
use std::fs::{self, Files, OpenOptions, TryLockError};
use std::io;
use std::os::unix::fs::OpenOptionsExt;
use tardis_io::Failed;

/// How many times a path is opened, where each time another file takes the name before the opened one is locked.
const TRIES: usize = 3;

/// The mode of a file that is made: its owner's alone.
const OWNERS_ALONE: u32 = 0o600;

/// Opens the system's files as disks. A file that isn't there is made, its owner's alone (0600), and its folder is synced, so that it stays. An
/// opened file is locked until its disk is put back or dropped: a file that is open as a disk elsewhere, in this process
/// or another, is refused. So is what is no regular file. Each refusal and each error of the system is a counted fault.
#[derive(Drop)]
pub struct FileStore<R> {
    files: R,
    alloc: Global,
    faults: u64,
    is_locked: bool,
}

impl<R: Files<File = fs::File> + Copy> FileStore<R> {
    pub fn new(alloc: Global, files: R) -> FileStore<R>
        ensures faults { result.faults ≡ 0 }
        ensures locked { result.is_locked ≡ false }
    {
        FileStore {
            files,
            alloc,
            faults: 0,
            is_locked: false,
        }
    }
}

impl<R: Files<File = fs::File> + Eprint + Copy> Store for FileStore<R> {
    type Disk = FileDisk<R>;

    ghost honest = { λ _. ⊥ };

    ghost told = { λ _. None };

    ghost faults = { λ s. s.faults };

    ghost locked = { λ s. s.is_locked };

    fn open_file(&mut self, path: &str) -> Result<FileDisk<R>, Failed> {
        self.is_locked = false;
        if let Ok(named) = FilePath::new(self.files, self.alloc, path) {
            match open_locked(&self.files, path) {
                Ok(Some(file)) => {
                    // one that can't be removed does no harm
                    let _ = named.remove_left_over();
                    return Ok(FileDisk::new(file, Some(named)));
                }
                Ok(None) => self.is_locked = true,
                Err(_) => {}
            }
        }
        self.faults = self.faults.saturating_add(1);
        Err(Failed)
    }

    fn find_file(&mut self, path: &str) -> Result<FileDisk<R>, Failed> {
        self.is_locked = false;
        match find_locked(&self.files, path) {
            Ok(Some(file)) => return Ok(FileDisk::new(file, None)),
            Ok(None) => self.is_locked = true,
            Err(_) => {}
        }
        self.faults = self.faults.saturating_add(1);
        Err(Failed)
    }

    fn put_back(&mut self, disk: FileDisk<R>) {
        self.is_locked = false;
        if disk.faults() > 0 {
            self.faults = self.faults.saturating_add(1);
        }
    }

    fn is_locked(&self) -> bool {
        self.is_locked
    }
}

/// The file at a path, made where there is none, locked, and with a name that stays; none where somebody else holds it.
fn open_locked<R: Files<File = fs::File>>(files: &R, path: &str) -> io::Result<Option<fs::File>> {
    let mut how = OpenOptions::new();
    how.read(true).write(true).create(true).mode(OWNERS_ALONE);
    for _ in 0..TRIES {
        let file = open_regular(files, &how, path)?;
        match file.try_lock() {
            Ok(()) => {}
            Err(TryLockError::WouldBlock) => return Ok(None),
            Err(error) => return Err(error.into()),
        }
        if is_at(files, path, &file)? {
            sync_folder(files, path)?;
            return Ok(Some(file));
        }
    }
    Ok(None)
}

/// The file that is there at a path, for reading alone, and locked together with others who read it; none where somebody
/// else holds it.
fn find_locked<R: Files<File = fs::File>>(files: &R, path: &str) -> io::Result<Option<fs::File>> {
    let mut how = OpenOptions::new();
    how.read(true);
    for _ in 0..TRIES {
        // opening a pipe for reading would wait for somebody who writes
        if !fs::metadata(files, path)?.is_file() {
            return Err(io::ErrorKind::Unsupported.into());
        }
        let file = open_regular(files, &how, path)?;
        match file.try_lock_shared() {
            Ok(()) => {}
            Err(TryLockError::WouldBlock) => return Ok(None),
            Err(error) => return Err(error.into()),
        }
        if is_at(files, path, &file)? {
            return Ok(Some(file));
        }
    }
    Ok(None)
}

/// Opens a regular file.
fn open_regular<R: Files<File = fs::File>>(
    files: &R,
    how: &OpenOptions,
    path: &str,
) -> io::Result<fs::File> {
    let file = above_streams(how.open(files, path)?)?;
    if file.metadata()?.is_file() {
        Ok(file)
    } else {
        Err(io::ErrorKind::Unsupported.into())
    }
}
