//! Disks over the system's files. No contract can say what a file keeps, so these aren't told to be honest, and tell
//! nothing.

ghost use Rattle.std.specs.Prelude.{◌≡◌, ◌≤◌, false, []};
ghost use Rattle.tardis_io.specs.Faults.{Rose, HasCause};

use crate::file_paths::FilePath;
use disk_store::{BytewiseDisk, Disk};
use std::fs::Files;
use std::os::unix::fs::FileExt;
use std::{fs, io};
use tardis_io::Failed;

/// The longest that a disk may be: 2^63 bytes.
const LONGEST: u64 = 1 << 63;

/// A file as a disk. Each error of the system is counted, and so is a file that is longer than a disk may be, and a read
/// that finds fewer bytes than it is to.
///
/// A sync after a cut writes all that the system knows of the file. One after writes alone writes the bytes, and of what
/// the system knows what is needed to read them back, which includes a length that grew.
///
/// A replacement is written to a file beside it, which then takes its name; this disk is that one from then on. Where that
/// file couldn't be written, or couldn't get the name, all is as before, and no fault is counted; it is told why on standard
/// error, once until one is made. It is a fault where the name may be gone after a crash.
///
/// How it is let go is written here, so that the crates above needn't prove it of what it is made of.
pub struct FileDisk<R> {
    file: fs::File,
    path: Option<FilePath<R>>,
    was_cut: bool,
    is_told: bool,
    faults: u64,
}

impl<R: Drop> Drop for FileDisk<R> {
    fn drop(self) {
        let FileDisk {
            file,
            path,
            was_cut: _,
            is_told: _,
            faults: _,
        } = self;
        drop(file);
        drop(path);
    }
}

impl<R: Drop> FileDisk<R> {
    /// A file that is locked, and the path at which it may be replaced by another.
    pub(crate) fn new(file: fs::File, path: Option<FilePath<R>>) -> FileDisk<R>
        ensures { result.faults ≡ 0 }
    {
        FileDisk {
            file,
            path,
            was_cut: true,
            is_told: false,
            faults: 0,
        }
    }

    /// How many faults were counted.
    pub(crate) fn faults(&self) -> u64
        ensures { result ≡ self.now.faults }
    {
        self.faults
    }

    fn fail(&mut self) -> Failed
        ensures rose { Rose self.old.faults self.new.faults }
        ensures later { self.old.faults ≤ self.new.faults }
    {
        self.faults = self.faults.saturating_add(1);
        Failed
    }
}

impl<R: Files<File = fs::File> + Eprint + Drop> FileDisk<R> {
    /// Writes bytes from a place on.
    fn write(&mut self, place: u64, bytes: &[u8]) -> Result<(), Failed>
        ensures { HasCause self.old.faults self.new.faults result }
    {
        match write_all(&self.file, place, bytes) {
            Ok(()) => Ok(()),
            Err(error) => Err(self.fail_by(error.kind())),
        }
    }

    /// Counts a fault, and tells on standard error what the system says of it.
    fn fail_by(&mut self, kind: io::ErrorKind) -> Failed
        ensures rose { Rose self.old.faults self.new.faults }
        ensures later { self.old.faults ≤ self.new.faults }
    {
        if let Some(path) = &self.path {
            path.tell_fault(kind);
        }
        self.fail()
    }

    /// Tells why the file isn't replaced, unless that was told since one was.
    fn decline(&mut self, kind: io::ErrorKind) -> bool
        ensures answer { result ≡ false }
        ensures faults { self.new.faults ≡ self.old.faults }
    {
        match &self.path {
            Some(path) if !self.is_told => path.tell(kind),
            _ => {}
        }
        self.is_told = true;
        false
    }
}

impl<R: Files<File = fs::File> + Eprint + Drop> Disk for FileDisk<R> {
    ghost honest = { λ _. ⊥ };

    ghost reads = { λ _. [] };

    ghost may_leave = { λ _ _. Unit {0} };

    ghost moment = { λ _. 0 };

    ghost left_since = { λ _ _ _. Unit {0} };

    ghost faults = { λ d. d.faults };

    fn len(&mut self) -> Result<u64, Failed> {
        if let Ok(found) = self.file.metadata() {
            let count = found.len();
            if count <= LONGEST {
                return Ok(count);
            }
        }
        Err(self.fail())
    }

    fn read_at(&mut self, place: u64, buf: &mut [u8]) -> Result<(), Failed> {
        match read_all(&self.file, place, buf) {
            Ok(()) => Ok(()),
            Err(_) => Err(self.fail()),
        }
    }

    fn write_at(&mut self, place: u64, bytes: &[u8]) -> Result<(), Failed> {
        self.write(place, bytes)
    }

    fn cut(&mut self, len: u64) -> Result<(), Failed> {
        self.was_cut = true;
        match self.file.set_len(len) {
            Ok(()) => Ok(()),
            Err(error) => Err(self.fail_by(error.kind())),
        }
    }

    fn sync(&mut self) -> Result<(), Failed> {
        let synced = if self.was_cut {
            self.file.sync_all()
        } else {
            self.file.sync_data()
        };
        match synced {
            Ok(()) => {
                self.was_cut = false;
                Ok(())
            }
            Err(error) => Err(self.fail_by(error.kind())),
        }
    }

    fn replace(&mut self, bytes: &[u8]) -> Result<bool, Failed> {
        let Some(path) = &self.path else {
            return Ok(false);
        };
        let beside = match path.write_beside(&self.file, bytes) {
            Ok(beside) => beside,
            Err(error) => return Ok(self.decline(error.kind())),
        };
        match path.rename(&self.file, &beside) {
            Ok(None) => {}
            Ok(Some(kind)) => return Ok(self.decline(kind)),
            Err(_) => return Err(self.fail()),
        }
        let (file, synced) = path.settle(beside);
        self.file = file;
        self.was_cut = false;
        self.is_told = false;
        match synced {
            Ok(()) => Ok(true),
            Err(_) => Err(self.fail()),
        }
    }

    ghost reads_image = { λ d h. tt };

    ghost counts_now = { λ d t image le is. tt };

    ghost only_now = { λ d image left. tt };
}

impl<R: Files<File = fs::File> + Eprint + Drop> BytewiseDisk for FileDisk<R> {
    fn write_bytewise(&mut self, place: u64, bytes: &[u8]) -> Result<(), Failed> {
        self.write(place, bytes)
    }
}

/// Fills a buffer from a place on.
fn read_all(file: &fs::File, place: u64, buf: &mut [u8]) -> io::Result<()> {
    let mut done = 0;
    while done < buf.len() {
        let Some(at) = place.checked_add(done as u64) else {
            return Err(io::ErrorKind::InvalidInput.into());
        };
        let count = file.read_at(&mut buf[done..], at)?;
        if count == 0 {
            return Err(io::ErrorKind::UnexpectedEof.into());
        }
        done += count;
    }
    Ok(())
}

/// Writes all bytes from a place on.
pub(crate) fn write_all(file: &fs::File, place: u64, bytes: &[u8]) -> io::Result<()> {
    let mut done = 0;
    while done < bytes.len() {
        let Some(at) = place.checked_add(done as u64) else {
            return Err(io::ErrorKind::InvalidInput.into());
        };
        let count = file.write_at(&bytes[done..], at)?;
        if count == 0 {
            return Err(io::ErrorKind::WriteZero.into());
        }
        done += count;
    }
    Ok(())
}
