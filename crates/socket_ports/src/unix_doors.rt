//! Unix sockets with a mode.
//!
//! A socket is bound in a folder that nobody else may enter, gets its mode there, and then its name. So at no moment anybody
//! else may connect, whatever the mask of modes is. A name that stands already stays, as it does in binding.

use crate::doors::DoorFault;
use mio::net::{UnixListener, UnixStream};
use std::alloc::Global;
use std::fs::{self, DirBuilder, Files, Permissions};
use std::io;
use std::net::Net;
use std::os::unix::fs::{DirBuilderExt, FileTypeExt, PermissionsExt};
use std::path::Path;
use std::random::RandomSource;

/// So long is the path of a socket at most, in bytes.
const MAX_LEN: usize = 107;

/// So many folders are tried, each with a name that is drawn.
const TRIES: usize = 8;

/// Opens a socket at a path.
pub(crate) fn open_unix<R: Files + Net + RandomSource>(
    rt: &R,
    alloc: Global,
    path: &str,
    mode: u32,
) -> Result<UnixListener, DoorFault> {
    if path.len() > MAX_LEN {
        return Err(DoorFault::LongPath);
    }
    match bind_private(rt, alloc, path, mode) {
        Err(error) if error.kind() == io::ErrorKind::AlreadyExists => {
            free_path(rt, path)?;
            told(bind_private(rt, alloc, path, mode))
        }
        bound => told(bound),
    }
}

/// A listener, or what the system's error says.
fn told(bound: io::Result<UnixListener>) -> Result<UnixListener, DoorFault> {
    match bound {
        Ok(listener) => Ok(listener),
        Err(error) if error.kind() == io::ErrorKind::AlreadyExists => Err(DoorFault::InUse),
        Err(error) if error.kind() == io::ErrorKind::InvalidInput => Err(DoorFault::LongPath),
        Err(error) => Err(DoorFault::of(&error)),
    }
}

/// Frees a path that nobody listens at. What stands there and is no socket stays.
fn free_path<R: Files + Net>(rt: &R, path: &str) -> Result<(), DoorFault> {
    match UnixStream::connect(rt, path) {
        Ok(_) => return Err(DoorFault::InUse),
        Err(error) if error.kind() == io::ErrorKind::ConnectionRefused => {}
        Err(error) if error.kind() == io::ErrorKind::PermissionDenied => {
            return Err(DoorFault::Forbidden);
        }
        Err(_) => return Err(DoorFault::InUse),
    }
    if !is_socket_at(rt, path) {
        return Err(DoorFault::Occupied);
    }
    match fs::remove_file(rt, path) {
        Ok(()) => Ok(()),
        Err(error) => Err(DoorFault::of(&error)),
    }
}

/// Whether a socket stands at the path itself.
fn is_socket_at<R: Files>(rt: &R, path: &str) -> bool {
    match fs::symlink_metadata(rt, path) {
        Ok(found) => found.file_type().is_socket(),
        Err(_) => false,
    }
}

/// Binds a socket in a folder of its own, and gives it its mode and its name.
fn bind_private<R: Files + Net + RandomSource>(
    rt: &R,
    alloc: Global,
    path: &str,
    mode: u32,
) -> io::Result<UnixListener> {
    let folder = private_folder(rt, alloc, parent_of(path))?;
    let bound = bind_within(rt, alloc, folder.as_str(), path, mode);
    let _ = fs::remove_dir(rt, folder.as_str());
    bound
}

/// Binds a socket in a folder, gives it its mode and its name, and takes it out of the folder.
fn bind_within<R: Files + Net>(
    rt: &R,
    alloc: Global,
    folder: &str,
    path: &str,
    mode: u32,
) -> io::Result<UnixListener> {
    let made = format!(in alloc; "{folder}/s")?;
    let bound = bind_and_name(rt, made.as_str(), path, mode);
    let _ = fs::remove_file(rt, made.as_str());
    bound
}

/// Binds a socket at one path, and names it by another, which mustn't be there yet.
fn bind_and_name<R: Files + Net>(
    rt: &R,
    made: &str,
    path: &str,
    mode: u32,
) -> io::Result<UnixListener> {
    let listener = UnixListener::bind(rt, made)?;
    fs::set_permissions(rt, made, Permissions::from_mode(mode))?;
    fs::hard_link(rt, made, path)?;
    Ok(listener)
}

/// Makes a folder in another that nobody else may enter.
fn private_folder<R: Files + RandomSource>(
    rt: &R,
    alloc: Global,
    parent: &str,
) -> io::Result<String> {
    for _ in 0..TRIES {
        let folder = drawn_name(rt, alloc, parent)?;
        let mut builder = DirBuilder::new();
        match builder.mode(0o700).create(rt, folder.as_str()) {
            Ok(()) => return Ok(folder),
            Err(error) if error.kind() == io::ErrorKind::AlreadyExists => {}
            Err(error) => return Err(error),
        }
    }
    Err(io::ErrorKind::ResourceBusy.into())
}

/// A name that was drawn, of a folder in another: of 8 bytes with the slash before it.
fn drawn_name(rt: &impl RandomSource, alloc: Global, parent: &str) -> io::Result<String> {
    let mut drawn = [0; 2];
    rt.fill_bytes(&mut drawn)?;
    let number = u16::from_be_bytes(drawn);
    Ok(format!(in alloc; "{parent}/.td{number:04x}")?)
}

/// The folder of a path.
fn parent_of(path: &str) -> &str {
    match Path::new(path).parent() {
        Some(parent) if !parent.as_str().is_empty() => parent.as_str(),
        _ => ".",
    }
}
