//! Why a file wasn't opened: the system is asked once more, and nothing is made.

use crate::words::{FileReason, Unopened};
use command_words::words_behind_name;
use daemon_words::{checked_file, read_daemon};
use std::fs::{self, OpenOptions};
use std::path::Path;
use std::{env, io};

/// Tells of the file that the words name why it can't be opened. Where the words can't be had again nothing is told.
pub(crate) fn tell_unopened(rt: &HostRuntime) -> bool {
    let Ok(args) = env::args(rt) else {
        return false;
    };
    let Ok(words) = words_behind_name(rt.alloc(), args) else {
        return false;
    };
    if let Some(path) = checked_file(words.as_slice()) {
        let reason = reason_unread(rt, path);
        let _ = rt.eprintln(Unopened { path, reason });
        return true;
    }
    match read_daemon(rt.alloc(), words.as_slice()) {
        Ok(plan) => tell_path(rt, plan.file),
        Err(_) => false,
    }
}

fn tell_path(rt: &HostRuntime, file: Option<&str>) -> bool {
    match file {
        Some(path) => {
            let reason = reason_of(rt, path);
            let _ = rt.eprintln(Unopened { path, reason });
            true
        }
        None => false,
    }
}

/// Why the system doesn't open the file at a path.
fn reason_of(rt: &HostRuntime, path: &str) -> FileReason {
    match fs::metadata(rt, path) {
        Ok(found) if found.is_dir() => FileReason::Folder,
        Ok(found) if !found.is_file() => FileReason::Irregular,
        _ => reason_of_opening(rt, path),
    }
}

/// Why the system doesn't open the file at a path for reading.
fn reason_unread(rt: &HostRuntime, path: &str) -> FileReason {
    match fs::metadata(rt, path) {
        Ok(found) if found.is_dir() => return FileReason::Folder,
        Ok(found) if !found.is_file() => return FileReason::Irregular,
        _ => {}
    }
    match OpenOptions::new().read(true).open(rt, path) {
        Ok(_) => FileReason::Passed,
        Err(error) if error.kind() == io::ErrorKind::NotFound => FileReason::NoFile,
        Err(error) if error.kind() == io::ErrorKind::NotADirectory => FileReason::NoFolder,
        Err(error) if error.kind() == io::ErrorKind::PermissionDenied => FileReason::Unreadable,
        Err(error) => FileReason::System(error.kind()),
    }
}

/// Why what is a regular file, or isn't there, can't be opened.
fn reason_of_opening(rt: &HostRuntime, path: &str) -> FileReason {
    let folder = match Path::new(path).parent() {
        Some(parent) if !parent.as_str().is_empty() => parent.as_str(),
        _ => ".",
    };
    match OpenOptions::new().read(true).write(true).open(rt, path) {
        Ok(_) if fs::open(rt, folder).is_err() => FileReason::Forbidden,
        Ok(_) => FileReason::Passed,
        Err(error) if error.kind() == io::ErrorKind::NotFound => reason_of_folder(rt, folder),
        Err(error) if error.kind() == io::ErrorKind::NotADirectory => FileReason::NoFolder,
        Err(error) if error.kind() == io::ErrorKind::PermissionDenied => FileReason::Forbidden,
        Err(error) => FileReason::System(error.kind()),
    }
}

/// Why no file can be made in a folder.
fn reason_of_folder(rt: &HostRuntime, folder: &str) -> FileReason {
    match fs::metadata(rt, folder) {
        Ok(_) => FileReason::Forbidden,
        Err(_) => FileReason::NoFolder,
    }
}
