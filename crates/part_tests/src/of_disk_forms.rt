//! That a file of the system is made, kept, locked, found and replaced.

use disk_forms::{FileDisk, FileStore};
use disk_store::{BytewiseDisk, Disk, Store};
use std::alloc::Global;
use std::fs::{Files, Permissions};
use std::os::unix::fs::{MetadataExt, PermissionsExt, symlink};
use std::path::PathBuf;
use std::process::Abort;
use std::{env, fs, process};

/// Writes `abc` to a new file, by two writes and a cut; whether it was empty.
fn fill(rt: &impl Abort, disk: &mut FileDisk<&HostRuntime>) -> bool {
    let is_empty = disk.len().expect(rt, "a length") == 0;
    disk.write_at(0, b"a").expect(rt, "a write");
    disk.write_bytewise(1, b"bcd").expect(rt, "a write");
    disk.cut(3).expect(rt, "a cut");
    disk.sync().expect(rt, "a sync");
    is_empty
}

/// Whether the file holds `abc`.
fn is_filled(rt: &impl Abort, disk: &mut FileDisk<&HostRuntime>) -> bool {
    let mut back = [0; 2];
    disk.read_at(1, &mut back).expect(rt, "a read");
    disk.len().expect(rt, "a length") == 3 && back == *b"bc"
}

/// Whether the file at this path is new and can't be opened twice, once it is written.
fn is_made_and_locked(rt: &impl Abort, store: &mut FileStore<&HostRuntime>, path: &str) -> bool {
    let mut disk = store.open_file(path).expect(rt, "a file");
    let is_new = fill(rt, &mut disk);
    let is_locked = is_refused(store, path) && store.is_locked();
    store.put_back(disk);
    is_new && is_locked && !store.is_locked()
}

/// Whether the store opens nothing at this path.
fn is_refused(store: &mut FileStore<&HostRuntime>, path: &str) -> bool {
    match store.open_file(path) {
        Ok(disk) => {
            store.put_back(disk);
            false
        }
        Err(_) => true,
    }
}

/// Whether the file at this path holds what was written.
fn is_kept(rt: &impl Abort, store: &mut FileStore<&HostRuntime>, path: &str) -> bool {
    let mut disk = store.open_file(path).expect(rt, "the file");
    let is_kept = is_filled(rt, &mut disk);
    store.put_back(disk);
    is_kept
}

/// A path in the folder, for a file of the process of this number.
fn path_in(rt: &impl Abort, alloc: Global, folder: PathBuf, id: u32) -> PathBuf {
    let name = format!(in alloc; "disk-forms-{id}").expect(rt, "room");
    folder.join(alloc, name.as_str()).expect(rt, "room")
}

#[test]
fn a_file_is_made_kept_and_locked(rt: HostRuntime) {
    let folder = env::temp_dir(&rt).expect(&rt, "a folder");
    let path = path_in(&rt, rt.alloc(), folder, process::id(rt.process()));
    let mut store = FileStore::new(rt.alloc(), &rt);
    assert!(rt; is_made_and_locked(&rt, &mut store, path.as_str()));
    assert!(rt; is_kept(&rt, &mut store, path.as_str()));
    fs::remove_file(&rt, path.as_str()).expect(&rt, "the file");
    // neither a folder is opened, nor a path whose folder is missing, and nothing is made
    let below = path.join(rt.alloc(), "journal").expect(&rt, "room");
    assert!(rt; is_refused(&mut store, "/") && !store.is_locked());
    assert!(rt; is_refused(&mut store, below.as_str()) && !store.is_locked());
    assert!(rt; !fs::exists(&rt, path.as_str()).expect(&rt, "a look"));
    drop(below);
    drop(store);
    drop(path);
}

/// Whether the disk holds just these three bytes.
fn holds(rt: &impl Abort, disk: &mut FileDisk<&HostRuntime>, bytes: [u8; 3]) -> bool {
    let mut back = [0; 3];
    disk.len().expect(rt, "a length") == 3 && disk.read_at(0, &mut back).is_ok() && back == bytes
}

/// Whether the file at this path, which holds `abc`, is replaced, goes on under its lock and its permissions, and is found so.
fn is_replaced<R: Abort + Files>(rt: &R, store: &mut FileStore<&HostRuntime>, path: &str) -> bool {
    let mut disk = store.open_file(path).expect(rt, "the file");
    fs::set_permissions(rt, path, Permissions::from_mode(0o640)).expect(rt, "permissions");
    let old = fs::metadata(rt, path).expect(rt, "a look");
    disk.cut(1).expect(rt, "a cut");
    let is_done = disk.replace(b"xy").expect(rt, "a replacement");
    disk.write_at(2, b"z").expect(rt, "a write");
    let is_whole = holds(rt, &mut disk, *b"xyz");
    let is_locked = is_refused(store, path) && store.is_locked();
    store.put_back(disk);
    let new = fs::metadata(rt, path).expect(rt, "a look");
    is_done && is_whole && is_locked && new.ino() != old.ino() && new.mode() == old.mode()
}

/// Whether the file at this path, which holds `xyz`, is found, locked and never changed.
fn is_found(rt: &impl Abort, store: &mut FileStore<&HostRuntime>, path: &str) -> bool {
    let mut disk = store.find_file(path).expect(rt, "the file");
    let is_whole = holds(rt, &mut disk, *b"xyz");
    let is_locked = is_refused(store, path) && store.is_locked();
    let is_changed = disk.replace(b"abc") != Ok(false) || disk.write_at(0, b"a").is_ok();
    let is_whole_still = holds(rt, &mut disk, *b"xyz");
    store.put_back(disk);
    is_whole && is_locked && !is_changed && is_whole_still
}

/// Whether a file beside this path stays where the file is found, and is gone once it is opened.
fn is_cleared<R: Abort + Files>(
    rt: &R,
    store: &mut FileStore<&HostRuntime>,
    path: &str,
    beside: &str,
) -> bool {
    fs::write(rt, beside, b"torn").expect(rt, "a file");
    let is_found = is_found(rt, store, path);
    let stays = fs::exists(rt, beside).expect(rt, "a look");
    let disk = store.open_file(path).expect(rt, "the file");
    store.put_back(disk);
    is_found && stays && !fs::exists(rt, beside).expect(rt, "a look")
}

/// Whether a file that is opened by a link is replaced where it stands, and the link stays one, and what is in the way of a
/// replacement stays too.
fn is_replaced_by_link<R: Abort + Files>(
    rt: &R,
    store: &mut FileStore<&HostRuntime>,
    link: &str,
    beside: &str,
) -> bool {
    let mut disk = store.open_file(link).expect(rt, "the file");
    fs::create_dir(rt, beside).expect(rt, "a folder");
    let is_blocked = disk.replace(b"abc") == Ok(false) && holds(rt, &mut disk, *b"xyz");
    fs::remove_dir(rt, beside).expect(rt, "the folder");
    let is_done = disk.replace(b"abc") == Ok(true) && holds(rt, &mut disk, *b"abc");
    store.put_back(disk);
    is_blocked
        && is_done
        && fs::symlink_metadata(rt, link)
            .expect(rt, "a look")
            .is_symlink()
}

#[test]
fn a_file_is_replaced_and_found(rt: HostRuntime) {
    let folder = env::temp_dir(&rt).expect(&rt, "a folder");
    let path = path_in(&rt, rt.alloc(), folder, process::id(rt.process()));
    fs::create_dir(&rt, path.as_str()).expect(&rt, "a folder");
    let file = path.join(rt.alloc(), "site").expect(&rt, "room");
    let beside = path.join(rt.alloc(), "site.new").expect(&rt, "room");
    let link = path.join(rt.alloc(), "link").expect(&rt, "room");
    let mut store = FileStore::new(rt.alloc(), &rt);
    // a file that isn't there isn't found, and none is made
    assert!(rt; store.find_file(file.as_str()).is_err() && !store.is_locked());
    assert!(rt; is_made_and_locked(&rt, &mut store, file.as_str()));
    assert!(rt; is_replaced(&rt, &mut store, file.as_str()));
    assert!(rt; is_cleared(&rt, &mut store, file.as_str(), beside.as_str()));
    symlink(&rt, "site", link.as_str()).expect(&rt, "a link");
    assert!(rt; is_replaced_by_link(&rt, &mut store, link.as_str(), beside.as_str()));
    fs::remove_dir_all(&rt, path.as_str()).expect(&rt, "the folder");
    drop(link);
    drop(beside);
    drop(file);
    drop(store);
    drop(path);
}
