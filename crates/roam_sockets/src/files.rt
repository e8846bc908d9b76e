//! Socket files, their folder, and files private to the user.
ghost use Rattle.std.specs.Prelude.{◌≡◌, ◌≢◌, ◌↔◌, IsOk, Err};
ghost use Rattle.std.specs.Fs.{IsDir};
ghost use Rattle.roam_sockets.specs.Folders.{MayHold};

use mio::net::{UnixListener, UnixStream};
use std::fs::{FileType, Files, OpenOptions, metadata, remove_file, rename, symlink_metadata};
use std::io;
use std::io::{ErrorKind, Write};
use std::net::Net;
use std::os::unix::fs::{FileTypeExt, MetadataExt, OpenOptionsExt};
use thiserror::Error;

/// The system's folder on this process, whose owner is the user.
const PROCESS: &str = "/proc/self";

/// The permissions of a file that its owner alone may read and write, and those of a folder that concern others.
const OWN_FILE: u32 = 0o600;

const OTHERS: u32 = 0o077;

// Returns true if a socket file has no listener.
fn is_refused(net: &impl Net, path: &str) -> bool {
    match UnixStream::connect(net, path) {
        Ok(_) => false,
        Err(error) => error.kind() == ErrorKind::ConnectionRefused,
    }
}

// Returns true if a file is a socket without a listener. A file of another kind is not, though a connection to it is refused too.
fn is_left_behind<R: Files + Net>(rt: &R, path: &str) -> bool {
    match symlink_metadata(rt, path) {
        Ok(metadata) => metadata.file_type().is_socket() && is_refused(rt, path),
        Err(_) => false,
    }
}

/// Returns a listener at a path, if it can be bound. It first removes a socket file without a listener, as a killed server leaves it. Any
/// other file stays, and nothing is bound.
pub fn listen<R: Files + Net>(rt: &R, path: &str) -> Option<UnixListener> {
    if let Ok(listener) = UnixListener::bind(rt, path) {
        return Some(listener);
    }
    if !is_left_behind(rt, path) {
        return None;
    }
    remove_file(rt, path).ok()?;
    UnixListener::bind(rt, path).ok()
}

/// Binds a path anew if its file is gone, as a cleaner of old files leaves it, and returns true if the listener is new. A file in its place
/// stays.
pub fn listen_again<R: Files + Net>(rt: &R, path: &str, listener: &mut UnixListener) -> bool {
    match symlink_metadata(rt, path) {
        Err(error) if error.kind() == ErrorKind::NotFound => (),
        _ => return false,
    }
    match UnixListener::bind(rt, path) {
        Err(_) => false,
        Ok(anew) => {
            *listener = anew;
            true
        }
    }
}

/// The reason for which a folder isn't fit for a server's sockets.
#[derive(Clone, Copy, Debug, PartialEq, Eq, Error)]
pub enum FolderFault {
    /// There is no such file, or its state can't be read.
    #[error("no such folder")]
    Missing,

    /// A file is there, or a link.
    #[error("not a folder")]
    NoFolder,

    /// It is another user's.
    #[error("not your own")]
    NotOwn,

    /// Others may enter it.
    #[error("others may enter it")]
    Open,
}

/// Returns true if a file is fit for a server's sockets, by its kind, its owner, this process's owner, and its permissions. A private
/// folder has none for other users.
pub fn may_hold(
    kind: &FileType,
    owner: u32,
    own: u32,
    mode: u32,
    is_alone: bool,
) -> Result<(), FolderFault>
    ensures may { IsOk result ↔ MayHold kind.now owner own mode is_alone }
    ensures no_folder { (result ≡ Err FolderFault.NoFolder) ↔ (IsDir kind.now → ⊥) }
    ensures not_own { (result ≡ Err FolderFault.NotOwn) ↔ (IsDir kind.now × (owner ≢ own)) }
    ensures found { result ≢ Err FolderFault.Missing }
{
    if !kind.is_dir() {
        return Err(FolderFault::NoFolder);
    }
    if owner != own {
        return Err(FolderFault::NotOwn);
    }
    if is_alone && mode & OTHERS != 0 {
        return Err(FolderFault::Open);
    }
    Ok(())
}

/// Checks that a folder is the user's own, and no link to one. If it has to be private, no other user may enter it.
pub fn own_folder(files: &impl Files, folder: &str, is_alone: bool) -> Result<(), FolderFault> {
    let (Ok(found), Ok(process)) = (symlink_metadata(files, folder), metadata(files, PROCESS))
    else {
        return Err(FolderFault::Missing);
    };
    may_hold(
        &found.file_type(),
        found.uid(),
        process.uid(),
        found.mode(),
        is_alone,
    )
}

/// Tries to bind a path, to get the reason for which it can't be, and leaves no file there.
pub fn try_listen<R: Files + Net>(rt: &R, path: &str) -> io::Result<()> {
    let listener = UnixListener::bind(rt, path)?;
    drop(listener);
    remove_file(rt, path)
}

// Creates a file that this user alone may read, writes a text to it, and renames it.
fn write_renamed(files: &impl Files, beside: &str, path: &str, text: &[u8]) -> io::Result<()> {
    let mut options = OpenOptions::new();
    options.write(true).create_new(true).mode(OWN_FILE);
    let mut file = options.open(files, beside)?;
    file.write_all(text)?;
    drop(file);
    rename(files, beside, path)
}

/// Writes a file that this user alone may read, whole or not at all: it is written under another name beside, and renamed.
pub fn write_alone(files: &impl Files, beside: &str, path: &str, text: &[u8]) -> io::Result<()> {
    // A file left by an earlier run doesn't matter.
    let _ = remove_file(files, beside);
    let written = write_renamed(files, beside, path, text);
    if written.is_err() {
        // Nor does one that can't be removed.
        let _ = remove_file(files, beside);
    }
    written
}
