//! The files of a folder, as text.
//!
//! `folder PATH` and `file PATH` make one, `link PATH` makes one to a socket `p2` beside it, and `remove PATH` removes a file. `session PATH`
//! makes a file with the id of the tests' session, 1. `there PATH` and `gone PATH` check that there is one or none. `bound FOLDER` binds the
//! sockets of a server there, and leaves their files. `refused FOLDER` can't bind them; `-` is a folder without a name.
use roam_faults::RunFault;
use roam_serve::{OwnStart, ServerPorts};
use roam_sockets::Moments;
use std::fs::{create_dir, exists, remove_file, write};
use std::os::unix::fs::symlink;
use std::test::*;

/// The ports of a server whose panes are in a folder, and whose panes' bytes go on as they are meant, or as they come.
pub fn ports_for<'a>(
    rt: &'a HostRuntime,
    folder: &str,
    normalize: bool,
) -> Result<ServerPorts<&'a HostRuntime>, RunFault> {
    ServerPorts::bind(
        rt,
        rt.alloc(),
        folder,
        Some(0),
        Moments::Set(0),
        OwnStart {
            session: 1,
            id: 0xFF,
        },
        normalize,
    )
}

// The ports of a server whose panes are in a folder.
fn ports_in<'a>(
    rt: &'a HostRuntime,
    folder: &str,
) -> Result<ServerPorts<&'a HostRuntime>, RunFault> {
    ports_for(rt, folder, false)
}

fn is_bound(rt: &HostRuntime, folder: &str) -> bool {
    ports_in(rt, folder).is_ok()
}

fn is_refused(rt: &HostRuntime, folder: &str) -> bool {
    match ports_in(rt, folder) {
        Ok(_) => false,
        Err(fault) => fault == RunFault::Bind,
    }
}

fn is_made(rt: &HostRuntime, what: &str, path: &str) -> Result<bool, Fail> {
    match what {
        "folder" => create_dir(rt, path)?,
        "file" => write(rt, path, b"kept")?,
        "session" => write(rt, path, b"1\n")?,
        "link" => symlink(rt, "p2", path)?,
        "remove" => remove_file(rt, path)?,
        _ => return Ok(false),
    }
    Ok(true)
}

/// Returns true if files are made, removed or found as a line says.
pub fn is_so(rt: &HostRuntime, words: &str) -> Result<bool, Fail> {
    let Some((what, path)) = words.split_once(' ') else {
        return Ok(false);
    };
    match what {
        "there" => Ok(exists(rt, path)?),
        "gone" => Ok(!exists(rt, path)?),
        "bound" => Ok(is_bound(rt, path)),
        "refused" => Ok(is_refused(rt, path.strip_prefix('-').unwrap_or(path))),
        _ => is_made(rt, what, path),
    }
}

/// The first line of which files aren't made, removed or seen so.
pub fn first_untrue<'a>(rt: &HostRuntime, lines: &'a str) -> Result<Option<&'a str>, Fail> {
    for line in lines.lines() {
        if !is_so(rt, line)? {
            return Ok(Some(line));
        }
    }
    Ok(None)
}
