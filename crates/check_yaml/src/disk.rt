//! What the system says of files and folders.

use std::alloc::AllocError;
use std::fs::{File, Files};
use std::io::{ErrorKind, Read};
use std::{fs, io};
use yaml_check::{Entry, FileName, Kind};

/// Opens a file. The kit opens none whose name isn't UTF-8.
pub fn open(rt: &HostRuntime, name: &FileName) -> io::Result<File> {
    if name.is_utf8 {
        File::open(rt, name.text.as_str())
    } else {
        Err(not_utf8())
    }
}

fn not_utf8() -> io::Error {
    io::Error::new(ErrorKind::InvalidFilename, "the name is not UTF-8")
}

/// The entries of a folder, in the order in which the system lists them.
pub fn list(rt: &HostRuntime, folder: &FileName) -> io::Result<Vec<Entry>> {
    if !folder.is_utf8 {
        return Err(not_utf8());
    }
    let path = folder_path(rt, folder.text.as_str())?;
    let mut names = rt.open_dir(path.as_str())?;
    let mut entries = Vec::new(rt.alloc());
    let mut room = [0; 8192];
    for _ in 0..u64::MAX {
        let count = names.read(&mut room)?;
        if count == 0 {
            break;
        }
        push_names(rt, &mut entries, path.as_str(), &room[..count])?;
    }
    Ok(entries)
}

// The slash makes the system follow a link to a folder.
fn folder_path(rt: &HostRuntime, path: &str) -> Result<String, AllocError> {
    let mut path = String::from_str(rt.alloc(), path)?;
    if !path.ends_with("/") {
        path.push('/')?;
    }
    Ok(path)
}

// Adds the entries with these names, each of which a NUL ends.
fn push_names(
    rt: &HostRuntime,
    entries: &mut Vec<Entry>,
    folder: &str,
    names: &[u8],
) -> Result<(), AllocError> {
    for name in names.split(|byte| *byte == 0) {
        if !name.is_empty() && name != b".".as_slice() && name != b"..".as_slice() {
            let kind = kind_of_entry(rt, folder, name)?;
            let name = FileName::from_bytes(rt.alloc(), name)?;
            if entries.push(Entry { name, kind }).is_err() {
                return Err(AllocError);
            }
        }
    }
    Ok(())
}

// What an entry of a folder is.
fn kind_of_entry(rt: &HostRuntime, folder: &str, name: &[u8]) -> Result<Kind, AllocError> {
    let mut path = String::from_str(rt.alloc(), folder)?.into_bytes();
    if path.extend_from_slice(name).is_err() {
        return Err(AllocError);
    }
    Ok(match str::from_utf8(&path) {
        Ok(path) => kind_of_path(rt, path),
        // The kit asks nothing of a path that isn't UTF-8.
        Err(_) => Kind::File,
    })
}

// A link counts as the file that it leads to. Something that is gone is nothing.
fn kind_of_path(rt: &HostRuntime, path: &str) -> Kind {
    match fs::symlink_metadata(rt, path) {
        Ok(found) if found.is_symlink() => kind_behind_link(rt, path),
        Ok(found) if found.is_file() => Kind::File,
        Ok(found) if found.is_dir() => Kind::Folder,
        Ok(_) => Kind::Other,
        Err(error) if error.kind() == ErrorKind::NotFound => Kind::Other,
        Err(_) => kind_of_unknown(path),
    }
}

// What can't be asked counts as what is told once it can't be read.
fn kind_of_unknown(path: &str) -> Kind {
    if path.ends_with(".yaml") || path.ends_with(".yml") {
        Kind::File
    } else {
        Kind::Folder
    }
}

// A link that leads nowhere counts as a file, which can't be read.
fn kind_behind_link(rt: &HostRuntime, path: &str) -> Kind {
    match fs::metadata(rt, path) {
        Ok(found) if !found.is_file() => Kind::Other,
        _ => Kind::File,
    }
}
