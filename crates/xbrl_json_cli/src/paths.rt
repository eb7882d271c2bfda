//! Paths of the system's files.

use std::alloc::Global;
use std::fs;

/// Returns the path of an existing file with its links resolved.
fn without_links(rt: &HostRuntime, path: &str) -> Option<String> {
    match fs::canonicalize(rt, path) {
        Ok(path) => Some(path.into_string()),
        Err(_) => None,
    }
}

/// Returns the path of the file that a write to this path reaches, which differs for a symbolic
/// link. Returns `None` if a link leads nowhere, or memory runs out.
pub fn reached(rt: &HostRuntime, alloc: Global, path: &str) -> Option<String> {
    match fs::symlink_metadata(rt, path) {
        Ok(metadata) if metadata.is_symlink() => without_links(rt, path),
        _ => String::from_str(alloc, path).ok(),
    }
}

/// Returns the path of a file's folder, and the file's name in it.
pub fn parts_of(path: &str) -> (&str, &str) {
    match path.rsplit_once('/') {
        Some(("", name)) => ("/", name),
        Some(parts) => parts,
        None => (".", path),
    }
}

/// Returns the path of a file with its links resolved, if its folder exists. The file need not
/// exist.
pub fn true_path(rt: &HostRuntime, alloc: Global, path: &str) -> Option<String> {
    if let Some(path) = without_links(rt, path) {
        return Some(path);
    }
    let (folder, name) = parts_of(path);
    let folder = without_links(rt, folder)?;
    let folder = folder.as_str();
    format!(in alloc; "{folder}/{name}").ok()
}

/// Makes the system write the entries of a file's folder to its disk. Ignores failures, because not
/// every system can do it.
pub fn sync_folder(rt: &HostRuntime, path: &str) {
    let (folder, _) = parts_of(path);
    if let Ok(folder) = fs::open(rt, folder) {
        let _ = folder.sync_all();
    }
}
