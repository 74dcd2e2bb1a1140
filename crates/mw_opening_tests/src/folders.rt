//! Folders of tests' own.
//!
//! Used by: `mode_tests`.
use std::{env, fs, io, process};

/// Gives the path of a folder that isn't there, with this in its name and in that of no other process's.
fn path_of(host: &HostRuntime, name: &str) -> io::Result<String> {
    let id = process::id(host.process());
    let above = env::temp_dir(host)?;
    let path = format!(in host.alloc(); "{}/mondlexi-{name}-{id}", above.as_str())?;
    Ok(path)
}

/// Makes a new folder, with this in its name and in that of no other process's.
pub(crate) fn new_folder(host: &HostRuntime, name: &str) -> io::Result<String> {
    let path = path_of(host, name)?;
    fs::create_dir(host, path.as_str())?;
    Ok(path)
}
