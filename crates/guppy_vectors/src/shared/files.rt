//! The files that a section names, and the script on standard input.
use crate::shared::failure::Failure;
use byte_devices::{FromReader, read_all};
use guppy_packages::PackageGraph;
use row_files::{Lines, graph_of, graph_of_lines};
use std::fs::File;

/// Returns all bytes of the file at `path`; no bytes for an empty path. `Words` if the file can't be read, `Memory` if an
/// allocation fails.
pub fn bytes_of(rt: &HostRuntime, path: &str) -> Result<Vec<u8>, Failure> {
    if path.is_empty() {
        return Ok(Vec::new(rt.alloc()));
    }
    match File::open(rt, path) {
        Ok(file) => Ok(read_all(rt.alloc(), &mut FromReader::new(file))?),
        Err(_) => Err(Failure::Words),
    }
}

/// Returns the package graph of the row file at `path`; an empty one for an empty path. `Words` if the file can't be read or
/// its rows have a fault, `Memory` if an allocation fails.
pub fn package_graph(rt: &HostRuntime, path: &str) -> Result<PackageGraph, Failure> {
    let bytes = bytes_of(rt, path)?;
    Ok(graph_of(rt.alloc(), &bytes)?)
}

/// Returns the same graph as [`package_graph`], made of the file's lines, or the same failure.
pub fn package_graph_by_lines(rt: &HostRuntime, path: &str) -> Result<PackageGraph, Failure> {
    let bytes = bytes_of(rt, path)?;
    let Ok(text) = str::from_utf8(&bytes) else {
        return Err(Failure::Words);
    };
    let lines = Lines::of(rt.alloc(), text)?;
    Ok(graph_of_lines(rt.alloc(), &lines)?)
}

/// Returns standard input as a string. `Words` if it can't be read or isn't UTF-8, `Memory` if an allocation fails.
pub fn script(rt: &HostRuntime) -> Result<String, Failure> {
    let bytes = read_all(rt.alloc(), &mut FromReader::new(rt.stdin()))?;
    match String::from_utf8(bytes) {
        Ok(text) => Ok(text),
        Err(_) => Err(Failure::Words),
    }
}
