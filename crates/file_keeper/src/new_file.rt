//! How a new file begins.

use std::alloc::AllocError;
use std::fs;
use std::io::{ErrorKind, Write};

/// The first bytes of an empty database of SQLite with pages of 1,024 bytes and its log beside it.
/// The rest of its one page is zeros. Source: https://www.sqlite.org/fileformat.html, 1.3 and 1.6.
static FIRST_BYTES: [u8; 108] = [
    83, 81, 76, 105, 116, 101, 32, 102, 111, 114, 109, 97, 116, 32, 51, 0, 4, 0, 2, 2, 0, 64, 32,
    32, 0, 0, 0, 2, 0, 0, 0, 1, 0, 0, 0, 0, 0, 0, 0, 0, 0, 0, 0, 3, 0, 0, 0, 0, 0, 0, 0, 0, 0, 0,
    0, 0, 0, 0, 0, 1, 0, 0, 0, 0, 0, 0, 0, 0, 0, 0, 0, 0, 0, 0, 0, 0, 0, 0, 0, 0, 0, 0, 0, 0, 0, 0,
    0, 0, 0, 0, 0, 0, 0, 0, 0, 2, 0, 46, 99, 1, 13, 0, 0, 0, 0, 4, 0, 0,
];

const PAGE_BYTES: usize = 1024;

// Whether nothing is called so.
fn is_absent(rt: &HostRuntime, path: &str) -> bool {
    match fs::open(rt, path) {
        Ok(_) => false,
        Err(error) => error.kind() == ErrorKind::NotFound,
    }
}

fn page(rt: &HostRuntime) -> Result<Vec<u8>, AllocError> {
    let mut page = Vec::from_slice(rt.alloc(), &FIRST_BYTES)?;
    page.resize(PAGE_BYTES, 0)?;
    Ok(page)
}

// Whether the file was written whole.
fn is_written(rt: &HostRuntime, path: &str, bytes: &[u8]) -> bool {
    match fs::create(rt, path) {
        Ok(mut file) => file.write_all(bytes).is_ok() && file.sync_all().is_ok(),
        Err(_) => false,
    }
}

fn begin(rt: &HostRuntime, path: &str) -> Result<(), AllocError> {
    let page = page(rt)?;
    let mut other = String::from_str(rt.alloc(), path)?;
    other.push_str("-new")?;
    if is_written(rt, other.as_str(), page.as_slice()) {
        // It comes to be whole or not at all, and never in the place of another one.
        let _ = fs::hard_link(rt, other.as_str(), path);
    }
    let _ = fs::remove_file(rt, other.as_str());
    Ok(())
}

/// Begins a file with small pages where there is none: a record is kept by writing the pages that
/// it changes, and most are short. Where that fails nothing is lost: the file is made as it is
/// opened, with greater pages.
pub(crate) fn begin_small(rt: &HostRuntime, path: &str) {
    if is_absent(rt, path) {
        let _ = begin(rt, path);
    }
}
