//! A desk that holds the files of the rows.

ghost use Rattle.std.specs.Prelude.{◌≡◌, ◌≢◌, ◌<◌, ◌↔◌, false, All, IsTrue, string_bytes};

use crate::named_files::NamedFile;
use sfc_desk::MemoryDesk;
use std::alloc::Global;
use wire_base::{List, OutOfMemory};

fn is_same(name: &str, other: &str) -> bool
    ensures { IsTrue result ↔ (name.now ≡ other.now) }
{
    name.as_bytes() == other.as_bytes()
}

/// Whether a file has this name.
fn is_taken(files: &[NamedFile], name: &str) -> bool
    ensures { result ≡ false → All (λ file. string_bytes file.name ≢ name.now) files.now }
{
    'files: for file in files {
        if is_same(file.name.as_str(), name) {
            return true;
        }
    }
    false
}

/// A desk with these files, whose calls of the listed numbers fail; None where two files have one name.
pub(crate) fn desk_of(
    alloc: Global,
    piece: usize,
    room: usize,
    fail: List<u64>,
    files: &[NamedFile],
) -> Result<Option<MemoryDesk>, OutOfMemory>
    requires { 0 < piece }
{
    let mut desk = MemoryDesk::new(alloc, piece, fail, room)?;
    'files: for i in 0..files.len() {
        let file = &files[i];
        if is_taken(&files[..i], file.name.as_str()) {
            return Ok(None);
        }
        desk.add_file(file.name.as_str(), file.bytes.as_slice())?;
    }
    Ok(Some(desk))
}
