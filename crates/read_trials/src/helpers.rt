//! What both trials need.

ghost use Rattle.std.specs.Prelude.{◌<◌, ◌≤◌, ◌^◌, length};

use ras_read::{ReadRefused, read_file};
use std::alloc::Global;

/// Whether a text is these pieces, one after the other.
fn is_joined(text: &[u8], pieces: &[&[u8]]) -> bool {
    let mut rest = text;
    for piece in pieces {
        if !rest.starts_with(*piece) {
            return false;
        }
        rest = &rest[piece.len()..];
    }
    rest.is_empty()
}

/// The first so many bytes of a file, or all where there are fewer.
pub(crate) fn cut_at(file: &[u8], end: usize) -> &[u8]
    ensures { length result.now ≤ length file.now }
{
    if end <= file.len() {
        &file[..end]
    } else {
        file
    }
}

/// Whether a file is printed as the text of these pieces.
pub(crate) fn is_printed(alloc: Global, file: &[u8], pieces: &[&[u8]]) -> bool
    requires { length file.now < 2 ^ 32 }
{
    match read_file(alloc, file) {
        Ok(text) => is_joined(text.as_slice(), pieces),
        Err(_) => false,
    }
}

/// Whether a file is refused so.
pub(crate) fn is_refused(alloc: Global, file: &[u8], why: ReadRefused) -> bool
    requires { length file.now < 2 ^ 32 }
{
    match read_file(alloc, file) {
        Ok(_) => false,
        Err(refused) => refused == why,
    }
}
