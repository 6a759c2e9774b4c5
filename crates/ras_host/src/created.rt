//! The files that were made on a host in memory.

ghost use Rattle.std.specs.Prelude.{◌≡◌, ℕ, ◌+◌, ◌≤◌, ◌<◌, [], ◌∷◌, cond, true, Option, Some, length, IfOk, option_map, vec_len, vec_capacity};
ghost use Rattle.ras_host.specs.Pieces.{all_in};

use crate::buffer::append;
use std::alloc::{AllocError, Global};

/// Where the name of a created file lies in the buffer, and the bytes that are kept of it behind the name.
#[derive(Clone, Copy, Debug)]
pub struct Piece {
    pub start: usize,
    pub name_len: usize,
    pub kept: usize,
    pub total: u64,
}

/// The created files, in a buffer of `room` bytes that is never given back.
///
/// Each file that has a name takes a byte of the buffer at least, so that no more of them than
/// `room` are made.
#[derive(Drop)]
pub struct CreatedFiles {
    pub bytes: Vec<u8>,
    pub named: Vec<Piece>,
    pub unnamed: Option<Piece>,
    pub room: usize,
    ghost within: { all_in (length bytes.items) unnamed named.items ≡ true },
    ghost each_a_byte: { vec_len named ≤ vec_len bytes },
    ghost fits: { vec_len bytes ≤ room },
    ghost bytes_reserved: { room ≤ vec_capacity bytes },
    ghost named_reserved: { room ≤ vec_capacity named },
}

// Puts a piece in front of others, for which there is room.
fn put_first(pieces: &mut Vec<Piece>, piece: Piece)
    requires { vec_len pieces.old < vec_capacity pieces.old }
    ensures items { pieces.new.items ≡ piece ∷ pieces.old.items }
    ensures len { vec_len pieces.new ≡ vec_len pieces.old + 1 }
    ensures capacity { vec_capacity pieces.old ≤ vec_capacity pieces.new }
{
    match pieces.insert(0, piece) {
        Ok(()) => (),
        Err(_) => unreachable!(),
    }
}

impl CreatedFiles {
    ghost use Rattle.std.specs.Str.{bytes_eq};
    ghost use Rattle.ras_host.specs.Created.{told_created};
    ghost use Rattle.ras_host.specs.Told.{Bytes, created_of};

    /// No file, with room for so many bytes of files and their names.
    pub fn make(alloc: Global, room: usize) -> Result<CreatedFiles, AllocError>
        ensures told { IfOk result (λ files. told_created files ≡ []) }
        ensures used { IfOk result (λ files. vec_len files.bytes ≡ 0) }
        ensures room { IfOk result (λ files. files.room ≡ room) }
    {
        let bytes = Vec::with_capacity(alloc, room)?;
        let named = Vec::with_capacity(alloc, room)?;
        Ok(CreatedFiles {
            bytes,
            named,
            unnamed: None,
            room,
        })
    }

    /// Makes a file of `total` bytes, of which these are kept, in place of an earlier one of that name.
    pub fn put(&mut self, name: &str, kept: &[u8], total: u64)
        requires { vec_len self.old.bytes + length name.now + length kept.now ≤ self.old.room }
        ensures told { (n : Bytes) → created_of (told_created self.new) n
            ≡ cond (bytes_eq name.now n) (Some (record { kept = kept.now; total = total })) (created_of (told_created self.old) n) }
        ensures used { vec_len self.new.bytes ≡ vec_len self.old.bytes + length name.now + length kept.now }
        ensures room { self.new.room ≡ self.old.room }
    {
        let piece = Piece {
            start: self.bytes.len(),
            name_len: name.len(),
            kept: kept.len(),
            total,
        };
        append(&mut self.bytes, name.as_bytes());
        append(&mut self.bytes, kept);
        if name.is_empty() {
            self.unnamed = Some(piece);
            return;
        }
        put_first(&mut self.named, piece);
    }

    /// The kept bytes of the file of that name.
    pub fn get(&self, name: &str) -> Option<&[u8]>
        ensures { option_map (λ bytes. bytes.now) result ≡ option_map (λ told. told.kept) (created_of (told_created self.now) name.now) }
    {
        if name.is_empty()
            && let Some(piece) = self.unnamed
        {
            return Some(
                &self.bytes[piece.start + piece.name_len..piece.start
                    + piece.name_len
                    + piece.kept],
            );
        }
        for piece in &self.named {
            let kept_at = piece.start + piece.name_len;
            if &self.bytes[piece.start..kept_at] == name.as_bytes() {
                return Some(&self.bytes[kept_at..kept_at + piece.kept]);
            }
        }
        None
    }
}
