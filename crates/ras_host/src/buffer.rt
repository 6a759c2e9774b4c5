//! Buffers with room that is taken once.

ghost use Rattle.std.specs.Prelude.{◌≡◌, ◌+◌, ◌≤◌, ◌++◌, length, vec_len, vec_capacity};

/// Appends bytes for which the buffer has room.
pub fn append(buffer: &mut Vec<u8>, bytes: &[u8])
    requires { vec_len buffer.old + length bytes.now ≤ vec_capacity buffer.old }
    ensures items { buffer.new.items ≡ buffer.old.items ++ bytes.now }
    ensures len { vec_len buffer.new ≡ vec_len buffer.old + length bytes.now }
    ensures capacity { vec_capacity buffer.old ≤ vec_capacity buffer.new }
{
    match buffer.extend_from_slice(bytes) {
        Ok(()) => (),
        Err(_) => unreachable!(),
    }
}
