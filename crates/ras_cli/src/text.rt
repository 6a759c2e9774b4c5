//! Lines that are made before they are written.

ghost use Rattle.std.specs.Prelude.{◌≡◌, ◌+◌, ◌≤◌, ◌++◌, length};
ghost use Rattle.std.specs.Fmt.{decimal};
ghost use Rattle.arrayvec.specs.ArrayVec.{array_vec_len};
ghost use Rattle.ras_cli.specs.declared.text.TheConstants.{TEXT_ROOM};

use arrayvec::ArrayVec;
use itoa::Buffer;

/// The most bytes of a line.
pub const TEXT_ROOM: usize = 256;

/// The text of a line.
pub type Text = ArrayVec<u8, TEXT_ROOM>;

/// Appends bytes that fit.
pub fn push_text(text: &mut Text, bytes: &[u8])
    requires { array_vec_len text.old + length bytes.now ≤ TEXT_ROOM }
    ensures items { text.new.items ≡ text.old.items ++ bytes.now }
    ensures len { array_vec_len text.new ≡ array_vec_len text.old + length bytes.now }
{
    match text.try_extend_from_slice(bytes) {
        Ok(()) => (),
        Err(_) => unreachable!(),
    }
}

/// Appends a number in decimal.
pub fn push_number(text: &mut Text, number: u64)
    requires { array_vec_len text.old + 20 ≤ TEXT_ROOM }
    ensures items { text.new.items ≡ text.old.items ++ decimal number }
    ensures len { array_vec_len text.new ≤ array_vec_len text.old + 20 }
{
    let mut buffer = Buffer::new();
    push_text(text, buffer.format(number).as_bytes());
}
