//! Text that is made before it is written.

ghost use Rattle.std.specs.Prelude.{◌≡◌, ◌+◌, ◌≤◌, ◌++◌, length};
ghost use Rattle.std.specs.Fmt.{decimal};
ghost use Rattle.arrayvec.specs.ArrayVec.{array_vec_len};
ghost use Rattle.ras_numbers.specs.Numbers.{address_text};

use arrayvec::ArrayVec;
use itoa::Buffer;

/// The most bytes of a report.
pub const REPORT_ROOM: usize = 4_096;

/// The text of a report.
pub type Report = ArrayVec<u8, REPORT_ROOM>;

/// Appends bytes that fit.
pub(crate) fn push<const N: usize>(text: &mut ArrayVec<u8, N>, bytes: &[u8])
    requires { array_vec_len text.old + length bytes.now ≤ N }
    ensures items { text.new.items ≡ text.old.items ++ bytes.now }
    ensures len { array_vec_len text.new ≡ array_vec_len text.old + length bytes.now }
{
    match text.try_extend_from_slice(bytes) {
        Ok(()) => (),
        Err(_) => unreachable!(),
    }
}

/// Appends a number in decimal.
pub(crate) fn push_number<const N: usize>(text: &mut ArrayVec<u8, N>, number: u64)
    requires { array_vec_len text.old + 20 ≤ N }
    ensures items { text.new.items ≡ text.old.items ++ decimal number }
    ensures len { array_vec_len text.new ≤ array_vec_len text.old + 20 }
{
    let mut buffer = Buffer::new();
    push(text, buffer.format(number).as_bytes());
}

/// Appends a number of at most three digits.
pub(crate) fn push_short<const N: usize>(text: &mut ArrayVec<u8, N>, number: u8)
    requires { array_vec_len text.old + 3 ≤ N }
    ensures items { text.new.items ≡ text.old.items ++ decimal number }
    ensures len { array_vec_len text.new ≤ array_vec_len text.old + 3 }
{
    let mut buffer = Buffer::new();
    push(text, buffer.format(number).as_bytes());
}

/// Appends an address.
pub(crate) fn push_address<const N: usize>(text: &mut ArrayVec<u8, N>, address: u64)
    requires { array_vec_len text.old + 18 ≤ N }
    ensures items { text.new.items ≡ text.old.items ++ address_text address }
    ensures len { array_vec_len text.new ≡ array_vec_len text.old + 18 }
{
    push(text, &ras_numbers::address(address));
}
