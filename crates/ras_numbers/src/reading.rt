//! Numbers out of text.

ghost use Rattle.std.specs.Prelude.{◌≡◌, ◌≤◌};
ghost use Rattle.ras_numbers.specs.Numbers.{digit_value, digit_in, number_in, number_of};

/// What a byte counts for as a digit.
fn digit_value(byte: u8) -> Option<u64>
    ensures { result ≡ digit_value byte }
{
    match byte {
        b'0'..=b'9' => Some(u64::from(byte - b'0')),
        b'a'..=b'f' => Some(u64::from(byte - b'a' + 10)),
        b'A'..=b'F' => Some(u64::from(byte - b'A' + 10)),
        _ => None,
    }
}

/// What a byte counts for as a digit of the base.
fn digit_in(base: u64, byte: u8) -> Option<u64>
    ensures { result ≡ digit_in base byte }
{
    let digit = digit_value(byte)?;
    if digit < base { Some(digit) } else { None }
}

/// The number below 2^64 that one or more digits of the base stand for.
fn number_in(base: u64, digits: &[u8]) -> Option<u64>
    requires { 1 ≤ base }
    ensures { result ≡ number_in base digits.now }
{
    if digits.is_empty() {
        return None;
    }
    let mut value = 0u64;
    for byte in digits {
        let digit = digit_in(base, *byte)?;
        value = value.checked_mul(base)?.checked_add(digit)?;
    }
    Some(value)
}

/// The number that a text is: decimal digits, or `0x` and hexadecimal digits of either case.
///
/// Leading zeros are allowed, a sign is not, and `0X` is no prefix. None exactly where the text is
/// no such number or its value is above 2^64 - 1, so that a caller can tell "no number" from "out
/// of range".
pub fn number(text: &[u8]) -> Option<u64>
    ensures { result ≡ number_of text.now }
{
    match text {
        [b'0', b'x', digits @ ..] => number_in(16, digits),
        _ => number_in(10, text),
    }
}
