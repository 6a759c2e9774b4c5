//! Hexadecimal text of numbers.

ghost use Rattle.std.specs.Prelude.{◌≡◌, ◌<◌};
ghost use Rattle.ras_numbers.specs.Numbers.{hex_digit, hex_text, address_text};

/// The hexadecimal digit for a value below 16, in lower case.
pub fn hex_digit(value: u8) -> u8
    requires { value < 16 }
    ensures { result ≡ hex_digit value }
{
    if value < 10 {
        b'0' + value
    } else {
        b'a' + (value - 10)
    }
}

/// The low `N` hexadecimal digits of `n`, in lower case, with leading zeros.
pub fn hex_digits<const N: usize>(n: u64) -> [u8; N]
    ensures { result ≡ hex_text N n }
{
    let mut text = [b'0'; N];
    let mut left = n;
    for i in 0..N {
        text[N - 1 - i] = hex_digit((left % 16) as u8);
        left /= 16;
    }
    text
}

/// The text of an address: `0x` and sixteen lower-case hexadecimal digits.
pub fn address(n: u64) -> [u8; 18]
    ensures { result ≡ address_text n }
{
    let mut text = *b"0x0000000000000000";
    text[2..].copy_from_slice(&hex_digits::<16>(n));
    text
}
