//! The tables by which words are coded and read.

ghost use Rattle.std.specs.Prelude.{◌≡◌, ◌<◌};
ghost use Rattle.hsiao_code.specs.Code.{check_of_byte, bit_of_syndrome};

use crate::columns::with_columns;

/// The xors of the columns that each byte chooses from eight of them.
macro_rules! xors {
    ([$($x:expr),*]) => { [$($x),*] };
    ([$($x:expr),*] $column:literal $($rest:literal)*) => { xors!([$($x,)* $($x ^ $column),*] $($rest)*) };
}

/// The same for the columns of byte `k` of the data.
macro_rules! checks {
    (0 [$($column:literal)*] $($rest:tt)*) => { xors!([0] $($column)*) };
    (1 $lower:tt $($rest:tt)*) => { checks!(0 $($rest)*) };
    (2 $lower:tt $($rest:tt)*) => { checks!(1 $($rest)*) };
    (3 $lower:tt $($rest:tt)*) => { checks!(2 $($rest)*) };
    (4 $lower:tt $($rest:tt)*) => { checks!(3 $($rest)*) };
    (5 $lower:tt $($rest:tt)*) => { checks!(4 $($rest)*) };
    (6 $lower:tt $($rest:tt)*) => { checks!(5 $($rest)*) };
    (7 $lower:tt $($rest:tt)*) => { checks!(6 $($rest)*) };
}

const CHECKS_0: [u8; 256] = with_columns!(checks 0);

const CHECKS_1: [u8; 256] = with_columns!(checks 1);

const CHECKS_2: [u8; 256] = with_columns!(checks 2);

const CHECKS_3: [u8; 256] = with_columns!(checks 3);

const CHECKS_4: [u8; 256] = with_columns!(checks 4);

const CHECKS_5: [u8; 256] = with_columns!(checks 5);

const CHECKS_6: [u8; 256] = with_columns!(checks 6);

const CHECKS_7: [u8; 256] = with_columns!(checks 7);

/// What byte `k` of a word adds to its check bits where that byte is `b`: the xor of the columns of the
/// bits `8 * k + i`, for each bit i that is set in `b`.
///
/// `k` is below 8.
pub fn check_entry(k: u8, b: u8) -> u8
    requires { k < 8 }
    ensures { result ≡ check_of_byte k b }
{
    match k {
        0 => CHECKS_0[b as usize],
        1 => CHECKS_1[b as usize],
        2 => CHECKS_2[b as usize],
        3 => CHECKS_3[b as usize],
        4 => CHECKS_4[b as usize],
        5 => CHECKS_5[b as usize],
        6 => CHECKS_6[b as usize],
        _ => CHECKS_7[b as usize],
    }
}

/// The bit whose column a syndrome is, with 73 where it is none.
macro_rules! bits_or_none {
    ($($bit:tt)*) => { [$(bit_or_none!($bit)),*] };
}

macro_rules! bit_or_none {
    (_) => { 73 };
    ($bit:literal) => { $bit };
}

/// What each syndrome says, sixteen in a row: 72 for 0, and otherwise the bit whose column it is.
const SYNDROMES: [u8; 256] = bits_or_none!(
    72 64 65  _ 66  _  _  0 67  _  _  1  _  2  3  _
    68  _  _  4  _  5  6  _  _  7  8  _  9  _  _ 56
    69  _  _ 10  _ 11 12  _  _ 13 14  _ 15  _  _  _
     _ 16 17  _ 18  _  _  _ 19  _  _  _  _  _ 57  _
    70  _  _ 20  _ 21 22  _  _ 23 24  _ 25  _  _  _
     _ 26 27  _ 28  _  _  _ 29  _  _  _  _  _  _  _
     _ 30 31  _ 32  _  _  _ 33  _  _  _  _  _  _  _
    34  _  _  _  _  _  _  _  _  _  _  _ 58  _  _  _
    71  _  _ 35  _ 36 37  _  _ 38 39  _ 40  _  _ 63
     _ 41 42  _ 43  _  _  _ 44  _  _  _  _  _  _  _
     _ 45 46  _ 47  _  _  _ 48  _  _  _  _  _  _  _
    49  _  _  _  _  _  _  _  _  _  _  _  _  _  _  _
     _ 50 51  _ 52  _  _ 62 53  _  _  _  _  _  _  _
    54  _  _  _  _  _  _  _  _  _  _  _  _  _  _  _
    55  _  _ 61  _  _  _  _  _  _  _  _  _  _  _  _
     _ 60  _  _  _  _  _  _ 59  _  _  _  _  _  _  _
);

/// What the syndrome `s` says of a codeword: 72 exactly for 0, the bit whose column it is where there
/// is one, and otherwise 73.
pub fn syndrome_entry(s: u8) -> u8
    ensures { result ≡ bit_of_syndrome s }
{
    SYNDROMES[s as usize]
}
