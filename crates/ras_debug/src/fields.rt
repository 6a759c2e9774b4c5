//! The fields of a line: numbers in their ranges, and addresses.

ghost use Rattle.std.specs.Prelude.{◌≡◌, ◌+◌, ◌*◌, ◌%◌, ◌<◌, ◌≤◌, IfOk, true};
ghost use Rattle.ras_bits.specs.Map.{is_ram, word_address};
ghost use Rattle.ras_debug.specs.Requests.{code_address, count_from, number_within, ram_address};
ghost use Rattle.ras_debug.specs.declared.fields.TheConstants.{MOST_LINES};

use crate::commands::Why;
use ras_bits::{is_ram, word_address};
use ras_numbers::number;

/// The most lines of memory that one reply has.
pub(crate) const MOST_LINES: u32 = 256;

/// A number from the low bound to the high one.
#[tactic(auto, unfolding(crate::specs::Requests::number_within))]
pub(crate) fn number_within(low: u64, high: u64, word: &[u8]) -> Result<u64, Why>
    ensures exact { result ≡ number_within low high word.now }
    ensures low { IfOk result (λ n. low ≤ n) }
    ensures high { IfOk result (λ n. n ≤ high) }
{
    match number(word) {
        None => Err(Why::Number),
        Some(n) => {
            if low <= n && n <= high {
                Ok(n)
            } else {
                Err(Why::Range)
            }
        }
    }
}

/// An address that is a multiple of the unit and lies in a RAM of so many words.
#[tactic(auto, unfolding(crate::specs::Requests::ram_address))]
pub(crate) fn ram_address(unit: u64, ram_words: u32, word: &[u8]) -> Result<u64, Why>
    requires { 0 < unit }
    ensures exact { result ≡ ram_address unit ram_words word.now }
    ensures ram { IfOk result (λ n. is_ram ram_words n ≡ true) }
    ensures aligned { IfOk result (λ n. n % unit ≡ 0) }
{
    match number(word) {
        None => Err(Why::Number),
        Some(n) => {
            if n % unit == 0 && is_ram(ram_words, n) {
                Ok(n)
            } else {
                Err(Why::Address)
            }
        }
    }
}

/// An address that an instruction may have.
#[tactic(auto, unfolding(crate::specs::Requests::code_address))]
pub(crate) fn code_address(word: &[u8]) -> Result<u64, Why>
    ensures { result ≡ code_address word.now }
{
    match number(word) {
        None => Err(Why::Number),
        Some(n) => { if n % 4 == 0 { Ok(n) } else { Err(Why::Address) } }
    }
}

/// How many lines of one unit each are asked for from an address in RAM on.
#[tactic(auto, unfolding(crate::specs::Requests::count_from))]
pub(crate) fn count_from(unit: u64, words: u32, address: u64, word: &[u8]) -> Result<u32, Why>
    requires unit { unit ≤ 8 }
    requires ram { is_ram words address ≡ true }
    ensures exact { result ≡ count_from unit words address word.now }
    ensures most { IfOk result (λ n. n ≤ MOST_LINES) }
    ensures within { IfOk result (λ n. address + unit * n ≤ word_address words) }
{
    let n = number_within(1, u64::from(MOST_LINES), word)?;
    if address + unit * n <= word_address(words) {
        Ok(n as u32)
    } else {
        Err(Why::Range)
    }
}
