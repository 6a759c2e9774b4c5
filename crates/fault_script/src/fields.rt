//! The fields of a line: numbers in their ranges, addresses and classes.

ghost use Rattle.std.specs.Prelude.{◌≡◌, ◌≤◌, length, IfOk, true};
ghost use Rattle.ras_bits.specs.Map.{is_ram};
ghost use Rattle.fault_script.specs.declared.lines.Why.TheVariants.{Bit, Bank, Number};
ghost use Rattle.fault_script.specs.Fields.{number_up_to, address_of, is_word_address, class_of, class_text, delay_of};

use crate::lines::Why;
use poison_mem::Class;
use ras_bits::is_ram;
use ras_numbers::number;

/// A number that is at most the limit, or the given refusal.
#[tactic(auto, unfolding(crate::specs::Fields::number_up_to))]
pub(crate) fn number_up_to(word: &[u8], limit: u64, refusal: Why) -> Result<u64, Why>
    ensures exact { result ≡ number_up_to refusal limit word.now }
    ensures bound { IfOk result (λ n. n ≤ limit) }
{
    match number(word) {
        None => Err(Why::Number),
        Some(n) => { if n <= limit { Ok(n) } else { Err(refusal) } }
    }
}

/// The address of a word in a RAM of so many words.
#[tactic(auto, unfolding(crate::specs::Fields::address_of))]
pub(crate) fn address(word: &[u8], ram_words: u32) -> Result<u64, Why>
    ensures exact { result ≡ address_of ram_words word.now }
    ensures word { IfOk result (λ n. is_word_address ram_words n ≡ true) }
    ensures ram { IfOk result (λ n. is_ram ram_words n ≡ true) }
{
    match number(word) {
        None => Err(Why::Number),
        Some(n) => {
            if n % 8 == 0 && is_ram(ram_words, n) {
                Ok(n)
            } else {
                Err(Why::Address)
            }
        }
    }
}

// A number of one byte that is at most the limit, or the given refusal.
fn byte_up_to(word: &[u8], limit: u8, refusal: Why) -> Result<u8, Why>
    ensures exact { result ≡ number_up_to refusal limit word.now }
    ensures bound { IfOk result (λ n. n ≤ limit) }
{
    let n = number_up_to(word, u64::from(limit), refusal)?;
    Ok(n as u8)
}

/// A bit of a codeword.
pub(crate) fn bit(word: &[u8]) -> Result<u8, Why>
    ensures exact { result ≡ number_up_to Bit 71 word.now }
    ensures bound { IfOk result (λ n. n ≤ 71) }
{
    byte_up_to(word, 71, Why::Bit)
}

/// A bank that lines may name, or a record of it.
pub(crate) fn bank_or_record(word: &[u8]) -> Result<u8, Why>
    ensures exact { result ≡ number_up_to Bank 1 word.now }
    ensures bound { IfOk result (λ n. n ≤ 1) }
{
    byte_up_to(word, 1, Why::Bank)
}

/// The low half of a control register.
pub(crate) fn control_value(word: &[u8]) -> Result<u8, Why>
    ensures { result ≡ number_up_to Number 255 word.now }
{
    byte_up_to(word, 255, Why::Number)
}

/// The delay of an injected error, in steps.
#[tactic(auto, unfolding(crate::specs::Fields::delay_of))]
pub(crate) fn delay(word: &[u8]) -> Result<u16, Why>
    ensures exact { result ≡ delay_of word.now }
    ensures some { IfOk result (λ n. 1 ≤ n) }
{
    match number(word) {
        None => Err(Why::Number),
        Some(n) => {
            if 1 <= n && n <= 65_535 {
                Ok(n as u16)
            } else {
                Err(Why::Delay)
            }
        }
    }
}

/// The name of a class.
pub(crate) fn class_name(class: Class) -> &'static [u8]
    ensures text { result.now ≡ class_text class }
    ensures short { length result.now ≤ 3 }
{
    match class {
        Class::Corrected => b"ce",
        Class::Deferred => b"ued",
        Class::Critical => b"uec",
    }
}

/// The class that a word names.
#[tactic(auto, unfolding(crate::specs::Fields::class_of))]
pub(crate) fn class(word: &[u8]) -> Result<Class, Why>
    ensures { result ≡ class_of word.now }
{
    if word == class_name(Class::Corrected) {
        Ok(Class::Corrected)
    } else if word == class_name(Class::Deferred) {
        Ok(Class::Deferred)
    } else if word == class_name(Class::Critical) {
        Ok(Class::Critical)
    } else {
        Err(Why::Class)
    }
}
