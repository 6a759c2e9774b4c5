//! Bytes that are stored over several words, each word once.

ghost use Rattle.std.specs.Prelude.{◌≡◌, ◌+◌, ◌-◌, ◌*◌, ◌^◌, ◌<◌, ◌≤◌, [], ◌∷◌, length, take, drop};
ghost use Rattle.ras_bits.specs.Fields.{number_at};
ghost use Rattle.ras_bits.specs.Map.{word_address, word_at};
ghost use Rattle.sbi_calls.specs.declared.console.TheConstants.{MOST_BYTES};
ghost use Rattle.rv64_hart.specs.ConsoleCalls.{words_touched, part_of, part_stored, parts_stored, span_stored};
ghost use Rattle.rv64_hart.specs.Program.{IsTouched};
ghost use Rattle.rv64_hart.specs.Step.{stored};

use poison_mem::{Bus, EventLog};
use ras_bits::{u64_at, word_address, word_at};

/// The little-endian number of at most eight bytes.
fn number_of(bytes: &[u8]) -> u64
    requires { length bytes.now ≤ 8 }
    ensures { result ≡ number_at 8 0 bytes.now }
{
    let mut word = [0; 8];
    for i in 0..bytes.len() {
        word[i] = bytes[i];
    }
    u64_at(&word, 0)
}

/// The mask of the first `n` bytes of a word.
fn first_bytes(n: usize) -> u8
    requires { n ≤ 8 }
    ensures { result ≡ 2 ^ n - 1 }
{
    ((1u16 << n) - 1) as u8
}

/// How many words hold `n` bytes from an address on. At most 4,096 bytes.
pub(crate) fn words_touched(address: u64, n: u64) -> u32
    requires { n ≤ MOST_BYTES }
    ensures { result ≡ words_touched address n }
{
    if n == 0 {
        0
    } else {
        ((address % 8 + n + 7) / 8) as u32
    }
}

/// Stores those of the bytes from `address` on that fall into word `w`.
fn store_part<B: Bus, G: EventLog>(w: u32, address: u64, bytes: &[u8], bus: &mut B, log: &mut G)
    requires there { w < B.meaning.words bus.old }
    requires starts { address < word_address w + 8 }
    requires ends { word_address w < address + length bytes.now }
    requires fits { address + length bytes.now < 2 ^ 64 }
    ensures stores { stored B.meaning G.logged (part_stored w (part_of address bytes.now w) ∷ []) bus.old log.old ≡ (bus.new, log.new) }
    ensures words { B.meaning.words bus.new ≡ B.meaning.words bus.old }
{
    let base = word_address(w);
    let from = address.max(base);
    let to = (address + bytes.len() as u64).min(base + 8);
    let part = front(behind(bytes, from - address), to - from);
    let first = from - base;
    let value = number_of(part) << (8 * first);
    let mask = first_bytes(part.len()) << first;
    bus.store(w, value, mask, log);
}

/// Stores bytes from `address` on, one store for each word that they touch, in rising order.
#[tactic(auto, unfolding(crate::specs::ConsoleCalls::parts_stored))]
pub(crate) fn store_parts<B: Bus, G: EventLog>(
    words: u32,
    address: u64,
    bytes: &[u8],
    bus: &mut B,
    log: &mut G,
)
    requires bus { words ≡ B.meaning.words bus.old }
    requires most { length bytes.now ≤ MOST_BYTES }
    requires in_ram { IsTouched words address (length bytes.now) }
    ensures stores { stored B.meaning G.logged (span_stored address bytes.now) bus.old log.old ≡ (bus.new, log.new) }
    ensures words { B.meaning.words bus.new ≡ B.meaning.words bus.old }
{
    if bytes.is_empty() {
        return;
    }
    let first = word_at(words, address);
    let n = words_touched(address, bytes.len() as u64);
    for i in 0..n {
        store_part(first + i, address, bytes, bus, log);
    }
}

/// The bytes behind so many others, none where there are no more.
pub(crate) fn behind(bytes: &[u8], others: u64) -> &[u8]
    ensures { result.now ≡ drop others bytes.now }
{
    if others < bytes.len() as u64 {
        &bytes[others as usize..]
    } else {
        &[]
    }
}

/// The first `n` bytes, or all where there are fewer.
pub(crate) fn front(bytes: &[u8], n: u64) -> &[u8]
    ensures { result.now ≡ take n bytes.now }
{
    if n < bytes.len() as u64 {
        &bytes[..n as usize]
    } else {
        bytes
    }
}
