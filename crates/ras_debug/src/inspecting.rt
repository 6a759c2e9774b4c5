//! What a session shows of a machine: memory, poisoned words, error banks and instructions.

ghost use Rattle.std.specs.Prelude.{◌≡◌, ◌+◌, ◌*◌, ◌^◌, ◌<◌, ◌≤◌, ◌++◌, [], length, true};
ghost use Rattle.std.specs.Int.{from_bool};
ghost use Rattle.ras_bits.specs.declared.map.TheConstants.{RAM_START};
ghost use Rattle.ras_bits.specs.Map.{is_ram, word_address};
ghost use Rattle.reri_bank.specs.Banks.{bank_at, records_of};
ghost use Rattle.rv64_hart.specs.Access.{instruction_at};
ghost use Rattle.ras_machine.specs.Settings.{ram_words};
ghost use Rattle.ras_debug.specs.declared.fields.TheConstants.{MOST_LINES};
ghost use Rattle.ras_debug.specs.declared.reply.TheConstants.{REPLY_BYTES};
ghost use Rattle.ras_debug.specs.Replies.{disassembled, instruction_line, instruction_lines, is_poison, kept_text, poison_count, poison_line, poison_lines, poison_text, record_line, record_lines, register_in, register_text, seen, word_line, word_lines};

use crate::fields::MOST_LINES;
use crate::reply::Reply;
use arrayvec::ArrayVec;
use poison_mem::Cell;
use ras_bits::{WORDS_PER_MIB, get_field, word_address, word_at};
use ras_machine::Machine;
use reri_bank::{ADDR, Bank, CONTROL, INFO, STATUS, STRIDE, SUPPL, TIMESTAMP};
use rv64_decode::decode;
use rv64_text::write_text;

/// How many words the RAM of a machine has.
pub(crate) fn ram_words(m: &Machine) -> u32
    ensures { result ≡ ram_words m.now.settings }
{
    m.settings().ram_mib * WORDS_PER_MIB
}

// Appends a word of RAM as a read would see it.
fn push_word(reply: &mut Reply, m: &Machine, w: u32)
    requires room { length reply.old + 38 ≤ REPLY_BYTES }
    requires there { w < ram_words m.now.settings }
    ensures text { reply.new ≡ reply.old ++ word_line m.now w }
    ensures len { length reply.new ≤ length reply.old + 38 }
{
    reply.push_address(word_address(w));
    reply.push(b" ");
    match m.view(w) {
        Cell::Good(value) => reply.push_address(value),
        Cell::Poison => reply.push(b"poison"),
    }
    reply.push(b"\n");
}

/// Appends so many words of RAM from word `w` on.
pub(crate) fn push_words(reply: &mut Reply, m: &Machine, w: u32, n: u32)
    requires empty { reply.old ≡ [] }
    requires most { n ≤ MOST_LINES }
    requires there { w + n ≤ ram_words m.now.settings }
    ensures { reply.new ≡ word_lines m.now w n }
{
    // The number is one of 32 bits.
    let _words = ram_words(m);
    for i in 0..n {
        push_word(reply, m, w + i);
    }
}

// Whether a word of RAM is poisoned.
fn is_poison(m: &Machine, w: u32) -> bool
    requires { w < ram_words m.now.settings }
    ensures { result ≡ is_poison (seen m.now w) }
{
    matches!(m.view(w), Cell::Poison)
}

// Appends a poisoned word where fewer than 256 stand before it, and answers how many there then
// are.
fn push_if_poisoned(reply: &mut Reply, m: &Machine, w: u32, count: u32) -> u32
    requires there { w < ram_words m.now.settings }
    requires counted { count ≡ poison_count m.now w }
    requires below { count ≤ w }
    requires fits { w + 1 < 2 ^ 32 }
    requires room { length reply.old ≤ 19 * count }
    requires most { length reply.old ≤ 4864 }
    ensures text { reply.new ≡ reply.old ++ poison_line m.now w }
    ensures count { result ≡ count + from_bool (is_poison (seen m.now w)) }
    ensures room { length reply.new ≤ 19 * result }
    ensures most { length reply.new ≤ 4864 }
{
    if !is_poison(m, w) {
        return count;
    }
    if count < MOST_LINES {
        reply.push_address(word_address(w));
        reply.push(b"\n");
    }
    count + 1
}

// Appends the first 256 poisoned words, and answers how many there are in all.
fn push_poisoned(reply: &mut Reply, m: &Machine, words: u32) -> u32
    requires empty { reply.old ≡ [] }
    requires there { words ≤ ram_words m.now.settings }
    ensures text { reply.new ≡ poison_lines m.now words }
    ensures most { length reply.new ≤ 4864 }
    ensures count { result ≡ poison_count m.now words }
{
    let mut count = 0u32;
    for w in 0..words {
        count = push_if_poisoned(reply, m, w, count);
    }
    count
}

/// Appends the first 256 poisoned words of RAM, and how many there are in all.
pub(crate) fn push_poison(reply: &mut Reply, m: &Machine)
    requires { reply.old ≡ [] }
    ensures { reply.new ≡ poison_text m.now (ram_words m.now.settings) }
{
    let count = push_poisoned(reply, m, ram_words(m));
    reply.push(b"total ");
    reply.push_number(u64::from(count));
    reply.push(b"\n");
}

// A register of record `r`, by its offset from the record's first one.
fn register_in(bank: &Bank, r: u8, offset: u16) -> u64
    requires rec { r < 2 }
    requires offset { offset < 64 }
    ensures { result ≡ register_in bank.now r offset }
{
    bank.read_reg(CONTROL + STRIDE * u16::from(r) + offset)
        .unwrap_or(0)
}

// Appends a register of a record behind its name.
fn push_register(reply: &mut Reply, name: &[u8], value: u64)
    requires room { length reply.old + 28 ≤ REPLY_BYTES }
    requires name { length name.now ≤ 10 }
    ensures text { reply.new ≡ reply.old ++ register_text name.now value }
    ensures len { length reply.new ≤ length reply.old + 28 }
{
    reply.push(name);
    reply.push_address(value);
}

// Appends what record `r` shows of its kept event.
fn push_kept(reply: &mut Reply, bank: &Bank, r: u8)
    requires room { length reply.old + 112 ≤ REPLY_BYTES }
    requires rec { r < 2 }
    ensures text { reply.new ≡ reply.old ++ kept_text bank.now r }
    ensures len { length reply.new ≤ length reply.old + 112 }
{
    push_register(reply, b" addr ", register_in(bank, r, ADDR));
    push_register(reply, b" info ", register_in(bank, r, INFO));
    push_register(reply, b" suppl ", register_in(bank, r, SUPPL));
    push_register(reply, b" time ", register_in(bank, r, TIMESTAMP));
}

// Appends the registers of record `r`.
fn push_record(reply: &mut Reply, bank: &Bank, r: u8)
    requires room { length reply.old + 256 ≤ REPLY_BYTES }
    requires rec { r < 2 }
    ensures text { reply.new ≡ reply.old ++ record_line bank.now r }
    ensures len { length reply.new ≤ length reply.old + 256 }
{
    reply.push(b"rec ");
    reply.push_number(u64::from(r));
    push_register(reply, b" control ", register_in(bank, r, 0));
    push_register(reply, b" status ", register_in(bank, r, STATUS));
    push_kept(reply, bank, r);
    reply.push(b"\n");
}

/// Appends the records of a bank.
#[tactic(auto, using(crate::proofs::Lines::one_record, crate::proofs::Lines::two_records))]
pub(crate) fn push_bank(reply: &mut Reply, m: &Machine, b: u8)
    requires empty { reply.old ≡ [] }
    requires bank { b ≤ 2 }
    ensures { reply.new ≡ record_lines (bank_at m.now.state.firmware.banks b) (records_of b) }
{
    let bank = m.banks().bank(b);
    push_record(reply, bank, 0);
    if b != 2 {
        push_record(reply, bank, 1);
    }
}

// The instruction at an address, in the word that holds it.
fn instruction_at(address: u64, value: u64) -> u32
    ensures { result ≡ instruction_at address value }
{
    if address % 8 == 4 {
        (value >> 32) as u32
    } else {
        get_field(value, 0, 32) as u32
    }
}

// Appends an instruction and its text.
fn push_text(reply: &mut Reply, address: u64, word: u32)
    requires room { length reply.old + 75 ≤ REPLY_BYTES }
    ensures text { reply.new ≡ reply.old ++ disassembled address word }
    ensures len { length reply.new ≤ length reply.old + 75 }
{
    let mut text = ArrayVec::<u8, 64>::new();
    write_text(&decode(word), address, &mut text);
    reply.push(b"0x");
    reply.push_instruction(word);
    reply.push(b" ");
    reply.push(text.as_slice());
}

// Appends the instruction at an address in RAM.
fn push_instruction(reply: &mut Reply, m: &Machine, address: u64)
    requires room { length reply.old + 95 ≤ REPLY_BYTES }
    requires there { is_ram (ram_words m.now.settings) address ≡ true }
    ensures text { reply.new ≡ reply.old ++ instruction_line m.now address }
    ensures len { length reply.new ≤ length reply.old + 95 }
{
    reply.push_address(address);
    reply.push(b" ");
    match m.view(word_at(ram_words(m), address)) {
        Cell::Good(value) => push_text(reply, address, instruction_at(address, value)),
        Cell::Poison => reply.push(b"poison"),
    }
    reply.push(b"\n");
}

/// Appends so many instructions from an address on.
pub(crate) fn push_instructions(reply: &mut Reply, m: &Machine, address: u64, n: u32)
    requires empty { reply.old ≡ [] }
    requires most { n ≤ MOST_LINES }
    requires from { RAM_START ≤ address }
    requires to { address + 4 * n ≤ word_address (ram_words m.now.settings) }
    ensures { reply.new ≡ instruction_lines m.now address n }
{
    // The number is one of 32 bits.
    let _words = ram_words(m);
    for i in 0..n {
        push_instruction(reply, m, address + 4 * u64::from(i));
    }
}
