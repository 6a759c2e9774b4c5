//! Calls to the firmware that write bytes of memory to the console, and bytes of the input to memory (SBI specification,
//! chapter "DBCN").

ghost use Rattle.std.specs.Prelude.{◌≡◌, ◌+◌, ◌*◌, ◌^◌, ◌<◌, ◌≤◌, ◌++◌, ℕ, List, length, None};
ghost use Rattle.std.specs.Int.{w64, to_le_bytes};
ghost use Rattle.arrayvec.specs.ArrayVec.{array_vec_len};
ghost use Rattle.poison_mem.specs.Asking.{play};
ghost use Rattle.sbi_calls.specs.declared.console.TheConstants.{MOST_BYTES};
ghost use Rattle.rv64_hart.specs.ConsoleCalls.{bytes_asked, bytes_written, bytes_read};
ghost use Rattle.rv64_hart.specs.Program.{asked_end, IsTouched};
ghost use Rattle.rv64_hart.specs.Step.{scene, stepped, step_of};
ghost use Rattle.rv64_hart.specs.declared.ends.TurnEnd.TheVariants.{Went};
ghost use Rattle.rv64_hart.specs.declared.ends.Effect.TheVariants.{Nothing};

use crate::console::Console;
use crate::ends::{Effect, TurnEnd, poisoned};
use crate::hart::Hart;
use crate::parts::{behind, front, store_parts, words_touched};
use arrayvec::ArrayVec;
use poison_mem::{Bus, Cell, EventLog, UseKind};
use ras_bits::word_at;
use sbi_calls::GuestStop;

/// The bytes of the words that a console write touches: 4,096 bytes touch at most 513 words.
type SpanBytes = ArrayVec<u8, 4104>;

/// Appends the eight bytes of a word, which fit.
fn push_word(bytes: &mut SpanBytes, value: u64)
    requires { array_vec_len bytes.old + 8 ≤ 4104 }
    ensures items { bytes.new.items ≡ bytes.old.items ++ to_le_bytes w64 value }
    ensures len { array_vec_len bytes.new ≡ array_vec_len bytes.old + 8 }
{
    match bytes.try_extend_from_slice(&value.to_le_bytes()) {
        Ok(()) => (),
        Err(_) => unreachable!(),
    }
}

/// Reads `n` words from `w` on, in rising order, and appends their bytes. The word that is poison, where one is.
#[tactic(auto, unfolding(crate::specs::ConsoleCalls::bytes_asked))]
fn read_words<B: Bus, G: EventLog>(
    w: u32,
    n: u32,
    bytes: &mut SpanBytes,
    bus: &mut B,
    log: &mut G,
) -> Option<u32>
    requires there { w + n ≤ B.meaning.words bus.old }
    requires fits { w + n < 2 ^ 32 }
    requires room { array_vec_len bytes.old + 8 * n ≤ 4104 }
    ensures plays { play B.meaning G.logged (bytes_asked bytes.old.items w n) bus.old log.old ≡ asked_end result bytes.new.items bus.new log.new }
    ensures words { B.meaning.words bus.new ≡ B.meaning.words bus.old }
    ensures len { result ≡ None → array_vec_len bytes.new ≡ array_vec_len bytes.old + 8 * n }
{
    for i in 0..n {
        match bus.read(w + i, log) {
            Cell::Poison => return Some(w + i),
            Cell::Good(value) => push_word(bytes, value),
        }
    }
    None
}

impl Hart {
    /// A console write: `n` bytes of memory at a physical address. No byte is written before the last word was read.
    #[tactic(auto, unfolding(crate::specs::ConsoleCalls::bytes_written, crate::specs::ConsoleCalls::bytes_asked, crate::specs::Step::finished))]
    pub(crate) fn write_span<B: Bus, G: EventLog>(
        &mut self,
        words: u32,
        address: u64,
        n: u64,
        bus: &mut B,
        log: &mut G,
        con: &mut Console,
    ) -> TurnEnd
        requires bus { words ≡ B.meaning.words bus.old }
        requires most { n ≤ MOST_BYTES }
        requires in_ram { IsTouched words address n }
        ensures { (place : ℕ) →
            step_of B.meaning G.logged (bytes_written self.old address n) (scene self.old place con.old bus.old log.old)
            ≡ stepped result (scene self.new place con.new bus.new log.new) }
    {
        if n == 0 {
            self.answer(0);
            return TurnEnd::Went(Effect::Nothing);
        }
        let mut bytes = SpanBytes::new();
        let w = word_at(words, address);
        if let Some(w) = read_words(w, words_touched(address, n), &mut bytes, bus, log) {
            return poisoned(w, UseKind::Sbi);
        }
        let written = front(behind(bytes.as_slice(), address % 8), n);
        if !con.write(written) {
            return TurnEnd::Stop(GuestStop::ConsoleFull);
        }
        self.answer(n);
        TurnEnd::Went(Effect::Nothing)
    }

    /// A console read: at most `n` bytes of the input to memory at a physical address. How many are taken.
    #[tactic(auto, unfolding(crate::specs::ConsoleCalls::bytes_read, crate::specs::Step::finished))]
    pub(crate) fn read_span<B: Bus, G: EventLog>(
        &mut self,
        words: u32,
        address: u64,
        n: u64,
        input: &[u8],
        bus: &mut B,
        log: &mut G,
    ) -> u64
        requires bus { words ≡ B.meaning.words bus.old }
        requires most { n ≤ MOST_BYTES }
        requires in_ram { IsTouched words address n }
        ensures step { (place : ℕ) (console : List ℕ) →
            step_of B.meaning G.logged (bytes_read self.old input.now address n) (scene self.old place console bus.old log.old)
            ≡ stepped (Went Nothing) (scene self.new (place + result) console bus.new log.new) }
        ensures taken { result ≤ length input.now }
    {
        let bytes = front(input, n);
        store_parts(words, address, bytes, bus, log);
        let taken = bytes.len() as u64;
        self.answer(taken);
        taken
    }
}
