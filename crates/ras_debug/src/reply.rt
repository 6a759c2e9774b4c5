//! The text of a reply.

ghost use Rattle.std.specs.Prelude.{◌≡◌, ◌+◌, ◌≤◌, ◌++◌, [], length, IfOk};
ghost use Rattle.std.specs.Fmt.{decimal};
ghost use Rattle.ras_numbers.specs.Numbers.{address_text, hex_text};
ghost use Rattle.ras_debug.specs.declared.reply.TheConstants.{REPLY_BYTES};

use itoa::Buffer;
use ras_bits::NoMemory;
use std::alloc::Global;
use std::marker::Model;

/// The most bytes of a reply.
pub(crate) const REPLY_BYTES: usize = 32_768;

/// Room for a reply.
#[derive(Drop)]
pub(crate) struct Reply {
    bytes: Vec<u8>,
}

impl Model for Reply {
    ghost use Rattle.std.specs.Prelude.{ℕ, List, ◌≤◌, vec_capacity};
    ghost use Rattle.ras_debug.specs.declared.reply.TheConstants.{REPLY_BYTES};

    ghost Value = { List ℕ };

    ghost view = { λ r. r.bytes.items };

    ghost invariant = { λ r. REPLY_BYTES ≤ vec_capacity r.bytes };
}

impl Reply {
    /// Takes the room. Nothing is written yet. `NoMemory` comes for want of memory alone.
    pub(crate) fn make(alloc: Global) -> Result<Reply, NoMemory>
        ensures { IfOk result (λ r. r ≡ []) }
    {
        let bytes = Vec::with_capacity(alloc, REPLY_BYTES)?;
        Ok(Reply { bytes })
    }

    pub(crate) fn clear(&mut self)
        ensures { self.new ≡ [] }
    {
        self.bytes.clear();
    }

    /// Appends bytes that fit.
    pub(crate) fn push(&mut self, bytes: &[u8])
        requires { length self.old + length bytes.now ≤ REPLY_BYTES }
        ensures text { self.new ≡ self.old ++ bytes.now }
        ensures len { length self.new ≡ length self.old + length bytes.now }
    {
        self.bytes.extend_from_slice(bytes).unwrap();
    }

    /// Appends a number in decimal.
    pub(crate) fn push_number(&mut self, number: u64)
        requires { length self.old + 20 ≤ REPLY_BYTES }
        ensures text { self.new ≡ self.old ++ decimal number }
        ensures len { length self.new ≤ length self.old + 20 }
    {
        let mut buffer = Buffer::new();
        self.push(buffer.format(number).as_bytes());
    }

    /// Appends an address, or another number of 64 bits in its form.
    pub(crate) fn push_address(&mut self, address: u64)
        requires { length self.old + 18 ≤ REPLY_BYTES }
        ensures text { self.new ≡ self.old ++ address_text address }
        ensures len { length self.new ≡ length self.old + 18 }
    {
        self.push(&ras_numbers::address(address));
    }

    /// Appends the eight digits of an instruction.
    pub(crate) fn push_instruction(&mut self, word: u32)
        requires { length self.old + 8 ≤ REPLY_BYTES }
        ensures text { self.new ≡ self.old ++ hex_text 8 word }
        ensures len { length self.new ≡ length self.old + 8 }
    {
        self.push(&ras_numbers::hex_digits::<8>(u64::from(word)));
    }

    pub(crate) fn written(&self) -> &[u8]
        ensures { result.now ≡ self.now }
    {
        self.bytes.as_slice()
    }
}
