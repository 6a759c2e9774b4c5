//! A script as a value.

ghost use Rattle.std.specs.Prelude.{◌≡◌, ℕ, ◌+◌, ◌≤◌, ◌<◌, ◌^◌, length, slice_get, remove, IfOk};
ghost use Rattle.std.specs.List.{position_or_len};
ghost use Rattle.fault_script.specs.Script.{lines_in, map_ok};
ghost use Rattle.fault_script.specs.Fits.{FitsRam, IsScriptFor};
ghost use Rattle.fault_script.specs.Scripts.{is_later, with_line_inserted};
ghost use Rattle.fault_script.specs.declared.lines.TheConstants.{MOST_LINES};
ghost use Rattle.fault_script.specs.Writing.{script_text};
ghost use Rattle.fault_script.specs.Steps.{GivesScript};
ghost use Rattle.fault_script.specs.ReadBack.{IsReadAs};

use crate::lines::{ScriptError, ScriptLine};
use crate::reading::read_lines;
use crate::writing::write_lines;
use ras_bits::NoMemory;
use std::alloc::Global;
use std::marker::Model;

/// The faults of a run, in rising steps.
#[derive(Drop)]
pub struct Script {
    lines: Vec<ScriptLine>,
}

impl Model for Script {
    ghost use Rattle.std.specs.Prelude.{◌-◌, ◌≤◌, vec_len, vec_capacity};
    ghost use Rattle.fault_script.specs.declared.lines.TheConstants.{MOST_LINES};
    ghost use Rattle.fault_script.specs.Scripts.{ScriptState};

    ghost Value = { ScriptState };

    ghost view = { λ s. record { lines = s.lines.items; spare = vec_capacity s.lines - vec_len s.lines } };

    ghost invariant = { λ s. vec_len s.lines ≤ MOST_LINES };
}

// How many lines stand before the first one of a later step.
fn place_behind(lines: &[ScriptLine], step: u64) -> usize
    ensures value { result ≡ position_or_len (is_later step) lines.now }
    ensures within { result ≤ length lines.now }
{
    lines
        .iter()
        .position(|line| step < line.step)
        .unwrap_or(lines.len())
}

impl Script {
    /// The script that a text is, for a RAM of `ram_words` words of 8 bytes.
    ///
    /// A text has lines of words. Lines are separated by line feeds, and the last may lack one; a
    /// carriage return at the end of a line is ignored; words are separated by spaces and tabs. A
    /// line with no word, or whose first word begins with `#`, does nothing. The others are
    /// `flip STEP ADDR BIT`, `scrub STEP ADDR`, `inject STEP BANK REC CLASS DELAY ADDR` with a class
    /// `ce`, `ued` or `uec`, and `control STEP BANK REC VALUE`, with numbers in decimal digits, or `0x`
    /// and hexadecimal digits.
    ///
    /// The answer `Refused` names the first line that fails, counted from 1, and the first of these
    /// causes that it gives: `Bytes`, `Word`, `Count`, `TooMany`, and then its fields from left to
    /// right: `Number` where one is no number or VALUE is above 255, `Step` above 1,000,000,000,
    /// `Address` where it is not a multiple of 8 or not in RAM, `Bit` above 71, `Bank` where BANK or REC
    /// is above 1, `Class`, `Delay` outside 1 to 65,535. `NoMemory` is want of memory.
    pub fn read(alloc: Global, text: &[u8], ram_words: u32) -> Result<Script, ScriptError>
        requires { length text.now < 2 ^ 32 }
        ensures exact { GivesScript (map_ok (λ s. s.lines) result) (lines_in ram_words text.now) }
        ensures fits { IfOk result (λ s. IsScriptFor ram_words s.lines) }
    {
        let mut lines = read_lines(alloc, text, ram_words)?;
        match lines.sort_by_key(|line| line.step) {
            Ok(()) => Ok(Script { lines }),
            Err(_) => Err(ScriptError::NoMemory),
        }
    }

    /// The lines in rising steps, those of one step in the order of the text.
    pub fn lines(&self) -> &[ScriptLine]
        ensures { result.now ≡ self.now.lines }
    {
        &self.lines
    }

    /// The same lines, with room for at least `spare` more. `NoMemory` is want of memory.
    pub fn copy(&self, alloc: Global, spare: u32) -> Result<Script, NoMemory>
        ensures lines { IfOk result (λ s. s.lines ≡ self.now.lines) }
        ensures room { IfOk result (λ s. spare ≤ s.spare) }
    {
        let mut lines = Vec::with_capacity(alloc, self.lines.len() + spare as usize)?;
        lines.extend_from_slice(&self.lines)?;
        Ok(Script { lines })
    }

    /// Puts a line behind the last one whose step isn't above its own. No memory is taken: there is room
    /// for it.
    ///
    /// A script for a RAM remains one where the line fits that RAM.
    pub fn insert(&mut self, l: ScriptLine)
        requires room { 1 ≤ self.old.spare }
        requires few { length self.old.lines < MOST_LINES }
        ensures lines { self.new.lines ≡ with_line_inserted l self.old.lines }
        ensures room { self.new.spare + 1 ≡ self.old.spare }
        ensures fits { (ram_words : ℕ) → IsScriptFor ram_words self.old.lines → FitsRam ram_words l → IsScriptFor ram_words self.new.lines }
    {
        let at = place_behind(&self.lines, l.step);
        match self.lines.insert(at, l) {
            Ok(()) => (),
            Err(_) => unreachable!(),
        }
    }

    /// Takes out line `i`, counted from 0, and leaves room for one more. A script for a RAM remains one.
    pub fn remove(&mut self, i: u32) -> ScriptLine
        requires { i < length self.old.lines }
        ensures line { slice_get self.old.lines i ≡ Some result }
        ensures lines { self.new.lines ≡ remove self.old.lines i }
        ensures room { self.new.spare ≡ self.old.spare + 1 }
        ensures fits { (ram_words : ℕ) → IsScriptFor ram_words self.old.lines → IsScriptFor ram_words self.new.lines }
    {
        self.lines.remove(i as usize)
    }

    /// The canonical text: single spaces, addresses as `0x` and sixteen lower-case digits, other
    /// numbers decimal, a line feed after each line. Read for a RAM that the script is for, it is
    /// this script again. `NoMemory` is want of memory.
    pub fn write(&self, alloc: Global) -> Result<Vec<u8>, NoMemory>
        ensures text { IfOk result (λ v. v.items ≡ script_text self.now.lines) }
        ensures reads_back { IfOk result (λ v. (ram_words : ℕ) → ram_words < 2 ^ 32 → IsScriptFor ram_words self.now.lines → IsReadAs ram_words v.items self.now.lines) }
    {
        write_lines(alloc, &self.lines)
    }
}
