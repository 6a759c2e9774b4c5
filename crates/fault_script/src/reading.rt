//! A text, read line by line up to its first failing line.

ghost use Rattle.std.specs.Prelude.{◌≡◌, ◌<◌, ◌^◌, ◌≢◌, length, IfOk, OnOk, IfSome, OnSome};
ghost use Rattle.std.specs.List.{list_all};
ghost use Rattle.fault_script.specs.declared.lines.TheConstants.{MOST_LINES};
ghost use Rattle.fault_script.specs.declared.commands.Command.TheVariants.{Flip, Scrub, Inject, Control};
ghost use Rattle.fault_script.specs.Words.{words_of};
ghost use Rattle.fault_script.specs.Fits.{FitsRamAct, FitsRam, AreReadable};
ghost use Rattle.fault_script.specs.Script.{act_said, acting_line, is_script_byte, line_of, lines_in, GivesLines, map_ok};

use crate::commands::Command;
use crate::fields::{address, bank_or_record, bit, class, control_value, delay, number_up_to};
use crate::lines::{Act, MOST_LINES, ScriptError, ScriptLine, Why};
use crate::words::{count_words, cut_line, line_word, trim_return};
use ras_bits::{LAST_STEP, word_at};
use std::alloc::Global;

// `flip STEP ADDR BIT`, from its third word on.
#[tactic(auto, unfolding(crate::specs::Script::act_said))]
fn flip(line: &[u8], ram_words: u32) -> Result<Act, Why>
    ensures exact { result ≡ act_said ram_words (words_of line.now) Flip }
    ensures fits { IfOk result (FitsRamAct ram_words) }
{
    let address = address(line_word(line, 2), ram_words)?;
    let bit = bit(line_word(line, 3))?;
    let w = word_at(ram_words, address);
    Ok(Act::Flip { w, bit })
}

// `scrub STEP ADDR`, from its third word on.
#[tactic(auto, unfolding(crate::specs::Script::act_said))]
fn scrub(line: &[u8], ram_words: u32) -> Result<Act, Why>
    ensures exact { result ≡ act_said ram_words (words_of line.now) Scrub }
    ensures fits { IfOk result (FitsRamAct ram_words) }
{
    let address = address(line_word(line, 2), ram_words)?;
    let w = word_at(ram_words, address);
    Ok(Act::Scrub { w })
}

// `inject STEP BANK REC CLASS DELAY ADDR`, from its third word on.
#[tactic(auto, unfolding(crate::specs::Script::act_said))]
fn inject(line: &[u8], ram_words: u32) -> Result<Act, Why>
    ensures exact { result ≡ act_said ram_words (words_of line.now) Inject }
    ensures fits { IfOk result (FitsRamAct ram_words) }
{
    let bank = bank_or_record(line_word(line, 2))?;
    let rec = bank_or_record(line_word(line, 3))?;
    let class = class(line_word(line, 4))?;
    let delay = delay(line_word(line, 5))?;
    let addr = address(line_word(line, 6), ram_words)?;
    Ok(Act::Inject {
        bank,
        rec,
        class,
        delay,
        addr,
    })
}

// `control STEP BANK REC VALUE`, from its third word on.
#[tactic(auto, unfolding(crate::specs::Script::act_said))]
fn control(line: &[u8], ram_words: u32) -> Result<Act, Why>
    ensures exact { result ≡ act_said ram_words (words_of line.now) Control }
    ensures fits { IfOk result (FitsRamAct ram_words) }
{
    let bank = bank_or_record(line_word(line, 2))?;
    let rec = bank_or_record(line_word(line, 3))?;
    let value = control_value(line_word(line, 4))?;
    Ok(Act::Control { bank, rec, value })
}

fn act(line: &[u8], ram_words: u32, command: Command) -> Result<Act, Why>
    ensures exact { result ≡ act_said ram_words (words_of line.now) command }
    ensures fits { IfOk result (FitsRamAct ram_words) }
{
    match command {
        Command::Flip => flip(line, ram_words),
        Command::Scrub => scrub(line, ram_words),
        Command::Inject => inject(line, ram_words),
        Command::Control => control(line, ram_words),
    }
}

// A line that acts, after so many that did.
#[tactic(auto, unfolding(crate::specs::Script::acting_line))]
fn acting_line(line: &[u8], acted: usize, ram_words: u32) -> Result<ScriptLine, Why>
    ensures exact { result ≡ acting_line ram_words acted (words_of line.now) }
    ensures fits { IfOk result (FitsRam ram_words) }
    ensures room { OnOk result (acted ≢ MOST_LINES) }
{
    let command = Command::named(line_word(line, 0))?;
    if count_words(line) != command.word_count() {
        return Err(Why::Count);
    }
    if acted == MOST_LINES {
        return Err(Why::TooMany);
    }
    let step = number_up_to(line_word(line, 1), LAST_STEP, Why::Step)?;
    let act = act(line, ram_words, command)?;
    Ok(ScriptLine { step, act })
}

/// Whether each byte of a line is printable ASCII, a space or a tab.
pub fn is_readable(line: &[u8]) -> bool
    ensures { result ≡ list_all is_script_byte line.now }
{
    line.iter()
        .all(|byte| (32 <= *byte && *byte <= 126) || *byte == b'\t')
}

// What a line does, if it acts, after so many that did.
#[tactic(auto, unfolding(crate::specs::Script::line_of))]
fn read_line(line: &[u8], acted: usize, ram_words: u32) -> Result<Option<ScriptLine>, Why>
    ensures exact { result ≡ line_of ram_words acted line.now }
    ensures fits { IfOk result (λ r. IfSome r (FitsRam ram_words)) }
    ensures room { IfOk result (λ r. OnSome r (acted ≢ MOST_LINES)) }
{
    let line = trim_return(line);
    if !is_readable(line) {
        return Err(Why::Bytes);
    }
    if count_words(line) == 0 {
        return Ok(None);
    }
    let word = line_word(line, 0);
    if !word.is_empty() && word[0] == b'#' {
        return Ok(None);
    }
    match acting_line(line, acted, ram_words) {
        Ok(line) => Ok(Some(line)),
        Err(why) => Err(why),
    }
}

/// The lines of a text that act, in its order.
#[tactic(auto, using(crate::proofs::ReadingLemmas::fits_more))]
pub(crate) fn read_lines(
    alloc: Global,
    text: &[u8],
    ram_words: u32,
) -> Result<Vec<ScriptLine>, ScriptError>
    requires { length text.now < 2 ^ 32 }
    ensures exact { GivesLines (map_ok (λ v. v.items) result) (lines_in ram_words text.now) }
    ensures fits { IfOk result (λ v. AreReadable ram_words v.items) }
{
    let mut lines = Vec::new(alloc);
    let mut number = 0u32;
    let mut rest = text;
    while !rest.is_empty() {
        let (line, behind) = cut_line(rest);
        match read_line(line, lines.len(), ram_words) {
            Ok(Some(line)) => lines.push(line)?,
            Ok(None) => {}
            Err(why) => return Err(ScriptError::Refused {
                line: number + 1,
                why,
            }),
        }
        number += 1;
        rest = behind;
    }
    Ok(lines)
}
