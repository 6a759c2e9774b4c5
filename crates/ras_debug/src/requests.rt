//! What a line asks for.

ghost use Rattle.std.specs.Prelude.{◌≡◌, IfOk};
ghost use Rattle.fault_script.specs.Words.{words_of};
ghost use Rattle.ras_debug.specs.declared.commands.Command.TheVariants as commands;
ghost use Rattle.ras_debug.specs.Asked.{CanAnswer};
ghost use Rattle.ras_debug.specs.Requests.{request_of, request_said, words_ask};

use crate::commands::{Command, Why};
use crate::fields::{code_address, count_from, number_within, ram_address};
use fault_script::{count_words, is_readable, line_word, trim_return};
use ras_bits::{LAST_STEP, word_at};

/// What a line asks for, with its fields.
#[derive(Clone, Copy)]
pub(crate) enum Request {
    /// The line is empty or a comment.
    Nothing,
    /// So many steps.
    Step(u64),
    /// Steps to a breakpoint or to the ending.
    Run,
    /// A breakpoint at this address.
    Break(u64),
    /// The registers of the harts.
    Regs,
    /// So many words of RAM from word `w` on.
    Mem { w: u32, n: u32 },
    /// The poisoned words.
    Poison,
    /// The records of a bank.
    Bank(u8),
    /// So many instructions from an address on.
    List { address: u64, n: u32 },
    /// The end of the session.
    Quit,
}

// `step N`.
#[tactic(auto, unfolding(crate::specs::Requests::request_said))]
fn step(line: &[u8], ram_words: u32) -> Result<Request, Why>
    ensures exact { result ≡ request_said ram_words (words_of line.now) commands.Step }
    ensures fits { IfOk result (CanAnswer ram_words) }
{
    let n = number_within(1, LAST_STEP, line_word(line, 1))?;
    Ok(Request::Step(n))
}

// `break A`.
#[tactic(auto, unfolding(crate::specs::Requests::request_said))]
fn set_break(line: &[u8], ram_words: u32) -> Result<Request, Why>
    ensures exact { result ≡ request_said ram_words (words_of line.now) commands.Break }
    ensures fits { IfOk result (CanAnswer ram_words) }
{
    let address = code_address(line_word(line, 1))?;
    Ok(Request::Break(address))
}

// `mem A N`.
#[tactic(auto, unfolding(crate::specs::Requests::request_said))]
fn mem(line: &[u8], ram_words: u32) -> Result<Request, Why>
    ensures exact { result ≡ request_said ram_words (words_of line.now) commands.Mem }
    ensures fits { IfOk result (CanAnswer ram_words) }
{
    let address = ram_address(8, ram_words, line_word(line, 1))?;
    let n = count_from(8, ram_words, address, line_word(line, 2))?;
    let w = word_at(ram_words, address);
    Ok(Request::Mem { w, n })
}

// `bank B`.
#[tactic(auto, unfolding(crate::specs::Requests::request_said))]
fn bank(line: &[u8], ram_words: u32) -> Result<Request, Why>
    ensures exact { result ≡ request_said ram_words (words_of line.now) commands.Bank }
    ensures fits { IfOk result (CanAnswer ram_words) }
{
    let bank = number_within(0, 2, line_word(line, 1))?;
    Ok(Request::Bank(bank as u8))
}

// `list A N`.
#[tactic(auto, unfolding(crate::specs::Requests::request_said))]
fn list(line: &[u8], ram_words: u32) -> Result<Request, Why>
    ensures exact { result ≡ request_said ram_words (words_of line.now) commands.List }
    ensures fits { IfOk result (CanAnswer ram_words) }
{
    let address = ram_address(4, ram_words, line_word(line, 1))?;
    let n = count_from(4, ram_words, address, line_word(line, 2))?;
    Ok(Request::List { address, n })
}

// What the words behind a command's name ask for.
#[tactic(auto, unfolding(crate::specs::Requests::request_said))]
fn request_said(line: &[u8], ram_words: u32, command: Command) -> Result<Request, Why>
    ensures exact { result ≡ request_said ram_words (words_of line.now) command }
    ensures fits { IfOk result (CanAnswer ram_words) }
{
    match command {
        Command::Step => step(line, ram_words),
        Command::Run => Ok(Request::Run),
        Command::Break => set_break(line, ram_words),
        Command::Regs => Ok(Request::Regs),
        Command::Mem => mem(line, ram_words),
        Command::Poison => Ok(Request::Poison),
        Command::Bank => bank(line, ram_words),
        Command::List => list(line, ram_words),
        Command::Quit => Ok(Request::Quit),
    }
}

// What the words of a line ask for.
#[tactic(auto, unfolding(crate::specs::Requests::words_ask))]
fn words_ask(line: &[u8], ram_words: u32) -> Result<Request, Why>
    ensures exact { result ≡ words_ask ram_words (words_of line.now) }
    ensures fits { IfOk result (CanAnswer ram_words) }
{
    let command = Command::named(line_word(line, 0))?;
    if count_words(line) != command.word_count() {
        return Err(Why::Count);
    }
    request_said(line, ram_words, command)
}

/// What a line asks for, where the RAM has so many words, or the first check that it fails.
#[tactic(auto, unfolding(crate::specs::Requests::request_of))]
pub(crate) fn read_request(line: &[u8], ram_words: u32) -> Result<Request, Why>
    ensures exact { result ≡ request_of ram_words line.now }
    ensures fits { IfOk result (CanAnswer ram_words) }
{
    let line = trim_return(line);
    if !is_readable(line) {
        return Err(Why::Bytes);
    }
    if count_words(line) == 0 {
        return Ok(Request::Nothing);
    }
    let word = line_word(line, 0);
    if !word.is_empty() && word[0] == b'#' {
        return Ok(Request::Nothing);
    }
    words_ask(line, ram_words)
}
