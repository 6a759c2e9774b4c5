//! The canonical text of a script.

ghost use Rattle.std.specs.Prelude.{◌≡◌, ◌+◌, ◌≤◌, ◌++◌, length, codes, decimal, OnOk, IfOk};
ghost use Rattle.arrayvec.specs.ArrayVec.{array_vec_len};
ghost use Rattle.ras_numbers.specs.Numbers.{address_text};
ghost use Rattle.fault_script.specs.declared.writing.TheConstants.{LINE_ROOM};
ghost use Rattle.fault_script.specs.Writing.{fields_text, line_text, script_text};
ghost use Rattle.fault_script.specs.Fields.{class_text};
ghost use Rattle.fault_script.specs.Commands.{command_fields, command_of_act, fields_of_act};

use crate::commands::Command;
use crate::fields::class_name;
use crate::lines::{Act, ScriptLine};
use arrayvec::ArrayVec;
use itoa::Buffer;
use poison_mem::Class;
use ras_bits::{NoMemory, word_address};
use std::alloc::{AllocError, Global};

/// The most bytes of a line.
const LINE_ROOM: usize = 80;

// Appends bytes that fit.
fn push(out: &mut ArrayVec<u8, LINE_ROOM>, bytes: &[u8])
    requires { array_vec_len out.old + length bytes.now ≤ LINE_ROOM }
    ensures items { out.new.items ≡ out.old.items ++ bytes.now }
    ensures len { array_vec_len out.new ≡ array_vec_len out.old + length bytes.now }
{
    match out.try_extend_from_slice(bytes) {
        Ok(()) => (),
        Err(_) => unreachable!(),
    }
}

// Appends a space and a number.
fn push_number(out: &mut ArrayVec<u8, LINE_ROOM>, n: u64)
    requires { array_vec_len out.old + 21 ≤ LINE_ROOM }
    ensures items { out.new.items ≡ out.old.items ++ codes " " ++ decimal n }
    ensures len { array_vec_len out.new ≤ array_vec_len out.old + 21 }
{
    let mut buffer = Buffer::new();
    push(out, b" ");
    push(out, buffer.format(n).as_bytes());
}

// Appends a space and a number of at most five digits.
fn push_short(out: &mut ArrayVec<u8, LINE_ROOM>, n: u16)
    requires { array_vec_len out.old + 6 ≤ LINE_ROOM }
    ensures items { out.new.items ≡ out.old.items ++ codes " " ++ decimal n }
    ensures len { array_vec_len out.new ≤ array_vec_len out.old + 6 }
{
    let mut buffer = Buffer::new();
    push(out, b" ");
    push(out, buffer.format(n).as_bytes());
}

// Appends a space and an address.
fn push_address(out: &mut ArrayVec<u8, LINE_ROOM>, address: u64)
    requires { array_vec_len out.old + 19 ≤ LINE_ROOM }
    ensures items { out.new.items ≡ out.old.items ++ codes " " ++ address_text address }
    ensures len { array_vec_len out.new ≡ array_vec_len out.old + 19 }
{
    push(out, b" ");
    push(out, &ras_numbers::address(address));
}

// Appends a bank and a record, each behind a space.
fn push_record(out: &mut ArrayVec<u8, LINE_ROOM>, bank: u8, rec: u8)
    requires { array_vec_len out.old + 12 ≤ LINE_ROOM }
    ensures items { out.new.items ≡ out.old.items ++ (codes " " ++ decimal bank ++ codes " " ++ decimal rec) }
    ensures len { array_vec_len out.new ≤ array_vec_len out.old + 12 }
{
    push_short(out, u16::from(bank));
    push_short(out, u16::from(rec));
}

// Appends a space and a class.
fn push_class(out: &mut ArrayVec<u8, LINE_ROOM>, class: Class)
    requires { array_vec_len out.old + 4 ≤ LINE_ROOM }
    ensures items { out.new.items ≡ out.old.items ++ codes " " ++ class_text class }
    ensures len { array_vec_len out.new ≤ array_vec_len out.old + 4 }
{
    push(out, b" ");
    push(out, class_name(class));
}

// Appends the fields behind the step.
fn push_fields(out: &mut ArrayVec<u8, LINE_ROOM>, act: &Act)
    requires { array_vec_len out.old + 41 ≤ LINE_ROOM }
    ensures items { out.new.items ≡ out.old.items ++ fields_text (command_fields (command_of_act act.now)) (fields_of_act act.now) }
    ensures len { array_vec_len out.new ≤ array_vec_len out.old + 41 }
{
    match *act {
        Act::Flip { w, bit } => {
            push_address(out, word_address(w));
            push_short(out, u16::from(bit));
        }
        Act::Scrub { w } => push_address(out, word_address(w)),
        Act::Inject {
            bank,
            rec,
            class,
            delay,
            addr,
        } => {
            push_record(out, bank, rec);
            push_class(out, class);
            push_short(out, delay);
            push_address(out, addr);
        }
        Act::Control { bank, rec, value } => {
            push_record(out, bank, rec);
            push_short(out, u16::from(value));
        }
    }
}

/// Replaces the contents of `out` by the canonical text of a line, with its line feed. Each line fits.
pub fn line_text(l: &ScriptLine, out: &mut ArrayVec<u8, 80>)
    ensures { out.new.items ≡ line_text l.now }
{
    out.clear();
    push(out, Command::of(&l.act).name());
    push_number(out, l.step);
    push_fields(out, &l.act);
    push(out, b"\n");
}

fn push_line(out: &mut Vec<u8>, line: &ScriptLine) -> Result<(), AllocError>
    ensures { OnOk result (out.new.items ≡ out.old.items ++ line_text line.now) }
{
    let mut text = ArrayVec::new();
    line_text(line, &mut text);
    out.extend_from_slice(&text)
}

/// The canonical text of lines.
pub(crate) fn write_lines(alloc: Global, lines: &[ScriptLine]) -> Result<Vec<u8>, NoMemory>
    ensures { IfOk result (λ v. v.items ≡ script_text lines.now) }
{
    let mut out = Vec::new(alloc);
    for line in lines {
        push_line(&mut out, line)?;
    }
    Ok(out)
}
