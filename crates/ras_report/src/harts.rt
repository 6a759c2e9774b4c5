//! The lines of harts.

ghost use Rattle.std.specs.Prelude.{◌≡◌, ◌+◌, ◌<◌, ◌≤◌, ◌++◌, length};
ghost use Rattle.arrayvec.specs.ArrayVec.{array_vec_len};
ghost use Rattle.ras_report.specs.declared.text.TheConstants.{REPORT_ROOM};
ghost use Rattle.ras_report.specs.Harts.{register_text, registers_to, hart_name, hart_line};

use crate::text::{Report, push, push_address, push_short};
use rv64_hart::Hart;

// Appends a register with its number, where it isn't 0.
fn push_register(text: &mut Report, i: u8, value: u64)
    requires { array_vec_len text.old + 24 ≤ REPORT_ROOM }
    ensures items { text.new.items ≡ text.old.items ++ register_text i value }
    ensures len { array_vec_len text.new ≤ array_vec_len text.old + 24 }
{
    if value != 0 {
        push(text, b" x");
        push_short(text, i);
        push(text, b"=");
        push_address(text, value);
    }
}

// Appends the registers x1 to x31 that aren't 0, in rising order.
#[tactic(auto, using(crate::proofs::Lines::registers_none))]
fn push_registers(text: &mut Report, hart: &Hart)
    requires { array_vec_len text.old + 744 ≤ REPORT_ROOM }
    ensures items { text.new.items ≡ text.old.items ++ registers_to hart.now 31 }
    ensures len { array_vec_len text.new ≤ array_vec_len text.old + 744 }
{
    for n in 0..31u8 {
        push_register(text, n + 1, hart.x(n + 1));
    }
}

// Appends which hart a line is of: hart 0's has no number.
fn push_name(text: &mut Report, i: u8, started: bool)
    requires { array_vec_len text.old + 16 ≤ REPORT_ROOM }
    ensures items { text.new.items ≡ text.old.items ++ hart_name i started }
    ensures len { array_vec_len text.new ≤ array_vec_len text.old + 16 }
{
    if i == 0 {
        push(text, b"regs");
        return;
    }
    push(text, b"hart ");
    push_short(text, i);
    push(text, if started { b" started" } else { b" stopped" });
}

/// Appends the line of hart `i` behind a prefix.
pub(crate) fn push_hart(text: &mut Report, prefix: &[u8], i: u8, hart: &Hart)
    requires { array_vec_len text.old + (length prefix.now + 783) ≤ REPORT_ROOM }
    ensures items { text.new.items ≡ text.old.items ++ hart_line prefix.now i hart.now }
    ensures len { array_vec_len text.new ≤ array_vec_len text.old + (length prefix.now + 783) }
{
    push(text, prefix);
    push_name(text, i, hart.started());
    push(text, b" pc=");
    push_address(text, hart.pc());
    push_registers(text, hart);
    push(text, b"\n");
}
